//! The page's text after its data: the one with `page/main.js`. `.ci/explore_page.py --write` writes it.

/// The page's text after its data: the one with `page/main.js`.
pub(crate) const MAIN: &[u8] = b"\
    <script>\n\
    \"use strict\";\n\
    // The page: its state, and what keys and buttons do to it.\n\
    \n\
    const FILM_SPEEDS = [1, 2, 4, 10, 30, 100, 300, 1000];\n\
    const UNDO_LIMIT = 200;\n\
    // On paper, which is a landscape page of A4 or of Letter: how wide the run is drawn with its names, of which\
    \x20these take\n\
    // at least some, and how high at most; from how many pixels of a column on it is shown whole, how many a col\
    umn has if\n\
    // not, and how fine a pixel is.\n\
    const PAPER = { width: 958, names: 138, height: 400, whole: 9, scale: 26, ratio: 3 };\n\
    const HOW_TO_MOVE = \"Move it: click an event, drag a grip, or use the arrow keys on a lane.\";\n\
    \n\
    window.addEventListener(\"error\", (event) => { byId(\"status\").textContent = \"The page failed: \" + event.\
    message; });\n\
    \n\
    const data = JSON.parse(byId(\"data\").textContent);\n\
    byId(\"data\").remove();\n\
    const run = readRun(data);\n\
    run.wishes = readWishes(run, run.cycle !== null ? [] : data.wishes ?? []);\n\
    run.notes = (data.notes ?? []).length === 0 ? null : new Notes(run, data.notes);\n\
    \n\
    const state = {\n\
    \x20 cut: run.counts.map(() => 0), before: run.counts.map(() => 0), forced: [], undo: [],\n\
    \x20 lane: 0, focused: false, selected: null, cone: null, shown: -1, typed: null, film: null, query: \"\", hi\
    ts: [], hit: -1,\n\
    \x20 view: { left: 0, scale: 1 }, listing: { p: 0, first: 1 },\n\
    \x20 order: [...run.names.keys()], folded: run.names.map(() => false), only: false,\n\
    };\n\
    const actions = { show, showCut, playFilm, select, cutTo, unselect: () => select(null) };\n\
    const canvas = byId(\"diagram\");\n\
    const overview = byId(\"overview\");\n\
    const size = { width: 0, height: 0, top: 0, lane: 0, ratio: 1, order: [], folded: [], heights: [], tops: [] }\
    ;\n\
    const strip = { width: 0, height: 0, ground: null };\n\
    let palette = readPalette();\n\
    let cards = [];\n\
    let rows = [];\n\
    let lanes = [];\n\
    let asked = false;\n\
    let timer = 0;\n\
    let said = 0;\n\
    let searching = 0;\n\
    let printing = false;\n\
    \n\
    // ---- drawing ---------------------------------------------------------------------------------------------\
    -------\n\
    \n\
    function measure() {\n\
    \x20 const shell = byId(\"picture\");\n\
    \x20 size.ratio = printing ? PAPER.ratio : Math.max(1, window.devicePixelRatio || 1);\n\
    \x20 layOut(size, state, printing ? PAPER.height : Math.min(window.innerHeight * 0.6, 720));\n\
    \x20 size.width = printing ? PAPER.width - Math.max(PAPER.names, byId(\"lanes\").offsetWidth)\n\
    \x20   : Math.max(120, Math.floor(shell.clientWidth));\n\
    \x20 document.documentElement.style.setProperty(\"--lane-height\", size.lane + \"px\");\n\
    \x20 fitCanvas(canvas, size.width, size.height);\n\
    \x20 strip.width = Math.max(120, Math.floor(byId(\"stage\").clientWidth));\n\
    \x20 strip.height = Math.max(26, Math.min(60, 8 + 3 * run.size));\n\
    \x20 fitCanvas(overview, strip.width, strip.height);\n\
    \x20 strip.ground = drawGround(run, state.order, palette, strip.width, strip.height, size.ratio);\n\
    \x20 if (!printing) return setView(state.view.left, state.view.scale);\n\
    \x20 state.view = paperView();\n\
    \x20 draw();   // no frame may come before the page is on paper\n\
    }\n\
    \n\
    function fitCanvas(which, width, height) {\n\
    \x20 which.width = Math.round(width * size.ratio);\n\
    \x20 which.height = Math.round(height * size.ratio);\n\
    \x20 which.style.width = width + \"px\";\n\
    \x20 which.style.height = height + \"px\";\n\
    }\n\
    \n\
    function draw() {\n\
    \x20 asked = false;\n\
    \x20 const context = canvas.getContext(\"2d\", { alpha: false });\n\
    \x20 context.setTransform(size.ratio, 0, 0, size.ratio, 0, 0);\n\
    \x20 const told = drawDiagram(context, run, state, palette, size);\n\
    \x20 showHidden(told.between);\n\
    \x20 byId(\"level\").textContent = byId(\"level\").title = (told.drawn < told.all\n\
    \x20   ? \"1 of \" + Math.round(told.all / told.drawn) + \" messages drawn. \" : \"\") + (run.cycle !== null\n\
    \x20   ? \"Refused: a causal cycle\" : \"Level \" + levelOf(state.cut) + \", cut \" + state.cut.join(\",\"));\
    \n\
    \x20 const small = overview.getContext(\"2d\", { alpha: false });\n\
    \x20 small.setTransform(size.ratio, 0, 0, size.ratio, 0, 0);\n\
    \x20 drawOverview(small, run, state, palette, strip.ground, strip.width, strip.height, size.width);\n\
    }\n\
    \n\
    function showHidden(between) {\n\
    \x20 const text = hiddenText(run, state, between);\n\
    \x20 if (byId(\"hidden\").textContent !== text) byId(\"hidden\").textContent = text;\n\
    }\n\
    \n\
    // Asks for one drawing at the next frame, however often it is called before.\n\
    function redraw() {\n\
    \x20 if (asked) return;\n\
    \x20 asked = true;\n\
    \x20 requestAnimationFrame(draw);\n\
    }\n\
    \n\
    function setView(left, scale) {\n\
    \x20 state.view = clampView(run, size.width, { left, scale });\n\
    \x20 redraw();\n\
    \x20 remember();\n\
    }\n\
    \n\
    function zoom(factor, x = size.width / 2) {\n\
    \x20 stretch(state.view.scale * factor, columnAt(state.view, x), x);\n\
    }\n\
    \n\
    // Zooms to a scale, as far as that goes, with a column at x.\n\
    function stretch(wanted, column, x) {\n\
    \x20 const { scale } = clampView(run, size.width, { left: 0, scale: wanted });\n\
    \x20 setView(column - x / scale, scale);\n\
    }\n\
    \n\
    // Moves the view so that a column stands in it, if it doesn't.\n\
    function reveal(column) {\n\
    \x20 const x = xOf(state.view, column);\n\
    \x20 if (x < 30 || x > size.width - 30) setView(column - size.width / 2 / state.view.scale, state.view.scale)\
    ;\n\
    }\n\
    \n\
    // A run that would be too narrow as a whole is shown in part first.\n\
    function firstScale() {\n\
    \x20 return fitScale(run, size.width) < 14 ? 26 : 0;\n\
    }\n\
    \n\
    // The columns of the last events in the cut, or of those of the causal cycle.\n\
    function cutColumns() {\n\
    \x20 return run.cycle === null ? state.cut.map((count, p) => run.columns[p][count])\n\
    \x20   : run.cycle.flatMap(({ receipt, send }) => [receipt, send]).map(({ p, i }) => run.columns[p][i]);\n\
    }\n\
    \n\
    // What is shown on paper: the whole run, if its events can be told apart so, and else what is around the who\
    le cut.\n\
    function paperView() {\n\
    \x20 const whole = fitScale(run, size.width);\n\
    \x20 if (whole >= PAPER.whole) return clampView(run, size.width, { left: 0, scale: whole });\n\
    \x20 const columns = cutColumns();\n\
    \x20 const [first, last] = [Math.min(...columns), Math.max(...columns)];\n\
    \x20 const scale = Math.min(PAPER.scale, size.width / (last - first + 4));\n\
    \x20 return clampView(run, size.width, { left: (first + last + 1) / 2 - size.width / 2 / scale, scale });\n\
    }\n\
    \n\
    // Moves the view so that the whole cut, or the causal cycle, stands in it, or at least what is on the lane o\
    f it, if it\n\
    // can't.\n\
    function revealCut() {\n\
    \x20 const columns = cutColumns();\n\
    \x20 const [first, last] = [Math.min(...columns), Math.max(...columns)];\n\
    \x20 const { scale } = state.view;\n\
    \x20 if ((last - first + 2) * scale > size.width) return reveal(run.cycle === null ? columns[state.lane] : fi\
    rst);\n\
    \x20 if (xOf(state.view, first) < 30 || xOf(state.view, last) > size.width - 60) {\n\
    \x20   setView((first + last) / 2 - size.width / 2 / scale, scale);\n\
    \x20 }\n\
    }\n\
    \n\
    // ---- the state -------------------------------------------------------------------------------------------\
    -------\n\
    \n\
    // Shows another cut. `from` is the one that it is compared with, if not the one before.\n\
    function setCut(next, { forced = [], text = \"\", from = state.cut, keep = true } = {}) {\n\
    \x20 if (keep && String(next) !== String(state.cut)) {\n\
    \x20   state.undo.push(state.cut);\n\
    \x20   if (state.undo.length > UNDO_LIMIT) state.undo.shift();\n\
    \x20 }\n\
    \x20 state.before = from;\n\
    \x20 state.cut = next;\n\
    \x20 state.forced = forced;\n\
    \x20 list(state.lane, next[state.lane]);\n\
    \x20 say([text, ...turned(run, from, next)].join(\" \"));\n\
    \x20 update();\n\
    }\n\
    \n\
    function move(p, count) {\n\
    \x20 const before = state.cut;\n\
    \x20 const { cut, forced, direction } = moveTo(run, before, p, count);\n\
    \x20 if (direction === 0) return;\n\
    \x20 state.lane = p;\n\
    \x20 setCut(cut, { forced, text: moveText(run, before, cut, p, forced) });\n\
    \x20 reveal(run.columns[p][cut[p]]);\n\
    }\n\
    \n\
    function cutTo(p, count) {\n\
    \x20 if (run.cycle !== null) return;\n\
    \x20 pause();\n\
    \x20 move(p, count);\n\
    }\n\
    \n\
    function undo() {\n\
    \x20 if (state.undo.length === 0) return;\n\
    \x20 pause();\n\
    \x20 setCut(state.undo.pop(), { keep: false, text: \"The cut before.\" });\n\
    \x20 revealCut();\n\
    }\n\
    \n\
    function select(p, i) {\n\
    \x20 state.selected = p === null ? null : { p, i };\n\
    \x20 state.cone = p === null || run.cycle !== null ? null : coneOf(run, p, i);\n\
    \x20 if (p !== null) {\n\
    \x20   state.lane = p;\n\
    \x20   if (state.folded[p]) setLanes(state.order, state.folded.map((is, q) => is && q !== p), p);\n\
    \x20   list(p, i);\n\
    \x20   reveal(run.columns[p][i]);\n\
    \x20   say(eventText(run, p, i));\n\
    \x20 }\n\
    \x20 update();\n\
    }\n\
    \n\
    function list(p, i) {\n\
    \x20 const { first } = state.listing;\n\
    \x20 if (state.listing.p !== p || i < first || i >= first + LISTING_ROWS) {\n\
    \x20   state.listing = { p, first: Math.max(1, i - Math.floor(LISTING_ROWS / 2)) };\n\
    \x20 }\n\
    }\n\
    \n\
    function show(k) {\n\
    \x20 state.shown = state.shown === k ? -1 : k;\n\
    \x20 update();\n\
    }\n\
    \n\
    function showCut(k) {\n\
    \x20 closeFilm();\n\
    \x20 state.shown = k;\n\
    \x20 const { name, node, possibly } = run.predicates[k];\n\
    \x20 const cut = possibly[1].slice();\n\
    \x20 setCut(cut, { text: isTrue(node, reader(run, cut)) ? name + \" is true at this cut.\"\n\
    \x20   : \"This page and the report disagree on \" + name + \" at this cut: the page is wrong.\" });\n\
    \x20 revealCut();\n\
    }\n\
    \n\
    function update() {\n\
    \x20 updateView();\n\
    \x20 updatePredicates(run, state, cards);\n\
    \x20 updateTyped(run, state);\n\
    \x20 updateValues(run, state, rows);\n\
    \x20 updateEvent(run, state, actions);\n\
    \x20 updateListing(run, state, actions);\n\
    \x20 updateHeads(run, state, lanes);\n\
    \x20 updateFilm();\n\
    \x20 byId(\"undo\").disabled = state.undo.length === 0;\n\
    \x20 redraw();\n\
    \x20 remember();\n\
    }\n\
    \n\
    function say(text) {\n\
    \x20 byId(\"status\").textContent = text;\n\
    \x20 clearTimeout(said);\n\
    \x20 said = setTimeout(() => { byId(\"live\").textContent = text; }, 400);\n\
    }\n\
    \n\
    // ---- lanes -----------------------------------------------------------------------------------------------\
    -------\n\
    \n\
    function makeLanes() {\n\
    \x20 const on = {\n\
    \x20   focus: (p) => {\n\
    \x20     state.focused = true;\n\
    \x20     state.lane = p;\n\
    \x20     updateHeads(run, state, lanes);\n\
    \x20     redraw();\n\
    \x20   },\n\
    \x20   blur: () => { state.focused = false; redraw(); },\n\
    \x20   key: laneKey,\n\
    \x20   fold: toggleFold,\n\
    \x20   step: (p, step) => toPlace(p, state.order.indexOf(p) + step),\n\
    \x20   grip: (event, p) => followGrip(event, size, p, (place) => toPlace(p, place)),\n\
    \x20 };\n\
    \x20 lanes = run.names.map((_, p) => makeLane(run, p, on));\n\
    \x20 byId(\"lanes\").append(...lanes.map(({ head }) => head));\n\
    }\n\
    \n\
    // Gives the lanes another order, and folds some of them. Their heads stand beside what is drawn of them.\n\
    function setLanes(order, folded, lane = state.lane) {\n\
    \x20 Object.assign(state, { order, folded, lane });\n\
    \x20 orderHeads(lanes, order, lane);\n\
    \x20 measure();\n\
    \x20 update();\n\
    }\n\
    \n\
    function toPlace(p, place) {\n\
    \x20 if (place < 0 || place >= run.size || state.order[place] === p) return;\n\
    \x20 setLanes(movedTo(state.order, p, place), state.folded, p);\n\
    \x20 say(run.names[p] + \" is lane \" + (place + 1) + \" of \" + run.size + \" now.\");\n\
    }\n\
    \n\
    function toggleFold(p) {\n\
    \x20 setLanes(state.order, state.folded.map((is, q) => is !== (q === p)), p);\n\
    \x20 say(\"The lane of \" + run.names[p] + \" is \" + (state.folded[p] ? \"folded.\" : \"unfolded.\"));\n\
    }\n\
    \n\
    // The processes that the shown predicate names, as first lanes.\n\
    function namedFirst() {\n\
    \x20 const { name, refs } = run.predicates[state.shown];\n\
    \x20 setLanes(withFirst(state.order, processesOf(refs)), state.folded);\n\
    \x20 say(\"The processes that \" + name + \" names stand first.\");\n\
    }\n\
    \n\
    function resetLanes() {\n\
    \x20 setLanes([...run.names.keys()], run.names.map(() => false));\n\
    \x20 say(\"All lanes are unfolded, in the order of the document.\");\n\
    }\n\
    \n\
    function laneKey(event, p) {\n\
    \x20 if (event.ctrlKey || event.altKey || event.metaKey || event.shiftKey) return;\n\
    \x20 const step = { ArrowLeft: -1, ArrowRight: 1, PageUp: 10, PageDown: -10, Home: -Infinity, End: Infinity }\
    [event.key];\n\
    \x20 const within = (i) => Math.max(0, Math.min(run.counts[p], i));\n\
    \x20 if (step !== undefined && run.cycle !== null) {\n\
    \x20   const i = within((state.selected !== null && state.selected.p === p ? state.selected.i : 0) + step);\n\
    \x20   if (run.counts[p] > 0) select(p, Math.max(1, i));\n\
    \x20 } else if (step !== undefined) cutTo(p, within(state.cut[p] + step));\n\
    \x20 else if (event.key === \"ArrowUp\" || event.key === \"ArrowDown\") {\n\
    \x20   const q = state.order[state.order.indexOf(p) + (event.key === \"ArrowUp\" ? -1 : 1)];\n\
    \x20   if (q !== undefined) lanes[q].lane.focus();\n\
    \x20 } else return;\n\
    \x20 event.preventDefault();\n\
    }\n\
    \n\
    // ---- what matters ----------------------------------------------------------------------------------------\
    -------\n\
    \n\
    // Shows only what matters to the shown predicate, or all again. The variables that are shown so stand in `on\
    lyFor`.\n\
    let onlyFor = \"\";\n\
    function setOnly(on) {\n\
    \x20 state.only = on;\n\
    \x20 const wanted = on && state.shown >= 0 ? String(state.shown) : \"\";\n\
    \x20 if (wanted === onlyFor) return;\n\
    \x20 onlyFor = wanted;\n\
    \x20 if (wanted === \"\") showAll(run);\n\
    \x20 else showOnly(run, run.predicates[state.shown].refs);\n\
    \x20 strip.ground = drawGround(run, state.order, palette, strip.width, strip.height, size.ratio);\n\
    \x20 state.view = clampView(run, size.width, { left: 0, scale: firstScale() });\n\
    \x20 if (run.cycle === null) revealCut();\n\
    }\n\
    \n\
    function toggleOnly() {\n\
    \x20 setOnly(!state.only);\n\
    \x20 say(run.only === null ? \"All events are shown.\" : \"Only what matters to \" + run.predicates[state.sho\
    wn].name +\n\
    \x20   \" is shown.\");\n\
    \x20 update();\n\
    }\n\
    \n\
    function updateView() {\n\
    \x20 setOnly(state.only);\n\
    \x20 byId(\"only\").setAttribute(\"aria-pressed\", String(run.only !== null));\n\
    \x20 byId(\"only\").disabled = byId(\"named-first\").disabled = state.shown < 0;\n\
    \x20 byId(\"reset-lanes\").disabled = !state.folded.includes(true) && state.order.every((p, place) => p === p\
    lace);\n\
    }\n\
    \n\
    // ---- the film --------------------------------------------------------------------------------------------\
    -------\n\
    \n\
    function playFilm(k) {\n\
    \x20 openFilm(k);\n\
    \x20 if (run.eventCount > 0) play();\n\
    }\n\
    \n\
    function openFilm(k, step = 0) {\n\
    \x20 pause();\n\
    \x20 const path = run.predicates[k].definitely[1];\n\
    \x20 state.film = { k, path, steps: stepsOf(run, path), step: 0 };\n\
    \x20 state.shown = k;\n\
    \x20 const wanted = Math.max(2, run.eventCount / 20);\n\
    \x20 byId(\"film-speed\").value = String(FILM_SPEEDS.find((speed) => speed >= wanted) ?? 1000);\n\
    \x20 byId(\"film-step\").max = String(path.length);\n\
    \x20 toStep(step);\n\
    }\n\
    \n\
    function toStep(step) {\n\
    \x20 const { film } = state;\n\
    \x20 const before = film.step === step ? state.cut : cutAtStep(film.steps, Math.max(0, step - 1));\n\
    \x20 film.step = step;\n\
    \x20 const p = step > 0 ? film.path[step - 1] : -1;\n\
    \x20 const next = cutAtStep(film.steps, step);\n\
    \x20 if (p >= 0) state.lane = p;\n\
    \x20 const name = run.predicates[film.k].name;\n\
    \x20 setCut(next, { from: before, keep: timer === 0, text: p < 0 ? name + \" is avoided from here: no event h\
    as happened.\"\n\
    \x20   : \"Step \" + step + \": \" + eventText(run, p, next[p]) + \".\" });\n\
    \x20 if (p >= 0) reveal(run.columns[p][next[p]]);\n\
    }\n\
    \n\
    function play() {\n\
    \x20 if (timer !== 0) return pause();\n\
    \x20 if (state.selected !== null) select(null);   // what is before and after an event isn't shaded while the\
    \x20film runs\n\
    \x20 if (state.film.step >= run.eventCount) toStep(0);\n\
    \x20 let last = performance.now();\n\
    \x20 const turn = (now) => {\n\
    \x20   const steps = Math.floor((now - last) * Number(byId(\"film-speed\").value) / 1000);\n\
    \x20   if (steps > 0) {\n\
    \x20     last = now;\n\
    \x20     toStep(Math.min(run.eventCount, state.film.step + steps));\n\
    \x20     if (state.film.step >= run.eventCount) return pause();\n\
    \x20   }\n\
    \x20   timer = requestAnimationFrame(turn);\n\
    \x20 };\n\
    \x20 timer = requestAnimationFrame(turn);\n\
    \x20 updateFilm();\n\
    }\n\
    \n\
    function pause() {\n\
    \x20 cancelAnimationFrame(timer);\n\
    \x20 timer = 0;\n\
    \x20 updateFilm();\n\
    }\n\
    \n\
    function closeFilm() {\n\
    \x20 pause();\n\
    \x20 state.film = null;\n\
    \x20 update();\n\
    }\n\
    \n\
    function updateFilm() {\n\
    \x20 const { film } = state;\n\
    \x20 byId(\"film\").hidden = film === null;\n\
    \x20 if (film === null) return;\n\
    \x20 byId(\"film-name\").textContent = run.predicates[film.k].name + \" avoided\";\n\
    \x20 byId(\"film-play\").textContent = timer === 0 ? \"Play\" : \"Pause\";\n\
    \x20 byId(\"film-step\").value = String(film.step);\n\
    \x20 byId(\"film-text\").textContent = film.step + \" of \" + run.eventCount +\n\
    \x20   (String(cutAtStep(film.steps, film.step)) === String(state.cut) ? \"\" : \", the cut was moved off it\"\
    );\n\
    \x20 byId(\"film-back\").disabled = film.step === 0;\n\
    \x20 byId(\"film-on\").disabled = film.step === run.eventCount;\n\
    }\n\
    \n\
    // ---- finding ---------------------------------------------------------------------------------------------\
    -------\n\
    \n\
    function search() {\n\
    \x20 const query = byId(\"query\").value;\n\
    \x20 clearTimeout(searching);\n\
    \x20 if (query === state.query) return;\n\
    \x20 state.query = query;\n\
    \x20 state.hits = find(run, query);\n\
    \x20 state.hit = -1;\n\
    \x20 byId(\"matches\").textContent = query.trim() === \"\" ? \"\" : state.hits.length === 0 ? \"nothing found\
    \"\n\
    \x20   : counted(state.hits.length, \"event\");\n\
    \x20 redraw();\n\
    }\n\
    \n\
    function toHit(step) {\n\
    \x20 search();\n\
    \x20 if (state.hits.length === 0) return;\n\
    \x20 const count = state.hits.length;\n\
    \x20 state.hit = state.hit < 0 ? (step > 0 ? 0 : count - 1) : (state.hit + step + count) % count;\n\
    \x20 const { p, i, why } = state.hits[state.hit];\n\
    \x20 select(p, i);\n\
    \x20 byId(\"matches\").textContent = state.hit + 1 + \" of \" + count.toLocaleString(\"en\") + \": \" + plain\
    Text(why);\n\
    }\n\
    \n\
    // ---- keys ------------------------------------------------------------------------------------------------\
    -------\n\
    \n\
    function pageKey(event) {\n\
    \x20 if (event.ctrlKey || event.altKey || event.metaKey || byId(\"help\").open) return;\n\
    \x20 const field = event.target.closest(\"input, select, textarea\");\n\
    \x20 if (event.key === \"Escape\") {\n\
    \x20   if (state.film !== null) closeFilm();\n\
    \x20   else if (state.selected !== null) select(null);\n\
    \x20   else if (field !== null) field.blur();\n\
    \x20   return;\n\
    \x20 }\n\
    \x20 if (field !== null || event.defaultPrevented) return;\n\
    \x20 const onButton = event.target.closest(\"button\") !== null;\n\
    \x20 const span = size.width / state.view.scale;\n\
    \x20 const { selected } = state;\n\
    \x20 const near = selected ?? { p: state.lane, i: state.cut[state.lane] };\n\
    \x20 const beside = (step) => {\n\
    \x20   const i = near.i + step;\n\
    \x20   if (i >= 1 && i <= run.counts[near.p]) select(near.p, i);\n\
    \x20 };\n\
    \x20 const keys = {\n\
    \x20   \"/\": () => byId(\"query\").focus(), \"?\": () => byId(\"help\").showModal(),\n\
    \x20   n: () => toHit(1), p: () => toHit(-1), u: undo, c: revealCut,\n\
    \x20   \"+\": () => zoom(1.5), \"=\": () => zoom(1.5), \"-\": () => zoom(1 / 1.5), 0: () => setView(0, 0),\n\
    \x20   \",\": () => beside(-1), \".\": () => beside(1),\n\
    \x20   m: () => {\n\
    \x20     const end = selected === null ? undefined : messageOf(run, selected.p, selected.i)?.ends[0];\n\
    \x20     if (end !== undefined) select(end.p, end.i);\n\
    \x20   },\n\
    \x20 };\n\
    \x20 if (event.shiftKey && event.key === \"ArrowLeft\") setView(state.view.left - span / 4, state.view.scale)\
    ;\n\
    \x20 else if (event.shiftKey && event.key === \"ArrowRight\") setView(state.view.left + span / 4, state.view.\
    scale);\n\
    \x20 else if (event.key === \"Enter\" && !onButton && selected !== null) cutTo(selected.p, selected.i);\n\
    \x20 else if (event.key === \" \" && !onButton && state.film !== null) play();\n\
    \x20 else if (keys[event.key] !== undefined) keys[event.key]();\n\
    \x20 else return;\n\
    \x20 event.preventDefault();\n\
    }\n\
    \n\
    // ---- what is taken along ---------------------------------------------------------------------------------\
    -------\n\
    \n\
    async function copyText() {\n\
    \x20 try {\n\
    \x20   await navigator.clipboard.writeText(asText(run, state.cut));\n\
    \x20   say(\"The verdict, the cut and its values are copied.\");\n\
    \x20 } catch {\n\
    \x20   say(\"The browser lets this page copy nothing.\");\n\
    \x20 }\n\
    }\n\
    \n\
    // ---- the address -----------------------------------------------------------------------------------------\
    -------\n\
    \n\
    let written = \"\";\n\
    let writing = 0;\n\
    function remember() {\n\
    \x20 clearTimeout(writing);\n\
    \x20 writing = setTimeout(() => {\n\
    \x20   written = \"#\" + fragmentOf(run, state);\n\
    \x20   if (written !== location.hash) history.replaceState(null, \"\", written);\n\
    \x20 }, 250);\n\
    }\n\
    \n\
    function readAddress() {\n\
    \x20 const given = readFragment(run, location.hash);\n\
    \x20 state.only = given.only >= 0;\n\
    \x20 if (given.view !== null) state.view = given.view;\n\
    \x20 if (given.film !== null) openFilm(given.film.k, given.film.step);\n\
    \x20 if (given.cut !== null) {\n\
    \x20   setCut(given.cut, { from: given.cut, text: given.film !== null ? byId(\"status\").textContent\n\
    \x20     : truthText(run, given.cut) + \" \" + HOW_TO_MOVE });\n\
    \x20 }\n\
    \x20 if (state.only) state.shown = given.only;\n\
    \x20 setLanes(given.order, given.folded);\n\
    \x20 if (given.selected !== null) {\n\
    \x20   state.selected = given.selected;\n\
    \x20   state.cone = run.cycle !== null ? null : coneOf(run, given.selected.p, given.selected.i);\n\
    \x20   state.lane = given.selected.p;\n\
    \x20   list(given.selected.p, given.selected.i);\n\
    \x20 }\n\
    \x20 if (given.view !== null) setView(given.view.left, given.view.scale);\n\
    \x20 update();\n\
    \x20 return given;\n\
    }\n\
    \n\
    // ---- the start -------------------------------------------------------------------------------------------\
    -------\n\
    \n\
    function countsText() {\n\
    \x20 return plainText(sessionName(run)) + \": \" + counted(run.size, \"process\", \"processes\") + \", \" +\n\
    \x20   counted(run.eventCount, \"event\") + \", \" + counted(run.received, \"message\") +\n\
    \x20   (run.inFlight > 0 ? \" and \" + run.inFlight.toLocaleString(\"en\") + \" in flight\" : \"\") +\n\
    \x20   (run.notes === null ? \"\" : \", \" + counted(run.notes.count, \"note\"));\n\
    }\n\
    \n\
    // What stands above the run, and what is made once for it.\n\
    function makePage() {\n\
    \x20 const came = cameOfAll(run.wishes);\n\
    \x20 byId(\"verdict\").textContent = verdictText(run);\n\
    \x20 if (came !== \"\") byId(\"verdict\").className = classOf(came);\n\
    \x20 document.title = plainText(titleText(run));\n\
    \x20 byId(\"counts\").textContent = countsText();\n\
    \x20 byId(\"wrong-notes\").textContent = [wrongNotesText(run), wrongLinkText(run)].filter((text) => text !== \
    \"\").join(\" \");\n\
    \x20 document.documentElement.classList.toggle(\"noted\", run.notes !== null);\n\
    \x20 makeLanes();\n\
    \x20 cards = makePredicates(run, actions);\n\
    \x20 rows = makeValues(run, actions);\n\
    \x20 byId(\"typed\").placeholder = \"as \" + (run.predicates[0]?.text ?? \"true\");\n\
    \x20 run.names.forEach((name, p) => byId(\"listing-process\").append(element(\"option\", { value: String(p) }\
    , name)));\n\
    \x20 FILM_SPEEDS.forEach((speed) => byId(\"film-speed\").append(element(\"option\", { value: String(speed) },\
    \x20String(speed))));\n\
    \x20 canvas.setAttribute(\"aria-label\", \"The run: \" + countsText() + \". \" + (run.cycle !== null\n\
    \x20   ? \"An event is selected\" : \"The cut is moved\") + \" on the lanes beside; the events are listed as \
    a table below.\");\n\
    \x20 if (run.cycle !== null) {\n\
    \x20   document.documentElement.classList.add(\"cycle\");\n\
    \x20   byId(\"verdict\").className = \"broken\";\n\
    \x20   byId(\"lanes\").setAttribute(\"aria-label\", \"The processes: which event is selected\");\n\
    \x20   byId(\"to-cut\").textContent = \"To the cycle\";\n\
    \x20   makeCycle(run, actions);\n\
    \x20 }\n\
    \x20 overview.hidden = run.lastColumn < 24;\n\
    \x20 byId(\"stage\").classList.toggle(\"last\", overview.hidden);\n\
    }\n\
    \n\
    // Opens at the first evidence, or at what the address says.\n\
    function openFirst() {\n\
    \x20 const evidence = run.cycle === null ? firstEvidence(run) : null;\n\
    \x20 state.shown = evidence?.k ?? 0;\n\
    \x20 if (run.cycle !== null) {\n\
    \x20   state.cut = state.before = run.counts.slice();\n\
    \x20   say(\"The session is refused: its events make a causal cycle, which is marked.\");\n\
    \x20 } else if (evidence === null) say(\"The cut before all events. \" + HOW_TO_MOVE);\n\
    \x20 else if (evidence.is === \"cut\") {\n\
    \x20   state.cut = state.before = run.predicates[evidence.k].possibly[1].slice();\n\
    \x20   say(run.predicates[evidence.k].name + \" is true at this cut. \" + HOW_TO_MOVE);\n\
    \x20 }\n\
    \x20 setView(0, firstScale());\n\
    \x20 state.lane = Math.max(0, state.cut.findIndex((count) => count > 0));\n\
    \x20 list(state.lane, state.cut[state.lane]);\n\
    \x20 if (evidence?.is === \"film\" && !/[#&](cut|film)=/.test(location.hash)) openFilm(evidence.k);\n\
    \x20 const given = readAddress();\n\
    \x20 if (given.view === null && given.selected !== null) reveal(run.columns[given.selected.p][given.selected.\
    i]);\n\
    \x20 else if (given.view === null) revealCut();\n\
    }\n\
    \n\
    function onClick(id, act) {\n\
    \x20 byId(id).addEventListener(\"click\", act);\n\
    }\n\
    \n\
    function watchTools() {\n\
    \x20 const cutAt = (cut, text) => { pause(); setCut(cut, { text }); revealCut(); };\n\
    \x20 onClick(\"to-empty\", () => cutAt(run.counts.map(() => 0), \"Nothing has happened.\"));\n\
    \x20 onClick(\"to-full\", () => cutAt(run.counts.slice(), \"All has happened.\"));\n\
    \x20 onClick(\"undo\", undo);\n\
    \x20 onClick(\"zoom-in\", () => zoom(1.5));\n\
    \x20 onClick(\"zoom-out\", () => zoom(1 / 1.5));\n\
    \x20 onClick(\"fit\", () => setView(0, 0));\n\
    \x20 onClick(\"to-cut\", revealCut);\n\
    \x20 onClick(\"save-picture\", () => savePicture(run, state, palette, size, lanes, say));\n\
    \x20 onClick(\"save-drawing\", () => saveDrawing(run, state, palette, size, lanes, say));\n\
    \x20 onClick(\"only\", toggleOnly);\n\
    \x20 onClick(\"named-first\", namedFirst);\n\
    \x20 onClick(\"reset-lanes\", resetLanes);\n\
    \x20 onClick(\"copy-text\", copyText);\n\
    \x20 onClick(\"help-button\", () => byId(\"help\").showModal());\n\
    }\n\
    \n\
    function watchFilm() {\n\
    \x20 onClick(\"film-play\", play);\n\
    \x20 onClick(\"film-back\", () => { pause(); toStep(state.film.step - 1); });\n\
    \x20 onClick(\"film-on\", () => { pause(); toStep(state.film.step + 1); });\n\
    \x20 onClick(\"film-close\", closeFilm);\n\
    \x20 byId(\"film-step\").addEventListener(\"input\", (event) => {\n\
    \x20   const step = Number(event.target.value);\n\
    \x20   pause();\n\
    \x20   toStep(step);\n\
    \x20 });\n\
    }\n\
    \n\
    function watchListing() {\n\
    \x20 onClick(\"listing-earlier\", () => { state.listing.first -= LISTING_ROWS; updateListing(run, state, acti\
    ons); });\n\
    \x20 onClick(\"listing-later\", () => { state.listing.first += LISTING_ROWS; updateListing(run, state, action\
    s); });\n\
    \x20 byId(\"listing-process\").addEventListener(\"change\", (event) => {\n\
    \x20   const p = Number(event.target.value);\n\
    \x20   state.listing = { p, first: Math.max(1, state.cut[p] - LISTING_ROWS / 2) };\n\
    \x20   updateListing(run, state, actions);\n\
    \x20 });\n\
    }\n\
    \n\
    function watchFields() {\n\
    \x20 onClick(\"previous\", () => toHit(-1));\n\
    \x20 byId(\"find\").addEventListener(\"submit\", (event) => { event.preventDefault(); toHit(1); });\n\
    \x20 byId(\"query\").addEventListener(\"keydown\", (event) => {\n\
    \x20   if (event.key === \"Enter\" && event.shiftKey) { event.preventDefault(); toHit(-1); }\n\
    \x20 });\n\
    \x20 byId(\"query\").addEventListener(\"input\", () => {\n\
    \x20   clearTimeout(searching);\n\
    \x20   searching = setTimeout(search, 120);\n\
    \x20 });\n\
    \x20 byId(\"typed\").addEventListener(\"input\", () => {\n\
    \x20   state.typed = typedPredicate(run, byId(\"typed\").value);\n\
    \x20   updateTyped(run, state);\n\
    \x20 });\n\
    \x20 byId(\"type\").addEventListener(\"submit\", (event) => event.preventDefault());\n\
    }\n\
    \n\
    function watchWindow() {\n\
    \x20 document.addEventListener(\"keydown\", pageKey);\n\
    \x20 window.addEventListener(\"hashchange\", () => { if (location.hash !== written) readAddress(); });\n\
    \x20 new ResizeObserver(() => {\n\
    \x20   if (Math.floor(byId(\"picture\").clientWidth) !== size.width) measure();\n\
    \x20 }).observe(byId(\"picture\"));\n\
    \x20 window.addEventListener(\"resize\", measure);\n\
    \x20 const recolour = () => { palette = readPalette(); measure(); };\n\
    \x20 for (const query of [\"(prefers-color-scheme: dark)\", \"(forced-colors: active)\"]) {\n\
    \x20   matchMedia(query).addEventListener(\"change\", recolour);\n\
    \x20 }\n\
    \x20 let onScreen = null;\n\
    \x20 const printed = (on) => {\n\
    \x20   if (on === printing) return;\n\
    \x20   document.documentElement.classList.toggle(\"printed\", on);\n\
    \x20   printing = on;\n\
    \x20   if (on) onScreen = state.view;\n\
    \x20   else state.view = onScreen;\n\
    \x20   recolour();\n\
    \x20 };\n\
    \x20 window.addEventListener(\"beforeprint\", () => printed(true));\n\
    \x20 window.addEventListener(\"afterprint\", () => printed(false));\n\
    }\n\
    \n\
    function start() {\n\
    \x20 makePage();\n\
    \x20 measure();\n\
    \x20 openFirst();\n\
    \x20 watchPointer();\n\
    \x20 watchTools();\n\
    \x20 watchFilm();\n\
    \x20 watchListing();\n\
    \x20 watchFields();\n\
    \x20 watchWindow();\n\
    }\n\
    \n\
    if (run.refusal === null) start();\n\
    else showRefusal(run);\n\
    document.documentElement.classList.add(\"ready\");\n\
    </script>\n\
    </body>\n\
    </html>\n\
    ";
