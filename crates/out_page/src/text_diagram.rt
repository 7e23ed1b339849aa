//! The page's text after its data: the one with `page/diagram.js`. `.ci/explore_page.py --write` writes it.

/// The page's text after its data: the one with `page/diagram.js`.
pub(crate) const DIAGRAM: &[u8] = b"\
    <script>\n\
    \"use strict\";\n\
    // The drawing: the run and its cut on a canvas, of it only what is in view, and the overview below. `state` \
    has the\n\
    // cut, the view (the column at the left edge and the pixels of a column), and what is selected, found, force\
    d, filmed.\n\
    \n\
    const GREATEST_SCALE = 120;   // pixels of a column\n\
    const FULL_SCALE = 96;        // and at most this, if a whole small run is shown\n\
    const DOT_SCALE = 3.5;        // below, events are bars, one for all those of a pixel\n\
    const MESSAGE_LIMIT = 1200;   // so many messages are drawn, spread evenly if there are more in view\n\
    const STROKE_LIMIT = 40;      // so many lines are drawn at once: a longer path is slower without a graphics \
    card\n\
    const HALO_LIMIT = 240;       // so many numbers have a halo: it takes most of the time\n\
    const LANE_SHARE = 0.32;      // of a lane's height, how far the cut goes straight from its line\n\
    const STUB = 26;              // how long a stub is of a message to or from a folded lane\n\
    const END_RADIUS = 2.4;       // of an event that is shown only as the end of a message\n\
    \n\
    function readPalette() {\n\
    \x20 const style = getComputedStyle(document.documentElement);\n\
    \x20 const names = [\"surface\", \"ink\", \"muted\", \"lane\", \"faint\", \"message\", \"forced\", \"cut\", \"\
    cut-text\", \"cut-tint\",\n\
    \x20                \"film\", \"note\", \"select\", \"past\", \"future\", \"future-line\", \"band\", \"found\"\
    , \"line\"];\n\
    \x20 const palette = Object.fromEntries(names.map((name) => [name, style.getPropertyValue(\"--\" + name).trim\
    ()]));\n\
    \x20 palette.font = style.getPropertyValue(\"--font\").trim() || \"sans-serif\";\n\
    \x20 const tile = document.createElement(\"canvas\");\n\
    \x20 tile.width = tile.height = 8;\n\
    \x20 const context = tile.getContext(\"2d\");\n\
    \x20 context.fillStyle = palette.future;\n\
    \x20 context.fillRect(0, 0, 8, 8);\n\
    \x20 context.strokeStyle = palette[\"future-line\"];\n\
    \x20 context.lineWidth = 1.2;\n\
    \x20 context.beginPath();\n\
    \x20 for (const shift of [-8, 0, 8]) {\n\
    \x20   context.moveTo(shift - 1, 9);\n\
    \x20   context.lineTo(shift + 9, -1);\n\
    \x20 }\n\
    \x20 context.stroke();\n\
    \x20 palette.hatch = tile;\n\
    \x20 return palette;\n\
    }\n\
    \n\
    // ---- places ----------------------------------------------------------------------------------------------\
    -------\n\
    \n\
    function xOf(view, column) {\n\
    \x20 return (column - view.left) * view.scale;\n\
    }\n\
    \n\
    function columnAt(view, x) {\n\
    \x20 return view.left + x / view.scale;\n\
    }\n\
    \n\
    function fitScale(run, width) {\n\
    \x20 return Math.min(width / (run.lastColumn + 1), FULL_SCALE);\n\
    }\n\
    \n\
    function clampView(run, width, view) {\n\
    \x20 const scale = Math.min(GREATEST_SCALE, Math.max(fitScale(run, width), view.scale));\n\
    \x20 const left = Math.max(0, Math.min(view.left, run.lastColumn + 1 - width / scale));\n\
    \x20 return { left, scale };\n\
    }\n\
    \n\
    // Where the cut crosses a lane: half a column right of the last event that it has there.\n\
    function cutX(run, state, p) {\n\
    \x20 return xOf(state.view, run.columns[p][state.cut[p]] + 0.5);\n\
    }\n\
    \n\
    function dotRadius(scale) {\n\
    \x20 return scale >= 18 ? 5.5 : scale >= 9 ? 3.6 : 2.2;\n\
    }\n\
    \n\
    // The event of a lane that stands nearest to x, if it is near.\n\
    function eventNear(run, state, size, x, y) {\n\
    \x20 const p = laneAt(size, y);\n\
    \x20 if (p < 0 || size.folded[p]) return null;\n\
    \x20 const reach = Math.max(9, Math.min(state.view.scale / 2, 16));\n\
    \x20 const { columns } = run.shown[p];\n\
    \x20 const before = countUpTo(columns, columnAt(state.view, x));\n\
    \x20 let best = null;\n\
    \x20 for (const k of [before, before + 1]) {\n\
    \x20   if (k < 1 || k >= columns.length) continue;\n\
    \x20   const distance = Math.abs(xOf(state.view, columns[k]) - x);\n\
    \x20   if (distance <= reach && (best === null || distance < best.distance)) {\n\
    \x20     best = { p, i: eventAt(run.shown[p], k), distance };\n\
    \x20   }\n\
    \x20 }\n\
    \x20 return best;\n\
    }\n\
    \n\
    // The grip of the cut at x and y, or the mark at the edge that stands for one out of view.\n\
    function gripNear(run, state, size, x, y) {\n\
    \x20 if (run.cycle !== null) return null;\n\
    \x20 const p = laneAt(size, y);\n\
    \x20 if (p < 0) return null;\n\
    \x20 const at = cutX(run, state, p);\n\
    \x20 if (at < 0) return x < 16 ? { p, edge: true } : null;\n\
    \x20 if (at > size.width) return x > size.width - 16 ? { p, edge: true } : null;\n\
    \x20 const reach = Math.max(4, Math.min(9, state.view.scale / 2 - dotRadius(state.view.scale) + 2));\n\
    \x20 return Math.abs(x - at) <= reach ? { p, edge: false } : null;\n\
    }\n\
    \n\
    function messageNear(run, state, size, x, y) {\n\
    \x20 const column = columnAt(state.view, x);\n\
    \x20 const reach = 6 / state.view.scale;\n\
    \x20 let best = null;\n\
    \x20 for (const m of messagesBetween(run, column - reach, column + reach)) {\n\
    \x20   const line = shownLine(run, state.view, size, m);\n\
    \x20   if (line === null) continue;\n\
    \x20   const { x1, y1, x2, y2 } = line;\n\
    \x20   const length = Math.max(1, (x2 - x1) ** 2 + (y2 - y1) ** 2);\n\
    \x20   const t = Math.max(0, Math.min(1, ((x - x1) * (x2 - x1) + (y - y1) * (y2 - y1)) / length));\n\
    \x20   const distance = Math.hypot(x - x1 - t * (x2 - x1), y - y1 - t * (y2 - y1));\n\
    \x20   if (distance <= 5 && (best === null || distance < best.distance)) best = { m, distance };\n\
    \x20 }\n\
    \x20 return best === null ? null : best.m;\n\
    }\n\
    \n\
    function messageLine(run, view, size, m) {\n\
    \x20 const { from, fromEvent, to, toEvent } = run.messages;\n\
    \x20 const x1 = xOf(view, run.columns[from[m]][fromEvent[m]]);\n\
    \x20 const y1 = laneY(size, from[m]);\n\
    \x20 if (to[m] >= 0) return { x1, y1, x2: xOf(view, run.columns[to[m]][toEvent[m]]), y2: laneY(size, to[m]) }\
    ;\n\
    \x20 const down = size.order[run.size - 1] !== from[m] || run.size === 1 ? 1 : -1;\n\
    \x20 return { x1, y1, x2: x1 + 0.62 * view.scale, y2: y1 + down * 0.4 * size.heights[from[m]] };\n\
    }\n\
    \n\
    // Which ends of a message stand on folded lanes: 0 none, 1 one of two, 2 all.\n\
    function foldedEnds(run, size, m) {\n\
    \x20 const isFolded = size.folded[run.messages.from[m]];\n\
    \x20 const to = run.messages.to[m];\n\
    \x20 if (to < 0) return isFolded ? 2 : 0;\n\
    \x20 return Number(isFolded) + Number(size.folded[to]);\n\
    }\n\
    \n\
    // What is drawn of a message: of one to or from a folded lane a stub at its other end, and of one between tw\
    o of these\n\
    // nothing.\n\
    function shownLine(run, view, size, m) {\n\
    \x20 const ends = foldedEnds(run, size, m);\n\
    \x20 if (ends === 2) return null;\n\
    \x20 const line = messageLine(run, view, size, m);\n\
    \x20 if (ends === 0) return line;\n\
    \x20 const { x1, y1, x2, y2 } = line;\n\
    \x20 const share = Math.min(0.5, STUB / (Math.hypot(x2 - x1, y2 - y1) || 1));\n\
    \x20 const [x, y] = [(x2 - x1) * share, (y2 - y1) * share];\n\
    \x20 return size.folded[run.messages.from[m]] ? { x1: x2 - x, y1: y2 - y, x2, y2 } : { x1, y1, x2: x1 + x, y2\
    : y1 + y };\n\
    }\n\
    \n\
    // ---- the run ---------------------------------------------------------------------------------------------\
    -------\n\
    \n\
    // Draws what is in view; says how many messages are, and how many of them were drawn.\n\
    function drawDiagram(context, run, state, palette, size) {\n\
    \x20 const { view } = state;\n\
    \x20 const { width, height } = size;\n\
    \x20 const scene = { context, run, state, palette, size, view, radius: dotRadius(view.scale),\n\
    \x20                 left: columnAt(view, -20), right: columnAt(view, width + 20) };\n\
    \x20 context.fillStyle = palette.surface;\n\
    \x20 context.fillRect(0, 0, width, height);\n\
    \x20 context.lineCap = \"butt\";\n\
    \x20 const line = run.cycle === null ? cutLine(scene) : null;\n\
    \x20 if (line !== null) {\n\
    \x20   context.fillStyle = palette[\"cut-tint\"];\n\
    \x20   context.beginPath();\n\
    \x20   context.moveTo(-5, 0);\n\
    \x20   for (const [x, y] of line) context.lineTo(x, y);\n\
    \x20   context.lineTo(-5, height);\n\
    \x20   context.fill();\n\
    \x20 }\n\
    \x20 if (state.focused) {\n\
    \x20   context.fillStyle = palette.band;\n\
    \x20   context.fillRect(0, size.tops[state.lane], width, size.heights[state.lane]);\n\
    \x20 }\n\
    \x20 if (state.cone !== null) drawCone(scene);\n\
    \x20 const gaps = drawLanes(scene);\n\
    \x20 if (run.cycle !== null) drawSteps(scene);\n\
    \x20 const told = drawMessages(scene);\n\
    \x20 if (view.scale < DOT_SCALE) drawBars(scene, size.order);\n\
    \x20 else {\n\
    \x20   drawBars(scene, size.order.filter((p) => size.folded[p]));\n\
    \x20   drawDots(scene);\n\
    \x20 }\n\
    \x20 drawGaps(scene, gaps);\n\
    \x20 drawNotes(scene);\n\
    \x20 drawFound(scene);\n\
    \x20 drawRings(scene);\n\
    \x20 if (line === null) return told;\n\
    \x20 drawCut(scene, line);\n\
    \x20 if (size.lane >= (state.film === null ? 44 : 80)) drawValues(scene);\n\
    \x20 return told;\n\
    }\n\
    \n\
    // The line of each lane, dashed where it has hidden events. These gaps are given back, with how many each hi\
    des.\n\
    function drawLanes({ context, run, palette, size, view, left, right }) {\n\
    \x20 const isClose = view.scale < DOT_SCALE;\n\
    \x20 const piecesOf = (p) => (isClose ? [wholeGap(run, p)] : gapsOf(run, p, left, right));\n\
    \x20 const gaps = run.only === null ? [] : size.order.flatMap(piecesOf);\n\
    \x20 const stroke = (pieces, dash) => {\n\
    \x20   context.setLineDash(dash);\n\
    \x20   context.beginPath();\n\
    \x20   for (const { p, start, end } of pieces) {\n\
    \x20     context.moveTo(Math.max(0, xOf(view, start)), Math.round(laneY(size, p)) + 0.5);\n\
    \x20     context.lineTo(Math.min(size.width, xOf(view, end)), Math.round(laneY(size, p)) + 0.5);\n\
    \x20   }\n\
    \x20   context.stroke();\n\
    \x20   context.setLineDash([]);\n\
    \x20 };\n\
    \x20 context.strokeStyle = palette.lane;\n\
    \x20 context.lineWidth = 1;\n\
    \x20 if (run.only === null) stroke(size.order.map((p) => ({ p, start: 0.4, end: run.lastColumn + 0.6 })), [])\
    ;\n\
    \x20 else {\n\
    \x20   stroke(gaps.filter(({ hidden }) => hidden === 0), []);\n\
    \x20   stroke(gaps.filter(({ hidden }) => hidden > 0), [2, 4]);\n\
    \x20 }\n\
    \x20 return isClose ? [] : gaps.filter(({ hidden }) => hidden > 0);\n\
    }\n\
    \n\
    // All of a lane as one piece, for events that stand too close to be told apart.\n\
    function wholeGap(run, p) {\n\
    \x20 return { p, start: 0.4, end: run.lastColumn + 0.6, hidden: run.counts[p] + 1 - run.shown[p].columns.leng\
    th };\n\
    }\n\
    \n\
    // The pieces of a lane between the events that it shows, of these columns, each with how many events it hide\
    s.\n\
    function gapsOf(run, p, left, right) {\n\
    \x20 const { columns, events } = run.shown[p];\n\
    \x20 const gaps = [];\n\
    \x20 for (let k = countUpTo(columns, left); k < columns.length && columns[k] <= right; k++) {\n\
    \x20   const isLast = k + 1 === columns.length;\n\
    \x20   gaps.push({ p, start: k === 0 ? 0.4 : columns[k], end: isLast ? run.lastColumn + 0.6 : columns[k + 1],\
    \n\
    \x20               hidden: (isLast ? run.counts[p] + 1 : events[k + 1]) - events[k] - 1 });\n\
    \x20 }\n\
    \x20 return gaps;\n\
    }\n\
    \n\
    // How many events a gap hides, where there is room for the number.\n\
    function drawGaps({ context, palette, size, view, radius }, gaps) {\n\
    \x20 context.font = \"10px \" + palette.font;\n\
    \x20 context.textAlign = \"center\";\n\
    \x20 context.textBaseline = \"bottom\";\n\
    \x20 context.fillStyle = palette.muted;\n\
    \x20 gaps.filter(({ p }) => !size.folded[p]).forEach(({ p, start, end, hidden }) => {\n\
    \x20   const text = \"+\" + hidden;\n\
    \x20   const from = Math.max(0, xOf(view, start));\n\
    \x20   const to = Math.min(size.width, xOf(view, end));\n\
    \x20   if (to - from < 6 * text.length + radius + 4) return;\n\
    \x20   if (gaps.length > HALO_LIMIT) context.fillText(text, (from + to) / 2, laneY(size, p) - 3);\n\
    \x20   else haloText(context, palette, text, (from + to) / 2, laneY(size, p) - 3, palette.muted);\n\
    \x20 });\n\
    }\n\
    \n\
    function cutLine({ run, state, size }) {\n\
    \x20 return size.order.flatMap((p, place) => {\n\
    \x20   const x = Math.max(-1e5, Math.min(1e5, cutX(run, state, p)));\n\
    \x20   const y = laneY(size, p);\n\
    \x20   const straight = LANE_SHARE * size.heights[p];\n\
    \x20   return [[x, place === 0 ? 0 : y - straight], [x, place === run.size - 1 ? size.height : y + straight]]\
    ;\n\
    \x20 });\n\
    }\n\
    \n\
    // What a causal cycle takes of the lanes: from each receipt to the send after it.\n\
    function drawSteps({ context, run, palette, size, view }) {\n\
    \x20 context.strokeStyle = palette.cut;\n\
    \x20 context.lineWidth = 5;\n\
    \x20 context.beginPath();\n\
    \x20 for (const { send, next } of run.cycle) {\n\
    \x20   context.moveTo(xOf(view, run.columns[next.p][next.i]), laneY(size, next.p));\n\
    \x20   context.lineTo(xOf(view, run.columns[send.p][send.i]), laneY(size, send.p));\n\
    \x20 }\n\
    \x20 context.stroke();\n\
    }\n\
    \n\
    function drawCone({ context, run, state, palette, size, view }) {\n\
    \x20 const { past, future } = state.cone;\n\
    \x20 const hatch = context.createPattern(palette.hatch, \"repeat\");\n\
    \x20 for (let q = 0; q < run.size; q++) {\n\
    \x20   const y = size.tops[q] + 3;\n\
    \x20   const height = size.heights[q] - 6;\n\
    \x20   if (past[q] > 0) {\n\
    \x20     const end = xOf(view, run.columns[q][past[q]] + 0.5);\n\
    \x20     context.fillStyle = palette.past;\n\
    \x20     if (end > 0) context.fillRect(0, y, Math.min(end, size.width), height);\n\
    \x20   }\n\
    \x20   if (future[q] <= run.counts[q]) {\n\
    \x20     const first = Math.max(run.columns[q][future[q]] - 0.5, run.columns[q][future[q] - 1] + 0.5);\n\
    \x20     const start = Math.max(0, xOf(view, first));\n\
    \x20     context.fillStyle = hatch;\n\
    \x20     if (start < size.width) context.fillRect(start, y, size.width - start, height);\n\
    \x20   }\n\
    \x20 }\n\
    }\n\
    \n\
    // Lies an event before the selected one, or after it?\n\
    function isDim(state, p, i) {\n\
    \x20 return state.cone !== null && (i <= state.cone.past[p] || i >= state.cone.future[p]);\n\
    }\n\
    \n\
    // Which messages are drawn as ever: of few lanes all; of many those that the cut touches, of the selected ev\
    ent, and\n\
    // those of the processes that the predicate shown names, unless it names all.\n\
    const LANES_IN_VIEW = 6;\n\
    function mattering(run, state) {\n\
    \x20 if (run.size <= LANES_IN_VIEW || run.cycle !== null || run.only !== null) return () => true;\n\
    \x20 const { from, fromEvent, to, toEvent } = run.messages;\n\
    \x20 const named = state.shown < 0 ? new Set() : processesOf(run.predicates[state.shown].refs);\n\
    \x20 const isNamed = (p) => named.size < run.size && named.has(p);\n\
    \x20 const isMarked = (p, i) => i === state.cut[p] || i === state.cut[p] + 1 ||\n\
    \x20   (state.selected !== null && state.selected.p === p && state.selected.i === i);\n\
    \x20 return (m) => isNamed(from[m]) || isNamed(to[m]) || isMarked(from[m], fromEvent[m]) || isMarked(to[m], t\
    oEvent[m]);\n\
    }\n\
    \n\
    function drawMessages(scene) {\n\
    \x20 const { run, palette, view } = scene;\n\
    \x20 const all = messagesBetween(run, scene.left, scene.right);\n\
    \x20 const every = Math.ceil(all.length / MESSAGE_LIMIT) || 1;\n\
    \x20 const lines = sortMessages(scene, all, every);\n\
    \x20 const thin = view.scale < 9 ? 1 : 1.5;   // a line of one pixel is much faster to draw\n\
    \x20 const crowd = Math.min(1, 400 / Math.max(1, all.length / every));\n\
    \x20 strokeMessages(scene, lines.stub, palette.message, Math.max(0.14, 0.42 * crowd), 1);\n\
    \x20 strokeMessages(scene, lines.dim, palette.faint, 0.6 * Math.max(0.4, crowd), 1);\n\
    \x20 strokeMessages(scene, lines.quiet, palette.faint, Math.max(0.12, 0.5 * crowd), 1);\n\
    \x20 strokeMessages(scene, lines.plain, palette.message, Math.max(0.16, 0.62 * crowd), thin);\n\
    \x20 strokeMessages(scene, lines.flight, palette.message, 0.8, 1.5, [5, 4]);\n\
    \x20 strokeMessages(scene, lines.crossing, palette.message, Math.max(0.5, crowd), 2);\n\
    \x20 strokeMessages(scene, lines.forced, run.cycle === null ? palette.forced : palette.cut, 1, 3.5);\n\
    \x20 const between = scene.size.folded.includes(true)\n\
    \x20   ? all.filter((m) => foldedEnds(run, scene.size, m) === 2 && !lines.forced.includes(m)).length : 0;\n\
    \x20 return { all: all.length, drawn: Math.ceil(all.length / every), between };\n\
    }\n\
    \n\
    // The messages by how they are drawn. Those that moved the cut, or make the cycle, are drawn whatever is fol\
    ded.\n\
    function sortMessages({ run, state, size, view }, all, every) {\n\
    \x20 const { from, fromEvent, to, toEvent } = run.messages;\n\
    \x20 const marked = run.cycle === null ? state.forced : run.cycle.map(({ message }) => message);\n\
    \x20 const lines = { plain: [], quiet: [], crossing: [], dim: [], flight: [], stub: [], forced: marked };\n\
    \x20 const matters = mattering(run, state);\n\
    \x20 const forced = new Set(marked);\n\
    \x20 const heads = view.scale >= 7;\n\
    \x20 for (let k = 0; k < all.length; k += every) {\n\
    \x20   const m = all[k];\n\
    \x20   if (forced.has(m)) continue;\n\
    \x20   const ends = foldedEnds(run, size, m);\n\
    \x20   const dim = isDim(state, from[m], fromEvent[m]) && (to[m] < 0 || isDim(state, to[m], toEvent[m]));\n\
    \x20   const sent = fromEvent[m] <= state.cut[from[m]];\n\
    \x20   if (ends > 0) { if (ends === 1) lines.stub.push(m); }\n\
    \x20   else if (to[m] < 0) { if (heads) lines.flight.push(m); }\n\
    \x20   else if (dim) lines.dim.push(m);\n\
    \x20   else if (sent && toEvent[m] > state.cut[to[m]]) lines.crossing.push(m);\n\
    \x20   else (matters(m) ? lines.plain : lines.quiet).push(m);\n\
    \x20 }\n\
    \x20 return lines;\n\
    }\n\
    \n\
    function strokeMessages({ context, run, state, size, view, radius }, list, colour, alpha, lineWidth, dash = [\
    ]) {\n\
    \x20 if (list.length === 0) return;\n\
    \x20 const { to } = run.messages;\n\
    \x20 const heads = view.scale >= 7;\n\
    \x20 const isWhole = lineWidth > 2;\n\
    \x20 context.globalAlpha = alpha;\n\
    \x20 context.strokeStyle = context.fillStyle = colour;\n\
    \x20 context.lineWidth = lineWidth;\n\
    \x20 context.setLineDash(dash);\n\
    \x20 const ends = [];\n\
    \x20 context.beginPath();\n\
    \x20 list.forEach((m, k) => {\n\
    \x20   if (k % STROKE_LIMIT === STROKE_LIMIT - 1) {\n\
    \x20     context.stroke();\n\
    \x20     context.beginPath();\n\
    \x20   }\n\
    \x20   const { x1, y1, x2, y2 } = isWhole ? messageLine(run, view, size, m) : shownLine(run, view, size, m);\n\
    \x20   const length = Math.hypot(x2 - x1, y2 - y1) || 1;\n\
    \x20   const ux = (x2 - x1) / length;\n\
    \x20   const uy = (y2 - y1) / length;\n\
    \x20   const isEnd = to[m] >= 0 && (isWhole || !size.folded[to[m]]);\n\
    \x20   const stop = isEnd ? radius + 2 : 0;\n\
    \x20   context.moveTo(x1, y1);\n\
    \x20   context.lineTo(x2 - ux * (stop + (heads ? 5 : 0)), y2 - uy * (stop + (heads ? 5 : 0)));\n\
    \x20   if (heads && isEnd) ends.push([x2 - ux * stop, y2 - uy * stop, ux, uy]);\n\
    \x20 });\n\
    \x20 context.stroke();\n\
    \x20 context.setLineDash([]);\n\
    \x20 fillHeads(context, ends, isWhole ? 11 : 9);\n\
    \x20 context.globalAlpha = 1;\n\
    }\n\
    \n\
    function fillHeads(context, ends, head) {\n\
    \x20 context.beginPath();\n\
    \x20 for (const [x, y, ux, uy] of ends) {\n\
    \x20   context.moveTo(x, y);\n\
    \x20   context.lineTo(x - ux * head - uy * head * 0.38, y - uy * head + ux * head * 0.38);\n\
    \x20   context.lineTo(x - ux * head + uy * head * 0.38, y - uy * head - ux * head * 0.38);\n\
    \x20 }\n\
    \x20 context.fill();\n\
    }\n\
    \n\
    // One bar for events of pixels side by side: tall and dark for those that happened, low and light for the ot\
    hers.\n\
    function drawBars({ context, run, state, palette, size, view }, lanes) {\n\
    \x20 for (const p of lanes) {\n\
    \x20   const { columns } = run.shown[p];\n\
    \x20   const [share, widest] = size.folded[p] ? [0.6, 3] : [1, Infinity];\n\
    \x20   const wide = Math.max(1, Math.min(view.scale * 0.6, widest));\n\
    \x20   const y = laneY(size, p);\n\
    \x20   let bar = null;\n\
    \x20   const finish = () => {\n\
    \x20     if (bar === null) return;\n\
    \x20     context.fillStyle = palette[bar.colour];\n\
    \x20     context.fillRect(bar.start, y - bar.half, bar.end - bar.start, 2 * bar.half);\n\
    \x20   };\n\
    \x20   let k = countUpTo(columns, view.left - 1) + 1;\n\
    \x20   while (k < columns.length) {\n\
    \x20     const x = Math.floor(xOf(view, columns[k]));\n\
    \x20     if (x > size.width) break;\n\
    \x20     const i = eventAt(run.shown[p], k);\n\
    \x20     const happened = i <= state.cut[p];\n\
    \x20     const colour = isDim(state, p, i) || size.folded[p] ? \"faint\" : happened ? \"ink\" : \"muted\";\n\
    \x20     const half = (happened ? 5 : 2.5) * share;\n\
    \x20     if (bar !== null && bar.colour === colour && bar.half === half && x <= bar.end) bar.end = x + wide;\n\
    \x20     else {\n\
    \x20       finish();\n\
    \x20       bar = { start: x, end: x + wide, colour, half };\n\
    \x20     }\n\
    \x20     k = Math.max(k, countUpTo(columns, columnAt(view, x + 1) - 1e-9)) + 1;\n\
    \x20   }\n\
    \x20   finish();\n\
    \x20 }\n\
    }\n\
    \n\
    function drawDots(scene) {\n\
    \x20 const { run, palette, size, radius } = scene;\n\
    \x20 const dots = { happened: [], open: [], dimHappened: [], dimOpen: [] };\n\
    \x20 const ends = { happened: [], open: [], dimHappened: [], dimOpen: [] };\n\
    \x20 const [numbers, steps] = [[], []];\n\
    \x20 for (const p of size.order.filter((each) => !size.folded[each])) placeDots(scene, p, dots, ends, numbers\
    , steps);\n\
    \x20 paintDots(scene, ends, Math.min(radius, END_RADIUS));\n\
    \x20 paintDots(scene, dots, radius);\n\
    \x20 writeNumbers(scene, numbers, steps);\n\
    }\n\
    \n\
    // Where the dots of a lane stand, and the numbers at them.\n\
    function placeDots({ run, state, size, view, radius, left, right }, p, dots, ends, numbers, steps) {\n\
    \x20 const { columns } = run.shown[p];\n\
    \x20 const room = (greatest) => 10 + 7 * String(greatest).length;\n\
    \x20 const numberRoom = room(Math.max(...run.counts));\n\
    \x20 const every = [1, 2, 5, 10, 20, 50].find((each) => each * view.scale >= numberRoom) ?? 100;\n\
    \x20 const stepped = state.film !== null && view.scale >= room(run.eventCount);\n\
    \x20 const isTight = stepped && size.heights[p] < ROOMY_LANE;   // steps stand where the numbers of the lane \
    above would\n\
    \x20 const y = laneY(size, p);\n\
    \x20 let free = -Infinity;\n\
    \x20 for (let k = countUpTo(columns, left) + 1; k < columns.length && columns[k] <= right; k++) {\n\
    \x20   const i = eventAt(run.shown[p], k);\n\
    \x20   const x = xOf(view, columns[k]);\n\
    \x20   const dim = isDim(state, p, i);\n\
    \x20   const kind = i <= state.cut[p] ? (dim ? \"dimHappened\" : \"happened\") : dim ? \"dimOpen\" : \"open\"\
    ;\n\
    \x20   (isFull(run, p, i) ? dots : ends)[kind].push([x, y]);\n\
    \x20   if (!isTight && (run.only === null ? i % every === 0 : x >= free && isFull(run, p, i))) {\n\
    \x20     numbers.push([x, y + radius + 5, i]);\n\
    \x20     free = x + numberRoom;\n\
    \x20   }\n\
    \x20   if (stepped) steps.push([x, y - radius - 5, state.film.steps[p][i]]);\n\
    \x20 }\n\
    }\n\
    \n\
    function paintDots({ context, palette, size }, dots, radius) {\n\
    \x20 const paint = (list, fill, stroke) => {\n\
    \x20   if (list.length === 0) return;\n\
    \x20   if (context.dots !== undefined) return context.dots(list, radius, palette[fill], palette[stroke], rimO\
    f(radius));\n\
    \x20   const dot = dotSprite(palette, radius, fill, stroke, size.ratio);\n\
    \x20   const side = dot.width / size.ratio;\n\
    \x20   for (const [x, y] of list) {\n\
    \x20     context.drawImage(dot, Math.round((x - side / 2) * size.ratio) / size.ratio,\n\
    \x20       Math.round((y - side / 2) * size.ratio) / size.ratio, side, side);\n\
    \x20   }\n\
    \x20 };\n\
    \x20 paint(dots.dimOpen, \"surface\", \"faint\");\n\
    \x20 paint(dots.dimHappened, \"faint\", \"faint\");\n\
    \x20 paint(dots.open, \"surface\", \"ink\");\n\
    \x20 paint(dots.happened, \"ink\", \"ink\");\n\
    }\n\
    \n\
    function writeNumbers({ context, palette }, numbers, steps) {\n\
    \x20 context.textAlign = \"center\";\n\
    \x20 context.font = \"11px \" + palette.font;\n\
    \x20 context.textBaseline = \"top\";\n\
    \x20 if (numbers.length <= HALO_LIMIT) {\n\
    \x20   for (const [x, y, number] of numbers) haloText(context, palette, String(number), x, y, palette.muted);\
    \n\
    \x20 } else {\n\
    \x20   context.fillStyle = palette.muted;\n\
    \x20   for (const [x, y, number] of numbers) context.fillText(String(number), x, y);\n\
    \x20 }\n\
    \x20 context.font = \"bold 11px \" + palette.font;\n\
    \x20 context.textBaseline = \"bottom\";\n\
    \x20 for (const [x, y, number] of steps) haloText(context, palette, String(number), x, y, palette.film);\n\
    }\n\
    \n\
    // How wide the rim of a dot is.\n\
    function rimOf(radius) {\n\
    \x20 return radius > 4 ? 1.8 : 1.2;\n\
    }\n\
    \n\
    // A dot as a small picture, kept with its colours: thousands are placed faster than they are painted.\n\
    function dotSprite(palette, radius, fill, stroke, ratio) {\n\
    \x20 const key = [radius, fill, stroke, ratio].join();\n\
    \x20 palette.sprites ??= new Map();\n\
    \x20 if (!palette.sprites.has(key)) {\n\
    \x20   const lineWidth = rimOf(radius);\n\
    \x20   const side = Math.ceil((radius + lineWidth) * 2 * ratio);\n\
    \x20   const sprite = new OffscreenCanvas(side, side);\n\
    \x20   const context = sprite.getContext(\"2d\");\n\
    \x20   context.scale(ratio, ratio);\n\
    \x20   context.beginPath();\n\
    \x20   context.arc(side / ratio / 2, side / ratio / 2, radius, 0, 2 * Math.PI);\n\
    \x20   context.fillStyle = palette[fill];\n\
    \x20   context.fill();\n\
    \x20   context.strokeStyle = palette[stroke];\n\
    \x20   context.lineWidth = lineWidth;\n\
    \x20   context.stroke();\n\
    \x20   palette.sprites.set(key, sprite.transferToImageBitmap());\n\
    \x20 }\n\
    \x20 return palette.sprites.get(key);\n\
    }\n\
    \n\
    function haloText(context, palette, text, x, y, colour) {\n\
    \x20 context.lineJoin = \"round\";\n\
    \x20 context.lineWidth = 3.5;\n\
    \x20 context.strokeStyle = palette.surface;\n\
    \x20 context.strokeText(text, x, y);\n\
    \x20 context.fillStyle = colour;\n\
    \x20 context.fillText(text, x, y);\n\
    }\n\
    \n\
    // What was found: a small wedge above each event in view.\n\
    function drawFound({ context, run, state, palette, size, view, radius, left, right }) {\n\
    \x20 if (state.hits.length === 0) return;\n\
    \x20 let low = 0;\n\
    \x20 let high = state.hits.length;\n\
    \x20 while (low < high) {\n\
    \x20   const middle = (low + high) >> 1;\n\
    \x20   if (run.columns[state.hits[middle].p][state.hits[middle].i] < left) low = middle + 1;\n\
    \x20   else high = middle;\n\
    \x20 }\n\
    \x20 context.fillStyle = palette.found;\n\
    \x20 context.beginPath();\n\
    \x20 for (let k = low, last = -1; k < state.hits.length; k++) {\n\
    \x20   const { p, i } = state.hits[k];\n\
    \x20   const column = run.columns[p][i];\n\
    \x20   if (column > right) break;\n\
    \x20   const x = xOf(view, column);\n\
    \x20   if (view.scale < 1 && Math.floor(x) * run.size + p === last) continue;\n\
    \x20   last = Math.floor(x) * run.size + p;\n\
    \x20   const y = laneY(size, p) - (size.folded[p] ? 2 : radius + 3);\n\
    \x20   context.moveTo(x, y);\n\
    \x20   context.lineTo(x - 4, y - 7);\n\
    \x20   context.lineTo(x + 4, y - 7);\n\
    \x20 }\n\
    \x20 context.fill();\n\
    }\n\
    \n\
    function drawRings({ context, run, state, palette, size, view, radius }) {\n\
    \x20 const ring = ({ p, i }, colour) => {\n\
    \x20   context.strokeStyle = colour;\n\
    \x20   context.lineWidth = 2.5;\n\
    \x20   context.beginPath();\n\
    \x20   context.arc(xOf(view, run.columns[p][i]), laneY(size, p), size.folded[p] ? 7 : radius + 4.5, 0, 2 * Ma\
    th.PI);\n\
    \x20   context.stroke();\n\
    \x20 };\n\
    \x20 for (const { receipt, send } of run.cycle ?? []) {\n\
    \x20   ring(receipt, palette.cut);\n\
    \x20   ring(send, palette.cut);\n\
    \x20 }\n\
    \x20 if (state.selected !== null) ring(state.selected, palette.select);\n\
    \x20 if (state.film !== null && state.film.step > 0) {\n\
    \x20   const p = state.film.path[state.film.step - 1];\n\
    \x20   ring({ p, i: countUpTo(state.film.steps[p], state.film.step) }, palette.film);\n\
    \x20 }\n\
    }\n\
    \n\
    function drawCut({ context, run, state, palette, size, view }, line) {\n\
    \x20 context.strokeStyle = palette.cut;\n\
    \x20 context.lineWidth = 3;\n\
    \x20 context.lineJoin = \"round\";\n\
    \x20 context.beginPath();\n\
    \x20 line.forEach(([x, y], k) => (k === 0 ? context.moveTo(x, y) : context.lineTo(x, y)));\n\
    \x20 context.stroke();\n\
    \x20 for (const p of size.order) {\n\
    \x20   const grip = size.folded[p] ? 3 : view.scale >= 22 ? 5 : 4;\n\
    \x20   const x = cutX(run, state, p);\n\
    \x20   const y = laneY(size, p);\n\
    \x20   context.fillStyle = palette.cut;\n\
    \x20   if (x < 0 || x > size.width) {\n\
    \x20     const edge = x < 0 ? 2 : size.width - 2;\n\
    \x20     const inward = x < 0 ? 9 : -9;\n\
    \x20     context.beginPath();\n\
    \x20     context.moveTo(edge, y);\n\
    \x20     context.lineTo(edge + inward, y - 7);\n\
    \x20     context.lineTo(edge + inward, y + 7);\n\
    \x20     context.fill();\n\
    \x20     continue;\n\
    \x20   }\n\
    \x20   context.fillStyle = p === state.lane && state.focused ? palette.cut : palette.surface;\n\
    \x20   context.lineWidth = 2.5;\n\
    \x20   context.beginPath();\n\
    \x20   context.arc(x, y, grip, 0, 2 * Math.PI);\n\
    \x20   context.fill();\n\
    \x20   context.stroke();\n\
    \x20 }\n\
    }\n\
    \n\
    // ---- the overview ----------------------------------------------------------------------------------------\
    -------\n\
    \n\
    // Where each lane has events, a pixel for all columns that share it; kept until the width or the colours cha\
    nge.\n\
    function drawGround(run, order, palette, width, height, ratio) {\n\
    \x20 const ground = document.createElement(\"canvas\");\n\
    \x20 ground.width = width * ratio;\n\
    \x20 ground.height = height * ratio;\n\
    \x20 const context = ground.getContext(\"2d\");\n\
    \x20 context.scale(ratio, ratio);\n\
    \x20 context.fillStyle = palette.muted;\n\
    \x20 const view = { left: 0, scale: width / (run.lastColumn + 1) };\n\
    \x20 const lane = (height - 8) / run.size;\n\
    \x20 order.forEach((p, place) => {\n\
    \x20   const { columns } = run.shown[p];\n\
    \x20   for (let k = 1; k < columns.length;) {\n\
    \x20     const x = Math.floor(xOf(view, columns[k]));\n\
    \x20     context.fillRect(x, 4 + lane * (place + 0.25), 1, Math.max(1, lane * 0.5));\n\
    \x20     k = Math.max(k, countUpTo(columns, columnAt(view, x + 1) - 1e-9)) + 1;\n\
    \x20   }\n\
    \x20 });\n\
    \x20 return ground;\n\
    }\n\
    \n\
    function drawOverview(context, run, state, palette, ground, width, height, shown) {\n\
    \x20 context.fillStyle = palette.surface;\n\
    \x20 context.fillRect(0, 0, width, height);\n\
    \x20 const view = { left: 0, scale: width / (run.lastColumn + 1) };\n\
    \x20 const lane = (height - 8) / run.size;\n\
    \x20 context.drawImage(ground, 0, 0, width, height);\n\
    \x20 context.strokeStyle = palette.cut;\n\
    \x20 context.lineWidth = 2;\n\
    \x20 context.beginPath();\n\
    \x20 if (run.cycle === null) {\n\
    \x20   state.order.forEach((p, place) => {\n\
    \x20     const x = xOf(view, run.columns[p][state.cut[p]] + 0.5);\n\
    \x20     context.lineTo(x, 4 + lane * place);\n\
    \x20     context.lineTo(x, 4 + lane * (place + 1));\n\
    \x20   });\n\
    \x20 }\n\
    \x20 const middle = (p) => 4 + lane * (state.order.indexOf(p) + 0.5);\n\
    \x20 for (const { receipt, send } of run.cycle ?? []) {\n\
    \x20   context.moveTo(xOf(view, run.columns[send.p][send.i]), middle(send.p));\n\
    \x20   context.lineTo(xOf(view, run.columns[receipt.p][receipt.i]), middle(receipt.p));\n\
    \x20 }\n\
    \x20 context.stroke();\n\
    \x20 const left = xOf(view, state.view.left);\n\
    \x20 const right = Math.min(width, xOf(view, state.view.left + shown / state.view.scale));\n\
    \x20 context.globalAlpha = 0.55;\n\
    \x20 context.fillStyle = palette.surface;\n\
    \x20 context.fillRect(0, 0, left, height);\n\
    \x20 context.fillRect(right, 0, width - right, height);\n\
    \x20 context.globalAlpha = 1;\n\
    \x20 context.strokeStyle = palette.select;\n\
    \x20 context.lineWidth = 1.5;\n\
    \x20 context.strokeRect(left + 0.75, 0.75, Math.max(3, right - left - 1.5), height - 1.5);\n\
    }\n\
    </script>\n\
    ";
