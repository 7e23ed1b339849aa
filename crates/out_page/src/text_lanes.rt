//! The page's text after its data: the one with `page/lanes.js`. `.ci/explore_page.py --write` writes it.

/// The page's text after its data: the one with `page/lanes.js`.
pub(crate) const LANES: &[u8] = b"\
    <script>\n\
    \"use strict\";\n\
    // The lanes: their heads beside the drawing, their order, and which of them are folded to a thin line.\n\
    \n\
    const FOLDED_HEIGHT = 20;\n\
    const ROOMY_LANE = 48;    // below the last one of lanes that are narrower, its numbers have some pixels more\
    \n\
    const UNDER_LAST = 10;\n\
    \n\
    // ---- where lanes stand -----------------------------------------------------------------------------------\
    -------\n\
    \n\
    // Gives each lane its height, of a height that they share, and its place from the top.\n\
    function layOut(size, state, height) {\n\
    \x20 const open = state.folded.filter((is) => !is).length;\n\
    \x20 const share = (height - FOLDED_HEIGHT * (state.folded.length - open)) / Math.max(1, open);\n\
    \x20 size.lane = Math.round(Math.max(34, Math.min(96, share)));\n\
    \x20 size.order = state.order;\n\
    \x20 size.folded = state.folded;\n\
    \x20 size.heights = state.folded.map((is) => (is ? FOLDED_HEIGHT : size.lane));\n\
    \x20 size.tops = [];\n\
    \x20 let top = size.top;\n\
    \x20 for (const p of state.order) {\n\
    \x20   size.tops[p] = top;\n\
    \x20   top += size.heights[p];\n\
    \x20 }\n\
    \x20 const last = state.order[state.order.length - 1];\n\
    \x20 size.height = top + size.top + (size.heights[last] < ROOMY_LANE ? UNDER_LAST : 0);\n\
    }\n\
    \n\
    function laneY(size, p) {\n\
    \x20 return size.tops[p] + size.heights[p] / 2;\n\
    }\n\
    \n\
    // The process whose lane has this height in it, or -1.\n\
    function laneAt(size, y) {\n\
    \x20 return size.order.find((p) => y >= size.tops[p] && y < size.tops[p] + size.heights[p]) ?? -1;\n\
    }\n\
    \n\
    // The place of a lane of which the middle is dragged to this height: the one at which it has its middle near\
    est to it.\n\
    function placeAt(size, p, y) {\n\
    \x20 let middle = size.top + size.heights[p] / 2;\n\
    \x20 let best = { place: 0, distance: Math.abs(y - middle) };\n\
    \x20 size.order.filter((q) => q !== p).forEach((q, k) => {\n\
    \x20   middle += size.heights[q];\n\
    \x20   const distance = Math.abs(y - middle);\n\
    \x20   if (distance < best.distance) best = { place: k + 1, distance };\n\
    \x20 });\n\
    \x20 return best.place;\n\
    }\n\
    \n\
    // The order in which a lane stands at a place, and the others as before.\n\
    function movedTo(order, p, place) {\n\
    \x20 const others = order.filter((q) => q !== p);\n\
    \x20 return [...others.slice(0, place), p, ...others.slice(place)];\n\
    }\n\
    \n\
    // The order in which the lanes of some processes come first.\n\
    function withFirst(order, first) {\n\
    \x20 return [...order.filter((p) => first.has(p)), ...order.filter((p) => !first.has(p))];\n\
    }\n\
    \n\
    // ---- their heads -----------------------------------------------------------------------------------------\
    -------\n\
    \n\
    // A head has the slider that moves the cut, and a column of two controls beside it. Of all heads that of the\
    \x20current\n\
    // lane alone is reached by the key Tab.\n\
    function makeLane(run, p, on) {\n\
    \x20 const name = run.names[p];\n\
    \x20 const count = element(\"span\", { class: \"count\" });\n\
    \x20 const lane = element(\"div\", { class: \"lane\", role: \"slider\", \"aria-label\": name, \"aria-valuemin\
    \": \"0\",\n\
    \x20   \"aria-valuemax\": String(run.counts[p]), \"aria-orientation\": \"horizontal\", title: name },\n\
    \x20   element(\"span\", { class: \"name\" }, name), count);\n\
    \x20 const grip = element(\"button\", { type: \"button\", class: \"handle\", \"aria-label\": \"Move the lane \
    of \" + name,\n\
    \x20   title: \"drag the lane, or move it by the keys up and down\" }, \"\xe2\xa0\xbf\");\n\
    \x20 const fold = element(\"button\", { type: \"button\", class: \"fold\", click: () => on.fold(p) });\n\
    \x20 const head = element(\"div\", { class: \"head\" }, element(\"div\", { class: \"controls\" }, grip, fold)\
    , lane);\n\
    \x20 lane.addEventListener(\"focus\", () => on.focus(p));\n\
    \x20 lane.addEventListener(\"blur\", on.blur);\n\
    \x20 lane.addEventListener(\"keydown\", (event) => on.key(event, p));\n\
    \x20 grip.addEventListener(\"keydown\", (event) => gripKey(event, p, on));\n\
    \x20 grip.addEventListener(\"pointerdown\", (event) => { if (event.button === 0) on.grip(event, p); });\n\
    \x20 return { head, lane, count, grip, fold };\n\
    }\n\
    \n\
    function gripKey(event, p, on) {\n\
    \x20 if (event.key !== \"ArrowUp\" && event.key !== \"ArrowDown\") return;\n\
    \x20 event.preventDefault();\n\
    \x20 on.step(p, event.key === \"ArrowUp\" ? -1 : 1);\n\
    }\n\
    \n\
    // Puts the heads in their order. One stays where it is, and the others are put around it: the pointer or the\
    \x20focus may\n\
    // be on it.\n\
    function orderHeads(lanes, order, stays) {\n\
    \x20 const heads = order.map((p) => lanes[p].head);\n\
    \x20 const place = order.indexOf(stays);\n\
    \x20 heads[place].before(...heads.slice(0, place));\n\
    \x20 heads[place].after(...heads.slice(place + 1));\n\
    }\n\
    \n\
    function updateHeads(run, state, lanes) {\n\
    \x20 lanes.forEach(({ head, lane, count, grip, fold }, p) => {\n\
    \x20   const isShut = state.folded[p];\n\
    \x20   lane.tabIndex = grip.tabIndex = fold.tabIndex = p === state.lane ? 0 : -1;\n\
    \x20   head.classList.toggle(\"folded\", isShut);\n\
    \x20   fold.textContent = isShut ? \"\xe2\x96\xb8\" : \"\xe2\x96\xbe\";\n\
    \x20   fold.title = (isShut ? \"Unfold the lane of \" : \"Fold the lane of \") + run.names[p];\n\
    \x20   fold.setAttribute(\"aria-label\", fold.title);\n\
    \x20   fold.setAttribute(\"aria-expanded\", String(!isShut));\n\
    \x20   updateSlider(run, state, lane, count, p);\n\
    \x20 });\n\
    }\n\
    \n\
    function updateSlider(run, state, lane, count, p) {\n\
    \x20 if (run.cycle !== null) {\n\
    \x20   const i = state.selected !== null && state.selected.p === p ? state.selected.i : 0;\n\
    \x20   lane.setAttribute(\"aria-valuenow\", String(i));\n\
    \x20   lane.setAttribute(\"aria-valuetext\", i === 0 ? \"no event is selected\" : eventText(run, p, i));\n\
    \x20   count.textContent = counted(run.counts[p], \"event\");\n\
    \x20   return;\n\
    \x20 }\n\
    \x20 const events = state.cut[p];\n\
    \x20 lane.setAttribute(\"aria-valuenow\", String(events));\n\
    \x20 lane.setAttribute(\"aria-valuetext\", events + \" of \" + run.counts[p] + \" events in the cut\" +\n\
    \x20   (events === 0 ? \"\" : \"; the last is \" + eventText(run, p, events)));\n\
    \x20 count.textContent = events + \"/\" + run.counts[p];\n\
    }\n\
    \n\
    // Follows a pointer that drags a lane, until it is lifted: `place` is called with each place that it comes t\
    o.\n\
    function followGrip(event, size, p, place) {\n\
    \x20 const box = byId(\"lanes\");\n\
    \x20 event.preventDefault();\n\
    \x20 box.setPointerCapture(event.pointerId);\n\
    \x20 box.classList.add(\"moving\");\n\
    \x20 const offset = laneY(size, p) - event.clientY;\n\
    \x20 const move = ({ clientY }) => place(placeAt(size, p, clientY + offset));\n\
    \x20 const end = () => {\n\
    \x20   box.classList.remove(\"moving\");\n\
    \x20   box.removeEventListener(\"pointermove\", move);\n\
    \x20   for (const kind of [\"pointerup\", \"pointercancel\"]) box.removeEventListener(kind, end);\n\
    \x20 };\n\
    \x20 box.addEventListener(\"pointermove\", move);\n\
    \x20 for (const kind of [\"pointerup\", \"pointercancel\"]) box.addEventListener(kind, end);\n\
    }\n\
    \n\
    // ---- what isn't shown ------------------------------------------------------------------------------------\
    -------\n\
    \n\
    // What of the run is hidden, in words. `between` messages in view have both ends on folded lanes.\n\
    function hiddenText(run, state, between) {\n\
    \x20 const parts = [];\n\
    \x20 if (run.only !== null) {\n\
    \x20   const { events, messages } = run.only;\n\
    \x20   parts.push(\"Shown: the \" + counted(events, \"event\") + \" of \" + run.eventCount.toLocaleString(\"e\
    n\") + \" that \" +\n\
    \x20     (events === 1 ? \"sets\" : \"set\") + \" what \" + run.predicates[state.shown].name + \" names, and \
    the \" +\n\
    \x20     counted(messages, \"message\") + \" of \" + run.received.toLocaleString(\"en\") + \" that \" +\n\
    \x20     (messages === 1 ? \"orders\" : \"order\") + \" them. A dashed line hides events.\");\n\
    \x20 }\n\
    \x20 const folded = state.order.filter((p) => state.folded[p]);\n\
    \x20 if (folded.length > 0) {\n\
    \x20   parts.push(\"Folded: \" + folded.map((p) => run.names[p]).join(\", \") + \".\" + (between === 0 ? \"\"\
    \n\
    \x20     : \" \" + counted(between, \"message\") + \" in view, between folded lanes, \" + (between === 1 ? \"\
    is\" : \"are\") +\n\
    \x20       \" hidden.\"));\n\
    \x20 }\n\
    \x20 return parts.join(\" \");\n\
    }\n\
    \n\
    if (typeof module === \"object\") module.exports = { layOut, laneAt, laneY, placeAt, movedTo, withFirst };\n\
    </script>\n\
    ";
