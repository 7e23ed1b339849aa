//! The page's text after its data: the one with `page/pointer.js`. `.ci/explore_page.py --write` writes it.

/// The page's text after its data: the one with `page/pointer.js`.
pub(crate) const POINTER: &[u8] = b"\
    <script>\n\
    \"use strict\";\n\
    // What the pointer does on the drawing and on the overview: the state is that of the page.\n\
    \n\
    // Where each finger is, and the pinch of two: the column between them stays between them.\n\
    const fingers = new Map();\n\
    let pinch = null;\n\
    \n\
    function spread() {\n\
    \x20 const [one, other] = [...fingers.values()];\n\
    \x20 return { middle: (one.x + other.x) / 2, apart: Math.max(20, Math.hypot(one.x - other.x, one.y - other.y)\
    ) };\n\
    }\n\
    \n\
    function startPinch() {\n\
    \x20 const { middle, apart } = spread();\n\
    \x20 pinch = { column: columnAt(state.view, middle), scale: state.view.scale, apart };\n\
    }\n\
    \n\
    function movePinch() {\n\
    \x20 const { middle, apart } = spread();\n\
    \x20 stretch(pinch.scale * apart / pinch.apart, pinch.column, middle);\n\
    }\n\
    \n\
    // What is dragged: the grip of a lane's cut, or the ground.\n\
    let drag = null;\n\
    \n\
    function placeOf(event) {\n\
    \x20 const box = canvas.getBoundingClientRect();\n\
    \x20 return { x: event.clientX - box.left, y: event.clientY - box.top };\n\
    }\n\
    \n\
    function press(event) {\n\
    \x20 if (event.button !== 0) return;\n\
    \x20 const { x, y } = placeOf(event);\n\
    \x20 if (event.pointerType === \"touch\") fingers.set(event.pointerId, { x, y });\n\
    \x20 hideTip();\n\
    \x20 if (fingers.size >= 2) {\n\
    \x20   drag = null;\n\
    \x20   return startPinch();\n\
    \x20 }\n\
    \x20 const grip = gripNear(run, state, size, x, y);\n\
    \x20 if (grip !== null && grip.edge) return reveal(run.columns[grip.p][state.cut[grip.p]]);\n\
    \x20 canvas.setPointerCapture(event.pointerId);\n\
    \x20 if (grip !== null) {\n\
    \x20   pause();\n\
    \x20   drag = { p: grip.p, start: state.cut, kept: false };\n\
    \x20 } else drag = { x, left: state.view.left, moved: false };\n\
    }\n\
    \n\
    function follow(event) {\n\
    \x20 const { x, y } = placeOf(event);\n\
    \x20 if (fingers.has(event.pointerId)) fingers.set(event.pointerId, { x, y });\n\
    \x20 if (pinch !== null) return movePinch();\n\
    \x20 if (drag === null) return hover(x, y);\n\
    \x20 if (drag.start !== undefined) return dragGrip(x);\n\
    \x20 if (Math.abs(x - drag.x) > 4) drag.moved = true;\n\
    \x20 if (drag.moved) setView(drag.left - (x - drag.x) / state.view.scale, state.view.scale);\n\
    \x20 canvas.style.cursor = drag.moved ? \"grabbing\" : \"\";\n\
    }\n\
    \n\
    function dragGrip(x) {\n\
    \x20 const margin = 24;\n\
    \x20 if (x < margin || x > size.width - margin) {\n\
    \x20   setView(state.view.left + (x < margin ? -8 : 8) / state.view.scale, state.view.scale);\n\
    \x20 }\n\
    \x20 const count = countUpTo(run.columns[drag.p], columnAt(state.view, x));\n\
    \x20 const { cut, forced } = moveTo(run, drag.start, drag.p, count);\n\
    \x20 if (String(cut) === String(state.cut)) return;\n\
    \x20 state.lane = drag.p;\n\
    \x20 setCut(cut, { forced, from: drag.start, keep: !drag.kept, text: moveText(run, drag.start, cut, drag.p, f\
    orced) });\n\
    \x20 drag.kept = true;\n\
    }\n\
    \n\
    // One finger less: what is left of a pinch goes along the run.\n\
    function lift(event) {\n\
    \x20 drag = null;\n\
    \x20 canvas.style.cursor = \"\";\n\
    \x20 if (!fingers.delete(event.pointerId) || pinch === null) return;\n\
    \x20 if (fingers.size >= 2) return startPinch();\n\
    \x20 pinch = null;\n\
    \x20 const [left] = fingers.values();\n\
    \x20 drag = { x: left.x, left: state.view.left, moved: true };\n\
    }\n\
    \n\
    function turnWheel(event) {\n\
    \x20 const { x } = placeOf(event);\n\
    \x20 if (event.ctrlKey) {\n\
    \x20   event.preventDefault();\n\
    \x20   return zoom(Math.exp(-event.deltaY * (event.deltaMode === 1 ? 0.05 : 0.0025)), x);\n\
    \x20 }\n\
    \x20 const delta = (Math.abs(event.deltaX) > Math.abs(event.deltaY) ? event.deltaX : event.deltaY) *\n\
    \x20   (event.deltaMode === 1 ? 20 : 1);\n\
    \x20 const { left } = state.view;\n\
    \x20 setView(left + delta / state.view.scale, state.view.scale);\n\
    \x20 if (state.view.left !== left) event.preventDefault();\n\
    }\n\
    \n\
    function watchPointer() {\n\
    \x20 canvas.addEventListener(\"pointerdown\", press);\n\
    \x20 canvas.addEventListener(\"pointermove\", follow);\n\
    \x20 canvas.addEventListener(\"pointerup\", (event) => {\n\
    \x20   if (drag !== null && drag.start === undefined && !drag.moved) click(event, placeOf(event));\n\
    \x20   lift(event);\n\
    \x20 });\n\
    \x20 canvas.addEventListener(\"pointercancel\", lift);\n\
    \x20 canvas.addEventListener(\"touchmove\", (event) => {\n\
    \x20   if (event.touches.length > 1 && event.cancelable) event.preventDefault();   // the page isn't zoomed a\
    s well\n\
    \x20 }, { passive: false });\n\
    \x20 canvas.addEventListener(\"pointerleave\", (event) => { if (event.pointerType !== \"touch\") hideTip(); }\
    );\n\
    \x20 canvas.addEventListener(\"wheel\", turnWheel, { passive: false });\n\
    \x20 watchOverview();\n\
    }\n\
    \n\
    function watchOverview() {\n\
    \x20 let held = false;\n\
    \x20 const pan = (event) => {\n\
    \x20   const box = overview.getBoundingClientRect();\n\
    \x20   const column = (event.clientX - box.left) / (strip.width / (run.lastColumn + 1));\n\
    \x20   setView(column - size.width / 2 / state.view.scale, state.view.scale);\n\
    \x20 };\n\
    \x20 overview.addEventListener(\"pointerdown\", (event) => {\n\
    \x20   held = true;\n\
    \x20   overview.setPointerCapture(event.pointerId);\n\
    \x20   pan(event);\n\
    \x20 });\n\
    \x20 overview.addEventListener(\"pointermove\", (event) => { if (held) pan(event); });\n\
    \x20 overview.addEventListener(\"pointerup\", () => { held = false; });\n\
    }\n\
    \n\
    function click(event, { x, y }) {\n\
    \x20 const near = eventNear(run, state, size, x, y);\n\
    \x20 if (near === null) {\n\
    \x20   if (state.selected !== null) select(null);\n\
    \x20   const m = messageUnder(x, y);\n\
    \x20   if (m === null) return;\n\
    \x20   showTip(messageText(m), x, y);   // a finger that taps a message doesn't hover over it\n\
    \x20   return say(messageText(m) + \".\");\n\
    \x20 }\n\
    \x20 select(near.p, near.i);\n\
    \x20 if (!event.shiftKey) cutTo(near.p, near.i);\n\
    }\n\
    \n\
    function hover(x, y) {\n\
    \x20 const grip = gripNear(run, state, size, x, y);\n\
    \x20 const near = eventNear(run, state, size, x, y);\n\
    \x20 canvas.style.cursor = grip !== null ? (grip.edge ? \"pointer\" : \"ew-resize\") : near !== null ? \"poin\
    ter\" : \"grab\";\n\
    \x20 if (grip !== null && !grip.edge) return hideTip();\n\
    \x20 if (near !== null) return showTip(eventText(run, near.p, near.i), x, y);\n\
    \x20 const m = messageUnder(x, y);\n\
    \x20 if (m === null) return hideTip();\n\
    \x20 showTip(messageText(m), x, y);\n\
    }\n\
    \n\
    function messageUnder(x, y) {\n\
    \x20 return state.view.scale >= DOT_SCALE ? messageNear(run, state, size, x, y) : null;\n\
    }\n\
    \n\
    function messageText(m) {\n\
    \x20 const { from, fromEvent, to, toEvent, ids } = run.messages;\n\
    \x20 return plainText(ids[m]) + \": \" + placeText(run, from[m], fromEvent[m]) +\n\
    \x20   (to[m] < 0 ? \", in flight\" : \" to \" + placeText(run, to[m], toEvent[m]));\n\
    }\n\
    \n\
    function showTip(text, x, y) {\n\
    \x20 const tip = byId(\"tip\");\n\
    \x20 tip.hidden = false;\n\
    \x20 tip.textContent = text;\n\
    \x20 const left = Math.max(4, Math.min(x + 14, size.width - tip.offsetWidth - 4));\n\
    \x20 const below = y + 18;\n\
    \x20 tip.style.left = left + \"px\";\n\
    \x20 tip.style.top = (below + tip.offsetHeight > size.height ? y - tip.offsetHeight - 12 : below) + \"px\";\n\
    }\n\
    \n\
    function hideTip() {\n\
    \x20 byId(\"tip\").hidden = true;\n\
    }\n\
    </script>\n\
    ";
