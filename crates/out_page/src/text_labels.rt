//! The page's text after its data: the one with `page/labels.js`. `.ci/explore_page.py --write` writes it.

/// The page's text after its data: the one with `page/labels.js`.
pub(crate) const LABELS: &[u8] = b"\
    <script>\n\
    \"use strict\";\n\
    // The texts on the drawing that may be longer than there is room: notes at the dots, values beside the cut. \
    What\n\
    // doesn't fit is cut, and nothing stands out of view.\n\
    \n\
    const NOTE_ROOM = 34;       // pixels that a note has at least, or it isn't drawn\n\
    const NOTE_WIDTH = 320;     // and at most\n\
    const ROOM_BELOW = 64;      // the height of a lane from which on a note has a line of its own below the numb\
    er\n\
    const VALUES_ROOM = 60;     // pixels that values have at least beside the cut, on either side\n\
    \n\
    // A text that is at most this wide, cut at its end if it has to be.\n\
    function fitting(context, text, width) {\n\
    \x20 if (context.measureText(text).width <= width) return text;\n\
    \x20 let [low, high] = [1, Math.min(text.length - 1, Math.ceil(width / 2))];\n\
    \x20 while (low < high) {\n\
    \x20   const middle = (low + high + 1) >> 1;\n\
    \x20   if (context.measureText(cutAt(text, middle)).width <= width) low = middle;\n\
    \x20   else high = middle - 1;\n\
    \x20 }\n\
    \x20 return cutAt(text, low);\n\
    }\n\
    \n\
    // The first characters of a text, and no half of one.\n\
    function cutAt(text, end) {\n\
    \x20 return text.slice(0, end).replace(/[\\ud800-\\udbff]$/, \"\") + \"\xe2\x80\xa6\";\n\
    }\n\
    \n\
    // ---- notes -----------------------------------------------------------------------------------------------\
    -------\n\
    \n\
    // The text of a note as a label, cut for so much room, with the number of the event's other notes if half of\
    \x20the room\n\
    // is enough for it: kept with the note, since going along the run changes no room.\n\
    function labelOf(context, note, more, room) {\n\
    \x20 if (note.room === room) return note.label;\n\
    \x20 const text = plainText(excerpt(note.text, NOTE_EXCERPT));\n\
    \x20 const number = more === 0 ? \"\" : \" +\" + more;\n\
    \x20 const wide = context.measureText(number).width;\n\
    \x20 note.room = room;\n\
    \x20 note.label = number === \"\" || wide > room / 2 ? fitting(context, text, room)\n\
    \x20   : \"\\u2068\" + fitting(context, text, room - wide) + \"\\u2069\" + number;\n\
    \x20 return note.label;\n\
    }\n\
    \n\
    // The events of a lane in view that have a note with a text, and the next one right of the view: of each the\
    \x20first such\n\
    // note, and how many others it has.\n\
    function notedInView({ run, view, left, right }, p) {\n\
    \x20 const { columns } = run.shown[p];\n\
    \x20 const found = [];\n\
    \x20 for (let k = countUpTo(columns, left - NOTE_WIDTH / view.scale) + 1; k < columns.length; k++) {\n\
    \x20   const notes = notesAt(run, p, eventAt(run.shown[p], k));\n\
    \x20   const note = firstText(notes);\n\
    \x20   if (note !== null) {\n\
    \x20     found.push({ x: xOf(view, columns[k]), after: xOf(view, columns[k + 1] ?? Infinity), note,\n\
    \x20                  more: notes.length - 1 });\n\
    \x20   }\n\
    \x20   if (columns[k] > right) break;\n\
    \x20 }\n\
    \x20 return found;\n\
    }\n\
    \n\
    // Where a lane's notes stand: below the dot's number, up to the next note; in a low lane right of the number\
    , up to\n\
    // that of the next dot.\n\
    function placeNotes(scene, p, labels) {\n\
    \x20 const { run, size, radius } = scene;\n\
    \x20 const isLow = size.heights[p] < ROOM_BELOW;\n\
    \x20 const y = laneY(size, p) + radius + (isLow ? 5 : 18);\n\
    \x20 const indent = isLow ? 5 + 3.5 * String(run.counts[p]).length : -radius;\n\
    \x20 const noted = notedInView(scene, p);\n\
    \x20 noted.forEach(({ x, after, note, more }, k) => {\n\
    \x20   const start = x + indent;\n\
    \x20   const next = isLow ? after - indent : (noted[k + 1]?.x ?? Infinity) - radius;\n\
    \x20   const room = Math.floor(Math.min(NOTE_WIDTH, next - start - 6, size.width - start - 4));\n\
    \x20   if (room >= NOTE_ROOM && start < size.width) labels.push({ x: start, y, room, note, more });\n\
    \x20 });\n\
    }\n\
    \n\
    // Notes where there is room for them: between dots that stand far enough apart, on lanes that aren't folded.\
    \n\
    function drawNotes(scene) {\n\
    \x20 const { context, run, palette, size, view } = scene;\n\
    \x20 if (run.notes === null || run.notes.count === 0 || view.scale < DOT_SCALE) return;\n\
    \x20 const labels = [];\n\
    \x20 context.font = \"11px \" + palette.font;\n\
    \x20 context.textAlign = \"left\";\n\
    \x20 context.textBaseline = \"top\";\n\
    \x20 for (const p of size.order.filter((each) => !size.folded[each])) placeNotes(scene, p, labels);\n\
    \x20 context.fillStyle = palette.note;\n\
    \x20 for (const { x, y, room, note, more } of labels) {\n\
    \x20   const text = labelOf(context, note, more, room);\n\
    \x20   if (labels.length <= HALO_LIMIT) haloText(context, palette, text, x, y, palette.note);\n\
    \x20   else context.fillText(text, x, y);\n\
    \x20 }\n\
    }\n\
    \n\
    // ---- values ----------------------------------------------------------------------------------------------\
    -------\n\
    \n\
    // Beside the cut, what the variables that the shown predicate names are worth: on the side on which there is\
    \x20room, or\n\
    // the one on which there is more.\n\
    function drawValues({ context, run, state, palette, size }) {\n\
    \x20 const predicate = run.predicates[state.shown];\n\
    \x20 if (predicate === undefined) return;\n\
    \x20 context.font = \"bold 12px \" + palette.font;\n\
    \x20 context.textBaseline = \"middle\";\n\
    \x20 for (let p = 0; p < run.size; p++) {\n\
    \x20   const named = predicate.refs.filter(([q]) => q === p);\n\
    \x20   const x = cutX(run, state, p);\n\
    \x20   if (named.length === 0 || size.folded[p] || x < 0 || x > size.width) continue;\n\
    \x20   const text = excerpt(named.map(([, v]) => run.vars[p][v].name + \" = \" + valueAt(run, p, v, state.cut\
    [p]))\n\
    \x20     .join(\", \"), 40);\n\
    \x20   const { shown, start, align } = besideCut(context, text, x, size.width);\n\
    \x20   context.textAlign = align;\n\
    \x20   const above = size.lane * (state.film === null ? 0.25 : 0.33);\n\
    \x20   haloText(context, palette, shown, start, laneY(size, p) - above, palette[\"cut-text\"]);\n\
    \x20 }\n\
    }\n\
    \n\
    function besideCut(context, text, x, width) {\n\
    \x20 const wide = context.measureText(text).width;\n\
    \x20 const [left, right] = [x - 10, width - x - 10];\n\
    \x20 const isRight = wide <= right || (wide > left && right >= left);\n\
    \x20 const room = Math.max(VALUES_ROOM, isRight ? right : left);\n\
    \x20 return { shown: fitting(context, text, room), start: isRight ? x + 8 : x - 8, align: isRight ? \"left\" \
    : \"right\" };\n\
    }\n\
    \n\
    if (typeof module === \"object\") {\n\
    \x20 Object.assign(globalThis, require(\"./notes.js\"));   // on the page, scripts share their names\n\
    \x20 module.exports = { fitting, labelOf };\n\
    }\n\
    </script>\n\
    ";
