//! The page's text after its data: the one with `page/matter.js`. `.ci/explore_page.py --write` writes it.

/// The page's text after its data: the one with `page/matter.js`.
pub(crate) const MATTER: &[u8] = b"\
    <script>\n\
    \"use strict\";\n\
    // What matters to a predicate: the events that set a variable which it names, and the messages from which th\
    eir order\n\
    // follows. A run shows either all of its events or only these, closed up. Nothing here touches the page.\n\
    \n\
    // Of each process which events set one of these variables.\n\
    function settersOf(run, refs) {\n\
    \x20 const flags = run.counts.map((count) => new Uint8Array(count + 1));\n\
    \x20 for (const [p, v] of refs) {\n\
    \x20   for (const i of run.vars[p][v].at) flags[p][i] = 1;\n\
    \x20 }\n\
    \x20 return flags;\n\
    }\n\
    \n\
    // How many flags a list has.\n\
    function flagged(list) {\n\
    \x20 let sum = 0;\n\
    \x20 for (let i = 0; i < list.length; i++) sum += list[i];\n\
    \x20 return sum;\n\
    }\n\
    \n\
    // How many of the first i events of a process have a flag, for each i.\n\
    function flaggedUpTo(flags) {\n\
    \x20 const sums = new Int32Array(flags.length);\n\
    \x20 for (let i = 1; i < flags.length; i++) sums[i] = sums[i - 1] + flags[i];\n\
    \x20 return sums;\n\
    }\n\
    \n\
    // Has event j of q more events of p with a flag in its past than the event of q before it?\n\
    function learns(run, sums, p, q, j) {\n\
    \x20 return sums[clockAt(run, q, j, p)] > sums[clockAt(run, q, j - 1, p)];\n\
    }\n\
    \n\
    // The messages from which the order of the flagged events follows: by the receipt a process learns of a flag\
    ged event\n\
    // of another, p, and one of a process that isn't p is that receipt or comes after it. With the order along p\
    rocesses,\n\
    // these order the flagged events as all messages do.\n\
    function messagesThatTell(run, flags) {\n\
    \x20 const { to, toEvent, length } = run.messages;\n\
    \x20 const sums = flags.map(flaggedUpTo);\n\
    \x20 const last = flags.map((list) => Math.max(0, list.lastIndexOf(1)));\n\
    \x20 const setting = [...last.keys()].filter((p) => last[p] > 0);\n\
    \x20 // For each of these processes and each q: the last event of q that is before a flagged one of another, \
    or is one.\n\
    \x20 const needed = setting.map((p) => run.names.map((_, q) =>\n\
    \x20   Math.max(0, ...setting.filter((r) => r !== p).map((r) => clockAt(run, r, last[r], q)))));\n\
    \x20 const tells = (q, j) => setting.some((p, k) => p !== q && j <= needed[k][q] && learns(run, sums[p], p, q\
    , j));\n\
    \x20 const kept = new Uint8Array(length);\n\
    \x20 for (let m = 0; m < length; m++) {\n\
    \x20   if (to[m] >= 0 && tells(to[m], toEvent[m])) kept[m] = 1;\n\
    \x20 }\n\
    \x20 return kept;\n\
    }\n\
    \n\
    // For each process whether an event is shown: it has a flag, or is an end of a message that is kept.\n\
    function shownFlags(run, flags, kept) {\n\
    \x20 const { from, fromEvent, to, toEvent } = run.messages;\n\
    \x20 const shown = flags.map((list) => list.slice());\n\
    \x20 for (let m = kept.indexOf(1); m >= 0; m = kept.indexOf(1, m + 1)) {\n\
    \x20   shown[from[m]][fromEvent[m]] = shown[to[m]][toEvent[m]] = 1;\n\
    \x20 }\n\
    \x20 return shown;\n\
    }\n\
    \n\
    // The columns that have a shown event, numbered from 1: for each column of the whole run how many there are \
    up to it.\n\
    function ranksOf(run, shown) {\n\
    \x20 const { columns, lastColumn } = run.whole;\n\
    \x20 const has = new Uint8Array(lastColumn + 1);\n\
    \x20 shown.forEach((list, p) => {\n\
    \x20   for (let i = list.indexOf(1); i >= 0; i = list.indexOf(1, i + 1)) has[columns[p][i]] = 1;\n\
    \x20 });\n\
    \x20 return flaggedUpTo(has);\n\
    }\n\
    \n\
    // A hidden event stands a quarter of a column right of the last shown column before it.\n\
    function closedUp(columns, shown, ranks) {\n\
    \x20 const closed = new Float64Array(columns.length);\n\
    \x20 for (let i = 1; i < columns.length; i++) closed[i] = ranks[columns[i]] + (shown[i] === 1 ? 0 : 0.25);\n\
    \x20 return closed;\n\
    }\n\
    \n\
    // What is shown of a lane: its events, after a place that is no event's, and their columns.\n\
    function shownOf(columns, shown) {\n\
    \x20 const length = 1 + flagged(shown);\n\
    \x20 const found = { events: new Int32Array(length), columns: new Float64Array(length) };\n\
    \x20 let k = 0;\n\
    \x20 for (let i = shown.indexOf(1); i >= 0; i = shown.indexOf(1, i + 1)) {\n\
    \x20   k++;\n\
    \x20   found.events[k] = i;\n\
    \x20   found.columns[k] = columns[i];\n\
    \x20 }\n\
    \x20 return found;\n\
    }\n\
    \n\
    // Lets a run show only what matters to a predicate with these variables.\n\
    function showOnly(run, refs) {\n\
    \x20 const flags = settersOf(run, refs);\n\
    \x20 const kept = messagesThatTell(run, flags);\n\
    \x20 const shown = shownFlags(run, flags, kept);\n\
    \x20 const ranks = ranksOf(run, shown);\n\
    \x20 const { columns, lastColumn, spans } = run.whole;\n\
    \x20 run.columns = columns.map((list, p) => closedUp(list, shown[p], ranks));\n\
    \x20 run.lastColumn = ranks[lastColumn];\n\
    \x20 run.spans = { order: spans.order, reach: spans.reach.map((column) => ranks[Math.min(column, lastColumn)]\
    \x20+ 1) };\n\
    \x20 run.shown = run.columns.map((list, p) => shownOf(list, shown[p]));\n\
    \x20 run.only = { flags, kept, events: flags.reduce((sum, list) => sum + flagged(list), 0), messages: flagged\
    (kept) };\n\
    }\n\
    \n\
    // Lets a run show all of its events.\n\
    function showAll(run) {\n\
    \x20 Object.assign(run, run.whole);\n\
    }\n\
    \n\
    // The event at place k of what is shown of a lane.\n\
    function eventAt(shown, k) {\n\
    \x20 return shown.events === null ? k : shown.events[k];\n\
    }\n\
    \n\
    // Is an event one of those that are shown as a dot of the usual size?\n\
    function isFull(run, p, i) {\n\
    \x20 return run.only === null || run.only.flags[p][i] === 1;\n\
    }\n\
    \n\
    function isKept(run, m) {\n\
    \x20 return run.only === null || run.only.kept[m] === 1;\n\
    }\n\
    \n\
    if (typeof module === \"object\") {\n\
    \x20 Object.assign(globalThis, require(\"./run.js\"));   // on the page, scripts share their names\n\
    \x20 module.exports = { showOnly, showAll, eventAt, isFull, isKept };\n\
    }\n\
    </script>\n\
    ";
