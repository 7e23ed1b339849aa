//! The page's text after its data: the one with `page/run.js`. `.ci/explore_page.py --write` writes it.

/// The page's text after its data: the one with `page/run.js`.
pub(crate) const RUN: &[u8] = b"\
    </script>\n\
    <script>\n\
    \"use strict\";\n\
    // What follows from the data alone: clocks, cuts, values, predicates, observations, finding. Nothing here to\
    uches the\n\
    // page, so that `node --test` runs it as it is. Processes and variables are numbered from 0, events from 1.\n\
    \n\
    // ---- the run ---------------------------------------------------------------------------------------------\
    -------\n\
    \n\
    // What a page has of a session that is refused without a run: nothing but its report and the explanation.\n\
    const NO_RUN = { width: 1, processes: [], initial: [], sources: [], events: [], messages: [], predicates: [],\
    \n\
    \x20                answers: [] };\n\
    \n\
    function readRun(given) {\n\
    \x20 if (given.format !== 1) throw new Error(\"this page reads format 1, and the data says \" + given.format)\
    ;\n\
    \x20 const data = given.refusal === undefined ? given : { ...NO_RUN, ...given };\n\
    \x20 const { events } = data;\n\
    \x20 const names = data.processes.map((process) => process.name);\n\
    \x20 const run = {\n\
    \x20   width: data.width,\n\
    \x20   beyondWidth: data.beyond_width,\n\
    \x20   refusal: data.refusal ?? null,\n\
    \x20   link: data.link ?? null,\n\
    \x20   wishes: [],     // read by `readWishes`\n\
    \x20   notes: null,    // read by `Notes`, if the page has any\n\
    \x20   size: names.length,\n\
    \x20   names,\n\
    \x20   sources: data.sources,\n\
    \x20   counts: events.map((list) => list.length - 1),\n\
    \x20   events,\n\
    \x20   vars: data.processes.map((process, p) => readVars(process.vars, data.initial[p], events[p])),\n\
    \x20 };\n\
    \x20 run.eventCount = run.counts.reduce((sum, count) => sum + count, 0);\n\
    \x20 giveMessages(run, data.messages);\n\
    \x20 run.cycle = data.cycle === undefined ? null : linksOf(run, data.cycle);\n\
    \x20 giveClocks(run);\n\
    \x20 giveSpans(run);\n\
    \x20 // What is shown: all events, or of these only some, closed up (`showOnly`).\n\
    \x20 run.whole = { columns: run.columns, lastColumn: run.lastColumn, spans: run.spans, only: null,\n\
    \x20               shown: run.columns.map((columns) => ({ events: null, columns })) };\n\
    \x20 Object.assign(run, run.whole);\n\
    \x20 run.places = placesOf(run);\n\
    \x20 // Of a run that is refused no predicate is answered.\n\
    \x20 run.predicates = run.cycle !== null ? [] : data.predicates.map((tree, k) => {\n\
    \x20   const node = readPredicate(tree, names, run.vars);\n\
    \x20   return { ...data.answers[k], node, text: node.text, refs: refsOf(node) };\n\
    \x20 });\n\
    \x20 return run;\n\
    }\n\
    \n\
    // The line of event i of p in its process's file, and nothing if that isn't known.\n\
    function lineOf(run, p, i) {\n\
    \x20 return String(run.sources[p][1][i - 1] ?? \"\");\n\
    }\n\
    \n\
    // Where event i of p was recorded, in words.\n\
    function sourceOf(run, p, i) {\n\
    \x20 const [file] = run.sources[p];\n\
    \x20 const line = lineOf(run, p, i);\n\
    \x20 return file === \"\" ? \"not known: its stream can't be read again\" : file + (line === \"\" ? \"\" : \"\
    , line \" + line);\n\
    }\n\
    \n\
    // Of each variable the events that set it, and what each gave it.\n\
    function readVars(names, initial, events) {\n\
    \x20 const vars = names.map((name, v) => ({ name, initial: initial[v], at: [], values: [] }));\n\
    \x20 for (let i = 1; i < events.length; i++) {\n\
    \x20   for (let k = 1; k < events[i].length; k += 2) {\n\
    \x20     const variable = vars[events[i][k]];\n\
    \x20     variable.at.push(i);\n\
    \x20     variable.values.push(events[i][k + 1]);\n\
    \x20   }\n\
    \x20 }\n\
    \x20 return vars;\n\
    }\n\
    \n\
    // The messages, one for each receipt, and after them those in flight, which go to process -1. An event that \
    sends has\n\
    // its message's id in its first place. Of an event `messageAt` has a message, or -1, and of a message `next`\
    \x20has the\n\
    // next one of the same send: a send may have several receipts.\n\
    function giveMessages(run, pairs) {\n\
    \x20 const flights = [];\n\
    \x20 run.messageAt = run.counts.map((count) => new Int32Array(count + 1).fill(-1));\n\
    \x20 pairs.forEach(([from, fromEvent, to, toEvent], m) => { run.messageAt[to][toEvent] = m; });\n\
    \x20 const sent = run.counts.map((count) => new Uint8Array(count + 1));\n\
    \x20 for (const [from, fromEvent] of pairs) sent[from][fromEvent] = 1;\n\
    \x20 run.events.forEach((events, p) => {\n\
    \x20   for (let i = 1; i < events.length; i++) {\n\
    \x20     if (typeof events[i][0] === \"string\" && sent[p][i] === 0) flights.push([p, i, -1, 0]);\n\
    \x20   }\n\
    \x20 });\n\
    \x20 const all = pairs.concat(flights);\n\
    \x20 const length = all.length;\n\
    \x20 const messages = { length, from: new Int32Array(length), fromEvent: new Int32Array(length),\n\
    \x20                    to: new Int32Array(length), toEvent: new Int32Array(length), next: new Int32Array(len\
    gth),\n\
    \x20                    ids: new Array(length) };\n\
    \x20 for (let m = length - 1; m >= 0; m--) {\n\
    \x20   const [from, fromEvent, to, toEvent] = all[m];\n\
    \x20   messages.from[m] = from;\n\
    \x20   messages.fromEvent[m] = fromEvent;\n\
    \x20   messages.to[m] = to;\n\
    \x20   messages.toEvent[m] = toEvent;\n\
    \x20   messages.ids[m] = run.events[from][fromEvent][0];\n\
    \x20   messages.next[m] = run.messageAt[from][fromEvent];\n\
    \x20   run.messageAt[from][fromEvent] = m;\n\
    \x20 }\n\
    \x20 run.messages = messages;\n\
    \x20 run.inFlight = flights.length;\n\
    \x20 run.received = sent.reduce((sum, list) => sum + list.reduce((count, is) => count + is, 0), 0);\n\
    }\n\
    \n\
    // The messages that an event sends.\n\
    function sentBy(run, p, i) {\n\
    \x20 const found = [];\n\
    \x20 for (let m = run.messageAt[p][i]; m >= 0 && run.messages.from[m] === p && run.messages.fromEvent[m] === \
    i;\n\
    \x20      m = run.messages.next[m]) found.push(m);\n\
    \x20 return found;\n\
    }\n\
    \n\
    // A causal cycle goes back from each of its receipts to the send of the message, and along that process to t\
    he next\n\
    // receipt; from the last one to the first. Of each receipt its message, the send, and the receipt before tha\
    t.\n\
    function linksOf(run, cycle) {\n\
    \x20 const { from, fromEvent } = run.messages;\n\
    \x20 return cycle.map(([p, i], k) => {\n\
    \x20   const message = run.messageAt[p][i];\n\
    \x20   const [q, j] = cycle[(k + 1) % cycle.length];\n\
    \x20   return { message, receipt: { p, i }, send: { p: from[message], i: fromEvent[message] }, next: { p: q, \
    i: j } };\n\
    \x20 });\n\
    }\n\
    \n\
    // The clock of event i of p has for each process q how many events of q happened before it, itself counted; \
    it stands\n\
    // at clocks[p][i * size + q]. The column is the length of the longest chain that ends in the event. Where a \
    cycle lets\n\
    // no event be next, one is placed without the message that it receives, of those of the cycle the first: tha\
    t message's\n\
    // arrow points back. Clocks mean nothing then, and nobody asks for them.\n\
    function giveClocks(run) {\n\
    \x20 const { size, counts, messages, messageAt } = run;\n\
    \x20 run.clocks = counts.map((count) => new Uint32Array((count + 1) * size));\n\
    \x20 run.columns = counts.map((count) => new Int32Array(count + 1));\n\
    \x20 const done = new Array(size).fill(0);\n\
    \x20 const loose = new Set();\n\
    \x20 let left = run.eventCount;\n\
    \x20 while (left > 0) {\n\
    \x20   const before = left;\n\
    \x20   for (let p = 0; p < size; p++) {\n\
    \x20     const clocks = run.clocks[p];\n\
    \x20     const columns = run.columns[p];\n\
    \x20     while (done[p] < counts[p]) {\n\
    \x20       const i = done[p] + 1;\n\
    \x20       const m = messageAt[p][i];\n\
    \x20       const isReceipt = m >= 0 && messages.to[m] === p && messages.toEvent[m] === i && !loose.has(m);\n\
    \x20       const from = isReceipt ? messages.from[m] : -1;\n\
    \x20       if (from >= 0 && done[from] < messages.fromEvent[m]) break;\n\
    \x20       const base = i * size;\n\
    \x20       clocks.copyWithin(base, base - size, base);\n\
    \x20       let column = columns[i - 1];\n\
    \x20       if (from >= 0) {\n\
    \x20         const sent = messages.fromEvent[m];\n\
    \x20         const other = run.clocks[from];\n\
    \x20         for (let q = 0; q < size; q++) {\n\
    \x20           if (other[sent * size + q] > clocks[base + q]) clocks[base + q] = other[sent * size + q];\n\
    \x20         }\n\
    \x20         if (run.columns[from][sent] > column) column = run.columns[from][sent];\n\
    \x20       }\n\
    \x20       clocks[base + p] = i;\n\
    \x20       columns[i] = column + 1;\n\
    \x20       done[p] = i;\n\
    \x20       left--;\n\
    \x20     }\n\
    \x20   }\n\
    \x20   if (left < before) continue;\n\
    \x20   if (run.cycle === null) throw new Error(\"an event happens before itself\");\n\
    \x20   loose.add(waitingMessage(run, done));\n\
    \x20 }\n\
    \x20 run.lastColumn = Math.max(0, ...counts.map((count, p) => run.columns[p][count]));\n\
    }\n\
    \n\
    // The message that a next event waits for, where each process waits: of those of the cycle the first, if the\
    re is one.\n\
    function waitingMessage(run, done) {\n\
    \x20 const first = run.cycle.find(({ receipt: { p, i } }) => done[p] + 1 === i);\n\
    \x20 if (first !== undefined) return first.message;\n\
    \x20 const p = run.counts.findIndex((count, q) => done[q] < count);\n\
    \x20 return run.messageAt[p][done[p] + 1];\n\
    }\n\
    \n\
    // The messages by the column of their send, in blocks that know how far right they reach.\n\
    const SPAN_BLOCK = 64;\n\
    function giveSpans(run) {\n\
    \x20 const { messages, columns } = run;\n\
    \x20 const keys = new Float64Array(messages.length);\n\
    \x20 for (let m = 0; m < messages.length; m++) {\n\
    \x20   keys[m] = columns[messages.from[m]][messages.fromEvent[m]] * 2 ** 22 + m;\n\
    \x20 }\n\
    \x20 keys.sort();\n\
    \x20 const order = new Int32Array(messages.length);\n\
    \x20 const reach = new Int32Array(Math.ceil(messages.length / SPAN_BLOCK));\n\
    \x20 for (let k = 0; k < keys.length; k++) {\n\
    \x20   const m = keys[k] % 2 ** 22;\n\
    \x20   order[k] = m;\n\
    \x20   const block = Math.floor(k / SPAN_BLOCK);\n\
    \x20   reach[block] = Math.max(reach[block], messageEnd(run, m));\n\
    \x20 }\n\
    \x20 run.spans = { order, reach };\n\
    }\n\
    \n\
    function messageStart(run, m) {\n\
    \x20 return run.columns[run.messages.from[m]][run.messages.fromEvent[m]];\n\
    }\n\
    \n\
    function messageEnd(run, m) {\n\
    \x20 const to = run.messages.to[m];\n\
    \x20 return to < 0 ? messageStart(run, m) + 1 : run.columns[to][run.messages.toEvent[m]];\n\
    }\n\
    \n\
    // The messages of which a part lies between these columns, and which are shown.\n\
    function messagesBetween(run, left, right) {\n\
    \x20 const { order, reach } = run.spans;\n\
    \x20 const found = [];\n\
    \x20 for (let block = 0; block < reach.length; block++) {\n\
    \x20   const first = block * SPAN_BLOCK;\n\
    \x20   if (Math.floor(messageStart(run, order[first])) > right) break;\n\
    \x20   if (reach[block] < left) continue;\n\
    \x20   const end = Math.min(order.length, first + SPAN_BLOCK);\n\
    \x20   for (let k = first; k < end; k++) {\n\
    \x20     const m = order[k];\n\
    \x20     if (run.only !== null && run.only.kept[m] === 0) continue;\n\
    \x20     if (messageStart(run, m) > right) break;\n\
    \x20     if (messageEnd(run, m) >= left) found.push(m);\n\
    \x20   }\n\
    \x20 }\n\
    \x20 return found;\n\
    }\n\
    \n\
    // How many of the first numbers of a rising list, from its place 1 on, are at most x.\n\
    function countUpTo(list, x) {\n\
    \x20 let low = 0;\n\
    \x20 let high = list.length - 1;\n\
    \x20 while (low < high) {\n\
    \x20   const middle = (low + high + 1) >> 1;\n\
    \x20   if (list[middle] <= x) low = middle;\n\
    \x20   else high = middle - 1;\n\
    \x20 }\n\
    \x20 return low;\n\
    }\n\
    \n\
    // ---- cuts ------------------------------------------------------------------------------------------------\
    -------\n\
    \n\
    function clockAt(run, p, i, q) {\n\
    \x20 return run.clocks[p][i * run.size + q];\n\
    }\n\
    \n\
    function levelOf(cut) {\n\
    \x20 return cut.reduce((sum, count) => sum + count, 0);\n\
    }\n\
    \n\
    function isCut(run, cut) {\n\
    \x20 return cut.length === run.size &&\n\
    \x20   cut.every((count, p) => Number.isInteger(count) && count >= 0 && count <= run.counts[p]);\n\
    }\n\
    \n\
    function isConsistent(run, cut) {\n\
    \x20 return cut.every((count, p) => cut.every((other, q) => clockAt(run, p, count, q) <= other));\n\
    }\n\
    \n\
    // The least consistent cut that holds this one, which is consistent, and event i of p.\n\
    function including(run, cut, p, i) {\n\
    \x20 return cut.map((count, q) => Math.max(count, clockAt(run, p, i, q)));\n\
    }\n\
    \n\
    // The greatest consistent cut inside this one, which is consistent, without event i of p.\n\
    function excluding(run, cut, p, i) {\n\
    \x20 return cut.map((count, q) => Math.min(count, firstFrom(run, p, i, q) - 1));\n\
    }\n\
    \n\
    // The least event of q that event i of p is, or happened before; one more than its last, if there is none.\n\
    function firstFrom(run, p, i, q) {\n\
    \x20 let low = 1;\n\
    \x20 let high = run.counts[q] + 1;\n\
    \x20 while (low < high) {\n\
    \x20   const middle = (low + high) >> 1;\n\
    \x20   if (clockAt(run, q, middle, p) >= i) high = middle;\n\
    \x20   else low = middle + 1;\n\
    \x20 }\n\
    \x20 return low;\n\
    }\n\
    \n\
    // The cut moved to `count` events of p: forward it takes in what happened before, backward it leaves out wha\
    t depends.\n\
    // `forced` are the messages that made other processes move, one for each of them.\n\
    function moveTo(run, cut, p, count) {\n\
    \x20 const target = Math.max(0, Math.min(run.counts[p], count));\n\
    \x20 if (target === cut[p]) return { cut: cut.slice(), forced: [], direction: 0 };\n\
    \x20 const forward = target > cut[p];\n\
    \x20 const next = forward ? including(run, cut, p, target) : excluding(run, cut, p, target + 1);\n\
    \x20 return { cut: next, forced: forcing(run, cut, next, p), direction: forward ? 1 : -1 };\n\
    }\n\
    \n\
    function forcing(run, before, after, p) {\n\
    \x20 const forced = [];\n\
    \x20 const { to, toEvent } = run.messages;\n\
    \x20 for (let q = 0; q < run.size; q++) {\n\
    \x20   if (q === p || before[q] === after[q]) continue;\n\
    \x20   // Forward, the last event that was taken in is a send, and a receipt of it was taken in too; backward\
    , the first\n\
    \x20   // that was left out is a receipt.\n\
    \x20   const m = after[q] > before[q]\n\
    \x20     ? sentBy(run, q, after[q]).find((sent) => to[sent] >= 0 && toEvent[sent] > before[to[sent]] &&\n\
    \x20                                               toEvent[sent] <= after[to[sent]]) ?? -1\n\
    \x20     : run.messageAt[q][after[q] + 1];\n\
    \x20   if (m >= 0) forced.push(m);\n\
    \x20 }\n\
    \x20 return forced;\n\
    }\n\
    \n\
    // Is event i of p before event j of q, or the same?\n\
    function isUpTo(run, p, i, q, j) {\n\
    \x20 return clockAt(run, q, j, p) >= i;\n\
    }\n\
    \n\
    // What lies before an event, after it and beside it: for each process how far its past and from where its fu\
    ture goes.\n\
    function coneOf(run, p, i) {\n\
    \x20 const past = run.names.map((_, q) => clockAt(run, p, i, q) - (q === p ? 1 : 0));\n\
    \x20 const future = run.names.map((_, q) => firstFrom(run, p, i, q) + (q === p ? 1 : 0));\n\
    \x20 const before = levelOf(past);\n\
    \x20 const after = future.reduce((sum, first, q) => sum + run.counts[q] - first + 1, 0);\n\
    \x20 return { p, i, past, future, before, after, beside: run.eventCount - 1 - before - after };\n\
    }\n\
    \n\
    // ---- values ----------------------------------------------------------------------------------------------\
    -------\n\
    \n\
    // The event that gave variable v of p its value after `count` events of p, or 0 if it has the initial one.\n\
    function settingEvent(run, p, v, count) {\n\
    \x20 const { at } = run.vars[p][v];\n\
    \x20 const k = lastUpTo(at, count);\n\
    \x20 return k < 0 ? 0 : at[k];\n\
    }\n\
    \n\
    function valueAt(run, p, v, count) {\n\
    \x20 const { at, values, initial } = run.vars[p][v];\n\
    \x20 const k = lastUpTo(at, count);\n\
    \x20 return k < 0 ? initial : values[k];\n\
    }\n\
    \n\
    // The last place of a rising list with a number of at most x, or -1.\n\
    function lastUpTo(list, x) {\n\
    \x20 let low = -1;\n\
    \x20 let high = list.length - 1;\n\
    \x20 while (low < high) {\n\
    \x20   const middle = (low + high + 1) >> 1;\n\
    \x20   if (list[middle] <= x) low = middle;\n\
    \x20   else high = middle - 1;\n\
    \x20 }\n\
    \x20 return low;\n\
    }\n\
    \n\
    function reader(run, cut) {\n\
    \x20 return (p, v) => BigInt(valueAt(run, p, v, cut[p]));\n\
    }\n\
    \n\
    // ---- predicates ------------------------------------------------------------------------------------------\
    -------\n\
    \n\
    const RELATIONS = { equals: \"==\", differs: \"!=\", less: \"<\", \"at most\": \"<=\", greater: \">\", \"at l\
    east\": \">=\" };\n\
    \n\
    // A predicate's tree, with its text: lists that begin with a word. A text has no more parentheses than it ne\
    eds.\n\
    function readPredicate(tree, names, vars) {\n\
    \x20 const [word, left, right] = tree;\n\
    \x20 if (word === \"true\" || word === \"false\") return { kind: \"constant\", value: word === \"true\", text\
    : word };\n\
    \x20 if (word === \"not\") {\n\
    \x20   const part = readPredicate(left, names, vars);\n\
    \x20   return { kind: \"not\", part, text: \"not \" + within(part, [\"constant\", \"compare\", \"not\"]) };\n\
    \x20 }\n\
    \x20 if (word !== \"and\" && word !== \"or\") {\n\
    \x20   const read = (sum) => sum.map(readTerm);\n\
    \x20   const node = { kind: \"compare\", left: read(left), relation: RELATIONS[word], right: read(right) };\n\
    \x20   node.text = termsText(node.left, names, vars) + \" \" + node.relation + \" \" + termsText(node.right, \
    names, vars);\n\
    \x20   return node;\n\
    \x20 }\n\
    \x20 const parts = [];\n\
    \x20 let rest = tree;\n\
    \x20 for (; rest[0] === word; rest = rest[1]) parts.push(rest[2]);\n\
    \x20 parts.push(rest);\n\
    \x20 const nodes = parts.reverse().map((part) => readPredicate(part, names, vars));\n\
    \x20 const bare = [\"constant\", \"compare\", \"not\"].concat(word === \"or\" ? [\"and\"] : []);\n\
    \x20 return { kind: word, parts: nodes, text: nodes.map((node) => within(node, bare)).join(\" \" + word + \" \
    \") };\n\
    }\n\
    \n\
    function within(node, bare) {\n\
    \x20 return bare.includes(node.kind) ? node.text : \"(\" + node.text + \")\";\n\
    }\n\
    \n\
    // After its sign a term has a number, or the process and the variable, or a number and these.\n\
    function readTerm([sign, ...fields]) {\n\
    \x20 const factor = typeof fields[0] === \"string\" ? BigInt(fields.shift()) : null;\n\
    \x20 return { sign: sign === \"+\" ? 1n : -1n, factor, ref: fields.length === 0 ? null : fields };\n\
    }\n\
    \n\
    function termsText(terms, names, vars) {\n\
    \x20 return terms.map(({ sign, factor, ref }, k) => {\n\
    \x20   const name = ref === null ? null : names[ref[0]] + \".\" + vars[ref[0]][ref[1]].name;\n\
    \x20   const text = [factor, name].filter((part) => part !== null).join(\" * \");\n\
    \x20   return (k === 0 ? (sign < 0n ? \"-\" : \"\") : sign < 0n ? \" - \" : \" + \") + text;\n\
    \x20 }).join(\"\");\n\
    }\n\
    \n\
    // The variables that a predicate names, each once.\n\
    function refsOf(node) {\n\
    \x20 const refs = new Map();\n\
    \x20 const visit = (each) => {\n\
    \x20   for (const part of each.parts ?? (each.part === undefined ? [] : [each.part])) visit(part);\n\
    \x20   for (const { ref } of [...(each.left ?? []), ...(each.right ?? [])]) {\n\
    \x20     if (ref !== null) refs.set(ref.join(), ref);\n\
    \x20   }\n\
    \x20 };\n\
    \x20 visit(node);\n\
    \x20 return [...refs.values()];\n\
    }\n\
    \n\
    // The processes that a predicate names.\n\
    function processesOf(refs) {\n\
    \x20 return new Set(refs.map(([p]) => p));\n\
    }\n\
    \n\
    function sumOf(terms, read) {\n\
    \x20 let sum = 0n;\n\
    \x20 for (const { sign, factor, ref } of terms) {\n\
    \x20   sum += sign * (factor ?? 1n) * (ref === null ? 1n : read(...ref));\n\
    \x20 }\n\
    \x20 return sum;\n\
    }\n\
    \n\
    function compare(left, relation, right) {\n\
    \x20 switch (relation) {\n\
    \x20   case \"==\": return left === right;\n\
    \x20   case \"!=\": return left !== right;\n\
    \x20   case \"<\": return left < right;\n\
    \x20   case \"<=\": return left <= right;\n\
    \x20   case \">\": return left > right;\n\
    \x20   default: return left >= right;\n\
    \x20 }\n\
    }\n\
    \n\
    function isTrue(node, read) {\n\
    \x20 switch (node.kind) {\n\
    \x20   case \"constant\": return node.value;\n\
    \x20   case \"compare\": return compare(sumOf(node.left, read), node.relation, sumOf(node.right, read));\n\
    \x20   case \"not\": return !isTrue(node.part, read);\n\
    \x20   case \"and\": return node.parts.every((part) => isTrue(part, read));\n\
    \x20   default: return node.parts.some((part) => isTrue(part, read));\n\
    \x20 }\n\
    }\n\
    \n\
    // The comparisons that decide: of an `and` that fails those that fail, of an `or` that holds those that hold\
    . Each says\n\
    // whether it stands under an odd number of `not`.\n\
    function deciding(node, read, negated = false) {\n\
    \x20 switch (node.kind) {\n\
    \x20   case \"constant\": return [{ text: String(node.value), holds: node.value, negated, why: \"\" }];\n\
    \x20   case \"compare\": return [comparison(node, read, negated)];\n\
    \x20   case \"not\": return deciding(node.part, read, !negated);\n\
    \x20   default: {\n\
    \x20     const truth = isTrue(node, read);\n\
    \x20     return node.parts.filter((part) => isTrue(part, read) === truth).flatMap((part) => deciding(part, re\
    ad, negated));\n\
    \x20   }\n\
    \x20 }\n\
    }\n\
    \n\
    const WORDS = {\n\
    \x20 \"==\": [\"equals\", \"isn't\"], \"!=\": [\"isn't\", \"equals\"], \"<\": [\"is below\", \"isn't below\"]\
    ,\n\
    \x20 \"<=\": [\"is at most\", \"is above\"], \">\": [\"is above\", \"isn't above\"], \">=\": [\"is at least\"\
    , \"is below\"],\n\
    };\n\
    \n\
    function comparison(node, read, negated) {\n\
    \x20 const left = sumOf(node.left, read);\n\
    \x20 const right = sumOf(node.right, read);\n\
    \x20 const holds = compare(left, node.relation, right);\n\
    \x20 const words = WORDS[node.relation][holds ? 0 : 1];\n\
    \x20 return { text: node.text, holds, negated, why: sumText(node.left, left, read) + \" \" + words + \" \" +\n\
    \x20                                                sumText(node.right, right, read) };\n\
    }\n\
    \n\
    function sumText(terms, sum, read) {\n\
    \x20 if (terms.length === 1 && (terms[0].factor === null || terms[0].ref === null)) return String(sum);\n\
    \x20 const text = terms.map(({ sign, factor, ref }, k) => {\n\
    \x20   const value = ref === null ? null : read(...ref);\n\
    \x20   const shown = value === null ? String(factor)\n\
    \x20     : (factor === null ? \"\" : factor + \" \xc3\x97 \") + (value < 0n && (k > 0 || factor !== null || s\
    ign < 0n)\n\
    \x20       ? \"(\" + value + \")\" : value);\n\
    \x20   return (k === 0 ? (sign < 0n ? \"\xe2\x88\x92\" : \"\") : sign < 0n ? \" \xe2\x88\x92 \" : \" + \") + \
    shown;\n\
    \x20 }).join(\"\");\n\
    \x20 return text + \" = \" + sum;\n\
    }\n\
    \n\
    // ---- observations ----------------------------------------------------------------------------------------\
    -------\n\
    \n\
    // An observation is a list of processes. Of each process the steps that add its events; its place 0 is no ev\
    ent's.\n\
    function stepsOf(run, path) {\n\
    \x20 const steps = run.counts.map((count) => new Int32Array(count + 1));\n\
    \x20 const done = new Array(run.size).fill(0);\n\
    \x20 path.forEach((p, k) => { steps[p][++done[p]] = k + 1; });\n\
    \x20 return steps;\n\
    }\n\
    \n\
    function cutAtStep(steps, step) {\n\
    \x20 return steps.map((list) => countUpTo(list, step));\n\
    }\n\
    \n\
    // ---- finding ---------------------------------------------------------------------------------------------\
    -------\n\
    \n\
    // The events that a query asks for, by column and process, each with the words that say why. A note is found\
    \x20by a part\n\
    // of it, unless a value or an event's number is asked for; by a part of its name anything else is found, if \
    nothing has\n\
    // the query as its whole name.\n\
    function find(run, query) {\n\
    \x20 const text = query.trim();\n\
    \x20 if (text === \"\") return [];\n\
    \x20 const hits = new Hits(run);\n\
    \x20 const add = (p, i, why) => hits.add(p, i, why);\n\
    \x20 const isAsked = findAsked(run, text, add);\n\
    \x20 findNamed(run, text, add);\n\
    \x20 const isNamed = hits.size > 0;\n\
    \x20 if (text.length < 2 || (isAsked && isNamed)) return hits.inOrder();\n\
    \x20 const part = text.toLowerCase();\n\
    \x20 run.notes?.find(part, (p, i) => add(p, i, \"by its note\"));\n\
    \x20 if (!isNamed) findParts(run, part, add);\n\
    \x20 return hits.inOrder();\n\
    }\n\
    \n\
    // Events that were found, each with the words that say why it was first. There may be some hundred thousand \
    of them.\n\
    class Hits {\n\
    \x20 constructor(run) {\n\
    \x20   this.run = run;\n\
    \x20   this.why = new Array(run.eventCount).fill(null);\n\
    \x20   this.size = 0;\n\
    \x20 }\n\
    \n\
    \x20 add(p, i, why) {\n\
    \x20   if (i < 1 || i > this.run.counts[p]) return;\n\
    \x20   const at = this.run.places.first[p] + i - 1;\n\
    \x20   if (this.why[at] !== null) return;\n\
    \x20   this.why[at] = why;\n\
    \x20   this.size++;\n\
    \x20 }\n\
    \n\
    \x20 inOrder() {\n\
    \x20   const { first, process, order } = this.run.places;\n\
    \x20   const found = [];\n\
    \x20   for (const at of order) {\n\
    \x20     const why = this.why[at];\n\
    \x20     if (why !== null) found.push({ p: process[at], i: at - first[process[at]] + 1, why });\n\
    \x20   }\n\
    \x20   return found;\n\
    \x20 }\n\
    }\n\
    \n\
    // Of each process the place of its first event among all, of each place the process, and all places by colum\
    n and\n\
    // process.\n\
    function placesOf(run) {\n\
    \x20 const { columns } = run.whole;\n\
    \x20 const first = [];\n\
    \x20 const process = new Uint8Array(run.eventCount);\n\
    \x20 const keys = new Float64Array(run.eventCount);\n\
    \x20 let at = 0;\n\
    \x20 run.counts.forEach((count, p) => {\n\
    \x20   first.push(at);\n\
    \x20   for (let i = 1; i <= count; i++, at++) {\n\
    \x20     process[at] = p;\n\
    \x20     keys[at] = columns[p][i] * 2 ** 24 + at;   // places rise with the process\n\
    \x20   }\n\
    \x20 });\n\
    \x20 return { first, process, order: Uint32Array.from(keys.sort(), (key) => key % 2 ** 24) };\n\
    }\n\
    \n\
    function addEvents(run, p, add) {\n\
    \x20 for (let i = 1; i <= run.counts[p]; i++) add(p, i, \"is an event of \" + run.names[p]);\n\
    }\n\
    \n\
    function addMessage({ messages: { ids, from, fromEvent, to, toEvent } }, m, add) {\n\
    \x20 add(from[m], fromEvent[m], \"sends \" + ids[m]);\n\
    \x20 if (to[m] >= 0) add(to[m], toEvent[m], \"receives \" + ids[m]);\n\
    }\n\
    \n\
    // What is asked for by a value, or by an event's number. Is the query one of these?\n\
    function findAsked(run, text, add) {\n\
    \x20 const asked = (name) => run.names.map((_, p) => p).filter((p) => name === undefined || run.names[p] === \
    name);\n\
    \x20 const value = /^(?:(\\w+)\\s*\\.\\s*)?(\\w+)\\s*(==|=|!=|<=|>=|<|>)\\s*(-?\\d+)$/.exec(text);\n\
    \x20 if (value !== null) {\n\
    \x20   const [, name, wanted, relation, number] = value;\n\
    \x20   const bound = BigInt(number);\n\
    \x20   const exactly = String(bound);\n\
    \x20   const fits = relation === \"=\" || relation === \"==\" ? (each) => each === exactly\n\
    \x20     : (each) => compare(BigInt(each), relation, bound);\n\
    \x20   for (const p of asked(name)) {\n\
    \x20     for (const variable of run.vars[p].filter((each) => each.name === wanted)) {\n\
    \x20       variable.values.forEach((each, k) => {\n\
    \x20         if (fits(each)) add(p, variable.at[k], \"sets \" + wanted + \" to \" + each);\n\
    \x20       });\n\
    \x20     }\n\
    \x20   }\n\
    \x20 }\n\
    \x20 const event = /^(?:(\\w+)\\s*[# ]\\s*|#)?(\\d+)$/.exec(text);\n\
    \x20 if (event !== null) {\n\
    \x20   for (const p of asked(event[1])) add(p, Number(event[2]), \"is event \" + event[2]);\n\
    \x20 }\n\
    \x20 return value !== null || event !== null;\n\
    }\n\
    \n\
    // What is called so: the events of a process, or the ends of a message.\n\
    function findNamed(run, text, add) {\n\
    \x20 const process = run.names.indexOf(text);\n\
    \x20 if (process >= 0) addEvents(run, process, add);\n\
    \x20 const { ids } = run.messages;\n\
    \x20 for (let m = ids.indexOf(text); m >= 0; m = ids.indexOf(text, m + 1)) addMessage(run, m, add);\n\
    }\n\
    \n\
    // What has a text of small letters as a part of its name.\n\
    function findParts(run, part, add) {\n\
    \x20 const has = (name) => name.toLowerCase().includes(part);\n\
    \x20 run.names.forEach((name, p) => { if (has(name)) addEvents(run, p, add); });\n\
    \x20 run.vars.forEach((vars, p) => vars.filter(({ name }) => has(name)).forEach(({ name, at, values }) => {\n\
    \x20   at.forEach((i, k) => add(p, i, \"sets \" + name + \" to \" + values[k]));\n\
    \x20 }));\n\
    \x20 run.messages.ids.forEach((id, m) => { if (has(id)) addMessage(run, m, add); });\n\
    }\n\
    \n\
    // ---- the address -----------------------------------------------------------------------------------------\
    -------\n\
    \n\
    // cut=2,0,2&view=LEFT,SCALE&event=NAME.I&film=NAME.STEP, where LEFT is a column and SCALE the pixels of one;\
    \x20for a view\n\
    // of what matters only=NAME, of a predicate; for lanes that are moved or folded lanes=2,0,1 and folded=0,1.\n\
    function fragmentOf(run, state) {\n\
    \x20 const parts = run.cycle === null ? [\"cut=\" + state.cut.join(\",\")] : [];\n\
    \x20 parts.push(\"view=\" + Number(state.view.left.toFixed(2)) + \",\" + Number(state.view.scale.toPrecision(\
    5)));\n\
    \x20 if (state.selected !== null) parts.push(\"event=\" + run.names[state.selected.p] + \".\" + state.selecte\
    d.i);\n\
    \x20 if (state.film !== null) parts.push(\"film=\" + run.predicates[state.film.k].name + \".\" + state.film.s\
    tep);\n\
    \x20 if (run.only !== null) parts.push(\"only=\" + run.predicates[state.shown].name);\n\
    \x20 if (state.order.some((p, place) => p !== place)) parts.push(\"lanes=\" + state.order.join(\",\"));\n\
    \x20 const folded = state.order.filter((p) => state.folded[p]).sort((p, q) => p - q);\n\
    \x20 if (folded.length > 0) parts.push(\"folded=\" + folded.join(\",\"));\n\
    \x20 return parts.join(\"&\");\n\
    }\n\
    \n\
    function numbersOf(text) {\n\
    \x20 return /^\\d+(,\\d+)*$/.test(text ?? \"\") ? text.split(\",\").map(Number) : [];\n\
    }\n\
    \n\
    // Of a fragment the predicate of a view of what matters, the order of the lanes, and which of them are folde\
    d.\n\
    function readLanes(run, { only, lanes, folded }) {\n\
    \x20 const order = numbersOf(lanes);\n\
    \x20 const isOrder = order.length === run.size && run.names.every((_, p) => order.includes(p));\n\
    \x20 const shut = numbersOf(folded);\n\
    \x20 return { only: run.predicates.findIndex(({ name }) => name === only),\n\
    \x20          order: isOrder ? order : [...run.names.keys()], folded: run.names.map((_, p) => shut.includes(p\
    )) };\n\
    }\n\
    \n\
    // What a fragment says, of it only what this run has.\n\
    function readFragment(run, fragment) {\n\
    \x20 const given = Object.fromEntries(fragment.replace(/^#/, \"\").split(\"&\").map((part) => {\n\
    \x20   const equals = part.indexOf(\"=\");\n\
    \x20   return [part.slice(0, equals), part.slice(equals + 1)];\n\
    \x20 }));\n\
    \x20 const said = { cut: null, view: null, selected: null, film: null, ...readLanes(run, given) };\n\
    \x20 const counts = numbersOf(given.cut);\n\
    \x20 if (run.cycle === null && isCut(run, counts) && isConsistent(run, counts)) said.cut = counts;\n\
    \x20 const [left, scale] = (given.view ?? \"\").split(\",\").map(Number);\n\
    \x20 if (Number.isFinite(left) && scale > 0 && scale < 1e4) said.view = { left, scale };\n\
    \x20 const [, process, number] = /^(\\w+)\\.(\\d+)$/.exec(given.event ?? \"\") ?? [];\n\
    \x20 const p = run.names.indexOf(process);\n\
    \x20 if (p >= 0 && Number(number) >= 1 && Number(number) <= run.counts[p]) said.selected = { p, i: Number(num\
    ber) };\n\
    \x20 const [, name, step] = /^(\\w+)\\.(\\d+)$/.exec(given.film ?? \"\") ?? [];\n\
    \x20 const k = run.predicates.findIndex((each) => each.name === name && each.definitely[0] === \"no\");\n\
    \x20 if (k >= 0 && Number(step) <= run.eventCount) said.film = { k, step: Number(step) };\n\
    \x20 return said;\n\
    }\n\
    \n\
    if (typeof module === \"object\") {\n\
    \x20 module.exports = { readRun, messagesBetween, countUpTo, clockAt, levelOf, isCut, isConsistent, including\
    , excluding,\n\
    \x20                    firstFrom, moveTo, forcing, isUpTo, coneOf, settingEvent, valueAt, reader, readPredic\
    ate, isTrue,\n\
    \x20                    deciding, stepsOf, cutAtStep, find, fragmentOf, readFragment, sentBy, lineOf, sourceO\
    f,\n\
    \x20                    processesOf, RELATIONS };\n\
    }\n\
    </script>\n\
    ";
