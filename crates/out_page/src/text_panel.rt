//! The page's text after its data: the one with `page/panel.js`. `.ci/explore_page.py --write` writes it.

/// The page's text after its data: the one with `page/panel.js`.
pub(crate) const PANEL: &[u8] = b"\
    <script>\n\
    \"use strict\";\n\
    // The words beside the drawing: predicates with their evidence, values, the selected event, the events as a \
    table. Each\n\
    // text is set as text, never as mark-up.\n\
    \n\
    const LISTING_ROWS = 12;\n\
    const REASONS_SHOWN = 6;\n\
    const NOTES_SHOWN = 100;   // of an event\n\
    \n\
    function element(tag, attributes, ...children) {\n\
    \x20 const made = document.createElement(tag);\n\
    \x20 for (const [name, value] of Object.entries(attributes ?? {})) {\n\
    \x20   if (name === \"click\") made.addEventListener(\"click\", value);\n\
    \x20   else if (value !== null) made.setAttribute(name, value);\n\
    \x20 }\n\
    \x20 made.append(...children.filter((child) => child !== null));\n\
    \x20 return made;\n\
    }\n\
    \n\
    function byId(id) {\n\
    \x20 return document.getElementById(id);\n\
    }\n\
    \n\
    // Makes what stands in a node anew, unless it was made for the same key.\n\
    const madeFor = new WeakMap();\n\
    function renew(node, key, make) {\n\
    \x20 if (madeFor.get(node) === key) return;\n\
    \x20 madeFor.set(node, key);\n\
    \x20 node.replaceChildren(...make());\n\
    }\n\
    \n\
    function counted(number, one, many) {\n\
    \x20 return number.toLocaleString(\"en\") + \" \" + (number === 1 ? one : many ?? one + \"s\");\n\
    }\n\
    \n\
    function placeText(run, p, i) {\n\
    \x20 return run.names[p] + \"#\" + i;\n\
    }\n\
    \n\
    // A cut's counts, which may be broken after a comma.\n\
    function cutNodes(cut) {\n\
    \x20 return cut.flatMap((count, p) => (p + 1 < cut.length ? [count + \",\", element(\"wbr\")] : [String(count\
    )]));\n\
    }\n\
    \n\
    // ---- predicates ------------------------------------------------------------------------------------------\
    -------\n\
    \n\
    // The class of what came of wishes; its sign is the style's.\n\
    function classOf(came) {\n\
    \x20 return { [AS_WISHED]: \"granted\", [NOT_AS_WISHED]: \"broken\", unknown: \"unsure\" }[came];\n\
    }\n\
    \n\
    // What a card leads with: what came of its wishes, and without one what is so of the whole run.\n\
    function verdictNode(predicate, wishes) {\n\
    \x20 const came = cameOfAll(wishes);\n\
    \x20 if (came !== \"\") return element(\"span\", { class: \"verdict \" + classOf(came) }, came);\n\
    \x20 const verdict = verdictOf(predicate);\n\
    \x20 return element(\"span\", { class: \"verdict \" + verdict.split(\" \")[0] }, verdict);\n\
    }\n\
    \n\
    // A card says after its verdict and its evidence what is so at the cut shown.\n\
    function makePredicates(run, actions) {\n\
    \x20 return run.predicates.map((predicate, k) => {\n\
    \x20   const badge = element(\"span\", { class: \"badge\" });\n\
    \x20   const why = element(\"ul\", { class: \"why\" });\n\
    \x20   const wishes = run.wishes.filter((wish) => wish.k === k);\n\
    \x20   const answers = element(\"dl\", { class: \"answers\" },\n\
    \x20     element(\"dt\", {}, \"Possibly\"), possiblyOf(run, predicate, k, actions),\n\
    \x20     element(\"dt\", {}, \"Definitely\"), definitelyOf(run, predicate, k, actions));\n\
    \x20   const name = element(\"button\", { type: \"button\", class: \"plain\", title: \"write its variables be\
    side the cut\",\n\
    \x20                                    click: () => actions.show(k) }, predicate.name);\n\
    \x20   const open = predicate.possibly[0] === \"unknown\" || predicate.definitely[0] === \"unknown\";\n\
    \x20   const card = element(\"article\", { class: \"predicate\" },\n\
    \x20     element(\"h3\", {}, name, verdictNode(predicate, wishes)),\n\
    \x20     ...wishes.map((wish) => element(\"p\", { class: \"wish\" }, wishText(predicate, wish))),\n\
    \x20     element(\"code\", {}, predicate.text), answers,\n\
    \x20     open ? element(\"p\", { class: \"hint\" }, whatToDo(run)) : null,\n\
    \x20     element(\"p\", { class: \"at\" }, \"At the cut shown: \", badge), why);\n\
    \x20   byId(\"predicates\").append(card);\n\
    \x20   return { card, badge, why, name };\n\
    \x20 });\n\
    }\n\
    \n\
    function given(word, words, button = null) {\n\
    \x20 return element(\"dd\", { class: \"given\" }, element(\"span\", {}, element(\"strong\", {}, word), ...[wo\
    rds].flat()), button);\n\
    }\n\
    \n\
    function possiblyOf(run, { possibly: [word, evidence] }, k, actions) {\n\
    \x20 if (word === \"yes\") {\n\
    \x20   return given(word, [\", at \", ...cutNodes(evidence)],\n\
    \x20     element(\"button\", { type: \"button\", click: () => actions.showCut(k) }, \"Show the cut\"));\n\
    \x20 }\n\
    \x20 if (word === \"no\") return given(word, \": no consistent cut satisfies it\");\n\
    \x20 return given(word, \": no cut below level \" + evidence + \" satisfies it, and that level has more cuts \
    than the \" +\n\
    \x20   \"width, \" + run.width);\n\
    }\n\
    \n\
    function definitelyOf(run, { definitely: [word, evidence] }, k, actions) {\n\
    \x20 if (word === \"no\") {\n\
    \x20   return given(word, [],\n\
    \x20     element(\"button\", { type: \"button\", title: \"play an observation that avoids it\",\n\
    \x20                         click: () => actions.playFilm(k) }, \"Play the counterexample\"));\n\
    \x20 }\n\
    \x20 if (word === \"yes\" && Number(evidence) === 0) return given(word, \", before the first event of every o\
    bservation\");\n\
    \x20 if (word === \"yes\") {\n\
    \x20   return given(word, \", by level \" + evidence + \": in whichever order the events were observed, it wa\
    s true at \" +\n\
    \x20     \"some cut of at most \" + evidence + (evidence === 1 ? \" event\" : \" events\"));\n\
    \x20 }\n\
    \x20 return given(word, \": level \" + evidence + \" has more cuts that avoid it than the width, \" + run.wid\
    th);\n\
    }\n\
    \n\
    function whatToDo(run) {\n\
    \x20 return \"Unknown isn't no. To decide it: \" + (run.beyondWidth ? \"\"\n\
    \x20   : \"the option --beyond-width, which decides most predicates whatever the width; \") +\n\
    \x20   (run.width < 65536 ? \"the option --width with a greater width, up to 65536; \" : \"\") +\n\
    \x20   \"a recording with fewer events between the messages.\";\n\
    }\n\
    \n\
    function updatePredicates(run, state, cards) {\n\
    \x20 const read = reader(run, state.cut);\n\
    \x20 cards.forEach(({ card, badge, why, name }, k) => {\n\
    \x20   const { node } = run.predicates[k];\n\
    \x20   const truth = isTrue(node, read);\n\
    \x20   badge.textContent = String(truth);\n\
    \x20   badge.className = \"badge \" + truth;\n\
    \x20   card.classList.toggle(\"shown\", k === state.shown);\n\
    \x20   name.setAttribute(\"aria-pressed\", String(k === state.shown));\n\
    \x20   updateReasons(why, node, read);\n\
    \x20 });\n\
    }\n\
    \n\
    // Which comparisons decide a predicate.\n\
    function updateReasons(why, node, read) {\n\
    \x20 const reasons = deciding(node, read).filter((reason) => reason.why !== \"\");\n\
    \x20 renew(why, reasons.map((reason) => reason.text + reason.why).join(), () => [\n\
    \x20   ...reasons.slice(0, REASONS_SHOWN).map(({ text, holds, negated, why: words }) =>\n\
    \x20     element(\"li\", { class: holds ? \"holds\" : \"fails\" }, element(\"code\", {}, text), (holds ? \" h\
    olds\" : \" fails\") +\n\
    \x20       (negated ? \", under not: \" : \": \") + words)),\n\
    \x20   ...(reasons.length <= REASONS_SHOWN ? []\n\
    \x20     : [element(\"li\", {}, \"and \" + counted(reasons.length - REASONS_SHOWN, \"comparison\") + \" more\"\
    )]),\n\
    \x20 ]);\n\
    }\n\
    \n\
    // The predicate that was typed, at the cut shown: nothing is said of the whole run.\n\
    function updateTyped(run, state) {\n\
    \x20 const { typed } = state;\n\
    \x20 byId(\"typed-at\").hidden = typed === null;\n\
    \x20 byId(\"typed-why\").hidden = typed === null || typed.node === null;\n\
    \x20 if (typed === null) return;\n\
    \x20 const badge = byId(\"typed-badge\");\n\
    \x20 badge.hidden = typed.node === null;\n\
    \x20 badge.textContent = \"\";\n\
    \x20 byId(\"typed-words\").textContent = typed.node === null ? typed.wrong : \"At the cut shown: \";\n\
    \x20 if (typed.node === null) return;\n\
    \x20 const read = reader(run, state.cut);\n\
    \x20 const truth = isTrue(typed.node, read);\n\
    \x20 badge.textContent = String(truth);\n\
    \x20 badge.className = \"badge \" + truth;\n\
    \x20 updateReasons(byId(\"typed-why\"), typed.node, read);\n\
    }\n\
    \n\
    // The predicates whose truth differs between two cuts, in words.\n\
    function turned(run, before, after) {\n\
    \x20 if (String(before) === String(after)) return [];\n\
    \x20 return run.predicates.flatMap(({ name, node }) => {\n\
    \x20   const truth = isTrue(node, reader(run, after));\n\
    \x20   return truth === isTrue(node, reader(run, before)) ? [] : [name + \" is \" + truth + \" now.\"];\n\
    \x20 });\n\
    }\n\
    \n\
    // The run, the cut and the values at it as lines of text, to be pasted into a report of a bug; of each proce\
    ss also the\n\
    // note of its last event in the cut.\n\
    function asText(run, cut) {\n\
    \x20 const noted = (p) => (cut[p] === 0 ? \"\" : noteWords(run, p, cut[p]));\n\
    \x20 const values = run.names.map((name, p) => name + \" after \" + cut[p] + \" of \" + counted(run.counts[p]\
    , \"event\") +\n\
    \x20   run.vars[p].map(({ name: variable }, v) => \", \" + variable + \" = \" + valueAt(run, p, v, cut[p])).j\
    oin(\"\") +\n\
    \x20   (noted(p) === \"\" ? \"\" : \", \" + noted(p)));\n\
    \x20 const answers = run.predicates.map((each, k) => each.name + \" \" + verdictOf(each) +\n\
    \x20   run.wishes.filter((wish) => wish.k === k).map(({ kind, came }) => \" (wished \" + kind + \": \" + came\
    \x20+ \")\").join(\"\") +\n\
    \x20   \", and is \" + isTrue(each.node, reader(run, cut)) + \" at this cut: \" + each.text);\n\
    \x20 return [sessionName(run) + \": \" + verdictText(run) + \".\", ...answers, \"The cut \" + cut.join(\",\")\
    \x20+ \":\", ...values, \"\"]\n\
    \x20   .join(\"\\n\");\n\
    }\n\
    \n\
    // Which predicates are true at a cut, in words.\n\
    function truthText(run, cut) {\n\
    \x20 const names = run.predicates.filter(({ node }) => isTrue(node, reader(run, cut))).map(({ name }) => name\
    );\n\
    \x20 return names.length === 0 ? \"No predicate is true at this cut.\"\n\
    \x20   : names.join(\", \") + (names.length === 1 ? \" is\" : \" are\") + \" true at this cut.\";\n\
    }\n\
    \n\
    // ---- a causal cycle --------------------------------------------------------------------------------------\
    -------\n\
    \n\
    // Why the session is refused: each receipt of the cycle, and what is before it.\n\
    function makeCycle(run, actions) {\n\
    \x20 const at = ({ p, i }) => element(\"button\", { type: \"button\", class: \"plain\", click: () => actions.\
    select(p, i) },\n\
    \x20   placeText(run, p, i));\n\
    \x20 const steps = run.cycle.map(({ message, receipt, send, next }) => element(\"li\", {}, at(receipt), \" re\
    ceives \",\n\
    \x20   element(\"code\", {}, plainText(run.messages.ids[message])), \" from \", at(send),\n\
    \x20   ...(send.i === next.i ? [\"\"] : [\", which comes after \", at(next)])));\n\
    \x20 byId(\"cycle\").append(element(\"p\", {}, \"The session is refused: its events make a causal cycle. Goin\
    g back from \" +\n\
    \x20   \"each receipt to the send, and along that process to the receipt before it, one comes to the first re\
    ceipt again:\"),\n\
    \x20   element(\"ol\", {}, ...steps), element(\"p\", {}, \"So each of these events would have happened before\
    \x20itself. No \" +\n\
    \x20   \"run is so: the recording has events in a wrong order, or gives a message a wrong id. There is no cut\
    \x20to move, \" +\n\
    \x20   \"and no predicate is answered.\"));\n\
    }\n\
    \n\
    // ---- values ----------------------------------------------------------------------------------------------\
    -------\n\
    \n\
    // A grid: of each process its variables, as many side by side as there is room for.\n\
    function makeValues(run, actions) {\n\
    \x20 return run.names.map((name, p) => {\n\
    \x20   const count = element(\"span\", { class: \"count\" });\n\
    \x20   const list = element(\"dl\", { class: \"cells\" });\n\
    \x20   const wide = [\"of-one\", \"of-one\", \"of-two\"][run.vars[p].length] ?? \"\";\n\
    \x20   const title = element(\"h3\", {}, element(\"span\", {}, name), count);\n\
    \x20   const body = element(\"section\", { class: \"process \" + wide }, title, list);\n\
    \x20   const cells = run.vars[p].map((variable, v) => {\n\
    \x20     const value = element(\"span\", { class: \"value\" });\n\
    \x20     const by = element(\"span\", { class: \"by\" });\n\
    \x20     const cell = element(\"div\", { class: \"cell\" }, element(\"dt\", {}, variable.name), element(\"dd\"\
    , {}, value, by));\n\
    \x20     return { p, v, cell, value, by };\n\
    \x20   });\n\
    \x20   list.append(...cells.map(({ cell }) => cell));\n\
    \x20   byId(\"values\").append(body);\n\
    \x20   return { p, body, count, list, cells, order: \"\", select: (i) => actions.select(p, i) };\n\
    \x20 });\n\
    }\n\
    \n\
    // Puts the children of a node in this order, if they have another one, and keeps the focus.\n\
    function reorder(node, children) {\n\
    \x20 if (children.every((child, k) => node.children[k] === child)) return;\n\
    \x20 const focused = document.activeElement;\n\
    \x20 node.append(...children);\n\
    \x20 if (node.contains(focused)) focused.focus();\n\
    }\n\
    \n\
    // What is named comes first, then what changed, and then the rest.\n\
    function byRank(list, rank) {\n\
    \x20 return list.map((each) => [rank(each), each]).sort(([a], [b]) => a - b).map(([, each]) => each);\n\
    }\n\
    \n\
    function updateValues(run, state, rows) {\n\
    \x20 const refs = state.shown < 0 || run.cycle !== null ? [] : run.predicates[state.shown].refs;\n\
    \x20 const isNamed = (p, v) => refs.some((ref) => ref[0] === p && ref[1] === v);\n\
    \x20 const isChanged = (p, v) => valueAt(run, p, v, state.cut[p]) !== valueAt(run, p, v, state.before[p]);\n\
    \x20 const rank = ({ p, v }) => (isNamed(p, v) ? 0 : isChanged(p, v) ? 1 : 2);\n\
    \x20 const ranks = rows.map(({ cells }) => Math.min(2, ...cells.map(rank)));\n\
    \x20 for (const row of rows) {\n\
    \x20   row.count.textContent = state.cut[row.p] + \" of \" + run.counts[row.p];\n\
    \x20   for (const each of row.cells) {\n\
    \x20     each.cell.classList.toggle(\"named\", isNamed(each.p, each.v));\n\
    \x20     updateValue(run, state, each, row.select);\n\
    \x20   }\n\
    \x20   reorder(row.list, byRank(row.cells, rank).map(({ cell }) => cell));\n\
    \x20 }\n\
    \x20 reorder(byId(\"values\"), byRank(rows, ({ p }) => ranks[p]).map(({ body }) => body));\n\
    }\n\
    \n\
    function updateValue(run, state, { p, v, cell, value, by }, select) {\n\
    \x20 const events = state.cut[p];\n\
    \x20 const now = valueAt(run, p, v, events);\n\
    \x20 const before = valueAt(run, p, v, state.before[p]);\n\
    \x20 const setter = settingEvent(run, p, v, events);\n\
    \x20 const fresh = setter === events && events > 0;\n\
    \x20 renew(value, now + \" \" + before,\n\
    \x20   () => [now, ...(now === before ? [] : [element(\"span\", { class: \"was\" }, \" was \" + before)])]);\n\
    \x20 cell.classList.toggle(\"changed\", now !== before);\n\
    \x20 cell.classList.toggle(\"fresh\", fresh);\n\
    \x20 renew(by, setter + \" \" + fresh, () => (setter === 0 ? [\"initial\"]\n\
    \x20   : [element(\"button\", { type: \"button\", class: \"plain\", \"aria-label\": \"select event \" + place\
    Text(run, p, setter),\n\
    \x20                          click: () => select(setter) }, \"#\" + setter),\n\
    \x20      fresh ? element(\"span\", { class: \"last\", title: \"the last event of this process in the cut set\
    \x20it\" }, \" last\")\n\
    \x20        : null].filter((each) => each !== null)));\n\
    }\n\
    \n\
    // ---- an event --------------------------------------------------------------------------------------------\
    -------\n\
    \n\
    function setsOf(run, p, i) {\n\
    \x20 const event = run.events[p][i];\n\
    \x20 const sets = [];\n\
    \x20 for (let k = 1; k < event.length; k += 2) {\n\
    \x20   sets.push({ name: run.vars[p][event[k]].name, value: event[k + 1], before: valueAt(run, p, event[k], i\
    \x20- 1) });\n\
    \x20 }\n\
    \x20 return sets;\n\
    }\n\
    \n\
    // The message of an event in words, with its other ends: of a receipt one, of a send those that receive it.\n\
    function messageOf(run, p, i) {\n\
    \x20 const m = run.messageAt[p][i];\n\
    \x20 if (m < 0) return null;\n\
    \x20 const { from, fromEvent, to, toEvent, ids } = run.messages;\n\
    \x20 if (from[m] !== p || fromEvent[m] !== i) {\n\
    \x20   return { verb: \"receives\", id: ids[m], ends: [{ p: from[m], i: fromEvent[m] }], words: \"sent by\" }\
    ;\n\
    \x20 }\n\
    \x20 const ends = sentBy(run, p, i).filter((sent) => to[sent] >= 0).map((sent) => ({ p: to[sent], i: toEvent[\
    sent] }));\n\
    \x20 return { verb: \"sends\", id: ids[m], ends,\n\
    \x20          words: ends.length === 0 ? \"which nothing receives: it is in flight\" : \"received by\" };\n\
    }\n\
    \n\
    function eventText(run, p, i) {\n\
    \x20 const parts = [placeText(run, p, i)];\n\
    \x20 for (const { name, value, before } of setsOf(run, p, i)) {\n\
    \x20   parts.push(name + \" = \" + value + (before === value ? \"\" : \" (was \" + before + \")\"));\n\
    \x20 }\n\
    \x20 const message = messageOf(run, p, i);\n\
    \x20 if (message !== null) {\n\
    \x20   parts.push(message.verb + \" \" + message.id + (message.ends.length === 0 ? \", in flight\"\n\
    \x20     : \", \" + message.words + \" \" + message.ends.map((end) => placeText(run, end.p, end.i)).join(\", \
    \")));\n\
    \x20 }\n\
    \x20 const noted = noteWords(run, p, i);\n\
    \x20 return parts.map(plainText).concat(noted === \"\" ? [] : [noted]).join(\"; \");\n\
    }\n\
    \n\
    // A note's text, or a part of it, as letters whose direction stays their own.\n\
    function noteNode(text) {\n\
    \x20 const plain = plainText(text);\n\
    \x20 return element(\"bdi\", { class: \"note\", dir: plain === text ? \"auto\" : \"ltr\" }, plain);   // esca\
    pes read from the left\n\
    }\n\
    \n\
    // A note's place, as a link if the page has a pattern for links that it fits.\n\
    function placeNode(run, place) {\n\
    \x20 const address = linkOf(run.link, place);\n\
    \x20 if (address === null) return noteNode(place);\n\
    \x20 const isWeb = /^https?:/i.test(address);\n\
    \x20 return element(\"a\", { href: address, rel: \"noopener noreferrer\", target: isWeb ? \"_blank\" : null }\
    , noteNode(place));\n\
    }\n\
    \n\
    // What the notes of an event say, as rows of the list beside the drawing. Of several each has its number.\n\
    function addNotes(run, p, i, add) {\n\
    \x20 const notes = notesAt(run, p, i);\n\
    \x20 const { length } = notes;\n\
    \x20 if (length === 0 && run.notes !== null) add(\"Note\", \"none\");\n\
    \x20 notes.slice(0, NOTES_SHOWN).forEach(({ text, place, clock }, k) => {\n\
    \x20   if (text !== \"\") add(length === 1 ? \"Note\" : \"Note \" + (k + 1) + \" of \" + length, noteNode(tex\
    t));\n\
    \x20   else if (length > 1) add(\"Note \" + (k + 1) + \" of \" + length, \"without a text\");\n\
    \x20   if (place !== \"\") add(\"Recorded by\", placeNode(run, place));\n\
    \x20   if (clock !== null) add(\"By the clock\", clockText(clock));\n\
    \x20 });\n\
    \x20 if (length > NOTES_SHOWN) add(\"Not shown\", moreNotes(length - NOTES_SHOWN));\n\
    }\n\
    \n\
    // The texts of an event's notes one below the other, each cut at its end if it is long.\n\
    function noteLines(run, p, i) {\n\
    \x20 const texts = notesAt(run, p, i).filter(({ text }) => text !== \"\").map(({ text }) => excerpt(text, NOT\
    E_EXCERPT));\n\
    \x20 const lines = texts.slice(0, NOTES_SHOWN).map(noteNode);\n\
    \x20 if (texts.length > NOTES_SHOWN) lines.push(\"and \" + moreNotes(texts.length - NOTES_SHOWN));\n\
    \x20 return lines.map((line) => element(\"div\", {}, line));\n\
    }\n\
    \n\
    function updateEvent(run, state, actions) {\n\
    \x20 const body = byId(\"event-body\");\n\
    \x20 const focused = body.contains(document.activeElement);\n\
    \x20 if (state.selected === null) {\n\
    \x20   byId(\"event-title\").textContent = \"Event\";\n\
    \x20   body.replaceChildren(element(\"p\", { class: \"hint\" },\n\
    \x20     run.cycle !== null ? \"Click an event, or use the keys \xe2\x80\x9c,\xe2\x80\x9d and \xe2\x80\x9c.\xe2\
    \x80\x9d, to select one.\"\n\
    \x20       : \"Click an event, and the cut moves there. With Shift, or by the keys \xe2\x80\x9c,\xe2\x80\x9d \
    and \xe2\x80\x9c.\xe2\x80\x9d, it is only selected.\"));\n\
    \x20   return;\n\
    \x20 }\n\
    \x20 const { p, i } = state.selected;\n\
    \x20 byId(\"event-title\").textContent = \"Event \" + placeText(run, p, i);\n\
    \x20 const list = element(\"dl\", {});\n\
    \x20 const add = (term, ...words) => list.append(element(\"dt\", {}, term), element(\"dd\", {}, ...words));\n\
    \x20 if (run.cycle === null) add(\"At the cut\", i <= state.cut[p] ? \"it has happened\" : \"it has not happe\
    ned\");\n\
    \x20 addNotes(run, p, i, add);\n\
    \x20 add(\"Recorded in\", plainText(sourceOf(run, p, i)));\n\
    \x20 const sets = setsOf(run, p, i);\n\
    \x20 add(\"Sets\", sets.length === 0 ? \"nothing\"\n\
    \x20   : sets.map(({ name, value, before: old }) => name + \" = \" + value + \" (was \" + old + \")\").join(\"\
    , \"));\n\
    \x20 const message = messageOf(run, p, i);\n\
    \x20 if (message !== null) {\n\
    \x20   add(message.verb === \"sends\" ? \"Sends\" : \"Receives\", element(\"code\", {}, plainText(message.id)\
    ),\n\
    \x20     \", \" + message.words,\n\
    \x20     ...message.ends.flatMap((end) => [\" \", element(\"button\",\n\
    \x20       { type: \"button\", class: \"plain\", click: () => actions.select(end.p, end.i) }, placeText(run, \
    end.p, end.i))]));\n\
    \x20 }\n\
    \x20 const buttons = [[\"Deselect\", () => actions.unselect()]];\n\
    \x20 if (state.cone !== null) {\n\
    \x20   const { before, after, beside } = state.cone;\n\
    \x20   add(\"Around it\", counted(before, \"event\") + \" before it, \" + after.toLocaleString(\"en\") + \" a\
    fter it, \" +\n\
    \x20     beside.toLocaleString(\"en\") + \" concurrent with it\");\n\
    \x20   buttons.unshift([\"Cut after it\", () => actions.cutTo(p, i)], [\"Cut before it\", () => actions.cutTo\
    (p, i - 1)]);\n\
    \x20 }\n\
    \x20 body.replaceChildren(list, element(\"p\", { class: \"actions\" },\n\
    \x20   ...buttons.map(([words, click]) => element(\"button\", { type: \"button\", click }, words))));\n\
    \x20 if (focused) body.querySelector(\"button\").focus();\n\
    }\n\
    \n\
    // ---- the events as a table -------------------------------------------------------------------------------\
    -------\n\
    \n\
    function updateListing(run, state, actions) {\n\
    \x20 const { p } = state.listing;\n\
    \x20 const last = Math.max(1, run.counts[p] - LISTING_ROWS + 1);\n\
    \x20 const first = Math.max(1, Math.min(state.listing.first, last));\n\
    \x20 state.listing.first = first;\n\
    \x20 byId(\"listing-process\").value = String(p);\n\
    \x20 const end = Math.min(run.counts[p], first + LISTING_ROWS - 1);\n\
    \x20 byId(\"listing-range\").textContent = run.counts[p] === 0 ? \"no events\"\n\
    \x20   : first + \" to \" + end + \" of \" + run.counts[p].toLocaleString(\"en\");\n\
    \x20 byId(\"listing-earlier\").disabled = first <= 1;\n\
    \x20 byId(\"listing-later\").disabled = end >= run.counts[p];\n\
    \x20 const row = (i) => {\n\
    \x20   const message = messageOf(run, p, i);\n\
    \x20   return element(\"tr\", { class: (i <= state.cut[p] ? \"in\" : \"out\") + (i === chosen ? \" chosen\" :\
    \x20\"\") },\n\
    \x20     element(\"th\", { scope: \"row\" }, element(\"button\", { type: \"button\", class: \"plain\",\n\
    \x20       click: () => actions.select(p, i), \"aria-label\": \"select event \" + placeText(run, p, i) }, \"#\
    \" + i)),\n\
    \x20     element(\"td\", {}, lineOf(run, p, i)),\n\
    \x20     element(\"td\", {}, setsOf(run, p, i).map(({ name, value }) => name + \" = \" + value).join(\", \"))\
    ,\n\
    \x20     element(\"td\", {}, message === null ? \"\" : message.verb + \" \" + plainText(message.id)),\n\
    \x20     element(\"td\", { class: \"of-notes\" }, ...noteLines(run, p, i)),\n\
    \x20     element(\"td\", { class: \"of-cuts\" }, i <= state.cut[p] ? \"yes\" : \"\"));\n\
    \x20 };\n\
    \x20 const chosen = state.selected !== null && state.selected.p === p ? state.selected.i : 0;\n\
    \x20 const body = byId(\"listing-table\").tBodies[0];\n\
    \x20 const focused = body.contains(document.activeElement);\n\
    \x20 renew(body, [p, first, chosen, Math.max(first - 1, Math.min(end, state.cut[p]))].join(),\n\
    \x20   () => Array.from({ length: end - first + 1 }, (_, k) => row(first + k)));\n\
    \x20 if (focused && chosen >= first && chosen <= end) body.rows[chosen - first].querySelector(\"button\").foc\
    us();\n\
    }\n\
    \n\
    // ---- what a move did -------------------------------------------------------------------------------------\
    -------\n\
    \n\
    function moveText(run, before, after, p, forced) {\n\
    \x20 const where = run.names[p] + \" at \" + after[p] + \" of \" + run.counts[p] + \".\";\n\
    \x20 const { from, fromEvent, to, toEvent, ids } = run.messages;\n\
    \x20 const told = forced.slice(0, 3).map((m) => {\n\
    \x20   const send = placeText(run, from[m], fromEvent[m]);\n\
    \x20   const receipt = placeText(run, to[m], toEvent[m]);\n\
    \x20   const id = plainText(ids[m]);\n\
    \x20   return after[p] > before[p] ? send + \" came with it, for it sends \" + id + \" to \" + receipt\n\
    \x20     : receipt + \" went with it, for it receives \" + id + \" from \" + send;\n\
    \x20 });\n\
    \x20 if (forced.length > 3) told.push(\"and \" + counted(forced.length - 3, \"process\", \"processes\") + \" \
    more moved\");\n\
    \x20 return where + (told.length === 0 ? \"\" : \" \" + told.join(\"; \") + \".\");\n\
    }\n\
    </script>\n\
    ";
