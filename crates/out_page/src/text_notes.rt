//! The page's text after its data: the one with `page/notes.js`. `.ci/explore_page.py --write` writes it.

/// The page's text after its data: the one with `page/notes.js`.
pub(crate) const NOTES: &[u8] = b"\
    <script>\n\
    \"use strict\";\n\
    // Notes: what recorders wrote beside the streams, a line of JSON for each event. Whoever could write to such\
    \x20a file\n\
    // could write any text there, so each is read as it is, shown as text, and counted if it is no note of an ev\
    ent of this\n\
    // run. Nothing here touches the page.\n\
    \n\
    const NOTE_EXCERPT = 160;    // characters of a note in a sentence\n\
    const NAME_EXCERPT = 40;\n\
    const THROWN_LIMIT = 1000;\n\
    \n\
    // An object of JSON in which stand only texts and numbers.\n\
    const JSON_TEXT = '\"(?:[^\"\\\\\\\\\\\\x00-\\\\x1f]|\\\\\\\\(?:[\"\\\\\\\\/bfnrt]|u[0-9a-fA-F]{4}))*\"';\n\
    const JSON_NUMBER = \"-?(?:0|[1-9]\\\\d*)(?:\\\\.\\\\d+)?(?:[eE][-+]?\\\\d+)?\";\n\
    const JSON_FIELD = JSON_TEXT + \"\\\\s*:\\\\s*(?:\" + JSON_TEXT + \"|\" + JSON_NUMBER + \"|null)\\\\s*\";\n\
    const FLAT = new RegExp(\"^\\\\s*\\\\{\\\\s*(?:\" + JSON_FIELD + \"(?:,\\\\s*\" + JSON_FIELD + \")*)?\\\\}\\\\\
    s*$\");\n\
    \n\
    // What of a text shows as no letter: controls, separators of lines, what changes the direction of what is ar\
    ound, and\n\
    // halves of characters.\n\
    const CONTROLS = \"\\\\u0000-\\\\u001f\\\\u007f-\\\\u009f\\\\u00ad\\\\u2028\\\\u2029\";\n\
    const UNSEEN_FORMATS = \"\\\\u061c\\\\u200b\\\\u200e\\\\u200f\\\\u202a-\\\\u202e\\\\u2060-\\\\u206f\\\\ufeff\\\
    \\ufff9-\\\\ufffb\";\n\
    const UNSEEN = new RegExp(\"[\" + CONTROLS + UNSEEN_FORMATS + \"]|\\\\p{Surrogate}\", \"gu\");\n\
    const SHORT_ESCAPES = { \"\\n\": \"\\\\n\", \"\\r\": \"\\\\r\", \"\\t\": \"\\\\t\" };\n\
    \n\
    // A text with escapes, as those of JSON, for what shows as no letter.\n\
    function plainText(text) {\n\
    \x20 return text.replace(UNSEEN, (sign) =>\n\
    \x20   SHORT_ESCAPES[sign] ?? \"\\\\u\" + sign.charCodeAt(0).toString(16).padStart(4, \"0\"));\n\
    }\n\
    \n\
    // The beginning of a text, of at most so many characters.\n\
    function excerpt(text, most) {\n\
    \x20 if (text.length <= most) return text;\n\
    \x20 return text.slice(0, most - 1).replace(/[\\ud800-\\udbff]$/, \"\") + \"\xe2\x80\xa6\";\n\
    }\n\
    \n\
    // A text inside of a sentence: its letters don't turn those around it, whatever direction they have.\n\
    function isolated(text, most = NOTE_EXCERPT) {\n\
    \x20 return \"\\u2068\" + plainText(excerpt(text, most)) + \"\\u2069\";\n\
    }\n\
    \n\
    // ---- reading ---------------------------------------------------------------------------------------------\
    -------\n\
    \n\
    // The notes of a run: of event i of p `at[p][i]` has those of it in the order of the files and their lines, \
    or nothing.\n\
    // A note has a text, a place and a clock.\n\
    class Notes {\n\
    \x20 constructor(run, files) {\n\
    \x20   this.run = run;\n\
    \x20   this.at = run.counts.map((count) => new Array(count + 1).fill(null));\n\
    \x20   this.process = new Map(run.names.map((name, p) => [name, p]));\n\
    \x20   this.count = 0;\n\
    \x20   this.wrong = { count: 0, first: null };\n\
    \x20   this.thrown = 0;\n\
    \x20   const limit = Error.stackTraceLimit;\n\
    \x20   Error.stackTraceLimit = 0;    // a line that is no JSON takes a tenth of the time so\n\
    \x20   files.forEach((text, f) => this.readFile(text, f + 1));\n\
    \x20   Error.stackTraceLimit = limit;\n\
    \x20   this.giveIndex();\n\
    \x20 }\n\
    \n\
    \x20 readFile(text, file) {\n\
    \x20   let line = 0;\n\
    \x20   for (let start = 0; start < text.length;) {\n\
    \x20     const found = text.indexOf(\"\\n\", start);\n\
    \x20     const end = found < 0 ? text.length : found;\n\
    \x20     line++;\n\
    \x20     if (end > start) this.readLine(text.slice(start, end), file, line);\n\
    \x20     start = end + 1;\n\
    \x20   }\n\
    \x20 }\n\
    \n\
    \x20 // A blank line is passed over; another one is a note, or counted as none.\n\
    \x20 readLine(text, file, line) {\n\
    \x20   if (/^\\s*$/.test(text)) return;\n\
    \x20   const why = this.take(text);\n\
    \x20   if (why === null) return;\n\
    \x20   this.wrong.count++;\n\
    \x20   this.wrong.first ??= { file, line, why: why() };\n\
    \x20 }\n\
    \n\
    \x20 // Takes the note of a line, or gives what says why it is none.\n\
    \x20 take(text) {\n\
    \x20   const note = this.objectOf(text);\n\
    \x20   if (note === null) return () => \"it is no object of JSON\";\n\
    \x20   const { process, event, text: said, place = \"\", clock = null } = note;\n\
    \x20   const p = typeof process === \"string\" ? this.process.get(process) : undefined;\n\
    \x20   if (p === undefined) {\n\
    \x20     return () => (typeof process === \"string\" ? \"this run has no process \" + isolated(process, NAME_\
    EXCERPT)\n\
    \x20       : \"it names no process\");\n\
    \x20   }\n\
    \x20   const name = this.run.names[p];\n\
    \x20   if (!Number.isInteger(event) || event < 1) return () => \"it names no event of \" + name;\n\
    \x20   const count = this.run.counts[p];\n\
    \x20   if (event > count) return () => name + \" has no event \" + event + \" in this run, but \" + count;\n\
    \x20   if (typeof said !== \"string\") return () => \"its text is none\";\n\
    \x20   if (typeof place !== \"string\") return () => \"its place is no text\";\n\
    \x20   if (clock !== null && !Number.isFinite(clock)) return () => \"its clock is no number\";\n\
    \x20   (this.at[p][event] ??= []).push({ text: said, place, clock });\n\
    \x20   this.count++;\n\
    \x20   return null;\n\
    \x20 }\n\
    \n\
    \x20 // The object of JSON that a line is, or nothing. After many lines that are none, only what has no list \
    and no object\n\
    \x20 // in it is read as one: a fault that is thrown takes a hundred times as long.\n\
    \x20 objectOf(text) {\n\
    \x20   if (!/^\\s*\\{/.test(text) || (this.thrown > THROWN_LIMIT && !FLAT.test(text))) return null;\n\
    \x20   try {\n\
    \x20     return JSON.parse(text);\n\
    \x20   } catch {\n\
    \x20     this.thrown++;\n\
    \x20     return null;\n\
    \x20   }\n\
    \x20 }\n\
    \n\
    \x20 // All texts and places as one text to be looked through, and where the note of each begins in it.\n\
    \x20 giveIndex() {\n\
    \x20   const parts = [];\n\
    \x20   const events = [];\n\
    \x20   const starts = [];\n\
    \x20   let length = 0;\n\
    \x20   this.at.forEach((list, p) => list.forEach((notes, i) => notes?.forEach((note) => {\n\
    \x20     const part = (note.text + \"\\n\" + note.place + \"\\n\").toLowerCase();\n\
    \x20     parts.push(part);\n\
    \x20     events.push(p, i);\n\
    \x20     starts.push(length);\n\
    \x20     length += part.length;\n\
    \x20   })));\n\
    \x20   this.index = { text: parts.join(\"\"), events: Uint32Array.from(events), starts: Uint32Array.from(star\
    ts) };\n\
    \x20 }\n\
    \n\
    \x20 // Gives `add` each event of which a note has this part in its text or its place, once for each such not\
    e; the part is\n\
    \x20 // in small letters.\n\
    \x20 find(part, add) {\n\
    \x20   const { text, events, starts } = this.index;\n\
    \x20   let k = 0;\n\
    \x20   for (let at = text.indexOf(part); at >= 0; at = text.indexOf(part, starts[k])) {\n\
    \x20     while (starts[k + 1] <= at) k++;\n\
    \x20     add(events[2 * k], events[2 * k + 1]);\n\
    \x20     k++;\n\
    \x20     if (k === starts.length) break;\n\
    \x20   }\n\
    \x20 }\n\
    }\n\
    \n\
    const NO_NOTES = [];\n\
    \n\
    function notesAt(run, p, i) {\n\
    \x20 return run.notes?.at[p][i] ?? NO_NOTES;\n\
    }\n\
    \n\
    // The first of these notes that has a text, or nothing.\n\
    function firstText(notes) {\n\
    \x20 return notes.find(({ text }) => text !== \"\") ?? null;\n\
    }\n\
    \n\
    // The notes of an event in a sentence: the first text, or if there is none, the first place; and how many mo\
    re notes\n\
    // there are.\n\
    function noteWords(run, p, i) {\n\
    \x20 const notes = notesAt(run, p, i);\n\
    \x20 const first = firstText(notes) ?? notes.find(({ place }) => place !== \"\");\n\
    \x20 if (first === undefined) return \"\";\n\
    \x20 const words = first.text === \"\" ? \"at \" + isolated(first.place) : \"\xe2\x80\x9c\" + isolated(first.\
    text) + \"\xe2\x80\x9d\";\n\
    \x20 return words + (notes.length === 1 ? \"\" : \" and \" + moreNotes(notes.length - 1));\n\
    }\n\
    \n\
    function moreNotes(count) {\n\
    \x20 return count.toLocaleString(\"en\") + (count === 1 ? \" more note\" : \" more notes\");\n\
    }\n\
    \n\
    // Which lines are no notes, in words.\n\
    function wrongNotesText(run) {\n\
    \x20 if (run.notes === null || run.notes.wrong.count === 0) return \"\";\n\
    \x20 const { count, first } = run.notes.wrong;\n\
    \x20 return (count === 1 ? \"1 line of the notes isn't a note of an event of this run, and isn't shown: \"\n\
    \x20   : count.toLocaleString(\"en\") + \" lines of the notes aren't notes of events of this run, and aren't \
    shown; the \" +\n\
    \x20     \"first of them: \") + \"file \" + first.file + \", line \" + first.line + \": \" + first.why + \".\"\
    ;\n\
    }\n\
    \n\
    // A note's time by the clock of its machine, to the microsecond.\n\
    function clockText(clock) {\n\
    \x20 const date = new Date(Math.floor(clock) * 1000);\n\
    \x20 if (Number.isNaN(date.getTime())) return String(clock);\n\
    \x20 const micros = Math.floor((clock - Math.floor(clock)) * 1e6 + 0.5);\n\
    \x20 return date.toISOString().replace(\"T\", \" \").replace(/\\.\\d+Z$/, \"\") + \".\" +\n\
    \x20   String(Math.min(999999, micros)).padStart(6, \"0\") + \" UTC\";\n\
    }\n\
    \n\
    // ---- places as links -------------------------------------------------------------------------------------\
    -------\n\
    \n\
    const LINK_SCHEMES = [\"http:\", \"https:\", \"vscode:\", \"idea:\", \"file:\"];\n\
    \n\
    function isLinkPattern(pattern) {\n\
    \x20 const scheme = /^[a-z][a-z0-9+.-]*:/i.exec(pattern);\n\
    \x20 return scheme !== null && LINK_SCHEMES.includes(scheme[0].toLowerCase());\n\
    }\n\
    \n\
    // A text as a part of an address; a slash stays one.\n\
    function encodedPath(text) {\n\
    \x20 return text.replace(/\\p{Surrogate}/gu, \"\\ufffd\").split(\"/\").map(encodeURIComponent).join(\"/\");\n\
    }\n\
    \n\
    function filled(pattern, file, line) {\n\
    \x20 return pattern.replace(/\\{(file|line)\\}/g, (_, word) => (word === \"file\" ? encodedPath(file) : line)\
    );\n\
    }\n\
    \n\
    // Where an address leads to: its scheme and its host, and that it is on this machine.\n\
    function leadsTo(address) {\n\
    \x20 try {\n\
    \x20   const { protocol, host, pathname } = new URL(address);\n\
    \x20   return protocol + \"//\" + host + (protocol === \"file:\" && pathname.startsWith(\"//\") ? \" elsewher\
    e\" : \"\");\n\
    \x20 } catch {\n\
    \x20   return null;\n\
    \x20 }\n\
    }\n\
    \n\
    // Why places are no links, if they were to be some, in words.\n\
    function wrongLinkText(run) {\n\
    \x20 return run.link === null || isLinkPattern(run.link) ? \"\"\n\
    \x20   : \"Places are no links: of \xe2\x80\x9c\" + isolated(run.link) + \"\xe2\x80\x9d the scheme is none of\
    \x20http, https, vscode, idea and file.\";\n\
    }\n\
    \n\
    // The address of a place `FILE:LINE` by a pattern, or nothing: only these schemes are taken, and a place can\
    't change\n\
    // where the pattern leads to, as to another host.\n\
    function linkOf(pattern, place) {\n\
    \x20 const [, file, line] = /^(.+):([1-9][0-9]*)$/s.exec(place) ?? [];\n\
    \x20 if (pattern === null || line === undefined || !isLinkPattern(pattern)) return null;\n\
    \x20 const address = filled(pattern, file, line);\n\
    \x20 const end = leadsTo(address);\n\
    \x20 return end !== null && end === leadsTo(filled(pattern, \"/f\", \"1\")) ? address : null;\n\
    }\n\
    \n\
    if (typeof module === \"object\") {\n\
    \x20 Object.assign(globalThis, require(\"./run.js\"));   // on the page, scripts share their names\n\
    \x20 module.exports = { Notes, notesAt, firstText, noteWords, wrongNotesText, clockText, plainText, excerpt, \
    isolated,\n\
    \x20                    linkOf, isLinkPattern, wrongLinkText, NOTE_EXCERPT };\n\
    }\n\
    </script>\n\
    ";
