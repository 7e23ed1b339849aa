//! What the program's help says, and what is wanted of arguments.

/// What the program's help says of it.
pub(crate) const ABOUT: &str =
    "Judges predicates on a distributed computation. The command `judge` reads a session document, and one stream of \
events for each process, from files. With no command they are read from the standard input, as one bundle. \
A report is written to the standard output. The command `check` checks the evidence in such a report, and `draw` \
draws it, or a session of which the report is made first. \
The command `serve` judges streams that processes send over TCP or a Unix socket while they run, `explore` writes a \
page on which a run is explored, `test` says of many recorded runs which are not as wished, `infer` writes a first \
session document of recorded streams, and `reduce` makes a session of a run of any length. The command `batch` judges \
sessions that come one in a line, as `bundle` writes them, and `merge` counts its answers.";

/// What the program's help ends with.
pub(crate) const AFTER: &str = "\
With --explain anywhere in the arguments the answers, a refusal and whatever fails are explained on the standard \
error; in a terminal, or with MONITOR_EXPLAIN=1 in the environment, it is so without that.

With --max-time SECONDS anywhere in the arguments, 1 to 604800, a run that takes longer ends with status 6. Then \
nothing is written to the standard output but the lines of the runs that `test` has judged, or of the sessions of \
`batch`.

Status:
  0  The session is judged, and no condition of --fail-on is met; all tested runs pass; a check finds nothing bad; the \
picture, the page, the first document, the session that is made, the line of each run or the help is written
  1  The session, a recorded run, or a stream of a first document is refused; no session can be made of a run; a \
tested run, or a line, could not be judged, and none fails; a check finds something bad, or what stands against the \
picture; a line has nothing to count
  2  The arguments are refused, or name a predicate or evidence that isn't there
  3  A file can't be opened or read, a port can't be bound, a stream can't be accepted or doesn't come in time, or the \
output or what is to be kept can't be written
  4  Memory runs out
  5  The session, or one of a line, is judged, and a condition of --fail-on is met; a tested run fails
  6  The time of --max-time is over";

/// What is wanted of a list of conditions.
pub(crate) const LIST_USAGE: &str =
    "the list after --fail-on has to be one or more of possibly, possibly-no, definitely, definitely-no and unknown, \
each alone or as NAME:possibly of the predicate NAME, with a comma between each two";

/// What is wanted of the word for a kind of evidence.
pub(crate) const KIND_USAGE: &str = "the word after --evidence has to be possibly or definitely";

/// What is wanted of the word for a format.
pub(crate) const FORMAT_USAGE: &str = "the word after --format has to be text or json";

/// What is wanted of the columns.
pub(crate) const EXTENT_USAGE: &str = "--from and --all can't be given together";

/// What the help says of `judge`.
pub(crate) const JUDGE_ABOUT: &str = "Judges predicates on a computation that is recorded in files";

/// What the help of `judge` ends with.
pub(crate) const JUDGE_AFTER: &str =
    "A report is written to the standard output. The status is 0 if the session is judged, 1 if it is refused, \
also because a stream can't be read, 2 if the arguments are refused, 3 if a file can't be opened, the document \
can't be read or the output can't be written, and 4 if memory runs out.\n\n\
With --fail-on the status is 5 if the session is judged and a predicate meets a condition of LIST, which is one or \
more of these, with a comma between each two. After NAME: a condition is asked of the predicate NAME alone; if there \
is none, the status is 2. The report is the same.\n  \
possibly       the answer to possibly is yes\n  \
possibly-no    it is no\n  \
definitely     the answer to definitely is yes\n  \
definitely-no  it is no\n  \
unknown        one of the two answers is unknown\n\n\
With --format json the report is one line with a JSON object, for programs, in place of its lines; its field `report` \
has these. Beside each cut stands where the last events before it were recorded, and what the variables are worth \
there that the predicate names.\n\n\
With - as SPEC and no STREAM a bundle is read from the standard input: the document and the streams, with a line --- \
between each two.\n\n\
With --notes an explanation says what recorders noted of the events that it names, in files beside the streams. The \
report and the status are the same.\n\n\
An answer is unknown where a level of the lattice has more cuts than the document's width. With --beyond-width \
predicates that name at most two processes are answered all the same and, as far as docs/SPECIFICATION.md says, those \
of which each comparison names one process; and whether an `or` of such predicates, or most predicates with one sum \
over several processes in each term, possibly holds; and mostly whether any other definitely holds.\n\n\
With --max-time SECONDS the status is 6 if the run takes longer, and nothing is written to the standard output.\n\n\
The formats are described in docs/SPECIFICATION.md. An example, at the top of the repository:\n  \
crates/monitor/out/monitor judge examples/ten-lines/session.json examples/ten-lines/left.stream \
examples/ten-lines/right.stream";

/// What is wanted of the place of a server.
pub(crate) const PLACE_USAGE: &str =
    "either --port or --socket has to be given; --bind wants an IP address and --port; \
port 0 wants --port-file, and --socket has none";

/// What is wanted of the token of a server.
pub(crate) const TOKEN_USAGE: &str =
    "--token wants a text of 1 to 1,024 bytes without a line feed, and no --token-file beside it";

/// What the help says of `check`.
pub(crate) const CHECK_ABOUT: &str =
    "Checks whether the cuts and paths in a report show what they are printed for";

/// What the help of `check` ends with.
pub(crate) const CHECK_AFTER: &str =
    "What is found is written to the standard output. The status is 0 if nothing in it is bad, 1 if something is, 2 if \
the arguments are refused, 3 if a file can't be opened or read or the output can't be written, and 4 if memory runs \
out.\n\n\
With --format json what is found is one line with a JSON object, for programs, in place of its lines.\n\n\
With --notes an explanation says what recorders noted of the events that it names, in files beside the streams. What \
is found and the status are the same.\n\n\
With --max-time SECONDS the status is 6 if the run takes longer, and nothing is written to the standard output.\n\n\
The formats are described in docs/SPECIFICATION.md. An example, at the top of the repository:\n  \
crates/monitor/out/monitor check examples/ten-lines/session.json examples/ten-lines/report \
examples/ten-lines/left.stream examples/ten-lines/right.stream";

/// What the help says of `draw`.
pub(crate) const DRAW_ABOUT: &str =
    "Draws a computation with the cut or the observation that a report, or else a judgement, shows of a predicate";

/// What the help of `draw` ends with.
pub(crate) const DRAW_AFTER: &str =
    "A picture is written to the standard output, as SVG. After the document stands the report and then the streams. \
As many files as the document has processes, or one, are the streams alone: the session is judged first, and its own \
report is drawn. With a cut the events are numbered in the order of an observation through it. At most 24 \
columns are drawn, around the evidence, if nothing else is asked for. Of a session \
that is refused for a causal cycle, as the report says, the run is drawn with its cycle marked. A report is read and \
held against the document and the streams as `check` does. The status is 0 if the picture is written, 1 if the session \
is refused or something that a check finds stands against the picture, which is then written to the standard error, 2 \
if the arguments are refused or there is no predicate of the name, or no evidence of the kind, that is asked for, 3 if \
a file can't be opened or read or the output can't be written, and 4 if memory runs out.\n\n\
With --notes the picture shows what recorders noted of the events that are drawn, in files beside the streams. The \
status is the same, and a file of notes that can't be read is left out.\n\n\
With --max-time SECONDS the status is 6 if the run takes longer, and nothing is written to the standard output.\n\n\
The formats are described in docs/SPECIFICATION.md. An example, at the top of the repository:\n  \
crates/monitor/out/monitor draw examples/ten-lines/session.json examples/ten-lines/left.stream \
examples/ten-lines/right.stream > picture.svg";

/// What the help says of `serve`.
pub(crate) const SERVE_ABOUT: &str =
    "Judges predicates on a computation whose processes send their events by connections";

/// What the help of `serve` ends with.
pub(crate) const SERVE_AFTER: &str =
    "As many connections to the port, or to the socket, as the document has processes are the streams. A report \
is written to the standard output once all of them have ended and all watchers were answered. The status is 0 if \
the session is judged, 1 if it is refused, 2 if the arguments are refused, 3 if the document can't be read, a port or \
a socket can't be bound, a stream can't be accepted or the output can't be written, and 4 if memory runs out.\n\n\
Without --bind only programs of this machine can connect to the port. With it whoever reaches the address can: nobody \
is asked who they are, but for a token, so give it a private network alone. To the socket programs of the same user \
can connect.\n\n\
With --wait the status is 3 if not all streams have connected so many seconds after the document was read.\n\n\
Without --join-first the first connections are the streams, whatever they send. With it a connection that says \
something else, or nothing for 5 seconds, is closed, and takes no stream's place. --token and --token-file imply \
--join-first, and ask for a line before.\n\n\
With --idle a stream ends that says nothing for so many seconds, as if its connection had been closed.\n\n\
With --keep the status is 3 if something of the session can't be kept, as in a folder that has files already; nothing \
is ever written over.\n\n\
With --fail-on the status may be 5, as that of `judge`, whose help says what LIST is. With --format json the report \
is one line with a JSON object, for programs, as that of `judge`.\n\n\
An answer is unknown where a level of the lattice has more cuts than the document's width. With --beyond-width \
predicates that name at most two processes are answered all the same and, as far as docs/SPECIFICATION.md says, those \
of which each comparison names one process; and whether an `or` of such predicates, or most predicates with one sum \
over several processes in each term, possibly holds; and mostly whether any other definitely holds.\n\n\
With --max-time SECONDS the status is 6 if the run takes longer, and nothing is written to the standard output.\n\n\
The formats are described in docs/SPECIFICATION.md. An example, at the top of the repository:\n  \
crates/monitor/out/monitor serve examples/live/session.json --port 7411\nand then, from another terminal:\n  \
cat examples/live/left.stream > /dev/tcp/127.0.0.1/7411 & cat examples/live/right.stream > /dev/tcp/127.0.0.1/7411";

/// What the help says of `explore`.
pub(crate) const EXPLORE_ABOUT: &str =
    "Writes a page on which a computation that is recorded in files is explored in a browser";

/// What the help of `explore` ends with.
pub(crate) const EXPLORE_AFTER: &str =
    "The session is judged as `judge` does, and the page is written to the standard output: one file of HTML, complete \
in itself, with the run, the predicates and the answers. Of a session that is refused for a causal cycle it shows the \
cycle, and of one that is refused otherwise the refusal and what it means. The status is 0 if the session is \
judged, 1 if it is refused, also because a stream can't be read, 2 if the arguments are refused or name a predicate \
that isn't there, 3 if a file can't be opened, the document or a file of notes can't be read or the output can't be \
written, and 4 if memory runs out.\n\n\
With --fail-on the status may be 5, as that of `judge`, whose help says what LIST is; the page is written all the \
same. With --never, --always and --sometimes the page says which predicates are not as wished.\n\n\
With --notes the page shows what recorders noted of the events, in files beside the streams, and with --link a link to \
each place in a source: PATTERN with {file} and {line} in it, as https://host/file/{file}#L{line}.\n\n\
With --max-time SECONDS the status is 6 if the run takes longer, and nothing is written to the standard output.\n\n\
The formats are described in docs/SPECIFICATION.md. An example, at the top of the repository:\n  \
crates/monitor/out/monitor explore examples/ten-lines/session.json examples/ten-lines/left.stream \
examples/ten-lines/right.stream > run.html";

/// What the help says of `test`.
pub(crate) const TEST_ABOUT: &str =
    "Judges recorded runs, in folders or bundles, and says which of them are not as wished";

/// What the help of `test` ends with.
pub(crate) const TEST_AFTER: &str =
    "A run is a folder with the session document, session.json, and for each process NAME its stream, NAME.stream; or, \
if its name ends in .bundle, a file with the document and the streams, a line --- before each stream. Each is judged \
as by `judge --beyond-width`, and has a line on the standard output, with its name and what came of it:\n  \
pass     it is as wished\n  \
fail     an answer is not as wished, and which\n  \
refused  the session is refused, and why\n  \
unread   a file can't be opened or read, and which\n  \
unnamed  the document lacks a predicate that is wished for, and which\n\n\
Then come the numbers of runs, and once more the first lines of those that don't pass. The status is 0 if all runs \
pass, 5 if one fails, or else 1 if one could not be judged, 2 if the arguments are refused, 3 if the output can't be \
written, and 4 if memory runs out.\n\n\
With --max-time SECONDS the status is 6 if the run takes longer, and nothing is written to the standard output \
but the lines of the runs that were judged, and a last line that says so.\n\n\
With --jobs N runs are judged side by side: the lines are the same, in the same order.\n\
With --pages FOLDER a page on which it is explored is written of each run that fails, as FOLDER/NAME.html of the run \
NAME; the status is 3 if one can't be written.\n\n\
With --format json one line is written in place of all others, at the end: a JSON object with the numbers of runs and, \
of each run, its name, what came of it and why. --json FILE writes that into FILE beside the lines, and --junit FILE \
the same as XML of JUnit, which CI servers show. The file is written under another name first, FILE.new, so it is \
whole or as it was; the status is 3 if it can't be written.\n\n\
The formats are described in docs/SPECIFICATION.md. An example, at the top of the repository:\n  \
crates/monitor/out/monitor test examples/redis-lock examples/redis-lock-fenced";

/// What the help says of `infer`.
pub(crate) const INFER_ABOUT: &str = "Writes a first session document of recorded streams";

/// What the help of `infer` ends with.
pub(crate) const INFER_AFTER: &str =
    "The document is written to the standard output: each process in the order of the streams, each variable that its \
events set, with the initial value 0, the version 2 if a message is received more than once, and one predicate, false, \
under the name replace_this. Put your question there, or ask it by --ask. The status is 0 if the document is written, \
1 if a stream is refused, 2 if the arguments are refused, 3 if a file can't be opened or read or the output can't be \
written, and 4 if memory runs out.\n\n\
With --max-time SECONDS the status is 6 if the run takes longer, and nothing is written to the standard output.\n\n\
The formats are described in docs/SPECIFICATION.md. An example, at the top of the repository:\n  \
crates/monitor/out/monitor infer examples/ten-lines/left.stream examples/ten-lines/right.stream > session.json";

/// What the help says of `reduce`.
pub(crate) const REDUCE_ABOUT: &str =
    "Makes a session, with the same answers, of a recorded run of any length";

/// What the help of `reduce` ends with.
pub(crate) const REDUCE_AFTER: &str =
    "A run has at most 4096 processes. Its streams may have any number of bytes, and a process up to 2147483647 \
events. Kept are the events that set a variable which a predicate names to another value, with their order, and the \
processes that predicates name. So for each predicate the session has the answers of the run, to Possibly and to \
Definitely. In FOLDER stand its document, session.json, of version 2, and a stream of each of its processes, \
NAME.stream, for `judge`, `explore` and all other commands. The message a-12 is sent by the 12th kept event of the \
process a. A line on the run and one on the session are written to the standard output.\n\n\
The status is 0 if the session is made, 1 if the run is refused, with its report, or if its session would have more \
than a session may have, as more than 16 processes, or 10000 events of one, 2 if the arguments are refused, 3 if a \
file can't be opened or read, or the folder or the output can't be written, and 4 if memory runs out.\n\n\
With --max-time SECONDS the status is 6 if the run takes longer, and nothing is written to the standard output.\n\n\
The formats are described in docs/SPECIFICATION.md. An example, at the top of the repository:\n  \
crates/monitor/out/monitor reduce examples/ten-lines/session.json examples/ten-lines/*.stream --to reduced";

/// What the help says of `batch`.
pub(crate) const BATCH_ABOUT: &str =
    "Judges sessions that come one in a line, or in bundles, and writes a line of each";

/// What the help of `batch` ends with.
pub(crate) const BATCH_AFTER: &str =
    "Each line of the standard input is a session, as `bundle` writes it: a JSON object whose field `document` is the \
text of a session document, `streams` the texts of its streams, and `id` a name, which may be missing. Of each line a \
line is written to the standard output, in the same order: a JSON object with `id`, the `status` that `judge` would \
end with, and the `report` that `judge --format json` would write; or, of a line that is no session, with `line`, its \
number, and `error`, which says why. No line stops the others. The status is 5 if the status of one is 5, or else 1 if \
one is refused or is no session, 2 if the arguments are refused, 3 if the input can't be read or the output can't be \
written, and 4 if memory runs out.\n\n\
With --bundles the standard input holds bundles in place of lines, with a line === between each two: each is a session \
document and its streams, with a line --- before each stream. `id` is then the bundle's number, counted from 1, and so \
is `line`.\n\n\
With --jobs N sessions are judged side by side: the lines are the same, in the same order.\n\n\
With --width, --ask, --beyond-width and --fail-on each session is judged as by `judge`.\n\n\
With --max-time SECONDS the status is 6 if the run takes longer, and nothing is written to the standard output but the \
lines of sessions that were judged.\n\n\
The formats are described in docs/SPECIFICATION.md. An example, at the top of the repository:\n  \
crates/monitor/out/monitor bundle examples/redis-lock examples/redis-lock-fenced | \
crates/monitor/out/monitor batch --fail-on possibly";

/// What the help says of `bundle`.
pub(crate) const BUNDLE_ABOUT: &str =
    "Writes recorded runs, each in a folder, as sessions in lines";

/// What the help of `bundle` ends with.
pub(crate) const BUNDLE_AFTER: &str =
    "A run is a folder with the session document, session.json, and for each process NAME its stream, NAME.stream. Of \
each a line is written to the standard output, in the order of the runs: the session as `batch` reads it, whose `id` \
is the name of the folder; or, of a run that can't be read, a JSON object with `id` and `error`, which `batch` hands \
on. The status is 0 if all runs are read, 1 if one isn't, 2 if the arguments are refused, 3 if the output can't be \
written, and 4 if memory runs out.\n\n\
With --max-time SECONDS the status is 6 if the run takes longer, and nothing is written to the standard output but the \
lines of runs that were read.\n\n\
The formats are described in docs/SPECIFICATION.md. An example, at the top of the repository:\n  \
crates/monitor/out/monitor bundle examples/redis-lock examples/redis-lock-fenced > sessions";

/// What the help says of `merge`.
pub(crate) const MERGE_ABOUT: &str = "Counts what `batch` wrote, and puts such counts together";

/// What the help of `merge` ends with.
pub(crate) const MERGE_AFTER: &str =
    "Each line of the standard input is one that `batch` wrote, or one that `merge` did. One line is written to the \
standard output: a JSON object that counts runs, their statuses and the answers of each predicate, and names the runs \
whose status isn't 0. It is the same however the lines are shared among calls, and in whatever order. The status is 5 \
if a status of 5 is counted, or else 1 if one of 1 or an error is, or if a line is neither; then nothing is written, \
and the line is named. It is 2 if the arguments are refused, 3 if the input can't be read or the output can't be \
written, and 4 if memory runs out.\n\n\
With --max-time SECONDS the status is 6 if the run takes longer, and nothing is written to the standard output.\n\n\
The formats are described in docs/SPECIFICATION.md. An example, at the top of the repository:\n  \
crates/monitor/out/monitor bundle examples/redis-lock examples/redis-lock-fenced | \
crates/monitor/out/monitor batch --fail-on possibly | crates/monitor/out/monitor merge";
