//! The table of the program's commands: what each takes, and what its help says of it.
ghost use Rattle.app_arguments.specs.Table.{asking, batch_arguments, beyond_width, bundle_arguments, check_arguments, column_number_limit, draw_arguments, explain, explore_arguments, format, infer_arguments, jobs, judge_arguments, merge_arguments, notes, option, placed, port_limit, reduce_arguments, runs, serve_arguments, streams, test_arguments, wait_limit, watcher_limit, workers};
ghost use Rattle.app_arguments.specs.Views.{row_view};
ghost use Rattle.app_arguments.specs.declared.table.ArgumentKind.TheVariants as kinds;
ghost use Rattle.def_format.specs.Limits.{width_limit, worker_limit};
ghost use Rattle.std.specs.Prelude.{◌≡◌, Some, codes, map};

use def_format::{WIDTH_LIMIT, WORKER_LIMIT};

/// The greatest port of streams: the next one is that of the watchers.
pub(crate) const PORT_LIMIT: u64 = 65_534;

/// The greatest number of watchers.
pub(crate) const WATCHER_LIMIT: u64 = 64;

/// The greatest number of seconds for which streams are waited: a day.
const WAIT_LIMIT: u64 = 86_400;

/// The most bytes of a token.
pub const TOKEN_LIMIT: usize = 1_024;

/// The greatest number of a column that can be asked for.
const COLUMN_NUMBER_LIMIT: u64 = 4_294_967_295;

/// How an argument is given.
#[derive(Clone, Copy)]
pub enum ArgumentKind {
    /// One text, which has to be given.
    Name,
    /// One text or more, of which one has to be given.
    Names,
    /// One text.
    Text,
    /// A text, again and again.
    Texts,
    /// By its name alone.
    Flag,
    /// A number from the first to the second.
    Number(u64, u64),
}

/// An argument of a command.
#[derive(Clone, Copy)]
pub struct Row {
    /// What the help calls its value.
    pub id: &'static str,
    /// The name of an option.
    pub long: Option<&'static str>,
    /// Its text if it isn't given.
    pub default: Option<&'static str>,
    /// How it is given.
    pub kind: ArgumentKind,
    /// What the help says of it.
    pub help: &'static str,
}

/// An argument that has its place among the arguments.
fn placed(id: &'static str, kind: ArgumentKind, help: &'static str) -> Row
    ensures { row_view result ≡ placed id.now kind }
{
    Row {
        id,
        long: None,
        default: None,
        kind,
        help,
    }
}

/// An argument that is given by its name.
fn option(id: &'static str, name: &'static str, kind: ArgumentKind, help: &'static str) -> Row
    ensures { row_view result ≡ option id.now name.now kind }
{
    Row {
        id,
        long: Some(name),
        default: None,
        kind,
        help,
    }
}

/// The same with this text if it isn't given.
fn with_default(row: Row, text: &'static str) -> Row
    ensures { row_view result ≡ record (row_view row) { default = Some text.now } }
{
    Row {
        id: row.id,
        long: row.long,
        default: Some(text),
        kind: row.kind,
        help: row.help,
    }
}

/// The session document.
fn spec() -> Row
    ensures { row_view result ≡ placed (codes "SPEC") kinds.Name }
{
    placed("SPEC", ArgumentKind::Name, "The session document")
}

/// Explanations.
pub(crate) fn explain() -> Row
    ensures { row_view result ≡ explain }
{
    option(
        "EXPLAIN",
        "explain",
        ArgumentKind::Flag,
        "Explain the answers, a refusal or what fails, on the standard error",
    )
}

/// A width.
fn width() -> Row
    ensures { row_view result ≡ option (codes "WIDTH") (codes "width") (kinds.Number 1 width_limit) }
{
    option(
        "WIDTH",
        "width",
        ArgumentKind::Number(1, WIDTH_LIMIT),
        "How many cuts a level may have, at most 65536, in place of the document's width",
    )
}

/// Predicates.
fn ask() -> Row
    ensures { row_view result ≡ option (codes "TEXT") (codes "ask") kinds.Texts }
{
    option(
        "TEXT",
        "ask",
        ArgumentKind::Texts,
        "A predicate in place of the document's, as TEXT or as NAME=TEXT; given again, one more. Without a name \
the first is ask1, the second ask2",
    )
}

/// The streams.
fn streams() -> Row
    ensures { row_view result ≡ streams }
{
    placed(
        "STREAM",
        ArgumentKind::Names,
        "The streams of events, one file for each",
    )
}

/// The number of workers.
fn workers() -> Row
    ensures { row_view result ≡ workers }
{
    with_default(
        option(
            "WORKERS",
            "workers",
            ArgumentKind::Number(1, WORKER_LIMIT),
            "How many threads, at most 16, share the work on levels with many cuts; they change no byte of the report",
        ),
        "1",
    )
}

/// What is decided whatever the width.
fn beyond_width() -> Row
    ensures { row_view result ≡ beyond_width }
{
    option(
        "BEYOND_WIDTH",
        "beyond-width",
        ArgumentKind::Flag,
        "Answer predicates whatever the width, as far as they are decided without the levels of the lattice",
    )
}

/// Conditions.
fn fail_on() -> Row
    ensures { row_view result ≡ option (codes "LIST") (codes "fail-on") kinds.Text }
{
    option(
        "LIST",
        "fail-on",
        ArgumentKind::Text,
        "End with status 5 if an answer is one of these, as possibly or NAME:unknown, with commas between them",
    )
}

/// A format, of which the help says this.
fn format(help: &'static str) -> Row
    ensures { row_view result ≡ format }
{
    option("FORMAT", "format", ArgumentKind::Text, help)
}

/// The format of the report.
fn report_format() -> Row
    ensures { row_view result ≡ format }
{
    format(
        "Write the report as text, in lines, or as json, in one line with one object; without it as text",
    )
}

/// The format of what a check finds.
fn finding_format() -> Row
    ensures { row_view result ≡ format }
{
    format(
        "Write what is found as text, in lines, or as json, in one line with one object; without it as text",
    )
}

/// The format of what came of runs.
fn test_format() -> Row
    ensures { row_view result ≡ format }
{
    format(
        "Write what came of the runs as text, in lines, or as json, in one line with one object at the end; without it \
as text",
    )
}

/// The report.
fn report() -> Row
    ensures { row_view result ≡ placed (codes "REPORT") kinds.Name }
{
    placed("REPORT", ArgumentKind::Name, "The report")
}

/// What is drawn beside the document.
fn drawn_files() -> Row
    ensures { row_view result ≡ placed (codes "FILE") kinds.Names }
{
    placed(
        "FILE",
        ArgumentKind::Names,
        "The report and then the streams, one for each process, or the streams alone, which are judged first",
    )
}

/// The predicate that is drawn.
fn predicate() -> Row
    ensures { row_view result ≡ option (codes "PREDICATE") (codes "predicate") kinds.Text }
{
    option(
        "PREDICATE",
        "predicate",
        ArgumentKind::Text,
        "The predicate whose evidence is drawn; without it the first one that has evidence",
    )
}

/// The kind of evidence that is drawn.
fn evidence() -> Row
    ensures { row_view result ≡ option (codes "KIND") (codes "evidence") kinds.Text }
{
    option(
        "KIND",
        "evidence",
        ArgumentKind::Text,
        "The evidence that is drawn: possibly, a cut, or definitely, a path; without it the cut, or else the path",
    )
}

/// The first column that is drawn.
fn from() -> Row
    ensures { row_view result ≡ option (codes "COLUMN") (codes "from") (kinds.Number 1 column_number_limit) }
{
    option(
        "COLUMN",
        "from",
        ArgumentKind::Number(1, COLUMN_NUMBER_LIMIT),
        "The first column that is drawn, of at most 24; without it those around the evidence are",
    )
}

/// All columns.
fn all() -> Row
    ensures { row_view result ≡ option (codes "ALL") (codes "all") kinds.Flag }
{
    option("ALL", "all", ArgumentKind::Flag, "Draw all columns")
}

/// The port.
fn port() -> Row
    ensures { row_view result ≡ option (codes "PORT") (codes "port") (kinds.Number 0 port_limit) }
{
    option(
        "PORT",
        "port",
        ArgumentKind::Number(0, PORT_LIMIT),
        "The port, at most 65534, on which the streams are accepted; with --port-file 0 is any free port",
    )
}

/// The address of the port.
fn bind() -> Row
    ensures { row_view result ≡ option (codes "ADDRESS") (codes "bind") kinds.Text }
{
    option(
        "ADDRESS",
        "bind",
        ArgumentKind::Text,
        "The IP address of the port; without it 127.0.0.1, to which programs of this machine alone connect",
    )
}

/// The socket.
fn socket() -> Row
    ensures { row_view result ≡ option (codes "PATH") (codes "socket") kinds.Text }
{
    option(
        "PATH",
        "socket",
        ArgumentKind::Text,
        "The Unix socket, in place of a port, on which the streams are accepted; the watchers have PATH.watchers",
    )
}

/// The file in which the port is named.
fn port_file() -> Row
    ensures { row_view result ≡ option (codes "PORT_FILE") (codes "port-file") kinds.Text }
{
    option(
        "PORT_FILE",
        "port-file",
        ArgumentKind::Text,
        "A file in which the port is named, in a line, once it is open, and in a second line the one of the watchers",
    )
}

/// The number of watchers.
fn watchers() -> Row
    ensures { row_view result
        ≡ record (option (codes "WATCHERS") (codes "watchers") (kinds.Number 0 watcher_limit)) {
          default = Some (codes "0");
        } }
{
    with_default(
        option(
            "WATCHERS",
            "watchers",
            ArgumentKind::Number(0, WATCHER_LIMIT),
            "How many connections to the next port, at most 64, are shown how far the streams are read",
        ),
        "0",
    )
}

/// How long streams are waited for.
fn wait() -> Row
    ensures { row_view result ≡ option (codes "SECONDS") (codes "wait") (kinds.Number 1 wait_limit) }
{
    option(
        "SECONDS",
        "wait",
        ArgumentKind::Number(1, WAIT_LIMIT),
        "How many seconds, at most 86400, the streams are waited for; without it they are waited for forever",
    )
}

/// Which connections are streams.
fn join_first() -> Row
    ensures { row_view result ≡ option (codes "JOIN_FIRST") (codes "join-first") kinds.Flag }
{
    option(
        "JOIN_FIRST",
        "join-first",
        ArgumentKind::Flag,
        "Make a connection a stream once its first line joins a process that has none, and close each other one",
    )
}

/// What connections have to say first.
fn token() -> Row
    ensures { row_view result ≡ option (codes "TOKEN") (codes "token") kinds.Text }
{
    option(
        "TOKEN",
        "token",
        ArgumentKind::Text,
        "The line that each connection has to send before the first line of its stream; else it is closed",
    )
}

/// The file of what connections have to say first.
fn token_file() -> Row
    ensures { row_view result ≡ option (codes "TOKEN_FILE") (codes "token-file") kinds.Text }
{
    option(
        "TOKEN_FILE",
        "token-file",
        ArgumentKind::Text,
        "A file whose first line is that line, so that no other user of this machine sees it among the arguments",
    )
}

/// When a stream ends that says nothing.
fn idle() -> Row
    ensures { row_view result ≡ option (codes "IDLE") (codes "idle") (kinds.Number 1 wait_limit) }
{
    option(
        "IDLE",
        "idle",
        ArgumentKind::Number(1, WAIT_LIMIT),
        "After how many seconds, at most 86400, in which it says nothing a stream ends; without it never",
    )
}

/// The folder in which a session is kept.
fn keep() -> Row
    ensures { row_view result ≡ option (codes "FOLDER") (codes "keep") kinds.Text }
{
    option(
        "FOLDER",
        "keep",
        ArgumentKind::Text,
        "Keep the document, the streams as they come and the report in this folder, which is made if there is none",
    )
}

/// The folder for a session that is made.
fn to() -> Row
    ensures { row_view result ≡ option (codes "FOLDER") (codes "to") kinds.Name }
{
    option(
        "FOLDER",
        "to",
        ArgumentKind::Name,
        "The folder for the session that is made: a new one, or one in which nothing is",
    )
}

/// What is never to hold in a run that passes.
fn never() -> Row
    ensures { row_view result ≡ option (codes "NEVER") (codes "never") kinds.Texts }
{
    option(
        "NEVER",
        "never",
        ArgumentKind::Texts,
        "A run fails unless possibly is no for this predicate; given again, one more. With none of these three options \
that is so for each predicate",
    )
}

/// What is to hold in every observation of one.
fn always() -> Row
    ensures { row_view result ≡ option (codes "ALWAYS") (codes "always") kinds.Texts }
{
    option(
        "ALWAYS",
        "always",
        ArgumentKind::Texts,
        "A run fails unless definitely is yes for this predicate; given again, one more",
    )
}

/// What is to hold in some observation of one.
fn sometimes() -> Row
    ensures { row_view result ≡ option (codes "SOMETIMES") (codes "sometimes") kinds.Texts }
{
    option(
        "SOMETIMES",
        "sometimes",
        ArgumentKind::Texts,
        "A run fails unless possibly is yes for this predicate; given again, one more",
    )
}

/// What is never to hold.
fn shown_never() -> Row
    ensures { row_view result ≡ option (codes "NEVER") (codes "never") kinds.Texts }
{
    option(
        "NEVER",
        "never",
        ArgumentKind::Texts,
        "Wish that possibly is no for this predicate; given again, for one more",
    )
}

/// What is to hold in every observation.
fn shown_always() -> Row
    ensures { row_view result ≡ option (codes "ALWAYS") (codes "always") kinds.Texts }
{
    option(
        "ALWAYS",
        "always",
        ArgumentKind::Texts,
        "Wish that definitely is yes for this predicate; given again, for one more",
    )
}

/// What is to hold in some observation.
fn shown_sometimes() -> Row
    ensures { row_view result ≡ option (codes "SOMETIMES") (codes "sometimes") kinds.Texts }
{
    option(
        "SOMETIMES",
        "sometimes",
        ArgumentKind::Texts,
        "Wish that possibly is yes for this predicate; given again, for one more",
    )
}

/// Files of notes.
fn notes() -> Row
    ensures { row_view result ≡ notes }
{
    option(
        "NOTES",
        "notes",
        ArgumentKind::Texts,
        "A file of notes on events, as recorders write them beside a stream; given again, one more",
    )
}

/// Files of notes for a picture.
fn shown_notes() -> Row
    ensures { row_view result ≡ notes }
{
    option(
        "NOTES",
        "notes",
        ArgumentKind::Texts,
        "A file of notes on events, as recorders write them beside a stream, which stand below the events' dots; given \
again, one more",
    )
}

/// Files of notes for an explanation.
fn explained_notes() -> Row
    ensures { row_view result ≡ notes }
{
    option(
        "NOTES",
        "notes",
        ArgumentKind::Texts,
        "A file of notes on events, as recorders write them beside a stream, which an explanation quotes; given \
again, one more",
    )
}

/// The pattern of links.
fn link() -> Row
    ensures { row_view result ≡ option (codes "PATTERN") (codes "link") kinds.Text }
{
    option(
        "PATTERN",
        "link",
        ArgumentKind::Text,
        "A link to a note's place in a source, with {file} and {line} in it",
    )
}

/// How many runs or sessions are judged side by side.
fn jobs() -> Row
    ensures { row_view result ≡ jobs }
{
    with_default(
        option(
            "JOBS",
            "jobs",
            ArgumentKind::Number(1, WORKER_LIMIT),
            "How many sessions, at most 16, are judged side by side; that changes no byte of what is written",
        ),
        "1",
    )
}

/// Whether the input holds bundles.
fn bundles() -> Row
    ensures { row_view result ≡ option (codes "BUNDLES") (codes "bundles") kinds.Flag }
{
    option(
        "BUNDLES",
        "bundles",
        ArgumentKind::Flag,
        "Read bundles with a line === between each two, in place of lines; the id of each is its number",
    )
}

/// The folder for pages of runs that fail.
fn pages() -> Row
    ensures { row_view result ≡ option (codes "FOLDER") (codes "pages") kinds.Text }
{
    option(
        "FOLDER",
        "pages",
        ArgumentKind::Text,
        "Write a page on which it is explored, NAME.html, of each run NAME that fails into this folder, which is made \
if there is none",
    )
}

/// The file for what came of runs as JSON.
fn json_file() -> Row
    ensures { row_view result ≡ option (codes "JSON") (codes "json") kinds.Text }
{
    option(
        "JSON",
        "json",
        ArgumentKind::Text,
        "Write what came of the runs into this file too, as --format json has it; the file is whole, or as it was",
    )
}

/// The file for what came of runs as JUnit's XML.
fn junit_file() -> Row
    ensures { row_view result ≡ option (codes "JUNIT") (codes "junit") kinds.Text }
{
    option(
        "JUNIT",
        "junit",
        ArgumentKind::Text,
        "Write what came of the runs into this file too, as XML of JUnit, which CI servers show; the file is whole, or \
as it was",
    )
}

/// The folders of recorded runs.
fn runs() -> Row
    ensures { row_view result ≡ runs }
{
    placed(
        "RUN",
        ArgumentKind::Names,
        "The recorded runs, one folder for each, with session.json and NAME.stream of each process NAME",
    )
}

/// What `judge` takes, in the order of its help.
pub(crate) fn judge_arguments() -> [Row; 10]
    ensures { map row_view result ≡ judge_arguments }
{
    [
        spec(),
        explain(),
        width(),
        ask(),
        streams(),
        workers(),
        beyond_width(),
        fail_on(),
        report_format(),
        explained_notes(),
    ]
}

/// What `check` takes, in the order of its help.
pub(crate) fn check_arguments() -> [Row; 8]
    ensures { map row_view result ≡ check_arguments }
{
    [
        spec(),
        explain(),
        width(),
        ask(),
        report(),
        streams(),
        explained_notes(),
        finding_format(),
    ]
}

/// What `draw` takes, in the order of its help.
pub(crate) fn draw_arguments() -> [Row; 11]
    ensures { map row_view result ≡ draw_arguments }
{
    [
        spec(),
        explain(),
        width(),
        ask(),
        drawn_files(),
        beyond_width(),
        predicate(),
        evidence(),
        from(),
        all(),
        shown_notes(),
    ]
}

/// What `serve` takes, in the order of its help.
pub(crate) fn serve_arguments() -> [Row; 19]
    ensures { map row_view result ≡ serve_arguments }
{
    [
        spec(),
        explain(),
        width(),
        ask(),
        port(),
        bind(),
        socket(),
        port_file(),
        watchers(),
        wait(),
        join_first(),
        token(),
        token_file(),
        idle(),
        keep(),
        workers(),
        beyond_width(),
        fail_on(),
        report_format(),
    ]
}

/// What `explore` takes, in the order of its help.
pub(crate) fn explore_arguments() -> [Row; 13]
    ensures { map row_view result ≡ explore_arguments }
{
    [
        spec(),
        explain(),
        width(),
        ask(),
        streams(),
        workers(),
        beyond_width(),
        fail_on(),
        shown_never(),
        shown_always(),
        shown_sometimes(),
        notes(),
        link(),
    ]
}

/// What `test` takes, in the order of its help.
pub(crate) fn test_arguments() -> [Row; 13]
    ensures { map row_view result ≡ test_arguments }
{
    [
        runs(),
        explain(),
        width(),
        ask(),
        workers(),
        never(),
        always(),
        sometimes(),
        jobs(),
        pages(),
        test_format(),
        json_file(),
        junit_file(),
    ]
}

/// What `infer` takes, in the order of its help.
pub(crate) fn infer_arguments() -> [Row; 2]
    ensures { map row_view result ≡ infer_arguments }
{
    [streams(), explain()]
}

/// What `reduce` takes, in the order of its help.
pub(crate) fn reduce_arguments() -> [Row; 6]
    ensures { map row_view result ≡ reduce_arguments }
{
    [spec(), explain(), width(), ask(), streams(), to()]
}

/// What `batch` takes, in the order of its help.
pub(crate) fn batch_arguments() -> [Row; 8]
    ensures { map row_view result ≡ batch_arguments }
{
    [
        explain(),
        width(),
        ask(),
        workers(),
        beyond_width(),
        fail_on(),
        jobs(),
        bundles(),
    ]
}

/// What `bundle` takes, in the order of its help.
pub(crate) fn bundle_arguments() -> [Row; 2]
    ensures { map row_view result ≡ bundle_arguments }
{
    [runs(), explain()]
}

/// What `merge` takes, in the order of its help.
pub(crate) fn merge_arguments() -> [Row; 1]
    ensures { map row_view result ≡ merge_arguments }
{
    [explain()]
}
