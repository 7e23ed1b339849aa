//! What the program is asked for.

use super::fail_on::FailOn;
use super::format::Format;
use super::place::Place;
use super::workers::Workers;
use judge_runs::Wish;
use out_picture::DrawOptions;
use pd_spec::Options;

/// The names of the files of a session, and what is asked of it.
#[derive(Drop)]
pub struct SessionNames<'a> {
    /// Of the session document.
    pub spec: &'a str,
    /// Of the streams of events, in their order.
    pub streams: Vec<&'a str>,
    /// What is asked beside the document.
    pub options: Options<'a>,
    /// Of files of notes on events, in their order, of which an explanation or a picture says what they say.
    pub notes: Vec<&'a str>,
}

/// What a judgement of files is asked for, whether its report is written or the page on which its run is explored.
#[derive(Drop)]
pub struct Judgement<'a> {
    /// The names of the session's files.
    pub names: SessionNames<'a>,
    /// The answers to fail on.
    pub fail_on: FailOn<'a>,
    /// How many workers share the work.
    pub workers: Workers,
}

/// What is asked of a page on which a run is explored.
#[derive(Drop)]
pub struct PageOptions<'a> {
    /// What is wished of the predicates.
    pub wishes: Vec<Wish<'a>>,
    /// The names of the files of notes on events, in their order.
    pub notes: Vec<&'a str>,
    /// The pattern of a link to where an event stands in a source.
    pub link: Option<&'a str>,
}

/// Which connections are streams of a server.
#[derive(Clone, Copy)]
pub struct Admission<'a> {
    /// Whether a connection is a stream only once its first line joins a process that has none.
    pub join_first: bool,
    /// The line that has to come before that one.
    pub token: Option<&'a str>,
    /// The name of the file whose first line is that line.
    pub token_file: Option<&'a str>,
    /// After how many seconds, from 1 to 86,400, a stream ends that says nothing.
    pub idle: Option<u64>,
}

impl Admission<'_> {
    /// Whether a connection has to say something before it is a stream.
    pub fn asks(&self) -> bool {
        self.join_first || self.has_token()
    }

    /// Whether a token has to be said.
    pub fn has_token(&self) -> bool {
        self.token.is_some() || self.token_file.is_some()
    }
}

/// What a server is asked for.
#[derive(Drop)]
pub struct Service<'a> {
    /// The name of the session document's file.
    pub spec: &'a str,
    /// What is asked beside the document.
    pub options: Options<'a>,
    /// Where the streams are accepted: a port is at most 65,534.
    pub place: Place<'a>,
    /// The name of the file in which the port is named, if it is.
    pub port_file: Option<&'a str>,
    /// How many watchers are accepted beside it, at most 64.
    pub watchers: u64,
    /// How many seconds the streams are waited for, from 1 to 86,400, if that has an end.
    pub wait: Option<u64>,
    /// Which connections are streams.
    pub admission: Admission<'a>,
    /// The name of the folder in which the session is kept, if it is.
    pub keep: Option<&'a str>,
    /// The answers to fail on.
    pub fail_on: FailOn<'a>,
    /// The format of the report.
    pub format: Format,
    /// How many workers share the work.
    pub workers: Workers,
}

/// What a test of recorded runs is asked for.
#[derive(Drop)]
pub struct Test<'a> {
    /// The names of the runs' folders, in their order.
    pub runs: Vec<&'a str>,
    /// What is asked beside each document.
    pub options: Options<'a>,
    /// What is wished of the predicates.
    pub wishes: Vec<Wish<'a>>,
    /// The format of what is written of the runs.
    pub format: Format,
    /// How many workers share the work on one run.
    pub workers: Workers,
    /// How many runs are judged side by side.
    pub jobs: Workers,
    /// The name of the folder for the pages of runs that fail, if there is one.
    pub pages: Option<&'a str>,
    /// The name of the file for what came of the runs as JSON, if there is one.
    pub json: Option<&'a str>,
    /// The name of the file for what came of the runs as JUnit's XML, if there is one.
    pub junit: Option<&'a str>,
}

/// What the reduction of a recorded run is asked for.
#[derive(Drop)]
pub struct Reduction<'a> {
    /// The names of the run's files.
    pub names: SessionNames<'a>,
    /// The name of the folder for the session that is made.
    pub folder: &'a str,
}

/// What a judgement of sessions in lines, or in bundles, is asked for.
#[derive(Drop)]
pub struct Batch<'a> {
    /// What is asked beside each document.
    pub options: Options<'a>,
    /// The answers to fail on.
    pub fail_on: FailOn<'a>,
    /// How many workers share the work on one session.
    pub workers: Workers,
    /// How many sessions are judged side by side.
    pub jobs: Workers,
    /// Whether the sessions come in bundles, and not in lines.
    pub in_bundles: bool,
}

/// What the program is asked for.
#[derive(Drop)]
pub enum Request<'a> {
    /// To judge the bundle on the input.
    Bundle,
    /// To judge a session document and streams, and write the report in this format.
    Judge(Judgement<'a>, Format),
    /// To check the report in the file of this name against a session document and streams, and write what is found in
    /// this format.
    Check(&'a str, SessionNames<'a>, Format),
    /// To draw a session document and streams, as it is asked for. Before the streams a report may be named; of what
    /// else the run is judged first.
    Draw(DrawOptions<'a>, SessionNames<'a>),
    /// To judge a session document and streams that come by connections.
    Serve(Service<'a>),
    /// To judge a session document and streams, and write the page on which their run is explored, as it is asked for.
    Explore(Judgement<'a>, PageOptions<'a>),
    /// To judge recorded runs, and fail on those that aren't as wished.
    Test(Test<'a>),
    /// To write the first session document of the streams in the files of these names.
    Infer(Vec<&'a str>),
    /// To write a session that has the answers of a recorded run.
    Reduce(Reduction<'a>),
    /// To judge the sessions in the lines of the input, or in its bundles.
    Batch(Batch<'a>),
    /// To write the recorded runs in the folders of these names as sessions in lines.
    BundleRuns(Vec<&'a str>),
    /// To write the summary of the answers and the summaries in the lines of the input.
    Merge,
}
