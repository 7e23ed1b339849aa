//! The program's edge: its arguments, its streams and files, and its exit status.
//!
//! With no argument beyond the program's name a bundle is read from the input, judged, and its report written to the
//! output. If the status is 0 or 1, what was written is the text of the report that the input's bytes make: judged at
//! 0, refused at 1. Further arguments go to the command line's parser (`app_arguments`). `judge` with the names of
//! files does the same with a session document and streams that stand in files. `check` with the names of files checks
//! a report's evidence: at status 0 nothing that it found is bad, and at 1 something is. `draw` with the names of files
//! draws a report, or without one the report that is due: at status 0 the picture is written, and at 1 something that a
//! check finds stands against it, or the session is refused. `infer` with the names of streams writes their first
//! document: at status 0 it is written, and at 1 a stream is refused. `serve` with a port judges streams that come by
//! connections to that port. `explore` with the names of files judges as `judge` does: at status 0 the page is written
//! on which the run is explored, and at 1 the page of a refusal. Whatever fails is reported in one line on the errors,
//! after an explanation if one is wanted. What each status says stands in `app_draw/specs/Drawings.antt` for `draw`,
//! in `app_explore/specs/Explorations.antt` for `explore`, and for the others in
//! `app_arguments/specs/Statuses.antt`.
//!
//! - `program`: one run of the program, from its arguments to its exit status
//! - `parser_error`: reports what the command line's parser has to say
//! - `bundle`: judges the bundle on the input
//! - `explained_services`: explains how a server's run ended
//! - `explaining`: whether the arguments ask for explanations
//! - `time_limit`: how many seconds a run may take, by the arguments
//! - `explanation`: writes an explanation to the errors
#![tactic(auto)]

mod bundle;
mod explained_services;
mod explaining;
mod explanation;
mod parser_error;
mod program;
mod time_limit;

pub use app_arguments::Place;
pub use app_host::{FileSource, Network};
pub use explaining::without_explain;
pub use parser_error::report_unread_arguments;
pub use program::run;
pub use time_limit::{TimeFault, without_max_time};
