//! Shows on a terminal how far the files of a session are read, and then how far they are judged; and ends the waiting
//! for a run whose time is over.
//!
//! - `progress`: how far a run has come, and whether it or who ends it may write
//! - `screen`: the line of a terminal that is written over
//! - `shown_file`: a file that is shown while it is read
//! - `shown_files`: files that are shown while they are read
//! - `cleared`: a place to write to, beside which no such line stands
//! - `timed_run`: a run that is waited for no longer than its time
//! - `time_over`: what is reported of a run that is ended because its time is over
#![tactic(auto)]

mod cleared;
mod progress;
mod screen;
mod shown_file;
mod shown_files;
mod time_over;
mod timed_run;

pub use cleared::Cleared;
pub use progress::Progress;
pub use screen::Screen;
pub use shown_file::ShownFile;
pub use shown_files::ShownFiles;
pub use time_over::Limited;
pub use timed_run::TimedRun;
