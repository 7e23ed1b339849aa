//! What a run of the program stands on, and the files of a session: opened, read, judged and checked.
//!
//! `World` is made once, by the function that runs the program, and handed on. What files and connections give is known
//! by the clauses of `FileSource` and `Network`; of the system's own nothing is known. What each exit status says
//! stands in `app_arguments/specs/Statuses.antt`, and how faults and results are ends of a run in `specs/Faults.antt`.
//!
//! - `world`: what a run stands on
//! - `file_source`: where files are read
//! - `network`: where connections come from
//! - `addresses`: the addresses to which ports belong
//! - `note`, `notes`, `noted_source`: what is read, for an explanation
//! - `level_gate`: the gate of a walk over a session in files
//! - `line`: writes a line to the errors
//! - `flushed_output`: writes a text and flushes the output
//! - `status`: exit statuses, and the lines that report faults
//! - `replaced_file`: writes a file whole or not at all
//! - `session_files`: opens and reads the files of a session
//! - `claim_files`: the files of a report and of the session that it is said to be of
//! - `named`: looks up the predicates that conditions name
//! - `judgements`: judges the session in files
//! - `checks`: checks a report against the session in files
#![tactic(auto)]

mod addresses;
mod checks;
mod claim_files;
mod file_source;
mod flushed_output;
mod judgements;
mod level_gate;
mod line;
mod named;
mod network;
mod note;
mod noted_source;
mod notes;
mod replaced_file;
mod session_files;
mod status;
mod world;

pub use addresses::{is_loopback, port_of_address};
pub use checks::{check_files, check_seen};
pub use claim_files::read_claim;
pub use file_source::FileSource;
pub use flushed_output::write_flushed;
pub use judgements::judge_files;
pub use level_gate::LevelGate;
pub use line::write_line;
pub use named::{has_named, is_out_of_memory};
pub use network::Network;
pub use note::Note;
pub use noted_source::NotedSource;
pub use notes::Notes;
pub use replaced_file::replace_file;
pub use session_files::{open_noted, read_document, read_session};
pub use status::{
    ALARMED, FAILED, MISUSED, REFUSED, SUCCESS, conclusion_status, report_bundle, report_end,
    report_fault, report_judgement, report_no_predicate,
};
pub use world::{System, World};
