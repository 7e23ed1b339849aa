//! The command line, from the arguments after the program's name to what they ask for, or to what the parser has to
//! say.
//!
//! `parse` takes the arguments by the kit's parser of command lines, and gives a request. What they ask for stands in
//! `specs/Arguments.antt`, how a request shows that in `specs/Views.antt`, and how a run may end in
//! `specs/Statuses.antt`.
//!
//! `FailOn` is the list of `--fail-on`: conditions as `possibly,safe:possibly-no`, each a kind of answer, of any
//! predicate or of the predicate of one name. It says of a report whether a condition is met, or names a predicate that
//! isn't there. What each condition asks for stands in `specs/Conditions.antt`.
//!
//! - `table`: the table of commands, with the arguments and options of each and their help texts
//! - `help`: what the help says, and what is wanted of arguments
//! - `commands`: the command line that the parser makes of the table
//! - `arguments`: what the arguments ask for, by what the parser finds in them
//! - `request`: what the program is asked for
//! - `place`: where connections are accepted
//! - `format`: the formats of a report
//! - `wishes`: what is wished of the predicates of recorded runs, by their names
//! - `workers`: how many workers share the work on a session
//! - `kind`: the kinds of answers
//! - `condition`: one condition
//! - `reason`: a condition, and an answer that meets it
//! - `fail_on`: a list of conditions
//! - `conclusion`: what a report comes to
#![tactic(auto)]

mod arguments;
mod commands;
mod conclusion;
mod condition;
mod fail_on;
mod format;
mod help;
mod kind;
mod place;
mod reason;
mod request;
mod table;
mod wishes;
mod workers;

pub use arguments::parse;
pub use commands::version_line;
pub use conclusion::Conclusion;
pub use fail_on::FailOn;
pub use format::Format;
pub use kind::Kind;
pub use place::Place;
pub use reason::Reason;
pub use request::{
    Admission, Batch, Judgement, PageOptions, Reduction, Request, Service, SessionNames, Test,
};
pub use table::TOKEN_LIMIT;
pub use workers::Workers;
