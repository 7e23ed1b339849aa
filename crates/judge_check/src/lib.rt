//! What a check of a report finds.
//!
//! A report is held against what its session comes to: a refusal, or a computation with its messages. The finding is
//! the one that the definitions give: of a refused session whether the report is that refusal, and of a well-formed one
//! whether the counts are right and, for each predicate, whether the cut and the path that are printed are evidence.
//! Its text is exactly the definitions', and it is clean exactly if no line of that text says that something is bad, or
//! that the report isn't read. Nothing here calls a walk.
//!
//! - `finding`: what a check of a report finds
//! - `checked`: the verdicts on the answers for one predicate
//! - `verdict`: how one answer's evidence was found
//! - `claims`: how a report stands to the session that it is said to be of
//! - `evidence`: the verdicts on the evidence of a report's answers
//! - `finding_text`: the text of what a check finds
#![tactic(auto)]

mod checked;
mod claims;
mod evidence;
mod finding;
mod finding_text;
mod verdict;

pub use checked::Checked;
pub use claims::{find_formed, find_refused};
pub use evidence::path_of;
pub use finding::Finding;
pub use finding_text::text;
pub use verdict::Verdict;
