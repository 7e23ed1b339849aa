//! Reductions of runs: a run is made of the events of another one that its document's predicates see, and has its
//! answers.
//!
//! - `ids`: the ids of messages
//! - `settings`: what the image of a kept event sets
//! - `receipts`: the receipts before the image of a kept event
//! - `images`: the events of a process
//! - `reduced`: the reduction of a run
//! - `computations`: the computation of a reduction
#![tactic(auto)]

ghost use Rattle.judge_reduced.specs.Bounds.{DocumentsNameTheirVars, FewEventsFewKept};
ghost use Rattle.judge_reduced.specs.Laws.{DefinitelyOfReducedRun, PossiblyOfReducedRun};

mod computations;
mod ids;
mod images;
mod receipts;
mod reduced;
mod settings;

pub use computations::traces_computation;
pub use reduced::reduced_run;

/// A reduction has the answers of the run for each predicate of the document. It has no code.
pub fn answers()
    ensures possibly { PossiblyOfReducedRun }
    ensures definitely { DefinitelyOfReducedRun }
{}

/// What makes that there is a reduction: that predicates name variables of the document, and that few events are kept.
/// It has no code.
pub fn bounds()
    ensures vars { DocumentsNameTheirVars }
    ensures few { FewEventsFewKept }
{}
