//! What gates and the search back from the full cut find of Definitely.
ghost use Rattle.def_wide.specs.Decided.{IsDefinitelyDecided};
ghost use Rattle.def_wide.specs.Gates.{IsLeastGate};
ghost use Rattle.wide.specs.Found.{FindsDefinitely, IsDefinite};
ghost use Rattle.pd_pred.specs.Views.{predicate_view};
ghost use Rattle.std.specs.Prelude.{IfOk, ℕ};

use pd_clock::Computation;
use pd_pred::Pred;
use std::alloc::{AllocError, Global};
use walk_back::DefinitelyAnswer;
use wide_back::{Way, way_back};
use wide_gates::least_gate;

/// Definitely's answer, if it is final whatever the levels are; and if it isn't, the level of a yes where the levels
/// under a width leave it unknown, if there is one.
#[derive(Drop)]
pub(crate) struct Definite {
    pub(crate) answer: Option<DefinitelyAnswer>,
    pub(crate) late: Option<u64>,
}

/// What the search back finds of a predicate without a gate, with no more dead ends than the width.
fn search_back(
    alloc: Global,
    computation: &Computation<'_>,
    pred: &Pred,
    width: u64,
) -> Result<Definite, AllocError>
    requires undecided { ¬ IsDefinitelyDecided computation.now (predicate_view pred.now) }
    requires no_gate { (level : ℕ) → ¬ IsLeastGate computation.now (predicate_view pred.now) level }
    ensures { IfOk result (IsDefinite computation.now (predicate_view pred.now) width) }
{
    let way = way_back(alloc, computation, pred, width)?;
    match way {
        Way::Avoided(path) => Ok(Definite {
            answer: Some(DefinitelyAnswer::No(path)),
            late: None,
        }),
        Way::Passed => Ok(Definite {
            answer: None,
            late: Some(computation.total()),
        }),
        Way::Undecided => Ok(Definite {
            answer: None,
            late: None,
        }),
    }
}

/// What is found of a predicate that isn't decided: its least gate, which takes less time, or else what the search back
/// finds. With a gate no observation avoids, so the search would find no path.
fn gate_or_back(
    alloc: Global,
    computation: &Computation<'_>,
    pred: &Pred,
    width: u64,
) -> Result<Definite, AllocError>
    requires { ¬ IsDefinitelyDecided computation.now (predicate_view pred.now) }
    ensures { IfOk result (IsDefinite computation.now (predicate_view pred.now) width) }
{
    computation.limits();
    let gate = least_gate(alloc, computation, pred.tree())?;
    match gate {
        Some(level) => Ok(Definite {
            answer: None,
            late: Some(level),
        }),
        None => search_back(alloc, computation, pred, width),
    }
}

/// The answer that is decided, if there is one, or else what a gate or the search back tells.
///
/// # Errors
/// An allocation was refused.
pub(crate) fn decided_or_back(
    alloc: Global,
    computation: &Computation<'_>,
    pred: &Pred,
    width: u64,
    decided: Option<DefinitelyAnswer>,
) -> Result<Definite, AllocError>
    requires { FindsDefinitely computation.now (predicate_view pred.now) decided }
    ensures { IfOk result (IsDefinite computation.now (predicate_view pred.now) width) }
{
    match decided {
        Some(answer) => Ok(Definite {
            answer: Some(answer),
            late: None,
        }),
        None => gate_or_back(alloc, computation, pred, width),
    }
}
