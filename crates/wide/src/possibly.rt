//! Whether some consistent cut satisfies, as far as it is decided whatever the width.
ghost use Rattle.def_wide.specs.Parts.{PartsDecide};
ghost use Rattle.wide.specs.Found.{IsPossible};
ghost use Rattle.pd_pred.specs.Views.{predicate_view};
ghost use Rattle.std.specs.Prelude.{IfOk, false};

use super::parts::{first_of_parts, parts_decide};
use pd_clock::Computation;
use pd_pred::Pred;
use std::alloc::{AllocError, Global};
use walk_back::PossiblyAnswer;
use wide_sums::{Verdict, verdict_by_sums};

/// Possibly's answer, if it is decided whatever the width, and whether only the first cut by height is left to be
/// found: sums decide the predicate, and some consistent cut satisfies it.
#[derive(Drop)]
pub(crate) struct Possible {
    pub(crate) answer: Option<PossiblyAnswer>,
    pub(crate) by_height: bool,
}

/// The answer for a predicate whose parts don't decide it: no, if sums decide it and no consistent cut satisfies.
fn possibly_by_sums(
    alloc: Global,
    computation: &Computation<'_>,
    pred: &Pred,
) -> Result<Possible, AllocError>
    requires { ¬ PartsDecide false computation.now (predicate_view pred.now) }
    ensures { IfOk result (IsPossible computation.now (predicate_view pred.now)) }
{
    let verdict = verdict_by_sums(alloc, computation, pred.tree())?;
    match verdict {
        Verdict::Unsatisfied => Ok(Possible {
            answer: Some(PossiblyAnswer::No),
            by_height: false,
        }),
        Verdict::Undecided => Ok(Possible {
            answer: None,
            by_height: false,
        }),
        Verdict::Satisfied => Ok(Possible {
            answer: None,
            by_height: true,
        }),
    }
}

/// Whether some consistent cut satisfies the predicate, with the first that does, whatever the width: by its parts, if
/// each of them names two processes or is one that its terms decide; and that none does also by sums. Else nothing. No
/// level is walked.
///
/// Source: Garg and Waldecker, Detection of Weak Unstable Predicates in Distributed Programs, 1994; Groselj, Bounded
/// and Minimum Global Snapshots, 1993.
///
/// # Errors
/// An allocation was refused.
pub(crate) fn possibly_decided(
    alloc: Global,
    computation: &Computation<'_>,
    pred: &Pred,
) -> Result<Possible, AllocError>
    ensures { IfOk result (IsPossible computation.now (predicate_view pred.now)) }
{
    let tree = pred.tree();
    if !parts_decide(computation, tree, false) {
        return possibly_by_sums(alloc, computation, pred);
    }
    let first = first_of_parts(alloc, computation, tree, false)?;
    match first {
        Some(cut) => Ok(Possible {
            answer: Some(PossiblyAnswer::Yes(cut)),
            by_height: false,
        }),
        None => Ok(Possible {
            answer: Some(PossiblyAnswer::No),
            by_height: false,
        }),
    }
}
