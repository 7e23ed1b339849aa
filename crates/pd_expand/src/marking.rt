//! Which cuts of a level satisfy a predicate.
ghost use Rattle.def_model.specs.Cuts.{IsConsistent};
ghost use Rattle.def_model.specs.Predicates.{test_of};
ghost use Rattle.pd_pred.specs.Views.{predicate_view};
ghost use Rattle.std.specs.Prelude.{◌≡◌, ◌<◌, All, IfOk, IfSome, length, map, slice_get};

use pd_clock::Computation;
use pd_level::Level;
use pd_pred::Pred;
use rayon::prelude::*;
use std::alloc::{AllocError, Global};
use std::thread::Threads;

/// Whether the predicate is true at the state of each of the level's cuts, in the order of the cuts. The cuts are
/// shared out to as many threads as there are processors.
///
/// # Errors
/// An allocation was refused.
pub fn marks<T: Threads + Sync>(
    rt: &T,
    alloc: Global,
    computation: &Computation<'_>,
    pred: &Pred,
    level: &Level,
) -> Result<Vec<bool>, AllocError>
    requires { All (IsConsistent computation.now.events) level.now.cuts }
    ensures { IfOk result (λ marks. marks.items
        ≡ map (test_of computation.now (predicate_view pred.now)) level.now.cuts) }
{
    (0..level.len())
        .into_par_iter()
        .map(
            |i: usize| -> bool
                requires { (i < length level.now.cuts) × All (IsConsistent computation.now.events) level.now.cuts }
                ensures { IfSome (slice_get level.entry.now.cuts i) (λ cut. result
                    ≡ test_of computation.entry.now (predicate_view pred.entry.now) cut) }
            { level.holds(computation, pred, i) },
        )
        .collect(rt, alloc)
}
