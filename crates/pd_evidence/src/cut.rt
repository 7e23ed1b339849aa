//! A cut as evidence that some cut satisfies.
ghost use Rattle.def_model.specs.Cuts.{FitsProcesses, IsConsistent};
ghost use Rattle.def_model.specs.Predicates.{test_of};
ghost use Rattle.pd_pred.specs.Views.{predicate_view};
ghost use Rattle.std.specs.Prelude.{◌≡◌, ◌↔◌, IsTrue, true};

use pd_clock::{Computation, Cut};
use pd_pred::Pred;

/// Whether the counts are those of a consistent cut that satisfies the predicate. Counts that don't fit the computation
/// are not. It takes no memory.
pub fn check_cut(computation: &Computation<'_>, pred: &Pred, cut: &Cut) -> bool
    ensures { IsTrue result ↔ (IsConsistent computation.now.events cut.now
        × (test_of computation.now (predicate_view pred.now) cut.now ≡ true)) }
{
    computation.consistent(cut) && satisfies(computation, pred, cut)
}

/// Whether the state at counts that fit satisfies.
pub(crate) fn satisfies(computation: &Computation<'_>, pred: &Pred, cut: &Cut) -> bool
    requires { FitsProcesses computation.now.events cut.now }
    ensures { result ≡ test_of computation.now (predicate_view pred.now) cut.now }
{
    let state = computation.at(cut);
    pred.holds(&state)
}
