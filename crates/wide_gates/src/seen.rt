//! The first of the cuts that were looked at.
ghost use Rattle.def_format.specs.Limits.{event_limit, process_limit};
ghost use Rattle.def_model.specs.Cuts.{FitsProcesses};
ghost use Rattle.def_model.specs.Predicates.{test_of};
ghost use Rattle.pd_pred.specs.Views.{predicate_view};
ghost use Rattle.wide_conjunctions.specs.CutOrder.{ComesBefore};
ghost use Rattle.wide_gates.specs.Seen.{AfterBest, IsFirstSeen, IsGood};
ghost use Rattle.std.specs.Prelude.{◌≡◌, ◌↔◌, IfSome, IsTrue, List, ℕ};

use pd_clock::{Computation, Cut};
use pd_pred::Pred;
use wide_conjunctions::is_before;

/// Whether the state at counts that fit satisfies the predicate.
fn satisfies(computation: &Computation<'_>, pred: &Pred, cut: &Cut) -> bool
    requires { FitsProcesses computation.now.events cut.now }
    ensures { result ≡ test_of computation.now (predicate_view pred.now) cut.now }
{
    let state = computation.at(cut);
    pred.holds(&state)
}

/// Whether counts that fit are those of a consistent cut that satisfies the predicate.
fn is_good(computation: &Computation<'_>, pred: &Pred, cut: &Cut) -> bool
    requires { FitsProcesses computation.now.events cut.now }
    ensures { IsTrue result ↔ IsGood computation.now (predicate_view pred.now) cut.now }
{
    satisfies(computation, pred, cut) && computation.consistent(cut)
}

/// Whether counts that fit come before the best ones, if there are any.
fn is_before_best(computation: &Computation<'_>, best: &Option<Cut>, cut: &Cut) -> bool
    requires cut { FitsProcesses computation.now.events cut.now }
    requires best { IfSome best.now (FitsProcesses computation.now.events) }
    ensures { IsTrue result ↔ IfSome best.now (ComesBefore cut.now) }
{
    computation.total();
    match best {
        Some(least) => is_before(cut, least),
        None => true,
    }
}

/// The first of a cut and the best one before it, if the cut is consistent and satisfies.
pub(crate) fn better(
    computation: &Computation<'_>,
    pred: &Pred,
    best: Option<Cut>,
    cut: Cut,
) -> Option<Cut>
    requires { IfSome best (IsGood computation.now (predicate_view pred.now)) }
    ensures { IsFirstSeen computation.now (predicate_view pred.now)
        (AfterBest best (λ (other : List ℕ). other ≡ cut)) result }
{
    if !computation.fits(&cut) {
        return best;
    }
    if !is_before_best(computation, &best, &cut) {
        return best;
    }
    if !is_good(computation, pred, &cut) {
        return best;
    }
    Some(cut)
}
