//! Whether events change a sum by small steps.
ghost use Rattle.def_format.specs.Limits.{event_limit, process_limit};
ghost use Rattle.def_model.specs.Cuts.{FitsProcesses, empty_cut};
ghost use Rattle.def_model.specs.Events.{event_count};
ghost use Rattle.def_model.specs.Predicates.{Sign, Term};
ghost use Rattle.def_wide.specs.Sums.{IsBySmallSteps, RisesByOne, excess as excess_of};
ghost use Rattle.wide_slice.specs.Values.{AreValues, number_at, value_limit, value_of};
ghost use Rattle.wide_sums.specs.Excesses.{IsExcess};
ghost use Rattle.wide_sums.specs.Literals.{literal_view};
ghost use Rattle.wide_sums.specs.SmallSteps.{RowRises};
ghost use Rattle.wide_sums.specs.Values.{IsDifference};
ghost use Rattle.std.specs.Prelude.{◌≡◌, ◌+◌, ◌<◌, ◌≤◌, ◌+ℤ◌, ◌≤ℤ◌, ◌↔◌, ℕ, IfOk, IsTrue, List, length, pos, unsigned_abs};

use super::excess::Excess;
use super::literal::Literal;
use pd_clock::Computation;
use std::alloc::{AllocError, Global};
use wide_reach::{number, sum_of};
use wide_terms::zeros;

/// Whether no event of a process adds more than 1 to what it adds before, of this many events.
fn row_rises_by_one(row: &[i128], events: u64) -> bool
    requires few { events ≤ event_limit }
    requires small { (count : ℕ) → unsigned_abs (number_at row.now count) ≤ value_limit }
    ensures { IsTrue result ↔ ((count : ℕ) → count < events
        → number_at row.now (count + 1) ≤ℤ (number_at row.now count +ℤ pos 1)) }
{
    for count in 0..events {
        if number(row, count + 1) > number(row, count) + 1 {
            return false;
        }
    }
    true
}

/// Whether no event of process `p` adds more than 1.
fn process_rises_by_one(computation: &Computation<'_>, values: &[Vec<i128>], p: usize) -> bool
    requires values { AreValues computation.now.events values.now }
    requires there { p < length values.now }
    ensures { IsTrue result ↔ RowRises computation.now.events values.now p }
{
    computation.limits();
    row_rises_by_one(&values[p], computation.events(p))
}

/// Whether no event adds more than 1 to a difference of sums.
fn rises_by_one(computation: &Computation<'_>, values: &[Vec<i128>]) -> bool
    requires { AreValues computation.now.events values.now }
    ensures { (left right : List (Sign × Term)) → IsDifference computation.now left right values.now
        → IsTrue result ↔ RisesByOne computation.now left right }
{
    for p in 0..values.len() {
        if !process_rises_by_one(computation, values, p) {
            return false;
        }
    }
    true
}

/// By how much the left sum of a comparison is more than the right one at these counts. The comparison is there for the
/// contract alone.
pub(crate) fn excess_at(
    computation: &Computation<'_>,
    _literal: &Literal<'_>,
    excess: &Excess,
    counts: &[u64],
) -> i128
    requires excess { IsExcess computation.now (literal_view _literal.now) excess.now }
    requires fits { FitsProcesses computation.now.events counts.now }
    ensures { result ≡ excess_of computation.now (literal_view _literal.now) counts.now }
{
    computation.limits();
    sum_of(&excess.above, counts)
}

/// Whether no event can take the excess of a comparison's sums past 0 from what it is at the empty cut.
fn stops_at_zero(
    computation: &Computation<'_>,
    _literal: &Literal<'_>,
    excess: &Excess,
    first: i128,
) -> bool
    requires excess { IsExcess computation.now (literal_view _literal.now) excess.now }
    requires first { first
        ≡ excess_of computation.now (literal_view _literal.now) (empty_cut computation.now.events) }
    ensures { IsTrue result ↔ IsBySmallSteps computation.now (literal_view _literal.now) }
{
    if first < 0 {
        return rises_by_one(computation, &excess.above);
    }
    if first > 0 {
        return rises_by_one(computation, &excess.below);
    }
    false
}

/// Whether no event can take the excess of a comparison's sums past 0, from the empty cut on.
///
/// # Errors
/// An allocation was refused.
pub(crate) fn is_by_small_steps(
    alloc: Global,
    computation: &Computation<'_>,
    literal: &Literal<'_>,
    excess: &Excess,
) -> Result<bool, AllocError>
    requires { IsExcess computation.now (literal_view literal.now) excess.now }
    ensures { IfOk result (λ found. IsTrue found ↔ IsBySmallSteps computation.now (literal_view literal.now)) }
{
    let counts = zeros(alloc, computation)?;
    let first = excess_at(computation, literal, excess, &counts);
    Ok(stops_at_zero(computation, literal, excess, first))
}
