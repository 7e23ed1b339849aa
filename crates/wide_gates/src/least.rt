//! The least level of a gate.
ghost use Rattle.def_wide.specs.Gates.{IsLeastGate};
ghost use Rattle.pd_pred.specs.Trees.{tree_view};
ghost use Rattle.wide_gates.specs.Least.{IsLeastFlagged, NoneFlagged, lesser_of};
ghost use Rattle.std.specs.Prelude.{◌≡◌, ℕ, IfOk, MatchOption, length};

use super::boxes::all_boxes;
use super::levels::levels_at;
use super::spot::all_spots;
use super::sure::where_surely;
use pd_clock::Computation;
use pd_pred::Tree;
use std::alloc::{AllocError, Global};
use wide_sums::names_no_other;

/// The lesser of a number and the least before it, if there is one.
fn lesser(least: Option<u64>, number: u64) -> u64
    ensures { result ≡ lesser_of least number }
{
    match least {
        Some(least) if least < number => least,
        _ => number,
    }
}

/// The least of the numbers whose flag is `true`, if there is one.
fn least_flagged(numbers: &[u64], flags: &[bool]) -> Option<u64>
    requires { length numbers.now ≡ length flags.now }
    ensures { MatchOption result (NoneFlagged flags.now (length flags.now))
        (IsLeastFlagged numbers.now flags.now (length flags.now)) }
{
    let mut least = None;
    for k in 0..flags.len() {
        if flags[k] {
            least = Some(lesser(least, numbers[k]));
        }
    }
    least
}

/// The least level of a gate of the predicate: the greatest number of events that counts have right before or right
/// after an event, if the predicate surely holds at all of these, as its comparisons tell, each by itself. There is
/// none if there is no gate, or the predicate names a process that isn't there.
///
/// It takes some steps for each event and comparison, and some for each process and event that a message leaves or
/// reaches. It keeps about 150 bytes for each event, a hundred more for each that a message leaves or reaches, and two
/// more for each level of parentheses; and for the events of one process at a time, whose numbers fall in a comparison,
/// some 16 for each of them and each bit of their number.
///
/// # Errors
/// An allocation was refused.
pub fn least_gate(
    alloc: Global,
    computation: &Computation<'_>,
    tree: &Tree,
) -> Result<Option<u64>, AllocError>
    ensures { IfOk result (λ found. MatchOption found
        ((level : ℕ) → ¬ IsLeastGate computation.now (tree_view tree.now) level)
        (IsLeastGate computation.now (tree_view tree.now))) }
{
    if !names_no_other(computation.processes(), tree) {
        return Ok(None);
    }
    let spots = all_spots(alloc, computation)?;
    let boxes = all_boxes(alloc, computation, &spots)?;
    let sure = where_surely(alloc, computation, &spots, &boxes, tree, true)?;
    let levels = levels_at(alloc, computation, &spots, &boxes)?;
    Ok(least_flagged(&levels, &sure))
}
