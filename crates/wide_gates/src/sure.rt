//! Whether a predicate surely has a value right before and right after each event.
ghost use Rattle.def_wide.specs.Sums.{NameBelow, NamesNoOther};
ghost use Rattle.def_model.specs.Predicates.{And, Compare, Or};
ghost use Rattle.pd_pred.specs.Trees.{comparison_view, sum_view, tree_view};
ghost use Rattle.wide_gates.specs.Boxes.{HaveBoxes};
ghost use Rattle.wide_gates.specs.Excluded.{AreMostExcess, ExcludedBy};
ghost use Rattle.wide_gates.specs.Spots.{AreThere};
ghost use Rattle.wide_gates.specs.Sure.{AreExcluded, AreExcludedAs, AreJoined, AreWhere};
ghost use Rattle.std.specs.Prelude.{◌≡◌, Bool, IfOk, cond, length, not};

use super::boxes::Boxes;
use super::excluded::{excluding, is_excluded, is_of_above, is_of_below};
use super::flags::{all, both, either};
use super::greatest::greatest_sums;
use super::spot::Spot;
use pd_clock::Computation;
use pd_pred::{Comparison, Sum, Tree};
use std::alloc::{AllocError, Global};
use wide_sums::values_of;

/// By how much one sum is more than another at most at each spot.
fn greatest_excess(
    alloc: Global,
    computation: &Computation<'_>,
    spots: &[Spot],
    boxes: &Boxes,
    left: &Sum,
    right: &Sum,
) -> Result<Vec<i128>, AllocError>
    requires spots { AreThere computation.now.events spots.now }
    requires boxes { HaveBoxes computation.now.events spots.now (length spots.now) boxes.now.boxes.items
        boxes.now.numbers.items }
    requires left { NameBelow (length computation.now.events) (sum_view left.now) }
    requires right { NameBelow (length computation.now.events) (sum_view right.now) }
    ensures { IfOk result (λ sums. AreMostExcess computation.now spots.now (sum_view left.now) (sum_view right.now)
        sums.items) }
{
    let values = values_of(alloc, computation, left, right)?;
    let sums = greatest_sums(alloc, computation, spots, boxes, &values)?;
    Ok(sums)
}

/// Where the greatest excess excludes the comparison.
fn where_excluded(
    alloc: Global,
    comparison: Comparison,
    above: &[i128],
    below: &[i128],
) -> Result<Vec<bool>, AllocError>
    requires { length below.now ≡ length above.now }
    ensures { IfOk result (λ flags. AreExcluded (comparison_view comparison) above.now below.now flags.items) }
{
    let mut flags = Vec::with_capacity(alloc, above.len())?;
    for k in 0..above.len() {
        flags.push(is_excluded(comparison, above[k], below[k]))?;
    }
    Ok(flags)
}

/// Where a comparison is excluded. Only the excess that it asks for is computed.
fn where_excluded_as(
    alloc: Global,
    computation: &Computation<'_>,
    spots: &[Spot],
    boxes: &Boxes,
    left: &Sum,
    comparison: Comparison,
    right: &Sum,
) -> Result<Vec<bool>, AllocError>
    requires spots { AreThere computation.now.events spots.now }
    requires boxes { HaveBoxes computation.now.events spots.now (length spots.now) boxes.now.boxes.items
        boxes.now.numbers.items }
    requires left { NameBelow (length computation.now.events) (sum_view left.now) }
    requires right { NameBelow (length computation.now.events) (sum_view right.now) }
    ensures { IfOk result (λ flags. AreExcludedAs computation.now spots.now (comparison_view comparison)
        (sum_view left.now) (sum_view right.now) flags.items) }
{
    if is_of_below(comparison) {
        let below = greatest_excess(alloc, computation, spots, boxes, right, left)?;
        return Ok(where_excluded(alloc, comparison, &below, &below)?);
    }
    let above = greatest_excess(alloc, computation, spots, boxes, left, right)?;
    if is_of_above(comparison) {
        return Ok(where_excluded(alloc, comparison, &above, &above)?);
    }
    let below = greatest_excess(alloc, computation, spots, boxes, right, left)?;
    Ok(where_excluded(alloc, comparison, &above, &below)?)
}

/// Where both lists have `true` if `all`, and else where one of them has it.
fn joined(alloc: Global, all: bool, left: &[bool], right: &[bool]) -> Result<Vec<bool>, AllocError>
    requires { length right.now ≡ length left.now }
    ensures { IfOk result (λ flags. AreJoined all left.now right.now flags.items) }
{
    if all {
        return Ok(both(alloc, left, right)?);
    }
    Ok(either(alloc, left, right)?)
}

/// Where the predicate surely has the value.
///
/// # Errors
/// An allocation was refused.
pub(crate) fn where_surely(
    alloc: Global,
    computation: &Computation<'_>,
    spots: &[Spot],
    boxes: &Boxes,
    tree: &Tree,
    value: bool,
) -> Result<Vec<bool>, AllocError>
    requires spots { AreThere computation.now.events spots.now }
    requires boxes { HaveBoxes computation.now.events spots.now (length spots.now) boxes.now.boxes.items
        boxes.now.numbers.items }
    requires names { NamesNoOther (length computation.now.events) (tree_view tree.now) }
    ensures { IfOk result (λ flags. AreWhere value computation.now spots.now (tree_view tree.now) flags.items) }
{
    match tree {
        Tree::Always => Ok(all(alloc, value, spots.len())?),
        Tree::Never => Ok(all(alloc, !value, spots.len())?),
        Tree::Compare {
            left,
            comparison,
            right,
        } => {
            let by = excluding(*comparison, value);
            Ok(where_excluded_as(alloc, computation, spots, boxes, left, by, right)?)
        }
        Tree::Not(inner) => Ok(where_surely(alloc, computation, spots, boxes, inner, !value)?),
        Tree::And(left, right) => {
            let first = where_surely(alloc, computation, spots, boxes, left, value)?;
            let second = where_surely(alloc, computation, spots, boxes, right, value)?;
            Ok(joined(alloc, value, &first, &second)?)
        }
        Tree::Or(left, right) => {
            let first = where_surely(alloc, computation, spots, boxes, left, value)?;
            let second = where_surely(alloc, computation, spots, boxes, right, value)?;
            Ok(joined(alloc, !value, &first, &second)?)
        }
    }
}
