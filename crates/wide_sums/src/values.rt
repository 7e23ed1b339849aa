//! What each process adds to a sum, by the count of its events.
ghost use Rattle.def_wide.specs.Sums.{NameBelow};
ghost use Rattle.pd_pred.specs.Trees.{sum_view};
ghost use Rattle.wide_pairs.specs.Parts.{IsRowOf};
ghost use Rattle.wide_slice.specs.Values.{AreValues};
ghost use Rattle.wide_sums.specs.Unnamed.{NoneNames};
ghost use Rattle.wide_sums.specs.Values.{IsDifference};
ghost use Rattle.std.specs.Prelude.{◌<◌, IfOk, IsTrue, length, nat_eq};

use pd_clock::Computation;
use pd_pred::{Sum, Term};
use std::alloc::{AllocError, Global};
use wide_pairs::row_of;

/// Whether no term of the sum names the process.
fn names_none(sum: &Sum, process: usize) -> bool
    ensures { IsTrue result → NoneNames process (sum_view sum.now) }
{
    for signed in &sum.terms {
        match signed.term {
            Term::Number(_) => {}
            Term::Variable { process: named, .. } | Term::Times { process: named, .. } => {
                if named == process {
                    return false;
                }
            }
        }
    }
    true
}

/// The row of a process. It is empty if neither sum names the process, and the process isn't the first one, to whose
/// row the numbers among the terms are added.
fn row_at(
    alloc: Global,
    computation: &Computation<'_>,
    process: usize,
    left: &Sum,
    right: &Sum,
) -> Result<Vec<i128>, AllocError>
    requires { process < length computation.now.events }
    ensures { IfOk result (λ row. IsRowOf computation.now process (nat_eq process 0) (sum_view left.now)
        (sum_view right.now) row.items) }
{
    if process > 0 && names_none(left, process) && names_none(right, process) {
        return Ok(Vec::new(alloc));
    }
    Ok(row_of(alloc, computation, process, process == 0, left, right)?)
}

/// What each process adds to the left sum less what it adds to the right one, by the count of its events. The numbers
/// among the terms are taken in for the first process.
///
/// # Errors
/// An allocation was refused.
pub fn values_of(
    alloc: Global,
    computation: &Computation<'_>,
    left: &Sum,
    right: &Sum,
) -> Result<Vec<Vec<i128>>, AllocError>
    requires left { NameBelow (length computation.now.events) (sum_view left.now) }
    requires right { NameBelow (length computation.now.events) (sum_view right.now) }
    ensures are { IfOk result (λ values. AreValues computation.now.events values.items) }
    ensures sum { IfOk result (λ values. IsDifference computation.now (sum_view left.now) (sum_view right.now)
        values.items) }
{
    computation.limits();
    let mut values = Vec::with_capacity(alloc, computation.processes())?;
    for process in 0..computation.processes() {
        let row = row_at(alloc, computation, process, left, right)?;
        values.push(row)?;
    }
    Ok(values)
}
