//! Where a comparison holds.
ghost use Rattle.def_model.specs.Cuts.{FitsProcesses, empty_cut};
ghost use Rattle.def_model.specs.Events.{event_count};
ghost use Rattle.def_model.specs.Predicates.{test_of};
ghost use Rattle.pd_pred.specs.Trees.{sum_view, tree_view};
ghost use Rattle.def_model.specs.Decided.{NameAlone, NameOne};
ghost use Rattle.wide_terms.specs.Changes.{DependsOnVars};
ghost use Rattle.wide_terms.specs.Locals.{IsComparisonOf};
ghost use Rattle.wide_terms.specs.Rows.{DependsOn, IsRowOf, turned};
ghost use Rattle.std.specs.Prelude.{◌≡◌, ◌⊎◌, ◌<◌, ◌≤◌, ℕ, IfOk, length, slice_index};

use super::changes::{named_vars, next_change};
use super::local::first_of_both;
use super::truths::{no_truths, put_run};
use pd_clock::{Computation, Cut};
use pd_pred::{Sum, Tree};
use std::alloc::{AllocError, Global};
use walk_keys::bits::BITS;

/// Where a comparison holds, by how many events of one process have happened.
#[derive(Drop)]
pub(crate) struct TruthRow {
    pub(crate) process: usize,
    pub(crate) words: Vec<u64>,
}

/// The process on whose count a comparison depends: the one that it names, or the first if it names none that is there.
fn process_of(computation: &Computation<'_>, left: &Sum, right: &Sum) -> usize
    requires { NameOne (sum_view left.now) (sum_view right.now) }
    ensures within { result < length computation.now.events }
    ensures alone { (p : ℕ) × NameAlone p (sum_view left.now) × NameAlone p (sum_view right.now)
        × ((p ≡ result) ⊎ (length computation.now.events ≤ p)) }
{
    computation.limits();
    match first_of_both(left, right) {
        Some(process) => {
            if process < computation.processes() {
                process
            } else {
                0
            }
        }
        None => 0,
    }
}

/// A count of no event for each process: the empty cut.
///
/// # Errors
/// An allocation was refused.
pub fn zeros(alloc: Global, computation: &Computation<'_>) -> Result<Vec<u64>, AllocError>
    ensures { IfOk result (λ counts. counts.items ≡ empty_cut computation.now.events) }
{
    vec![in alloc; 0; computation.processes()]
}

/// Whether the predicate, or its opposite where `negated`, holds at a cut.
fn holds(computation: &Computation<'_>, tree: &Tree, cut: &Cut, negated: bool) -> bool
    requires { FitsProcesses computation.now.events cut.now }
    ensures { result ≡ turned negated (test_of computation.now (tree_view tree.now) cut.now) }
{
    tree.holds(&computation.at(cut)) != negated
}

/// Whether the predicate, or its opposite where `negated`, holds at the cut of these counts, with this one for a
/// process.
fn truth_with(
    alloc: Global,
    computation: &Computation<'_>,
    tree: &Tree,
    negated: bool,
    counts: &mut [u64],
    process: usize,
    count: u64,
) -> Result<bool, AllocError>
    requires within { process < length computation.now.events }
    requires fits { FitsProcesses computation.now.events counts.old }
    requires there { count ≤ event_count computation.now.events process }
    ensures truth { IfOk result (λ truth. truth
        ≡ turned negated (test_of computation.now (tree_view tree.now) counts.new)) }
    ensures fits { FitsProcesses computation.now.events counts.new }
    ensures at { slice_index counts.new process ≡ count }
{
    counts[process] = count;
    let cut = Cut::new(alloc, counts)?;
    Ok(holds(computation, tree, &cut, negated))
}

/// Where a predicate holds that depends on the count of this process alone, or where it doesn't if `negated`. It stays
/// as it is as long as these variables of the process do, so it is looked at once for each time that they change.
///
/// # Errors
/// An allocation was refused.
pub(crate) fn row_by(
    alloc: Global,
    computation: &Computation<'_>,
    tree: &Tree,
    vars: &[usize],
    process: usize,
    negated: bool,
) -> Result<TruthRow, AllocError>
    requires within { process < length computation.now.events }
    requires depends { DependsOn computation.now (tree_view tree.now) process }
    requires vars { DependsOnVars computation.now (tree_view tree.now) process vars.now }
    ensures { IfOk result (IsRowOf computation.now negated (tree_view tree.now)) }
{
    computation.limits();
    let mut counts = zeros(alloc, computation)?;
    let end = computation.events(process) + 1;
    let mut words = no_truths(alloc, (end / BITS) as usize + 1)?;
    let mut from = 0;
    while from < end {
        let to = next_change(computation, vars, process, from, end);
        let truth = truth_with(
            alloc,
            computation,
            tree,
            negated,
            &mut counts,
            process,
            from,
        )?;
        put_run(&mut words, from, to, truth);
        from = to;
    }
    Ok(TruthRow { process, words })
}

/// Where a comparison holds that names one process at most, or where it doesn't if `negated`. The sums are those of the
/// comparison.
///
/// # Errors
/// An allocation was refused.
pub(crate) fn row_of(
    alloc: Global,
    computation: &Computation<'_>,
    tree: &Tree,
    left: &Sum,
    right: &Sum,
    negated: bool,
) -> Result<TruthRow, AllocError>
    requires sums { IsComparisonOf (tree_view tree.now) (sum_view left.now) (sum_view right.now) }
    requires local { NameOne (sum_view left.now) (sum_view right.now) }
    ensures { IfOk result (IsRowOf computation.now negated (tree_view tree.now)) }
{
    let process = process_of(computation, left, right);
    let vars = named_vars(alloc, left, right)?;
    row_by(alloc, computation, tree, &vars, process, negated)
}
