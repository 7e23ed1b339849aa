//! Predicates that are an `or` of comparisons, of which no level has to be walked for Definitely.
ghost use Rattle.pd_pred.specs.Trees.{tree_view};
ghost use Rattle.pd_pred.specs.Views.{predicate_view};
ghost use Rattle.def_model.specs.Decided.{IsLocal, IsOr};
ghost use Rattle.wide_terms.specs.Ors.{IsRightByClause, MakesRows, row_good};
ghost use Rattle.std.specs.Prelude.{◌≡◌, ◌↔◌, IfOk, IsTrue};

use super::local::is_local;
use super::row::{TruthRow, row_by, row_of};
use super::truths::truth_at;
use pd_clock::Computation;
use pd_pred::{Pred, Tree};
use std::alloc::{AllocError, Global};
use wide_conjunctions::{GoodCounts, free_level};

/// Whether every observation passes through a satisfying cut, as far as a clause decides it.
#[derive(Drop)]
pub enum ByClause {
    /// Each one does. The level of this many events is the least that has no avoiding cut.
    Passed(u64),
    /// No consistent cut satisfies.
    Unsatisfied,
    /// A comparison speaks of several processes, or the predicate isn't an `or` of comparisons.
    Undecided,
}

/// The comparisons of which one has to hold.
#[derive(Drop)]
pub(crate) struct Clause {
    pub(crate) rows: Vec<TruthRow>,
}

/// Whether a comparison speaks of this process, and holds at this count of it.
fn is_row_good(row: &TruthRow, process: usize, count: u64) -> bool
    ensures { result ≡ row_good row.now process count }
{
    if row.process != process {
        return false;
    }
    truth_at(&row.words, count)
}

impl GoodCounts for Clause {
    ghost use Rattle.wide_terms.specs.Ors.{clause_good};

    ghost good = { λ c. clause_good c.rows.items };

    fn is_good(&self, process: usize, count: u64) -> bool {
        for row in &self.rows {
            if is_row_good(row, process, count) {
                return true;
            }
        }
        false
    }
}

/// Whether a predicate, or its opposite where `negated`, is an `or` of comparisons and constants.
fn is_or(tree: &Tree, negated: bool) -> bool
    ensures { IsTrue result ↔ IsOr negated (tree_view tree.now) }
{
    match tree {
        Tree::Always | Tree::Never | Tree::Compare { .. } => true,
        Tree::Not(inner) => is_or(inner, !negated),
        Tree::And(left, right) => negated && is_or(left, negated) && is_or(right, negated),
        Tree::Or(left, right) => !negated && is_or(left, negated) && is_or(right, negated),
    }
}

/// Adds where each comparison of an `or` holds, or where it doesn't if `negated`.
///
/// # Errors
/// An allocation was refused.
pub(crate) fn push_rows(
    alloc: Global,
    computation: &Computation<'_>,
    tree: &Tree,
    negated: bool,
    rows: &mut Vec<TruthRow>,
) -> Result<(), AllocError>
    requires local { IsLocal (tree_view tree.now) }
    requires is_or { IsOr negated (tree_view tree.now) }
    ensures { IfOk result (λ _. MakesRows computation.now negated (tree_view tree.now) rows.old.items
        rows.new.items) }
{
    computation.limits();
    match tree {
        Tree::Always => {
            rows.push(row_by(alloc, computation, tree, &[], 0, negated)?)?;
            Ok(())
        }
        Tree::Never => {
            rows.push(row_by(alloc, computation, tree, &[], 0, negated)?)?;
            Ok(())
        }
        Tree::Compare { left, right, .. } => {
            rows.push(row_of(alloc, computation, tree, left, right, negated)?)?;
            Ok(())
        }
        Tree::Not(inner) => push_rows(alloc, computation, inner, !negated, rows),
        Tree::And(left, right) => {
            push_rows(alloc, computation, left, negated, rows)?;
            push_rows(alloc, computation, right, negated, rows)?;
            Ok(())
        }
        Tree::Or(left, right) => {
            push_rows(alloc, computation, left, negated, rows)?;
            push_rows(alloc, computation, right, negated, rows)?;
            Ok(())
        }
    }
}

/// Whether every observation passes through a cut that satisfies a predicate, whatever the width, if it is an `or` of
/// comparisons, each of which speaks of one process at most: it does as soon as one of them holds anywhere, since every
/// observation comes to each count of each process. No level is walked.
///
/// # Errors
/// An allocation was refused.
pub fn definitely_by_clause(
    alloc: Global,
    computation: &Computation<'_>,
    pred: &Pred,
) -> Result<ByClause, AllocError>
    ensures { IfOk result (IsRightByClause computation.now (predicate_view pred.now)) }
{
    let tree = pred.tree();
    if !is_local(tree) || !is_or(tree, false) {
        return Ok(ByClause::Undecided);
    }
    let mut rows = Vec::new(alloc);
    push_rows(alloc, computation, tree, false, &mut rows)?;
    let clause = Clause { rows };
    match free_level(alloc, computation, &clause)? {
        Some(level) => Ok(ByClause::Passed(level)),
        None => Ok(ByClause::Unsatisfied),
    }
}
