//! Rows of comparisons that a caller chooses, and their terms.
ghost use Rattle.pd_pred.specs.Trees.{sum_view, tree_view};
ghost use Rattle.def_model.specs.Decided.{NameOne};
ghost use Rattle.wide_terms.specs.Locals.{IsComparisonOf};
ghost use Rattle.wide_terms.specs.Rows.{AddsRow};
ghost use Rattle.std.specs.Prelude.{◌≡◌, ◌<◌, [], All, IfOk, length};

use super::row::{TruthRow, row_of};
use super::terms::Term;
use pd_clock::Computation;
use pd_pred::{Sum, Tree};
use std::alloc::{AllocError, Global};

/// Where each of several comparisons holds that name one process at most, in the order in which they were added.
#[derive(Drop)]
pub struct Rows {
    rows: Vec<TruthRow>,
}

impl Rows {
    /// No rows.
    pub fn new(alloc: Global) -> Rows
        ensures { result.rows.items ≡ [] }
    {
        Rows {
            rows: Vec::new(alloc),
        }
    }

    /// How many rows there are.
    pub fn len(&self) -> usize
        ensures { result ≡ length self.now.rows.items }
    {
        self.rows.len()
    }

    /// Adds the row of a comparison that names one process at most, or of its opposite if `negated`. The sums are those
    /// of the comparison. The comparison is evaluated once for each time that a variable in it changes.
    ///
    /// # Errors
    /// An allocation was refused.
    pub fn push(
        &mut self,
        alloc: Global,
        computation: &Computation<'_>,
        tree: &Tree,
        left: &Sum,
        right: &Sum,
        negated: bool,
    ) -> Result<(), AllocError>
        requires sums { IsComparisonOf (tree_view tree.now) (sum_view left.now) (sum_view right.now) }
        requires local { NameOne (sum_view left.now) (sum_view right.now) }
        ensures { IfOk result (λ _. AddsRow computation.now negated (tree_view tree.now) self.old.rows.items
            self.new.rows.items) }
    {
        let row = row_of(alloc, computation, tree, left, right, negated)?;
        self.rows.push(row)?;
        Ok(())
    }

    /// The term of the comparisons whose rows have these numbers, from 0.
    pub fn term<'a>(&'a self, numbers: &'a [usize]) -> Term<'a>
        requires { All (λ i. i < length self.now.rows.items) numbers.now }
        ensures rows { result.rows.now ≡ self.now.rows.items }
        ensures numbers { result.numbers.now ≡ numbers.now }
    {
        Term {
            rows: &self.rows,
            numbers,
        }
    }
}
