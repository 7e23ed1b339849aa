//! Predicates that have one term: an `and` of comparisons, the opposite of an `or` of their opposites.
ghost use Rattle.def_model.specs.Predicates.{test_of};
ghost use Rattle.pd_pred.specs.Views.{predicate_view};
ghost use Rattle.def_model.specs.Decided.{IsLocal, term_count};
ghost use Rattle.wide_terms.specs.Passages.{IsPassageOf};
ghost use Rattle.std.specs.Prelude.{◌≡◌, IfOk, false};

use super::clause::{Clause, push_rows};
use pd_clock::Computation;
use pd_pred::Pred;
use std::alloc::{AllocError, Global};
use wide_conjunctions::{GoodCounts, Passage, definitely_all_good};

/// The comparisons of which none may hold.
#[derive(Drop)]
struct NoneOf {
    clause: Clause,
}

impl GoodCounts for NoneOf {
    ghost use Rattle.wide_terms.specs.Conjunctions.{none_good};

    ghost good = { λ n. none_good n.clause.rows.items };

    fn is_good(&self, process: usize, count: u64) -> bool {
        !self.clause.is_good(process, count)
    }
}

/// What the observations of a computation pass through, of a predicate that has one term.
///
/// # Errors
/// An allocation was refused.
pub(crate) fn passage_of_one(
    alloc: Global,
    computation: &Computation<'_>,
    pred: &Pred,
) -> Result<Passage, AllocError>
    requires local { IsLocal (predicate_view pred.now) }
    requires single { term_count false (predicate_view pred.now) ≡ 1 }
    ensures { IfOk result (IsPassageOf computation.now.events (test_of computation.now (predicate_view pred.now))) }
{
    let mut rows = Vec::new(alloc);
    push_rows(alloc, computation, pred.tree(), true, &mut rows)?;
    let clause = Clause { rows };
    definitely_all_good(alloc, computation, &NoneOf { clause })
}
