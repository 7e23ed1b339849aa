//! Whether every observation passes through a satisfying cut.
ghost use Rattle.wide_pairs.specs.Answers.{IsRightPassage};
ghost use Rattle.pd_pred.specs.Views.{predicate_view};
ghost use Rattle.std.specs.Prelude.{IfOk};

use super::grid_definitely::{Passage, definitely_by_pairs};
use super::names::pair_of;
use super::test::test_of;
use pd_clock::Computation;
use pd_pred::Pred;
use std::alloc::{AllocError, Global};

/// Whether every observation passes through a satisfying cut, as far as the counts of two processes decide it.
#[derive(Drop)]
pub enum PassageOfTwo {
    /// Yes: the least level that has no avoiding cut.
    Passed(u64),
    /// No: the path of an avoiding observation, as the processes in the order in which their events happen.
    Avoided(Vec<usize>),
    /// The predicate names more than two processes, or there are no two.
    Undecided,
}

/// Whether every observation passes through a cut that satisfies a predicate, whatever the width, if it speaks of two
/// processes alone. No level is walked: each pair of counts of the two that a consistent cut can have is looked at once
/// at most, and takes a bit.
///
/// Source: `docs/ANY-WIDTH.md` has the argument for the grid of pairs; its least cuts are those of Garg and Waldecker,
/// Detection of Weak Unstable Predicates in Distributed Programs, 1994.
///
/// # Errors
/// An allocation was refused.
pub fn definitely_of_two(
    alloc: Global,
    computation: &Computation<'_>,
    pred: &Pred,
) -> Result<PassageOfTwo, AllocError>
    ensures { IfOk result (IsRightPassage computation.now (predicate_view pred.now)) }
{
    let tree = pred.tree();
    let found = pair_of(computation, tree);
    match found {
        None => Ok(PassageOfTwo::Undecided),
        Some(pair) => {
            let test = test_of(alloc, computation, pair, tree)?;
            let passage = definitely_by_pairs(alloc, computation, pair.first, pair.second, &test)?;
            match passage {
                Passage::Passed(level) => Ok(PassageOfTwo::Passed(level)),
                Passage::Avoided(path) => Ok(PassageOfTwo::Avoided(path)),
            }
        }
    }
}
