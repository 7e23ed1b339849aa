//! The predicate by the counts of its two processes.
ghost use Rattle.wide_pairs.specs.Tests.{IsByCounts, pair_holds};
ghost use Rattle.def_model.specs.Decided.{NamesOnly};
ghost use Rattle.def_wide.specs.Parts.{opposite_if};
ghost use Rattle.pd_pred.specs.Trees.{tree_view};
ghost use Rattle.walk_keys.specs.Words.{has_bit};
ghost use Rattle.std.specs.Prelude.{◌≡◌, ◌+◌, ◌<◌, ◌≤◌, ℕ, IfOk, length};

use super::good_pairs::GoodPairs;
use super::pair::Pair;
use super::rows::Rows;
use pd_clock::Computation;
use pd_pred::Tree;
use std::alloc::{AllocError, Global};
use walk_keys::bits::{both, either, lowest, without};

/// A predicate of two processes, each comparison by rows of numbers.
#[derive(Drop)]
pub(crate) enum PairTest {
    /// The same at all counts.
    Constant(bool),
    /// A comparison.
    Compare(Rows),
    /// True where the other isn't.
    Not(Box<PairTest>),
    /// True where both are.
    And(Box<PairTest>, Box<PairTest>),
    /// True where one of them is.
    Or(Box<PairTest>, Box<PairTest>),
}

/// Whether the predicate is true at these counts of the two processes.
fn holds(test: &PairTest, i: u64, j: u64) -> bool
    ensures { result ≡ pair_holds test.now i j }
{
    match test {
        PairTest::Constant(truth) => *truth,
        PairTest::Compare(rows) => rows.hold(i, j),
        PairTest::Not(inner) => !holds(inner, i, j),
        PairTest::And(left, right) => holds(left, i, j) && holds(right, i, j),
        PairTest::Or(left, right) => holds(left, i, j) || holds(right, i, j),
    }
}

/// The same at `n` counts of the second process, from `j` on: bit `k` is that of `j + k`.
fn word(test: &PairTest, i: u64, j: u64, n: u64) -> u64
    requires few { n ≤ 64 }
    requires room { j + n ≤ 18446744073709551615 }
    ensures { (k : ℕ) → k < n → has_bit result k ≡ pair_holds test.now i (j + k) }
{
    match test {
        PairTest::Constant(truth) => if *truth { lowest(n) } else { lowest(0) },
        PairTest::Compare(rows) => rows.word(i, j, n),
        PairTest::Not(inner) => without(lowest(n), word(inner, i, j, n)),
        PairTest::And(left, right) => {
            let first = word(left, i, j, n);
            if first == 0 {
                return 0;
            }
            both(first, word(right, i, j, n))
        }
        PairTest::Or(left, right) => either(word(left, i, j, n), word(right, i, j, n)),
    }
}

impl GoodPairs for PairTest {
    ghost good = { λ test. pair_holds test };

    fn is_good(&self, i: u64, j: u64) -> bool {
        holds(self, i, j)
    }

    fn good_word(&self, i: u64, j: u64, n: u64) -> u64 {
        word(self, i, j, n)
    }
}

/// A predicate that names these two processes alone, by their counts.
///
/// # Errors
/// An allocation was refused.
pub(crate) fn test_of(
    alloc: Global,
    computation: &Computation<'_>,
    pair: Pair,
    tree: &Tree,
) -> Result<PairTest, AllocError>
    requires order { pair.first < pair.second }
    requires there { pair.second < length computation.now.events }
    requires only { NamesOnly pair.first pair.second (tree_view tree.now) }
    ensures { IfOk result (λ test. IsByCounts computation.now pair.first pair.second (tree_view tree.now)
        (pair_holds test)) }
{
    match tree {
        Tree::Always => Ok(PairTest::Constant(true)),
        Tree::Never => Ok(PairTest::Constant(false)),
        Tree::Compare {
            left,
            comparison,
            right,
        } => {
            let rows = Rows::of(alloc, computation, pair, left, *comparison, right)?;
            Ok(PairTest::Compare(rows))
        }
        Tree::Not(inner) => {
            let inner = test_of(alloc, computation, pair, inner)?;
            Ok(PairTest::Not(Box::new(alloc, inner)?))
        }
        Tree::And(left, right) => {
            let left = test_of(alloc, computation, pair, left)?;
            let right = test_of(alloc, computation, pair, right)?;
            Ok(PairTest::And(Box::new(alloc, left)?, Box::new(alloc, right)?))
        }
        Tree::Or(left, right) => {
            let left = test_of(alloc, computation, pair, left)?;
            let right = test_of(alloc, computation, pair, right)?;
            Ok(PairTest::Or(Box::new(alloc, left)?, Box::new(alloc, right)?))
        }
    }
}

/// The same of its opposite where `negated`.
///
/// # Errors
/// An allocation was refused.
pub(crate) fn turned_test(
    alloc: Global,
    computation: &Computation<'_>,
    pair: Pair,
    tree: &Tree,
    negated: bool,
) -> Result<PairTest, AllocError>
    requires order { pair.first < pair.second }
    requires there { pair.second < length computation.now.events }
    requires only { NamesOnly pair.first pair.second (tree_view tree.now) }
    ensures { IfOk result (λ test. IsByCounts computation.now pair.first pair.second
        (opposite_if negated (tree_view tree.now)) (pair_holds test)) }
{
    let test = test_of(alloc, computation, pair, tree)?;
    if negated {
        return Ok(PairTest::Not(Box::new(alloc, test)?));
    }
    Ok(test)
}
