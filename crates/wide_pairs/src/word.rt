//! Truths of a row of numbers as the bits of a word.
ghost use Rattle.walk_keys.specs.Words.{has_bit};
ghost use Rattle.def_model.specs.Predicates.{compares};
ghost use Rattle.wide_pairs.specs.Parts.{number_at};
ghost use Rattle.pd_pred.specs.Trees.{comparison_view};
ghost use Rattle.std.specs.Prelude.{◌≡◌, ◌+◌, ◌<◌, ◌≤◌, ℕ, length};

use super::row::is_related;
use pd_pred::Comparison;
use walk_keys::bits::{up, with};

/// The bits moved up by one, with this one below them.
#[inline(always)]
pub(crate) fn below(word: u64, bit: bool) -> u64
    ensures first { has_bit result 0 ≡ bit }
    ensures moved { (j : ℕ) → j < 63 → has_bit result (j + 1) ≡ has_bit word j }
{
    let moved = up(word, 1);
    if bit { with(moved, 0) } else { moved }
}

/// Whether numbers stand in this relation to another one: bit `k` is that of the one at `k`.
#[inline(always)]
fn word_of(comparison: Comparison, numbers: &[i128], number: i128) -> u64
    requires { length numbers.now ≤ 64 }
    ensures { (k : ℕ) → k < length numbers.now → has_bit result k
        ≡ compares (comparison_view comparison) (number_at numbers.now k) number }
{
    let mut word = 0;
    let mut rest = numbers;
    while let Some((last, before)) = rest.split_last() {
        word = below(word, is_related(comparison, last, number));
        rest = before;
    }
    word
}

/// The same, with a loop for each relation.
pub(crate) fn related_word(comparison: Comparison, numbers: &[i128], number: i128) -> u64
    requires { length numbers.now ≤ 64 }
    ensures { (k : ℕ) → k < length numbers.now → has_bit result k
        ≡ compares (comparison_view comparison) (number_at numbers.now k) number }
{
    match comparison {
        Comparison::Equals => word_of(Comparison::Equals, numbers, number),
        Comparison::Differs => word_of(Comparison::Differs, numbers, number),
        Comparison::IsLess => word_of(Comparison::IsLess, numbers, number),
        Comparison::IsAtMost => word_of(Comparison::IsAtMost, numbers, number),
        Comparison::IsGreater => word_of(Comparison::IsGreater, numbers, number),
        Comparison::IsAtLeast => word_of(Comparison::IsAtLeast, numbers, number),
    }
}
