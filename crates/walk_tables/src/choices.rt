//! Choices that are joined in one way, which are asked in turn.
ghost use Rattle.walk_keys.specs.Words.{has_bit};
ghost use Rattle.def_format.specs.Limits.{event_limit};
ghost use Rattle.walk_tables.specs.Choices.{choices_hold};
ghost use Rattle.walk_tables.specs.Tables.{IsSameSum};
ghost use Rattle.std.specs.Prelude.{◌≡◌, ℕ, ◌+◌, ◌-◌, ◌<◌, ◌≤◌, IfSome, false, length, slice_index_or, true};

use super::bits::{all_or_none, joined_words};
use super::choice::Choice;
use super::linear::Linear;

/// Which of the choices is of the sum that the comparison has, and joined in this way.
pub(crate) fn choice_for(choices: &[Choice], is_and: bool, linear: &Linear) -> Option<usize>
    ensures within { IfSome result (λ i. i < length choices.now) }
    ensures way { IfSome result (λ i. (d : Choice) → (slice_index_or choices.now i d).is_and ≡ is_and) }
    ensures sum { IfSome result (λ i. (d : Choice) → IsSameSum (slice_index_or choices.now i d).sum linear.now) }
{
    for i in 0..choices.len() {
        if choices[i].takes(is_and, linear) {
            return Some(i);
        }
    }
    None
}

/// Of which of `n` neighboring cuts the choices hold: bit `j` is that of the cut with `x + j` and `y - j`. The last
/// choice of the list is asked first, here and below.
#[inline(never)]
pub(crate) fn mask(is_and: bool, choices: &[Choice], prefix: &[u64], x: u64, y: u64, n: u64) -> u64
    requires few { n ≤ 64 }
    requires low { x ≤ event_limit }
    requires down { n ≤ y + 1 }
    ensures within { (j : ℕ) → j < n → has_bit result j
        ≡ choices_hold is_and choices.now prefix.now (x + j) (y - j) }
    ensures beyond { (j : ℕ) → n ≤ j → has_bit result j ≡ false }
{
    let decided = all_or_none(!is_and, n);
    let mut found = all_or_none(is_and, n);
    let count = choices.len();
    for i in 0..count {
        let choice = &choices[count - 1 - i];
        found = joined_words(is_and, choice.mask(prefix, x, y, n), found);
        if found == decided {
            return decided;
        }
    }
    found
}

/// Whether the choices hold at the cut with this prefix and these counts of the last two processes.
#[inline(never)]
pub(crate) fn hold_at(is_and: bool, choices: &[Choice], prefix: &[u64], x: u64, y: u64) -> bool
    ensures { result ≡ choices_hold is_and choices.now prefix.now x y }
{
    let count = choices.len();
    for i in 0..count {
        let choice = &choices[count - 1 - i];
        if choice.holds_at(prefix, x, y) != is_and {
            return !is_and;
        }
    }
    is_and
}

/// Whether the choices may hold at some cut with this prefix.
#[inline(never)]
pub(crate) fn may(is_and: bool, choices: &[Choice], prefix: &[u64]) -> bool
    ensures { result ≡ false → (x y : ℕ) → choices_hold is_and choices.now prefix.now x y ≡ false }
{
    let count = choices.len();
    for i in 0..count {
        let choice = &choices[count - 1 - i];
        if choice.may(prefix) != is_and {
            return !is_and;
        }
    }
    is_and
}

/// Whether it is sure that the choices hold at each cut with this prefix.
#[inline(never)]
pub(crate) fn must(is_and: bool, choices: &[Choice], prefix: &[u64]) -> bool
    ensures { result ≡ true → (x y : ℕ) → choices_hold is_and choices.now prefix.now x y ≡ true }
{
    let count = choices.len();
    for i in 0..count {
        let choice = &choices[count - 1 - i];
        if choice.must(prefix) != is_and {
            return !is_and;
        }
    }
    is_and
}
