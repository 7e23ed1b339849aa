//! Truths by count, as the bits of words.
ghost use Rattle.walk_keys.specs.Words.{has_bit};
ghost use Rattle.wide_terms.specs.Truths.{truth_at};
ghost use Rattle.std.specs.Prelude.{◌≡◌, ◌+◌, ◌*◌, ◌/◌, ◌%◌, ◌<◌, ◌≤◌, ◌⊎◌, ℕ, IfOk, false, length, true};

use std::alloc::{AllocError, Global};
use walk_keys::bits::{BITS, either, has, lowest, up};

/// This many words, in which nothing is true.
///
/// # Errors
/// An allocation was refused.
pub(crate) fn no_truths(alloc: Global, n: usize) -> Result<Vec<u64>, AllocError>
    ensures many { IfOk result (λ words. length words.items ≡ n) }
    ensures none { IfOk result (λ words. (count : ℕ) → truth_at words.items count ≡ false) }
{
    vec![in alloc; 0; n]
}

/// The truth at a count: false past the end.
pub(crate) fn truth_at(words: &[u64], count: u64) -> bool
    ensures { result ≡ truth_at words.now count }
{
    match words.get((count / BITS) as usize) {
        Some(word) => has(*word, count % BITS),
        None => false,
    }
}

/// The truths at the 64 counts of the word with this number.
pub(crate) fn word_at(words: &[u64], number: u64) -> u64
    ensures { (j : ℕ) → j < 64 → has_bit result j ≡ truth_at words.now (number * 64 + j) }
{
    match words.get(number as usize) {
        Some(word) => *word,
        None => lowest(0),
    }
}

/// The word of which `n` bits are set, from bit `low` on, and no others.
fn run_of(low: u64, n: u64) -> u64
    requires some { low < 64 }
    requires few { low + n ≤ 64 }
    ensures inside { (j : ℕ) → low ≤ j → j < low + n → has_bit result j ≡ true }
    ensures outside { (j : ℕ) → j < 64 → (j < low) ⊎ (low + n ≤ j) → has_bit result j ≡ false }
{
    up(lowest(n), low)
}

/// Makes `n` counts of one word true, from a count on.
fn set_part(words: &mut [u64], from: u64, n: u64)
    requires there { from / 64 < length words.old }
    requires few { from % 64 + n ≤ 64 }
    ensures same { length words.new ≡ length words.old }
    ensures inside { (k : ℕ) → from ≤ k → k < from + n → truth_at words.new k ≡ true }
    ensures outside { (k : ℕ) → (k < from) ⊎ (from + n ≤ k) → truth_at words.new k ≡ truth_at words.old k }
{
    let number = (from / BITS) as usize;
    words[number] = either(words[number], run_of(from % BITS, n));
}

/// Makes the counts from one on, before another, true.
fn set_run(words: &mut [u64], from: u64, to: u64)
    requires order { from ≤ to }
    requires there { to ≤ length words.old * 64 }
    ensures same { length words.new ≡ length words.old }
    ensures inside { (k : ℕ) → from ≤ k → k < to → truth_at words.new k ≡ true }
    ensures outside { (k : ℕ) → (k < from) ⊎ (to ≤ k) → truth_at words.new k ≡ truth_at words.old k }
{
    let mut at = from;
    while at < to {
        let n = (BITS - at % BITS).min(to - at);
        set_part(words, at, n);
        at += n;
    }
}

/// Gives the counts from one on, before another, this truth, where none of them is true yet.
pub(crate) fn put_run(words: &mut [u64], from: u64, to: u64, truth: bool)
    requires order { from ≤ to }
    requires there { to ≤ length words.old * 64 }
    requires unset { (k : ℕ) → from ≤ k → truth_at words.old k ≡ false }
    ensures same { length words.new ≡ length words.old }
    ensures inside { (k : ℕ) → from ≤ k → k < to → truth_at words.new k ≡ truth }
    ensures outside { (k : ℕ) → (k < from) ⊎ (to ≤ k) → truth_at words.new k ≡ truth_at words.old k }
{
    if truth {
        set_run(words, from, to);
    }
}
