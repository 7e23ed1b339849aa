//! Up to 64 truths as the bits of one word.
//!
//! Bit 0 is the lowest. Each function is one or two instructions, and its contract says what each bit of the answer is,
//! so that those who work with many truths at once reason about one truth at a time.
#![tactic(auto)]

ghost use Rattle.walk_keys.specs.Words.{has_bit, set_below};
ghost use Rattle.std.specs.Prelude.{◌≡◌, ◌≢◌, ◌+◌, ◌<◌, ◌≤◌, ◌↔◌, ◌&&◌, ◌||◌, ℕ, false, not, true};

/// How many bits a word has.
pub const BITS: u64 = 64;

/// Whether bit `j` is set.
pub fn has(word: u64, j: u64) -> bool
    requires { j < 64 }
    ensures { result ≡ has_bit word j }
{
    (word >> j) & 1 == 1
}

/// The word of which the lowest `n` bits are set, and no others.
pub fn lowest(n: u64) -> u64
    requires { n ≤ 64 }
    ensures within { (j : ℕ) → j < n → has_bit result j ≡ true }
    ensures beyond { (j : ℕ) → n ≤ j → has_bit result j ≡ false }
{
    if n == BITS { u64::MAX } else { (1 << n) - 1 }
}

/// The word with bit `j` set as well.
pub fn with(word: u64, j: u64) -> u64
    requires { j < 64 }
    ensures set { has_bit result j ≡ true }
    ensures others { (i : ℕ) → i ≢ j → has_bit result i ≡ has_bit word i }
{
    word | (1 << j)
}

/// The bits that are set in one of the words.
pub fn either(first: u64, second: u64) -> u64
    ensures { (j : ℕ) → has_bit result j ≡ (has_bit first j || has_bit second j) }
{
    first | second
}

/// The bits that are set in both words.
pub fn both(first: u64, second: u64) -> u64
    ensures { (j : ℕ) → has_bit result j ≡ (has_bit first j && has_bit second j) }
{
    first & second
}

/// The bits of the word that aren't set in the other one.
pub fn without(word: u64, taken: u64) -> u64
    ensures { (j : ℕ) → has_bit result j ≡ (has_bit word j && not (has_bit taken j)) }
{
    word & (word ^ taken)
}

/// The bits moved up by `by`, with zeros below them. Those that are moved beyond the word are lost.
pub fn up(word: u64, by: u64) -> u64
    requires { by < 64 }
    ensures below { (j : ℕ) → j < by → has_bit result j ≡ false }
    ensures moved { (j : ℕ) → j + by < 64 → has_bit result (j + by) ≡ has_bit word j }
{
    word << by
}

/// The bits moved down by `by`, with zeros above them. The lowest `by` are lost.
pub fn down(word: u64, by: u64) -> u64
    requires { by < 64 }
    ensures { (j : ℕ) → has_bit result j ≡ has_bit word (j + by) }
{
    word >> by
}

/// How many bits are set.
pub fn count(word: u64) -> u64
    ensures { result ≡ set_below word 64 }
{
    u64::from(word.count_ones())
}

/// The number of the lowest bit that is set.
pub fn least(word: u64) -> u64
    requires { 0 < word }
    ensures within { result < 64 }
    ensures set { has_bit word result ≡ true }
    ensures least { (j : ℕ) → j < result → has_bit word j ≡ false }
{
    u64::from(word.trailing_zeros())
}

/// What holds of every word: it has no bit from 64 on, and it is 0 exactly if none is set. It has no code: a caller's
/// proof has these facts by calling it.
pub fn words(word: u64)
    ensures beyond { (j : ℕ) → 64 ≤ j → has_bit word j ≡ false }
    ensures none { word ≡ 0 ↔ ((j : ℕ) → has_bit word j ≡ false) }
{
    let _word = word;
}
