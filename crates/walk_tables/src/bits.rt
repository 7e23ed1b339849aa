//! Truths that are put into a word.
ghost use Rattle.walk_keys.specs.Words.{has_bit};
ghost use Rattle.walk_tables.specs.Rows.{all_below};
ghost use Rattle.walk_tables.specs.Zero.{joined, turned};
ghost use Rattle.std.specs.Prelude.{◌≡◌, ◌≢◌, ◌<◌, ◌≤◌, ℕ, false};

/// The bits with bit `j` for the truth.
pub(crate) fn put(mask: u64, j: u64, truth: bool) -> u64
    requires within { j < 64 }
    requires clear { has_bit mask j ≡ false }
    ensures bit { has_bit result j ≡ truth }
    ensures others { (i : ℕ) → i ≢ j → has_bit result i ≡ has_bit mask i }
{
    if truth {
        walk_keys::bits::with(mask, j)
    } else {
        mask
    }
}

/// All of the lowest `n` bits, or none.
pub(crate) fn all_or_none(truth: bool, n: u64) -> u64
    requires { n ≤ 64 }
    ensures within { (j : ℕ) → j < n → has_bit result j ≡ truth }
    ensures beyond { (j : ℕ) → n ≤ j → has_bit result j ≡ false }
{
    if truth {
        walk_keys::bits::lowest(n)
    } else {
        walk_keys::bits::lowest(0)
    }
}

/// The bits that both words have, or one of them.
pub(crate) fn joined_words(is_and: bool, first: u64, second: u64) -> u64
    ensures { (j : ℕ) → has_bit result j ≡ joined is_and (has_bit first j) (has_bit second j) }
{
    if is_and {
        walk_keys::bits::both(first, second)
    } else {
        walk_keys::bits::either(first, second)
    }
}

/// The word, or those of the lowest `n` bits that it doesn't have where `negated`.
pub(crate) fn turned_word(negated: bool, word: u64, n: u64) -> u64
    requires few { n ≤ 64 }
    requires beyond { (j : ℕ) → n ≤ j → has_bit word j ≡ false }
    ensures within { (j : ℕ) → j < n → has_bit result j ≡ turned negated (has_bit word j) }
    ensures beyond { (j : ℕ) → n ≤ j → has_bit result j ≡ false }
{
    if negated {
        walk_keys::bits::without(walk_keys::bits::lowest(n), word)
    } else {
        word
    }
}

/// Whether all of the lowest `n` bits are set.
pub(crate) fn has_lowest(word: u64, n: u64) -> bool
    requires { n ≤ 64 }
    ensures { result ≡ all_below n (has_bit word) }
{
    let missing = walk_keys::bits::without(walk_keys::bits::lowest(n), word);
    walk_keys::bits::words(missing);
    missing == 0
}
