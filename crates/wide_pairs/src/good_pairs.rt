//! Which pairs of counts are good.
ghost use Rattle.walk_keys.specs.Words.{has_bit};
ghost use Rattle.std.specs.Prelude.{◌≡◌, ◌≢◌, ◌+◌, ◌<◌, ◌≤◌, ℕ, Bool, false};

use walk_keys::bits::with;

/// Which counts of two processes are good together.
pub trait GoodPairs {
    /// Whether this many events of the one process and this many of the other are good together.
    ghost good: { Self → ℕ → ℕ → Bool };

    /// Whether the first `i` events of the one process and the first `j` of the other are good together.
    fn is_good(&self, i: u64, j: u64) -> bool
        ensures { result ≡ good self.now i j };

    /// The same of `n` counts of the other process, from `j` on: bit `k` is that of `j + k`. The other bits may be
    /// anything.
    fn good_word(&self, i: u64, j: u64, n: u64) -> u64
        requires few { n ≤ 64 }
        requires room { j + n ≤ 18446744073709551615 }
        ensures { (k : ℕ) → k < n → has_bit result k ≡ good self.now i (j + k) }
    {
        let mut word = 0;
        for k in 0..n {
            word = put(word, k, self.is_good(i, j + k));
        }
        word
    }
}

/// The word with this bit, which isn't set in it.
fn put(word: u64, d: u64, bit: bool) -> u64
    requires within { d < 64 }
    requires unset { has_bit word d ≡ false }
    ensures here { has_bit result d ≡ bit }
    ensures others { (j : ℕ) → j ≢ d → has_bit result j ≡ has_bit word j }
{
    if bit { with(word, d) } else { word }
}
