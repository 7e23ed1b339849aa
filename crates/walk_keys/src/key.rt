//! What a key is.
ghost use Rattle.def_format.specs.Limits.{process_limit};
ghost use Rattle.walk_keys.specs.Keys.{AreDigits, count_base, digits, key_of};
ghost use Rattle.std.specs.List.Sorted.{IsNonDecreasingBy, IsPermutation};
ghost use Rattle.std.specs.Prelude.{◌≡◌, ◌+◌, ◌-◌, ◌*◌, ◌/◌, ◌^◌, ◌<◌, ◌≤◌, ◌↔◌, ℕ, IfNone, IfOk, IfSome, IsTrue, length, slice_index};

use std::alloc::AllocError;

/// A cut as a number whose digits are its counts, one for each process, the count of process 0 highest.
pub trait Key: Copy {
    /// Whether the cuts of this many processes have this kind of key.
    ghost fits: { ℕ → Type 0 };

    /// How many digits it has room for.
    ghost room: { ℕ };

    /// The number.
    ghost number: { Self → ℕ };

    /// The key of no event.
    fn none() -> Self
        ensures { number result ≡ 0 };

    /// The key of these counts, or none if a count is no digit.
    fn pack(counts: &[u64]) -> Option<Self>
        requires { length counts.now ≤ room }
        ensures some { IfSome result (λ key. AreDigits counts.now × (number key ≡ key_of counts.now)) }
        ensures none { IfNone result (¬ AreDigits counts.now) };

    /// The count of process `p` of `n`, from 0.
    fn digit(self, n: usize, p: usize) -> u64
        requires few { n ≤ room }
        requires within { p < n }
        requires below { number self < count_base ^ n }
        ensures { result ≡ slice_index (digits n (number self)) p };

    /// Writes the counts of all processes at once, one into each place of the row.
    fn write(self, counts: &mut [u64])
        requires few { length counts.old ≤ room }
        requires below { number self < count_base ^ length counts.old }
        ensures { counts.new ≡ digits (length counts.old) (number self) };

    /// One more event of process `p` of `n`, from 0.
    fn one_more(self, n: usize, p: usize) -> Self
        requires few { n ≤ room }
        requires within { p < n }
        requires below { number self < count_base ^ n }
        requires small { slice_index (digits n (number self)) p + 1 < count_base }
        ensures { number result ≡ number self + count_base ^ (n - 1 - p) };

    /// One event less of process `p` of `n`, from 0.
    fn one_less(self, n: usize, p: usize) -> Self
        requires few { n ≤ room }
        requires within { p < n }
        requires below { number self < count_base ^ n }
        requires some { 0 < slice_index (digits n (number self)) p }
        ensures { number result ≡ number self - count_base ^ (n - 1 - p) };

    /// The counts, and those of two more processes.
    fn with_two(self, x: u64, y: u64) -> Self
        requires few { number self < count_base ^ (room - 2) }
        requires x { x < count_base }
        requires y { y < count_base }
        ensures { number result ≡ (number self * count_base + x) * count_base + y };

    /// The counts but for those of the last two processes.
    fn without_two(self) -> Self
        ensures { number result ≡ number self / count_base / count_base };

    /// Whether the number is below the other.
    fn is_below(self, other: Self) -> bool
        ensures { IsTrue result ↔ number self < number other };

    /// Whether the numbers are the same.
    fn is_same(self, other: Self) -> bool
        ensures { IsTrue result ↔ (number self ≡ number other) };

    /// Sorts the keys by their numbers.
    ///
    /// # Errors
    /// An allocation was refused.
    fn sort(keys: &mut Vec<Self>) -> Result<(), AllocError>
        ensures same { IsPermutation keys.old.items keys.new.items }
        ensures ascends { IfOk result (λ _. IsNonDecreasingBy number keys.new.items) };

    /// A row with a place for each process that there may be has one for each digit.
    ghost few: { room ≤ process_limit };

    /// The cuts of as many processes have room in it.
    ghost fits_room: { (n : ℕ) → fits n → n ≤ room };
}
