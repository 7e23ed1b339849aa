//! Counts in one number.
ghost use Rattle.walk_keys.specs.Keys.{IsPacked, count_base, digits};
ghost use Rattle.walk_keys.specs.Pairs.{single_limit};
ghost use Rattle.std.specs.Prelude.{◌≡◌, ◌-◌, ◌/◌, ◌%◌, ◌^◌, ◌<◌, ◌≤◌, length, slice_index};

use super::Key;
use std::alloc::AllocError;

/// How many counts one number has room for.
pub const SINGLE_LIMIT: usize = 8;

/// The base of the digits: each count is one digit, as a process has fewer events.
pub(crate) const COUNT_BASE: u128 = 65_536;

/// How many bits a digit has.
const COUNT_BITS: u32 = 16;

/// The number whose digits are these counts, or none if a count is no digit.
pub(crate) fn pack(counts: &[u64]) -> Option<u128>
    requires { length counts.now ≤ single_limit }
    ensures { IsPacked counts.now result }
{
    let mut key: u128 = 0;
    for &count in counts {
        if u128::from(count) >= COUNT_BASE {
            return None;
        }
        key = key * COUNT_BASE + u128::from(count);
    }
    Some(key)
}

/// The digit with this many others after it.
pub(crate) fn digit_before(key: u128, places: usize) -> u64
    requires { places < single_limit }
    ensures { result ≡ key / count_base ^ places % count_base }
{
    ((key >> (COUNT_BITS * places as u32)) % COUNT_BASE) as u64
}

/// What 1 in the digit with this many others after it adds to a number.
pub(crate) fn one_before(places: usize) -> u128
    requires { places < single_limit }
    ensures { result ≡ count_base ^ places }
{
    1 << (COUNT_BITS * places as u32)
}

/// The count of process `p` among those of which a number is made.
fn digit(key: u128, processes: usize, p: usize) -> u64
    requires few { processes ≤ single_limit }
    requires within { p < processes }
    requires below { key < count_base ^ processes }
    ensures { result ≡ slice_index (digits processes key) p }
{
    digit_before(key, processes - 1 - p)
}

/// Writes the digits of a number, one into each place of the row.
pub(crate) fn write(key: u128, counts: &mut [u64])
    requires few { length counts.old ≤ single_limit }
    requires below { key < count_base ^ length counts.old }
    ensures { counts.new ≡ digits (length counts.old) key }
{
    let last = counts.len();
    let mut rest = key;
    for places in 0..last {
        counts[last - 1 - places] = (rest % COUNT_BASE) as u64;
        rest >>= COUNT_BITS;
    }
}

/// What one more event of process `p` adds to a number.
fn weight(processes: usize, p: usize) -> u128
    requires few { processes ≤ single_limit }
    requires within { p < processes }
    ensures { result ≡ count_base ^ (processes - 1 - p) }
{
    one_before(processes - 1 - p)
}

impl Key for u128 {
    ghost use Rattle.walk_keys.specs.Pairs.{single_limit};
    ghost use Rattle.std.proofs.Common.{arith};

    ghost fits = { λ n. n ≤ single_limit };

    ghost room = { single_limit };

    ghost number = { λ key. key };

    ghost few = { Prim.omega arith };

    ghost fits_room = { λ n fits. fits };

    fn none() -> u128 {
        0
    }

    fn pack(counts: &[u64]) -> Option<u128> {
        pack(counts)
    }

    fn digit(self, n: usize, p: usize) -> u64 {
        digit(self, n, p)
    }

    fn write(self, counts: &mut [u64]) {
        write(self, counts);
    }

    fn one_more(self, n: usize, p: usize) -> u128 {
        self + weight(n, p)
    }

    fn one_less(self, n: usize, p: usize) -> u128 {
        self - weight(n, p)
    }

    fn with_two(self, x: u64, y: u64) -> u128 {
        (self * COUNT_BASE + u128::from(x)) * COUNT_BASE + u128::from(y)
    }

    fn without_two(self) -> u128 {
        self / COUNT_BASE / COUNT_BASE
    }

    fn is_below(self, other: u128) -> bool {
        self < other
    }

    fn is_same(self, other: u128) -> bool {
        self == other
    }

    fn sort(keys: &mut Vec<u128>) -> Result<(), AllocError> {
        keys.sort()?;
        Ok(())
    }
}
