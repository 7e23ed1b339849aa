//! Counts in a pair of numbers.
ghost use Rattle.walk_keys.specs.Pairs.{pair_number, single_limit};
ghost use Rattle.std.specs.Ordering.{nat_cmp};
ghost use Rattle.std.specs.Prelude.{◌≡◌, ◌-◌};

use super::Key;
use super::single::{COUNT_BASE, SINGLE_LIMIT, digit_before, one_before, pack, write};
use std::alloc::AllocError;
use std::cmp::Ordering;

/// The weight of the digits that go from the second number to the first one when two digits are added.
const ROOM: u128 = 79_228_162_514_264_337_593_543_950_336;

/// A number of twice as many digits as one `u128` has room for: the lowest `SINGLE_LIMIT` digits are `second`, and
/// those before them are `first`. So of sixteen processes the first eight are in `first`.
#[derive(Clone, Copy)]
pub struct Pair {
    first: u128,
    second: u128,
}

/// How many of the counts stand in the first number.
fn in_first(n: usize) -> usize
    ensures { result ≡ n - single_limit }
{
    n.saturating_sub(SINGLE_LIMIT)
}

/// How the numbers of two pairs compare.
fn order(a: Pair, b: Pair) -> Ordering
    ensures { result ≡ nat_cmp (pair_number a.first a.second) (pair_number b.first b.second) }
{
    if a.first == b.first {
        a.second.cmp(&b.second)
    } else {
        a.first.cmp(&b.first)
    }
}

impl Key for Pair {
    ghost use Rattle.def_format.specs.Limits.{process_limit};
    ghost use Rattle.walk_keys.specs.Pairs.{pair_number, single_limit};
    ghost use Rattle.std.specs.Prelude.{◌<◌, ◌≤◌};
    ghost use Rattle.std.proofs.Common.{arith};

    ghost fits = { λ n. (single_limit < n) × (n ≤ process_limit) };

    ghost room = { process_limit };

    ghost number = { λ pair. pair_number pair.first pair.second };

    ghost few = { Prim.omega arith };

    ghost fits_room = { λ n fits. fits.1 };

    fn none() -> Pair {
        Pair {
            first: 0,
            second: 0,
        }
    }

    fn pack(counts: &[u64]) -> Option<Pair> {
        let middle = in_first(counts.len());
        let first = pack(&counts[..middle])?;
        let second = pack(&counts[middle..])?;
        Some(Pair { first, second })
    }

    fn digit(self, n: usize, p: usize) -> u64 {
        let places = n - 1 - p;
        if places < SINGLE_LIMIT {
            digit_before(self.second, places)
        } else {
            digit_before(self.first, places - SINGLE_LIMIT)
        }
    }

    fn write(self, counts: &mut [u64]) {
        let middle = in_first(counts.len());
        let (first, second) = counts.split_at_mut(middle);
        write(self.first, first);
        write(self.second, second);
    }

    fn one_more(self, n: usize, p: usize) -> Pair {
        let places = n - 1 - p;
        if places < SINGLE_LIMIT {
            Pair {
                first: self.first,
                second: self.second + one_before(places),
            }
        } else {
            Pair {
                first: self.first + one_before(places - SINGLE_LIMIT),
                second: self.second,
            }
        }
    }

    fn one_less(self, n: usize, p: usize) -> Pair {
        let places = n - 1 - p;
        if places < SINGLE_LIMIT {
            Pair {
                first: self.first,
                second: self.second - one_before(places),
            }
        } else {
            Pair {
                first: self.first - one_before(places - SINGLE_LIMIT),
                second: self.second,
            }
        }
    }

    fn with_two(self, x: u64, y: u64) -> Pair {
        Pair {
            first: self.first * COUNT_BASE * COUNT_BASE + self.second / ROOM,
            second: (self.second % ROOM * COUNT_BASE + u128::from(x)) * COUNT_BASE + u128::from(y),
        }
    }

    fn without_two(self) -> Pair {
        Pair {
            first: self.first / COUNT_BASE / COUNT_BASE,
            second: self.first % (COUNT_BASE * COUNT_BASE) * ROOM
                + self.second / COUNT_BASE / COUNT_BASE,
        }
    }

    fn is_below(self, other: Pair) -> bool {
        if self.first == other.first {
            self.second < other.second
        } else {
            self.first < other.first
        }
    }

    fn is_same(self, other: Pair) -> bool {
        self.first == other.first && self.second == other.second
    }

    fn sort(keys: &mut Vec<Pair>) -> Result<(), AllocError> {
        keys.sort_by(|a, b| order(*a, *b))?;
        Ok(())
    }
}
