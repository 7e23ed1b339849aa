//! The consistent pairs of one count of the first process.
ghost use Rattle.wide_pairs.specs.Rows.{AreUpTo, IsEnd, IsFirstTrue};
ghost use Rattle.std.specs.Prelude.{◌≤◌, length};

use super::good_pairs::GoodPairs;
use walk_keys::bits::{BITS, both, least, lowest, words};

/// Where the numbers that are at most `i` end, where those before `from` are. They never fall, so none after it is.
pub(crate) fn end_of(numbers: &[u64], i: u64, from: usize) -> usize
    requires within { from ≤ length numbers.now }
    requires before { AreUpTo numbers.now i from }
    ensures { IsEnd numbers.now i result }
{
    for j in from..numbers.len() {
        if numbers[j] > i {
            return j;
        }
    }
    numbers.len()
}

/// The least `j` from `low` on, before `end`, that is good together with `i`.
pub(crate) fn first_good<G: GoodPairs>(wanted: &G, i: u64, low: u64, end: u64) -> Option<u64>
    ensures { IsFirstTrue (G.good wanted.now i) low end result }
{
    let mut j = low;
    while j < end {
        let n = BITS.min(end - j);
        let word = both(wanted.good_word(i, j, n), lowest(n));
        words(word);
        if word != 0 {
            return Some(j + least(word));
        }
        j += n;
    }
    None
}
