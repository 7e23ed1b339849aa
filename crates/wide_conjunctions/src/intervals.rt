//! Intervals of good counts of a process.
ghost use Rattle.wide_conjunctions.specs.Intervals.{HasEntered, HasNoneFrom, IsNextBad, IsNextGood};
ghost use Rattle.def_model.specs.Events.{event_count};
ghost use Rattle.std.specs.Prelude.{◌≡◌, ◌+◌, ◌<◌, ◌≤◌, false, length, true};

use super::good_counts::GoodCounts;
use pd_clock::Computation;

/// The first good count of process `p` from this one on, or the end.
fn next_good<G: GoodCounts>(wanted: &G, p: usize, from: u64, end: u64) -> u64
    requires { from ≤ end }
    ensures { IsNextGood (G.good wanted.now p) from end result }
{
    for count in from..end {
        if wanted.is_good(p, count) {
            return count;
        }
    }
    end
}

/// The first count of process `p` from this one on that isn't good, or the end.
fn next_bad<G: GoodCounts>(wanted: &G, p: usize, from: u64, end: u64) -> u64
    requires { from ≤ end }
    ensures { IsNextBad (G.good wanted.now p) from end result }
{
    for count in from..end {
        if !wanted.is_good(p, count) {
            return count;
        }
    }
    end
}

/// Takes process `q` to its first interval from a count on. Whether there is one.
pub(crate) fn enter<G: GoodCounts>(
    computation: &Computation<'_>,
    wanted: &G,
    q: usize,
    from: u64,
    starts: &mut [u64],
    leaves: &mut [u64],
) -> bool
    requires there { q < length computation.now.events }
    requires starts_each { length starts.old ≡ length computation.now.events }
    requires leaves_each { length leaves.old ≡ length computation.now.events }
    requires within { from ≤ event_count computation.now.events q + 1 }
    ensures some { result ≡ true → HasEntered (G.good wanted.now q) q (event_count computation.now.events q) from
        starts.old leaves.old starts.new leaves.new }
    ensures none { result ≡ false → HasNoneFrom (G.good wanted.now q) (event_count computation.now.events q) from }
{
    computation.limits();
    let end = computation.events(q) + 1;
    let start = next_good(wanted, q, from, end);
    if start == end {
        return false;
    }
    starts[q] = start;
    leaves[q] = next_bad(wanted, q, start + 1, end);
    true
}
