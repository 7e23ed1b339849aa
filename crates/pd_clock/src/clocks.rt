//! Whether counts have the past of their last events, by the clocks of these.
ghost use Rattle.pd_clock.specs.Pasts.{HasPast, HasPasts, IsInNoPast, Reach};
ghost use Rattle.std.specs.Prelude.{◌+◌, ◌-◌, ◌*◌, ◌<◌, ◌≤◌, ◌↔◌, IsTrue, length, slice_index};

/// Whether the counts have each event of another process that happened before event `number` of process `p`. The clocks
/// are those of `p`, one after another, each with a number for each count.
pub(crate) fn has_past(clocks: &[u16], number: u64, counts: &[u64], p: usize) -> bool
    requires some { 1 ≤ number }
    requires there { number * length counts.now ≤ length clocks.now }
    ensures { IsTrue result ↔ HasPast clocks.now number counts.now p }
{
    let start = (number as usize - 1) * counts.len();
    for q in 0..counts.len() {
        if q != p && clocks[start + q] as u64 > counts[q] {
            return false;
        }
    }
    true
}

/// Whether the counts have each event that happened before the last counted one of some other process.
pub(crate) fn has_pasts(clocks: &[Vec<u16>], counts: &[u64]) -> bool
    requires { Reach clocks.now counts.now }
    ensures { IsTrue result ↔ HasPasts clocks.now counts.now }
{
    for p in 0..counts.len() {
        if counts[p] > 0 && !has_past(&clocks[p], counts[p], counts, p) {
            return false;
        }
    }
    true
}

/// Whether the last counted event of process `p` is in the clock of event `number` of another process, whose clocks
/// these are.
fn is_in_past(clocks: &[u16], number: u64, counts: &[u64], p: usize) -> bool
    requires some { 1 ≤ number }
    requires there { number * length counts.now ≤ length clocks.now }
    requires within { p < length counts.now }
    ensures { IsTrue result
        ↔ (slice_index counts.now p ≤ slice_index clocks.now ((number - 1) * length counts.now + p)) }
{
    clocks[(number as usize - 1) * counts.len() + p] as u64 >= counts[p]
}

/// Whether the last counted event of process `p` is in the clock of the last counted event of no other process.
pub(crate) fn is_in_no_past(clocks: &[Vec<u16>], counts: &[u64], p: usize) -> bool
    requires within { p < length counts.now }
    requires there { Reach clocks.now counts.now }
    ensures { IsTrue result ↔ IsInNoPast clocks.now counts.now p }
{
    for q in 0..counts.len() {
        if q != p && counts[q] > 0 && is_in_past(&clocks[q], counts[q], counts, p) {
            return false;
        }
    }
    true
}
