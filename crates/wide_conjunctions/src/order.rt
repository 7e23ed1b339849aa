//! The order in which cuts are looked at.
ghost use Rattle.def_format.specs.Limits.{event_limit, process_limit};
ghost use Rattle.wide_conjunctions.specs.CutOrder.{ComesBefore};
ghost use Rattle.def_model.specs.Answers.{LexBelow};
ghost use Rattle.std.specs.Prelude.{◌≡◌, ◌≤◌, ◌*◌, ◌↔◌, IsTrue, length, sum};

use pd_clock::Cut;

/// Whether a cut comes before another in the order in which cuts are looked at: by how many events they have, and then
/// by their counts, process by process. Both have no more events than a computation may have.
pub fn is_before(a: &Cut, b: &Cut) -> bool
    requires same { length a.now ≡ length b.now }
    requires first { sum a.now ≤ event_limit * process_limit }
    requires second { sum b.now ≤ event_limit * process_limit }
    ensures { IsTrue result ↔ ComesBefore a.now b.now }
{
    let first = events(a.counts());
    let second = events(b.counts());
    first < second || (first == second && is_lex_below(a.counts(), b.counts()))
}

/// How many events there are in a cut of these counts, which has no more than a computation may have.
pub fn events(counts: &[u64]) -> u64
    requires { sum counts.now ≤ event_limit * process_limit }
    ensures { result ≡ sum counts.now }
{
    let mut events = 0;
    for count in counts {
        events += *count;
    }
    events
}

/// Whether the counts come lexicographically before the others, of which there are as many.
pub fn is_lex_below(a: &[u64], b: &[u64]) -> bool
    requires { length a.now ≡ length b.now }
    ensures { IsTrue result ↔ LexBelow a.now b.now }
{
    for p in 0..a.len() {
        if a[p] != b[p] {
            return a[p] < b[p];
        }
    }
    false
}
