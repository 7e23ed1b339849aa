//! What the order says of a kept event. Kept events are counted from 0, and what isn't there counts as 0.
use judge_orders::{Order, ProcessOrder};

/// The count at this place.
#[inline(always)]
pub(crate) fn count_at(counts: &[u16], at: usize) -> usize {
    match counts.get(at) {
        Some(count) => *count as usize,
        None => 0,
    }
}

/// How many kept events process `p` has.
pub(crate) fn kept_count(order: &Order, p: usize) -> usize {
    let count = order.processes().len();
    if count == 0 {
        return 0;
    }
    match order.processes().get(p) {
        Some(process) => process.known().len() / count,
        None => 0,
    }
}

/// How many kept events of process `q` are the kept event `i` of process `p` or happened before it.
#[inline(always)]
pub(crate) fn known_count(order: &Order, p: usize, i: usize, q: usize) -> usize {
    let at = i.saturating_mul(order.processes().len()).saturating_add(q);
    match order.processes().get(p) {
        Some(process) => count_at(process.known(), at),
        None => 0,
    }
}

/// What the variable at this place among the `width` ones that are seen of the process is worth after its first kept
/// events, this many.
#[inline(always)]
pub(crate) fn value_at(process: &ProcessOrder, width: usize, kept: usize, place: usize) -> i64 {
    let at = kept.saturating_mul(width).saturating_add(place);
    match process.values().get(at) {
        Some(value) => *value,
        None => 0,
    }
}

/// Whether the order of the first `known` kept events of process `q` and of the kept event `i` of process `p` comes
/// through a kept event of process `s`: one that the latter knows, and that knows the last of the former.
fn leads_through(order: &Order, p: usize, i: usize, q: usize, known: usize, s: usize) -> bool {
    let count = known_count(order, p, i, s);
    if count == 0 {
        return false;
    }
    known <= known_count(order, s, count - 1, q)
}

/// Whether the order of the last of the first `known` kept events of process `q` and of the kept event `i` of process
/// `p` comes through a kept event of a third process.
///
/// It takes time for the processes.
pub(crate) fn comes_through(order: &Order, p: usize, i: usize, q: usize, known: usize) -> bool {
    for s in 0..order.processes().len() {
        if q != s && s != p && leads_through(order, p, i, q, known, s) {
            return true;
        }
    }
    false
}
