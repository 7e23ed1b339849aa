//! The cuts that have one event more than those of a list.
ghost use Rattle.def_format.specs.Limits.{event_limit};
ghost use Rattle.walk_keys.specs.Keys.{Ascending};
ghost use Rattle.pd_level.specs.MoreCuts.{AreCuts, IsInRange, IsMoreBy, IsMoreBySome, piece};
ghost use Rattle.def_model.specs.Events.{event_count};
ghost use Rattle.std.specs.Prelude.{◌<◌, ◌≤◌, ◌↔◌, ℕ, Contains, IfOk, length};

use super::can::can_add;
use super::list::KeyList;
use super::merge::merge;
use super::range::{range_end, range_start};
use pd_clock::Computation;
use std::alloc::{AllocError, Global};
use walk_keys::Key;

/// The cuts that one more event of process `p` makes of those from the index `start` on and before `end`, ascending as
/// they do.
fn more_by<K: Key>(
    alloc: Global,
    computation: &Computation<'_>,
    keys: &KeyList<K>,
    p: usize,
    start: usize,
    end: usize,
) -> Result<KeyList<K>, AllocError>
    requires few { length computation.now.events ≤ K.room }
    requires within { p < length computation.now.events }
    requires small { (q : ℕ) → event_count computation.now.events q ≤ event_limit }
    requires cuts { AreCuts computation.now.events keys.now }
    requires piece { (start ≤ end) × (end ≤ length keys.now) }
    ensures ascending { IfOk result (λ more. Ascending more) }
    ensures just { IfOk result (λ more.
        (x : ℕ) → Contains more x ↔ IsMoreBy computation.now.events (piece keys.now start end) p x) }
{
    computation.limits();
    let processes = computation.processes();
    let mut more = KeyList::with_room(alloc, end - start)?;
    for i in 0..end - start {
        let key = keys.get(start + i);
        if can_add(computation, key, p) {
            more.push(key.one_more(processes, p))?;
        }
    }
    Ok(more)
}

/// The cuts that one more event of process `p` makes of these, those alone that lie between two of these.
fn more_between<K: Key>(
    alloc: Global,
    computation: &Computation<'_>,
    keys: &KeyList<K>,
    p: usize,
    from: usize,
    to: usize,
) -> Result<KeyList<K>, AllocError>
    requires few { length computation.now.events ≤ K.room }
    requires within { p < length computation.now.events }
    requires small { (q : ℕ) → event_count computation.now.events q ≤ event_limit }
    requires cuts { AreCuts computation.now.events keys.now }
    requires from { 0 < from → from < length keys.now }
    ensures ascending { IfOk result (λ more. Ascending more) }
    ensures just { IfOk result (λ more. (x : ℕ) → Contains more x
        ↔ (IsMoreBy computation.now.events keys.now p x × IsInRange keys.now from to x)) }
{
    computation.limits();
    let processes = computation.processes();
    let start = range_start(keys, processes, p, from);
    let end = range_end(keys, processes, p, start, to);
    more_by(alloc, computation, keys, p, start, end)
}

/// The cuts that one more event of one of the processes from `first` on and before `last` makes of these, those alone
/// that lie between two of these, each once and ascending. The processes go by halves.
fn more_by_some<K: Key>(
    alloc: Global,
    computation: &Computation<'_>,
    keys: &KeyList<K>,
    first: usize,
    last: usize,
    from: usize,
    to: usize,
) -> Result<KeyList<K>, AllocError>
    requires few { length computation.now.events ≤ K.room }
    requires processes { (first < last) × (last ≤ length computation.now.events) }
    requires small { (q : ℕ) → event_count computation.now.events q ≤ event_limit }
    requires cuts { AreCuts computation.now.events keys.now }
    requires from { 0 < from → from < length keys.now }
    ensures more { IfOk result (λ more.
        IsMoreBySome computation.now.events keys.now from to first last more) }
{
    if last - first == 1 {
        return more_between(alloc, computation, keys, first, from, to);
    }
    let middle = first + (last - first) / 2;
    let left = more_by_some(alloc, computation, keys, first, middle, from, to)?;
    let right = more_by_some(alloc, computation, keys, middle, last, from, to)?;
    merge(alloc, &left, &right)
}

/// The cuts that one more event of any process makes of these, those alone that lie between two of these, each once and
/// ascending. If there is a key, it has room for the counts of all processes.
pub(crate) fn more_by_any<K: Key>(
    alloc: Global,
    computation: &Computation<'_>,
    keys: &KeyList<K>,
    from: usize,
    to: usize,
) -> Result<KeyList<K>, AllocError>
    requires few { 0 < length keys.now → length computation.now.events ≤ K.room }
    requires small { (q : ℕ) → event_count computation.now.events q ≤ event_limit }
    requires cuts { AreCuts computation.now.events keys.now }
    requires from { 0 < from → from < length keys.now }
    ensures more { IfOk result (λ more. IsMoreBySome computation.now.events keys.now from to 0
        (length computation.now.events) more) }
{
    computation.limits();
    if keys.len() == 0 {
        return KeyList::with_room(alloc, 0);
    }
    more_by_some(
        alloc,
        computation,
        keys,
        0,
        computation.processes(),
        from,
        to,
    )
}
