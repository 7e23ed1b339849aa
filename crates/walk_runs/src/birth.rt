//! The cuts that one more event of a process of the prefix makes.
ghost use Rattle.walk_keys.specs.Words.{has_bit};
ghost use Rattle.walk_keys.specs.Keys.{count_base};
ghost use Rattle.def_model.specs.Cuts.{IsConsistent, one_more};
ghost use Rattle.walk_runs.specs.Births.{IsMadeLater, IsUndoable};
ghost use Rattle.walk_runs.specs.Points.{GrowsBy, GrowsIf, IsWanted, point_cut};
ghost use Rattle.std.specs.Prelude.{◌≡◌, ◌-◌, ◌^◌, ◌<◌, ◌≤◌, ◌⊎◌, ℕ, IfNone, IfOk, IfSome, IsTrue, false, length};

use super::Steps;
use super::births::Births;
use super::kept_birth::KeptBirth;
use super::point::{Point, can_add, count, follows, key_of_cut};
use std::alloc::AllocError;
use walk_keys::Key;
use walk_keys::bits::{both, down, either, least, lowest, without, words};

/// The number of the first bit from `from` on that is set in the word, if there is one.
fn next_bit(word: u64, from: usize) -> Option<usize>
    requires { from < 64 }
    ensures some { IfSome result (λ p. (from ≤ p) × IsTrue (has_bit word p)
        × ((j : ℕ) → from ≤ j → j < p → has_bit word j ≡ false)) }
    ensures none { IfNone result ((j : ℕ) → from ≤ j → has_bit word j ≡ false) }
{
    let rest = down(word, from as u64);
    words(rest);
    if rest == 0 {
        return None;
    }
    Some(from + least(rest) as usize)
}

/// The processes of the prefix whose next event may be wanted, a bit for each: if there is a `by`, those that receive
/// what its last event in the cut sends.
fn sought_by<K: Key>(steps: &Steps<'_, '_>, point: &Point<K>, by: Option<usize>) -> u64
    requires few { length steps.now ≤ K.room }
    requires below { point.now.key < count_base ^ (length steps.now - 2) }
    requires cut { IsConsistent steps.now (point_cut (length steps.now - 2) point.now) }
    requires sender { IfSome by (λ q. q < length steps.now) }
    ensures all { (p : ℕ) → p < length steps.now - 2
        → IsWanted steps.now (point_cut (length steps.now - 2) point.now) by p → IsTrue (has_bit result p) }
    ensures within { (p : ℕ) → IsTrue (has_bit result p) → p < length steps.now - 2 }
{
    steps.limits();
    match by {
        Some(q) => steps.receivers(q, count(point, steps.prefix(), q)),
        None => lowest(steps.prefix() as u64),
    }
}

/// The same, but that of the processes before `latest` only those are kept that receive what its last event in the cut
/// sends. That event can be undone, and still can be once a lesser process has gone on by an event that doesn't receive
/// what it sends: then `latest` makes that cut too. The greatest process that makes a cut never leaves it out, and few
/// cuts are found more than once, as in the reverse search of Avis and Fukuda (*Reverse Search for Enumeration*, 1996).
/// If `latest` is 0, none is left out.
fn sought_of<K: Key>(
    steps: &Steps<'_, '_>,
    point: &Point<K>,
    by: Option<usize>,
    latest: usize,
) -> u64
    requires few { length steps.now ≤ K.room }
    requires below { point.now.key < count_base ^ (length steps.now - 2) }
    requires cut { IsConsistent steps.now (point_cut (length steps.now - 2) point.now) }
    requires sender { IfSome by (λ q. q < length steps.now) }
    requires latest { 0 < latest → IsUndoable steps.now (point_cut (length steps.now - 2) point.now) latest }
    ensures all { (p : ℕ) → p < length steps.now - 2
        → IsWanted steps.now (point_cut (length steps.now - 2) point.now) by p → IsTrue (has_bit result p)
        ⊎ IsMadeLater steps.now (one_more (point_cut (length steps.now - 2) point.now) p) p }
    ensures within { (p : ℕ) → IsTrue (has_bit result p) → p < length steps.now - 2 }
{
    steps.limits();
    let all = sought_by(steps, point, by);
    if latest == 0 {
        return all;
    }
    let lesser = lowest(latest as u64);
    let followers = steps.receivers(latest, count(point, steps.prefix(), latest));
    either(without(all, lesser), both(followers, lesser))
}

/// Whether the next event of process `p` can be added to the cut, and receives what the last event of process `by` in
/// it sends, if there is a `by`, or what that of process `latest` sends, if `p` is before that. Of the processes before
/// `latest` no other makes a cut that `latest` doesn't make too.
fn makes<K: Key>(
    steps: &Steps<'_, '_>,
    point: &Point<K>,
    by: Option<usize>,
    latest: usize,
    p: usize,
) -> bool
    requires few { length steps.now ≤ K.room }
    requires within { p < length steps.now }
    requires below { point.now.key < count_base ^ (length steps.now - 2) }
    requires cut { IsConsistent steps.now (point_cut (length steps.now - 2) point.now) }
    requires sender { IfSome by (λ q. q < length steps.now) }
    requires latest { 0 < latest → IsUndoable steps.now (point_cut (length steps.now - 2) point.now) latest }
    ensures added { IsTrue result → IsConsistent steps.now (one_more (point_cut (length steps.now - 2) point.now) p) }
    ensures all { IsWanted steps.now (point_cut (length steps.now - 2) point.now) by p → IsTrue result
        ⊎ IsMadeLater steps.now (one_more (point_cut (length steps.now - 2) point.now) p) p }
{
    steps.limits();
    if p < latest {
        return follows(steps, point, p, latest);
    }
    match by {
        Some(q) => follows(steps, point, p, q),
        None => can_add(steps, point, p),
    }
}

/// Adds the cuts that one more event of a process of the prefix makes of this one: all of them, or those whose event
/// receives what the last event of process `by` sends. Those are left out that process `latest` makes too. Only the
/// processes that are sought are looked at.
pub(crate) fn add_births<K: Key>(
    steps: &Steps<'_, '_>,
    point: &Point<K>,
    by: Option<usize>,
    latest: usize,
    born: &mut Births<K>,
) -> Result<(), AllocError>
    requires few { length steps.now ≤ K.room }
    requires below { point.now.key < count_base ^ (length steps.now - 2) }
    requires cut { IsConsistent steps.now (point_cut (length steps.now - 2) point.now) }
    requires sender { IfSome by (λ q. q < length steps.now) }
    requires latest { 0 < latest → IsUndoable steps.now (point_cut (length steps.now - 2) point.now) latest }
    ensures { IfOk result (λ _. GrowsBy steps.now (point_cut (length steps.now - 2) point.now) by
        (length steps.now - 2) born.old born.new) }
{
    steps.limits();
    let prefix = steps.prefix();
    let cut = key_of_cut(point, prefix);
    let sought = sought_of(steps, point, by, latest);
    let mut from = 0;
    'births: while let Some(p) = next_bit(sought, from) {
        if makes(steps, point, by, latest, p) {
            born.push(KeptBirth {
                cut: cut.one_more(prefix + 2, p),
                by: p,
            })?;
        }
        from = p + 1;
    }
    Ok(())
}

/// Where `wanted`, adds the cuts that one more event of a process of the prefix makes of this one, if it receives what
/// the last event of process `q` sends.
pub(crate) fn add_births_if<K: Key>(
    steps: &Steps<'_, '_>,
    wanted: bool,
    point: &Point<K>,
    q: usize,
    born: &mut Births<K>,
) -> Result<(), AllocError>
    requires few { length steps.now ≤ K.room }
    requires below { point.now.key < count_base ^ (length steps.now - 2) }
    requires cut { IsConsistent steps.now (point_cut (length steps.now - 2) point.now) }
    requires sender { q < length steps.now }
    ensures { IfOk result (λ _. GrowsIf steps.now (point_cut (length steps.now - 2) point.now) wanted q
        (length steps.now - 2) born.old born.new) }
{
    if !wanted {
        return Ok(());
    }
    add_births(steps, point, Some(q), 0, born)
}
