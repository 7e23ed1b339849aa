//! A cut by the key of its prefix and its last two counts, and which events can be added to it.
ghost use Rattle.walk_keys.specs.Keys.{count_base, digits, key_of};
ghost use Rattle.def_model.specs.Cuts.{IsConsistent, one_more};
ghost use Rattle.def_model.specs.Events.{place};
ghost use Rattle.def_model.specs.Messages.{IsMessage};
ghost use Rattle.walk_runs.specs.Births.{next_of};
ghost use Rattle.walk_runs.specs.Points.{point_cut};
ghost use Rattle.std.specs.Prelude.{◌≡◌, ◌+◌, ◌-◌, ◌/◌, ◌^◌, ◌<◌, ◌≤◌, ◌↔◌, IsTrue, length, slice_index};

use super::Steps;
use std::marker::Model;
use walk_keys::Key;

/// A cut: the counts of its prefix as the digits of a number, and its last two counts.
#[derive(Drop)]
pub(crate) struct Point<K: Key> {
    pub(crate) key: K,
    pub(crate) x: u32,
    pub(crate) y: u32,
}

impl<K: Key> Model for Point<K> {
    ghost use Rattle.walk_runs.specs.Kept.{KeyedCut};

    ghost Value = { KeyedCut };

    ghost view = { λ point. record { key = K.number point.key; x = point.x; y = point.y } };
}

/// The count of process `q` in a cut with this many counts before the last two.
pub(crate) fn count<K: Key>(point: &Point<K>, prefix: usize, q: usize) -> u64
    requires few { prefix ≤ K.room }
    requires below { point.now.key < count_base ^ prefix }
    requires within { q < prefix + 2 }
    ensures { result ≡ slice_index (point_cut prefix point.now) q }
{
    if q < prefix {
        point.key.digit(prefix, q)
    } else if q == prefix {
        u64::from(point.x)
    } else {
        u64::from(point.y)
    }
}

/// Whether the next event of process `p` can be added to the cut.
pub(crate) fn can_add<K: Key>(steps: &Steps<'_, '_>, point: &Point<K>, p: usize) -> bool
    requires few { length steps.now ≤ K.room }
    requires within { p < length steps.now }
    requires below { point.now.key < count_base ^ (length steps.now - 2) }
    requires cut { IsConsistent steps.now (point_cut (length steps.now - 2) point.now) }
    ensures { IsTrue result ↔ IsConsistent steps.now (one_more (point_cut (length steps.now - 2) point.now) p) }
{
    steps.limits();
    let prefix = steps.prefix();
    let need = steps.need(p, count(point, prefix, p));
    u64::from(need.number) <= count(point, prefix, need.process as usize)
}

/// Whether the next event of process `p` can be added to the cut, and needs the last event of process `q` in it.
pub(crate) fn follows<K: Key>(steps: &Steps<'_, '_>, point: &Point<K>, p: usize, q: usize) -> bool
    requires few { length steps.now ≤ K.room }
    requires within { p < length steps.now }
    requires sender { q < length steps.now }
    requires below { point.now.key < count_base ^ (length steps.now - 2) }
    requires cut { IsConsistent steps.now (point_cut (length steps.now - 2) point.now) }
    ensures added { IsTrue result → IsConsistent steps.now (one_more (point_cut (length steps.now - 2) point.now) p) }
    ensures all { IsMessage steps.now (place q (slice_index (point_cut (length steps.now - 2) point.now) q))
        (next_of (point_cut (length steps.now - 2) point.now) p) → IsTrue result }
{
    steps.limits();
    let prefix = steps.prefix();
    let need = steps.need(p, count(point, prefix, p));
    need.process as usize == q && u64::from(need.number) == count(point, prefix, q)
}

/// The cut as one number, whose digits are its counts.
pub(crate) fn key_of_cut<K: Key>(point: &Point<K>, prefix: usize) -> K
    requires few { prefix + 2 ≤ K.room }
    requires below { point.now.key < count_base ^ prefix }
    requires x { point.now.x < count_base }
    requires y { point.now.y < count_base }
    ensures { K.number result ≡ key_of (point_cut prefix point.now) }
{
    point.key.with_two(u64::from(point.x), u64::from(point.y))
}

/// The cut of `n` processes with these digits.
pub(crate) fn point_of<K: Key>(cut: K, n: usize) -> Point<K>
    requires few { n ≤ K.room }
    requires two { 2 ≤ n }
    requires below { K.number cut < count_base ^ n }
    ensures below { result.key < count_base ^ (n - 2) }
    ensures cut { point_cut (n - 2) result ≡ digits n (K.number cut) }
    ensures key { result.key ≡ K.number cut / count_base / count_base }
{
    Point {
        key: cut.without_two(),
        x: cut.digit(n, n - 2) as u32,
        y: cut.digit(n, n - 1) as u32,
    }
}
