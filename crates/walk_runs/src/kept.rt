//! A run as it is kept.
use std::marker::Model;
use walk_keys::Key;

/// The cuts of a level that agree in all counts but the last two.
#[derive(Drop)]
pub(crate) struct KeptRun<K: Key> {
    /// The counts of the prefix as the digits of a number.
    pub(crate) key: K,
    /// The least and the greatest count of the last process but one.
    pub(crate) lo: u32,
    pub(crate) hi: u32,
    /// The sum of the last two counts.
    pub(crate) rest: u32,
    /// Where the run of the same prefix stands in the level before, or would stand. It is a hint: nothing rests on it.
    pub(crate) from: u32,
}

impl<K: Key> Model for KeptRun<K> {
    ghost use Rattle.walk_runs.specs.Kept.{KeyedRun};

    ghost Value = { KeyedRun };

    ghost view = { λ run. record { key = K.number run.key; lo = run.lo; hi = run.hi; rest = run.rest } };
}
