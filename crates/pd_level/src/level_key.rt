//! The keys of which levels are made.
ghost use Rattle.pd_level.specs.Levels.{IsKept, cuts_of};
ghost use Rattle.std.specs.Prelude.{◌≡◌, map};

use super::keys::Keys;
use super::level::Level;
use super::list::KeyList;
use walk_keys::{Key, Pair};

/// A key of which levels are made.
pub trait LevelKey: Key {
    /// The level of this number with the cuts of these keys, each of which has as many digits as there are processes.
    fn level_of(number: u64, processes: usize, keys: Vec<Self>) -> Level
        requires kept { IsKept processes (map Self.number keys.items) }
        requires kind { Self.fits processes }
        ensures { result ≡ record { number = number; cuts = cuts_of processes (map Self.number keys.items) } };
}

impl LevelKey for u128 {
    fn level_of(number: u64, processes: usize, keys: Vec<u128>) -> Level
        requires kept { IsKept processes (map ⟦<u128 as Key>⟧.number keys.items) }
        requires kind { ⟦<u128 as Key>⟧.fits processes }
        ensures { result ≡ record {
          number = number;
          cuts = cuts_of processes
              (map ⟦<u128 as Key>⟧.number keys.items);
        } }
    {
        Level::of_keys(number, processes, Keys::Single(KeyList::of(keys)))
    }
}

impl LevelKey for Pair {
    fn level_of(number: u64, processes: usize, keys: Vec<Pair>) -> Level
        requires kept { IsKept processes (map ⟦<Pair as Key>⟧.number keys.items) }
        requires kind { ⟦<Pair as Key>⟧.fits processes }
        ensures { result ≡ record {
          number = number;
          cuts = cuts_of processes
              (map ⟦<Pair as Key>⟧.number keys.items);
        } }
    {
        Level::of_keys(number, processes, Keys::Pairs(KeyList::of(keys)))
    }
}
