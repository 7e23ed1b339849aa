//! What an event sets.
ghost use Rattle.read_traces.specs.Columns.{part};
ghost use Rattle.std.specs.List.{zip};
ghost use Rattle.std.specs.Prelude.{◌≡◌, ◌+◌, ◌<◌, ◌≤◌, Some, length, slice_get};

use super::Numbers;
use std::marker::Model;

/// The variables that an event sets, with their values. A clause sees them as a list.
#[derive(Drop)]
pub struct Settings<'a> {
    places: &'a [u8],
    values: &'a Numbers,
    start: usize,
}

impl<'a> Model for Settings<'a> {
    ghost use Rattle.read_traces.specs.Columns.{part};
    ghost use Rattle.std.specs.List.{zip};
    ghost use Rattle.std.specs.Prelude.{◌+◌, ◌≤◌, ℕ, List, ℤ, length};

    ghost Value = { List (ℕ × ℤ) };

    ghost view = { λ s. zip s.places.now (part s.start (length s.places.now) s.values.now) };

    ghost invariant = { λ s. s.start + length s.places.now ≤ length s.values.now };
}

/// The setting at this index, whose value stands this far after the start.
fn setting_at(places: &[u8], values: &Numbers, start: usize, i: usize) -> (usize, i64)
    requires place { i < length places.now }
    requires values { start + length places.now ≤ length values.now }
    ensures { slice_get (zip places.now (part start (length places.now) values.now)) i ≡ Some result }
{
    // A proof knows by this call that the sum below has room.
    let _count = values.len();
    (places[i] as usize, values.get(start + i))
}

impl<'a> Settings<'a> {
    /// The settings of these variables to the values that stand from this index on.
    pub(crate) fn new(places: &'a [u8], values: &'a Numbers, start: usize) -> Settings<'a>
        requires { start + length places.now ≤ length values.now }
        ensures { result ≡ zip places.now (part start (length places.now) values.now) }
    {
        Settings {
            places,
            values,
            start,
        }
    }

    /// How many variables are set.
    pub fn len(&self) -> usize
        ensures { result ≡ length self.now }
    {
        self.places.len()
    }

    /// The variable that is set at this index, counted from 0 among those of the process, and its value. Variables
    /// ascend.
    pub fn get(&self, i: usize) -> (usize, i64)
        requires { i < length self.now }
        ensures { slice_get self.now i ≡ Some result }
    {
        setting_at(self.places, self.values, self.start, i)
    }
}
