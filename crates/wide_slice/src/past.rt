//! The counts of a cut, in as little memory as they take.
ghost use Rattle.def_format.specs.Limits.{event_limit, process_limit};
ghost use Rattle.std.specs.Prelude.{◌≡◌, ◌<◌, ◌≤◌, ℕ, length, slice_index};

use def_format::PROCESS_LIMIT;
use std::marker::Model;

/// How many events of each process are in a cut, in the order of the processes. It takes two bytes for each process
/// that there may be, and none on the heap.
#[derive(Drop)]
pub(crate) struct Past {
    many: u16,
    counts: [u16; PROCESS_LIMIT],
}

impl Model for Past {
    ghost use Rattle.def_format.specs.Limits.{process_limit};
    ghost use Rattle.std.specs.Prelude.{◌≤◌, ℕ, List, take};

    ghost Value = { List ℕ };

    ghost view = { λ past. take past.many past.counts };

    ghost invariant = { λ past. past.many ≤ process_limit };
}

impl Past {
    /// The past of these counts.
    pub(crate) fn new(counts: &[u64]) -> Past
        requires few { length counts.now ≤ process_limit }
        requires small { (q : ℕ) → q < length counts.now → slice_index counts.now q ≤ event_limit }
        ensures { result ≡ counts.now }
    {
        let mut past = [0; PROCESS_LIMIT];
        for q in 0..counts.len() {
            past[q] = counts[q] as u16;
        }
        Past {
            many: counts.len() as u16,
            counts: past,
        }
    }

    /// The counts, in the order of the processes.
    pub(crate) fn counts(&self) -> &[u16]
        ensures { result.now ≡ self.now }
    {
        &self.counts[..self.many as usize]
    }
}
