//! Counts of events, one for each process.
ghost use Rattle.std.specs.Prelude.{◌≡◌, ◌<◌, ◌≤◌, length, slice_index, IfOk, IsOk};
ghost use Rattle.def_format.specs.Limits.{process_limit};
ghost use Rattle.def_model.specs.Cuts.{one_less, one_more};

use def_format::PROCESS_LIMIT;
use smallvec::SmallVec;
use std::alloc::{AllocError, Global};
use std::marker::Model;

/// How many events of each process are in a cut, in the order of the processes. As many counts as
/// there may be processes take no memory.
#[derive(Drop)]
pub struct Cut {
    counts: SmallVec<u64, PROCESS_LIMIT>,
}

impl Model for Cut {
    ghost use Rattle.std.specs.Prelude.{ℕ, List};

    ghost Value = { List ℕ };

    ghost view = { λ c. c.counts.items };
}

impl Cut {
    /// The cut of these counts. It can't fail if they are no more than there may be processes.
    pub fn new(alloc: Global, counts: &[u64]) -> Result<Cut, AllocError>
        ensures ok { IfOk result (λ cut. cut ≡ counts.now) }
        ensures few { length counts.now ≤ process_limit → IsOk result }
    {
        let counts = SmallVec::from_slice(alloc, counts)?;
        Ok(Cut { counts })
    }

    /// The counts, in the order of the processes.
    pub fn counts(&self) -> &[u64]
        ensures { result.now ≡ self.now }
    {
        self.counts.as_slice()
    }
    /// Takes the last event of process `p`, counted from 0, out of the cut.
    pub fn undo(&mut self, p: usize)
        requires { 0 < slice_index self.old p }
        ensures { self.new ≡ one_less self.old p }
    {
        self.counts[p] -= 1;
    }

    /// Adds the next event of process `p`, counted from 0, to the cut.
    pub fn redo(&mut self, p: usize)
        requires there { p < length self.old }
        requires room { slice_index self.old p < 18446744073709551615 }
        ensures { self.new ≡ one_more self.old p }
    {
        self.counts[p] += 1;
    }
}
