//! Why there is no computation.
use pd_match::Place;
use std::alloc::AllocError;

/// Why there is no computation.
#[derive(Debug, Drop)]
pub enum BuildFault {
    /// Some event happened before itself. The places are those of receipts, each in another process, on one causal
    /// cycle: from each place the next is the first event on such a cycle or after one, of the process that sent its
    /// message, and from the last it is the first again.
    Cycle(Vec<Place>),
    /// Memory ran out.
    Memory,
}

impl From<AllocError> for BuildFault {
    ghost use Rattle.std.specs.Prelude.{◌≡◌};
    ghost use Rattle.pd_clock.specs.declared.fault.BuildFault.TheVariants.{Memory};

    ghost from_gives = { λ _ fault. fault ≡ Memory };

    fn from(_refused: AllocError) -> BuildFault {
        BuildFault::Memory
    }
}
