//! Why streams weren't gathered.
use std::alloc::AllocError;

/// Why the streams of a session weren't gathered.
#[derive(Clone, Copy, Debug, PartialEq, Eq)]
pub enum GatherFault {
    /// Memory ran out.
    Memory,
}

impl From<AllocError> for GatherFault {
    ghost use Rattle.pd_gather.specs.declared.gather_fault.GatherFault.{GatherFault};
    ghost use Rattle.std.specs.Prelude.{◌≡◌};

    ghost from_gives = { λ _ e. e ≡ GatherFault.Memory };

    fn from(_error: AllocError) -> GatherFault {
        GatherFault::Memory
    }
}
