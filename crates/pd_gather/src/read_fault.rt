//! Why bytes weren't read.
use std::alloc::AllocError;

/// Why the bytes of a source weren't read.
#[derive(Clone, Copy, Debug, PartialEq, Eq)]
pub enum ReadFault {
    /// Memory ran out.
    Memory,
    /// A read failed.
    Read,
}

impl From<AllocError> for ReadFault {
    ghost use Rattle.pd_gather.specs.declared.read_fault.ReadFault.{ReadFault};
    ghost use Rattle.std.specs.Prelude.{◌≡◌};

    ghost from_gives = { λ _ e. e ≡ ReadFault.Memory };

    fn from(_error: AllocError) -> ReadFault {
        ReadFault::Memory
    }
}
