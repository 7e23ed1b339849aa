//! Why a report is not written.
use std::alloc::AllocError;
use thiserror::Error;

/// What kept a report from being written.
#[derive(Debug, Drop, Error)]
pub enum WriteFault {
    /// An allocation was refused. Nothing was written.
    #[error("memory")]
    Memory,
    /// The writer failed, in whatever way, or took nothing. A prefix of the text was written, and not all of it.
    #[error("write")]
    Write,
}

impl From<AllocError> for WriteFault {
    ghost use Rattle.pd_report.specs.declared.fault.WriteFault.TheVariants.{Memory};
    ghost use Rattle.std.specs.Prelude.{◌≡◌};

    ghost from_gives = { λ _ fault. fault ≡ Memory };

    fn from(_e: AllocError) -> WriteFault {
        WriteFault::Memory
    }
}
