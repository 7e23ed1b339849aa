//! Why bytes are not read as a report.
use std::alloc::AllocError;
use thiserror::Error;

/// What kept a report from being read.
#[derive(Debug, Drop, Error)]
pub enum ReportFault {
    /// The bytes are no report: the number, counted from 1, of the first line with which they stop being one. If the
    /// text stops too early, it is the number after the last line's.
    #[error("line {0}")]
    Line(u64),
    /// An allocation was refused. This says nothing about the bytes.
    #[error("memory")]
    Memory,
}

impl From<AllocError> for ReportFault {
    ghost use Rattle.pd_report.specs.declared.read_fault.ReportFault.TheVariants.{Memory};
    ghost use Rattle.std.specs.Prelude.{◌≡◌};

    ghost from_gives = { λ _ fault. fault ≡ Memory };

    fn from(_e: AllocError) -> ReportFault {
        ReportFault::Memory
    }
}
