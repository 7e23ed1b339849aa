//! Why the engine gives no report.
use pd_gather::ReadFault;
use pd_report::WriteFault;
use read_bundle::BundleFault;
use std::alloc::{AllocError, AllocFailed};
use thiserror::Error;

/// What kept the engine from its report. None of these says anything about what was read.
#[derive(Debug, Drop, Error)]
pub enum EngineFault {
    /// An allocation was refused.
    #[error("memory")]
    Memory,
    /// The report could not be written, or the writer not flushed.
    #[error("write")]
    Write,
    /// The input could not be read.
    #[error("read")]
    Read,
    /// The bundle has over 67,108,864 bytes.
    #[error("bundle too long")]
    BundleLong,
}

impl From<AllocError> for EngineFault {
    ghost use Rattle.std.specs.Prelude.{◌≡◌};
    ghost use Rattle.judge_session.specs.declared.fault.EngineFault.TheVariants.{Memory};

    ghost from_gives = { λ _ fault. fault ≡ Memory };

    fn from(_e: AllocError) -> EngineFault {
        EngineFault::Memory
    }
}

impl<T: Drop> From<AllocFailed<T>> for EngineFault {
    ghost use Rattle.std.specs.Prelude.{◌≡◌};
    ghost use Rattle.judge_session.specs.declared.fault.EngineFault.TheVariants.{Memory};

    ghost from_gives = { λ _ fault. fault ≡ Memory };

    fn from(_e: AllocFailed<T>) -> EngineFault {
        EngineFault::Memory
    }
}

impl From<WriteFault> for EngineFault {
    ghost use Rattle.std.specs.Prelude.{◌≡◌};
    ghost use Rattle.judge_session.specs.Faults.{engine_fault};

    ghost from_gives = { λ fault e. e ≡ engine_fault fault };

    fn from(fault: WriteFault) -> EngineFault {
        match fault {
            WriteFault::Memory => EngineFault::Memory,
            WriteFault::Write => EngineFault::Write,
        }
    }
}

impl From<ReadFault> for EngineFault {
    ghost use Rattle.std.specs.Prelude.{◌≡◌};
    ghost use Rattle.judge_session.specs.Faults.{engine_read_fault};

    ghost from_gives = { λ fault e. e ≡ engine_read_fault fault };

    fn from(fault: ReadFault) -> EngineFault {
        match fault {
            ReadFault::Memory => EngineFault::Memory,
            ReadFault::Read => EngineFault::Read,
        }
    }
}

impl From<BundleFault> for EngineFault {
    ghost use Rattle.std.specs.Prelude.{◌≡◌};
    ghost use Rattle.judge_session.specs.Faults.{engine_bundle_fault};

    ghost from_gives = { λ fault e. e ≡ engine_bundle_fault fault };

    fn from(fault: BundleFault) -> EngineFault {
        match fault {
            BundleFault::Memory => EngineFault::Memory,
            BundleFault::Read => EngineFault::Read,
            BundleFault::Long => EngineFault::BundleLong,
        }
    }
}
