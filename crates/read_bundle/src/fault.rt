//! Why a bundle wasn't read.
use std::alloc::{AllocError, AllocFailed};

/// Why a bundle wasn't read.
#[derive(Clone, Copy, Debug, PartialEq, Eq)]
pub enum BundleFault {
    /// Memory ran out.
    Memory,
    /// A read failed.
    Read,
    /// The bundle has over 67,108,864 bytes.
    Long,
}

impl From<AllocError> for BundleFault {
    ghost use Rattle.read_bundle.specs.declared.fault.BundleFault.TheVariants as faults;
    ghost use Rattle.std.specs.Prelude.{◌≡◌};

    ghost from_gives = { λ _ fault. fault ≡ faults.Memory };

    fn from(_error: AllocError) -> BundleFault {
        BundleFault::Memory
    }
}

impl<T: Drop> From<AllocFailed<T>> for BundleFault {
    ghost use Rattle.read_bundle.specs.declared.fault.BundleFault.TheVariants as faults;
    ghost use Rattle.std.specs.Prelude.{◌≡◌};

    ghost from_gives = { λ _ fault. fault ≡ faults.Memory };

    fn from(_error: AllocFailed<T>) -> BundleFault {
        BundleFault::Memory
    }
}
