//! Why a run has no session.
use std::alloc::{AllocError, AllocFailed};

/// Why a run has no session.
#[derive(Drop)]
pub(crate) enum Unbundled {
    /// The file of this name can't be opened or read.
    Unread(String),
    /// The file of this name isn't UTF-8.
    NoText(String),
    /// An allocation was refused.
    Memory,
}

impl From<AllocError> for Unbundled {
    ghost use Rattle.app_bundle.specs.declared.unbundled.Unbundled.TheVariants.{Memory};
    ghost use Rattle.std.specs.Prelude.{◌≡◌};

    ghost from_gives = { λ _ unbundled. unbundled ≡ Memory };

    fn from(_e: AllocError) -> Unbundled {
        Unbundled::Memory
    }
}

impl<T: Drop> From<AllocFailed<T>> for Unbundled {
    ghost use Rattle.app_bundle.specs.declared.unbundled.Unbundled.TheVariants.{Memory};
    ghost use Rattle.std.specs.Prelude.{◌≡◌};

    ghost from_gives = { λ _ unbundled. unbundled ≡ Memory };

    fn from(_e: AllocFailed<T>) -> Unbundled {
        Unbundled::Memory
    }
}
