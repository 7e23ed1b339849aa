//! Why the streams of a run aren't open.
use std::alloc::{AllocError, AllocFailed};

/// Why the streams of a run aren't open.
#[derive(Drop)]
pub enum Unopened {
    /// The file of this name can't be opened.
    Stream(String),
    /// An allocation was refused.
    Memory,
}

impl From<AllocError> for Unopened {
    ghost use Rattle.app_test.specs.declared.unopened.Unopened.TheVariants.{Memory};
    ghost use Rattle.std.specs.Prelude.{◌≡◌};

    ghost from_gives = { λ _ unopened. unopened ≡ Memory };

    fn from(_e: AllocError) -> Unopened {
        Unopened::Memory
    }
}

impl<T: Drop> From<AllocFailed<T>> for Unopened {
    ghost use Rattle.app_test.specs.declared.unopened.Unopened.TheVariants.{Memory};
    ghost use Rattle.std.specs.Prelude.{◌≡◌};

    ghost from_gives = { λ _ unopened. unopened ≡ Memory };

    fn from(_e: AllocFailed<T>) -> Unopened {
        Unopened::Memory
    }
}
