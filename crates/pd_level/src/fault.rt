//! Why there is no next level.

use std::alloc::AllocError;

/// Why there is no next level.
#[derive(Debug, Drop)]
pub enum LevelFault {
    /// The next level has more cuts than the width allows.
    Wide,
    /// An allocation was refused.
    Memory,
}

impl From<AllocError> for LevelFault {
    ghost use Rattle.std.specs.Prelude.{◌≡◌};
    ghost use Rattle.pd_level.specs.declared.fault.LevelFault.TheVariants.{Memory};

    ghost from_gives = { λ _ fault. fault ≡ Memory };

    fn from(_refused: AllocError) -> LevelFault {
        LevelFault::Memory
    }
}
