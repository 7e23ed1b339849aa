//! Why a line adds nothing.
use std::alloc::{AllocError, AllocFailed};

/// Why a line adds nothing to a summary.
#[derive(Clone, Copy, Debug, PartialEq, Eq)]
pub enum LineFault {
    /// It is no answer, no error and no summary.
    Shape,
    /// A sum is over 18,446,744,073,709,551,615.
    Overflow,
    /// Memory ran out.
    Memory,
}

impl From<AllocError> for LineFault {
    ghost use Rattle.judge_summary.specs.declared.fault.LineFault.TheVariants as faults;
    ghost use Rattle.std.specs.Prelude.{◌≡◌};

    ghost from_gives = { λ _ fault. fault ≡ faults.Memory };

    fn from(_error: AllocError) -> LineFault {
        LineFault::Memory
    }
}
