//! Why a text is refused as a predicate.
use def_format::PREDICATE_BYTE_LIMIT;
use std::alloc::AllocError;

/// What is wrong with a predicate's text.
#[derive(Clone, Copy, Debug, PartialEq, Eq)]
pub enum PredErrorKind {
    /// The text has over `PREDICATE_BYTE_LIMIT` bytes.
    Long,
    /// A byte begins no token and is neither space nor tab.
    Character,
    /// A number is over 9223372036854775807, or over 2147483647 with `*` after it.
    Number,
    /// A token with which the tokens so far begin no predicate.
    Expected,
    /// A name that no process has, or that no variable of the process has.
    UnknownName,
    /// A `(` or `not` inside `DEPTH_LIMIT` others.
    Depth,
    /// Memory ran out.
    Memory,
}

/// A refusal of a predicate's text.
#[derive(Clone, Copy, Debug, PartialEq, Eq)]
pub struct PredError {
    /// What is wrong.
    pub kind: PredErrorKind,
    /// The byte where it is wrong, counted from 1; 0 if memory ran out.
    pub at: u64,
}

impl PredError {
    /// The refusal of a text that is too long: its first byte over the limit is at fault.
    pub(crate) const LONG: PredError = PredError {
        kind: PredErrorKind::Long,
        at: PREDICATE_BYTE_LIMIT as u64 + 1,
    };

    /// The refusal because memory ran out.
    pub(crate) const MEMORY: PredError = PredError {
        kind: PredErrorKind::Memory,
        at: 0,
    };
}

impl From<AllocError> for PredError {
    ghost use Rattle.std.specs.Prelude.{◌≡◌};
    ghost use Rattle.pd_pred.specs.Views.{memory_error};

    ghost from_gives = { λ _ e. e ≡ memory_error };

    fn from(_e: AllocError) -> PredError {
        PredError::MEMORY
    }
}
