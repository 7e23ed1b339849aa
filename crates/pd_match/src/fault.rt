//! Why the events can't be matched.
use super::Place;
use std::alloc::{AllocError, AllocFailed};

/// Why the events can't be matched.
#[derive(Clone, Copy, Debug, PartialEq, Eq)]
pub enum MatchFault {
    /// The id of this send is sent at an earlier place.
    SendTwice(Place),
    /// No send has the id of this receipt.
    Orphan(Place),
    /// The send with the id of this receipt is of its own process.
    SelfMessage(Place),
    /// The id of this receipt is received at an earlier place: in version 1 by any process, in version 2 by its own.
    ReceivedTwice(Place),
    /// Memory ran out; or a send stands at a process or a number of 2^32 or more, or a receipt at a process of 2^32 - 1
    /// or more.
    Memory,
}

impl From<AllocError> for MatchFault {
    ghost use Rattle.std.specs.Prelude.{◌≡◌};
    ghost use Rattle.pd_match.specs.declared.fault.MatchFault.TheVariants.{Memory};

    ghost from_gives = { λ _ fault. fault ≡ Memory };

    fn from(_refused: AllocError) -> MatchFault {
        MatchFault::Memory
    }
}

impl<T: Drop> From<AllocFailed<T>> for MatchFault {
    ghost use Rattle.std.specs.Prelude.{◌≡◌};
    ghost use Rattle.pd_match.specs.declared.fault.MatchFault.TheVariants.{Memory};

    ghost from_gives = { λ _ fault. fault ≡ Memory };

    fn from(_refused: AllocFailed<T>) -> MatchFault {
        MatchFault::Memory
    }
}
