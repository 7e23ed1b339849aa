//! Why streams are no session.
use pd_events::StreamFault;
use std::alloc::AllocError;

/// Why the streams are no session. Streams and processes are counted from 0.
#[derive(Clone, Copy, Debug, PartialEq, Eq)]
pub enum SessionFault {
    /// There are more streams than a session may have.
    Streams,
    /// This stream has this fault.
    Stream(u64, StreamFault),
    /// An earlier stream joined this one's process, which this one joins in this line.
    Taken(u64, u64),
    /// No stream joined this process.
    Absent(usize),
    /// Memory ran out.
    Memory,
}

impl From<AllocError> for SessionFault {
    ghost use Rattle.pd_gather.specs.declared.fault.SessionFault.{SessionFault};
    ghost use Rattle.std.specs.Prelude.{◌≡◌};

    ghost from_gives = { λ _ e. e ≡ SessionFault.Memory };

    fn from(_error: AllocError) -> SessionFault {
        SessionFault::Memory
    }
}
