//! How many processes, events and messages a run has.
ghost use Rattle.app_reduce.specs.ReducedTexts.{counts_line};
ghost use Rattle.std.specs.Prelude.{◌≡◌, ◌++◌, OnOk};

use pd_report::{push_bytes, push_number};
use std::alloc::AllocError;

/// How many processes, events and messages a run has, or a session.
#[derive(Clone, Copy)]
pub struct Counts {
    /// How many processes.
    pub processes: u64,
    /// How many events they have together.
    pub events: u64,
    /// How many messages were sent and received.
    pub messages: u64,
}

/// Appends the line that says after this word how many there are.
pub(crate) fn push_counts(out: &mut Vec<u8>, word: &str, counts: Counts) -> Result<(), AllocError>
    ensures { OnOk result (out.new.items ≡ out.old.items
        ++ counts_line word.now counts.processes counts.events counts.messages) }
{
    push_bytes(out, word.as_bytes())?;
    push_bytes(out, b" ")?;
    push_number(out, counts.processes)?;
    push_bytes(out, b" processes ")?;
    push_number(out, counts.events)?;
    push_bytes(out, b" events ")?;
    push_number(out, counts.messages)?;
    push_bytes(out, b" messages\n")?;
    Ok(())
}
