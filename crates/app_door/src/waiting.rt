//! A connection that hasn't joined a process yet.
ghost use Rattle.app_door.specs.Doors.{IsStreamOf, joined_by, received, token_view};
ghost use Rattle.app_door.specs.declared.waiting.Look.TheVariants as looks;
ghost use Rattle.pd_spec.specs.Views.{document_view};
ghost use Rattle.std.specs.Prelude.{◌≡◌, ℕ, IfOk, Some};

use super::door::{Door, Said};
use super::place_connection::PlaceConnection;
use super::stranger::StrangerReason;
use pd_events::TraceReader;
use pd_frames::has_line_feed;
use pd_spec::Spec;
use std::alloc::{AllocError, Global};
use std::io::Read;
use std::time::Instant;

/// How many bytes may come before a join, blank lines with them: those that a line may have, and one more.
const START_LIMIT: usize = 65_537;

/// What is known of a connection that is looked at.
#[derive(Clone, Copy)]
pub(crate) enum Look {
    /// It has to be looked at again.
    Waits,
    /// It has joined the process of this number, counted from 0.
    Joins(usize),
    /// It is to be closed.
    Leaves(StrangerReason),
}

/// A connection that hasn't joined a process yet.
#[derive(Drop)]
pub(crate) struct Waiting<C> {
    pub(crate) connection: C,
    /// When it is waited for no longer.
    pub(crate) end: Instant,
}

/// What a stream has come to that begins so: whether it has joined a process, can't join any more, or neither.
fn look_at_start(alloc: Global, spec: &Spec, bytes: &[u8]) -> Result<Look, AllocError>
    ensures { IfOk result (λ look. (process : ℕ) → look ≡ looks.Joins process
        → joined_by (document_view spec.now).names bytes.now ≡ Some process) }
{
    let is_long = bytes.len() >= START_LIMIT;
    if !is_long && !has_line_feed(bytes) {
        return Ok(Look::Waits);
    }
    let mut reader = TraceReader::new(alloc, spec);
    reader.feed(bytes)?;
    match reader.process() {
        Some(process) => Ok(Look::Joins(process)),
        None if is_long || reader.is_closed() => Ok(Look::Leaves(StrangerReason::Join)),
        None => Ok(Look::Waits),
    }
}

impl<S: Read> Waiting<PlaceConnection<S>> {
    /// What all that has come of it comes to.
    fn look_at_received(&mut self, alloc: Global, door: &Door<'_>) -> Result<Look, AllocError>
        ensures { IfOk result (λ look. (process : ℕ) → look ≡ looks.Joins process
            → IsStreamOf (document_view door.now.spec.now).names (token_view door.now.token) process
            self.new.connection) }
    {
        match door.said_first(self.connection.received()) {
            Said::Nothing => Ok(Look::Waits),
            Said::Else => Ok(Look::Leaves(StrangerReason::Token)),
            Said::Start(count) => {
                self.connection.start_at(count);
                look_at_start(alloc, door.spec, self.connection.unread())
            }
        }
    }

    /// Takes in what has come, and looks at it if something has.
    ///
    /// # Errors
    /// Out of memory.
    pub(crate) fn look(
        &mut self,
        alloc: Global,
        door: &Door<'_>,
        now: Instant,
    ) -> Result<Look, AllocError>
        ensures { IfOk result (λ look. (process : ℕ) → look ≡ looks.Joins process
            → IsStreamOf (document_view door.now.spec.now).names (token_view door.now.token) process
            self.new.connection) }
    {
        let before = self.connection.received().len();
        let goes_on = self.connection.take_in(alloc)?;
        if self.connection.received().len() > before {
            match self.look_at_received(alloc, door)? {
                Look::Waits => {}
                look => return Ok(look),
            }
        }
        if !goes_on {
            return Ok(Look::Leaves(StrangerReason::Ended));
        }
        if now >= self.end {
            return Ok(Look::Leaves(StrangerReason::Silent));
        }
        Ok(Look::Waits)
    }
}
