//! The connections that haven't joined a process yet.
ghost use Rattle.app_door.specs.Doors.{IsLetIn, token_view};
ghost use Rattle.pd_spec.specs.Views.{document_view};
ghost use Rattle.std.specs.Prelude.{◌≡◌, ◌++◌, [], ◌∷◌, Contains, IfErr, IfOk, IfSome, IsSome, None, false, true};

use super::door::Door;
use super::place_connection::PlaceConnection;
use super::stranger::StrangerReason;
use super::waiting::{Look, Waiting};
use std::alloc::{AllocError, Global};
use std::io::Read;
use std::time::Instant;

/// How many connections may wait.
pub const ROOM_LIMIT: usize = 64;

/// How many seconds a connection may wait.
pub const PATIENCE: u64 = 5;

/// The connections that haven't joined a process yet, the one that has waited longest first, and the processes that
/// have a stream.
#[derive(Drop)]
pub struct Room<'a, C> {
    alloc: Global,
    pub(crate) door: Door<'a>,
    waiting: Vec<Waiting<C>>,
    /// The processes that have a stream, counted from 0, in the order in which they were joined.
    joined: Vec<usize>,
}

/// A connection that is taken out of the room, and why it is closed, if it is.
pub(crate) type Out<C> = (C, Option<StrangerReason>);

impl<'a, C: Drop> Room<'a, C> {
    /// A room in which nobody waits, and of whose processes none has a stream.
    pub fn new(alloc: Global, door: Door<'a>) -> Room<'a, C>
        ensures none { result.joined.items ≡ [] }
        ensures door { result.door ≡ door.entry }
    {
        Room {
            alloc,
            door,
            waiting: Vec::new(alloc),
            joined: Vec::new(alloc),
        }
    }

    /// How many connections wait.
    pub fn len(&self) -> usize {
        self.waiting.len()
    }

    /// With what memory is allocated.
    pub(crate) fn alloc(&self) -> Global {
        self.alloc
    }

    /// Takes out the connection that has waited longest, if as many wait as may.
    pub(crate) fn make_room(&mut self) -> Option<C>
        ensures same { self.new.joined.items ≡ self.old.joined.items }
        ensures door { self.new.door ≡ self.old.door }
    {
        if self.waiting.len() >= ROOM_LIMIT {
            return Some(self.waiting.remove(0).connection);
        }
        None
    }

    /// Has a connection wait until then.
    ///
    /// # Errors
    /// Out of memory; the connection is closed.
    pub(crate) fn enter(&mut self, connection: C, end: Instant) -> Result<(), AllocError>
        ensures same { self.new.joined.items ≡ self.old.joined.items }
        ensures door { self.new.door ≡ self.old.door }
    {
        self.waiting.push(Waiting { connection, end })?;
        Ok(())
    }

    /// Notes that a process has a stream, and gives whether it had none before.
    ///
    /// # Errors
    /// Out of memory; nothing is noted.
    fn join(&mut self, process: usize) -> Result<bool, AllocError>
        ensures first { IfOk result (λ is_first. is_first ≡ true → (¬ (Contains self.old.joined.items process))
            × (self.new.joined.items ≡ self.old.joined.items ++ process ∷ [])) }
        ensures again { IfOk result (λ is_first. is_first ≡ false → self.new.joined.items ≡ self.old.joined.items) }
        ensures err { IfErr result (λ _. self.new.joined.items ≡ self.old.joined.items) }
        ensures door { self.new.door ≡ self.old.door }
    {
        if self.joined.contains(&process) {
            return Ok(false);
        }
        self.joined.push(process)?;
        Ok(true)
    }
}

impl<'a, S: Read + Drop> Room<'a, PlaceConnection<S>> {
    /// Looks at each connection, and takes out the first one that is let in, or is to be closed, for that reason, if
    /// there is one.
    ///
    /// # Errors
    /// Out of memory.
    pub(crate) fn next_out(
        &mut self,
        now: Instant,
    ) -> Result<Option<Out<PlaceConnection<S>>>, AllocError>
        ensures joined { IfOk result (λ out. IfSome out (λ found. found.1 ≡ None
            → IsLetIn (document_view self.old.door.spec.now).names (token_view self.old.door.token)
            self.old.joined.items self.new.joined.items found.0)) }
        ensures closed { IfOk result (λ out. IfSome out (λ found. IsSome found.1
            → self.new.joined.items ≡ self.old.joined.items)) }
        ensures none { IfOk result (λ out. out ≡ None → self.new.joined.items ≡ self.old.joined.items) }
        ensures err { IfErr result (λ _. self.new.joined.items ≡ self.old.joined.items) }
        ensures door { self.new.door ≡ self.old.door }
    {
        let alloc = self.alloc;
        for place in 0..self.waiting.len() {
            if place >= self.waiting.len() {
                return Ok(None);
            }
            let mut waiting = self.waiting.remove(place);
            match waiting.look(alloc, &self.door, now)? {
                Look::Waits => self.waiting.insert(place, waiting)?,
                Look::Joins(process) => {
                    let is_first = self.join(process)?;
                    return Ok(Some((waiting.connection, taken_reason(is_first))));
                }
                Look::Leaves(reason) => return Ok(Some((waiting.connection, Some(reason)))),
            }
        }
        Ok(None)
    }
}

/// Why a connection is closed that joins a process: for no reason, if it is the first one.
fn taken_reason(is_first: bool) -> Option<StrangerReason>
    ensures first { result ≡ None → is_first ≡ true }
    ensures again { IsSome result → is_first ≡ false }
{
    if is_first {
        None
    } else {
        Some(StrangerReason::Taken)
    }
}
