//! The next connection that is a stream, or is closed since it is none.
ghost use Rattle.app_door.specs.Doors.{IsLetIn, token_view};
ghost use Rattle.pd_spec.specs.Views.{document_view};
ghost use Rattle.std.specs.Prelude.{◌≡◌, IfErr, IfOk, IfSome, IsSome, None, false};

use super::place_connection::{Link, PlaceConnection};
use super::place_listener::PlaceListener;
use super::room::{PATIENCE, Room};
use super::stranger::{Stranger, StrangerReason};
use std::alloc::{AllocError, Global};
use std::io::{ErrorKind, Read};
use std::net::{Net, OpenListener, OpenStream};
use std::rt::Files;
use std::time::{Clock, Duration, Instant};
use std::{io, thread};

/// How many milliseconds the listener of a place is left alone, if nobody has connected, before it is asked again.
const PAUSE: u64 = 10;

/// The next connection that joined a process, if one came in time, or one that was closed before it did.
pub type Arrival<C> = Result<Option<C>, Stranger>;

/// The next connection that has come, if one has come before this moment.
///
/// # Errors
/// If none can be accepted, or the clock can't be read.
pub fn connection_before<L: OpenListener, R: Files + Copy, C: Clock>(
    clock: &C,
    listener: &PlaceListener<L, R>,
    end: Instant,
) -> io::Result<Option<PlaceConnection<L::Stream>>> {
    for _turn in 0..u64::MAX {
        match listener.accept() {
            Ok(connection) => return Ok(Some(connection)),
            Err(error) if error.kind() == ErrorKind::WouldBlock => {}
            Err(error) => return Err(error),
        }
        if Instant::now(clock)? >= end {
            return Ok(None);
        }
        thread::sleep(clock, Duration::from_millis(PAUSE));
    }
    Ok(None)
}

/// Whether the time ends by now, if it has an end.
fn is_over(end: Option<Instant>, now: Instant) -> bool
    ensures { end ≡ None → result ≡ false }
{
    match end {
        Some(end) => now >= end,
        None => false,
    }
}

/// Whether a place from which no connection could be accepted for this reason may give one later: none has come, or
/// one broke off before.
fn is_passing(error: ErrorKind) -> bool {
    matches!(
        error,
        ErrorKind::WouldBlock
            | ErrorKind::ConnectionAborted
            | ErrorKind::ConnectionReset
            | ErrorKind::Interrupted
    )
}

/// The address of who made this connection, if it is known.
///
/// # Errors
/// Out of memory.
pub fn address_of<S: OpenStream>(
    alloc: Global,
    connection: &PlaceConnection<S>,
) -> Result<Option<String>, AllocError> {
    let Link::Port(stream) = connection.link() else {
        return Ok(None);
    };
    match stream.peer_addr() {
        Ok(address) => Ok(Some(format!(in alloc; "{address}")?)),
        Err(_) => Ok(None),
    }
}

/// What is known of a connection that is closed for this reason.
fn stranger_of<S: OpenStream + Drop>(
    room: &Room<'_, PlaceConnection<S>>,
    connection: &PlaceConnection<S>,
    reason: StrangerReason,
) -> Result<Stranger, AllocError> {
    let start = room.door.shown_start(connection.received());
    Ok(Stranger {
        address: address_of(room.alloc(), connection)?,
        reason,
        start: Vec::from_slice(room.alloc(), start)?,
    })
}

/// The next of those in the room that is let in, or closed, if there is one.
fn next_out<S: OpenStream + Read + Drop>(
    room: &mut Room<'_, PlaceConnection<S>>,
    now: Instant,
) -> io::Result<Option<Arrival<PlaceConnection<S>>>>
    ensures some { IfOk result (λ out. IfSome out (λ arrival. IfOk arrival IsSome)) }
    ensures joined { IfOk result (λ out. IfSome out (λ arrival. IfOk arrival (λ found. IfSome found (λ connection.
        IsLetIn (document_view room.old.door.spec.now).names (token_view room.old.door.token)
        room.old.joined.items room.new.joined.items connection)))) }
    ensures closed { IfOk result (λ out. IfSome out (λ arrival. IfErr arrival (λ _.
        room.new.joined.items ≡ room.old.joined.items))) }
    ensures none { IfOk result (λ out. out ≡ None → room.new.joined.items ≡ room.old.joined.items) }
    ensures door { room.new.door ≡ room.old.door }
{
    let Some((connection, reason)) = room.next_out(now)? else {
        return Ok(None);
    };
    if let Some(reason) = reason {
        return Ok(Some(Err(stranger_of(room, &connection, reason)?)));
    }
    connection.set_nonblocking(false)?;
    Ok(Some(Ok(Some(connection))))
}

/// Has a connection that has just come wait in the room, and gives the one that was closed for it, if one was.
fn enter<S: OpenStream + Drop>(
    room: &mut Room<'_, PlaceConnection<S>>,
    connection: PlaceConnection<S>,
    now: Instant,
) -> io::Result<Option<Stranger>>
    ensures same { room.new.joined.items ≡ room.old.joined.items }
    ensures door { room.new.door ≡ room.old.door }
{
    connection.set_nonblocking(true)?;
    let Some(end) = now.checked_add(Duration::from_secs(PATIENCE)) else {
        return Err(io::Error::from(ErrorKind::InvalidInput));
    };
    let closed = room.make_room();
    room.enter(connection, end)?;
    match closed {
        Some(other) => Ok(Some(stranger_of(room, &other, StrangerReason::Crowded)?)),
        None => Ok(None),
    }
}

/// Waits for the next connection that is let in, or is closed before it is, until then if there is an end: then none
/// has come. The room has those that are neither yet.
///
/// # Errors
/// If none can be accepted, or the clock can't be read, or out of memory.
pub fn next_arrival<R: Net + Files + Clock + Copy>(
    rt: &R,
    listener: &PlaceListener<R::Listener, R>,
    room: &mut Room<'_, PlaceConnection<R::Stream>>,
    end: Option<Instant>,
) -> io::Result<Arrival<PlaceConnection<R::Stream>>>
    ensures come { end ≡ None → IfOk result (λ arrival. IfOk arrival IsSome) }
    ensures joined { IfOk result (λ arrival. IfOk arrival (λ found. IfSome found (λ connection.
        IsLetIn (document_view room.old.door.spec.now).names (token_view room.old.door.token)
        room.old.joined.items room.new.joined.items connection))) }
    ensures closed { IfOk result (λ arrival. IfErr arrival (λ _. room.new.joined.items ≡ room.old.joined.items)) }
    ensures none { IfOk result (λ arrival. IfOk arrival (λ found. found ≡ None
        → room.new.joined.items ≡ room.old.joined.items)) }
    ensures door { room.new.door ≡ room.old.door }
{
    listener.wait_for_none()?;
    for _turn in 0..u64::MAX {
        let now = Instant::now(rt)?;
        if let Some(arrival) = next_out(room, now)? {
            return Ok(arrival);
        }
        if is_over(end, now) {
            return Ok(Ok(None));
        }
        match listener.accept() {
            Ok(connection) => {
                if let Some(stranger) = enter(room, connection, now)? {
                    return Ok(Err(stranger));
                }
            }
            Err(error) if is_passing(error.kind()) => {
                thread::sleep(rt, Duration::from_millis(PAUSE));
            }
            Err(error) => return Err(error),
        }
    }
    Err(io::Error::from(ErrorKind::TimedOut))
}
