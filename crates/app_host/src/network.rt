//! Where connections come from.
use super::addresses::port_of_address;
use super::file_source::system_name;
use app_arguments::Place;
use app_door::{
    Arrival, PlaceConnection, PlaceListener, Room, address_of, connection_before, listen_at,
    next_arrival, read_token,
};
use pd_engine::ByteSource;
use std::alloc::{AllocError, Global};
use std::io::{Eprint, ErrorKind, Write};
use std::net::Net;
use std::rt::Files;
use std::time::{Clock, Duration, Instant};
use std::{fs, io};

/// Accepts connections to places. What a connection has to give may be known, as it is in proofs over a network that is
/// made up; of the system's network nothing is known.
pub trait Network {
    ghost use Rattle.app_arguments.specs.Places as places;
    ghost use Rattle.app_arguments.specs.Views.{place_view};
    ghost use Rattle.def_judgement.specs.Writes.{Source};
    ghost use Rattle.std.specs.Prelude.{◌≡◌, Bool, IfOk, IfSome, IsOk, IsSome, None, false, true};

    /// A place that is bound. It is given up where this is dropped.
    type Listener: Sync + Drop;

    /// One end of a connection: the bytes that its peer sends, and a place to write bytes to the peer.
    type Connection: ByteSource + Write + Send + Drop;

    // Which source a connection may be that is accepted at a place.
    ghost may_give: { Self → places.Place → Source → Type 0 };

    // Whether the listener is bound to the place.
    ghost is_on: { Self.Listener → places.Place → Type 0 };

    // Whether each place can be bound, and each connection be accepted.
    ghost never_fails: { Bool };

    /// Binds a place: a port of an address of this machine, to which whoever reaches that address can connect, or a
    /// socket, to which only the user can who runs the program.
    ///
    /// # Errors
    /// If the place can't be bound, as a port that another program has, or a path at which something is.
    fn bind(&self, place: &Place<'_>) -> io::Result<Self::Listener>
        ensures on { IfOk result (λ listener. is_on listener (place_view place.now)) }
        ensures sure { never_fails ≡ true → IsOk result };

    /// The port to which the listener is bound, if it is one and that is known.
    fn port_of(&self, _listener: &Self::Listener) -> Option<u16> {
        None
    }

    /// Waits for the next connection to the place, until then if there is an end: then none has come.
    ///
    /// # Errors
    /// If it can't be accepted.
    fn next_connection(
        &self,
        listener: &Self::Listener,
        end: Option<Instant>,
    ) -> io::Result<Option<Self::Connection>>
        ensures given { IfOk result (λ found. IfSome found (λ connection. (place : places.Place)
            → is_on listener.now place → may_give self.now place (Self.Connection.left connection))) }
        ensures open { IfOk result (λ found. IfSome found (λ connection.
            Self.Connection.has_ended connection ≡ false)) }
        ensures come { end ≡ None → IfOk result IsSome }
        ensures sure { never_fails ≡ true → IsOk result };

    /// Waits for the next connection to the place that joins a process, or is closed since it doesn't, until then if
    /// there is an end: then none has come. The room has those that have done neither.
    ///
    /// # Errors
    /// If none can be accepted, or out of memory.
    fn next_arrival(
        &self,
        listener: &Self::Listener,
        _room: &mut Room<'_, Self::Connection>,
        end: Option<Instant>,
    ) -> io::Result<Arrival<Self::Connection>>
        ensures given { IfOk result (λ arrival. IfOk arrival (λ found. IfSome found (λ connection.
            (place : places.Place) → is_on listener.now place
            → may_give self.now place (Self.Connection.left connection)))) }
        ensures open { IfOk result (λ arrival. IfOk arrival (λ found. IfSome found (λ connection.
            Self.Connection.has_ended connection ≡ false))) }
        ensures come { end ≡ None → IfOk result (λ arrival. IfOk arrival IsSome) }
        ensures sure { never_fails ≡ true → IsOk result }
    {
        Ok(Ok(self.next_connection(listener, end)?))
    }

    /// Has a connection end once its peer says nothing for so many seconds.
    ///
    /// # Errors
    /// If that can't be had.
    fn limit_silence(&self, _connection: &Self::Connection, _seconds: u64) -> io::Result<()>
        ensures sure { never_fails ≡ true → IsOk result }
    {
        Ok(())
    }

    /// The token in the file of this name, which is its first line.
    ///
    /// # Errors
    /// If the file can't be opened or read, or the line is no token, or out of memory.
    fn token(&self, alloc: Global, _name: &str) -> io::Result<Vec<u8>>
        ensures sure { never_fails ≡ true → IsOk result }
    {
        Ok(Vec::new(alloc))
    }

    /// When this many seconds will have passed.
    ///
    /// # Errors
    /// If the clock can't be read.
    fn seconds_from_now(&self, seconds: u64) -> io::Result<Instant>
        ensures sure { never_fails ≡ true → IsOk result };

    /// The address of who made this connection, if it is known.
    ///
    /// # Errors
    /// Out of memory.
    fn peer_address(
        &self,
        _alloc: Global,
        _connection: &Self::Connection,
    ) -> Result<Option<String>, AllocError> {
        Ok(None)
    }

    /// Puts the first bytes that have come by this connection into the piece, and gives how many they are. It waits for
    /// none. The connection may have lost them then, so it is read no more.
    fn first_bytes(&self, _connection: &Self::Connection, _piece: &mut [u8]) -> usize {
        0
    }

    /// Tells this at once to whoever runs the program, on the standard error. What of it can't be written is left off.
    fn tell(&self, _text: &[u8]) {}
}

impl<R: Net + Files + Clock + Eprint + Copy + Sync> Network for R
where
    R::Listener: Sync,
    R::Stream: Send,
{
    ghost use Rattle.std.specs.Prelude.{⊤, false};

    type Listener = PlaceListener<R::Listener, R>;

    type Connection = PlaceConnection<R::Stream>;

    ghost may_give = { λ _ _ _. ⊤ };

    ghost is_on = { λ _ _. ⊤ };

    ghost never_fails = { false };

    fn bind(&self, place: &Place<'_>) -> io::Result<PlaceListener<R::Listener, R>> {
        match place {
            Place::Port(address, port) => match port_of_address(*address, *port) {
                Some(bound) => Ok(PlaceListener::Port(Net::bind(self, bound)?)),
                None => Err(io::Error::from(ErrorKind::InvalidInput)),
            },
            Place::Socket(path) => Ok(PlaceListener::Socket(listen_at(self, *path)?)),
        }
    }

    fn port_of(&self, listener: &PlaceListener<R::Listener, R>) -> Option<u16> {
        listener.port()
    }

    fn next_connection(
        &self,
        listener: &PlaceListener<R::Listener, R>,
        end: Option<Instant>,
    ) -> io::Result<Option<PlaceConnection<R::Stream>>> {
        let Some(end) = end else {
            return Ok(Some(listener.accept()?));
        };
        listener.wait_for_none()?;
        connection_before(self, listener, end)
    }

    fn next_arrival(
        &self,
        listener: &PlaceListener<R::Listener, R>,
        room: &mut Room<'_, PlaceConnection<R::Stream>>,
        end: Option<Instant>,
    ) -> io::Result<Arrival<PlaceConnection<R::Stream>>> {
        next_arrival(self, listener, room, end)
    }

    fn limit_silence(
        &self,
        connection: &PlaceConnection<R::Stream>,
        seconds: u64,
    ) -> io::Result<()> {
        connection.limit_silence(Duration::from_secs(seconds))
    }

    fn token(&self, alloc: Global, name: &str) -> io::Result<Vec<u8>> {
        let mut file = fs::open(self, system_name(name))?;
        read_token(alloc, &mut file)
    }

    fn seconds_from_now(&self, seconds: u64) -> io::Result<Instant> {
        let now = Instant::now(self)?;
        match now.checked_add(Duration::from_secs(seconds)) {
            Some(end) => Ok(end),
            None => Err(io::Error::from(ErrorKind::InvalidInput)),
        }
    }

    fn peer_address(
        &self,
        alloc: Global,
        connection: &PlaceConnection<R::Stream>,
    ) -> Result<Option<String>, AllocError> {
        address_of(alloc, connection)
    }

    fn first_bytes(&self, connection: &PlaceConnection<R::Stream>, piece: &mut [u8]) -> usize {
        connection.first_bytes(piece)
    }

    fn tell(&self, text: &[u8]) {
        if let Ok(text) = str::from_utf8(text) {
            let _ = eprint!(self; "{text}");
        }
    }
}
