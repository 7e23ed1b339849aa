//! Who is let in: connections that wait until they have said a token and joined a process that has no stream.
//!
//! `next_arrival` gives the next connection that is let in, or the next one that is closed, and why. What lets a
//! connection in stands in `specs/Doors.antt`.
//!
//! - `door`: what a connection has to say before it is a stream
//! - `waiting`: a connection that hasn't said it yet
//! - `room`: all of these, and the processes that have a stream
//! - `stranger`: one that was closed before it had
//! - `arrivals`: the next one that is a stream, or is closed
//! - `retried`: makes calls again that a signal interrupts
//! - `place_listener`: what listens for connections of the system
//! - `place_connection`: a connection of the system
//! - `private_files`: files of which sockets are only for the user who runs the program
#![tactic(auto)]

mod arrivals;
mod door;
mod place_connection;
mod place_listener;
mod private_files;
mod retried;
mod room;
mod stranger;
mod waiting;

pub use arrivals::{Arrival, address_of, connection_before, next_arrival};
pub use door::{Door, read_token};
pub use place_connection::PlaceConnection;
pub use place_listener::{PlaceListener, listen_at};
pub use retried::{Retried, interrupted, is_interrupted};
pub use room::{PATIENCE, ROOM_LIMIT, Room};
pub use stranger::{Stranger, StrangerReason};
