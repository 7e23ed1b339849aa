//! Records how a stream begins.
use super::peer::Peer;
use std::alloc::Global;

/// The most bytes that are noted: those that a line may have at most, its line feed, and one more.
const START_LIMIT: usize = 65_538;

/// Records how a stream begins, and notes it once its first line, or as much of it as may be noted, has come.
#[derive(Drop)]
pub(crate) struct StartRecorder<'a> {
    /// Of whom it is noted; of nobody, if it isn't wanted or was noted.
    peer: Option<&'a Peer>,
    /// What was recorded until now.
    recorded: Vec<u8>,
}

/// How many of these bytes belong to the first line, of which this many may be noted still, and whether it ends there.
fn first_part(bytes: &[u8], room: usize) -> (usize, bool) {
    for (place, byte) in bytes.iter().enumerate() {
        if place >= room {
            return (room, true);
        }
        if *byte == b'\n' {
            return (place.saturating_add(1), true);
        }
    }
    (bytes.len(), false)
}

impl<'a> StartRecorder<'a> {
    /// A recorder that has recorded nothing yet.
    pub(crate) fn new(alloc: Global, peer: Option<&'a Peer>) -> StartRecorder<'a> {
        StartRecorder {
            peer,
            recorded: Vec::new(alloc),
        }
    }

    /// Records the next bytes of the stream, or its end, if there are none, and gives whether it is noted now how it
    /// begins. What there is no memory for isn't noted.
    pub(crate) fn record(&mut self, bytes: &[u8]) -> bool {
        let Some(peer) = self.peer else {
            return false;
        };
        let room = START_LIMIT.saturating_sub(self.recorded.len());
        let (count, is_whole) = first_part(bytes, room);
        let part = bytes.get(..count).unwrap_or(&[]);
        let is_kept = self.recorded.extend_from_slice(part).is_ok();
        let is_noted = is_whole || bytes.is_empty() || !is_kept;
        if is_noted {
            self.peer = None;
            let empty = Vec::new(*self.recorded.allocator());
            peer.note_start(std::mem::replace(&mut self.recorded, empty));
        }
        is_noted
    }
}
