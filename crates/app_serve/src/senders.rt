//! Who sent the streams of a server, for an explanation.
use super::peers::Peers;
use app_explain::{Sender, joined_name};
use std::alloc::{AllocError, Global};

/// What is known of who sent a stream.
#[derive(Drop)]
pub struct KnownSender {
    /// From which address it came; it is empty if that isn't known.
    origin: String,
    /// The name of its process, if it said that.
    process: Option<String>,
    /// The place of the stream, counted from 0.
    place: usize,
}

/// What is known of who sent the stream at this place, which is counted from 0.
fn known_sender(alloc: Global, peers: &Peers, place: usize) -> Result<KnownSender, AllocError> {
    let origin = match peers.at(place).and_then(|peer| peer.address()) {
        Some(address) if !address.is_empty() => format!(in alloc; "from {address}")?,
        _ => String::new(alloc),
    };
    let process = joined_name(alloc, start_of(peers, place))?;
    Ok(KnownSender {
        origin,
        process,
        place,
    })
}

/// How the stream at this place began; it is empty if that isn't known.
fn start_of(peers: &Peers, place: usize) -> &[u8] {
    match peers.at(place) {
        Some(peer) => peer.start().unwrap_or(&[]),
        None => &[],
    }
}

/// What is known of who sent the first streams, of which there are this many.
///
/// # Errors
/// Out of memory.
pub fn known_senders(
    alloc: Global,
    peers: &Peers,
    count: usize,
) -> Result<Vec<KnownSender>, AllocError> {
    let mut known = Vec::new(alloc);
    for place in 0..count {
        known.push(known_sender(alloc, peers, place)?)?;
    }
    Ok(known)
}

/// The same, as it is explained.
///
/// # Errors
/// Out of memory.
pub fn senders_of<'a>(
    alloc: Global,
    peers: &'a Peers,
    known: &'a [KnownSender],
) -> Result<Vec<Sender<'a>>, AllocError> {
    let mut found = Vec::new(alloc);
    for sender in known {
        found.push(Sender {
            stream: (sender.place as u64).saturating_add(1),
            origin: sender.origin.as_str(),
            process: sender.process.as_deref(),
            start: start_of(peers, sender.place),
            line: peers.at(sender.place).and_then(|peer| peer.line()),
        })?;
    }
    Ok(found)
}
