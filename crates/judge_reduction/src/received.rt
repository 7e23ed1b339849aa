//! The kept events whose message is received.
use super::receipts::{Receipts, Sender};
use super::rows::kept_count;
use judge_orders::Order;
use std::alloc::{AllocError, Global};

/// For each kept event of process `p` that its message isn't received.
fn none_received(alloc: Global, order: &Order, p: usize) -> Result<Vec<bool>, AllocError> {
    let kept = kept_count(order, p);
    let mut received = Vec::with_capacity(alloc, kept)?;
    for _kept in 0..kept {
        received.push(false)?;
    }
    Ok(received)
}

/// Notes that the message of a kept event is received.
fn note(received: &mut [Vec<bool>], sender: Sender) {
    if sender.process < received.len() {
        note_rank(&mut received[sender.process], sender.rank);
    }
}

/// Notes that the message of this kept event of a process is received.
fn note_rank(received: &mut [bool], rank: usize) {
    if rank < received.len() {
        received[rank] = true;
    }
}

/// For each kept event of each process whether its message is received.
///
/// # Errors
/// An allocation was refused.
pub(crate) fn all_received(
    alloc: Global,
    order: &Order,
    all: &[Receipts],
) -> Result<Vec<Vec<bool>>, AllocError> {
    let mut received = Vec::with_capacity(alloc, order.processes().len())?;
    for p in 0..order.processes().len() {
        received.push(none_received(alloc, order, p)?)?;
    }
    for receipts in all {
        note_all(&mut received, &receipts.senders);
    }
    Ok(received)
}

/// Notes that the messages of these kept events are received.
fn note_all(received: &mut [Vec<bool>], senders: &[Sender]) {
    for sender in senders {
        note(received, *sender);
    }
}
