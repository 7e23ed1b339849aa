//! The texts of the streams.
use super::lines::{Link, push_end, push_join, push_kept, push_receipt};
use super::receipts::{Receipts, Sender, all_receipts};
use super::received::all_received;
use judge_orders::{Order, ProcessOrder};
use pd_pred::Names;
use std::alloc::{AllocError, Global};

/// How many receipts stand before the kept event of this rank and before earlier ones.
fn end_at(ends: &[usize], rank: usize) -> usize {
    match ends.get(rank) {
        Some(end) => *end,
        None => 0,
    }
}

/// Whether the message of the kept event of this rank is received.
fn is_received(received: &[bool], rank: usize) -> bool {
    match received.get(rank) {
        Some(is) => *is,
        None => false,
    }
}

/// What the event does that is the kept event of a process, by whether its message is received, and by the last sender
/// from which it receives, if there is one.
fn link_of(sends: bool, last: Option<Sender>) -> Link {
    if sends {
        return Link::Sends;
    }
    match last {
        Some(sender) => Link::Receives(sender),
        None => Link::Alone,
    }
}

/// Appends the line of a receipt, if there is one.
fn push_pending(
    text: &mut Vec<u8>,
    names: &Names,
    pending: Option<Sender>,
) -> Result<(), AllocError> {
    match pending {
        Some(sender) => push_receipt(text, names, sender),
        None => Ok(()),
    }
}

/// How many lines the kept event that receives from these senders has, with those of the receipts before it.
fn line_count(senders: &[Sender], sends: bool) -> u64 {
    let receipts = senders.len() as u64;
    if sends {
        receipts.saturating_add(1)
    } else {
        receipts.max(1)
    }
}

/// Appends the lines of the kept event of this rank of process `p`, of which these variables are seen, and of the
/// receipts before it. If its message isn't received, its own event is the last of the receipts.
fn push_event(
    text: &mut Vec<u8>,
    names: &Names,
    vars: &[usize],
    process: &ProcessOrder,
    senders: &[Sender],
    kept: Sender,
    sends: bool,
) -> Result<(), AllocError> {
    let mut last = None;
    for &sender in senders {
        push_pending(text, names, last)?;
        last = Some(sender);
    }
    if sends {
        push_pending(text, names, last)?;
    }
    push_kept(text, names, vars, process, kept, link_of(sends, last))
}

/// The senders from which the kept event of this rank receives.
fn senders_at(receipts: &Receipts, rank: usize) -> &[Sender] {
    let start = if rank == 0 {
        0
    } else {
        end_at(&receipts.ends, rank - 1)
    };
    let end = end_at(&receipts.ends, rank);
    if start <= end && end <= receipts.senders.len() {
        &receipts.senders[start..end]
    } else {
        &[]
    }
}

/// A stream that is made.
#[derive(Drop)]
struct MadeStream {
    /// Its text.
    text: Vec<u8>,
    /// The numbers of its kept events, counted from 1.
    numbers: Vec<u64>,
}

/// The stream of process `p`, of which these variables are seen.
///
/// # Errors
/// An allocation was refused.
fn made_stream(
    alloc: Global,
    names: &Names,
    p: usize,
    vars: &[usize],
    process: &ProcessOrder,
    receipts: &Receipts,
    received: &[bool],
) -> Result<MadeStream, AllocError> {
    let mut text = Vec::new(alloc);
    let mut numbers = Vec::with_capacity(alloc, receipts.ends.len())?;
    let mut number = 0u64;
    push_join(&mut text, names, p)?;
    for rank in 0..receipts.ends.len() {
        let kept = Sender { process: p, rank };
        let senders = senders_at(receipts, rank);
        let sends = is_received(received, rank);
        push_event(&mut text, names, vars, process, senders, kept, sends)?;
        number = number.saturating_add(line_count(senders, sends));
        numbers.push(number)?;
    }
    push_end(&mut text)?;
    Ok(MadeStream { text, numbers })
}

/// The streams that are made.
#[derive(Drop)]
pub(crate) struct MadeStreams {
    /// The text of each.
    pub(crate) texts: Vec<Vec<u8>>,
    /// Of each the numbers of its kept events, counted from 1.
    pub(crate) numbers: Vec<Vec<u64>>,
}

/// A stream for each process, in their order, by what each receives and whether its messages are received.
///
/// # Errors
/// An allocation was refused.
fn made_streams(
    alloc: Global,
    names: &Names,
    order: &Order,
    all: &[Receipts],
    received: &[Vec<bool>],
) -> Result<MadeStreams, AllocError> {
    let mut texts = Vec::with_capacity(alloc, all.len())?;
    let mut numbers = Vec::with_capacity(alloc, all.len())?;
    let named = order.named();
    let processes = order.processes();
    for p in 0..all.len() {
        if p < named.len() && p < processes.len() && p < received.len() {
            let made = made_stream(
                alloc,
                names,
                p,
                &named[p],
                &processes[p],
                &all[p],
                &received[p],
            )?;
            texts.push(made.text)?;
            numbers.push(made.numbers)?;
        }
    }
    Ok(MadeStreams { texts, numbers })
}

/// A stream for each process, in their order, or `None` if a process has more than 10,000 kept events.
///
/// It takes time for the kept events, times the square of the number of processes and times the variables of their
/// process that are seen, and memory for the texts and the receipts.
///
/// # Errors
/// An allocation was refused.
pub(crate) fn session_streams(
    alloc: Global,
    names: &Names,
    order: &Order,
) -> Result<Option<MadeStreams>, AllocError> {
    let Some(all) = all_receipts(alloc, order)? else {
        return Ok(None);
    };
    let received = all_received(alloc, order, &all)?;
    Ok(Some(made_streams(alloc, names, order, &all, &received)?))
}
