//! The messages that each kept event receives.
use super::rows::{comes_through, kept_count, known_count};
use def_format::EVENT_LIMIT;
use judge_orders::Order;
use std::alloc::{AllocError, Global};

/// A kept event whose message is received.
#[derive(Clone, Copy)]
pub(crate) struct Sender {
    /// Its process, counted from 0.
    pub(crate) process: usize,
    /// Which kept event of the process it is, counted from 0.
    pub(crate) rank: usize,
}

/// What the kept events of a process receive.
#[derive(Drop)]
pub(crate) struct Receipts {
    /// The senders, in the order of the receipts.
    pub(crate) senders: Vec<Sender>,
    /// For each kept event, how many receipts stand before it, those before earlier ones among them.
    pub(crate) ends: Vec<usize>,
}

/// A zero for each process.
fn zeros(alloc: Global, count: usize) -> Result<Vec<usize>, AllocError> {
    let mut zeros = Vec::with_capacity(alloc, count)?;
    for _process in 0..count {
        zeros.push(0)?;
    }
    Ok(zeros)
}

/// Receives the message of the last kept event of process `q` that the kept event `i` of process `p` knows, unless it
/// was received before, or the order comes through another event.
fn receive(
    order: &Order,
    p: usize,
    i: usize,
    q: usize,
    last: &mut [usize],
    senders: &mut Vec<Sender>,
) -> Result<(), AllocError> {
    let known = known_count(order, p, i, q);
    if q >= last.len() || known <= last[q] {
        return Ok(());
    }
    if !comes_through(order, p, i, q, known) {
        senders.push(Sender {
            process: q,
            rank: known - 1,
        })?;
    }
    last[q] = known;
    Ok(())
}

/// Adds the senders from which the kept event `i` of process `p` receives: of each other process the latest kept event
/// that it knows, unless its message was received before, or another kept event lies between. Of each process `last`
/// has how many of its kept events are up to the last one whose message was received, or needn't be.
///
/// It takes time for the square of the number of processes.
///
/// # Errors
/// An allocation was refused.
fn push_senders(
    order: &Order,
    p: usize,
    i: usize,
    last: &mut Vec<usize>,
    senders: &mut Vec<Sender>,
) -> Result<(), AllocError> {
    for q in 0..order.processes().len() {
        if q != p {
            receive(order, p, i, q, last, senders)?;
        }
    }
    Ok(())
}

/// What the kept events of process `p` receive, or `None` if there are more than 10,000 of them.
///
/// It takes time for the kept events, times the square of the number of processes.
///
/// # Errors
/// An allocation was refused.
fn process_receipts(
    alloc: Global,
    order: &Order,
    p: usize,
) -> Result<Option<Receipts>, AllocError> {
    let kept = kept_count(order, p);
    if kept > EVENT_LIMIT {
        return Ok(None);
    }
    let mut last = zeros(alloc, order.processes().len())?;
    let mut senders = Vec::new(alloc);
    let mut ends = Vec::with_capacity(alloc, kept)?;
    for i in 0..kept {
        push_senders(order, p, i, &mut last, &mut senders)?;
        ends.push(senders.len())?;
    }
    Ok(Some(Receipts { senders, ends }))
}

/// What the kept events of each process receive, in the order of the processes, or `None` if a process has more than
/// 10,000 of them.
///
/// It takes time for the kept events, times the square of the number of processes.
///
/// # Errors
/// An allocation was refused.
pub(crate) fn all_receipts(
    alloc: Global,
    order: &Order,
) -> Result<Option<Vec<Receipts>>, AllocError> {
    let mut all = Vec::with_capacity(alloc, order.processes().len())?;
    for p in 0..order.processes().len() {
        let Some(receipts) = process_receipts(alloc, order, p)? else {
            return Ok(None);
        };
        all.push(receipts)?;
    }
    Ok(Some(all))
}
