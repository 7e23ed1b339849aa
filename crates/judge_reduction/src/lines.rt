//! The lines of the streams.
use super::receipts::Sender;
use super::rows::value_at;
use itoa::Buffer;
use judge_orders::ProcessOrder;
use pd_pred::Names;
use pd_report::{push_bytes, push_number};
use std::alloc::AllocError;

/// What the event of a stream does that a kept event is.
#[derive(Clone, Copy)]
pub(crate) enum Link {
    /// It sends its message.
    Sends,
    /// It receives the message of this kept event.
    Receives(Sender),
    /// It does neither.
    Alone,
}

/// The name of process `p`; `-` if there is none.
fn name_of(names: &Names, p: usize) -> &[u8] {
    if p < names.processes() {
        names.name(p).as_bytes()
    } else {
        b"-"
    }
}

/// The name of the variable `v` of process `p`; `-` if there is none.
fn var_name(names: &Names, p: usize, v: usize) -> &[u8] {
    if p >= names.processes() {
        return b"-";
    }
    match names.vars(p).get(v) {
        Some(name) => name.as_str().as_bytes(),
        None => b"-",
    }
}

/// Appends a number in decimal digits, with its sign.
fn push_value(text: &mut Vec<u8>, value: i64) -> Result<(), AllocError> {
    let mut buffer = Buffer::new();
    text.extend_from_slice(buffer.format(value).as_bytes())
}

/// Appends the id of the message that a kept event sends: the name of its process, and its number among the process's
/// kept events, counted from 1.
fn push_id(text: &mut Vec<u8>, names: &Names, sender: Sender) -> Result<(), AllocError> {
    push_bytes(text, name_of(names, sender.process))?;
    push_bytes(text, b"-")?;
    push_number(text, (sender.rank as u64).saturating_add(1))
}

/// Appends the first line of the stream of process `p`.
///
/// # Errors
/// An allocation was refused.
pub(crate) fn push_join(text: &mut Vec<u8>, names: &Names, p: usize) -> Result<(), AllocError> {
    push_bytes(text, b"{\"process\":\"")?;
    push_bytes(text, name_of(names, p))?;
    push_bytes(text, b"\"}\n")
}

/// Appends the line of a receipt.
///
/// # Errors
/// An allocation was refused.
pub(crate) fn push_receipt(
    text: &mut Vec<u8>,
    names: &Names,
    sender: Sender,
) -> Result<(), AllocError> {
    push_bytes(text, b"{\"recv\":\"")?;
    push_id(text, names, sender)?;
    push_bytes(text, b"\"}\n")
}

/// Appends the field that says that a kept event sends its message, or receives one.
fn push_link(
    text: &mut Vec<u8>,
    names: &Names,
    kept: Sender,
    link: Link,
) -> Result<(), AllocError> {
    let (field, sender) = match link {
        Link::Sends => (b"\"send\":\"".as_slice(), kept),
        Link::Receives(sender) => (b"\"recv\":\"".as_slice(), sender),
        Link::Alone => return Ok(()),
    };
    push_bytes(text, field)?;
    push_id(text, names, sender)?;
    push_bytes(text, b"\",")
}

/// Appends that a variable is set to this value, after a comma if it isn't the first one.
fn push_setting(
    text: &mut Vec<u8>,
    first: bool,
    name: &[u8],
    value: i64,
) -> Result<(), AllocError> {
    push_bytes(text, if first { b"\"" } else { b",\"" })?;
    push_bytes(text, name)?;
    push_bytes(text, b"\":")?;
    push_value(text, value)
}

/// Appends what the kept event of this rank of process `p` sets: those of these variables that it leaves with another
/// value.
fn push_settings(
    text: &mut Vec<u8>,
    names: &Names,
    p: usize,
    vars: &[usize],
    process: &ProcessOrder,
    rank: usize,
) -> Result<(), AllocError> {
    let mut first = true;
    for place in 0..vars.len() {
        let value = value_at(process, vars.len(), rank.saturating_add(1), place);
        if value != value_at(process, vars.len(), rank, place) {
            push_setting(text, first, var_name(names, p, vars[place]), value)?;
            first = false;
        }
    }
    Ok(())
}

/// Appends the line of a kept event, of whose process these variables are seen.
///
/// # Errors
/// An allocation was refused.
pub(crate) fn push_kept(
    text: &mut Vec<u8>,
    names: &Names,
    vars: &[usize],
    process: &ProcessOrder,
    kept: Sender,
    link: Link,
) -> Result<(), AllocError> {
    push_bytes(text, b"{")?;
    push_link(text, names, kept, link)?;
    push_bytes(text, b"\"set\":{")?;
    push_settings(text, names, kept.process, vars, process, kept.rank)?;
    push_bytes(text, b"}}\n")
}

/// Appends the last line of a stream.
///
/// # Errors
/// An allocation was refused.
pub(crate) fn push_end(text: &mut Vec<u8>) -> Result<(), AllocError> {
    push_bytes(text, b"{\"end\":true}\n")
}
