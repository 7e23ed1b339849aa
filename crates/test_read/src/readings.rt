//! How far a stream is read: not after its end line or its fault, nor on in a line that is too long.
ghost use Rattle.std.specs.Prelude.{◌≡◌, false};

use super::samples::spec;
use super::sources::{Endless, SingleBytes};
use def_format::LINE_BYTE_LIMIT;
use pd_events::StreamKind;
use pd_gather::{ByteSource, read_stream};
use pd_register::Register;
use std::alloc::Global;
use std::sync::Wait;
use std::test::Fail;

/// How the reading of one stream alone is refused, if it is.
fn kind_of<T: Wait, R: ByteSource + Drop>(
    rt: &T,
    alloc: Global,
    reader: R,
) -> Result<Option<StreamKind>, Fail>
    requires { R.has_ended reader ≡ false }
{
    let spec = spec(alloc)?;
    let (register, mut seats, _watcher) = Register::new(alloc, 1)?;
    let Some(mut seat) = seats.pop() else {
        return Err(Fail::new("no seat"));
    };
    let read = read_stream(rt, alloc, &spec, reader, &register, &mut seat)?;
    Ok(read.err().map(|fault| fault.kind))
}

/// How the reading of a stream of these bytes is refused, and how often its reader was asked, which gives one a call
/// and then fails.
fn calls_for<T: Wait>(
    rt: &T,
    alloc: Global,
    bytes: &[u8],
) -> Result<(Option<StreamKind>, u32), Fail> {
    let mut reader = SingleBytes { bytes, calls: 0 };
    let kind = kind_of(rt, alloc, &mut reader)?;
    Ok((kind, reader.calls))
}

/// A stream of `b`, which has 29 bytes with the LF of its end line.
const ENDED: &str = "{\"process\":\"b\"}\n{\"end\":true}\nwhat follows";

/// A stream whose fault is known after 13 bytes.
const FAULTY: &str = "{\"end\":true}\nwhat follows";

#[test]
fn a_closed_stream_is_not_read_on(rt: HostRuntime) -> Result<(), Fail> {
    let ended = calls_for(&rt, rt.alloc(), ENDED.as_bytes())?;
    assert!(rt; ended == (None, 29));
    let faulty = calls_for(&rt, rt.alloc(), FAULTY.as_bytes())?;
    assert!(rt; faulty == (Some(StreamKind::Join), 13));
    Ok(())
}

#[test]
fn a_line_is_read_until_it_is_too_long(rt: HostRuntime) -> Result<(), Fail> {
    let long = vec![in rt.alloc(); b'x'; LINE_BYTE_LIMIT + 9]?;
    let (kind, calls) = calls_for(&rt, rt.alloc(), &long)?;
    assert!(rt; kind == Some(StreamKind::LineTooLong) && calls as usize == LINE_BYTE_LIMIT + 1);
    let endless = kind_of(&rt, rt.alloc(), Endless(b'x'))?;
    assert!(rt; endless == Some(StreamKind::LineTooLong));
    Ok(())
}
