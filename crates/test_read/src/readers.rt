//! Traces from pieces: `TraceReader::feed` and `end`, and `Core::step`, again after a refusal.
ghost use Rattle.std.specs.Prelude.{◌≡◌, ◌<◌, length};

use super::samples::DOCUMENT;
use pd_events::{StreamFault, StreamState, TraceReader};
use pd_gather::{Core, Input};
use pd_spec::Spec;
use read_traces::{Kind, Trace};
use std::alloc::Global;
use std::test::Fail;

/// A stream of `b` in three pieces, whose end line has no line feed.
const PIECES: [&[u8]; 3] = [
    b"\n{\"process\":\"b\"}\n{\"se",
    b"t\":{\"z\":-7}}\n{\"send\":\"m\"}\n",
    b"{\"end\":true}",
];

/// A stream of `a` that has no end.
const UNENDED: &[u8] = b"{\"process\":\"a\"}\n{\"set\":{\"y\":2,\"x\":1}}\n{}";

/// Where a reader stands: its state, its process and how many events came.
type Place = (StreamState, Option<usize>, u64);

fn place(reader: &TraceReader<'_>) -> Place {
    (reader.state(), reader.process(), reader.events())
}

/// Whether a reader stands there.
fn stands(reader: &TraceReader<'_>, at: Place) -> bool {
    reader.state() == at.0 && reader.process() == at.1 && reader.events() == at.2
}

/// Feeds a piece. If memory is refused the reader is as it was, and the piece is fed again. Whether it was taken.
fn feed(reader: &mut TraceReader<'_>, piece: &[u8], again: &mut bool) -> bool {
    let before = place(reader);
    if reader.feed(piece).is_ok() {
        return true;
    }
    *again = true;
    stands(reader, before) && reader.feed(piece).is_ok()
}

/// Takes the end. If memory is refused the reader is as it was, and the end is taken again. Whether it was taken.
fn end(reader: &mut TraceReader<'_>, again: &mut bool) -> bool {
    let before = place(reader);
    if reader.end().is_ok() {
        return true;
    }
    *again = true;
    stands(reader, before) && reader.end().is_ok()
}

/// Takes an input, and takes it again if memory is refused. Whether it was taken.
fn step(core: &mut Core<'_>, stream: usize, input: Input<'_>, again: &mut bool) -> bool
    requires { stream < length core.old }
    ensures { length core.new ≡ length core.old }
{
    if core.step(stream, input).is_ok() {
        return true;
    }
    *again = true;
    core.step(stream, input).is_ok()
}

/// Whether the trace is that of the pieces: two events, of which the first sets `z` and the second sends.
fn is_of_pieces(reading: &Result<Trace, StreamFault>) -> bool {
    let Ok(trace) = reading else {
        return false;
    };
    if trace.process != 1 || trace.join_line != 2 || trace.events.len() != 2 {
        return false;
    }
    let set = trace.events.settings(0);
    set.len() == 1 && set.get(0) == (0, -7) && matches!(trace.events.kind(1), Kind::Send(b"m"))
}

/// Whether a reader of the pieces gives their trace.
fn is_read(alloc: Global, spec: &Spec, again: &mut bool) -> bool {
    let mut reader = TraceReader::new(alloc, spec);
    for piece in PIECES {
        if !feed(&mut reader, piece, again) {
            return false;
        }
    }
    if reader.is_closed() || !end(&mut reader, again) || !reader.is_closed() {
        return false;
    }
    is_of_pieces(&reader.outcome())
}

/// Whether two streams that take turns give the trace of the pieces, and that the other has no end.
fn is_gathered(core: Core<'_>, again: &mut bool) -> bool
    requires { length core ≡ 2 }
{
    let mut core = core;
    for piece in PIECES {
        if !step(&mut core, 1, Input::Piece(piece), again) {
            return false;
        }
    }
    let taken = step(&mut core, 0, Input::Piece(UNENDED), again)
        && step(&mut core, 1, Input::End, again)
        && !core.closed()
        && step(&mut core, 0, Input::End, again);
    if !taken || !core.closed() {
        return false;
    }
    let readings = core.outcome().readings;
    match (readings.first(), readings.last()) {
        (Some(Err(fault)), Some(last)) => readings.len() == 2
            && fault.line == 4
            && is_of_pieces(last),
        _ => false,
    }
}

/// Whether the pieces are read, by a reader and among others. Nothing if memory was refused before.
fn are_traces(alloc: Global, again: &mut bool) -> Option<bool> {
    let spec = Spec::read(alloc, DOCUMENT.as_bytes()).ok()?;
    let core = Core::new(alloc, 2, &spec).ok()?;
    Some(is_read(alloc, &spec, again) && is_gathered(core, again))
}

#[test]
fn traces_come_again(rt: HostRuntime) -> Result<(), Fail> {
    let mut again = false;
    let right = match are_traces(rt.alloc(), &mut again) {
        Some(right) => right,
        None => are_traces(rt.alloc(), &mut again) == Some(true),
    };
    assert!(rt; right);
    if again {
        println!(rt; "a call was made again")?;
    }
    Ok(())
}
