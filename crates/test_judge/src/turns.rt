//! Streams that take turns.
ghost use Rattle.std.specs.Prelude.{◌≡◌, length};

use pd_events::{StreamFault, StreamKind};
use pd_gather::{Core, Input};
use pd_spec::Spec;
use read_traces::Trace;
use std::alloc::{AllocError, Global};
use std::test::Fail;

const DOCUMENT: &str =
    "{\"processes\":[{\"name\":\"a\",\"vars\":{\"x\":0,\"y\":0}},{\"name\":\"b\",\"vars\":{\"n\":0}}],\
\"predicates\":[{\"name\":\"p\",\"text\":\"true\"}]}";

/// What a stream gives: its process, the line of its join and how many events it has, or its fault.
type Given = Result<(usize, u64, usize), StreamFault>;

/// The bytes of two streams, and what each gives, whether it comes in one piece or both come in turns of one byte.
struct Case {
    /// What the row shows.
    name: &'static str,
    first: &'static str,
    second: &'static str,
    given_first: Given,
    given_second: Given,
}

static CASES: [Case; 4] = [
    Case {
        name: "line ends of each kind, and bytes after an end",
        first: "{\"process\":\"a\"}\r\n\r\n{\"set\":{\"x\":1}}\r\n\n{\"set\":{\"x\":0}}\r\n \t\r\n{\"end\":true}",
        second: "{\"process\":\"b\"}\n{\"end\":true}\n{ x",
        given_first: Ok((0, 1, 2)),
        given_second: Ok((1, 1, 0)),
    },
    Case {
        name: "a missing end, of a process that both streams give",
        first: "{\"process\":\"b\"}\n{}\n{}\n{}",
        second: "{\"process\":\"b\"}\n{\"end\":true}\n not read",
        given_first: Err(StreamFault {
            line: 5,
            kind: StreamKind::Unended,
        }),
        given_second: Ok((1, 1, 0)),
    },
    Case {
        name: "a value that is no number, and no join",
        first: "{\"process\":\"a\"}\n{\"set\":{\"x\":1}}\n{\"set\":{\"x\":1.5}}\n",
        second: "{\"end\":true}\n{",
        given_first: Err(StreamFault {
            line: 3,
            kind: StreamKind::Value,
        }),
        given_second: Err(StreamFault {
            line: 1,
            kind: StreamKind::Join,
        }),
    },
    Case {
        name: "half of a pair of surrogates among lines that are read",
        first: "{\"process\":\"a\"}\n{\"set\":{\"y\":2,\"x\":1}}\n{}\n{\"send\":\"\\ud83d\"}\n{}\n",
        second: "{\"process\":\"b\"}\n{\"end\":true}\n",
        given_first: Err(StreamFault {
            line: 4,
            kind: StreamKind::Json,
        }),
        given_second: Ok((1, 1, 0)),
    },
];

/// Hands over each stream in one piece.
fn feed_whole(core: &mut Core<'_>, case: &Case) -> Result<(), AllocError>
    requires { length core.old ≡ 2 }
    ensures { length core.new ≡ 2 }
{
    core.step(0, Input::Piece(case.first.as_bytes()))?;
    core.step(0, Input::End)?;
    core.step(1, Input::Piece(case.second.as_bytes()))?;
    core.step(1, Input::End)
}

/// The byte with this number, from 0, or nothing if there is none.
fn byte_at(text: &str, at: usize) -> &[u8] {
    match text.as_bytes().get(at..) {
        Some(bytes) => &bytes[..bytes.len().min(1)],
        None => &[],
    }
}

/// Hands over both streams in turns of one byte, the second stream first.
fn feed_in_turns(core: &mut Core<'_>, case: &Case) -> Result<(), AllocError>
    requires { length core.old ≡ 2 }
    ensures { length core.new ≡ 2 }
{
    let turns = case.first.len().max(case.second.len());
    for at in 0..turns {
        core.step(1, Input::Piece(byte_at(case.second, at)))?;
        core.step(0, Input::Piece(byte_at(case.first, at)))?;
    }
    core.step(1, Input::End)?;
    core.step(0, Input::End)
}

/// Hands over the first stream in two pieces, of which the second begins at this byte, with the second stream between
/// them.
fn feed_cut(core: &mut Core<'_>, case: &Case, cut: usize) -> Result<(), AllocError>
    requires { length core.old ≡ 2 }
    ensures { length core.new ≡ 2 }
{
    let first = case.first.as_bytes();
    let (prefix, rest) = first.split_at(cut.min(first.len()));
    core.step(0, Input::Piece(prefix))?;
    core.step(1, Input::Piece(case.second.as_bytes()))?;
    core.step(0, Input::Piece(rest))?;
    core.step(0, Input::End)?;
    core.step(1, Input::End)
}

/// What a reading gives.
fn given(reading: &Result<Trace, StreamFault>) -> Given {
    match reading {
        Ok(trace) => Ok((trace.process, trace.join_line, trace.events.len())),
        Err(fault) => Err(*fault),
    }
}

/// Whether the streams gave what the case says.
fn is_given(core: Core<'_>, case: &Case) -> bool {
    if !core.closed() {
        return false;
    }
    let gathered = core.outcome();
    match (gathered.readings.first(), gathered.readings.get(1)) {
        (Some(first), Some(second)) => gathered.streams == 2
            && gathered.readings.len() == 2
            && given(first) == case.given_first
            && given(second) == case.given_second,
        _ => false,
    }
}

/// Whether the streams give what the case says, each in one piece and both in turns.
fn is_in_turns(alloc: Global, spec: &Spec, case: &Case) -> Result<bool, AllocError> {
    let mut whole = Core::new(alloc, 2, spec)?;
    feed_whole(&mut whole, case)?;
    let mut turns = Core::new(alloc, 2, spec)?;
    feed_in_turns(&mut turns, case)?;
    Ok(is_given(whole, case) && is_given(turns, case))
}

/// Whether they give it if the first one comes in two pieces, of which the second begins at this byte.
fn is_cut(alloc: Global, spec: &Spec, case: &Case, cut: usize) -> Result<bool, AllocError> {
    let mut core = Core::new(alloc, 2, spec)?;
    feed_cut(&mut core, case, cut)?;
    Ok(is_given(core, case))
}

#[test]
fn turns_and_cuts_change_nothing(rt: HostRuntime) -> Result<(), Fail> {
    let alloc = rt.alloc();
    let spec = Spec::read(alloc, DOCUMENT.as_bytes())?;
    for case in &CASES {
        assert!(rt; is_in_turns(alloc, &spec, case)?, "{}", case.name);
        for cut in 0..=case.first.len() {
            assert!(rt; is_cut(alloc, &spec, case, cut)?, "{} {cut}", case.name);
        }
    }
    Ok(())
}
