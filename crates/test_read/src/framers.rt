//! Lines from pieces: `Framer::feed`, `copy` and `finish`, again after a refusal.
ghost use Rattle.std.specs.Prelude.{◌≡◌, IfSome, false};

use pd_frames::{Batch, Framer, Line};
use std::alloc::Global;
use std::test::Fail;

/// What a piece gives. If memory is refused the framer stands where it stood, and the piece is fed again.
fn feed<'piece>(framer: &mut Framer, piece: &'piece [u8], again: &mut bool) -> Option<Batch<'piece>>
    requires { framer.old.finished ≡ false }
    ensures { framer.new.finished ≡ false }
{
    let line = framer.line();
    if let Ok(batch) = framer.feed(piece) {
        return Some(batch);
    }
    *again = true;
    if framer.line() != line {
        return None;
    }
    framer.feed(piece).ok()
}

/// A copy of the framer, which is asked for again if memory is refused.
fn copy(framer: &Framer, again: &mut bool) -> Option<Framer>
    ensures { IfSome result (λ other. other ≡ framer.now) }
{
    if let Ok(other) = framer.copy() {
        return Some(other);
    }
    *again = true;
    framer.copy().ok()
}

/// What the end gives. If memory is refused the framer stands where it stood, and the end is taken again.
fn finish(framer: &mut Framer, again: &mut bool) -> Option<Batch<'static>>
    requires { framer.old.finished ≡ false }
{
    let line = framer.line();
    if let Ok(batch) = framer.finish() {
        return Some(batch);
    }
    *again = true;
    if framer.line() != line || framer.is_finished() {
        return None;
    }
    framer.finish().ok()
}

/// Whether a line has this number and these bytes.
fn is_line(line: &Line<'_>, want: (u64, &str)) -> bool {
    line.number == want.0 && line.bytes.as_slice() == want.1.as_bytes()
}

/// Whether a batch has these lines, with their numbers, and no fault.
fn has_lines(batch: &Batch<'_>, want: &[(u64, &str)]) -> bool {
    if batch.fault.is_some() || batch.lines.len() != want.len() {
        return false;
    }
    for i in 0..want.len() {
        if !is_line(&batch.lines[i], want[i]) {
            return false;
        }
    }
    true
}

/// Whether the lines of a stream in three pieces come out, of a framer and of a copy. Nothing if a call isn't answered.
fn are_lines(alloc: Global, again: &mut bool) -> Option<bool> {
    let mut framer = Framer::new(alloc);
    let first = feed(&mut framer, b"one\ntwo\nth", again)?;
    let second = feed(&mut framer, b"ree\n\nfo", again)?;
    let mut other = copy(&framer, again)?;
    let third = feed(&mut framer, b"ur", again)?;
    let last = finish(&mut framer, again)?;
    let short = finish(&mut other, again)?;
    Some(
        has_lines(&first, &[(1, "one"), (2, "two")])
            && has_lines(&second, &[(3, "three")])
            && has_lines(&third, &[])
            && has_lines(&last, &[(5, "four")])
            && has_lines(&short, &[(5, "fo")])
            && framer.is_finished()
            && framer.line() == 6,
    )
}

#[test]
fn lines_come_again(rt: HostRuntime) -> Result<(), Fail> {
    let mut again = false;
    let right = are_lines(rt.alloc(), &mut again);
    assert!(rt; right == Some(true));
    if again {
        println!(rt; "a call was made again")?;
    }
    Ok(())
}
