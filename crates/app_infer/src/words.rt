//! The line that says why there is no document.
ghost use Rattle.app_infer.specs.Inferences.{refused_line};
ghost use Rattle.judge_infer.specs.Inferred.{fault_words, placed_words, wrong_words};
ghost use Rattle.judge_infer.specs.Views.{stream_fault_view, wrong_view};
ghost use Rattle.std.specs.Prelude.{◌≡◌, ◌++◌, IfOk, OnOk, codes};

use judge_infer::{StreamFault, Wrong};
use pd_report::{push_bytes, push_number};
use std::alloc::{AllocError, Global};

/// What is wrong with a stream, in words.
pub(crate) fn wrong_words(wrong: Wrong) -> &'static str
    ensures { result.now ≡ wrong_words (wrong_view wrong) }
{
    match wrong {
        Wrong::StreamTooLong => "it has more than 16,777,216 bytes",
        Wrong::NoLine => "it has no line that says whose stream it is",
        Wrong::LineTooLong => "the line has more than 65,536 bytes",
        Wrong::Json => "it isn't JSON, and isn't the last line",
        Wrong::Shape => "it is no record of a stream",
        Wrong::NoJoin => "the stream doesn't begin with its process",
        Wrong::SecondJoin => "a second run begins here",
        Wrong::ProcessName => "no process of a document can have this name",
        Wrong::Events => "the process has more than 10,000 events",
        Wrong::Value => "a value is no whole number of 64 bits",
        Wrong::MessageId => "the id of a message has 1 to 64 bytes",
        Wrong::VarName => "no variable of a document can have this name",
        Wrong::Vars => "the process has more than 16 variables",
    }
}

/// Appends words on a line of this number, or on a stream as a whole.
fn push_placed(out: &mut Vec<u8>, line: Option<u64>, words: &str) -> Result<(), AllocError>
    ensures { OnOk result (out.new.items ≡ out.old.items ++ placed_words line words.now) }
{
    if let Some(line) = line {
        push_bytes(out, b" line ")?;
        push_number(out, line)?;
    }
    push_bytes(out, b": ")?;
    push_bytes(out, words.as_bytes())?;
    Ok(())
}

/// The beginning of the line, with the name of the file or a reason.
fn begin_line(alloc: Global, words: &str) -> Result<Vec<u8>, AllocError>
    ensures { IfOk result (λ line. line.items ≡ codes "monitor: no document: " ++ words.now) }
{
    let mut out = Vec::from_slice(alloc, b"monitor: no document: ")?;
    push_bytes(&mut out, words.as_bytes())?;
    Ok(out)
}

/// The line of a stream that is refused.
pub(crate) fn refused_line(
    alloc: Global,
    name: &str,
    fault: StreamFault,
) -> Result<Vec<u8>, AllocError>
    ensures { IfOk result (λ line. line.items
        ≡ refused_line (name.now ++ fault_words (stream_fault_view fault))) }
{
    let mut out = begin_line(alloc, name)?;
    push_placed(&mut out, fault.line, wrong_words(fault.wrong))?;
    push_bytes(&mut out, b"\n")?;
    Ok(out)
}

/// The line of two streams of one process.
pub(crate) fn same_line(alloc: Global, first: &str, second: &str) -> Result<Vec<u8>, AllocError>
    ensures { IfOk result (λ line. line.items
        ≡ refused_line (second.now ++ codes ": it is of the same process as " ++ first.now)) }
{
    let mut out = begin_line(alloc, second)?;
    push_bytes(&mut out, b": it is of the same process as ")?;
    push_bytes(&mut out, first.as_bytes())?;
    push_bytes(&mut out, b"\n")?;
    Ok(out)
}

/// The line of streams for which this is the reason.
#[tactic(auto, unfolding(crate::specs::Inferences::refused_line))]
pub(crate) fn reason_line(alloc: Global, why: &str) -> Result<Vec<u8>, AllocError>
    ensures { IfOk result (λ line. line.items ≡ refused_line why.now) }
{
    let mut out = begin_line(alloc, why)?;
    push_bytes(&mut out, b"\n")?;
    Ok(out)
}
