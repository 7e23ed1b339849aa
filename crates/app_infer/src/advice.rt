//! What to do about streams that have no document.

use judge_infer::{DocumentFault, Wrong};

/// What was expected in place of this fault of a stream.
pub(crate) fn expected(wrong: Wrong) -> &'static str {
    match wrong {
        Wrong::StreamTooLong => "at most 16,777,216 bytes.",
        Wrong::NoLine | Wrong::NoJoin | Wrong::SecondJoin => {
            "{\"process\":\"a\"} as the first line, with the name of the process, and nowhere else."
        }
        Wrong::LineTooLong => "at most 65,536 bytes before each line feed.",
        Wrong::Json => "one JSON value on each line.",
        Wrong::Shape => {
            "{\"process\":\"a\"}, an event as {\"set\":{\"x\":1}} or {\"send\":\"a-1\"} or {\"recv\":\"a-1\"}, or \
{\"end\":true}."
        }
        Wrong::ProcessName | Wrong::VarName => {
            "a letter or `_`, then letters, digits or `_`, at most 32 bytes, and none of `and`, `or`, `not`, `true` \
and `false`."
        }
        Wrong::Events => "at most 10,000 events of a process.",
        Wrong::Value => {
            "a whole number from -9223372036854775808 to 9223372036854775807, without a point or an exponent."
        }
        Wrong::MessageId => "a text of 1 to 64 bytes, as \"left-1\".",
        Wrong::Vars => "at most 16 variables of a process.",
    }
}

/// What to do about this fault of a stream.
pub(crate) fn stream_advice(wrong: Wrong) -> &'static str {
    match wrong {
        Wrong::StreamTooLong | Wrong::Events => {
            "record fewer events: none for what changes no variable that you ask for, and shorter runs."
        }
        Wrong::NoLine => "look whether the program ran, and to which file its recorder writes.",
        Wrong::LineTooLong => "look whether a line feed is missing between two events.",
        Wrong::Json => {
            "look how the line was written: two writers may share the file; or a crash cut it off, and a second run \
goes on in the same file: take a file for each run."
        }
        Wrong::Shape => "have the recorder write one of these; docs/RECORDING.md has the format.",
        Wrong::NoJoin => {
            "have the recorder write that line before all others, and look whether the beginning of the file is \
missing."
        }
        Wrong::SecondJoin => {
            "take a file for each run: put what stands before this line into one file, and the rest into another, and \
give the streams of one run."
        }
        Wrong::ProcessName => "give the process another name in its recorder.",
        Wrong::Value =>
            "record a whole number, as 0 and 1 for no and yes, or thousandths for a fraction.",
        Wrong::MessageId => "give each message the name of its sender and a counter.",
        Wrong::VarName => "give the variable another name in the recorder.",
        Wrong::Vars => "record fewer: none that you don't ask for.",
    }
}

/// What to do about this fault of streams that are right by themselves.
pub(crate) fn session_advice(fault: DocumentFault) -> &'static str {
    match fault {
        DocumentFault::NoStream => "give the streams of one run, one of each process.",
        DocumentFault::TooMany => {
            "give the streams of one run, one of each process; a session has at most 16 processes."
        }
        DocumentFault::SameProcess(_, _) => {
            "give each stream once, and those of one run; or correct the name of the process in its first line."
        }
        DocumentFault::Memory => "",
    }
}
