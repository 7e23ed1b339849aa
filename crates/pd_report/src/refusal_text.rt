//! The words of a refusal.
ghost use Rattle.def_format.specs.Reports.{Predicate as RefusedPredicate, Stream as RefusedStream, refusal_words, spaced};
ghost use Rattle.pd_report.specs.Views.{refusal_view};
ghost use Rattle.std.specs.Prelude.{◌≡◌, ◌++◌, OnOk};

use super::fields::{push_bytes, push_number, push_place, push_places};
use super::refusal::Refusal;
use std::alloc::AllocError;

/// Appends the words for a refused predicate.
fn push_predicate(out: &mut Vec<u8>, k: u64, word: &str, at: u64) -> Result<(), AllocError>
    ensures { OnOk result (out.new.items ≡ out.old.items ++ spaced (refusal_words (RefusedPredicate k word.now at))) }
{
    push_bytes(out, b"predicate ")?;
    push_number(out, k)?;
    push_bytes(out, b" ")?;
    push_bytes(out, word.as_bytes())?;
    push_bytes(out, b" at ")?;
    push_number(out, at)
}

/// Appends the words for a refused stream.
fn push_stream(out: &mut Vec<u8>, stream: u64, line: u64, word: &str) -> Result<(), AllocError>
    ensures { OnOk result (out.new.items ≡ out.old.items
        ++ spaced (refusal_words (RefusedStream stream line word.now))) }
{
    push_bytes(out, b"stream ")?;
    push_number(out, stream)?;
    push_bytes(out, b" line ")?;
    push_number(out, line)?;
    push_bytes(out, b" ")?;
    push_bytes(out, word.as_bytes())
}

/// Appends a refusal's words.
pub(crate) fn push_refusal(out: &mut Vec<u8>, refusal: &Refusal) -> Result<(), AllocError>
    ensures { OnOk result (out.new.items ≡ out.old.items ++ spaced (refusal_words (refusal_view refusal.now))) }
{
    match refusal {
        Refusal::Spec(word) => {
            push_bytes(out, b"spec ")?;
            push_bytes(out, word.as_bytes())
        }
        Refusal::Predicate { k, word, at } => push_predicate(out, *k, word, *at),
        Refusal::Streams => push_bytes(out, b"streams"),
        Refusal::Stream { stream, line, word } => push_stream(out, *stream, *line, word),
        Refusal::Absent(name) => {
            push_bytes(out, b"absent ")?;
            push_bytes(out, name.as_bytes())
        }
        Refusal::Match { word, name, number } => {
            push_bytes(out, word.as_bytes())?;
            push_bytes(out, b" ")?;
            push_place(out, name, *number)
        }
        Refusal::Cycle(places) => {
            push_bytes(out, b"cycle ")?;
            push_places(out, places)
        }
    }
}
