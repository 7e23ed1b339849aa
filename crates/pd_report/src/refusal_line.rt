//! Reads the line of a refusal.
ghost use Rattle.def_format.specs.Lists.{is_one_of};
ghost use Rattle.def_format.specs.RefusalKinds.{AbsentKind, CycleKind, MatchKind, PredicateKind, SpecKind, StreamKind, StreamsKind};
ghost use Rattle.def_format.specs.Reports.{place_text, refusal_words, spec_words, with_commas, IsName, PlaceIsLawful, RefusalIsLawful};
ghost use Rattle.pd_report.specs.Reading.{at_fault_view, at_fault_words, refused_text, stream_fault_view, stream_fault_words, AtFaultIsLawful, IsOfKind, StreamFaultIsLawful, IsFoundAs, IsReadAs};
ghost use Rattle.pd_report.specs.Remaining.{words_left};
ghost use Rattle.pd_report.specs.Views.{named_places_view, refusal_view};
ghost use Rattle.std.specs.List.{AllByRecursion};
ghost use Rattle.std.specs.Prelude.{◌<◌, ◌∷◌, [], codes, length, map, string_bytes, IsTrue};

use super::fault_words::{is_match_word, is_predicate_word, is_spec_word, is_stream_word};
use super::listed::{place_words, places};
use super::refusal::Refusal;
use super::remaining::Words;
use super::words::{name, number, word_text};
use std::alloc::{AllocError, Global};

/// The word of a document's fault, as the only word.
fn spec_fault(alloc: Global, words: Words<'_>) -> Result<Option<String>, AllocError>
    ensures { IsReadAs string_bytes (λ word. word ∷ []) (λ word. IsTrue (is_one_of spec_words word))
        (words_left words.entry) result }
{
    let Some(word) = words.single() else {
        return Ok(None);
    };
    if !is_spec_word(word) {
        return Ok(None);
    }
    Ok(Some(word_text(alloc, word)?))
}

/// A predicate's number, counted from 1, the word of its fault, and the byte at fault.
fn predicate_fault(
    alloc: Global,
    words: Words<'_>,
) -> Result<Option<(u64, String, u64)>, AllocError>
    ensures { IsReadAs at_fault_view at_fault_words AtFaultIsLawful (words_left words.entry) result }
{
    let Some((k, rest)) = words.leading_number() else {
        return Ok(None);
    };
    if k == 0 {
        return Ok(None);
    }
    let Some((word, rest)) = rest.split_first() else {
        return Ok(None);
    };
    if !is_predicate_word(word) {
        return Ok(None);
    }
    let Some(rest) = rest.after("at") else {
        return Ok(None);
    };
    let Some(last) = rest.single() else {
        return Ok(None);
    };
    let Some(at) = number(last) else {
        return Ok(None);
    };
    Ok(Some((k, word_text(alloc, word)?, at)))
}

/// A stream's number, the number of its line at fault, and the word of its fault.
fn stream_fault(alloc: Global, words: Words<'_>) -> Result<Option<(u64, u64, String)>, AllocError>
    ensures { IsReadAs stream_fault_view stream_fault_words StreamFaultIsLawful (words_left words.entry) result }
{
    let Some((stream, rest)) = words.leading_number() else {
        return Ok(None);
    };
    let Some(rest) = rest.after("line") else {
        return Ok(None);
    };
    let Some((line, rest)) = rest.leading_number() else {
        return Ok(None);
    };
    let Some(word) = rest.single() else {
        return Ok(None);
    };
    if !is_stream_word(word) {
        return Ok(None);
    }
    Ok(Some((stream, line, word_text(alloc, word)?)))
}

/// A name, as the only word.
fn only_name(alloc: Global, words: Words<'_>) -> Result<Option<String>, AllocError>
    ensures { IsReadAs string_bytes (λ name. name ∷ []) IsName (words_left words.entry) result }
{
    let Some(word) = words.single() else {
        return Ok(None);
    };
    name(alloc, word)
}

/// Events, at least one, as the only word.
fn only_places(alloc: Global, words: Words<'_>) -> Result<Option<Vec<(String, u64)>>, AllocError>
    ensures { IsReadAs (λ found. named_places_view found.items)
        (λ ps. with_commas (map place_text ps) ∷ []) (λ ps. (0 < length ps) × AllByRecursion PlaceIsLawful ps)
        (words_left words.entry) result }
{
    let Some(word) = words.single() else {
        return Ok(None);
    };
    places(alloc, word)
}

/// A refused document, of the words after `spec`.
fn spec_refusal(alloc: Global, rest: Words<'_>) -> Result<Option<Refusal>, AllocError>
    ensures { IsReadAs refusal_view refusal_words (IsOfKind SpecKind)
        (codes "spec" ∷ words_left rest.entry) result }
{
    let Some(word) = spec_fault(alloc, rest)? else {
        return Ok(None);
    };
    Ok(Some(Refusal::Spec(word)))
}

/// A refused predicate, of the words after `predicate`.
fn predicate_refusal(alloc: Global, rest: Words<'_>) -> Result<Option<Refusal>, AllocError>
    ensures { IsReadAs refusal_view refusal_words (IsOfKind PredicateKind)
        (codes "predicate" ∷ words_left rest.entry) result }
{
    let Some((k, word, at)) = predicate_fault(alloc, rest)? else {
        return Ok(None);
    };
    Ok(Some(Refusal::Predicate { k, word, at }))
}

/// Too many streams, of the words after `streams`.
fn streams_refusal(rest: Words<'_>) -> Option<Refusal>
    ensures { IsFoundAs refusal_view refusal_words (IsOfKind StreamsKind)
        (codes "streams" ∷ words_left rest.entry) result }
{
    if rest.is_empty() {
        Some(Refusal::Streams)
    } else {
        None
    }
}

/// A refused stream, of the words after `stream`.
fn stream_refusal(alloc: Global, rest: Words<'_>) -> Result<Option<Refusal>, AllocError>
    ensures { IsReadAs refusal_view refusal_words (IsOfKind StreamKind)
        (codes "stream" ∷ words_left rest.entry) result }
{
    let Some((stream, line, word)) = stream_fault(alloc, rest)? else {
        return Ok(None);
    };
    Ok(Some(Refusal::Stream { stream, line, word }))
}

/// A process without a stream, of the words after `absent`.
fn absent_refusal(alloc: Global, rest: Words<'_>) -> Result<Option<Refusal>, AllocError>
    ensures { IsReadAs refusal_view refusal_words (IsOfKind AbsentKind)
        (codes "absent" ∷ words_left rest.entry) result }
{
    let Some(name) = only_name(alloc, rest)? else {
        return Ok(None);
    };
    Ok(Some(Refusal::Absent(name)))
}

/// A causal cycle, of the words after `cycle`.
fn cycle_refusal(alloc: Global, rest: Words<'_>) -> Result<Option<Refusal>, AllocError>
    ensures { IsReadAs refusal_view refusal_words (IsOfKind CycleKind)
        (codes "cycle" ∷ words_left rest.entry) result }
{
    let Some(places) = only_places(alloc, rest)? else {
        return Ok(None);
    };
    Ok(Some(Refusal::Cycle(places)))
}

/// A send or a receive that matches none.
fn match_refusal(alloc: Global, words: Words<'_>) -> Result<Option<Refusal>, AllocError>
    ensures { IsReadAs refusal_view refusal_words (IsOfKind MatchKind) (words_left words.entry) result }
{
    let Some((word, rest)) = words.split_first() else {
        return Ok(None);
    };
    if !is_match_word(word) {
        return Ok(None);
    }
    let Some(last) = rest.single() else {
        return Ok(None);
    };
    let Some((name, number)) = place_words(last) else {
        return Ok(None);
    };
    let word = word_text(alloc, word)?;
    let name = word_text(alloc, name)?;
    Ok(Some(Refusal::Match { word, name, number }))
}

/// A refusal's words.
fn refusal(alloc: Global, words: Words<'_>) -> Result<Option<Refusal>, AllocError>
    ensures { IsReadAs refusal_view refusal_words RefusalIsLawful (words_left words.entry) result }
{
    if let Some(rest) = words.after("spec") {
        return spec_refusal(alloc, rest);
    }
    if let Some(rest) = words.after("predicate") {
        return predicate_refusal(alloc, rest);
    }
    if let Some(rest) = words.after("streams") {
        return Ok(streams_refusal(rest));
    }
    if let Some(rest) = words.after("stream") {
        return stream_refusal(alloc, rest);
    }
    if let Some(rest) = words.after("absent") {
        return absent_refusal(alloc, rest);
    }
    if let Some(rest) = words.after("cycle") {
        return cycle_refusal(alloc, rest);
    }
    match_refusal(alloc, words)
}

/// The refusal, if the line is one.
pub(crate) fn refused_line(alloc: Global, line: &[u8]) -> Result<Option<Refusal>, AllocError>
    ensures { IsReadAs refusal_view refused_text RefusalIsLawful line.now result }
{
    let Some(rest) = Words::new(line, b' ').after("refused") else {
        return Ok(None);
    };
    refusal(alloc, rest)
}
