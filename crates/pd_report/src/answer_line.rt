//! Reads the lines of an answer.
ghost use Rattle.def_format.specs.Reports.{definitely_words, path_text, possibly_words, with_commas, DefinitelyIsLawful, Fits, IsName, PossiblyIsLawful};
ghost use Rattle.pd_report.specs.Reading.{first_part_view, first_text, second_text, FirstIsLawful, IsFoundAs};
ghost use Rattle.pd_report.specs.Remaining.{words_left};
ghost use Rattle.pd_report.specs.Views.{definitely_view, possibly_view};
ghost use Rattle.std.specs.List.{AllByRecursion};
ghost use Rattle.std.specs.Prelude.{◌<◌, ◌∷◌, [], decimal, length, map, IfOk};

use super::definitely::Definitely;
use super::listed::{numbers, path_of};
use super::path::Path;
use super::possibly::Possibly;
use super::remaining::Words;
use super::words::{is, name, number};
use std::alloc::{AllocError, Global};

/// A level, in the only word.
fn level(words: Words<'_>) -> Option<u64>
    ensures { IsFoundAs (λ level. level) (λ level. decimal level ∷ []) Fits (words_left words.entry) result }
{
    let Some(word) = words.single() else {
        return None;
    };
    number(word)
}

/// The counts of a cut, in the only word.
fn counts(alloc: Global, words: Words<'_>) -> Result<Option<Vec<u64>>, AllocError>
    ensures { IfOk result (IsFoundAs (λ found. found.items) (λ ns. with_commas (map decimal ns) ∷ [])
        (λ ns. (0 < length ns) × AllByRecursion Fits ns) (words_left words.entry)) }
{
    let Some(word) = words.single() else {
        return Ok(None);
    };
    numbers(alloc, word)
}

/// A path, in the only word.
fn only_path(alloc: Global, words: Words<'_>) -> Result<Option<Path>, AllocError>
    ensures { IfOk result (IsFoundAs (λ found. found) (λ ns. path_text ns ∷ [])
        (λ ns. AllByRecursion IsName ns) (words_left words.entry)) }
{
    let Some(word) = words.single() else {
        return Ok(None);
    };
    path_of(alloc, word)
}

/// Whether a predicate possibly holds.
fn possibly(alloc: Global, words: Words<'_>) -> Result<Option<Possibly>, AllocError>
    ensures { IfOk result (IsFoundAs possibly_view possibly_words PossiblyIsLawful (words_left words.entry)) }
{
    if let Some(rest) = words.after("yes") {
        let Some(counts) = counts(alloc, rest)? else {
            return Ok(None);
        };
        return Ok(Some(Possibly::Yes(counts)));
    }
    if let Some(rest) = words.after("unknown") {
        let Some(level) = level(rest) else {
            return Ok(None);
        };
        return Ok(Some(Possibly::Unknown(level)));
    }
    let Some(word) = words.single() else {
        return Ok(None);
    };
    if is(word, "no") {
        Ok(Some(Possibly::No))
    } else {
        Ok(None)
    }
}

/// Whether a predicate definitely holds.
fn definitely(alloc: Global, words: Words<'_>) -> Result<Option<Definitely>, AllocError>
    ensures { IfOk result (IsFoundAs definitely_view definitely_words DefinitelyIsLawful (words_left words.entry)) }
{
    if let Some(rest) = words.after("yes") {
        let Some(level) = level(rest) else {
            return Ok(None);
        };
        return Ok(Some(Definitely::Yes(level)));
    }
    if let Some(rest) = words.after("unknown") {
        let Some(level) = level(rest) else {
            return Ok(None);
        };
        return Ok(Some(Definitely::Unknown(level)));
    }
    let Some(rest) = words.after("no") else {
        return Ok(None);
    };
    let Some(path) = only_path(alloc, rest)? else {
        return Ok(None);
    };
    Ok(Some(Definitely::No(path)))
}

/// An answer's first line: the name, and whether the predicate possibly holds.
pub(crate) fn first_line(
    alloc: Global,
    line: &[u8],
) -> Result<Option<(String, Possibly)>, AllocError>
    ensures { IfOk result (IsFoundAs first_part_view first_text FirstIsLawful line.now) }
{
    let words = Words::new(line, b' ');
    let Some((first, rest)) = words.split_first() else {
        return Ok(None);
    };
    let Some(rest) = rest.after("possibly") else {
        return Ok(None);
    };
    let Some(possibly) = possibly(alloc, rest)? else {
        return Ok(None);
    };
    let Some(name) = name(alloc, first)? else {
        return Ok(None);
    };
    Ok(Some((name, possibly)))
}

/// An answer's second line, under this name.
pub(crate) fn second_line(
    alloc: Global,
    name: &str,
    line: &[u8],
) -> Result<Option<Definitely>, AllocError>
    requires { IsName name.now }
    ensures { IfOk result (IsFoundAs definitely_view (second_text name.now) DefinitelyIsLawful line.now) }
{
    let words = Words::new(line, b' ');
    let Some(rest) = words.after(name) else {
        return Ok(None);
    };
    let Some(rest) = rest.after("definitely") else {
        return Ok(None);
    };
    definitely(alloc, rest)
}
