//! Words with a comma between each two.
ghost use Rattle.def_format.specs.Reports.{path_text, place_text, with_commas, Fits, IsName, PlaceIsLawful};
ghost use Rattle.pd_report.specs.Reading.{IsFoundAs, IsReadAs, IsTextOf};
ghost use Rattle.pd_report.specs.Remaining.{words_left};
ghost use Rattle.pd_report.specs.Views.{named_place_view, named_places_view, place_view};
ghost use Rattle.std.specs.List.{AllByRecursion};
ghost use Rattle.std.specs.Prelude.{◌<◌, decimal, length, map, IfOk, MatchBool};

use super::path::Path;
use super::remaining::Words;
use super::words::{is, number, word_text};
use pd_pred::is_name;
use std::alloc::{AllocError, Global};

/// Numbers, as the words.
fn all_numbers(alloc: Global, words: Words<'_>) -> Result<Option<Vec<u64>>, AllocError>
    ensures { IfOk result (IsFoundAs (λ found. found.items) (map decimal) (AllByRecursion Fits)
        (words_left words.entry)) }
{
    let mut numbers = Vec::new(alloc);
    let mut left = words;
    while let Some((word, rest)) = left.split_first() {
        let Some(number) = number(word) else {
            return Ok(None);
        };
        numbers.push(number)?;
        left = rest;
    }
    Ok(Some(numbers))
}

/// Numbers, at least one.
pub(crate) fn numbers(alloc: Global, word: &[u8]) -> Result<Option<Vec<u64>>, AllocError>
    ensures { IfOk result (IsFoundAs (λ found. found.items) (λ ns. with_commas (map decimal ns)) (λ ns. (0 < length ns)
        × AllByRecursion Fits ns) word.now) }
{
    all_numbers(alloc, Words::new(word, b','))
}

/// The path of names, as the words.
fn all_names(alloc: Global, words: Words<'_>) -> Result<Option<Path>, AllocError>
    ensures { IfOk result (IsFoundAs (λ found. found) (map (λ name. name)) (AllByRecursion IsName)
        (words_left words.entry)) }
{
    let mut path = Path::empty(alloc);
    let mut left = words;
    while let Some((word, rest)) = left.split_first() {
        if !is_name(word) {
            return Ok(None);
        }
        path.push(alloc, word)?;
        left = rest;
    }
    Ok(Some(path))
}

/// The path of names, at least one.
pub(crate) fn names(alloc: Global, word: &[u8]) -> Result<Option<Path>, AllocError>
    ensures { IfOk result (IsFoundAs (λ found. found) (λ ns. with_commas (map (λ name. name) ns)) (λ ns. (0 < length ns)
        × AllByRecursion IsName ns) word.now) }
{
    all_names(alloc, Words::new(word, b','))
}

/// A path: names, or `-` if there is none.
pub(crate) fn path_of(alloc: Global, word: &[u8]) -> Result<Option<Path>, AllocError>
    ensures { IfOk result (IsFoundAs (λ found. found) path_text (λ ns. AllByRecursion IsName ns) word.now) }
{
    if is(word, "-") {
        return Ok(Some(Path::empty(alloc)));
    }
    names(alloc, word)
}

/// An event, where it stands in the word: the name of its process, and its number.
pub(crate) fn place_words(word: &[u8]) -> Option<(&[u8], u64)>
    ensures { IsFoundAs place_view place_text PlaceIsLawful word.now result }
{
    let Some((name, rest)) = Words::new(word, b'#').split_first() else {
        return None;
    };
    let Some(last) = rest.single() else {
        return None;
    };
    let Some(number) = number(last) else {
        return None;
    };
    if is_name(name) {
        Some((name, number))
    } else {
        None
    }
}

/// An event: the name of its process, and its number.
fn place(alloc: Global, word: &[u8]) -> Result<Option<(String, u64)>, AllocError>
    ensures { IsReadAs named_place_view place_text PlaceIsLawful word.now result }
{
    let Some((name, number)) = place_words(word) else {
        return Ok(None);
    };
    Ok(Some((word_text(alloc, name)?, number)))
}

/// Whether the words are events.
fn are_places(words: Words<'_>) -> bool
    ensures { MatchBool result (IsTextOf (map place_text) (AllByRecursion PlaceIsLawful) (words_left words.entry))
        (¬ (IsTextOf (map place_text) (AllByRecursion PlaceIsLawful) (words_left words.entry))) }
{
    let mut left = words;
    while let Some((word, rest)) = left.split_first() {
        let Some(_place) = place_words(word) else {
            return false;
        };
        left = rest;
    }
    true
}

/// Events, as the words.
fn all_places(alloc: Global, words: Words<'_>) -> Result<Option<Vec<(String, u64)>>, AllocError>
    ensures { IfOk result (IsFoundAs (λ found. named_places_view found.items) (map place_text)
        (AllByRecursion PlaceIsLawful) (words_left words.entry)) }
{
    let mut places = Vec::new(alloc);
    let mut left = words;
    while let Some((word, rest)) = left.split_first() {
        let Some(place) = place(alloc, word)? else {
            return Ok(None);
        };
        places.push(place)?;
        left = rest;
    }
    Ok(Some(places))
}

/// Events, at least one. They are looked through before memory is taken for them.
pub(crate) fn places(alloc: Global, word: &[u8]) -> Result<Option<Vec<(String, u64)>>, AllocError>
    ensures { IsReadAs (λ found. named_places_view found.items) (λ ps. with_commas (map place_text ps))
        (λ ps. (0 < length ps) × AllByRecursion PlaceIsLawful ps) word.now result }
{
    let words = Words::new(word, b',');
    if !are_places(words) {
        return Ok(None);
    }
    all_places(alloc, words)
}
