//! Finds the nearest of some names.
ghost use Rattle.app_explain.specs.Nearest.{IsNearest, distance, most_edits};
ghost use Rattle.std.specs.Prelude.{◌≡◌, ◌<◌, length, map, IfOk};

use std::alloc::{AllocError, Global};
use strsim::osa_distance;

/// How many edits may lead from a name of this many bytes to one that is near: a third of the bytes, but of two bytes
/// one; to a name of one byte none is near.
fn most_edits(length: usize) -> usize
    ensures { result ≡ most_edits length }
{
    if length < 2 { 0 } else { (length / 3).max(1) }
}

/// How many edits lead from one text to the other: a byte that is put in, left out or changed, or two that are
/// exchanged.
///
/// # Errors
/// Out of memory.
fn distance(alloc: Global, given: &str, name: &str) -> Result<usize, AllocError>
    ensures { IfOk result (λ edits. edits ≡ distance given.now name.now) }
{
    osa_distance(alloc, given, name)
}

/// The place of the name that is nearest to the given one, the first of several, if it is near. It takes time for the
/// product of the lengths of the given one and of each name.
///
/// How far two names are apart is their distance by optimal string alignment: Damerau, *A Technique for Computer
/// Detection and Correction of Spelling Errors*, 1964; Wagner and Fischer, *The String-to-String Correction Problem*,
/// 1974.
///
/// # Errors
/// Out of memory.
pub fn place_of_nearest(
    alloc: Global,
    given: &str,
    names: &[&str],
) -> Result<Option<usize>, AllocError>
    ensures { IfOk result (λ found. IsNearest given.now (map (λ name. name.now) names.now) found) }
{
    let mut least = most_edits(given.len()).saturating_add(1);
    let mut found = None;
    for place in 0..names.len() {
        let edits = distance(alloc, given, names[place])?;
        if edits < least {
            least = edits;
            found = Some(place);
        }
    }
    Ok(found)
}
