//! What a run has read of files.
ghost use Rattle.app_ends.specs.Shown.{IsFile, file_called};
ghost use Rattle.std.specs.Prelude.{◌≡◌, map, IfOk, IfSome};

use app_explain::SeenStream;
use app_host::{Note, Notes};
use app_text::Source;
use std::alloc::{AllocError, Global};

/// What a file of this name is called.
fn shown_name(name: &str) -> &str
    ensures { result.now ≡ file_called name.now }
{
    if name == "-" { "standard input" } else { name }
}

/// What was read of the file of this name, if it is noted.
pub(crate) fn seen_file<'a>(note: Option<&'a Note>, name: &'a str) -> Option<Source<'a>>
    ensures { IfSome result (IsFile name.now) }
{
    let bytes = note?.bytes()?;
    Some(Source {
        name: shown_name(name),
        bytes,
        before: 0,
    })
}

/// What was read of the document in the file of this name, if it is noted.
pub fn seen_document<'a>(notes: &'a Notes, name: &'a str) -> Option<Source<'a>>
    ensures { IfSome result (IsFile name.now) }
{
    seen_file(notes.document(), name)
}

/// What was read of the streams in the files of these names.
///
/// # Errors
/// Out of memory.
pub(crate) fn seen_streams<'a>(
    alloc: Global,
    notes: &'a Notes,
    names: &[&'a str],
) -> Result<Vec<SeenStream<'a>>, AllocError>
    ensures { IfOk result (λ seen. map (λ stream. stream.file.now) seen.items
        ≡ map (λ name. file_called name.now) names.now) }
{
    let mut seen = Vec::new(alloc);
    for (place, name) in names.iter().enumerate() {
        let note = notes.stream(place);
        seen.push(SeenStream {
            file: shown_name(name),
            source: seen_file(note, name),
            failure: note.and_then(|note| note.failure()).unwrap_or(""),
        })?;
    }
    Ok(seen)
}
