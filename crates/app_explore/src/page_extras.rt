//! What a page has beside its session, by what is asked for.
ghost use Rattle.app_arguments.specs.Views.{page_view};
ghost use Rattle.app_host.specs.FileSources.{bytes_in};
ghost use Rattle.judge_runs.specs.Views.{wish_kind_view, wish_view};
ghost use Rattle.out_page.specs.Views as shown;
ghost use Rattle.app_explore.specs.Explorations.{AreExtras, IsNoteOf, IsNotesFile, kind_word, notes_byte_limit, shown_wish};
ghost use Rattle.std.specs.List.{AllZip};
ghost use Rattle.std.specs.Prelude.{◌≡◌, ◌≤◌, ◌⊎◌, All, Err, IfErr, IfOk, IsOk, map, string_bytes, vec_len};
ghost use Rattle.std.specs.Str.{IsUtf8};

use app_arguments::PageOptions;
use app_host::{Note, System, World, open_noted};
use judge_runs::{Wish as Wished, WishKind as WishedKind};
use judge_session::{EngineFault, read_upto};
use out_page::{Extras, Wish, WishKind};
use std::alloc::{AllocError, Global};
use std::io::{Error, ErrorKind};

/// The most bytes that a file of notes may have.
const NOTES_BYTE_LIMIT: usize = 67_108_864;

/// A kind of wish, as a page shows it.
fn shown_kind(kind: WishedKind) -> WishKind
    ensures { shown.kind_word result ≡ kind_word (wish_kind_view kind) }
{
    match kind {
        WishedKind::Never => WishKind::Never,
        WishedKind::Always => WishKind::Always,
        WishedKind::Sometimes => WishKind::Sometimes,
    }
}

/// A wish, as a page shows it.
fn shown_wish<'a>(wish: &Wished<'a>) -> Wish<'a>
    ensures { shown.wish_view result ≡ shown_wish (wish_view wish.now) }
{
    Wish {
        kind: shown_kind(wish.kind),
        name: wish.name.unwrap_or(""),
    }
}

/// Wishes, as a page shows them.
fn shown_wishes<'a>(alloc: Global, wishes: &[Wished<'a>]) -> Result<Vec<Wish<'a>>, AllocError>
    ensures { IfOk result (λ found. map shown.wish_view found.items
        ≡ map (λ wish. shown_wish (wish_view wish)) wishes.now) }
{
    let mut found = Vec::new(alloc);
    for wish in wishes {
        found.push(shown_wish(wish))?;
    }
    Ok(found)
}

/// The bytes of a file of notes, of which there are at most `NOTES_BYTE_LIMIT`, as text, or why they aren't notes.
fn text_of(bytes: Vec<u8>) -> Result<String, &'static str>
    ensures same { IfOk result (λ text. string_bytes text ≡ bytes.items) }
    ensures fits { IfOk result (λ text. vec_len bytes ≤ notes_byte_limit) }
    ensures sure { vec_len bytes ≤ notes_byte_limit → IsUtf8 bytes.items → IsOk result }
{
    if bytes.len() > NOTES_BYTE_LIMIT {
        return Err("it has more than 67,108,864 bytes");
    }
    match String::from_utf8(bytes) {
        Ok(text) => Ok(text),
        Err(_) => Err("it is not UTF-8"),
    }
}

/// Notes why a file holds no notes, if that is wanted.
fn note_why(alloc: Global, note: Option<&Note>, why: &str) {
    if let Some(note) = note {
        note.set_failure(alloc, &Error::new(ErrorKind::InvalidData, why));
    }
}

/// The notes in the file of this name. Why there are none is noted.
///
/// # Errors
/// `Read`, if it can't be opened or read, or isn't UTF-8, or has more than `NOTES_BYTE_LIMIT` bytes, and `Memory`.
fn read_notes<Y: System>(
    world: &World<'_, Y>,
    name: &str,
    note: Option<&Note>,
) -> Result<String, EngineFault>
    ensures notes { IfOk result (λ text. IsNoteOf (bytes_in (Y.Files.file_of world.now.files.now)) name.now
        (string_bytes text)) }
    ensures sure { IsNotesFile (Y.Files.file_of world.now.files.now name.now) → result ≡ Err EngineFault.Read → ⊥ }
    ensures err { IfErr result (λ fault. (fault ≡ EngineFault.Memory) ⊎ (fault ≡ EngineFault.Read)) }
{
    let file = open_noted(world.alloc, world.files, name, note)?;
    let bytes = read_upto(world.alloc, file, NOTES_BYTE_LIMIT)?;
    match text_of(bytes) {
        Ok(text) => Ok(text),
        Err(why) => {
            note_why(world.alloc, note, why);
            Err(EngineFault::Read)
        }
    }
}

/// The notes in the files of these names. They are noted after this many streams.
///
/// # Errors
/// As `read_notes`.
fn read_all_notes<Y: System>(
    world: &World<'_, Y>,
    names: &[&str],
    streams: usize,
) -> Result<Vec<String>, EngineFault>
    ensures notes { IfOk result (λ notes. AllZip (IsNoteOf (bytes_in (Y.Files.file_of world.now.files.now)))
        (map (λ name. name.now) names.now) (map string_bytes notes.items)) }
    ensures sure { All (λ name. IsNotesFile (Y.Files.file_of world.now.files.now name.now)) names.now
        → result ≡ Err EngineFault.Read → ⊥ }
    ensures err { IfErr result (λ fault. (fault ≡ EngineFault.Memory) ⊎ (fault ≡ EngineFault.Read)) }
{
    let mut notes = Vec::new(world.alloc);
    for (place, name) in names.iter().enumerate() {
        let note = world.notes.stream(streams.saturating_add(place));
        match read_notes(world, name, note) {
            Ok(text) => notes.push(text)?,
            Err(fault) => return Err(fault),
        }
    }
    Ok(notes)
}

/// What a page has beside its session, by what is asked for. Notes are noted after this many streams.
///
/// # Errors
/// `Read`, if a file of notes can't be opened or read, or isn't UTF-8, or has more than 67,108,864 bytes, and `Memory`.
pub fn extras_of<'a, Y: System>(
    world: &World<'_, Y>,
    page: &PageOptions<'a>,
    streams: usize,
) -> Result<Extras<'a>, EngineFault>
    ensures extras { IfOk result (λ extras. AreExtras (bytes_in (Y.Files.file_of world.now.files.now))
        (page_view page.now) (shown.extras_view extras)) }
    ensures unread { result ≡ Err EngineFault.Read
        → All IsNotesFile (map (Y.Files.file_of world.now.files.now) (page_view page.now).notes) → ⊥ }
    ensures err { IfErr result (λ fault. (fault ≡ EngineFault.Memory) ⊎ (fault ≡ EngineFault.Read)) }
{
    let notes = read_all_notes(world, &page.notes, streams)?;
    let wishes = shown_wishes(world.alloc, &page.wishes)?;
    Ok(Extras {
        wishes,
        notes,
        link: page.link,
    })
}
