//! Reads notes on events, of which an explanation or a picture says what they say.
//!
//! For an explanation they are read once the run has ended, and for a picture before anything else is. They change
//! nothing of how a run ends: of a file that can't be read the explanation says why.

use app_arguments::SessionNames;
use app_explain::{explain_file, explain_wrong_notes};
use app_host::{Note, System, World, open_noted};
use app_text::Text;
use judge_session::{EngineFault, read_upto};
use read_notes::{EventNote, EventNotes, NOTES_BYTE_LIMIT};
use std::alloc::{AllocError, Global};

/// What is read of the file of this name, or as much of it as tells that it is too long.
fn read_file<Y: System>(
    world: &World<'_, Y>,
    name: &str,
    note: &Note,
) -> Result<Vec<u8>, EngineFault> {
    let file = open_noted(world.alloc, world.files, name, Some(note))?;
    read_upto(world.alloc, file, NOTES_BYTE_LIMIT)
}

/// The bytes of the file of this name. If it can't be read, or is too long, that is explained.
fn file_bytes<Y: System>(
    out: &mut Text,
    world: &World<'_, Y>,
    name: &str,
) -> Result<Option<Vec<u8>>, AllocError> {
    let note = Note::new();
    match read_file(world, name, &note) {
        Ok(bytes) => {
            if bytes.len() <= NOTES_BYTE_LIMIT {
                return Ok(Some(bytes));
            }
            explain_file(out, name, "it has more than 67,108,864 bytes");
        }
        Err(EngineFault::Memory) => return Err(AllocError),
        Err(_) => explain_file(out, name, note.failure().unwrap_or("a read failed")),
    }
    Ok(None)
}

/// Reads the files of notes that are named beside a session's files. What a run has read of one is taken; any other one
/// is opened. Which can't be read, and which lines are no notes, is put to the text of an explanation.
fn read_notes<Y: System>(
    out: &mut Text,
    world: &World<'_, Y>,
    names: &SessionNames<'_>,
) -> Result<EventNotes, AllocError> {
    let mut notes = EventNotes::none(world.alloc);
    let streams = names.streams.len();
    for (place, name) in names.notes.iter().enumerate() {
        let seen = world.notes.stream(streams.saturating_add(place));
        match seen.and_then(|note| note.bytes()) {
            Some(bytes) => notes.read(world.alloc, place, bytes)?,
            None => {
                if let Some(bytes) = file_bytes(out, world, name)? {
                    notes.read(world.alloc, place, &bytes)?;
                }
            }
        }
    }
    explain_wrong_notes(out, &names.notes, &notes);
    Ok(notes)
}

/// What was noted of the events of a session that is to be drawn, and what an explanation says of its files of notes.
#[derive(Drop)]
pub struct DrawnNotes {
    /// What was noted.
    pub(crate) notes: EventNotes,
    /// Which files can't be read, and which lines are no notes.
    pub(crate) unread: Text,
}

impl DrawnNotes {
    /// The notes, in the order of the files and of their lines.
    pub fn all(&self) -> &[EventNote] {
        self.notes.all()
    }
}

/// Reads what was noted of the events of the session in files that is to be drawn, by the files of notes that are named
/// beside these.
///
/// # Errors
/// Out of memory.
pub fn notes_to_draw<Y: System>(
    world: &World<'_, Y>,
    names: &SessionNames<'_>,
) -> Result<DrawnNotes, AllocError> {
    let mut unread = Text::new(world.alloc);
    let notes = read_notes(&mut unread, world, names)?;
    Ok(DrawnNotes { notes, unread })
}

/// What was noted of the events of the session in files, by the files of notes that are named beside these; nothing if
/// memory is refused. Which can't be read, and which lines are no notes, is put to the text of an explanation.
pub(crate) fn notes_of<Y: System>(
    out: &mut Text,
    world: &World<'_, Y>,
    names: &SessionNames<'_>,
) -> Option<EventNotes> {
    read_notes(out, world, names).ok()
}
