//! The notes of several files.

use super::note::{EventNote, NoteLine, note_in_line};
use std::alloc::{AllocError, Global};

/// The most bytes that a file of notes may have.
pub const NOTES_BYTE_LIMIT: usize = 67_108_864;

/// A line that is no note.
#[derive(Clone, Copy)]
pub struct WrongLine {
    /// The place of its file among those that were read, counted from 0.
    pub file: usize,
    /// Its number in that file, counted from 1.
    pub line: u64,
    /// Why it is none, in words that follow a colon.
    pub why: &'static str,
}

/// What was noted of an event.
#[derive(Clone, Copy)]
pub struct Noted<'a> {
    /// The note that says most: the first one that has a text, or else the first one that has a place.
    pub note: &'a EventNote,
    /// How many other notes the event has.
    pub others: u64,
}

/// The notes of files, in the order of these and of their lines.
#[derive(Drop)]
pub struct EventNotes {
    /// The notes.
    notes: Vec<EventNote>,
    /// How many lines are none.
    wrong_count: u64,
    /// The first of these.
    first_wrong: Option<WrongLine>,
}

/// Whether a line has nothing but spaces, tabs and CRs.
fn is_blank(line: &[u8]) -> bool {
    line.iter()
        .all(|byte| matches!(*byte, b' ' | b'\t' | b'\r'))
}

/// Whether the second note says more than the first one, if there is one: it has a text where that has none, or says
/// something where there is none.
fn says_more(found: Option<&EventNote>, note: &EventNote) -> bool {
    match found {
        Some(found) => found.text.is_empty() && !note.text.is_empty(),
        None => !note.is_empty(),
    }
}

impl EventNotes {
    /// No notes.
    pub fn none(alloc: Global) -> EventNotes {
        EventNotes {
            notes: Vec::new(alloc),
            wrong_count: 0,
            first_wrong: None,
        }
    }

    /// Counts a line that is no note.
    fn count_wrong(&mut self, wrong: WrongLine) {
        self.wrong_count = self.wrong_count.saturating_add(1);
        if self.first_wrong.is_none() {
            self.first_wrong = Some(wrong);
        }
    }

    /// Takes what a line of the file at this place holds.
    fn read_line(
        &mut self,
        alloc: Global,
        file: usize,
        line: u64,
        bytes: &[u8],
    ) -> Result<(), AllocError> {
        match note_in_line(alloc, bytes)? {
            NoteLine::Note(note) => {
                self.notes.push(note)?;
                Ok(())
            }
            NoteLine::Wrong(why) => {
                self.count_wrong(WrongLine { file, line, why });
                Ok(())
            }
        }
    }

    /// Reads the file at this place, counted from 0, of which these are the bytes, after those that were read before.
    /// Blank lines are passed over.
    ///
    /// # Errors
    /// Out of memory; the notes before that line stay.
    pub fn read(&mut self, alloc: Global, file: usize, bytes: &[u8]) -> Result<(), AllocError> {
        for (place, line) in bytes.split(|byte| *byte == b'\n').enumerate() {
            if !is_blank(line) {
                let number = (place as u64).saturating_add(1);
                self.read_line(alloc, file, number, line)?;
            }
        }
        Ok(())
    }

    /// What was noted of the event with this number, counted from 1, of the process of this name, if a note of it says
    /// something. It looks at each note.
    pub fn of(&self, process: &str, event: u64) -> Option<Noted<'_>> {
        let mut found = None;
        let mut count = 0u64;
        for note in &self.notes {
            if note.is_of(process, event) {
                count = count.saturating_add(1);
                if says_more(found, note) {
                    found = Some(note);
                }
            }
        }
        match found {
            Some(note) => Some(Noted {
                note,
                others: count.saturating_sub(1),
            }),
            None => None,
        }
    }

    /// All notes.
    pub fn all(&self) -> &[EventNote] {
        &self.notes
    }

    /// How many lines are no notes.
    pub fn wrong_count(&self) -> u64 {
        self.wrong_count
    }

    /// The first line that is no note, if there is one.
    pub fn first_wrong(&self) -> Option<WrongLine> {
        self.first_wrong
    }
}
