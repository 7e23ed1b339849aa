//! What a run has read, for its explanation.
use super::note::Note;
use def_format::STREAM_COUNT_LIMIT;
use std::alloc::{AllocError, Global};

/// What a run has read of its input and of each file, or nothing if no explanation is wanted.
#[derive(Drop)]
pub struct Notes {
    /// Of the document, of the report that is checked or drawn, and then of each stream that may count.
    all: Vec<Note>,
}

/// The place of the document's note.
const DOCUMENT: usize = 0;

/// The place of the report's note.
const REPORT: usize = 1;

/// The place of the first stream's note.
const STREAMS: usize = 2;

/// The notes of the document, of the report, and of this many streams.
fn empty_notes(alloc: Global, streams: usize) -> Result<Vec<Note>, AllocError> {
    let mut all = Vec::new(alloc);
    for _place in 0..streams.saturating_add(STREAMS) {
        all.push(Note::new())?;
    }
    Ok(all)
}

impl Notes {
    /// Notes of what will be read, if that is wanted and there is memory for them.
    pub fn new(alloc: Global, is_wanted: bool) -> Notes {
        if is_wanted {
            return Notes::for_streams(alloc, STREAM_COUNT_LIMIT);
        }
        Notes {
            all: Vec::new(alloc),
        }
    }

    /// Notes of what will be read, of this many streams too, if there is memory for them.
    pub fn for_streams(alloc: Global, streams: usize) -> Notes {
        match empty_notes(alloc, streams) {
            Ok(all) => Notes { all },
            Err(_) => Notes {
                all: Vec::new(alloc),
            },
        }
    }

    /// What was read of the document, or of the bundle on the input, if that is noted.
    pub fn document(&self) -> Option<&Note> {
        self.all.get(DOCUMENT)
    }

    /// What was read of the report that is checked or drawn, if that is noted.
    pub fn report(&self) -> Option<&Note> {
        self.all.get(REPORT)
    }

    /// What was read of the stream at this place, which is counted from 0, if that is noted.
    pub fn stream(&self, place: usize) -> Option<&Note> {
        self.all.get(place.saturating_add(STREAMS))
    }
}
