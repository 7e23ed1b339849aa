//! What a run has read of the session that is explained.
use super::words::{DocumentWord, StreamWord};
use app_text::Source;
use def_format::PROCESS_LIMIT;
use pd_spec::{Options, Spec};
use read_notes::EventNotes;
use std::alloc::Global;

/// A stream, as far as it was read.
#[derive(Clone, Copy)]
pub struct SeenStream<'a> {
    /// The name of its file; it is empty if it came otherwise.
    pub file: &'a str,
    /// Its bytes, with the name by which it is called where a line of it is shown, if they are known.
    pub source: Option<Source<'a>>,
    /// Why it couldn't be read to its end, in the words of the system; it is empty if that isn't so or not known.
    pub failure: &'a str,
}

/// A session, as far as it was read.
#[derive(Clone, Copy)]
pub struct Seen<'a> {
    /// The document, if its bytes are known.
    pub document: Option<Source<'a>>,
    /// What was asked beside the document; nothing can be beside a bundle.
    pub options: Option<&'a Options<'a>>,
    /// The streams, in their order.
    pub streams: &'a [SeenStream<'a>],
    /// In which order streams count that have no files, in a sentence; it is empty for files.
    pub order: &'a str,
    /// What was noted of events, if notes were read.
    pub notes: Option<&'a EventNotes>,
    /// How many processes the document may have if it is that of a run of any length, and no session's.
    pub run_limit: Option<usize>,
}

impl<'a> Seen<'a> {
    /// The document, with what was asked, if its bytes are known and it isn't refused.
    pub fn spec(&self, alloc: Global) -> Option<Spec> {
        let source = self.document?;
        let limit = self.run_limit.unwrap_or(PROCESS_LIMIT);
        match self.options {
            Some(options) => Spec::read_within(alloc, limit, source.bytes, options).ok(),
            None => Spec::read(alloc, source.bytes).ok(),
        }
    }

    /// The word that a report has of the document, or what it means of a run.
    pub(crate) fn document_word(&self, text: &str) -> Option<DocumentWord> {
        let word = DocumentWord::of(text)?;
        Some(if self.run_limit.is_some() {
            word.of_run()
        } else {
            word
        })
    }

    /// The word that a report has of a stream, or what it means of a run.
    pub(crate) fn stream_word(&self, text: &str) -> Option<StreamWord> {
        let word = StreamWord::of(text)?;
        Some(if self.run_limit.is_some() {
            word.of_run()
        } else {
            word
        })
    }

    /// The stream with this number, which is counted from 1, if something is known of it.
    pub(crate) fn stream(&self, number: u64) -> Option<&'a SeenStream<'a>> {
        let streams = self.streams;
        for (place, stream) in streams.iter().enumerate() {
            if (place as u64).saturating_add(1) == number {
                return Some(stream);
            }
        }
        None
    }
}
