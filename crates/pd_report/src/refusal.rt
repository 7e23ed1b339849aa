//! Why a session is refused.

/// Why a session is refused: the first reason that applies.
#[derive(Debug, Drop)]
pub enum Refusal {
    /// The document, with the word of its fault.
    Spec(String),
    /// The text of a predicate.
    Predicate {
        /// Its number, counted from 1.
        k: u64,
        /// The word of its fault.
        word: String,
        /// The number of the byte at fault, counted from 1.
        at: u64,
    },
    /// Too many streams.
    Streams,
    /// A stream.
    Stream {
        /// Its number, counted from 1.
        stream: u64,
        /// The number of its line at fault, counted from 1.
        line: u64,
        /// The word of its fault.
        word: String,
    },
    /// No stream joined as this process.
    Absent(String),
    /// A send or a receive that matches none.
    Match {
        /// The word of its fault.
        word: String,
        /// The name of the event's process.
        name: String,
        /// The event's number in its process, counted from 1.
        number: u64,
    },
    /// A causal cycle: events by the names of their processes and their numbers, counted from 1.
    Cycle(Vec<(String, u64)>),
}
