//! The greatest sizes and numbers that are taken, as constants. Each has its twin in `specs/Limits.antt`, which the
//! definitions use.

/// The most bytes of a session document.
pub const DOCUMENT_BYTE_LIMIT: usize = 262_144;

/// The most processes of a document.
pub const PROCESS_LIMIT: usize = 16;

/// The most variables of a process.
pub const VAR_LIMIT: usize = 16;

/// The most predicates of a document.
pub const PREDICATE_LIMIT: usize = 16;

/// The most bytes of a name.
pub const NAME_BYTE_LIMIT: usize = 32;

/// The greatest width: the most cuts of a level that are kept.
pub const WIDTH_LIMIT: u64 = 65_536;

/// The width of a document that gives none.
pub const DEFAULT_WIDTH: u64 = 4_096;

/// The most bytes of a predicate's text.
pub const PREDICATE_BYTE_LIMIT: usize = 4_096;

/// How deep parentheses and `not`s may be nested.
pub const DEPTH_LIMIT: usize = 64;

/// The most streams of a session.
pub const STREAM_COUNT_LIMIT: usize = 32;

/// The most bytes of a line, its LF aside.
pub const LINE_BYTE_LIMIT: usize = 65_536;

/// The most bytes of a stream.
pub const STREAM_BYTE_LIMIT: u64 = 16_777_216;

/// The most events of a process.
pub const EVENT_LIMIT: usize = 10_000;

/// The most bytes of a message's id.
pub const ID_BYTE_LIMIT: usize = 64;

/// The most bytes of a bundle.
pub const BUNDLE_BYTE_LIMIT: usize = 67_108_864;

/// The most bytes of a report.
pub const REPORT_BYTE_LIMIT: usize = 268_435_456;

/// The most workers that share the work on a session.
pub const WORKER_LIMIT: u64 = 16;
