//! The limits of a recording.

/// The most processes of a document.
pub const RECORDED_PROCESS_LIMIT: usize = 4_096;

/// The most streams.
pub const RECORDED_STREAM_LIMIT: u64 = 8_192;

/// The most events of a process that is recorded.
pub const RECORDED_EVENT_LIMIT: usize = 2_147_483_647;
