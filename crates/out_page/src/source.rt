//! Where events were recorded.

/// Where the events of a process were recorded.
#[derive(Drop)]
pub struct Source<'a> {
    /// The name of the file.
    pub name: &'a str,
    /// The number of the line of each event, of as many as is known.
    pub lines: Vec<u64>,
}
