//! What is kept from line to line.
use read_tokens::Key;
use std::alloc::Global;

/// What a member of an earlier `set` set.
#[derive(Drop)]
pub(crate) struct Hint {
    /// The variable, counted from 0.
    pub(crate) variable: usize,
    /// Its name.
    pub(crate) key: Key,
}

/// What is kept from line to line of a stream, so that lines are read faster and take no memory each. Nothing in it
/// changes what a line says.
#[derive(Drop)]
pub(crate) struct Room {
    /// Where room comes from.
    pub(crate) alloc: Global,
    /// What the members of an earlier `set` set, in the order in which they stood.
    pub(crate) hints: Vec<Hint>,
    /// The number that each variable of the process is set to, if it is.
    pub(crate) row: Vec<Option<i64>>,
    /// The variables that the line sets, with their values.
    pub(crate) sets: Vec<(usize, i64)>,
}

impl Room {
    /// Room for the lines of a stream. It takes no memory.
    pub(crate) fn new(alloc: Global) -> Room {
        Room {
            alloc,
            hints: Vec::new(alloc),
            row: Vec::new(alloc),
            sets: Vec::new(alloc),
        }
    }
}
