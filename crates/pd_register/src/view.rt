//! What a seat knows. No value of this type is made: it stands in proofs alone.
use crate::post::Post;
use crate::row::Row;
use std::collections::LinkedList;

/// What a seat of the lock's table knows.
pub struct View {
    /// How many streams there are.
    pub streams: u64,
    /// The numbers that the seat stands for, each with the row of its posts. The watcher's number is that after the
    /// last stream's, and its row is always fresh.
    pub rows: LinkedList<(u64, Row)>,
    /// The history that it has seen. While it holds the slot, this is the history that was taken with it.
    pub seen: LinkedList<Post>,
    /// Whether it holds the slot.
    pub holds: bool,
}
