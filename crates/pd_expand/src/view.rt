//! What a seat knows, and what the word is for. They stand in proofs alone, but for the value that makes the word.
use std::collections::LinkedList;

/// What a seat knows.
pub struct View {
    /// How many workers the seat stands for.
    pub workers: u64,
    /// The numbers that it drew, the last one last.
    pub drawn: LinkedList<u64>,
}

/// What is to be shared out, and among how many workers.
#[derive(Drop)]
pub struct Work {
    /// How many blocks there are.
    pub blocks: u64,
    /// How many workers there are.
    pub workers: u64,
}
