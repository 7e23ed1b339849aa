//! Steps of several processes.

/// A step of a process.
#[derive(Clone, Copy)]
pub struct Step<'a> {
    /// The process.
    pub process: usize,
    /// Its place among the events of the process, counted from 1.
    pub count: u16,
    /// How many events of each process are in its past.
    pub past: &'a [u16],
    /// What it adds to the sum.
    pub weight: i128,
    /// By what it is ordered.
    pub key: u32,
}
