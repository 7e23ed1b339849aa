//! A block's part of the next level.
use pd_level::Level;

/// The cuts that have one event more than one of a block's.
#[derive(Drop)]
pub struct Part {
    /// The block, by number.
    pub block: u64,
    /// The cuts.
    pub next: Level,
}
