//! What is kept of a predicate for which Possibly is answered.
ghost use Rattle.walk_back.specs.Ways.{last_number};
ghost use Rattle.std.specs.Prelude.{◌≡◌, ◌+◌, ◌<◌, ◌⊎◌, ◌↔◌, IsTrue, length};

use super::PossiblyAnswer;
use super::holder::Holder;

/// What is kept of a predicate for which Possibly is answered, while Definitely is not.
#[derive(Drop)]
pub struct Split {
    /// The answer for Possibly.
    pub possibly: PossiblyAnswer,
    /// The level at which it was found.
    pub first: u64,
    /// The levels that are held: some of avoiding cuts are kept, from that one on.
    pub held: Holder,
}

/// Whether level `k` is kept: if none is yet, or the last one was a gap before it.
pub fn is_due(split: &Split, k: u64, gap: u64) -> bool
    requires { 0 < length split.now.held.levels.items → last_number split.now.held.levels.items < k }
    ensures { IsTrue result ↔ ((length split.now.held.levels.items ≡ 0)
        ⊎ (last_number split.now.held.levels.items + gap ≡ k)) }
{
    split.held.len() == 0 || k - split.held.last().number() == gap
}
