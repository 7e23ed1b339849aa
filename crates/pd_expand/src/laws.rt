//! What holds of the blocks of each level.
ghost use Rattle.pd_expand.specs.Laws.{EachInABlock, InOneBlock};

/// Each cut of the next level lies in one block of a level, and in no other one. It has no code: a caller's proof has
/// these facts by calling it.
pub fn blocks_cover_the_next_level()
    ensures some { EachInABlock }
    ensures one { InOneBlock }
{}
