//! What the greatest cut in which no process has come to a good count decides. The function here has no code, and its
//! contract is laws.
ghost use Rattle.wide_conjunctions.specs.Clauses.{AvoidsBeforeGood, FreeAfterMost, FreeAtFirst, NoneIfFull};

/// Where a cut satisfies exactly if some process is at a good count: which cuts avoid, and which level has none.
pub fn clauses()
    ensures avoids { AvoidsBeforeGood }
    ensures after { FreeAfterMost }
    ensures at_first { FreeAtFirst }
    ensures none { NoneIfFull }
{}
