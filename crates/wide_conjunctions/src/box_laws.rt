//! What boxes decide of a conjunction. The function here has no code, and its contract is laws.
ghost use Rattle.wide_conjunctions.specs.Boxes.{AvoidsWithoutBox, FreeAfterBox, NotWithoutBox};
ghost use Rattle.wide_conjunctions.specs.Ways.{PathOfWay};

/// Where a cut satisfies exactly if each process is at a good count: which cuts avoid, which level has none, and
/// which path is printed.
pub fn boxes()
    ensures avoids { AvoidsWithoutBox }
    ensures after { FreeAfterBox }
    ensures none { NotWithoutBox }
    ensures path { PathOfWay }
{}
