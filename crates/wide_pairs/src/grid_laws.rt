//! Which pairs are those of avoiding cuts. The function here has no code, and its contract is laws.
ghost use Rattle.wide_pairs.specs.Avoiding.{AvoidsByNeighbor, AvoidsByPair};

/// Of a test that speaks of two processes alone: which pairs of their counts are those of avoiding cuts, and that a
/// consistent cut avoids exactly if its pair is one of these.
pub fn avoiding_pairs()
    ensures by_neighbor { AvoidsByNeighbor }
    ensures by_pair { AvoidsByPair }
{}
