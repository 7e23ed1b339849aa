//! Where a walk by avoiding cuts ends.
ghost use Rattle.walk_back.specs.Answers.{IsEndAt, definitely_answer_view};
ghost use Rattle.std.specs.Prelude.{◌≤◌, IfNone, IfSome};

use super::DefinitelyAnswer;

/// The answer if the walk ends at level `k`, which has so many avoiding cuts: yes exactly if it has none, and unknown
/// exactly if it has more than the bound. It takes no memory.
pub fn end_at(count: u64, k: u64, width: u64) -> Option<DefinitelyAnswer>
    ensures ends { IfSome result (λ answer. IsEndAt count k width (definitely_answer_view answer)) }
    ensures goes_on { IfNone result ((1 ≤ count) × (count ≤ width)) }
{
    if count == 0 {
        return Some(DefinitelyAnswer::Yes(k));
    }
    if count > width {
        return Some(DefinitelyAnswer::Unknown(k));
    }
    None
}
