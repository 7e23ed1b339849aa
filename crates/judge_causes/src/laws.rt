//! What it means that receipts are enough. The functions here have no code, and their contracts are laws.
ghost use Rattle.judge_causes.specs.Enough.{EnoughForAll};
ghost use Rattle.judge_causes.specs.Reduced.{StaysWellFormed};

/// Receipts that are enough for one run are enough for each with the same events in which their sends happened before
/// them.
pub fn what_is_enough()
    ensures { EnoughForAll }
{}

/// A run without some of its messages is well-formed, so trials meet no fault but that memory ran out.
pub fn what_is_left()
    ensures { StaysWellFormed }
{}
