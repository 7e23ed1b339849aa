//! Laws of runs, of births, of whole levels and of marks. Each function here has no code. Its contract is laws, which
//! are proved for every computation.
ghost use Rattle.walk_runs.specs.Laws.{Inside, StepInPrefix, OneBelow, SomeInterval, OneInterval, AliveExactly, FirstInterval, EndPoints, EndPointsBySteps};
ghost use Rattle.walk_runs.specs.Laws.{HasPrefix, FirstIsYoung, EndsOfInterval, SamePrefix, BornSingle, BornByPrefix, AliveBetween, YoungAtFirst, TopFlag, LowFlag, CandidatesAreCuts, NoBirthMissed, NoneSkipped};
ghost use Rattle.walk_runs.specs.Laws.{AvoidByParents, FirstWhole, InRuns, CutsOfWhole, NextWhole, FlagsOfMoved, FlagsOfBorn, CandidatesInRuns, MarkByMarks, MarkInRuns, MarkedList, OneWhole, MarkedByPlace, MarkLookup, CountOfRuns, FirstHitInRuns};

/// The consistent cuts of one prefix: the corners of a square, and one event down.
pub fn prefixes()
    ensures inside { Inside }
    ensures step_down { StepInPrefix }
    ensures one_below { OneBelow }
{}

/// Those of one level are an interval, whose end points are known at level 0 and move by at most one from each level to
/// the next.
pub fn intervals()
    ensures some { SomeInterval }
    ensures one { OneInterval }
    ensures alive { AliveExactly }
    ensures first { FirstInterval }
    ensures next { EndPoints }
    ensures next_by_steps { EndPointsBySteps }
{}

/// Which cuts a level has to be searched at for the prefixes that are born at the next one.
pub fn births()
    ensures has_prefix { HasPrefix }
    ensures start { FirstIsYoung }
    ensures ends { EndsOfInterval }
    ensures same_prefix { SamePrefix }
    ensures single { BornSingle }
    ensures by_prefix { BornByPrefix }
    ensures between { AliveBetween }
    ensures first { YoungAtFirst }
    ensures top { TopFlag }
    ensures low { LowFlag }
    ensures candidates { CandidatesAreCuts }
    ensures none_missed { NoBirthMissed }
    ensures none_skipped { NoneSkipped }
{}

/// A whole level as runs: the first one, its cuts, and the next one.
pub fn whole_levels()
    ensures first { FirstWhole }
    ensures inside { InRuns }
    ensures cuts { CutsOfWhole }
    ensures next { NextWhole }
    ensures one { OneWhole }
    ensures count { CountOfRuns }
    ensures first_hit { FirstHitInRuns }
{}

/// Where the next level's new prefixes are found: the flags of runs, and the candidates that these lead to.
pub fn flags()
    ensures moved { FlagsOfMoved }
    ensures born { FlagsOfBorn }
    ensures candidates { CandidatesInRuns }
{}

/// The marks of a whole level's runs: which of their cuts avoid, by the cuts with one event less.
pub fn marked_runs()
    ensures parents { AvoidByParents }
    ensures next { MarkByMarks }
    ensures inside { MarkInRuns }
    ensures list { MarkedList }
    ensures places { MarkedByPlace }
    ensures lookup { MarkLookup }
{}
