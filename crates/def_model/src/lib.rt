//! The model of the monitor: what a computation, a cut, an observation and an answer are, with the laws that hold of
//! them. Each function here has no code. Its contract is a law, which is proved for every computation.
//!
//! - `values`: where code has the values of variables from
#![tactic(auto)]

mod values;

ghost use Rattle.def_model.specs.Examples.{BothAtOnce, NoReceiptAlone, AvoidedUpToTwo, CycleOfReceipts};
ghost use Rattle.def_model.specs.Walks.{ShortLevel, ShortAvoiding, FoundInLevel, NoneInLevels, WideNext, FreeLevel, PathOfLevels, UndoneByList, SomeUndone};
ghost use Rattle.def_model.specs.Laws.{StepHappens, HappenedOnward, HappenedIsLeast, LevelHasList, AvoidingHasList, CountsOfCut, CutOfCounts, OneEventMore, ClocksDecide, OneClock, CanUndo, FirstLevel, NextLevel, LastLevel, EmptyLevel, FullLevel, AvoidingLevel, NextAvoiding, FirstAvoidingList, NextAvoidingList, FreeLevelDecides, PathIsFound, PathAvoids, EveryCutIsObserved, PossiblyBothWays, NoYesBesideNo, CutBelowLevel, OnePossiblyAnswer, OneDefinitelyAnswer, OneList, OneFault, OneCycle, StuckStep, StuckReceipt, LeftAreStuck, NoneStuck, MeetAndJoin, StepDown, CutBetween, AllAvoid, AvoidAtFirstHit, AvoidByUndoing};

pub use values::Values;

/// A cut and its counts determine each other, and one event more is one count greater by 1.
pub fn cuts_and_counts()
    ensures of_cut { CountsOfCut }
    ensures of_counts { CutOfCounts }
    ensures one_more { OneEventMore }
{}

/// Counts are consistent exactly if no clock of a last event is above them.
pub fn clocks()
    ensures decide { ClocksDecide }
    ensures single { OneClock }
{}

/// Which events are stuck on causal cycles and after them, and that there is one cycle to report.
pub fn cycles()
    ensures step { StuckStep }
    ensures receipt { StuckReceipt }
    ensures left { LeftAreStuck }
    ensures none { NoneStuck }
    ensures single { OneCycle }
{}

/// Happened before holds of each step, goes on from one place to another, and is the least relation that does both.
pub fn happened_before()
    ensures step { StepHappens }
    ensures onward { HappenedOnward }
    ensures least { HappenedIsLeast }
{}

/// From a cut that isn't empty an event can be undone, so each level leads to the next.
pub fn levels()
    ensures undo { CanUndo }
    ensures first { FirstLevel }
    ensures next { NextLevel }
    ensures last { LastLevel }
    ensures empty { EmptyLevel }
    ensures full { FullLevel }
{}

/// Each level has a list of its cuts, and one of its avoiding cuts.
pub fn levels_have_lists()
    ensures cuts { LevelHasList }
    ensures avoiding { AvoidingHasList }
{}

/// Each level's avoiding cuts lead to those of the next.
pub fn avoiding_levels()
    ensures level { AvoidingLevel }
    ensures step { NextAvoiding }
    ensures first { FirstAvoidingList }
    ensures next { NextAvoidingList }
{}

/// The countwise least and greatest of two consistent cuts are consistent, and from a cut events can be undone down to
/// each consistent cut within it.
pub fn lattice()
    ensures meet_and_join { MeetAndJoin }
    ensures step_down { StepDown }
    ensures between { CutBetween }
{}

/// Which cuts avoid: all of them while none satisfies, and else those that one event can be undone in.
pub fn avoidance()
    ensures all { AllAvoid }
    ensures first_hit { AvoidAtFirstHit }
    ensures undoing { AvoidByUndoing }
{}

/// The levelled walk equals quantification over observations.
pub fn levels_decide()
    ensures free { FreeLevelDecides }
    ensures found { PathIsFound }
    ensures avoids { PathAvoids }
{}

/// Every cut lies on an observation, so the two wordings of Possibly agree.
pub fn observed()
    ensures every_cut { EveryCutIsObserved }
    ensures both_ways { PossiblyBothWays }
{}

/// Definitely yes never stands beside Possibly no, and the cut printed is no higher than the level printed.
pub fn answers_agree()
    ensures no_clash { NoYesBesideNo }
    ensures level { CutBelowLevel }
{}

/// Each answer is one.
pub fn answers_are_single()
    ensures possibly { OnePossiblyAnswer }
    ensures definitely { OneDefinitelyAnswer }
    ensures list { OneList }
    ensures fault { OneFault }
{}

/// What a walk up the whole lists of the levels answers for Possibly.
pub fn possibly_walk()
    ensures short { ShortLevel }
    ensures found { FoundInLevel }
    ensures none { NoneInLevels }
    ensures wide { WideNext }
{}

/// What a walk up the lists of avoiding cuts answers for Definitely.
pub fn definitely_walk()
    ensures short { ShortAvoiding }
    ensures free { FreeLevel }
    ensures path { PathOfLevels }
    ensures undone { UndoneByList }
    ensures some_undone { SomeUndone }
{}

/// The definitions, tried on small computations.
pub fn examples()
    ensures both_at_once { BothAtOnce }
    ensures no_receipt_alone { NoReceiptAlone }
    ensures avoided_up_to_two { AvoidedUpToTwo }
    ensures cycle_of_receipts { CycleOfReceipts }
{}
