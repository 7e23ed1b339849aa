//! Long runs: which events of a run decide its answers, and where it falls into windows that are judged by themselves.
//! The definitions stand in `specs/`; each function here has no code, and its contract is a law that holds of them.
#![tactic(auto)]

ghost use Rattle.def_long.specs.Examples.{FirstIsBoundary, OrderIsKept, RelayIsMade, RelayIsReduced, SettingIsSeen};
ghost use Rattle.def_long.specs.Laws.{AvoidingByParts, AvoidingOfReduction, BoundaryIsPassed, CutHasDownSet, CutOfReduction, DefinitelyByExtensions, DefinitelyByParts, DefinitelyInWhole, DefinitelyOfMadeRun, DefinitelyOfMadeRuns, DefinitelyOfReduction, DefinitelyOfRun, DefinitelyOfSeen, DownSetHasCut, ExtensionHasWalk, MadeRunReduces, MessagesKeepOrder, MessagesMakeNoCycle, OneTruth, PossiblyByDownSets, PossiblyByParts, PossiblyInWhole, PossiblyOfMadeRun, PossiblyOfMadeRuns, PossiblyOfReduction, PossiblyOfRun, PossiblyOfSeen, RunIsWindow, SameViewsReduce, SeenAreASet, SeenDecide, WalkHasExtension};

/// The whole run is a window, and has the answers of that window.
pub fn whole_run()
    ensures window { RunIsWindow }
    ensures possibly { PossiblyInWhole }
    ensures definitely { DefinitelyInWhole }
{}

/// The kept events of a cut are a down-set, each down-set has a least cut, and if the kept events decide, cuts with the
/// same ones have the same truth.
pub fn down_sets()
    ensures of_cut { CutHasDownSet }
    ensures least { DownSetHasCut }
    ensures truth { OneTruth }
{}

/// Some cut satisfies exactly if some down-set of the kept events does.
pub fn possibly_of_down_sets()
    ensures { PossiblyByDownSets }
{}

/// Each walk through a window follows a linear extension of happened-before among the kept events, and each such
/// extension is followed by a walk.
pub fn extensions()
    ensures of_walk { WalkHasExtension }
    ensures has_walk { ExtensionHasWalk }
{}

/// Every walk has a satisfying cut exactly if every linear extension passes through a satisfying down-set.
pub fn definitely_of_extensions()
    ensures { DefinitelyByExtensions }
{}

/// The kept events decide if the predicate sees no others, as it sees none but the seen ones. So a run has an answer
/// exactly if its kept events have it.
pub fn seen()
    ensures decide { SeenDecide }
    ensures set { SeenAreASet }
    ensures possibly { PossiblyOfSeen }
    ensures definitely { DefinitelyOfSeen }
{}

/// Every walk passes through a boundary, and a window has an answer exactly if one of its two parts there has it. Walks
/// that avoid are put together.
pub fn boundaries()
    ensures passed { BoundaryIsPassed }
    ensures possibly { PossiblyByParts }
    ensures definitely { DefinitelyByParts }
    ensures avoiding { AvoidingByParts }
{}

/// A run that falls into windows at several boundaries has an answer exactly if some window has it.
pub fn windows()
    ensures possibly { PossiblyOfRun }
    ensures definitely { DefinitelyOfRun }
{}

/// A reduction has the answers of what is reduced, and its evidence leads to evidence there; and what is seen of each
/// process shows that it is one.
pub fn reductions()
    ensures possibly { PossiblyOfReduction }
    ensures definitely { DefinitelyOfReduction }
    ensures cut { CutOfReduction }
    ensures avoiding { AvoidingOfReduction }
    ensures views { SameViewsReduce }
{}

/// A run is a reduction if its messages lead from each kept event to its neighbors, and order no others, and if the
/// predicate sees the same at the beginning and after each kept event. So whoever makes it owes what is known of single
/// events, processes and messages, and nothing on the order in the whole of it.
pub fn made_runs()
    ensures order { MessagesKeepOrder }
    ensures no_cycle { MessagesMakeNoCycle }
    ensures reduce { MadeRunReduces }
    ensures possibly { PossiblyOfMadeRun }
    ensures definitely { DefinitelyOfMadeRun }
{}

/// A run of whose windows runs are made has an answer exactly if one of these has it.
pub fn made_windows()
    ensures possibly { PossiblyOfMadeRuns }
    ensures definitely { DefinitelyOfMadeRuns }
{}

/// The definitions, tried on a run of three processes in which the order comes by one of which the predicate sees
/// nothing.
pub fn examples()
    ensures seen { SettingIsSeen }
    ensures order { OrderIsKept }
    ensures boundary { FirstIsBoundary }
    ensures reduced { RelayIsReduced }
    ensures made { RelayIsMade }
{}
