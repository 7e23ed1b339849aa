//! What is decided at any width, without the levels of the lattice. The definitions stand in `specs/`; each function
//! here has no code, and its contract is a law that holds of them.
#![tactic(auto)]

ghost use Rattle.def_wide.specs.Examples.{AllEqual, SomeTwoDiffer, SumReaches};
ghost use Rattle.def_wide.specs.Laws.{DefinitelyAfterPossibly, GatesDecide, LateLevelDecides, OneLateLevel, WholeIsDecided};
ghost use Rattle.def_wide.specs.Terms.{TermsMean};

/// A predicate that decides Possibly as a whole does so by its parts; and if Definitely is decided, Possibly is.
pub fn decided()
    ensures whole { WholeIsDecided }
    ensures definitely { DefinitelyAfterPossibly }
{}

/// A cut satisfies a predicate exactly if some term of it holds there.
pub fn terms()
    ensures { TermsMean }
{}

/// The definitions, tried on predicates of three processes.
pub fn examples()
    ensures differ { SomeTwoDiffer }
    ensures equal { AllEqual }
    ensures sum { SumReaches }
{}

/// Every observation passes through a satisfying cut of a gate, and no cut of its level avoids; the same of the level
/// that is printed where the levels under a width leave the answer unknown, of which there is one at most.
pub fn gates()
    ensures gate { GatesDecide }
    ensures late { LateLevelDecides }
    ensures single { OneLateLevel }
{}
