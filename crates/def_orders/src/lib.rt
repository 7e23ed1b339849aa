//! Runs of one order: what is seen of a run if only some variables are, and that runs of which the same is seen have
//! the same answers. The definitions stand in `specs/`; each function here has no code, and its contract is laws.
#![tactic(auto)]

ghost use Rattle.def_orders.specs.Examples.{MiddleIsNotSeen, OthersAreNotSeen};
ghost use Rattle.def_orders.specs.Laws.{DefinitelyOfOrder, DefinitelyOfPart, OrderIsSingle, PossiblyOfOrder, PossiblyOfPart};

/// A run has one order: of one run, nothing else can be seen of the same variables.
pub fn order_is_single()
    ensures { OrderIsSingle }
{}

/// Runs of one order have the same answers for each predicate of which all variables are seen.
pub fn one_order()
    ensures possibly { PossiblyOfOrder }
    ensures definitely { DefinitelyOfOrder }
{}

/// A run has the answers of another one of which it has the processes that are seen, for each predicate of which all
/// variables are seen.
pub fn one_part()
    ensures possibly { PossiblyOfPart }
    ensures definitely { DefinitelyOfPart }
{}

/// Two small runs with other events have one order, and one of these has the processes of a third run that are seen.
pub fn examples()
    ensures others { OthersAreNotSeen }
    ensures middle { MiddleIsNotSeen }
{}
