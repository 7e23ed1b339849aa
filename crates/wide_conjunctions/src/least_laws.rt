//! What the first of several least good cuts is. Each function here has no code, and its contract is a law.
ghost use Rattle.wide_conjunctions.specs.CutOrder.{BeforeOnward, FirstLeastIsFirst, NoneGoodNoneSatisfies, NotBeforeItself};
ghost use Rattle.wide_conjunctions.specs.LeastCuts.{OneLeastGood};

/// The first of the least good cuts for several numbers is the first satisfying one, where a cut satisfies exactly if
/// it is good for some number; and there is one least good cut for each.
pub fn first_of_least()
    ensures first { FirstLeastIsFirst }
    ensures none { NoneGoodNoneSatisfies }
    ensures single { OneLeastGood }
{}

/// The order in which cuts are looked at goes on from one to another, and no cut comes before itself.
pub fn cut_order()
    ensures onward { BeforeOnward }
    ensures apart { NotBeforeItself }
{}
