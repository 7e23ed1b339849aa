//! The rule of the word from which numbers are drawn, and the steps that keep it. No value of these types is made.
ghost use Rattle.std.specs.Prelude.{◌+◌, ◌-◌, ◌++◌, []};
ghost use Rattle.pd_expand.specs.ClaimRule.{view, Kept, Draws};

use crate::view::{View, Work};
use atomic_table::{Join, Play, Split, TableRule};

/// A seat of the word's table.
pub type TableSeat = atomic_table::Seat<(), View>;

/// The word's rule. The first seat stands for all workers.
pub struct ClaimRule;

impl TableRule<(), View, Work> for ClaimRule {
    ghost holds = { λ work. Kept work.blocks work.workers };

    ghost first = { λ work. view work.workers [] };
}

/// A seat that drew nothing gives one worker to a new seat.
pub struct Deals;

impl Split<View> for Deals {
    ghost left = { λ v. view (v.workers - 1) [] };

    ghost right = { λ v. view 1 [] };
}

/// A seat takes over the workers and the numbers of another.
pub struct Collects;

impl Join<View> for Collects {
    ghost both = { λ v w. view (v.workers + w.workers) (v.drawn ++ w.drawn) };

    ghost spent = { view 0 [] };
}

/// A seat draws the number that the word has, and the word goes on to the next.
pub struct DrawsNext;

impl Play<(), View> for DrawsNext {
    ghost then = { Draws };
}
