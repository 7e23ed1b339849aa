//! The lock's rule, and the steps that keep it. No value of these types is made.
ghost use Rattle.std.specs.Prelude.{◌+◌, ◌++◌, [], false, drop, take};
ghost use Rattle.pd_register.specs.LockRule.{view, spent_view, Kept, fresh_from, Tries, Gives};

use crate::history::History;
use crate::view::View;
use atomic_table::{Join, Play, Split, TableRule};

/// A seat of the lock's table.
pub type TableSeat = atomic_table::Seat<History, View>;

/// The lock's rule, for a number of streams. The first seat stands for all of them and for the watcher.
pub struct LockRule;

impl TableRule<History, View, u64> for LockRule {
    ghost holds = { λ n. Kept n };

    ghost first = { λ n. view n (fresh_from 0 (n + 1)) [] false };
}

/// A seat's first number goes to a new seat.
pub struct Deals;

impl Split<View> for Deals {
    ghost left = { λ v. view v.streams (drop 1 v.rows) [] false };

    ghost right = { λ v. view v.streams (take 1 v.rows) [] false };
}

/// A seat takes over the numbers of another.
pub struct Collects;

impl Join<View> for Collects {
    ghost both = { λ v w. view v.streams (v.rows ++ w.rows) v.seen false };

    ghost spent = { spent_view };
}

/// A seat takes the slot, if the lock is free.
pub struct TriesLock;

impl Play<History, View> for TriesLock {
    ghost then = { Tries };
}

/// A seat gives the slot back.
pub struct GivesBack;

impl Play<History, View> for GivesBack {
    ghost then = { Gives };
}
