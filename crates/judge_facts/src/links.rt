//! Which processes messages order.
ghost use Rattle.judge_facts.specs.Links.{HasLinks, IsLedTo, LeadsTo, Links};
ghost use Rattle.pd_pred.specs.Trees.{tree_view};
ghost use Rattle.std.specs.Prelude.{◌≡◌, ◌<◌, ◌≢◌, ◌↔◌, IsTrue, length};

use super::named::names_process;
use pd_clock::{Computation, Place};
use pd_pred::Tree;

/// Whether some event of process `p` happened before some event of another process `q`, both counted from 0: messages
/// lead from `p` to `q`, directly or by other processes.
pub fn leads_to(computation: &Computation<'_>, p: usize, q: usize) -> bool
    requires first { p < length computation.now.events }
    requires second { q < length computation.now.events }
    requires differ { p ≢ q }
    ensures { IsTrue result ↔ LeadsTo computation.now.events p q }
{
    let number = computation.events(q);
    number > 0 && computation.clock(Place { process: q, number }, p) > 0
}

/// Whether a predicate names two processes, and messages lead from the first to the second.
fn are_linked(computation: &Computation<'_>, tree: &Tree, p: usize, q: usize) -> bool
    requires first { p < length computation.now.events }
    requires second { q < length computation.now.events }
    ensures { IsTrue result ↔ Links computation.now.events (tree_view tree.now) p q }
{
    if p == q {
        return false;
    }
    names_process(tree, p) && names_process(tree, q) && leads_to(computation, p, q)
}

/// Whether messages lead to a process from another one, if a predicate names both.
fn is_led_to(computation: &Computation<'_>, tree: &Tree, q: usize) -> bool
    requires { q < length computation.now.events }
    ensures { IsTrue result ↔ IsLedTo computation.now.events (tree_view tree.now) q }
{
    for p in 0..computation.processes() {
        if are_linked(computation, tree, p, q) {
            return true;
        }
    }
    false
}

/// Whether messages lead from one of the processes that a predicate names to another one of them, directly or by other
/// processes.
pub fn has_links(computation: &Computation<'_>, tree: &Tree) -> bool
    ensures { IsTrue result ↔ HasLinks computation.now.events (tree_view tree.now) }
{
    for q in 0..computation.processes() {
        if is_led_to(computation, tree, q) {
            return true;
        }
    }
    false
}
