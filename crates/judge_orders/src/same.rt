//! Whether the same is seen of two processes.
ghost use Rattle.judge_orders.specs.Lists.{lists_view};
ghost use Rattle.judge_orders.specs.OrderViews.{process_view};
ghost use Rattle.std.specs.Prelude.{◌≡◌, ◌↔◌, IsTrue, map};

use super::order::ProcessOrder;

/// Whether two lists have the same variables in the same order.
fn is_same_vars(first: &[usize], second: &[usize]) -> bool
    ensures { IsTrue result ↔ (first.now ≡ second.now) }
{
    first == second
}

/// Whether two lists have the same values in the same order.
fn is_same_values(first: &[i64], second: &[i64]) -> bool
    ensures { IsTrue result ↔ (first.now ≡ second.now) }
{
    first == second
}

/// Whether two lists have the same counts in the same order.
fn is_same_counts(first: &[u16], second: &[u16]) -> bool
    ensures { IsTrue result ↔ (first.now ≡ second.now) }
{
    first == second
}

/// Whether the same is seen of two processes.
fn is_same_process(first: &ProcessOrder, second: &ProcessOrder) -> bool
    ensures { IsTrue result ↔ (process_view first.now ≡ process_view second.now) }
{
    is_same_values(&first.values, &second.values) && is_same_counts(&first.known, &second.known)
}

/// Whether the same variables are seen, process by process.
pub(crate) fn is_same_named(first: &[Vec<usize>], second: &[Vec<usize>]) -> bool
    ensures { IsTrue result ↔ (lists_view first.now ≡ lists_view second.now) }
{
    if first.len() != second.len() {
        return false;
    }
    for i in 0..first.len() {
        if !is_same_vars(&first[i], &second[i]) {
            return false;
        }
    }
    true
}

/// Whether the same is seen, process by process.
pub(crate) fn is_same_processes(first: &[ProcessOrder], second: &[ProcessOrder]) -> bool
    ensures { IsTrue result ↔ (map process_view first.now ≡ map process_view second.now) }
{
    if first.len() != second.len() {
        return false;
    }
    for i in 0..first.len() {
        if !is_same_process(&first[i], &second[i]) {
            return false;
        }
    }
    true
}
