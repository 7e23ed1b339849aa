//! The events that are kept: those that set a variable that is seen to another value.
ghost use Rattle.def_format.specs.Limits.{event_limit};
ghost use Rattle.def_long.specs.Views.{value_after};
ghost use Rattle.def_model.specs.Events.{event_count};
ghost use Rattle.def_orders.specs.Orders.{AreKept, values_after};
ghost use Rattle.judge_orders.specs.KeptEvents.{AllKept};
ghost use Rattle.judge_orders.specs.Lists.{lists_view};
ghost use Rattle.std.specs.Prelude.{◌≡◌, ◌≢◌, ◌+◌, ◌<◌, ◌≤◌, IfOk, false, length, true};

use pd_clock::Computation;
use std::alloc::{AllocError, Global};

/// What a variable of process `p` is worth after the first `n` events of the process.
#[inline(always)]
pub fn value_after(computation: &Computation<'_>, p: usize, n: u64, var: usize) -> i64
    requires within { p < length computation.now.events }
    requires there { n ≤ event_count computation.now.events p }
    ensures { result ≡ value_after computation.now n p var }
{
    computation.value(p, n, var)
}

/// Whether the event after the first `n` of process `p` sets one of these variables to another value.
#[inline(always)]
fn is_kept(computation: &Computation<'_>, p: usize, n: u64, vars: &[usize]) -> bool
    requires within { p < length computation.now.events }
    requires there { n < event_count computation.now.events p }
    requires short { event_count computation.now.events p ≤ event_limit }
    ensures same { result ≡ false
        → values_after computation.now p vars.now n ≡ values_after computation.now p vars.now (n + 1) }
    ensures changes { result ≡ true
        → values_after computation.now p vars.now n ≢ values_after computation.now p vars.now (n + 1) }
{
    for &var in vars {
        if value_after(computation, p, n, var) != value_after(computation, p, n + 1, var) {
            return true;
        }
    }
    false
}

/// The numbers of the events of process `p` that set one of these variables to another value.
///
/// It takes time for the process's events times the variables, and none if there is no variable.
///
/// # Errors
/// An allocation was refused.
fn kept_events(
    alloc: Global,
    computation: &Computation<'_>,
    p: usize,
    vars: &[usize],
) -> Result<Vec<u64>, AllocError>
    requires { p < length computation.now.events }
    ensures { IfOk result (λ numbers. AreKept computation.now p vars.now numbers.items) }
{
    let mut numbers = Vec::new(alloc);
    if vars.is_empty() {
        return Ok(numbers);
    }
    computation.limits();
    for n in 0..computation.events(p) {
        if is_kept(computation, p, n, vars) {
            numbers.push(n + 1)?;
        }
    }
    Ok(numbers)
}

/// The numbers of the kept events of each process, in the order of the processes.
///
/// # Errors
/// An allocation was refused.
pub fn all_kept_events(
    alloc: Global,
    computation: &Computation<'_>,
    named: &[Vec<usize>],
) -> Result<Vec<Vec<u64>>, AllocError>
    requires { length named.now ≡ length computation.now.events }
    ensures one_each { IfOk result (λ numbers. length numbers.items ≡ length computation.now.events) }
    ensures kept { IfOk result (λ numbers. AllKept computation.now (lists_view named.now) (lists_view numbers.items)
        (length computation.now.events)) }
{
    let mut numbers = Vec::with_capacity(alloc, named.len())?;
    for p in 0..named.len() {
        numbers.push(kept_events(alloc, computation, p, &named[p])?)?;
    }
    Ok(numbers)
}
