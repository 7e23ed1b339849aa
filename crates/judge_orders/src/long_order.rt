//! The order of a run of any length, by its traces.
ghost use Rattle.def_format.specs.Limits.{event_limit};
ghost use Rattle.def_model.specs.Messages.{IsMessageList};
ghost use Rattle.def_model.specs.Order.{HasNoCycle, IsReportedCycle};
ghost use Rattle.judge_orders.specs.KeptRuns.{AreWithinLimit, HasKept, HaveKept, HaveRows, KeepsFew, orders_with, values_view};
ghost use Rattle.judge_orders.specs.Lists.{lists_view};
ghost use Rattle.judge_orders.specs.OrderViews.{process_view};
ghost use Rattle.pd_clock.specs.Computations.{initial_view, recorded_view};
ghost use Rattle.pd_clock.specs.Orders.{cycle_view};
ghost use Rattle.pd_spec.specs.Views.{document_view};
ghost use Rattle.read_traces.specs.SessionTraces.{AreTracesWithin};
ghost use Rattle.read_traces.specs.Views.{computation_view};
ghost use Rattle.std.specs.Prelude.{◌≡◌, ◌↔◌, ◌≤◌, ℕ, IfErr, IfNone, IfOk, IfSome, IsTrue, length, map};

use super::known_rows::{check_order, known_rows};
use super::named::named_vars;
use super::order::{Order, ProcessOrder};
use super::process_kept::{ProcessKept, process_kept};
use def_format::EVENT_LIMIT;
use pd_clock::BuildFault;
use pd_match::Matched;
use pd_spec::Spec;
use read_traces::{InitialValues, Trace};
use std::alloc::{AllocError, Global};

/// The order of a run, and which events are kept.
#[derive(Drop)]
pub struct KeptRun {
    /// The order of the run.
    pub order: Order,
    /// For each process the numbers of its kept events, counted from 1, which ascend.
    pub numbers: Vec<Vec<u64>>,
}

/// What is kept of each process.
#[derive(Drop)]
struct TracesKept {
    /// The numbers of its kept events.
    numbers: Vec<Vec<u64>>,
    /// What its variables that are seen are worth at the beginning, and after each kept event.
    values: Vec<Vec<i64>>,
}

/// What is kept of each process, if these variables are seen.
fn traces_kept(
    alloc: Global,
    initial: &[Vec<i64>],
    traces: &[Trace],
    named: &[Vec<usize>],
) -> Result<TracesKept, AllocError>
    requires rows { HaveRows (initial_view initial.now) (computation_view traces.now) }
    requires one_each { length named.now ≡ length traces.now }
    ensures all_numbers { IfOk result (λ kept. length kept.numbers.items ≡ length traces.now) }
    ensures all_values { IfOk result (λ kept. length kept.values.items ≡ length traces.now) }
    ensures kept { IfOk result (λ kept. HaveKept (recorded_view (initial_view initial.now) traces.now)
        (lists_view named.now) (lists_view kept.numbers.items) (values_view kept.values.items) (length traces.now)) }
{
    let mut numbers = Vec::with_capacity(alloc, traces.len())?;
    let mut values = Vec::with_capacity(alloc, traces.len())?;
    for p in 0..traces.len() {
        let kept = process_kept(alloc, &initial[p], &traces[p].events, &named[p])?;
        numbers.push(kept.numbers)?;
        values.push(kept.values)?;
    }
    Ok(TracesKept { numbers, values })
}

/// Whether no process has more numbers than a process may have events.
fn are_within_limit(numbers: &[Vec<u64>]) -> bool
    ensures { IsTrue result ↔ AreWithinLimit (lists_view numbers.now) (length numbers.now) }
{
    for of_process in numbers {
        if of_process.len() > EVENT_LIMIT {
            return false;
        }
    }
    true
}

/// What is seen of each process, by its values and its rows.
fn orders_of(
    alloc: Global,
    mut values: Vec<Vec<i64>>,
    mut known: Vec<Vec<u16>>,
) -> Result<Vec<ProcessOrder>, AllocError>
    requires { length values.items ≡ length known.items }
    ensures { IfOk result (λ orders. map process_view orders.items
        ≡ orders_with (values_view values.items) (lists_view known.items)) }
{
    let mut orders = Vec::with_capacity(alloc, values.len())?;
    for _process in 0..values.len() {
        orders.push(ProcessOrder {
            values: values.remove(0),
            known: known.remove(0),
        })?;
    }
    Ok(orders)
}

/// The order of a run of this document, which may have any number of events, and which events are kept; none if a
/// process keeps more than `EVENT_LIMIT` events.
///
/// It takes time for the settings of the events, for each event that sets something times the variables of its process
/// that are seen, and for the events times the processes. The order has memory for the kept events alone, times the
/// variables of their process and the processes. While it is made, each event has a count for each process too.
///
/// # Errors
/// `Cycle` exactly where some event happened before itself, or `Memory`.
pub fn order_of_traces(
    alloc: Global,
    spec: &Spec,
    traces: &[Trace],
    matched: &Matched,
) -> Result<Option<KeptRun>, BuildFault>
    requires traces { (limit : ℕ) × AreTracesWithin limit (document_view spec.now).names traces.now }
    requires messages { IsMessageList (computation_view traces.now) matched.now }
    ensures found { IfOk result (λ found. IfSome found (HasKept (document_view spec.now)
        (recorded_view (document_view spec.now).initial traces.now))) }
    ensures few { IfOk result (λ found. IfSome found (λ run. KeepsFew (document_view spec.now)
        (recorded_view (document_view spec.now).initial traces.now))) }
    ensures many { IfOk result (λ found. IfNone found (¬ KeepsFew (document_view spec.now)
        (recorded_view (document_view spec.now).initial traces.now))) }
    ensures acyclic { IfOk result (λ _. HasNoCycle (computation_view traces.now)) }
    ensures cycle { IfErr result (λ fault.
        IfSome (cycle_view fault) (IsReportedCycle (computation_view traces.now))) }
{
    let initial = InitialValues::initial_rows(spec);
    let named = named_vars(alloc, traces.len(), spec.predicates())?;
    let TracesKept { numbers, values } = traces_kept(alloc, initial, traces, &named)?;
    if !are_within_limit(&numbers) {
        check_order(alloc, traces, matched)?;
        return Ok(None);
    }
    let known = known_rows(alloc, traces, matched, &numbers)?;
    let processes = orders_of(alloc, values, known)?;
    Ok(Some(KeptRun {
        order: Order { named, processes },
        numbers,
    }))
}
