//! The reduction of a run.
ghost use Rattle.judge_orders.specs.Lists.{lists_view};
ghost use Rattle.judge_reduced.specs.Bounds.{AreFew, AreTheirVars, HaveFewKept, NameTheirVars};
ghost use Rattle.judge_reduced.specs.Planned.{AreListed, AreWhole};
ghost use Rattle.judge_orders.specs.Ranked.{HaveColumns};
ghost use Rattle.judge_reduced.specs.Reductions.{IsReductionOf};
ghost use Rattle.pd_spec.specs.Views.{document_view};
ghost use Rattle.std.specs.Prelude.{◌≡◌, IfOk, IfSome, IsSome, length};

use super::images::limited_events;
use judge_orders::{all_kept_events, columns, named_vars};
use pd_clock::Computation;
use pd_spec::Spec;
use read_traces::Trace;
use std::alloc::{AllocError, Global};

/// The trace of each process, of which these variables are seen and these events are kept, or `None` if a process would
/// have more than 10,000 events, or the document hasn't one of the variables.
///
/// # Errors
/// An allocation was refused.
fn reduced_traces(
    alloc: Global,
    spec: &Spec,
    computation: &Computation<'_>,
    named: &[Vec<usize>],
    numbers: &[Vec<u64>],
    columns: &[Vec<u16>],
) -> Result<Option<Vec<Trace>>, AllocError>
    requires names { length computation.now.events ≡ length (document_view spec.now).names }
    requires all_named { length named.now ≡ length computation.now.events }
    requires listed { AreListed computation.now.events (lists_view numbers.now) }
    requires all_listed { length numbers.now ≡ length computation.now.events }
    requires one_each { length columns.now ≡ length computation.now.events }
    requires columns { HaveColumns computation.now.events (lists_view numbers.now) (lists_view columns.now)
        (length computation.now.events) }
    ensures whole { IfOk result (λ found. IfSome found (λ traces. AreWhole (document_view spec.now).names
        computation.now (lists_view named.now) (lists_view numbers.now) (length computation.now.events)
        traces.items)) }
    ensures some { AreTheirVars (document_view spec.now).names (lists_view named.now) (length computation.now.events)
        → AreFew (lists_view numbers.now) (length computation.now.events) → IfOk result IsSome }
{
    let mut traces = Vec::with_capacity(alloc, named.len())?;
    for p in 0..named.len() {
        let Some(events) = limited_events(alloc, spec, computation, numbers, columns, &named[p], p)?
        else {
            return Ok(None);
        };
        traces.push(Trace {
            process: p,
            join_line: 1,
            events,
        })?;
    }
    Ok(Some(traces))
}

/// The reduction of a run of this document, or `None` if a process of it would have more than 10,000 events, its
/// receipts among them, or a predicate names a variable that the document doesn't have. No predicate of a document that
/// was read does. So there is a reduction at least if each process's kept events times the number of processes are at
/// most 10,000: before a kept event come no more receipts than there are other processes.
///
/// An event is kept if it sets a variable that a predicate names to another value. In the reduction each process has
/// its kept events, each of which sends a message and sets the variables of the process that predicates name to what
/// they are worth after it. Before it come receipts, each an event of its own: of the message of each latest kept event
/// of another process that happened before it, unless the message was received earlier, or another kept event lies
/// between. So a message may have several receivers, and a process without kept events has no events. Each predicate of
/// the document has the answers of the run, to Possibly and to Definitely.
///
/// It takes time for the events of each process that has a variable that is seen, times its variables, and for the
/// events that are kept, times the square of the number of processes. The reduction has memory for the kept events and
/// their receipts, and for the variables that are seen after each kept event.
///
/// # Errors
/// An allocation was refused.
pub fn reduced_run(
    alloc: Global,
    spec: &Spec,
    computation: &Computation<'_>,
) -> Result<Option<Vec<Trace>>, AllocError>
    requires names { length computation.now.events ≡ length (document_view spec.now).names }
    ensures made { IfOk result (λ found. IfSome found (λ traces.
        IsReductionOf (document_view spec.now) computation.now traces.items)) }
    ensures some { NameTheirVars (document_view spec.now) → HaveFewKept (document_view spec.now) computation.now
        → IfOk result IsSome }
{
    computation.limits();
    let named = named_vars(alloc, computation.processes(), spec.predicates())?;
    let numbers = all_kept_events(alloc, computation, &named)?;
    let columns = columns(alloc, computation, &numbers)?;
    reduced_traces(alloc, spec, computation, &named, &numbers, &columns)
}
