//! The events of a process.
ghost use Rattle.def_format.specs.Limits.{event_limit};
ghost use Rattle.def_format.specs.Names.{vars_of};
ghost use Rattle.def_long.specs.Views.{value_after};
ghost use Rattle.def_model.specs.Events.{event_count};
ghost use Rattle.judge_orders.specs.Lists.{lists_view};
ghost use Rattle.judge_reduced.specs.Planned.{AddsImage, AreListed, IsPlannedWith, IsWhole};
ghost use Rattle.judge_orders.specs.Ranked.{HaveColumns};
ghost use Rattle.pd_spec.specs.Views.{document_view};
ghost use Rattle.std.specs.Prelude.{◌≡◌, ◌*◌, ◌<◌, ◌≤◌, ℕ, [], List, All, IfOk, IfSome, IsSome, false, length, replicate, slice_index_or, true};

use super::ids::id_of;
use super::receipts::{kept_count, number_at, push_receipts};
use super::settings::settings_after;
use def_format::EVENT_LIMIT;
use pd_clock::Computation;
use pd_spec::Spec;
use read_traces::{Events, Kind};
use std::alloc::{AllocError, Global};

/// How many variables process `p` has.
fn var_count(spec: &Spec, p: usize) -> usize
    requires { p < length (document_view spec.now).names }
    ensures { result ≡ length (vars_of (document_view spec.now).names p) }
{
    spec.names().vars(p).len()
}

/// Whether these variables are all below `count`.
fn are_below(vars: &[usize], count: usize) -> bool
    ensures yes { result ≡ true → All (λ v. v < count) vars.now }
    ensures no { result ≡ false → ¬ All (λ v. v < count) vars.now }
{
    for &var in vars {
        if var >= count {
            return false;
        }
    }
    true
}

/// This many zeros.
fn zeros(alloc: Global, count: usize) -> Result<Vec<u16>, AllocError>
    ensures { IfOk result (λ zeros. zeros.items ≡ replicate count 0) }
{
    let mut zeros = Vec::with_capacity(alloc, count)?;
    for _i in 0..count {
        zeros.push(0)?;
    }
    Ok(zeros)
}

/// Adds the image of the kept event of process `p` with this rank and this number.
///
/// # Errors
/// An allocation was refused.
fn push_image(
    alloc: Global,
    computation: &Computation<'_>,
    p: usize,
    rank: usize,
    number: u64,
    vars: &[usize],
    count: usize,
    events: &mut Events,
) -> Result<(), AllocError>
    requires within { p < length computation.now.events }
    requires there { number ≤ event_count computation.now.events p }
    requires rank { rank ≤ 65535 }
    ensures { IfOk result (λ _. AddsImage (value_after computation.now number p) vars.now count p rank events.old
        events.new) }
{
    computation.limits();
    let sets = settings_after(alloc, computation, p, number, vars, count)?;
    let id = id_of(alloc, p, rank)?;
    events.push_parts(Kind::Send(&id), &sets)?;
    Ok(())
}

/// The events of process `p`, of which these variables are seen, all of them below `count`.
///
/// It takes time for the process's kept events, times the square of the number of processes and times its variables.
///
/// # Errors
/// An allocation was refused.
fn process_events(
    alloc: Global,
    computation: &Computation<'_>,
    numbers: &[Vec<u64>],
    columns: &[Vec<u16>],
    vars: &[usize],
    count: usize,
    p: usize,
) -> Result<Events, AllocError>
    requires listed { AreListed computation.now.events (lists_view numbers.now) }
    requires all_listed { length numbers.now ≡ length computation.now.events }
    requires one_each { length columns.now ≡ length computation.now.events }
    requires columns { HaveColumns computation.now.events (lists_view numbers.now) (lists_view columns.now)
        (length computation.now.events) }
    requires process { p < length computation.now.events }
    requires few { length (slice_index_or (lists_view numbers.now) p []) ≤ event_limit }
    requires vars { All (λ v. v < count) vars.now }
    ensures planned { IfOk result (λ events. IsPlannedWith count computation.now vars.now (lists_view numbers.now) p
        (length (slice_index_or (lists_view numbers.now) p [])) events) }
    ensures few { IfOk result (λ events. length events
        ≤ length (slice_index_or (lists_view numbers.now) p []) * length computation.now.events) }
{
    let mut events = Events::new(alloc);
    let mut last = zeros(alloc, numbers.len())?;
    for i in 0..kept_count(numbers, p) {
        push_receipts(
            alloc,
            computation,
            numbers,
            columns,
            p,
            i,
            &mut last,
            &mut events,
        )?;
        push_image(
            alloc,
            computation,
            p,
            i,
            number_at(numbers, p, i),
            vars,
            count,
            &mut events,
        )?;
    }
    Ok(events)
}

/// The events of process `p`, of which these variables are seen, or `None` if there are more than 10,000, or the
/// document hasn't one of the variables.
///
/// It takes time for the process's kept events, times the square of the number of processes and times its variables.
///
/// # Errors
/// An allocation was refused.
pub(crate) fn limited_events(
    alloc: Global,
    spec: &Spec,
    computation: &Computation<'_>,
    numbers: &[Vec<u64>],
    columns: &[Vec<u16>],
    vars: &[usize],
    p: usize,
) -> Result<Option<Events>, AllocError>
    requires names { length computation.now.events ≡ length (document_view spec.now).names }
    requires listed { AreListed computation.now.events (lists_view numbers.now) }
    requires all_listed { length numbers.now ≡ length computation.now.events }
    requires one_each { length columns.now ≡ length computation.now.events }
    requires columns { HaveColumns computation.now.events (lists_view numbers.now) (lists_view columns.now)
        (length computation.now.events) }
    requires process { p < length computation.now.events }
    ensures whole { IfOk result (λ found. IfSome found (λ events. IsWhole (document_view spec.now).names
        computation.now vars.now (lists_view numbers.now) p events)) }
    ensures some { All (λ v. v < length (vars_of (document_view spec.now).names p)) vars.now
        → length (slice_index_or (lists_view numbers.now) p []) * length computation.now.events ≤ event_limit
        → IfOk result IsSome }
{
    let count = var_count(spec, p);
    if kept_count(numbers, p) > EVENT_LIMIT || !are_below(vars, count) {
        return Ok(None);
    }
    let events = process_events(alloc, computation, numbers, columns, vars, count, p)?;
    if events.len() > EVENT_LIMIT {
        return Ok(None);
    }
    Ok(Some(events))
}
