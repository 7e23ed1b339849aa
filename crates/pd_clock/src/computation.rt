//! A finished computation.
ghost use Rattle.pd_clock.specs.Computations.{FitsInitial, Keeps, recorded_view};
ghost use Rattle.read_traces.specs.SessionTraces.{AreTraces};
ghost use Rattle.read_traces.specs.Views.{computation_view};
ghost use Rattle.def_format.specs.Limits.{event_limit, process_limit};
ghost use Rattle.pd_clock.specs.Orders.{cycle_view};
ghost use Rattle.pd_clock.specs.Senders.{IsSender};
ghost use Rattle.pd_clock.specs.StateViews.{state_view};
ghost use Rattle.def_model.specs.Cuts.{FitsProcesses, IsConsistent, one_less, total};
ghost use Rattle.pd_match.specs.Views.{place_view};
ghost use Rattle.def_model.specs.Events.{IsEvent, event_count};
ghost use Rattle.def_model.specs.Messages.{IsMessageList};
ghost use Rattle.def_model.specs.Order.{HappenedBefore, HasNoCycle, IsClock, IsReportedCycle};
ghost use Rattle.def_model.specs.Predicates.{state_at};
ghost use Rattle.std.specs.Prelude.{◌≡◌, ◌<◌, ◌≤◌, ◌*◌, ◌↔◌, ℕ, List, IfErr, IfOk, IfSome, IsTrue, length, slice_index};

use super::clocks::{has_pasts, is_in_no_past};
use super::cycle::reported_cycle;
use super::history::history;
use super::order::{Order, put_in_order};
use super::state::value_in_history;
use super::{BuildFault, Cut, State};
use def_format::PROCESS_LIMIT;
use pd_match::{Matched, Place};
use read_traces::{InitialValues, Numbers, Trace};
use std::alloc::{AllocError, Global};
use std::marker::Model;

/// The events of each process, with the values of its variables after each event, its clock, and its send if it is a
/// receipt.
#[derive(Drop)]
pub struct Computation<'a> {
    initial: &'a [Vec<i64>],
    traces: &'a [Trace],
    histories: Vec<Numbers>,
    clocks: Vec<Vec<u16>>,
    matched: Matched,
}

impl<'a> Model for Computation<'a> {
    ghost use Rattle.def_model.specs.Predicates.{Recorded};
    ghost use Rattle.pd_clock.specs.Computations.{initial_view, recorded_view, Keeps};
    ghost use Rattle.read_traces.specs.Views.{computation_view};
    ghost use Rattle.pd_clock.specs.Orders.{HasClocks};
    ghost use Rattle.def_model.specs.Messages.{IsMessageList};
    ghost use Rattle.def_model.specs.Cuts.{full_cut};
    ghost use Rattle.def_model.specs.Order.{HasNoCycle};
    ghost use Rattle.std.specs.Prelude.{length};

    ghost Value = { Recorded };

    ghost view = { λ c. recorded_view (initial_view c.initial.now) c.traces.now };

    ghost invariant = { λ c. Keeps c.initial.now c.traces.now c.histories.items
        × HasClocks (computation_view c.traces.now) (full_cut (computation_view c.traces.now)) c.clocks.items
        × HasNoCycle (computation_view c.traces.now)
        × IsMessageList (computation_view c.traces.now) c.matched };
}

/// The history of each process.
fn histories(
    alloc: Global,
    initial: &[Vec<i64>],
    traces: &[Trace],
) -> Result<Vec<Numbers>, AllocError>
    requires { FitsInitial initial.now traces.now }
    ensures { IfOk result (λ histories. Keeps initial.now traces.now histories.items) }
{
    let mut histories = Vec::new(alloc);
    for p in 0..traces.len() {
        histories.push(history(alloc, &initial[p], &traces[p].events)?)?;
    }
    Ok(histories)
}

/// How many events there are.
fn total_of(traces: &[Trace]) -> u64
    requires few { length traces.now ≤ process_limit }
    requires short { (p : ℕ) → event_count (computation_view traces.now) p ≤ event_limit }
    ensures sum { result ≡ total (computation_view traces.now) }
    ensures small { result ≤ event_limit * process_limit }
{
    let mut total = 0;
    for process in traces {
        total += process.events.len() as u64;
    }
    total
}

/// Whether no count is above the number of its process's events.
fn none_above(counts: &[u64], traces: &[Trace]) -> bool
    requires { length counts.now ≡ length traces.now }
    ensures { IsTrue result ↔ ((p : ℕ) → slice_index counts.now p ≤ event_count (computation_view traces.now) p) }
{
    for i in 0..counts.len() {
        if counts[i] > traces[i].events.len() as u64 {
            return false;
        }
    }
    true
}

impl<'a> Computation<'a> {
    /// The computation of these traces, one for each process of the session and in their order. The messages are those
    /// of the traces.
    ///
    /// # Errors
    /// `Cycle` exactly where some event happened before itself, or `Memory`, also if there are more processes than
    /// `PROCESS_LIMIT`: a clock has no room for more.
    pub fn build<S: InitialValues>(
        alloc: Global,
        session: &'a S,
        traces: &'a [Trace],
        matched: Matched,
    ) -> Result<Computation<'a>, BuildFault>
        requires traces { AreTraces (S.names session.now) traces.now }
        requires messages { IsMessageList (computation_view traces.now) matched }
        ensures recorded { IfOk result (λ computation.
            computation ≡ recorded_view (S.initial session.now) traces.now) }
        ensures acyclic { IfOk result (λ computation. HasNoCycle (computation_view traces.now)) }
        ensures cycle { IfErr result (λ fault.
            IfSome (cycle_view fault) (IsReportedCycle (computation_view traces.now))) }
    {
        if traces.len() > PROCESS_LIMIT {
            return Err(BuildFault::Memory);
        }
        let initial = session.initial_rows();
        let Order { done, clocks } = put_in_order(alloc, traces, &matched)?;
        if let Some(places) = reported_cycle(alloc, traces, &matched, &done)? {
            return Err(BuildFault::Cycle(places));
        }
        Ok(Computation {
            initial,
            traces,
            histories: histories(alloc, initial, traces)?,
            clocks,
            matched,
        })
    }

    /// How many processes there are.
    pub fn processes(&self) -> usize
        ensures { result ≡ length self.now.events }
    {
        self.traces.len()
    }

    /// What holds of every computation: it has a process or more and is within the limits, and no event happened before
    /// itself. It has no code: a caller's proof has these facts by calling it.
    pub fn limits(&self)
        ensures some { 1 ≤ length self.now.events }
        ensures few { length self.now.events ≤ process_limit }
        ensures short { (p : ℕ) → event_count self.now.events p ≤ event_limit }
        ensures acyclic { HasNoCycle self.now.events }
    {
        let _initial = &self.initial;
    }

    /// How many events all processes have together.
    pub fn total(&self) -> u64
        ensures sum { result ≡ total self.now.events }
        ensures small { result ≤ event_limit * process_limit }
    {
        total_of(self.traces)
    }

    /// How many events process `p`, counted from 0, has.
    pub fn events(&self, p: usize) -> u64
        requires { p < length self.now.events }
        ensures { result ≡ event_count self.now.events p }
    {
        let traces = self.traces;
        traces[p].events.len() as u64
    }

    /// Whether there is one count for each process, none above the number of its events.
    pub fn fits(&self, cut: &Cut) -> bool
        ensures { IsTrue result ↔ FitsProcesses self.now.events cut.now }
    {
        let counts = cut.counts();
        counts.len() == self.traces.len() && none_above(counts, self.traces)
    }

    /// Whether the counts are those of a cut: with an event it has each that happened before it.
    pub fn consistent(&self, cut: &Cut) -> bool
        ensures { IsTrue result ↔ IsConsistent self.now.events cut.now }
    {
        self.fits(cut) && has_pasts(&self.clocks, cut.counts())
    }

    /// Whether the last event of process `p`, counted from 0, can be undone: the cut has one, and a consistent cut is
    /// left without it.
    pub fn can_undo(&self, cut: &Cut, p: usize) -> bool
        requires consistent { IsConsistent self.now.events cut.now }
        requires within { p < length self.now.events }
        ensures { IsTrue result
            ↔ ((0 < slice_index cut.now p) × IsConsistent self.now.events (one_less cut.now p)) }
    {
        let counts = cut.counts();
        counts[p] > 0 && is_in_no_past(&self.clocks, counts, p)
    }

    /// Whether the place is that of an event.
    pub fn has(&self, place: Place) -> bool
        ensures { IsTrue result ↔ IsEvent self.now.events (place_view place) }
    {
        place.process < self.processes()
            && 1 <= place.number
            && place.number <= self.events(place.process)
    }

    /// How many events of process `q`, counted from 0, are this event or happened before it: they are the first of
    /// `q`'s events, this many.
    pub fn clock(&self, place: Place, q: usize) -> u64
        requires event { IsEvent self.now.events (place_view place) }
        requires within { q < length self.now.events }
        ensures { IsClock self.now.events (place_view place) q result }
    {
        self.clocks[place.process][(place.number as usize - 1) * self.processes() + q] as u64
    }

    /// The send of this event, if it is a receipt.
    pub fn sender(&self, receipt: Place) -> Option<Place>
        requires { IsEvent self.now.events (place_view receipt) }
        ensures { IsSender self.now.events (place_view receipt) result }
    {
        self.matched.sender(receipt)
    }

    /// Whether event `e` happened before event `f`.
    pub fn before(&self, e: Place, f: Place) -> bool
        requires first { IsEvent self.now.events (place_view e) }
        requires second { IsEvent self.now.events (place_view f) }
        ensures { IsTrue result ↔ HappenedBefore self.now.events (place_view e) (place_view f) }
    {
        self.limits();
        e != f && e.number <= self.clock(f, e.process)
    }

    /// The value of variable `var` of process `process`, both counted from 0, after the first `count` events of the
    /// process. It is 0 where there is no such process or variable.
    pub fn value(&self, process: usize, count: u64, var: usize) -> i64
        requires { process < length self.now.events → count ≤ event_count self.now.events process }
        ensures { (counts : List ℕ) → slice_index counts process ≡ count
            → result ≡ state_at self.now.initial self.now.events counts process var }
    {
        if process >= self.initial.len() {
            return 0;
        }
        value_in_history(&self.initial[process], &self.histories[process], count, var)
    }

    /// The state at a cut that fits.
    pub fn at<'b>(&'b self, cut: &'b Cut) -> State<'b>
        requires { FitsProcesses self.now.events cut.now }
        ensures { state_view result ≡ state_at self.now.initial self.now.events cut.now }
    {
        State::new(self.initial, &self.histories, cut.counts())
    }
}
