//! What the walk over whole levels looks up in a computation.
ghost use Rattle.walk_keys.specs.Words.{has_bit};
ghost use Rattle.def_format.specs.Limits.{event_limit, process_limit};
ghost use Rattle.def_model.specs.Events.{event_count, place};
ghost use Rattle.walk_runs.specs.Births.{IsReceivedBelow, IsWalkable};
ghost use Rattle.walk_runs.specs.Needs.{AreNeeds, AreReceivers, HasNeeds, HaveReceivers, IsNeed, table_view};
ghost use Rattle.walk_runs.specs.Receivers.{HasAdded, IsBitOf, IsBitOfRow, IsSet};
ghost use Rattle.walk_runs.specs.declared.need.Need.{Need};
ghost use Rattle.std.specs.Prelude.{◌≡◌, ◌≢◌, ◌↔◌, ◌+◌, ◌-◌, ◌<◌, ◌≤◌, ℕ, IfOk, IsTrue, length, true};

use super::need::{Need, need_after};
use pd_clock::Computation;
use std::alloc::{AllocError, Global};
use std::marker::Model;
use walk_keys::bits::words;

/// What the walk over whole levels looks up in a computation of two processes or more: the need of each event, and
/// which processes of the prefix receive it, a bit for each.
#[derive(Drop)]
pub struct Steps<'a, 'b> {
    computation: &'a Computation<'b>,
    needs: Vec<Vec<Need>>,
    receivers: Vec<Vec<u16>>,
}

impl<'a, 'b> Model for Steps<'a, 'b> {
    ghost use Rattle.def_model.specs.Events.{Computation as Events};
    ghost use Rattle.walk_runs.specs.Needs.{IsSteps};

    ghost Value = { Events };

    ghost view = { λ s. s.computation.now.events };

    ghost invariant = { λ s. IsSteps s.computation.now.events s.needs.items s.receivers.items };
}

/// The needs of the events of process `p`, and the one after the last.
fn needs_of(alloc: Global, computation: &Computation<'_>, p: usize) -> Result<Vec<Need>, AllocError>
    requires few { length computation.now.events ≤ process_limit }
    requires short { (q : ℕ) → event_count computation.now.events q ≤ event_limit }
    requires within { p < length computation.now.events }
    ensures { IfOk result (λ row.
        HasNeeds computation.now.events p (event_count computation.now.events p + 1) row.items) }
{
    let count = computation.events(p);
    let mut row = Vec::with_capacity(alloc, count as usize + 1)?;
    for n in 0..count + 1 {
        row.push(need_after(computation, p, n))?;
    }
    Ok(row)
}

/// The same of each process.
fn needs_of_all(alloc: Global, computation: &Computation<'_>) -> Result<Vec<Vec<Need>>, AllocError>
    ensures { IfOk result (λ rows.
        AreNeeds computation.now.events (length computation.now.events) rows.items) }
{
    computation.limits();
    let mut rows = Vec::with_capacity(alloc, computation.processes())?;
    for p in 0..computation.processes() {
        rows.push(needs_of(alloc, computation, p)?)?;
    }
    Ok(rows)
}

/// The word with the bit of process `p` set as well.
fn with_receiver(word: u16, p: usize) -> u16
    requires { p < process_limit }
    ensures set { has_bit result p ≡ true }
    ensures others { (j : ℕ) → j ≢ p → has_bit result j ≡ has_bit word j }
{
    word | (1 << p)
}

/// Sets bit `p` in the word of this number.
fn set_receiver(receivers: &mut Vec<u16>, number: usize, p: usize)
    requires few { p < process_limit }
    requires within { number < length receivers.old.items }
    ensures { IsSet number p receivers.old.items receivers.new.items }
{
    receivers[number] = with_receiver(receivers[number], p);
}

/// Sets bit `p` in the word of the event that is needed, if there is one.
fn add_receiver(need: Need, p: usize, receivers: &mut Vec<Vec<u16>>)
    requires { p < process_limit }
    ensures { HasAdded (IsBitOf (table_view receivers.old.items) need p) (table_view receivers.old.items)
        (table_view receivers.new.items) }
{
    let q = need.process as usize;
    let number = need.number as usize;
    if number > 0 && q < receivers.len() && number < receivers[q].len() {
        set_receiver(&mut receivers[q], number, p);
    }
}

/// The same for each need of a row, which is that of process `p`.
fn add_receivers(row: &[Need], p: usize, receivers: &mut Vec<Vec<u16>>)
    requires { p < process_limit }
    ensures { HasAdded (IsBitOfRow (table_view receivers.old.items) row.now (length row.now) p)
        (table_view receivers.old.items) (table_view receivers.new.items) }
{
    for i in 0..row.len() {
        add_receiver(row[i], p, receivers);
    }
}

/// For each process a word for each number of its events, without a bit.
fn no_receivers(alloc: Global, computation: &Computation<'_>) -> Result<Vec<Vec<u16>>, AllocError>
    ensures { IfOk result (λ receivers. HaveReceivers computation.now.events 0 (length computation.now.events)
        (table_view receivers.items)) }
{
    computation.limits();
    let mut receivers = Vec::with_capacity(alloc, computation.processes())?;
    for q in 0..computation.processes() {
        let count = computation.events(q) as usize;
        let row = vec![in alloc; 0u16; count + 1]?;
        receivers.push(row)?;
    }
    Ok(receivers)
}

/// For each process a word for each number of its events, with a bit for each process of the prefix that receives the
/// last of these. One pass over the needs of the prefix sets all bits.
fn receivers_of_all(
    alloc: Global,
    computation: &Computation<'_>,
    needs: &[Vec<Need>],
) -> Result<Vec<Vec<u16>>, AllocError>
    requires needs { AreNeeds computation.now.events (length computation.now.events) needs.now }
    requires two { 2 ≤ length computation.now.events }
    ensures { IfOk result (λ receivers. HaveReceivers computation.now.events (length computation.now.events - 2)
        (length computation.now.events) (table_view receivers.items)) }
{
    computation.limits();
    let mut receivers = no_receivers(alloc, computation)?;
    for p in 0..computation.processes() - 2 {
        add_receivers(&needs[p], p, &mut receivers);
    }
    Ok(receivers)
}

impl<'a, 'b> Steps<'a, 'b> {
    /// What is looked up in this computation, which has two processes or more.
    ///
    /// # Errors
    /// An allocation was refused.
    pub fn of(alloc: Global, computation: &'a Computation<'b>) -> Result<Steps<'a, 'b>, AllocError>
        requires { 2 ≤ length computation.now.events }
        ensures { IfOk result (λ steps. steps ≡ computation.now.events) }
    {
        let needs = needs_of_all(alloc, computation)?;
        let receivers = receivers_of_all(alloc, computation, &needs)?;
        Ok(Steps {
            computation,
            needs,
            receivers,
        })
    }

    /// What holds of every computation that is looked up: two processes or more, each within the limits, no event that
    /// happened before itself, and one send for each receipt.
    pub(crate) fn limits(&self)
        ensures two { 2 ≤ length self.now }
        ensures few { length self.now ≤ process_limit }
        ensures short { (p : ℕ) → event_count self.now p ≤ event_limit }
        ensures walkable { IsWalkable self.now }
    {
        let computation = self.computation;
        computation.limits();
    }

    /// How many processes there are before the last two.
    pub(crate) fn prefix(&self) -> usize
        ensures { result ≡ length self.now - 2 }
    {
        let computation = self.computation;
        computation.processes() - 2
    }

    /// The need of the event that comes after the first `count` ones of process `p`.
    pub(crate) fn need(&self, p: usize, count: u64) -> Need
        requires within { p < length self.now }
        requires counted { count ≤ event_count self.now p }
        ensures { IsNeed self.now p count result.process result.number }
    {
        self.needs[p][count as usize]
    }

    /// The processes of the prefix that receive event `number` of process `q`, a bit for each.
    fn word(&self, q: usize, number: u64) -> u64
        requires within { q < length self.now }
        requires counted { number ≤ event_count self.now q }
        ensures { AreReceivers self.now (length self.now - 2) (place q number) result }
    {
        u64::from(self.receivers[q][number as usize])
    }

    /// Whether a process of the prefix receives event `number` of the last process but one.
    pub(crate) fn may_send_x(&self, number: u64) -> bool
        requires { number ≤ event_count self.now (length self.now - 2) }
        ensures { IsTrue result
            ↔ IsReceivedBelow self.now (length self.now - 2) (place (length self.now - 2) number) }
    {
        self.limits();
        let receivers = self.word(self.prefix(), number);
        words(receivers);
        receivers != 0
    }

    /// The same of the last process.
    pub(crate) fn may_send_y(&self, number: u64) -> bool
        requires { number ≤ event_count self.now (length self.now - 1) }
        ensures { IsTrue result
            ↔ IsReceivedBelow self.now (length self.now - 2) (place (length self.now - 1) number) }
    {
        self.limits();
        let receivers = self.word(self.prefix() + 1, number);
        words(receivers);
        receivers != 0
    }

    /// The processes of the prefix that receive event `number` of process `q`, a bit for each. A process that isn't
    /// there sends nothing.
    pub(crate) fn receivers(&self, q: usize, number: u64) -> u64
        requires { number ≤ event_count self.now q }
        ensures { AreReceivers self.now (length self.now - 2) (place q number) result }
    {
        self.limits();
        if q >= self.prefix() + 2 {
            return 0;
        }
        self.word(q, number)
    }
}
