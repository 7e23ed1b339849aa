//! What is kept of a process of any length, by its initial values and its events alone.
ghost use Rattle.def_model.specs.Events.{Event};
ghost use Rattle.judge_orders.specs.ProcessEvents.{AreKeptOfProcess, seen_in};
ghost use Rattle.pd_clock.specs.Histories.{AreVars, row_after};
ghost use Rattle.std.specs.Prelude.{◌≡◌, ◌≢◌, ◌++◌, All, IfOk, drop, false, length, pos, slice_index_or, true};

use pd_clock::apply_settings;
use read_traces::{Events, Settings};
use std::alloc::{AllocError, Global};

/// What is kept of a process.
#[derive(Drop)]
pub(crate) struct ProcessKept {
    /// The numbers of the kept events, counted from 1.
    pub(crate) numbers: Vec<u64>,
    /// What the variables that are seen are worth at the beginning, and after each kept event.
    pub(crate) values: Vec<i64>,
}

/// Whether two values differ.
#[inline(always)]
fn differ(first: i64, second: i64) -> bool
    ensures same { result ≡ false → first ≡ second }
    ensures differ { result ≡ true → first ≢ second }
{
    first != second
}

/// What a variable is worth by the row of its process; 0 if it isn't there.
#[inline(always)]
fn value_in(row: &[i64], var: usize) -> i64
    ensures { result ≡ slice_index_or row.now var (pos 0) }
{
    if var < row.len() { row[var] } else { 0 }
}

/// Whether the variables are worth what the last values say, which stand from this index on.
fn is_seen_so(row: &[i64], vars: &[usize], values: &[i64], last: usize) -> bool
    requires { length (drop last values.now) ≡ length vars.now }
    ensures same { result ≡ true → drop last values.now ≡ seen_in row.now vars.now }
    ensures differ { result ≡ false → drop last values.now ≢ seen_in row.now vars.now }
{
    for i in 0..vars.len() {
        if differ(values[last + i], value_in(row, vars[i])) {
            return false;
        }
    }
    true
}

/// Makes the settings, and says whether a variable that is seen is worth something else then than the last values say,
/// which stand from this index on.
fn changes_seen(
    row: &mut Vec<i64>,
    settings: &Settings<'_>,
    vars: &[usize],
    values: &[i64],
    last: usize,
) -> bool
    requires there { AreVars (length row.old.items) settings.now }
    requires seen { drop last values.now ≡ seen_in row.old.items vars.now }
    ensures row { row.new.items ≡ row_after row.old.items settings.now }
    ensures same { result ≡ false → drop last values.now ≡ seen_in row.new.items vars.now }
    ensures changes { result ≡ true → drop last values.now ≢ seen_in row.new.items vars.now }
{
    if settings.len() == 0 {
        return false;
    }
    apply_settings(row, settings);
    !is_seen_so(row, vars, values, last)
}

/// Adds what the variables are worth.
fn push_seen(row: &[i64], vars: &[usize], values: &mut Vec<i64>) -> Result<(), AllocError>
    ensures { IfOk result (λ _. values.new.items ≡ values.old.items ++ seen_in row.now vars.now) }
{
    for &var in vars {
        values.push(value_in(row, var))?;
    }
    Ok(())
}

/// The events of a process that set one of these variables to another value, and what these variables are worth at the
/// beginning and after each of these events. A variable that the process doesn't have is worth 0.
///
/// It takes time for the events and their settings, and for each event that sets something also for the variables. It
/// takes memory for the kept events alone, times the variables.
///
/// # Errors
/// An allocation was refused.
pub(crate) fn process_kept(
    alloc: Global,
    start: &[i64],
    events: &Events,
    vars: &[usize],
) -> Result<ProcessKept, AllocError>
    requires { All (λ (event : Event). AreVars (length start.now) event.sets) events.now }
    ensures { IfOk result (λ kept. AreKeptOfProcess start.now events.now vars.now kept.numbers.items
        kept.values.items) }
{
    let mut row = start.to_vec(alloc)?;
    let mut numbers = Vec::new(alloc);
    let mut values = Vec::new(alloc);
    let mut last = 0;
    push_seen(&row, vars, &mut values)?;
    for k in 0..events.len() {
        if changes_seen(&mut row, &events.settings(k), vars, &values, last) {
            last = values.len();
            push_seen(&row, vars, &mut values)?;
            numbers.push(k as u64 + 1)?;
        }
    }
    Ok(ProcessKept { numbers, values })
}
