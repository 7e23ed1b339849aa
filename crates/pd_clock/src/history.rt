//! The values of one process's variables after each of its events.
ghost use Rattle.pd_clock.specs.Histories.{AreVars, row_after, rows_after};
ghost use Rattle.def_model.specs.Events.{Event};
ghost use Rattle.std.specs.Prelude.{◌≡◌, ◌++◌, ◌<◌, All, IfOk, length, slice_set};

use read_traces::{Events, Numbers, Settings};
use std::alloc::{AllocError, Global};

/// The row of values before the first event, and the row after each event, one after another.
pub(crate) fn history(alloc: Global, start: &[i64], events: &Events) -> Result<Numbers, AllocError>
    requires { All (λ (event : Event). AreVars (length start.now) event.sets) events.now }
    ensures { IfOk result (λ values. values ≡ start.now ++ rows_after start.now events.now) }
{
    let mut row = start.to_vec(alloc)?;
    let mut values = Numbers::new(alloc);
    values.reserve(start.len().saturating_mul(events.len().saturating_add(1)))?;
    values.extend(start)?;
    for k in 0..events.len() {
        apply_settings(&mut row, &events.settings(k));
        values.extend(&row)?;
    }
    Ok(values)
}

/// Makes the settings of an event, one after another, in the values of its process's variables.
///
/// It takes time for the settings.
pub fn apply_settings(row: &mut Vec<i64>, settings: &Settings<'_>)
    requires { AreVars (length row.old.items) settings.now }
    ensures { row.new.items ≡ row_after row.old.items settings.now }
{
    for i in 0..settings.len() {
        put(row, settings.get(i));
    }
}

/// Makes a setting.
fn put(row: &mut Vec<i64>, setting: (usize, i64))
    requires { setting.0 < length row.old.items }
    ensures { row.new.items ≡ slice_set row.old.items setting.0 setting.1 }
{
    let (var, value) = setting;
    row[var] = value;
}
