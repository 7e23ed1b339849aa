//! Whether an event sets a variable.
ghost use Rattle.judge_facts.specs.Settings.{is_set, is_set_in};
ghost use Rattle.std.specs.Prelude.{◌≡◌, ◌<◌, Some, length, option_map, slice_get};

use read_traces::{Events, Settings};

/// Whether these settings have one of variable `var`.
fn is_set_in(settings: &Settings<'_>, var: usize) -> bool
    ensures { result ≡ is_set_in var settings.now }
{
    for i in 0..settings.len() {
        if settings.get(i).0 == var {
            return true;
        }
    }
    false
}

/// Whether one of a process's events sets variable `var`, which is counted from 0 among those of the process.
pub fn is_set(events: &Events, var: usize) -> bool
    ensures { result ≡ is_set var events.now }
{
    for k in 0..events.len() {
        if is_set_in(&events.settings(k), var) {
            return true;
        }
    }
    false
}
