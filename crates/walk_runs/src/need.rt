//! What an event needs before a cut can have it.
ghost use Rattle.def_format.specs.Limits.{event_limit, process_limit};
ghost use Rattle.def_model.specs.Events.{event_count};
ghost use Rattle.walk_runs.specs.Needs.{IsNeed};
ghost use Rattle.std.specs.Prelude.{◌<◌, ◌≤◌, ℕ, length};

use pd_clock::{Computation, Place};

/// More events than a process has.
const NEVER: u16 = 65_535;

/// What an event needs of a cut: the first `number` events of process `process`. A receipt needs its send, another
/// event nothing, and after the last event stands a need that no cut meets.
#[derive(Clone, Copy)]
pub(crate) struct Need {
    pub(crate) process: u16,
    pub(crate) number: u16,
}

/// The need of the event that comes after the first `count` ones of process `p`.
pub(crate) fn need_after(computation: &Computation<'_>, p: usize, count: u64) -> Need
    requires few { length computation.now.events ≤ process_limit }
    requires short { (q : ℕ) → event_count computation.now.events q ≤ event_limit }
    requires within { p < length computation.now.events }
    requires counted { count ≤ event_limit }
    ensures { IsNeed computation.now.events p count result.process result.number }
{
    if count >= computation.events(p) {
        return Need {
            process: p as u16,
            number: NEVER,
        };
    }
    let next = Place {
        process: p,
        number: count + 1,
    };
    match computation.sender(next) {
        Some(send) => Need {
            process: send.process as u16,
            number: send.number as u16,
        },
        None => Need {
            process: p as u16,
            number: 0,
        },
    }
}
