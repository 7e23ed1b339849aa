//! Whether one more event leaves a cut.
ghost use Rattle.walk_keys.specs.Keys.{count_base, digits};
ghost use Rattle.def_model.specs.Cuts.{IsConsistent, one_more};
ghost use Rattle.std.specs.Prelude.{◌^◌, ◌<◌, ◌≤◌, ◌↔◌, IsTrue, length};

use pd_clock::{Computation, Place};
use walk_keys::Key;

/// Whether one more event of process `p` leaves a cut: if there is one, and it is no receipt or its send is in the cut.
pub(crate) fn can_add<K: Key>(computation: &Computation<'_>, key: K, p: usize) -> bool
    requires few { length computation.now.events ≤ K.room }
    requires within { p < length computation.now.events }
    requires below { K.number key < count_base ^ length computation.now.events }
    requires cut { IsConsistent computation.now.events
        (digits (length computation.now.events) (K.number key)) }
    ensures { IsTrue result ↔ IsConsistent computation.now.events
        (one_more (digits (length computation.now.events) (K.number key)) p) }
{
    computation.limits();
    let processes = computation.processes();
    let count = key.digit(processes, p);
    if count >= computation.events(p) {
        return false;
    }
    let next = Place {
        process: p,
        number: count + 1,
    };
    match computation.sender(next) {
        Some(send) => send.number <= key.digit(processes, send.process),
        None => true,
    }
}
