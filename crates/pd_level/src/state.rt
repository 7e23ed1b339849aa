//! The state at a cut that is a key.
ghost use Rattle.walk_keys.specs.Keys.{count_base, digits};
ghost use Rattle.def_model.specs.Cuts.{FitsProcesses};
ghost use Rattle.def_model.specs.Predicates.{state_at};
ghost use Rattle.std.specs.Prelude.{◌≡◌, ◌^◌, ◌<◌, ◌≤◌};

use pd_clock::Computation;
use pd_pred::Values;
use walk_keys::Key;

/// The state at the cut whose counts are the digits of a key. Its values are looked up with no copy of the counts.
#[derive(Drop)]
pub(crate) struct KeyState<'a, 'b, K: Key> {
    computation: &'a Computation<'b>,
    key: K,
    processes: usize,
    ghost few: { processes ≤ K.room },
    ghost below: { K.number key < count_base ^ processes },
    ghost fits: { FitsProcesses computation.now.events (digits processes (K.number key)) },
}

impl<'a, 'b, K: Key> KeyState<'a, 'b, K> {
    pub(crate) fn new(
        computation: &'a Computation<'b>,
        key: K,
        processes: usize,
    ) -> KeyState<'a, 'b, K>
        requires few { processes ≤ K.room }
        requires below { K.number key < count_base ^ processes }
        requires fits { FitsProcesses computation.now.events (digits processes (K.number key)) }
        ensures computation { result.computation.now ≡ computation.now }
        ensures key { K.number result.key ≡ K.number key }
        ensures processes { result.processes ≡ processes }
    {
        KeyState {
            computation,
            key,
            processes,
        }
    }
}

impl<K: Key> Values for KeyState<'_, '_, K> {
    ghost state = { λ s. state_at s.computation.now.initial s.computation.now.events
        (digits s.processes (K.number s.key)) };

    fn value(&self, process: usize, var: usize) -> i64 {
        let count = if process < self.processes {
            self.key.digit(self.processes, process)
        } else {
            0
        };
        self.computation.value(process, count, var)
    }
}
