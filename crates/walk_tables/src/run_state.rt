//! The state at a cut of a run.
ghost use Rattle.def_model.specs.Cuts.{FitsProcesses};
ghost use Rattle.def_model.specs.Predicates.{state_at};
ghost use Rattle.walk_keys.specs.Neighbors.{cut_at};
ghost use Rattle.std.specs.Prelude.{◌≡◌, slice_index};

use pd_clock::Computation;
use pd_pred::Values;

/// The state at the cut with these counts of the first processes, and `x` and `y` of the last two. Its values are
/// looked up with no copy of the counts.
#[derive(Clone, Copy)]
pub(crate) struct RunState<'a, 'b, 'c> {
    computation: &'a Computation<'b>,
    prefix: &'c [u64],
    x: u64,
    y: u64,
    ghost fits: { FitsProcesses computation.now.events (cut_at prefix.now x y) },
}

impl<'a, 'b, 'c> RunState<'a, 'b, 'c> {
    pub(crate) fn new(
        computation: &'a Computation<'b>,
        prefix: &'c [u64],
        x: u64,
        y: u64,
    ) -> RunState<'a, 'b, 'c>
        requires { FitsProcesses computation.now.events (cut_at prefix.now x y) }
        ensures computation { result.computation.now ≡ computation.now }
        ensures prefix { result.prefix.now ≡ prefix.now }
        ensures x { result.x ≡ x }
        ensures y { result.y ≡ y }
    {
        RunState {
            computation,
            prefix,
            x,
            y,
        }
    }
}

/// The count of a process in the cut, and 0 if there is none.
fn count_in(prefix: &[u64], x: u64, y: u64, process: usize) -> u64
    ensures { result ≡ slice_index (cut_at prefix.now x y) process }
{
    if process < prefix.len() {
        return prefix[process];
    }
    match process - prefix.len() {
        0 => x,
        1 => y,
        _ => 0,
    }
}

impl Values for RunState<'_, '_, '_> {
    ghost state = { λ s. state_at s.computation.now.initial s.computation.now.events (cut_at s.prefix.now s.x s.y) };

    fn value(&self, process: usize, var: usize) -> i64 {
        let count = count_in(self.prefix, self.x, self.y, process);
        self.computation.value(process, count, var)
    }
}
