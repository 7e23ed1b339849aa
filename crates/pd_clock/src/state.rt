//! The values at a cut.
ghost use Rattle.pd_clock.specs.States.{IsLookedUp, value_at, value_in};
ghost use Rattle.std.specs.Prelude.{◌≡◌, ◌+◌, ◌*◌, ◌≤◌, length};

use def_model::Values;
use read_traces::Numbers;

/// The state at a cut: each variable has the value last set by an event of its process in the cut, else its initial
/// one. The value of a variable that isn't there is 0.
#[derive(Clone, Copy)]
pub struct State<'a> {
    initial: &'a [Vec<i64>],
    histories: &'a [Numbers],
    counts: &'a [u64],
    ghost sound: { IsLookedUp initial.now histories.now counts.now },
}

impl<'a> State<'a> {
    pub(crate) fn new(
        initial: &'a [Vec<i64>],
        histories: &'a [Numbers],
        counts: &'a [u64],
    ) -> State<'a>
        requires { IsLookedUp initial.now histories.now counts.now }
        ensures initial { result.initial.now ≡ initial.now }
        ensures histories { result.histories.now ≡ histories.now }
        ensures counts { result.counts.now ≡ counts.now }
    {
        State {
            initial,
            histories,
            counts,
        }
    }
}

impl Values for State<'_> {
    ghost state = { λ s. value_at s.initial.now s.histories.now s.counts.now };

    fn value(&self, process: usize, var: usize) -> i64 {
        if process >= self.initial.len() {
            return 0;
        }
        value_in_history(
            &self.initial[process],
            &self.histories[process],
            self.counts[process],
            var,
        )
    }
}

/// The value of variable `var`, counted from 0, after the first `count` events of a process: what stands in its
/// history, whose first row is `start`. It is 0 where there is no such variable.
pub(crate) fn value_in_history(start: &[i64], history: &Numbers, count: u64, var: usize) -> i64
    requires { count * length start.now + length start.now ≤ length history.now }
    ensures { result ≡ value_in start.now history.now count var }
{
    let vars = start.len();
    // A proof knows by this call that the sum below has room.
    let _count = history.len();
    if var >= vars {
        return 0;
    }
    history.get(count as usize * vars + var)
}
