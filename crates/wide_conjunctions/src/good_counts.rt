//! Which counts of each process are good.
ghost use Rattle.def_format.specs.Limits.{event_limit};
ghost use Rattle.wide_conjunctions.specs.Raises.{HasNoNext, IsNextGood};
ghost use Rattle.std.specs.Prelude.{◌≡◌, ◌≤◌, ℕ, Bool, IfNone, IfSome};

/// Which counts of each process are good.
pub trait GoodCounts {
    /// Whether a process, counted from 0, is good after this many of its events.
    ghost good: { Self → ℕ → ℕ → Bool };

    /// Whether process `process`, counted from 0, is good after its first `count` events.
    fn is_good(&self, process: usize, count: u64) -> bool
        ensures { result ≡ good self.now process count };

    /// The least good count of process `process` from this one on, up to the last.
    fn next_good(&self, process: usize, from: u64, last: u64) -> Option<u64>
        requires { last ≤ event_limit }
        ensures some { IfSome result (IsNextGood (good self.now process) from) }
        ensures within { IfSome result (λ count. count ≤ last) }
        ensures none { IfNone result (HasNoNext (good self.now process) from last) }
    {
        for count in from..last + 1 {
            if self.is_good(process, count) {
                return Some(count);
            }
        }
        None
    }
}
