//! How many workers share the work on a session.
ghost use Rattle.def_format.specs.Limits.{worker_limit};
ghost use Rattle.std.specs.Prelude.{◌≡◌, ◌≤◌, IfSome, None};

use def_format::WORKER_LIMIT;

/// A number of workers, from 1 to 16.
#[derive(Drop)]
pub struct Workers {
    number: u64,
    ghost some: { 1 ≤ number },
    ghost few: { number ≤ worker_limit },
}

impl Workers {
    ghost use Rattle.app_arguments.specs.Arguments.{IsWorkers};

    /// One worker.
    pub fn one() -> Workers
        ensures { result.number ≡ 1 }
    {
        Workers { number: 1 }
    }

    /// This many workers, unless there are none or over 16.
    pub(crate) fn of(number: u64) -> Option<Workers>
        ensures same { IfSome result (λ workers. workers.number ≡ number) }
        ensures in_range { IfSome result (λ workers. IsWorkers workers.number) }
        ensures none { result ≡ None → ¬ IsWorkers number }
    {
        if number < 1 || number > WORKER_LIMIT {
            return None;
        }
        Some(Workers { number })
    }

    /// How many there are.
    pub fn count(&self) -> u64
        ensures same { result ≡ self.now.number }
        ensures some { 1 ≤ result }
        ensures few { result ≤ worker_limit }
    {
        self.number
    }
}
