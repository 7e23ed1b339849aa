//! When a gate is passed: before its block is expanded.
ghost use Rattle.def_model.specs.Cuts.{IsConsistent};
ghost use Rattle.std.specs.Prelude.{All, IfOk};

use crate::asked::{Question, is_right_with_memory};
use crate::levels::level_after;
use pd_clock::Computation;
use pd_expand::next_level;
use pd_level::{Gate, Level, NoGate};
use std::alloc::{AllocError, Global};
use std::sync::Wait;
use std::sync::atomic::{AtomicU64, Ordering};
use std::thread::Threads;
use std::time::Clock;
use test_samples::{THREE, THREE_STREAMS};

/// How many levels there are before one of two blocks, of which the first has more cuts.
const LEVELS: u64 = 15;

/// How often that level is expanded: some of the times are those of a thread that nothing holds up.
const TURNS: u64 = 200;

/// The time of the clock in nanoseconds; 0 if it can't be read.
fn nanos<R: Clock>(rt: &R) -> u64 {
    match rt.monotonic() {
        Ok(time) => time
            .as_secs()
            .saturating_mul(1_000_000_000)
            .saturating_add(time.subsec_nanos() as u64),
        Err(_) => 0,
    }
}

/// A gate that notes when each of two blocks passes.
#[derive(Drop)]
struct Timed<'a, T> {
    rt: &'a T,
    first: AtomicU64,
    second: AtomicU64,
}

impl<'a, T: Clock> Gate for Timed<'a, T> {
    fn pass(&self, block: u64) {
        let now = nanos(self.rt);
        if block == 0 {
            self.first.store(now, Ordering::SeqCst);
        } else {
            self.second.store(now, Ordering::SeqCst);
        }
    }
}

/// The level of two blocks.
fn level_of_two(alloc: Global, computation: &Computation<'_>) -> Result<Level, AllocError>
    ensures { IfOk result (λ level. All (IsConsistent computation.now.events) level.cuts) }
{
    // the law that the proof uses
    def_model::levels();
    let mut level = Level::first(alloc, computation)?;
    for _ in 0..LEVELS {
        level = level_after(alloc, computation, &level)?;
    }
    Ok(level)
}

/// How many nanoseconds one worker takes to come to the gate, and from there to come to it once more: the least of
/// some turns.
fn least_times<T: Threads + Wait + Clock + Sync>(
    rt: &T,
    alloc: Global,
    computation: &Computation<'_>,
    level: &Level,
) -> Result<(u64, u64), AllocError>
    requires { All (IsConsistent computation.now.events) level.now.cuts }
{
    let (mut to_first, mut to_second) = (u64::MAX, u64::MAX);
    for _ in 0..TURNS {
        let gate = Timed {
            rt,
            first: AtomicU64::new(0),
            second: AtomicU64::new(0),
        };
        let start = nanos(rt);
        if next_level(rt, alloc, computation, level, 91, 1, &gate).is_err() {
            return Err(AllocError);
        }
        let first = gate.first.load(Ordering::SeqCst);
        to_first = to_first.min(first.saturating_sub(start));
        to_second = to_second.min(gate.second.load(Ordering::SeqCst).saturating_sub(first));
    }
    Ok((to_first, to_second))
}

/// Whether a worker comes to the gate of the first block in less time than the block takes: else it would have expanded
/// it by then.
pub(crate) fn is_passed_first<T: Threads + Wait + Clock + Sync>(
    rt: &T,
    alloc: Global,
    computation: &Computation<'_>,
) -> Result<bool, AllocError> {
    let level = level_of_two(alloc, computation)?;
    let (to_first, to_second) = least_times(rt, alloc, computation, &level)?;
    Ok(to_first < to_second)
}

#[test]
fn a_gate_is_passed_before_its_block_is_expanded(rt: HostRuntime) {
    let alloc = rt.alloc();
    assert!(rt; is_right_with_memory(&rt, &NoGate, alloc, THREE, &THREE_STREAMS, Question::Gates));
}
