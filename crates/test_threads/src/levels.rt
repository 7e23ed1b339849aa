//! The next level by several workers, beside the one that a single thread finds: `next_level`, `Level` and `marks`.
ghost use Rattle.def_model.specs.Cuts.{IsConsistent};
ghost use Rattle.std.specs.Prelude.{All, IfOk};

use crate::asked::{Question, is_right, is_right_with_memory};
use pd_clock::Computation;
use pd_expand::{marks, next_level};
use pd_level::{Gate, Level, LevelFault, NoGate};
use pd_pred::Pred;
use std::alloc::{AllocError, Global};
use std::sync::Wait;
use std::sync::atomic::{AtomicBool, Ordering};
use std::test::Fail;
use std::thread;
use std::thread::Threads;
use test_samples::{THREE, THREE_STREAMS};

/// The number of cuts of each level. Those from level 12 to 18 have two blocks.
const LENGTHS: [usize; 32] = [
    1, 3, 6, 10, 15, 21, 28, 36, 45, 55, 66, 75, 82, 87, 90, 91, 90, 87, 82, 75, 66, 55, 45, 36,
    28, 21, 15, 10, 6, 3, 1, 0,
];

/// The greatest width at which each level has room, and one at which level 15 has none.
const WIDTHS: [u64; 2] = [91, 90];

/// How many cuts a block has.
const BLOCK: usize = 64;

/// How many turns block 0 waits for block 1.
const TURNS: u64 = 10_000_000;

/// A gate at which block 0 waits for block 1.
#[derive(Drop)]
struct Meeting {
    /// Whether block 1 has passed.
    passed: AtomicBool,
    /// Whether block 0 has waited in vain.
    ran_out: AtomicBool,
}

impl Gate for Meeting {
    fn pass(&self, block: u64) {
        if block != 0 {
            self.passed.store(true, Ordering::SeqCst);
            return;
        }
        for _ in 0..TURNS {
            if self.passed.load(Ordering::SeqCst) {
                return;
            }
            thread::yield_now();
        }
        self.ran_out.store(true, Ordering::SeqCst);
    }
}

/// Whether these are the same cuts in the same order.
fn are_same_cuts(alloc: Global, one: &Level, other: &Level) -> bool {
    if one.len() != other.len() || one.number() != other.number() {
        return false;
    }
    for i in 0..one.len() {
        if i >= other.len() {
            return false;
        }
        let first = one.cut(alloc, i);
        let second = other.cut(alloc, i);
        if first.counts() != second.counts() {
            return false;
        }
    }
    true
}

/// The next level by this many workers. They pass the gate if the level has two blocks.
fn shared<T: Threads + Wait + Sync, G: Gate + Sync>(
    rt: &T,
    alloc: Global,
    computation: &Computation<'_>,
    level: &Level,
    width: u64,
    workers: u64,
    gate: &G,
) -> Result<Level, LevelFault>
    requires { All (IsConsistent computation.now.events) level.now.cuts }
{
    if workers < 1 {
        return Err(LevelFault::Memory);
    }
    if workers > 16 {
        return Err(LevelFault::Memory);
    }
    if width < 1 {
        return Err(LevelFault::Memory);
    }
    if level.len() <= BLOCK {
        return next_level(rt, alloc, computation, level, width, workers, &NoGate);
    }
    next_level(rt, alloc, computation, level, width, workers, gate)
}

/// Whether this many workers give what a single thread gives. They are asked again if memory is refused.
fn is_next<T: Threads + Wait + Sync, G: Gate + Sync>(
    rt: &T,
    alloc: Global,
    computation: &Computation<'_>,
    level: &Level,
    alone: &Result<Level, LevelFault>,
    width: u64,
    workers: u64,
    gate: &G,
    again: &mut bool,
) -> bool
    requires { All (IsConsistent computation.now.events) level.now.cuts }
{
    let mut given = shared(rt, alloc, computation, level, width, workers, gate);
    if matches!(&given, Err(LevelFault::Memory)) {
        *again = true;
        given = shared(rt, alloc, computation, level, width, workers, gate);
    }
    match (alone, &given) {
        (Ok(one), Ok(other)) => are_same_cuts(alloc, one, other),
        (Err(LevelFault::Wide), Err(LevelFault::Wide)) => level.number() == 14 && width == 90,
        _ => false,
    }
}

/// Whether each number of workers gives what a single thread gives, at each width.
fn are_next<T: Threads + Wait + Sync, G: Gate + Sync>(
    rt: &T,
    alloc: Global,
    computation: &Computation<'_>,
    level: &Level,
    workers: &[u64],
    gate: &G,
    again: &mut bool,
) -> Result<bool, AllocError>
    requires { All (IsConsistent computation.now.events) level.now.cuts }
{
    for width in WIDTHS {
        let alone = Level::next(alloc, computation, level, width);
        if matches!(&alone, Err(LevelFault::Memory)) {
            return Err(AllocError);
        }
        for &count in workers {
            if !is_next(
                rt,
                alloc,
                computation,
                level,
                &alone,
                width,
                count,
                gate,
                again,
            ) {
                return Ok(false);
            }
        }
    }
    Ok(true)
}

/// The next level, which has no more cuts than the width.
pub(crate) fn level_after(
    alloc: Global,
    computation: &Computation<'_>,
    level: &Level,
) -> Result<Level, AllocError>
    requires { All (IsConsistent computation.now.events) level.now.cuts }
    ensures { IfOk result (λ next. All (IsConsistent computation.now.events) next.cuts) }
{
    match Level::next(alloc, computation, level, 91) {
        Ok(next) => Ok(next),
        Err(_) => Err(AllocError),
    }
}

/// Whether the level's least and greatest cuts are right, if it is level 16.
fn has_ends(alloc: Global, level: &Level) -> bool {
    if level.number() != 16 {
        return true;
    }
    if level.len() != 90 {
        return false;
    }
    let least = level.cut(alloc, 0);
    let greatest = level.cut(alloc, 89);
    least.counts() == [0, 6, 10].as_slice() && greatest.counts() == [10, 6, 0].as_slice()
}

/// Whether the level's cuts are marked at which the predicate holds.
fn is_marked<T: Threads + Sync>(
    rt: &T,
    alloc: Global,
    computation: &Computation<'_>,
    pred: &Pred,
    level: &Level,
) -> Result<bool, AllocError>
    requires { All (IsConsistent computation.now.events) level.now.cuts }
{
    let found = marks(rt, alloc, computation, pred, level)?;
    for i in 0..level.len() {
        if found.get(i).copied() != Some(level.holds(computation, pred, i)) {
            return Ok(false);
        }
    }
    Ok(found.len() == level.len())
}

/// Whether each level has its number of cuts, each number of workers gives the next one, and the cuts at which the
/// predicate holds are marked.
pub(crate) fn are_levels<T: Threads + Wait + Sync, G: Gate + Sync>(
    rt: &T,
    alloc: Global,
    computation: &Computation<'_>,
    pred: &Pred,
    workers: &[u64],
    gate: &G,
    again: &mut bool,
) -> Result<bool, AllocError> {
    // the law that the proof uses
    def_model::levels();
    let mut level = Level::first(alloc, computation)?;
    for length in LENGTHS {
        if level.len() != length || level.is_empty() != (length == 0) || !has_ends(alloc, &level) {
            return Ok(false);
        }
        if !is_marked(rt, alloc, computation, pred, &level)? {
            return Ok(false);
        }
        if !are_next(rt, alloc, computation, &level, workers, gate, again)? {
            return Ok(false);
        }
        level = level_after(alloc, computation, &level)?;
    }
    Ok(true)
}

#[test]
fn levels_are_the_same_by_any_number_of_workers(rt: HostRuntime) {
    let alloc = rt.alloc();
    let question = Question::Levels(&[1, 2, 16]);
    assert!(rt; is_right_with_memory(&rt, &NoGate, alloc, THREE, &THREE_STREAMS, question));
}

/// A block is expanded while another one waits.
#[test]
fn two_workers_meet(rt: HostRuntime) {
    let alloc = rt.alloc();
    let gate = Meeting {
        passed: AtomicBool::new(false),
        ran_out: AtomicBool::new(false),
    };
    let question = Question::Levels(&[2]);
    assert!(rt; is_right_with_memory(&rt, &gate, alloc, THREE, &THREE_STREAMS, question));
    assert!(rt; gate.passed.load(Ordering::SeqCst));
    assert!(rt; !gate.ran_out.load(Ordering::SeqCst));
}

#[test]
fn levels_come_again(rt: HostRuntime) -> Result<(), Fail> {
    let alloc = rt.alloc();
    let mut again = false;
    let mut right = None;
    for _ in 0..2 {
        if right.is_none() {
            right = is_right(
                &rt,
                &rt,
                &NoGate,
                alloc,
                THREE,
                &THREE_STREAMS,
                Question::Levels(&[2]),
                &mut again,
            );
        }
    }
    assert!(rt; right == Some(true));
    if again {
        println!(rt; "a call was made again")?;
    }
    Ok(())
}
