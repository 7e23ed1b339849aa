//! The answers for each predicate, whatever the number of workers: several share a level that has enough cuts.
use crate::asked::{Question, is_right_with_memory};
use pd_clock::Computation;
use pd_expand::Crew;
use pd_level::{Gate, NoGate};
use pd_possibly::possibly;
use pd_pred::Pred;
use pd_spec::Spec;
use std::alloc::{AllocError, Global};
use std::sync::Wait;
use std::sync::atomic::{AtomicU64, Ordering};
use std::thread::Threads;
use test_samples::{SIX, SIX_STREAMS};
use walk::answer_within;
use walk_back::{Answers, DefinitelyAnswer, PossiblyAnswer};

/// The cut that is named for each predicate.
const CUTS: [[u64; 6]; 2] = [[1, 0, 0, 0, 0, 0], [0, 0, 0, 0, 2, 10]];

/// Counts the blocks that are expanded.
#[derive(Drop)]
struct Counted {
    blocks: AtomicU64,
}

impl Gate for Counted {
    fn pass(&self, _block: u64) {
        self.blocks.fetch_add(1, Ordering::SeqCst);
    }
}

/// Both answers for one predicate by this many workers. The walk goes on by lists once some cut satisfies.
fn answers_of<T: Threads + Wait + Sync, G: Gate + Sync>(
    rt: &T,
    alloc: Global,
    computation: &Computation<'_>,
    pred: &Pred,
    workers: u64,
    gate: &G,
) -> Result<Option<Answers>, AllocError> {
    if workers < 1 {
        return Ok(None);
    }
    if workers > 16 {
        return Ok(None);
    }
    let crew = Crew::new(rt, workers, gate);
    let mut answers = answer_within(&crew, alloc, computation, &[pred], 65_536, 0)?;
    Ok(answers.pop())
}

/// The answer for Possibly alone by this many workers. The walk goes by lists from the beginning.
fn possibly_of<T: Threads + Wait + Sync, G: Gate + Sync>(
    rt: &T,
    alloc: Global,
    computation: &Computation<'_>,
    pred: &Pred,
    workers: u64,
    gate: &G,
) -> Result<Option<PossiblyAnswer>, AllocError> {
    if workers < 1 {
        return Ok(None);
    }
    if workers > 16 {
        return Ok(None);
    }
    Ok(Some(possibly(rt, alloc, computation, pred, u64::MAX, workers, gate)?))
}

/// Whether the answer names this cut.
fn is_yes(answer: &PossiblyAnswer, counts: &[u64]) -> bool {
    match answer {
        PossiblyAnswer::Yes(cut) => cut.counts() == counts,
        _ => false,
    }
}

/// Whether this many workers give the known answers for the predicate, and expand blocks if they are several.
fn is_known<T: Threads + Wait + Sync>(
    rt: &T,
    alloc: Global,
    computation: &Computation<'_>,
    pred: &Pred,
    workers: u64,
    counts: &[u64],
) -> Result<bool, AllocError> {
    let gate = Counted {
        blocks: AtomicU64::new(0),
    };
    let Some(both) = answers_of(rt, alloc, computation, pred, workers, &gate)? else {
        return Ok(false);
    };
    let Some(alone) = possibly_of(rt, alloc, computation, pred, workers, &gate)? else {
        return Ok(false);
    };
    let expands = gate.blocks.load(Ordering::SeqCst) > 0;
    Ok(
        is_yes(both.possibly(), counts)
            && is_yes(&alone, counts)
            && matches!(both.definitely(), DefinitelyAnswer::Yes(12))
            && expands == (workers > 1),
    )
}

/// Whether each number of workers gives the known answers.
pub(crate) fn are_known<T: Threads + Wait + Sync>(
    rt: &T,
    alloc: Global,
    computation: &Computation<'_>,
    spec: &Spec,
    workers: &[u64],
) -> Option<bool> {
    let [listed, late] = spec.predicates() else {
        return Some(false);
    };
    for &count in workers {
        for (pred, counts) in [(&listed.pred, CUTS[0]), (&late.pred, CUTS[1])] {
            match is_known(rt, alloc, computation, pred, count, &counts) {
                Ok(true) => {}
                Ok(false) => return Some(false),
                Err(_) => return None,
            }
        }
    }
    Some(true)
}

#[test]
fn answers_are_the_same_by_any_number_of_workers(rt: HostRuntime) {
    let alloc = rt.alloc();
    let question = Question::Workers(&[1, 2, 3, 16]);
    assert!(rt; is_right_with_memory(&rt, &NoGate, alloc, SIX, &SIX_STREAMS, question));
}
