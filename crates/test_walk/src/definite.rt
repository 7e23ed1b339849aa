//! Answers for Definitely, and what is found of their paths, again after a refusal: `definitely_counted` and
//! `check_path`.
use crate::asked::{Question, is_right};
use pd_clock::Computation;
use pd_definitely::{DefinitelyAnswer, definitely_counted};
use pd_evidence::check_path;
use pd_level::NoGate;
use pd_pred::Pred;
use pd_spec::Spec;
use std::alloc::Global;
use std::sync::Wait;
use std::test::Fail;
use std::thread::Threads;
use test_samples::{THREE, THREE_STREAMS};

/// For each predicate the level that its answer names, or none if an observation avoids it.
const LEVELS: [Option<u64>; 7] = [None, Some(0), Some(15), None, None, Some(29), Some(30)];

/// The answer for Definitely, which is asked for again if memory is refused.
fn counted<T: Threads + Wait + Sync>(
    rt: &T,
    alloc: Global,
    computation: &Computation<'_>,
    pred: &Pred,
    again: &mut bool,
) -> Option<DefinitelyAnswer> {
    if let Ok((answer, _)) = definitely_counted(rt, alloc, computation, pred, 91, 2, &NoGate) {
        return Some(answer);
    }
    *again = true;
    match definitely_counted(rt, alloc, computation, pred, 91, 2, &NoGate) {
        Ok((answer, _)) => Some(answer),
        Err(_) => None,
    }
}

/// What is found of a path, which is looked at again if memory is refused.
fn is_good(
    alloc: Global,
    computation: &Computation<'_>,
    pred: &Pred,
    path: &[usize],
    again: &mut bool,
) -> Option<bool> {
    if let Ok(good) = check_path(alloc, computation, pred, path) {
        return Some(good);
    }
    *again = true;
    check_path(alloc, computation, pred, path).ok()
}

/// Whether the answer names this level, or if there is none, a path that is found good.
fn is_known(
    alloc: Global,
    computation: &Computation<'_>,
    pred: &Pred,
    answer: &DefinitelyAnswer,
    level: Option<u64>,
    again: &mut bool,
) -> bool {
    match answer {
        DefinitelyAnswer::Yes(found) => level == Some(*found),
        DefinitelyAnswer::No(path) => {
            level.is_none() && is_good(alloc, computation, pred, path, again) == Some(true)
        }
        DefinitelyAnswer::Unknown(_) => false,
    }
}

/// Whether each predicate has its answer.
pub(crate) fn are_answers<T: Threads + Wait + Sync>(
    rt: &T,
    alloc: Global,
    computation: &Computation<'_>,
    spec: &Spec,
    again: &mut bool,
) -> Option<bool> {
    let named = spec.predicates();
    let mut right = named.len() == LEVELS.len();
    for at in 0..named.len() {
        let pred = &named[at].pred;
        let Some(answer) = counted(rt, alloc, computation, pred, again) else {
            return Some(false);
        };
        let Some(level) = LEVELS.get(at) else {
            return Some(false);
        };
        right = right && is_known(alloc, computation, pred, &answer, *level, again);
    }
    Some(right)
}

#[test]
fn answers_come_again(rt: HostRuntime) -> Result<(), Fail> {
    let alloc = rt.alloc();
    let mut again = false;
    let mut right = None;
    for _ in 0..2 {
        if right.is_none() {
            right = is_right(
                &rt,
                alloc,
                THREE,
                &THREE_STREAMS,
                Question::Definite,
                &mut again,
            );
        }
    }
    assert!(rt; right == Some(true));
    if again {
        println!(rt; "a call was made again")?;
    }
    Ok(())
}
