//! How many levels are held at once for a predicate, exactly: those that are kept, one in each gap, the two whole ones
//! or lists at which the walk stands, and those that are made again on the way back.
use crate::asked::{Question, is_right};
use pd_clock::Computation;
use pd_definitely::definitely_counted;
use pd_expand::Crew;
use pd_level::NoGate;
use pd_pred::Pred;
use pd_spec::Spec;
use std::alloc::{AllocError, Global};
use std::sync::Wait;
use std::thread::Threads;
use test_samples::{THREE, THREE_STREAMS};
use walk::answer_within;

/// The bound on how many cuts a level may have, which none of these levels has.
const WIDTH: u64 = 10_000;

/// For each predicate of `THREE`, whose levels are kept 6 apart, how many levels are held if the walk goes up the whole
/// levels, and if it goes on by lists as soon as Possibly is answered. For the fourth one levels 4, 10, 16, 22 and 28
/// are kept, with two whole levels, or with the last whole one and two lists.
const THREE_HELD: [[u64; 2]; 7] = [[2, 2], [1, 1], [2, 2], [7, 8], [6, 7], [4, 5], [2, 2]];

/// Sixteen processes with an event each. The predicate holds at the cuts of level 6 without the event of `a`, so the
/// levels above it have many cuts without it that are no avoiding ones: the way back gives up its search between levels
/// 16 and 11.
const WALL: &str = r#"{
  "processes":[
    {"name":"a","vars":{"n":0}},{"name":"b","vars":{"n":0}},{"name":"c","vars":{"n":0}},{"name":"d","vars":{"n":0}},
    {"name":"e","vars":{"n":0}},{"name":"f","vars":{"n":0}},{"name":"g","vars":{"n":0}},{"name":"h","vars":{"n":0}},
    {"name":"i","vars":{"n":0}},{"name":"j","vars":{"n":0}},{"name":"k","vars":{"n":0}},{"name":"l","vars":{"n":0}},
    {"name":"m","vars":{"n":0}},{"name":"n","vars":{"n":0}},{"name":"o","vars":{"n":0}},{"name":"p","vars":{"n":0}}],
  "predicates":[
    {"name":"wall",
     "text":"a.n == 0 and b.n + c.n + d.n + e.n + f.n + g.n + h.n + i.n + j.n + k.n + l.n + m.n + n.n + o.n + p.n == 6"}
  ]
}"#;

/// A process with one event.
const ONE: &str = r#"{"set":{"n":1}}
{"end":true}
"#;

/// The streams of these sixteen processes.
const WALL_STREAMS: [[&str; 2]; 16] = [
    ["{\"process\":\"a\"}\n", ONE],
    ["{\"process\":\"b\"}\n", ONE],
    ["{\"process\":\"c\"}\n", ONE],
    ["{\"process\":\"d\"}\n", ONE],
    ["{\"process\":\"e\"}\n", ONE],
    ["{\"process\":\"f\"}\n", ONE],
    ["{\"process\":\"g\"}\n", ONE],
    ["{\"process\":\"h\"}\n", ONE],
    ["{\"process\":\"i\"}\n", ONE],
    ["{\"process\":\"j\"}\n", ONE],
    ["{\"process\":\"k\"}\n", ONE],
    ["{\"process\":\"l\"}\n", ONE],
    ["{\"process\":\"m\"}\n", ONE],
    ["{\"process\":\"n\"}\n", ONE],
    ["{\"process\":\"o\"}\n", ONE],
    ["{\"process\":\"p\"}\n", ONE],
];

/// The same for its predicate. Of levels 6, 11 and 16, which are kept, the last one is let go of before levels 12 to 15
/// are made again, with the last whole level beside them.
const WALL_HELD: [[u64; 2]; 1] = [[7, 7]];

/// How many levels are held at once for the predicate, if the walk goes up the whole levels, and if it goes on by lists
/// as soon as Possibly is answered.
fn held_of<T: Threads + Wait + Sync>(
    rt: &T,
    alloc: Global,
    computation: &Computation<'_>,
    pred: &Pred,
) -> Result<[u64; 2], AllocError> {
    let (_, whole) = definitely_counted(rt, alloc, computation, pred, WIDTH, 1, &NoGate)?;
    let crew = Crew::new(rt, 1, &NoGate);
    let mut answers = answer_within(&crew, alloc, computation, &[pred], WIDTH, 0)?;
    match answers.pop() {
        Some(answers) => Ok([whole.number(), answers.held().number()]),
        None => Err(AllocError),
    }
}

/// Whether so many levels are held at once for each predicate.
pub(crate) fn are_held<T: Threads + Wait + Sync>(
    rt: &T,
    alloc: Global,
    computation: &Computation<'_>,
    spec: &Spec,
    held: &[[u64; 2]],
) -> Result<bool, AllocError> {
    let named = spec.predicates();
    let mut right = named.len() == held.len();
    for at in 0..named.len() {
        let found = held_of(rt, alloc, computation, &named[at].pred)?;
        right = right && matches!(held.get(at), Some(known) if *known == found);
    }
    Ok(right)
}

#[test]
fn as_many_levels_are_held_as_are_known(rt: HostRuntime) {
    let three = Question::Held(&THREE_HELD);
    let right = is_right(&rt, rt.alloc(), THREE, &THREE_STREAMS, three, &mut false);
    assert!(rt; right == Some(true));
    let wall = Question::Held(&WALL_HELD);
    let right = is_right(&rt, rt.alloc(), WALL, &WALL_STREAMS, wall, &mut false);
    assert!(rt; right == Some(true));
}
