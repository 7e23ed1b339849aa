//! Runs that are skipped: some are, for each predicate. No answer shows it.
ghost use Rattle.walk_keys.specs.Pairs.{single_limit};
ghost use Rattle.walk_marks.specs.SkippedRuns.{AreSkipped};
ghost use Rattle.walk_runs.specs.Levels.{IsWholeLevel};
ghost use Rattle.std.specs.Prelude.{◌<◌, ◌≤◌, IfOk, length};

use crate::asked::{Question, is_right};
use pd_clock::Computation;
use pd_spec::Spec;
use std::alloc::{AllocError, Global};
use std::thread::Threads;
use test_samples::{A, B, C, D};
use walk_keys::SINGLE_LIMIT;
use walk_marks::{SkippedRuns, Skips};
use walk_runs::{Steps, Whole};
use walk_tables::Compiled;

/// `cases/walks.toml` has the same session, with the answers.
const DOCUMENT: &str = r#"{
  "processes": [
    {"name": "a", "vars": {"n": 0}},
    {"name": "b", "vars": {"n": 0}},
    {"name": "c", "vars": {"n": 0}},
    {"name": "d", "vars": {"n": 0}}
  ],
  "predicates": [
    {"name": "local", "text": "b.n == 2 and c.n >= 1"},
    {"name": "joined", "text": "a.n + b.n > 2 and c.n + d.n == 3"},
    {"name": "either", "text": "a.n - b.n == 3 or a.n + d.n > 5 and b.n + c.n > 3"}
  ]
}"#;

/// Four processes, of which one sends to each of two others.
const STREAMS: [[&str; 2]; 4] = [
    [
        A,
        "{\"set\":{\"n\":1}}\n{\"recv\":\"u\",\"set\":{\"n\":3}}\n{\"set\":{\"n\":0}}\n{\"end\":true}\n",
    ],
    [
        B,
        "{\"set\":{\"n\":1}}\n{\"recv\":\"v\"}\n{\"set\":{\"n\":2}}\n{\"set\":{\"n\":1}}\n{\"end\":true}\n",
    ],
    [
        C,
        "{\"send\":\"u\"}\n{\"set\":{\"n\":1}}\n{\"send\":\"v\"}\n{\"set\":{\"n\":3}}\n{\"end\":true}\n",
    ],
    [
        D,
        "{\"set\":{\"n\":2}}\n{\"set\":{\"n\":3}}\n{\"set\":{\"n\":0}}\n{\"end\":true}\n",
    ],
];

/// The runs that the predicate with this index needn't be evaluated at.
fn skips_of<'r>(
    _test: &Compiled<'_, '_>,
    _tests: &[Compiled<'_, '_>],
    q: usize,
    _level: &Whole<u128>,
    skipped: &'r SkippedRuns,
) -> Skips<'r>
    requires within { q < length _tests.now }
    requires skipped { AreSkipped _tests.now _level.now skipped.now }
    ensures { result.bit < 64 }
{
    skipped.of(q)
}

/// Whether a run is skipped.
fn is_any_skipped(level: &Whole<u128>, skips: Skips<'_>) -> bool
    requires { skips.bit < 64 }
{
    for i in 0..level.len() {
        if skips.has(i) {
            return true;
        }
    }
    false
}

/// The predicates, compiled for the computation.
fn compiled<'a, 'b>(
    alloc: Global,
    computation: &'a Computation<'b>,
    spec: &'a Spec,
) -> Result<Vec<Compiled<'a, 'b>>, AllocError>
    requires { 2 ≤ length computation.now.events }
{
    let mut tests = Vec::new(alloc);
    let mut room = 1_000_000;
    for named in spec.predicates() {
        tests.push(Compiled::compile(alloc, computation, &named.pred, &mut room)?)?;
    }
    Ok(tests)
}

/// The level after this one, if this one's number is small.
fn level_after(
    alloc: Global,
    steps: &Steps<'_, '_>,
    level: &Whole<u128>,
) -> Result<Whole<u128>, AllocError>
    requires { IsWholeLevel steps.now level.now }
    ensures { IfOk result (λ next. IsWholeLevel steps.now next) }
{
    if level.number() > 1_000 {
        return Err(AllocError);
    }
    Whole::next(alloc, steps, level)
}

/// At how many levels of a walk up the predicate with this index has a run that is skipped.
fn skipping_levels<T: Threads + Sync>(
    rt: &T,
    alloc: Global,
    steps: &Steps<'_, '_>,
    levels: u64,
    tests: &[Compiled<'_, '_>],
    q: usize,
) -> Result<u64, AllocError>
    requires within { q < length tests.now }
    requires few { length steps.now ≤ single_limit }
{
    let mut level = Whole::<u128>::first(alloc, steps)?;
    let mut skipped = SkippedRuns::first(alloc, tests, &level)?;
    let mut found: u64 = 0;
    for _ in 0..levels {
        let after = level_after(alloc, steps, &level)?;
        let asked = SkippedRuns::next(rt, 2, alloc, tests, &level, &skipped, &after)?;
        if is_any_skipped(&after, skips_of(&tests[q], tests, q, &after, &asked)) {
            found = found.saturating_add(1);
        }
        level = after;
        skipped = asked;
    }
    Ok(found)
}

/// Whether runs are skipped for each predicate.
pub(crate) fn are_skipped<T: Threads + Sync>(
    rt: &T,
    alloc: Global,
    computation: &Computation<'_>,
    spec: &Spec,
) -> Option<bool>
    requires { 2 ≤ length computation.now.events }
{
    if computation.processes() > SINGLE_LIMIT {
        return Some(false);
    }
    let Ok(tests) = compiled(alloc, computation, spec) else {
        return None;
    };
    let Ok(steps) = Steps::of(alloc, computation) else {
        return None;
    };
    for q in 0..tests.len() {
        match skipping_levels(rt, alloc, &steps, computation.total(), &tests, q) {
            Ok(0) => return Some(false),
            Ok(_) => {}
            Err(_) => return None,
        }
    }
    Some(tests.len() == 3)
}

#[test]
fn runs_are_skipped(rt: HostRuntime) {
    let right = is_right(
        &rt,
        rt.alloc(),
        DOCUMENT,
        &STREAMS,
        Question::Skips,
        &mut false,
    );
    assert!(rt; right == Some(true));
}
