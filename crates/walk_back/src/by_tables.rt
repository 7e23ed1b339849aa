//! The avoiding cuts of the next level, by the tables of a compiled predicate.
ghost use Rattle.walk_back.specs.CompiledTests.{events_of, meaning_of};
ghost use Rattle.walk_back.specs.Questions.{IsCompiledFor, question_events, question_test};
ghost use Rattle.walk_back.specs.Ways.{IsAvoidingLevel};
ghost use Rattle.def_model.specs.Cuts.{IsConsistent};
ghost use Rattle.std.specs.Prelude.{◌≡◌, ◌+◌, ◌<◌, ◌≤◌, All, IfOk, IfSome, length, map, slice_get};

use super::avoiding::{next_avoiding, next_of_any};
use super::question::Question;
use pd_expand::Crew;
use pd_level::{Gate, Level};
use rayon::prelude::*;
use std::alloc::{AllocError, Global};
use std::sync::Wait;
use std::thread::Threads;
use walk_tables::Compiled;

/// The avoiding cuts of the next level, from those of a level. If the predicate is compiled its tables are asked, and
/// else it is evaluated as its text spells it.
///
/// # Errors
/// An allocation was refused, or there might be more cuts than a `u64` counts.
pub(crate) fn next_listed<T: Threads + Wait + Sync, G: Gate + Sync>(
    question: &Question<'_, '_, '_, '_, '_, T, G>,
    compiled: Option<&Compiled<'_, '_>>,
    level: &Level,
) -> Result<Level, AllocError>
    requires compiled { IsCompiledFor question.now compiled }
    requires list { IsAvoidingLevel (question_events question.now) (question_test question.now) level.now }
    requires low { level.now.number < 18446744073709551615 }
    ensures list { IfOk result (IsAvoidingLevel (question_events question.now) (question_test question.now)) }
    ensures number { IfOk result (λ next. next.number ≡ level.now.number + 1) }
{
    // the laws that the proof uses
    def_model::avoiding_levels();
    let crew = question.crew;
    let alloc = question.alloc;
    let Some(test) = compiled else {
        return next_avoiding(crew, alloc, question.computation, question.pred, level);
    };
    let mut next = next_of_any(crew, alloc, question.computation, level)?;
    let marks = table_marks(crew, alloc, test, &next)?;
    next.keep(&marks, false);
    Ok(next)
}

/// Of each cut of the level whether the predicate is true there. If the level has enough cuts it is shared.
fn table_marks<T: Threads + Wait + Sync, G: Gate + Sync>(
    crew: &Crew<'_, '_, T, G>,
    alloc: Global,
    test: &Compiled<'_, '_>,
    level: &Level,
) -> Result<Vec<bool>, AllocError>
    requires two { 2 ≤ length (events_of test.now) }
    requires cuts { All (IsConsistent (events_of test.now)) level.now.cuts }
    ensures { IfOk result (λ marks. marks.items ≡ map (meaning_of test.now) level.now.cuts) }
{
    if crew.shares(level.len()) {
        return marks_shared(crew.runtime(), alloc, test, level);
    }
    marks_in_turn(alloc, test, level)
}

/// The same, by as many threads as there are processors.
fn marks_shared<T: Threads + Sync>(
    rt: &T,
    alloc: Global,
    test: &Compiled<'_, '_>,
    level: &Level,
) -> Result<Vec<bool>, AllocError>
    requires two { 2 ≤ length (events_of test.now) }
    requires cuts { All (IsConsistent (events_of test.now)) level.now.cuts }
    ensures { IfOk result (λ marks. marks.items ≡ map (meaning_of test.now) level.now.cuts) }
{
    (0..level.len())
        .into_par_iter()
        .map(
            |i: usize| -> bool
                requires { (i < length level.now.cuts) × (2 ≤ length (events_of test.now))
                    × All (IsConsistent (events_of test.now)) level.now.cuts }
                ensures { IfSome (slice_get level.entry.now.cuts i) (λ cut. result
                    ≡ meaning_of test.entry.now cut) }
            { holds_there(alloc, test, level, i) },
        )
        .collect(rt, alloc)
}

/// The same, one cut after the other.
fn marks_in_turn(
    alloc: Global,
    test: &Compiled<'_, '_>,
    level: &Level,
) -> Result<Vec<bool>, AllocError>
    requires two { 2 ≤ length (events_of test.now) }
    requires cuts { All (IsConsistent (events_of test.now)) level.now.cuts }
    ensures { IfOk result (λ marks. marks.items ≡ map (meaning_of test.now) level.now.cuts) }
{
    let mut marks = Vec::with_capacity(alloc, level.len())?;
    for i in 0..level.len() {
        marks.push(holds_there(alloc, test, level, i))?;
    }
    Ok(marks)
}

/// Whether the predicate is true at the cut with this index. It takes no memory.
fn holds_there(alloc: Global, test: &Compiled<'_, '_>, level: &Level, i: usize) -> bool
    requires within { i < length level.now.cuts }
    requires two { 2 ≤ length (events_of test.now) }
    requires cuts { All (IsConsistent (events_of test.now)) level.now.cuts }
    ensures { IfSome (slice_get level.now.cuts i) (λ cut. result ≡ meaning_of test.now cut) }
{
    let cut = level.cut(alloc, i);
    test.holds(cut.counts())
}
