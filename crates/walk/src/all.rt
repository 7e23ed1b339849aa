//! The answers for all predicates.
ghost use Rattle.def_format.specs.Limits.{width_limit};
ghost use Rattle.walk_back.specs.Answers.{IsLeastRoot};
ghost use Rattle.def_model.specs.Cuts.{total};
ghost use Rattle.walk.specs.Stages.{AllAnswered};
ghost use Rattle.std.specs.Prelude.{◌+◌, ◌*◌, ◌<◌, ◌≤◌, ℕ, IfOk, length};

use super::finish::finish_all;
use super::setting::Setting;
use super::walk::walk_up;
use pd_clock::Computation;
use pd_expand::Crew;
use pd_level::{Gate, LevelKey};
use pd_pred::Pred;
use std::alloc::{AllocError, Global};
use std::sync::Wait;
use std::thread::Threads;
use walk_back::{Answers, Held, answers_by_lists, least_root};
use walk_keys::{Pair, SINGLE_LIMIT};
use walk_runs::Whole;

/// How many cuts a whole level may have, beside four times the width, before the walk goes on with the avoiding cuts
/// alone.
const WIDE_ENOUGH: u64 = 100_000;

/// Both answers for each predicate over a computation, in their order, by one walk up the levels. The width, from 1 to
/// its limit, bounds how many cuts a level may have for Possibly, and how many avoiding cuts for Definitely.
///
/// Source: Cooper and Marzullo, Consistent Detection of Global Predicates, 1991.
///
/// # Errors
/// An allocation was refused.
pub fn answer_all<T: Threads + Wait + Sync, G: Gate + Sync>(
    crew: &Crew<'_, '_, T, G>,
    alloc: Global,
    computation: &Computation<'_>,
    preds: &[&Pred],
    width: u64,
) -> Result<Vec<Answers>, AllocError>
    requires wide { 1 ≤ width }
    requires narrow { width ≤ width_limit }
    ensures right { IfOk result (λ answers. (most : ℕ) × AllAnswered computation.now preds.now width most
        answers.items) }
    // How many levels are held at once for a predicate.
    ensures few { IfOk result (λ answers. (s : ℕ) → IsLeastRoot s (total computation.now.events + 1)
        → AllAnswered computation.now preds.now width (2 * s + 2) answers.items) }
{
    let answers = answer_within(
        crew,
        alloc,
        computation,
        preds,
        width,
        4 * width + WIDE_ENOUGH,
    )?;
    Ok(answers)
}

/// The answers as `answer_all` gives them, where `limit` says how wide a whole level may be: once Possibly is answered
/// for each predicate, a whole level with more cuts ends the walk up the whole levels, and from there the avoiding cuts
/// alone are walked, for each predicate by itself. So the limit changes time and memory, and no answer.
///
/// # Errors
/// An allocation was refused.
pub fn answer_within<T: Threads + Wait + Sync, G: Gate + Sync>(
    crew: &Crew<'_, '_, T, G>,
    alloc: Global,
    computation: &Computation<'_>,
    preds: &[&Pred],
    width: u64,
    limit: u64,
) -> Result<Vec<Answers>, AllocError>
    requires wide { 1 ≤ width }
    requires narrow { width ≤ width_limit }
    ensures right { IfOk result (λ answers. (most : ℕ) × AllAnswered computation.now preds.now width most
        answers.items) }
    ensures few { IfOk result (λ answers. (s : ℕ) → IsLeastRoot s (total computation.now.events + 1)
        → AllAnswered computation.now preds.now width (2 * s + 2) answers.items) }
{
    computation.limits();
    let gap = least_root(computation.total() + 1);
    let processes = computation.processes();
    if processes < 2 {
        let answers = answer_each(crew, alloc, computation, preds, width, gap)?;
        return Ok(answers);
    }
    let setting = Setting {
        crew,
        alloc,
        computation,
        width,
        gap,
    };
    if processes <= SINGLE_LIMIT {
        let answers = answer_by_runs::<T, G, u128>(&setting, preds, limit)?;
        return Ok(answers);
    }
    let answers = answer_by_runs::<T, G, Pair>(&setting, preds, limit)?;
    Ok(answers)
}

/// The same for several processes, by whole levels of runs with this kind of key.
fn answer_by_runs<T: Threads + Wait + Sync, G: Gate + Sync, K: LevelKey + Send + Sync>(
    setting: &Setting<'_, '_, '_, '_, T, G>,
    preds: &[&Pred],
    limit: u64,
) -> Result<Vec<Answers>, AllocError>
    requires { K.fits (length setting.now.computation.now.events) }
    ensures { IfOk result (λ answers. AllAnswered setting.now.computation.now preds.now setting.now.width
        (2 * setting.now.gap + 2) answers.items) }
{
    let mut wholes: Held<Whole<K>> = Held::new(setting.alloc);
    let mut stages = walk_up(setting, preds, limit, &mut wholes)?;
    finish_all(setting, preds, &wholes, &mut stages)
}

/// The same for each predicate by itself, by lists of cuts.
fn answer_each<T: Threads + Wait + Sync, G: Gate + Sync>(
    crew: &Crew<'_, '_, T, G>,
    alloc: Global,
    computation: &Computation<'_>,
    preds: &[&Pred],
    width: u64,
    gap: u64,
) -> Result<Vec<Answers>, AllocError>
    requires wide { 1 ≤ width }
    requires root { total computation.now.events < gap * gap }
    ensures { IfOk result (λ answers. AllAnswered computation.now preds.now width (2 * gap + 2) answers.items) }
{
    let mut answers = Vec::with_capacity(alloc, preds.len())?;
    for i in 0..preds.len() {
        answers.push(answers_by_lists(crew, alloc, computation, preds[i], width, gap)?)?;
    }
    Ok(answers)
}
