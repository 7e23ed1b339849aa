//! A run one level on.
ghost use Rattle.walk_keys.specs.Keys.{count_base, digits};
ghost use Rattle.def_model.specs.Cuts.{IsConsistent};
ghost use Rattle.walk_keys.specs.Neighbors.{cut_at};
ghost use Rattle.walk_runs.specs.Births.{IsUndoable, IsYoung};
ghost use Rattle.walk_runs.specs.KeptRuns.{GrowsAtEnds, IsBornRun, IsKept, IsMoved, IsPushed, level_of, run_view};
ghost use Rattle.walk_runs.specs.WholeLevels.{IsMovedTo, IsRunOf, Run};
ghost use Rattle.std.specs.Prelude.{◌-◌, ◌/◌, ◌^◌, ◌<◌, ◌≤◌, IfNone, IfOk, IfSome, length, sum};

use super::Steps;
use super::birth::{add_births, add_births_if};
use super::births::Births;
use super::kept::KeptRun;
use super::kept_birth::KeptBirth;
use super::point::{Point, can_add, point_of};
use std::alloc::AllocError;
use walk_keys::Key;

/// A run one level on, and whether births have to be searched for at its two ends.
#[derive(Drop)]
pub(crate) struct Moved<K: Key> {
    pub(crate) run: KeptRun<K>,
    pub(crate) top: bool,
    pub(crate) low: bool,
}

/// The run one level on, if it isn't empty there. It stands at place `from` now.
fn move_run<K: Key>(steps: &Steps<'_, '_>, run: &KeptRun<K>, from: u32) -> Option<Moved<K>>
    requires few { length steps.now ≤ K.room }
    requires kept { IsKept (length steps.now - 2) (level_of (length steps.now - 2) run.now) run.now }
    requires run { IsRunOf steps.now (level_of (length steps.now - 2) run.now)
        (run_view (length steps.now - 2) run.now) }
    ensures some { IfSome result (λ next. IsMoved steps.now run.now next.run next.top next.low) }
    ensures none { IfNone result ((new : Run)
        → IsMovedTo steps.now (level_of (length steps.now - 2) run.now) (run_view (length steps.now - 2) run.now) new
        → ¬ (new.lo ≤ new.hi)) }
{
    steps.limits();
    let x = steps.prefix();
    let least = Point {
        key: run.key,
        x: run.lo,
        y: run.rest - run.lo,
    };
    let greatest = Point {
        key: run.key,
        x: run.hi,
        y: run.rest - run.hi,
    };
    let stays = can_add(steps, &least, x + 1);
    let goes = can_add(steps, &greatest, x);
    let lo = if stays { run.lo } else { run.lo + 1 };
    let hi = if goes { run.hi + 1 } else { run.hi };
    if lo > hi {
        return None;
    }
    let rest = run.rest + 1;
    let top = goes && steps.may_send_x(u64::from(hi));
    let low = stays && steps.may_send_y(u64::from(rest - lo));
    let run = KeptRun {
        key: run.key,
        lo,
        hi,
        rest,
        from,
    };
    Some(Moved { run, top, low })
}

/// Adds the births that are searched for at the ends of a run that has moved.
fn add_births_of<K: Key>(
    steps: &Steps<'_, '_>,
    run: &KeptRun<K>,
    top: bool,
    low: bool,
    born: &mut Births<K>,
) -> Result<(), AllocError>
    requires few { length steps.now ≤ K.room }
    requires below { run.now.key < count_base ^ (length steps.now - 2) }
    requires least { IsConsistent steps.now (cut_at (digits (length steps.now - 2) run.now.key) run.now.lo
        (run.now.rest - run.now.lo)) }
    requires greatest { IsConsistent steps.now (cut_at (digits (length steps.now - 2) run.now.key) run.now.hi
        (run.now.rest - run.now.hi)) }
    requires within { run.now.hi ≤ run.now.rest }
    requires some { run.now.lo ≤ run.now.hi }
    ensures { IfOk result (λ _. GrowsAtEnds steps.now run.now top low born.old born.new) }
{
    steps.limits();
    let x = steps.prefix();
    let greatest = Point {
        key: run.key,
        x: run.hi,
        y: run.rest - run.hi,
    };
    let least = Point {
        key: run.key,
        x: run.lo,
        y: run.rest - run.lo,
    };
    add_births_if(steps, top, &greatest, x, born)?;
    add_births_if(steps, low, &least, x + 1, born)?;
    Ok(())
}

/// Adds the run one level on, if it isn't empty there, and the births that are searched for at its ends. It stands at
/// place `from` now.
pub(crate) fn push_moved<K: Key>(
    steps: &Steps<'_, '_>,
    run: &KeptRun<K>,
    from: u32,
    runs: &mut Vec<KeptRun<K>>,
    born: &mut Births<K>,
) -> Result<(), AllocError>
    requires few { length steps.now ≤ K.room }
    requires kept { IsKept (length steps.now - 2) (level_of (length steps.now - 2) run.now) run.now }
    requires run { IsRunOf steps.now (level_of (length steps.now - 2) run.now)
        (run_view (length steps.now - 2) run.now) }
    ensures { IfOk result (λ _. IsPushed steps.now run.now runs.old.items born.old runs.new.items born.new) }
{
    steps.limits();
    match move_run(steps, run, from) {
        Some(next) => {
            add_births_of(steps, &next.run, next.top, next.low, born)?;
            runs.push(next.run)?;
            Ok(())
        }
        None => Ok(()),
    }
}

/// Adds the run of a cut whose prefix is born with it, and the births that are searched for at it. In the level before
/// it would stand at place `from`.
pub(crate) fn push_born<K: Key>(
    steps: &Steps<'_, '_>,
    birth: KeptBirth<K>,
    from: u32,
    runs: &mut Vec<KeptRun<K>>,
    born: &mut Births<K>,
) -> Result<(), AllocError>
    requires few { length steps.now ≤ K.room }
    requires below { K.number birth.cut < count_base ^ length steps.now }
    requires cut { IsConsistent steps.now (digits (length steps.now) (K.number birth.cut)) }
    requires latest { IsUndoable steps.now (digits (length steps.now) (K.number birth.cut)) birth.by }
    requires young { IsYoung steps.now (sum (digits (length steps.now) (K.number birth.cut)))
        (digits (length steps.now - 2) (K.number birth.cut / count_base / count_base)) }
    ensures { IfOk result (λ _.
        IsBornRun steps.now (K.number birth.cut) runs.old.items born.old runs.new.items born.new) }
{
    steps.limits();
    let point = point_of(birth.cut, steps.prefix() + 2);
    runs.push(KeptRun {
        key: point.key,
        lo: point.x,
        hi: point.x,
        rest: point.x + point.y,
        from,
    })?;
    add_births(steps, &point, None, birth.by, born)?;
    Ok(())
}
