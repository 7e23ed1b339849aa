//! The numbers of the steps of an observation.
ghost use Rattle.pd_match.specs.Views.{place_view};
ghost use Rattle.def_model.specs.Cuts.{one_more};
ghost use Rattle.out_picture.specs.Pictures.{step_shapes, step_size, steps_shapes};
ghost use Rattle.out_picture.specs.Shapes.{all_seen};
ghost use Rattle.out_picture.specs.Tables.{column_at};
ghost use Rattle.std.specs.Prelude.{◌≡◌, ◌<◌, ◌^◌, ◌++◌, OnOk, replicate, slice_index};

use super::shapes::push_number;
use super::window::{Window, column_at, count_at};
use out_svg::{Class, Point, Shape};
use pd_clock::Place;
use std::alloc::{AllocError, Global};

/// The height of the type of a step's number: one of five digits, or of six, is set smaller, so that it has room.
fn step_size(step: u64) -> u32
    ensures { result ≡ step_size step }
{
    match step {
        0..=9_999 => 13,
        10_000..=99_999 => 11,
        _ => 10,
    }
}

/// Adds the number of a step above the event that it adds, if that is shown.
fn push_step(
    alloc: Global,
    shapes: &mut Vec<Shape>,
    window: Window,
    rows: &[Vec<u32>],
    step: u64,
    place: Place,
) -> Result<(), AllocError>
    ensures { OnOk result (all_seen shapes.new.items ≡ all_seen shapes.old.items
        ++ step_shapes window (column_at rows.now) step (place_view place)) }
{
    if !window.shows(column_at(rows, place)) {
        return Ok(());
    }
    let at = window.event_point(rows, place);
    let above = Point {
        x: at.x,
        y: at.y - 20,
    };
    push_number(alloc, shapes, Class::Step, above, step_size(step), step)
}

/// Counts one event of a process more.
fn add_one(counts: &mut Vec<u64>, p: usize)
    requires { slice_index counts.old.items p < 2 ^ 63 }
    ensures { counts.new.items ≡ one_more counts.old.items p }
{
    if p < counts.len() {
        counts[p] += 1;
    }
}

/// Adds the numbers of the steps of an observation of these many processes.
pub(crate) fn push_steps(
    alloc: Global,
    shapes: &mut Vec<Shape>,
    window: Window,
    rows: &[Vec<u32>],
    processes: usize,
    path: &[usize],
) -> Result<(), AllocError>
    ensures { OnOk result (all_seen shapes.new.items ≡ all_seen shapes.old.items
        ++ steps_shapes window (column_at rows.now) (replicate processes 0) 1 path.now) }
{
    let mut counts = vec![in alloc; 0; processes]?;
    for step in 0..path.len() {
        let p = path[step];
        let place = Place {
            process: p,
            number: count_at(&counts, p) + 1,
        };
        push_step(alloc, shapes, window, rows, step as u64 + 1, place)?;
        add_one(&mut counts, p);
    }
    Ok(())
}
