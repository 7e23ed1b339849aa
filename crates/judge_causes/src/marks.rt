//! Which events of a process are among some places.
ghost use Rattle.judge_causes.specs.Reduced.{AreMarks, is_place};
ghost use Rattle.def_model.specs.Events.{place};
ghost use Rattle.pd_clock.specs.Orders.{places_view};
ghost use Rattle.pd_match.specs.Views.{place_view};
ghost use Rattle.std.specs.Prelude.{◌≡◌, ◌||◌, ◌<◌, ℕ, IfOk, false, length, slice_index_or, suc};

use pd_clock::Place;
use std::alloc::{AllocError, Global};

/// Marks the event at this place, if it is one of the process.
fn mark(marks: &mut [bool], process: usize, receipt: Place)
    ensures same { length marks.new ≡ length marks.old }
    ensures marked { (k : ℕ) → k < length marks.old → slice_index_or marks.new k false
        ≡ (slice_index_or marks.old k false || is_place (place process (suc k)) (place_view receipt)) }
{
    if receipt.process != process {
        return;
    }
    let Some(index) = receipt.number.checked_sub(1) else {
        return;
    };
    if index < marks.len() as u64 {
        marks[index as usize] = true;
    }
}

/// Which of the first `len` events of a process are among these places.
///
/// # Errors
/// An allocation was refused.
pub(crate) fn marks_of(
    alloc: Global,
    places: &[Place],
    process: usize,
    len: usize,
) -> Result<Vec<bool>, AllocError>
    ensures { IfOk result (λ marks. AreMarks (places_view places.now) process len marks.items) }
{
    let mut marks = vec![in alloc; false; len]?;
    for receipt in places {
        mark(&mut marks, process, *receipt);
    }
    Ok(marks)
}
