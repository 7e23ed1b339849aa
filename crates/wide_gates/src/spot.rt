//! Right before and right after each event.
ghost use Rattle.wide_gates.specs.Spots.{AreSpots, HaveSpots, own_count};
ghost use Rattle.std.specs.Prelude.{◌≡◌, ◌+◌, ◌<◌, ◌≤◌, IfOk, length};

use pd_clock::{Computation, Place};
use std::alloc::{AllocError, Global};

/// Right before an event, or right after it.
#[derive(Clone, Copy)]
pub(crate) struct Spot {
    pub(crate) place: Place,
    pub(crate) after: bool,
}

/// How many events of the event's process come before the spot.
pub(crate) fn own(spot: Spot) -> u64
    ensures { result ≡ own_count spot }
{
    if spot.after {
        spot.place.number
    } else {
        spot.place.number.saturating_sub(1)
    }
}

/// Puts the spots of a process after those of the processes before it.
fn add_spots(
    computation: &Computation<'_>,
    process: usize,
    spots: &mut Vec<Spot>,
) -> Result<(), AllocError>
    requires there { process < length computation.now.events }
    requires before { HaveSpots computation.now.events process 0 spots.old.items }
    ensures { IfOk result (λ _. HaveSpots computation.now.events (process + 1) 0 spots.new.items) }
{
    for index in 0..computation.events(process) {
        let place = Place {
            process,
            number: index + 1,
        };
        spots.push(Spot {
            place,
            after: false,
        })?;
        spots.push(Spot { place, after: true })?;
    }
    Ok(())
}

/// Right before and right after each event, process by process.
///
/// # Errors
/// An allocation was refused.
pub(crate) fn all_spots(
    alloc: Global,
    computation: &Computation<'_>,
) -> Result<Vec<Spot>, AllocError>
    ensures { IfOk result (λ spots. AreSpots computation.now.events spots.items) }
{
    let mut spots = Vec::new(alloc);
    for process in 0..computation.processes() {
        add_spots(computation, process, &mut spots)?;
    }
    Ok(spots)
}
