//! The posts of a stream that is read: its seat's row is brought up to what its reader shows.
ghost use mathlib.Core.List.{IsPrefix};
ghost use Rattle.pd_events.specs.Views.{state_view};
ghost use Rattle.def_format.specs.Readings.{Fresh, Joined};
ghost use Rattle.def_format.specs.Limits.{event_limit};
ghost use Rattle.pd_gather.specs.Rows.{CanStop, GoesOnTo, HasPosted, IsJoinedWith, row, row_of_reading};
ghost use Rattle.pd_register.specs.Seats.{IsSameSeat, IsSeatOf, posted_row, seen_history};
ghost use Rattle.std.specs.Prelude.{◌≡◌, ◌≤◌, ◌⊎◌, None, Some, OnErr, OnOk};

use pd_events::{StreamState, TraceReader};
use pd_register::{Register, RowState, Seat, Step};
use std::alloc::AllocError;
use std::sync::Wait;

/// Posts the steps of the records that the reader passed since the seat's last post: the join, the events, and then the
/// end or the fault.
///
/// # Errors
/// If memory runs out; what was posted until then stays: the join and some of the events, or nothing, and neither the
/// end nor the fault. What the seat has seen grows, then too.
pub(super) fn post_records<T: Wait>(
    rt: &T,
    register: &Register,
    seat: &mut Seat,
    stream: &TraceReader<'_>,
) -> Result<(), AllocError>
    requires own { IsSeatOf register.now seat.old }
    requires later { GoesOnTo (posted_row seat.old) (row_of_reading stream.now.reading) }
    ensures seat { IsSameSeat register.now seat.old seat.new }
    ensures seen { IsPrefix (seen_history seat.old) (seen_history seat.new) }
    ensures posted { OnOk result (posted_row seat.new ≡ row_of_reading stream.now.reading) }
    ensures refused { OnErr result (HasPosted (posted_row seat.old) (row_of_reading stream.now.reading)
        (posted_row seat.new)) }
{
    let Some(process) = stream.process() else {
        return post_end(rt, register, seat, stream.state());
    };
    post_join(rt, register, seat, process)?;
    post_events(rt, register, seat, stream.events())?;
    post_end(rt, register, seat, stream.state())
}

/// Posts the join of this process, if the stream hasn't joined. Out of memory, it isn't posted.
fn post_join<T: Wait>(
    rt: &T,
    register: &Register,
    seat: &mut Seat,
    process: usize,
) -> Result<(), AllocError>
    requires own { IsSeatOf register.now seat.old }
    requires open { (posted_row seat.old ≡ row None 0 Fresh) ⊎ (posted_row seat.old ≡
        row (Some process) (posted_row seat.old).events Joined) }
    ensures seat { IsSameSeat register.now seat.old seat.new }
    ensures seen { IsPrefix (seen_history seat.old) (seen_history seat.new) }
    ensures posted { OnOk result (posted_row seat.new ≡ row (Some process) (posted_row seat.old).events Joined) }
    ensures refused { OnErr result (posted_row seat.new ≡ posted_row seat.old) }
{
    if seat.state() == RowState::Fresh {
        register.post(rt, seat, Step::Join(process))?;
    }
    Ok(())
}

/// Posts events, until there are this many. Out of memory, those posted until then stay.
fn post_events<T: Wait>(
    rt: &T,
    register: &Register,
    seat: &mut Seat,
    events: u64,
) -> Result<(), AllocError>
    requires own { IsSeatOf register.now seat.old }
    requires open { (posted_row seat.old).state ≡ Joined }
    requires fewer { (posted_row seat.old).events ≤ events }
    requires few { events ≤ event_limit }
    ensures seat { IsSameSeat register.now seat.old seat.new }
    ensures seen { IsPrefix (seen_history seat.old) (seen_history seat.new) }
    ensures posted { OnOk result (posted_row seat.new ≡ row (posted_row seat.old).process events Joined) }
    ensures refused { OnErr result (IsJoinedWith (posted_row seat.old).process (posted_row seat.old).events events
        (posted_row seat.new)) }
{
    'events: for _ in seat.events()..events {
        register.post(rt, seat, Step::Event)?;
    }
    Ok(())
}

/// Posts the end or the fault, if the stream has it. Out of memory, neither is posted.
fn post_end<T: Wait>(
    rt: &T,
    register: &Register,
    seat: &mut Seat,
    state: StreamState,
) -> Result<(), AllocError>
    requires own { IsSeatOf register.now seat.old }
    requires open { CanStop (posted_row seat.old).state (state_view state) }
    ensures seat { IsSameSeat register.now seat.old seat.new }
    ensures seen { IsPrefix (seen_history seat.old) (seen_history seat.new) }
    ensures posted { OnOk result (posted_row seat.new ≡
        row (posted_row seat.old).process (posted_row seat.old).events (state_view state)) }
    ensures refused { OnErr result (posted_row seat.new ≡ posted_row seat.old) }
{
    match state {
        StreamState::Fresh | StreamState::Joined => {}
        StreamState::Ended => {
            register.post(rt, seat, Step::End)?;
        }
        StreamState::Faulted => {
            register.post(rt, seat, Step::Fault)?;
        }
    }
    Ok(())
}
