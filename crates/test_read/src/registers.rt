//! Steps that are posted, and what is shown: `Register::post` and `status`, again after a refusal.
ghost use Rattle.pd_register.specs.Seats.{IsSeatOf, IsSameSeat};

use pd_register::{Register, Row, RowState, Seat, Step};
use std::alloc::{AllocError, Global};
use std::sync::Wait;
use std::test::Fail;

/// The number of steps once this one is posted. If memory is refused the seat's row is as it was, and the step is
/// posted again.
fn post<R: Wait>(
    rt: &R,
    register: &Register,
    me: &mut Seat,
    step: Step,
    again: &mut bool,
) -> Option<u64>
    requires { IsSeatOf register.now me.old }
    ensures { IsSameSeat register.now me.old me.new }
{
    if !me.allows(&step) {
        return None;
    }
    let before = (me.events(), me.state());
    if let Ok(count) = register.post(rt, me, step) {
        return Some(count);
    }
    *again = true;
    if (me.events(), me.state()) != before || !me.allows(&step) {
        return None;
    }
    register.post(rt, me, step).ok()
}

/// Whether the seat is shown these rows. If memory is refused the seat's row is as it was, and it asks again.
fn is_shown<R: Wait>(
    rt: &R,
    register: &Register,
    me: &mut Seat,
    rows: &[Row],
    again: &mut bool,
) -> bool
    requires { IsSeatOf register.now me.old }
    ensures { IsSameSeat register.now me.old me.new }
{
    let before = (me.events(), me.state());
    if let Ok(shown) = register.status(rt, me) {
        return shown.rows.as_slice() == rows;
    }
    *again = true;
    if (me.events(), me.state()) != before {
        return false;
    }
    match register.status(rt, me) {
        Ok(shown) => shown.rows.as_slice() == rows,
        Err(_) => false,
    }
}

/// The row of a stream that has joined this process.
fn row(process: usize, events: u64, state: RowState) -> Row {
    Row {
        process: Some(process),
        events,
        state,
    }
}

/// Whether the steps of two streams are counted and shown.
fn are_steps<R: Wait>(rt: &R, alloc: Global, again: &mut bool) -> Result<bool, AllocError> {
    let (register, mut seats, _watcher) = Register::new(alloc, 2)?;
    let (Some(mut second), Some(mut first)) = (seats.pop(), seats.pop()) else {
        return Ok(false);
    };
    let joined = post(rt, &register, &mut first, Step::Join(0), again);
    let other = post(rt, &register, &mut second, Step::Join(1), again);
    let happened = post(rt, &register, &mut second, Step::Event, again);
    let ended = post(rt, &register, &mut first, Step::End, again);
    let rows = [row(0, 0, RowState::Ended), row(1, 1, RowState::Joined)];
    let shown = is_shown(rt, &register, &mut second, &rows, again);
    Ok(shown && [joined, other, happened, ended] == [Some(1), Some(2), Some(3), Some(4)])
}

#[test]
fn steps_are_posted_again(rt: HostRuntime) -> Result<(), Fail> {
    let mut again = false;
    let right = match are_steps(&rt, rt.alloc(), &mut again) {
        Ok(right) => right,
        Err(_) => are_steps(&rt, rt.alloc(), &mut again)?,
    };
    assert!(rt; right);
    if again {
        println!(rt; "a call was made again")?;
    }
    Ok(())
}
