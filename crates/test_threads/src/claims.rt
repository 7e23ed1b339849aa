//! Claims drawn by one seat, and by seats in three threads.
ghost use Rattle.pd_expand.specs.Claims.{IsSeatOf};
ghost use Rattle.std.specs.Prelude.{All};
ghost use Rattle.std.specs.Thread.{IsSync};

use pd_expand::{ClaimSeat, Claims};
use std::alloc::{AllocError, Global};
use std::sync::Wait;
use std::test::Fail;
use std::thread::{Threads, join_mut};

/// The lists of what some seats drew.
type Drawn = Result<Vec<Vec<u64>>, AllocError>;

#[test]
fn one_seat_draws_in_order(rt: HostRuntime) -> Result<(), Fail> {
    let (claims, mut seats) = Claims::new(rt.alloc(), 1, 1)?;
    let Some(mut me) = seats.pop() else {
        return Err(Fail::new("no seat"));
    };
    assert!(rt; !me.done() && claims.draw(&mut me) == 0 && !me.done());
    assert!(rt; claims.draw(&mut me) == 1 && me.done());
    Ok(())
}

/// Draws until the seat is done.
fn draw_all<R: Wait>(rt: &R, alloc: Global, claims: &Claims, me: &mut ClaimSeat) -> Drawn
    requires { IsSeatOf claims.now me.old }
    ensures { IsSeatOf claims.now me.new }
{
    let mut numbers = Vec::new(alloc);
    for _ in rt.forever() {
        if me.done() {
            break;
        }
        numbers.push(claims.draw(me))?;
    }
    let mut lists = Vec::new(alloc);
    lists.push(numbers)?;
    Ok(lists)
}

/// Draws with all seats, each on a thread of its own.
fn draw_halves<R: Threads + Wait + Sync>(
    rt: &R,
    alloc: &Global,
    claims: &Claims,
    seats: &mut [ClaimSeat],
) -> Drawn
    requires { All (IsSeatOf claims.now) seats.old }
    ensures { All (IsSeatOf claims.now) seats.new }
{
    if seats.len() == 0 {
        return Ok(Vec::new(*alloc));
    }
    if seats.len() == 1 {
        return draw_all(rt, *alloc, claims, &mut seats[0]);
    }
    let middle = seats.len() / 2;
    let (first, last) = seats.split_at_mut(middle);
    let (lists, others) = join_mut(
        rt,
        &mut || -> Drawn
            requires { IsSync R.row × All (IsSeatOf claims.now) first.now }
            ensures { All (IsSeatOf claims.entry.now) first.exit.now }
        { draw_halves(rt, alloc, claims, first) },
        &mut || -> Drawn
            requires { IsSync R.row × All (IsSeatOf claims.now) last.now }
            ensures { All (IsSeatOf claims.entry.now) last.exit.now }
        { draw_halves(rt, alloc, claims, last) },
    );
    let mut lists = lists?;
    let mut others = others?;
    lists.append(&mut others)?;
    Ok(lists)
}

#[test]
fn three_threads_draw_each_number_once(rt: HostRuntime) -> Result<(), Fail> {
    let (claims, mut seats) = Claims::new(rt.alloc(), 5, 3)?;
    let alloc = rt.alloc();
    let lists = draw_halves(&rt, &alloc, &claims, seats.as_mut_slice())?;
    assert_eq!(rt; lists.len(), 3);
    for number in 0..5u64 {
        let mut times = 0u64;
        for list in lists.iter() {
            for drawn in list.iter() {
                if *drawn == number {
                    times = times.saturating_add(1);
                }
            }
        }
        assert_eq!(rt; times, 1, "of {number}");
    }
    for list in lists.iter() {
        let past = match list.last() {
            Some(last) => *last >= 5,
            None => false,
        };
        assert!(rt; past);
    }
    Ok(())
}
