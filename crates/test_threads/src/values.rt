//! Values of numbers, by none, one and several threads: `values_of`.
use std::alloc::{AllocError, Global};
use std::test::Fail;
use std::thread::Threads;
use walk_keys::values_of;

/// Whether `threads` threads find the squares of the numbers below `count`, each in its place.
fn finds_squares<R: Threads + Sync>(
    rt: &R,
    alloc: Global,
    threads: usize,
    count: usize,
) -> Result<bool, AllocError> {
    let squares = values_of(
        rt,
        threads,
        alloc,
        count,
        &|i: usize| -> u64 { (i as u64).wrapping_mul(i as u64) },
    )?;
    for i in 0..squares.len() {
        if squares[i] != (i as u64).wrapping_mul(i as u64) {
            return Ok(false);
        }
    }
    Ok(squares.len() == count)
}

#[test]
fn the_values_stand_in_order(rt: HostRuntime) -> Result<(), Fail> {
    for threads in [0, 1, 2, 3, 16] {
        for count in [0, 1, 63, 64, 65, 5000] {
            assert!(rt; finds_squares(&rt, rt.alloc(), threads, count)?);
        }
    }
    Ok(())
}
