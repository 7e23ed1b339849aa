//! What is found of all numbers, in their order.
ghost use Rattle.std.specs.Prelude.{◌≡◌, ◌<◌, ℕ, All, IfOk, IfSome, None, length, slice_index_or};

use crate::found::{Found, find_drawn};
use std::alloc::{AllocError, Global};
use std::mem;
use std::sync::atomic::AtomicUsize;
use std::thread::{Threads, map_indices};

/// How many pieces the numbers are cut into, about, if there are as many.
const PIECES: usize = 64;

/// What each of the threads found.
fn find_all<R: Threads + Sync, X: Send + Drop, F: Fn(usize) -> X + Sync>(
    rt: &R,
    threads: usize,
    alloc: Global,
    count: usize,
    work: &F,
) -> Result<Vec<Result<Vec<Found<X>>, AllocError>>, AllocError>
    requires { (i : ℕ) → i < count → F.pre work.now i }
    ensures { IfOk result (λ parts. All (λ part. IfOk part (λ found.
        All (λ f. (f.number < count) × F.post work.now f.number f.value) found.items)) parts.items) }
{
    let next = AtomicUsize::new(0);
    let length = count / PIECES + 1;
    map_indices(
        rt,
        alloc,
        threads,
        &|_thread: usize| -> Result<Vec<Found<X>>, AllocError>
            requires { (i : ℕ) → i < count → F.pre work.now i }
            ensures { IfOk result (λ found.
                All (λ f. (f.number < count) × F.post work.entry.now f.number f.value) found.items) }
        { find_drawn(alloc, &next, count, length, work) },
    )
}

/// Puts what was found in its place.
fn put<X: Drop, F: Fn(usize) -> X>(_work: &F, found: Vec<Found<X>>, values: &mut [Option<X>])
    requires found { All (λ f. (f.number < length values.old) × F.post _work.now f.number f.value) found.items }
    requires values { (i : ℕ) → IfSome (slice_index_or values.old i None) (F.post _work.now i) }
    ensures one_each { length values.new ≡ length values.old }
    ensures values { (i : ℕ) → IfSome (slice_index_or values.new i None) (F.post _work.now i) }
{
    let mut found = found;
    while let Some(next) = found.pop() {
        let Found { number, value } = next;
        values[number] = Some(value);
    }
}

/// Nothing found, this many times.
fn nothing<X: Drop>(alloc: Global, count: usize) -> Result<Vec<Option<X>>, AllocError>
    ensures { IfOk result (λ values. (length values.items ≡ count) × All (λ value. value ≡ None) values.items) }
{
    let mut values = Vec::with_capacity(alloc, count)?;
    for _ in 0..count {
        values.push(None)?;
    }
    Ok(values)
}

/// Puts what each thread found in its place.
///
/// # Errors
/// An allocation was refused in one of them.
fn put_all<X: Drop, F: Fn(usize) -> X>(
    work: &F,
    parts: Vec<Result<Vec<Found<X>>, AllocError>>,
    values: &mut [Option<X>],
) -> Result<(), AllocError>
    requires parts { All (λ part. IfOk part (λ found.
        All (λ f. (f.number < length values.old) × F.post work.now f.number f.value) found.items)) parts.items }
    requires values { (i : ℕ) → IfSome (slice_index_or values.old i None) (F.post work.now i) }
    ensures one_each { length values.new ≡ length values.old }
    ensures values { (i : ℕ) → IfSome (slice_index_or values.new i None) (F.post work.now i) }
{
    let mut parts = parts;
    while let Some(part) = parts.pop() {
        put(work, part?, values);
    }
    Ok(())
}

/// What stands in a place, or, if nothing does, what is found of its number now.
fn value_there<X: Drop, F: Fn(usize) -> X>(work: &F, place: Option<X>, i: usize) -> X
    requires accepts { F.pre work.now i }
    requires place { IfSome place (F.post work.now i) }
    ensures { F.post work.now i result }
{
    match place {
        Some(value) => value,
        None => work(i),
    }
}

/// What stands in each place, or, if nothing does, what is found of its number now.
fn values_there<X: Drop, F: Fn(usize) -> X>(
    alloc: Global,
    work: &F,
    values: &mut [Option<X>],
) -> Result<Vec<X>, AllocError>
    requires accepts { (i : ℕ) → i < length values.old → F.pre work.now i }
    requires values { (i : ℕ) → IfSome (slice_index_or values.old i None) (F.post work.now i) }
    ensures one_each { IfOk result (λ all. length all.items ≡ length values.old) }
    ensures values { IfOk result (λ all. (i : ℕ) (d : X) → i < length values.old
        → F.post work.now i (slice_index_or all.items i d)) }
{
    let count = values.len();
    let mut all = Vec::with_capacity(alloc, count)?;
    for i in 0..count {
        let place = mem::replace(&mut values[i], None);
        all.push(value_there(work, place, i))?;
    }
    Ok(all)
}

/// What `work` gives of each number below `count`, in their order, by at most this many threads.
///
/// # Errors
/// An allocation was refused.
pub fn values_of<R: Threads + Sync, X: Send + Drop, F: Fn(usize) -> X + Sync>(
    rt: &R,
    threads: usize,
    alloc: Global,
    count: usize,
    work: &F,
) -> Result<Vec<X>, AllocError>
    requires { (i : ℕ) → i < count → F.pre work.now i }
    ensures one_each { IfOk result (λ values. length values.items ≡ count) }
    ensures values { IfOk result (λ values. (i : ℕ) (d : X) → i < count
        → F.post work.now i (slice_index_or values.items i d)) }
{
    let parts = find_all(rt, threads, alloc, count, work)?;
    let mut values = nothing(alloc, count)?;
    put_all(work, parts, values.as_mut_slice())?;
    values_there(alloc, work, values.as_mut_slice())
}
