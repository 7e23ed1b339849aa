//! What one thread finds of the numbers that it draws.
ghost use Rattle.std.specs.Prelude.{◌<◌, ◌≤◌, ℕ, All, IfOk};

use std::alloc::{AllocError, Global};
use std::sync::atomic::{AtomicUsize, Ordering};

/// A number, and what was found of it.
#[derive(Drop)]
pub(crate) struct Found<X> {
    /// The number.
    pub(crate) number: usize,
    /// What was found.
    pub(crate) value: X,
}

/// Adds what is found of the numbers from `from` to below `to`.
fn find_between<X: Drop, F: Fn(usize) -> X>(
    work: &F,
    count: usize,
    from: usize,
    to: usize,
    found: &mut Vec<Found<X>>,
) -> Result<(), AllocError>
    requires accepts { (i : ℕ) → i < count → F.pre work.now i }
    requires within { to ≤ count }
    requires found { All (λ f. (f.number < count) × F.post work.now f.number f.value) found.old.items }
    ensures { IfOk result (λ _. All (λ f. (f.number < count) × F.post work.now f.number f.value) found.new.items) }
{
    for i in from..to {
        let value = work(i);
        found.push(Found { number: i, value })?;
    }
    Ok(())
}

/// What is found of the numbers below `count` that this thread draws, `length` of them at a time.
pub(crate) fn find_drawn<X: Drop, F: Fn(usize) -> X>(
    alloc: Global,
    next: &AtomicUsize,
    count: usize,
    length: usize,
    work: &F,
) -> Result<Vec<Found<X>>, AllocError>
    requires { (i : ℕ) → i < count → F.pre work.now i }
    ensures { IfOk result (λ found. All (λ f. (f.number < count) × F.post work.now f.number f.value) found.items) }
{
    let mut found = Vec::new(alloc);
    for _ in 0..count {
        let from = next.fetch_add(length, Ordering::SeqCst);
        if from >= count {
            break;
        }
        let to = from.saturating_add(length).min(count);
        find_between(work, count, from, to, &mut found)?;
    }
    Ok(found)
}
