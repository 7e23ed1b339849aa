//! Which spots have a property.
ghost use Rattle.wide_gates.specs.Flags.{AreBoth, AreEither};
ghost use Rattle.std.specs.Prelude.{◌≡◌, IfOk, length, replicate};

use std::alloc::{AllocError, Global};

/// This many times the same value.
///
/// # Errors
/// An allocation was refused.
pub(crate) fn all(alloc: Global, value: bool, count: usize) -> Result<Vec<bool>, AllocError>
    ensures { IfOk result (λ flags. flags.items ≡ replicate count value) }
{
    vec![in alloc; value; count]
}

/// Where both lists have `true`.
///
/// # Errors
/// An allocation was refused.
pub(crate) fn both(alloc: Global, left: &[bool], right: &[bool]) -> Result<Vec<bool>, AllocError>
    requires { length right.now ≡ length left.now }
    ensures { IfOk result (λ flags. AreBoth left.now right.now flags.items) }
{
    let mut flags = Vec::with_capacity(alloc, left.len())?;
    for k in 0..left.len() {
        flags.push(left[k] && right[k])?;
    }
    Ok(flags)
}

/// Where one of the lists has `true`.
///
/// # Errors
/// An allocation was refused.
pub(crate) fn either(alloc: Global, left: &[bool], right: &[bool]) -> Result<Vec<bool>, AllocError>
    requires { length right.now ≡ length left.now }
    ensures { IfOk result (λ flags. AreEither left.now right.now flags.items) }
{
    let mut flags = Vec::with_capacity(alloc, left.len())?;
    for k in 0..left.len() {
        flags.push(left[k] || right[k])?;
    }
    Ok(flags)
}
