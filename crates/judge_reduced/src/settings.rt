//! What the image of a kept event sets.
ghost use Rattle.def_long.specs.Views.{value_after};
ghost use Rattle.def_model.specs.Events.{event_count};
ghost use Rattle.judge_reduced.specs.SettingLists.{AreSettings};
ghost use Rattle.std.specs.Prelude.{◌≡◌, ◌<◌, ◌≤◌, Contains, IfOk, false, length};

use judge_orders::value_after;
use pd_clock::Computation;
use std::alloc::{AllocError, Global};

/// Whether the variable is one of these.
#[inline(always)]
fn is_seen(vars: &[usize], v: usize) -> bool
    ensures { result ≡ false → ¬ Contains vars.now v }
{
    vars.contains(&v)
}

/// Each of these variables of process `p` that is below `count`, with what it is worth after the first `n` events of
/// the process.
///
/// It compares each number below `count` with these variables.
///
/// # Errors
/// An allocation was refused.
pub(crate) fn settings_after(
    alloc: Global,
    computation: &Computation<'_>,
    p: usize,
    n: u64,
    vars: &[usize],
    count: usize,
) -> Result<Vec<(usize, i64)>, AllocError>
    requires within { p < length computation.now.events }
    requires there { n ≤ event_count computation.now.events p }
    ensures { IfOk result (λ sets. AreSettings (value_after computation.now n p) vars.now count sets.items) }
{
    let mut sets = Vec::new(alloc);
    for v in 0..count {
        if is_seen(vars, v) {
            sets.push((v, value_after(computation, p, n, v)))?;
        }
    }
    Ok(sets)
}
