//! By what number steps are put in order.
ghost use Rattle.wide_reach.specs.Keys.{IsKeyFor, IsKeyed, IsOrderKey, key_of, rank};
ghost use Rattle.def_model.specs.Lattice.{IsWithin};
ghost use Rattle.def_wide.specs.Heights.{height};
ghost use Rattle.std.specs.Prelude.{◌≡◌, ◌↔◌, IsTrue, length};

use wide_flow::Step;

/// By what number counts are compared.
#[derive(Clone, Copy)]
pub(crate) enum Key {
    /// The greatest count.
    Height,
    /// The count of this process, from 0.
    Count(usize),
}

/// The key of a step whose past isn't within the bound.
pub(crate) const OUTSIDE: u32 = 65536;

/// The greatest of these counts.
fn height_of(counts: &[u16]) -> u16
    ensures { result ≡ height counts.now }
{
    let mut height: u16 = 0;
    for count in counts {
        height = height.max(*count);
    }
    height
}

/// The number of these counts by a key.
fn number_of(counts: &[u16], key: Key) -> u16
    requires { IsKeyFor (length counts.now) key }
    ensures { result ≡ key_of key counts.now }
{
    match key {
        Key::Height => height_of(counts),
        Key::Count(process) => counts[process],
    }
}

/// Whether no count is above the bound's.
fn is_within(counts: &[u16], bound: &[u64]) -> bool
    requires { length counts.now ≡ length bound.now }
    ensures { IsTrue result ↔ IsWithin counts.now bound.now }
{
    for p in 0..counts.len() {
        if u64::from(counts[p]) > bound[p] {
            return false;
        }
    }
    true
}

/// The number of a past by a key, or one above all of these if the past isn't within the bound.
fn order_key(past: &[u16], bound: &[u64], key: Key) -> u32
    requires one_each { length past.now ≡ length bound.now }
    requires key { IsKeyFor (length past.now) key }
    ensures { IsOrderKey bound.now key past.now result }
{
    if is_within(past, bound) {
        u32::from(number_of(past, key))
    } else {
        OUTSIDE
    }
}

/// The step with the number of its past by a key, or with the one above all of these if the past isn't within the
/// bound.
pub(crate) fn keyed_step<'a>(step: &Step<'a>, bound: &[u64], key: Key) -> Step<'a>
    requires one_each { length step.now.past.now ≡ length bound.now }
    requires key { IsKeyFor (length bound.now) key }
    ensures { IsKeyed bound.now key step.now result }
{
    Step {
        process: step.process,
        count: step.count,
        past: step.past,
        weight: step.weight,
        key: order_key(step.past, bound, key),
    }
}

/// The number by which steps are sorted: by their keys, and those with the same key by their counts.
pub(crate) fn rank_of(step: &Step<'_>) -> u64
    ensures { result ≡ rank step.now }
{
    u64::from(step.key) * u64::from(OUTSIDE) + u64::from(step.count)
}
