//! Two ascending lists of keys as one.
ghost use Rattle.walk_keys.specs.Keys.{Ascending};
ghost use Rattle.std.specs.Prelude.{◌<◌, ◌↔◌, ◌⊎◌, ℕ, Contains, IfOk, IsTrue};

use super::list::KeyList;
use std::alloc::{AllocError, Global};
use walk_keys::Key;

/// The keys that stand in one of the two ascending lists or in both, each once and ascending.
pub(crate) fn merge<K: Key>(
    alloc: Global,
    left: &KeyList<K>,
    right: &KeyList<K>,
) -> Result<KeyList<K>, AllocError>
    requires left { Ascending left.now }
    requires right { Ascending right.now }
    ensures ascending { IfOk result (λ both. Ascending both) }
    ensures just { IfOk result (λ both.
        (x : ℕ) → Contains both x ↔ (Contains left.now x ⊎ Contains right.now x)) }
{
    let mut both = KeyList::with_room(alloc, left.len().saturating_add(right.len()))?;
    let mut i = 0;
    let mut j = 0;
    while i < left.len() && j < right.len() {
        let a = left.get(i);
        let b = right.get(j);
        if a.is_below(b) {
            both.push(a)?;
            i += 1;
        } else if b.is_below(a) {
            both.push(b)?;
            j += 1;
        } else {
            both.push(a)?;
            i += 1;
            j += 1;
        }
    }
    both.extend(left, i)?;
    both.extend(right, j)?;
    Ok(both)
}

/// Whether each of the first ascending keys is below each of the last ones.
fn is_below<K: Key>(left: &KeyList<K>, right: &KeyList<K>) -> bool
    requires left { Ascending left.now }
    requires right { Ascending right.now }
    ensures { IsTrue result → (x y : ℕ) → Contains left.now x → Contains right.now y → x < y }
{
    if left.len() == 0 || right.len() == 0 {
        return true;
    }
    left.get(left.len() - 1).is_below(right.get(0))
}

/// The keys that stand in one of the two ascending lists or in both, each once and ascending. If all of the last ones
/// come after the first ones, they are written at their end.
pub(crate) fn joined<K: Key>(
    alloc: Global,
    left: KeyList<K>,
    right: &KeyList<K>,
) -> Result<KeyList<K>, AllocError>
    requires left { Ascending left }
    requires right { Ascending right.now }
    ensures ascending { IfOk result (λ both. Ascending both) }
    ensures just { IfOk result (λ both.
        (x : ℕ) → Contains both x ↔ (Contains left x ⊎ Contains right.now x)) }
{
    if is_below(&left, right) {
        let mut both = left;
        both.extend(right, 0)?;
        return Ok(both);
    }
    merge(alloc, &left, right)
}
