//! A birth as it is kept.
ghost use Rattle.std.specs.Ordering.{nat_cmp};
ghost use Rattle.std.specs.Prelude.{◌≡◌};

use std::cmp::Ordering;
use walk_keys::Key;

/// A cut with which a prefix may be born, and the process whose event made it of a cut of the level before.
#[derive(Clone, Copy)]
pub(crate) struct KeptBirth<K: Key> {
    pub(crate) cut: K,
    pub(crate) by: usize,
}

/// How the cuts of two births compare.
pub(crate) fn order<K: Key>(a: &KeptBirth<K>, b: &KeptBirth<K>) -> Ordering
    ensures { result ≡ nat_cmp (K.number a.now.cut) (K.number b.now.cut) }
{
    if a.cut.is_below(b.cut) {
        return Ordering::Less;
    }
    if b.cut.is_below(a.cut) {
        return Ordering::Greater;
    }
    Ordering::Equal
}
