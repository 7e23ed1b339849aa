//! Ids of messages, as the keys of a map.
ghost use Rattle.std.specs.Prelude.{[], ◌∷◌, bytes_eq};
ghost use Rattle.std.proofs.Common.{rules};
ghost use Rattle.std.specs.Cmp.Rules.{comparing, hashing};

use std::hash::{Hash, Hasher};

/// The id of a message, as a key of a map.
///
/// Two ids are equal if their bytes are. Their hash is fed by a single write of all bytes, where that of a slice makes
/// one for its length and one for each byte.
#[derive(Clone, Copy)]
pub(crate) struct Id<'a>(pub(crate) &'a [u8]);

impl<'a> PartialEq for Id<'a> {
    ghost eq = { λ a b. bytes_eq a.0.now b.0.now };

    ghost laws = { Prim.search (comparing, rules) };

    #[inline(always)]
    fn eq(&self, other: &Id<'a>) -> bool {
        self.0 == other.0
    }
}

impl<'a> Eq for Id<'a> {
    ghost laws = { Prim.search (comparing, rules) };
}

impl<'a> Hash for Id<'a> {
    ghost hash_input = { λ id. id.0.now ∷ [] };

    ghost respects_eq = { Prim.search (hashing, rules) };

    #[inline(always)]
    fn hash<H: Hasher>(&self, state: &mut H) {
        state.write(self.0);
    }
}
