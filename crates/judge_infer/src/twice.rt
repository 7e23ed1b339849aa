//! Texts that stand twice in a list.
ghost use Rattle.std.specs.Prelude.{◌≡◌, map, IfOk};
ghost use Rattle.def_format.specs.Documents.{has_twice};

use std::alloc::{AllocError, Global};
use std::collections::BTreeSet;

/// Whether some text is among these twice.
pub(crate) fn has_twice(alloc: Global, texts: &[&str]) -> Result<bool, AllocError>
    ensures { IfOk result (λ twice. twice ≡ has_twice (map (λ text. text.now) texts.now)) }
{
    let mut seen = BTreeSet::new(alloc);
    for text in texts {
        if !seen.insert(*text)? {
            return Ok(true);
        }
    }
    Ok(false)
}
