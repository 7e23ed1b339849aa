//! Notes at which places ids stand.
ghost use Rattle.pd_match.specs.Noted.{place_noted};
ghost use Rattle.pd_match.specs.Views.{place_view};
ghost use Rattle.std.specs.Map.{update};
ghost use Rattle.std.specs.Prelude.{◌≡◌, ℕ, IfOk, List, OnOk, Some, bytes_eq, is_some};

use super::Place;
use super::id::Id;
use indexmap::IndexMap;
use std::alloc::AllocError;
use std::hash::BuildHasher;

/// Notes the place where an id stands. Whether one was noted before.
pub(crate) fn note<'a, S: BuildHasher>(
    places: &mut IndexMap<Id<'a>, Place, S>,
    id: &'a [u8],
    here: Place,
) -> Result<bool, AllocError>
    ensures before { IfOk result (λ before. before ≡ is_some (place_noted places.old id.now)) }
    ensures noted { OnOk result ((other : List ℕ) → place_noted places.new other
        ≡ update bytes_eq (place_noted places.old) id.now (Some (place_view here)) other) }
{
    Ok(places.insert(Id(id), here)?.is_some())
}
