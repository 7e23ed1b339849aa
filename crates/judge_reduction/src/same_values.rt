//! Whether a document has the initial values of some processes of another one.
ghost use Rattle.def_orders.specs.Selections.{at_places};
ghost use Rattle.std.specs.Prelude.{◌≡◌, [], map, slice_index_or, true};

/// Whether two rows have the same values in the same order.
fn is_same_row(first: &[i64], second: &[i64]) -> bool
    ensures { result ≡ true → first.now ≡ second.now }
{
    first == second
}

/// Whether there is a row at this place, and it is this one.
fn is_row_at(row: &[i64], rows: &[Vec<i64>], place: usize) -> bool
    ensures { result ≡ true → row.now ≡ slice_index_or (map (λ row. row.items) rows.now) place [] }
{
    match rows.get(place) {
        Some(other) => is_same_row(row, other),
        None => false,
    }
}

/// Whether the first rows are those at these places of the second ones.
pub(crate) fn are_same_rows(places: &[usize], first: &[Vec<i64>], second: &[Vec<i64>]) -> bool
    ensures { result ≡ true → map (λ row. row.items) first.now
        ≡ at_places places.now (map (λ row. row.items) second.now) [] }
{
    if first.len() != places.len() {
        return false;
    }
    for i in 0..places.len() {
        if !is_row_at(&first[i], second, places[i]) {
            return false;
        }
    }
    true
}
