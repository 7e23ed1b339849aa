//! Whether a document has some processes of another one, with their variables.
ghost use Rattle.def_orders.specs.Selections.{at_places};
ghost use Rattle.def_recordings.specs.Reductions.{no_process};
ghost use Rattle.std.specs.Prelude.{◌≡◌, ◌<◌, Some, length, map, slice_get, slice_index_or, string_bytes, true};

use pd_pred::Names;

/// Whether two texts are the same.
pub(crate) fn is_same_text(first: &str, second: &str) -> bool
    ensures { result ≡ true → first.now ≡ second.now }
{
    first == second
}

/// Whether two lists have the same texts in the same order.
fn are_same_texts(first: &[String], second: &[String]) -> bool
    ensures { result ≡ true → map string_bytes first.now ≡ map string_bytes second.now }
{
    if first.len() != second.len() {
        return false;
    }
    for i in 0..first.len() {
        if !is_same_text(first[i].as_str(), second[i].as_str()) {
            return false;
        }
    }
    true
}

/// Whether process `i` of the first names is process `p` of the second ones, by its name and its variables.
fn is_same_process(first: &Names, i: usize, second: &Names, p: usize) -> bool
    requires first { i < length first.now }
    requires second { p < length second.now }
    ensures { result ≡ true → slice_get first.now i ≡ slice_get second.now p }
{
    is_same_text(first.name(i), second.name(p)) && are_same_texts(first.vars(i), second.vars(p))
}

/// Whether the second names have a process `p`, and process `i` of the first ones is it.
fn is_process(first: &Names, i: usize, second: &Names, p: usize) -> bool
    requires { i < length first.now }
    ensures { result ≡ true → slice_get first.now i ≡ Some (slice_index_or second.now p no_process) }
{
    p < second.processes() && is_same_process(first, i, second, p)
}

/// Whether the first processes are those at these places of the second ones, with the same variables.
pub(crate) fn are_same_names(places: &[usize], first: &Names, second: &Names) -> bool
    ensures { result ≡ true → first.now ≡ at_places places.now second.now no_process }
{
    if first.processes() != places.len() {
        return false;
    }
    for i in 0..places.len() {
        if !is_process(first, i, second, places[i]) {
            return false;
        }
    }
    true
}
