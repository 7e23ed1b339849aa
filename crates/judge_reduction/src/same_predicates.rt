//! Whether a document has the predicates of another one, of which it has some processes.
ghost use Rattle.def_orders.specs.Selections.{numbers_in};
ghost use Rattle.def_recordings.specs.Reductions.{IsSamePredicate};
ghost use Rattle.pd_spec.specs.Named.{named_view};
ghost use Rattle.std.specs.List.{AllZip};
ghost use Rattle.std.specs.Prelude.{◌≡◌, map, true};

use super::same_names::is_same_text;
use super::same_trees::is_same_tree;
use pd_spec::NamedPred;

/// Whether the first predicate is the second one, with its name, if its processes are those at these places of `count`.
fn is_same_named(places: &[usize], count: usize, first: &NamedPred, second: &NamedPred) -> bool
    ensures { result ≡ true
        → IsSamePredicate (numbers_in places.now count) (named_view second.now) (named_view first.now) }
{
    is_same_text(first.name.as_str(), second.name.as_str())
        && is_same_tree(places, count, first.pred.tree(), second.pred.tree())
}

/// Whether the first predicates are the second ones, in the same order and with their names, if their processes are
/// those at these places of `count`.
pub(crate) fn are_same_predicates(
    places: &[usize],
    count: usize,
    first: &[NamedPred],
    second: &[NamedPred],
) -> bool
    ensures { result ≡ true → AllZip (IsSamePredicate (numbers_in places.now count))
        (map named_view second.now) (map named_view first.now) }
{
    if first.len() != second.len() {
        return false;
    }
    for i in 0..first.len() {
        if !is_same_named(places, count, &first[i], &second[i]) {
            return false;
        }
    }
    true
}
