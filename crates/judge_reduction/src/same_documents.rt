//! Whether a document has some processes of another one, and its predicates.
ghost use Rattle.judge_reduction.specs.ReadSessions.{AreAlike};
ghost use Rattle.pd_spec.specs.Views.{document_view};
ghost use Rattle.std.specs.Prelude.{◌≡◌, true};

use super::same_names::are_same_names;
use super::same_predicates::are_same_predicates;
use super::same_values::are_same_rows;
use pd_spec::Spec;

/// Whether the document that was made has the processes at these places of the other one, with their variables and
/// initial values, and its predicates.
pub(crate) fn are_alike(places: &[usize], made: &Spec, spec: &Spec) -> bool
    ensures { result ≡ true → AreAlike places.now (document_view made.now) (document_view spec.now) }
{
    let count = spec.names().processes();
    are_same_names(places, made.names(), spec.names())
        && are_same_rows(places, made.initial_rows(), spec.initial_rows())
        && are_same_predicates(places, count, made.predicates(), spec.predicates())
}
