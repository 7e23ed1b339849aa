//! Whether a predicate has few terms.
ghost use Rattle.def_model.specs.Decided.{HasFewTerms};
ghost use Rattle.def_wide.specs.Parts.{opposite_if};
ghost use Rattle.pd_pred.specs.Trees.{tree_view};
ghost use Rattle.std.specs.Prelude.{◌↔◌, IsTrue};

use super::local::is_local;
use super::term_count::count;
use pd_pred::Tree;

/// How many terms a predicate may have that is answered by its terms.
pub const TERM_LIMIT: u64 = 4_096;

/// Whether each comparison of a predicate speaks of one process at most, and it has no more than `TERM_LIMIT` terms, or
/// its opposite has where `negated`.
pub fn has_few_terms(tree: &Tree, negated: bool) -> bool
    ensures { IsTrue result ↔ HasFewTerms (opposite_if negated (tree_view tree.now)) }
{
    is_local(tree) && count(tree, negated) <= TERM_LIMIT
}
