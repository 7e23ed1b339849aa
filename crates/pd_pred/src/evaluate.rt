//! What a predicate means at a state.
ghost use Rattle.def_model.specs.Predicates as model;
ghost use Rattle.def_model.specs.Predicates.{holds_at};
ghost use Rattle.pd_pred.specs.Trees.{comparison_view, sign_view, sum_view, term_view, tree_view};
ghost use Rattle.std.specs.Int.RustNames.{unsigned_abs};
ghost use Rattle.std.specs.Prelude.{◌≡◌, ◌<◌, ◌^◌};

use super::tree::{Comparison, Sign, SignedTerm, Sum, Term, Tree};
use def_model::Values;

/// Whether the predicate is true at the state.
pub(crate) fn holds<V: Values>(tree: &Tree, values: &V) -> bool
    ensures { result ≡ holds_at (V.state values.now) (tree_view tree.now) }
{
    match tree {
        Tree::Always => true,
        Tree::Never => false,
        Tree::Compare {
            left,
            comparison,
            right,
        } => compares(
            *comparison,
            sum_value(left, values),
            sum_value(right, values),
        ),
        Tree::Not(inner) => !holds(inner, values),
        Tree::And(left, right) => holds(left, values) && holds(right, values),
        Tree::Or(left, right) => holds(left, values) || holds(right, values),
    }
}

/// The value of a term, without its sign.
fn term_value<V: Values>(term: Term, values: &V) -> i128
    ensures value { result ≡ model.term_value (V.state values.now) (term_view term) }
    ensures bound { unsigned_abs result < 2 ^ 95 }
{
    match term {
        Term::Number(number) => i128::from(number),
        Term::Variable { process, var } => i128::from(values.value(process, var)),
        Term::Times {
            factor,
            process,
            var,
        } => i128::from(factor) * i128::from(values.value(process, var)),
    }
}

/// The value of a term with its sign.
fn signed_value<V: Values>(signed: SignedTerm, values: &V) -> i128
    ensures value { result ≡ model.signed (sign_view signed.sign)
        (model.term_value (V.state values.now) (term_view signed.term)) }
    ensures bound { unsigned_abs result < 2 ^ 95 }
{
    let value = term_value(signed.term, values);
    match signed.sign {
        Sign::Plus => value,
        Sign::Minus => 0 - value,
    }
}

/// The value of a sum, without bound: 128 bits hold it.
fn sum_value<V: Values>(sum: &Sum, values: &V) -> i128
    ensures { result ≡ model.sum_value (V.state values.now) (sum_view sum.now) }
{
    let mut total = 0;
    for term in &sum.terms {
        total += signed_value(*term, values);
    }
    total
}

fn compares(comparison: Comparison, x: i128, y: i128) -> bool
    ensures { result ≡ model.compares (comparison_view comparison) x y }
{
    match comparison {
        Comparison::Equals => x == y,
        Comparison::Differs => x != y,
        Comparison::IsLess => x < y,
        Comparison::IsAtMost => x <= y,
        Comparison::IsGreater => x > y,
        Comparison::IsAtLeast => x >= y,
    }
}
