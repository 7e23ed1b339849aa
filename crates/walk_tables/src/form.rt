//! Whether a predicate or its opposite is compiled.
use super::clauses::CLAUSE_LIMIT;
use pd_pred::Tree;

/// What a compiled predicate is made of, as far as its tree says: how many clauses it begins with, and how many other
/// parts it has.
#[derive(Clone, Copy)]
struct Form {
    clauses: u64,
    others: u64,
}

/// How many parts the form has, at most the greatest `u64`. Clauses that are asked together are one.
fn parts(form: Form) -> u64 {
    form.others
        .saturating_add(form.clauses.div_ceil(CLAUSE_LIMIT))
}

/// Whether the form is one clause.
fn is_clause(form: Form) -> bool {
    form.clauses == 1 && form.others == 0
}

/// Both forms joined by an `and`.
fn both(left: Form, right: Form) -> Form {
    Form {
        clauses: left.clauses.saturating_add(right.clauses),
        others: left.others.saturating_add(right.others),
    }
}

/// Both forms joined by an `or`, which is one clause if both are.
fn either(left: Form, right: Form) -> Form {
    if is_clause(left) && is_clause(right) {
        return left;
    }
    Form {
        clauses: 0,
        others: parts(left).saturating_add(parts(right)),
    }
}

/// The form of a predicate, or that of its opposite where `negated`, if each comparison is a clause.
fn form_of(tree: &Tree, negated: bool) -> Form {
    match tree {
        Tree::Not(inner) => form_of(inner, !negated),
        Tree::And(left, right) => {
            let left = form_of(left, negated);
            let right = form_of(right, negated);
            if negated {
                either(left, right)
            } else {
                both(left, right)
            }
        }
        Tree::Or(left, right) => {
            let left = form_of(left, negated);
            let right = form_of(right, negated);
            if negated {
                both(left, right)
            } else {
                either(left, right)
            }
        }
        _ => Form {
            clauses: 1,
            others: 0,
        },
    }
}

/// Whether the opposite of a predicate has fewer parts than the predicate. It is a measure, and nothing is promised of
/// it: either form gives the same answers.
pub(crate) fn is_better_negated(tree: &Tree) -> bool {
    parts(form_of(tree, true)) < parts(form_of(tree, false))
}
