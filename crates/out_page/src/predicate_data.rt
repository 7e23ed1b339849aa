//! A predicate's tree.
ghost use Rattle.out_page.specs.JsonTexts.{array, listed};
ghost use Rattle.out_page.specs.PredicateData.{comparison_word, joined, predicate_text, sign_text, term_fields, term_text};
ghost use Rattle.pd_pred.specs.Trees.{comparison_view, sign_view, signed_term_view, sum_view, term_view, terms_view, tree_view};
ghost use Rattle.std.specs.Prelude.{◌≡◌, ◌++◌, OnOk};

use super::json_texts::push_index;
use pd_pred::{Comparison, Sign, SignedTerm, Sum, Term, Tree};
use pd_report::{push_bytes, push_number};
use std::alloc::AllocError;

/// The text of a sign.
fn sign_text(sign: Sign) -> &'static [u8]
    ensures { result.now ≡ sign_text (sign_view sign) }
{
    match sign {
        Sign::Plus => b"\"+\"",
        Sign::Minus => b"\"-\"",
    }
}

/// The word for a comparison.
fn comparison_word(comparison: Comparison) -> &'static [u8]
    ensures { result.now ≡ comparison_word (comparison_view comparison) }
{
    match comparison {
        Comparison::Equals => b"equals",
        Comparison::Differs => b"differs",
        Comparison::IsLess => b"less",
        Comparison::IsAtMost => b"at most",
        Comparison::IsGreater => b"greater",
        Comparison::IsAtLeast => b"at least",
    }
}

/// Appends a term without its sign.
#[tactic(auto, unfolding(crate::specs::PredicateData::term_fields))]
fn push_term_fields(out: &mut Vec<u8>, term: Term) -> Result<(), AllocError>
    ensures { OnOk result (out.new.items ≡ out.old.items ++ term_fields (term_view term)) }
{
    match term {
        Term::Number(number) => {
            push_bytes(out, b",\"")?;
            push_number(out, number)?;
            push_bytes(out, b"\"")
        }
        Term::Variable { process, var } => {
            push_bytes(out, b",")?;
            push_index(out, process)?;
            push_bytes(out, b",")?;
            push_index(out, var)
        }
        Term::Times {
            factor,
            process,
            var,
        } => {
            push_bytes(out, b",\"")?;
            push_number(out, u64::from(factor))?;
            push_bytes(out, b"\",")?;
            push_index(out, process)?;
            push_bytes(out, b",")?;
            push_index(out, var)
        }
    }
}

/// Appends a term.
fn push_term(out: &mut Vec<u8>, signed: SignedTerm) -> Result<(), AllocError>
    ensures { OnOk result (out.new.items ≡ out.old.items ++ term_text (signed_term_view signed)) }
{
    push_bytes(out, b"[")?;
    push_bytes(out, sign_text(signed.sign))?;
    push_term_fields(out, signed.term)?;
    push_bytes(out, b"]")
}

/// Appends terms with a comma between each two.
fn push_terms(out: &mut Vec<u8>, terms: &[SignedTerm]) -> Result<(), AllocError>
    ensures { OnOk result (out.new.items ≡ out.old.items ++ listed term_text (terms_view terms.now)) }
{
    let Some((first, others)) = terms.split_first() else {
        return Ok(());
    };
    push_term(out, *first)?;
    for term in others {
        push_bytes(out, b",")?;
        push_term(out, *term)?;
    }
    Ok(())
}

/// Appends a sum.
fn push_sum(out: &mut Vec<u8>, sum: &Sum) -> Result<(), AllocError>
    ensures { OnOk result (out.new.items ≡ out.old.items ++ array term_text (sum_view sum.now)) }
{
    push_bytes(out, b"[")?;
    push_terms(out, &sum.terms)?;
    push_bytes(out, b"]")
}

/// Appends a comparison of two sums.
fn push_comparison(
    out: &mut Vec<u8>,
    comparison: Comparison,
    left: &Sum,
    right: &Sum,
) -> Result<(), AllocError>
    ensures { OnOk result (out.new.items ≡ out.old.items
        ++ joined (comparison_word (comparison_view comparison)) (array term_text (sum_view left.now))
        (array term_text (sum_view right.now))) }
{
    push_bytes(out, b"[\"")?;
    push_bytes(out, comparison_word(comparison))?;
    push_bytes(out, b"\",")?;
    push_sum(out, left)?;
    push_bytes(out, b",")?;
    push_sum(out, right)?;
    push_bytes(out, b"]")
}

/// Appends the tree of a predicate.
pub(crate) fn push_predicate(out: &mut Vec<u8>, tree: &Tree) -> Result<(), AllocError>
    ensures { OnOk result (out.new.items ≡ out.old.items ++ predicate_text (tree_view tree.now)) }
{
    match tree {
        Tree::Always => push_bytes(out, b"[\"true\"]"),
        Tree::Never => push_bytes(out, b"[\"false\"]"),
        Tree::Compare {
            left,
            comparison,
            right,
        } => push_comparison(out, *comparison, left, right),
        Tree::Not(inner) => {
            push_bytes(out, b"[\"not\",")?;
            push_predicate(out, inner)?;
            push_bytes(out, b"]")
        }
        Tree::And(left, right) => {
            push_bytes(out, b"[\"and\",")?;
            push_predicate(out, left)?;
            push_bytes(out, b",")?;
            push_predicate(out, right)?;
            push_bytes(out, b"]")
        }
        Tree::Or(left, right) => {
            push_bytes(out, b"[\"or\",")?;
            push_predicate(out, left)?;
            push_bytes(out, b",")?;
            push_predicate(out, right)?;
            push_bytes(out, b"]")
        }
    }
}
