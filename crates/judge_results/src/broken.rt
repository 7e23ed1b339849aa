//! The answers that aren't as wished, as JSON values.
ghost use Rattle.judge_results.specs.Results.{answer_word, broken_data, broken_datas, datas_by, question};
ghost use Rattle.judge_runs.specs.Views.{wish_kind_view, wish_view, wishes_view};
ghost use Rattle.pd_report.specs.Views.{answer_view};
ghost use Rattle.serde_json.specs.View.{view};
ghost use Rattle.std.specs.Prelude.{◌≡◌, ◌++◌, IfOk, OnOk, map};

use judge_runs::{Wish, WishKind, definitely_word, possibly_word};
use pd_report::Answer;
use serde_json::{Value, json};
use std::alloc::{AllocError, Global};

/// The question that decides about a wish.
fn question(kind: WishKind) -> &'static str
    ensures { result.now ≡ question (wish_kind_view kind) }
{
    match kind {
        WishKind::Always => "definitely",
        WishKind::Never | WishKind::Sometimes => "possibly",
    }
}

/// The word of the answer to that question.
#[tactic(auto, using(crate::proofs::Words::first_of))]
fn answer_word(kind: WishKind, answer: &Answer) -> &'static str
    ensures { result.now ≡ answer_word (wish_kind_view kind) (answer_view answer.now) }
{
    match kind {
        WishKind::Always => definitely_word(&answer.definitely),
        WishKind::Never | WishKind::Sometimes => possibly_word(&answer.possibly),
    }
}

/// An answer that isn't as wished.
fn broken_value(alloc: Global, kind: WishKind, answer: &Answer) -> Result<Value, AllocError>
    ensures { IfOk result (λ value. view value ≡ broken_data (wish_kind_view kind) (answer_view answer.now)) }
{
    let (question, word) = (question(kind), answer_word(kind, answer));
    json!(in alloc; {"answer": word, "predicate": &answer.name, "question": question})
}

/// Adds the answers that aren't as wished by this wish.
fn add_broken(
    alloc: Global,
    wish: &Wish<'_>,
    answers: &[Answer],
    found: &mut Vec<Value>,
) -> Result<(), AllocError>
    ensures { OnOk result (map view found.new.items
        ≡ map view found.old.items ++ datas_by (map answer_view answers.now) (wish_view wish.now)) }
{
    for answer in answers {
        if wish.is_broken(answer) {
            found.push(broken_value(alloc, wish.kind, answer)?)?;
        }
    }
    Ok(())
}

/// The answers that aren't as wished: for each wish, in their order, those of its predicates.
///
/// # Errors
/// Out of memory.
pub(crate) fn broken_values(
    alloc: Global,
    wishes: &[Wish<'_>],
    answers: &[Answer],
) -> Result<Vec<Value>, AllocError>
    ensures { IfOk result (λ found. map view found.items
        ≡ broken_datas (wishes_view wishes.now) (map answer_view answers.now)) }
{
    let mut found = Vec::new(alloc);
    for wish in wishes {
        add_broken(alloc, wish, answers, &mut found)?;
    }
    Ok(found)
}
