//! The verdicts on answers, as JSON values.
ghost use Rattle.def_format.specs.OtherTexts.{by_test, verdict_word};
ghost use Rattle.judge_check.specs.Views.{checked_view, verdict_view};
ghost use Rattle.judge_findings.specs.JsonFindings.{checked_data};
ghost use Rattle.serde_json.specs.View.{view};
ghost use Rattle.std.specs.Prelude.{◌≡◌, IfOk, map};

use judge_check::{Checked, Verdict};
use serde_json::{Value, json};
use std::alloc::{AllocError, Global};

/// The word for a verdict.
fn verdict_word(verdict: Verdict) -> &'static str
    ensures { result.now ≡ verdict_word (verdict_view verdict) }
{
    match verdict {
        Verdict::Good => "good",
        Verdict::Bad => "bad",
        Verdict::Unchecked => "unchecked",
    }
}

/// The word for what is good or not.
pub(crate) fn test_word(good: bool) -> &'static str
    ensures { result.now ≡ verdict_word (by_test good) }
{
    if good { "good" } else { "bad" }
}

/// The verdicts on the answers for one predicate.
fn checked_value(alloc: Global, checked: &Checked) -> Result<Value, AllocError>
    ensures { IfOk result (λ value. view value ≡ checked_data (checked_view checked.now)) }
{
    let possibly = verdict_word(checked.possibly);
    let definitely = verdict_word(checked.definitely);
    json!(in alloc; {"name": &checked.name, "possibly": possibly, "definitely": definitely})
}

/// The verdicts on answers.
pub(crate) fn checked_values(alloc: Global, answers: &[Checked]) -> Result<Vec<Value>, AllocError>
    ensures { IfOk result (λ values. map view values.items ≡ map checked_data (map checked_view answers.now)) }
{
    let mut values = Vec::new(alloc);
    for checked in answers {
        values.push(checked_value(alloc, checked)?)?;
    }
    Ok(values)
}
