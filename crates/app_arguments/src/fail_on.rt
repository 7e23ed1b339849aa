//! A list of conditions.
ghost use Rattle.app_arguments.specs.Conditions.{AreLawful, conclusion, conclusion_of_answers, is_met, list_text, reasons, reasons_of, unknown_name};
ghost use Rattle.judge_runs.specs.Wishes.{names_of};
ghost use Rattle.app_arguments.specs.ConditionViews.{conclusion_view, conditions_view, fail_on_view, name_view, reason_view};
ghost use Rattle.pd_report.specs.Reading.{IsFoundAs};
ghost use Rattle.pd_report.specs.Views.{answer_view, report_view};
ghost use Rattle.pd_spec.specs.Named.{named_view};
ghost use Rattle.std.specs.List.{list_any};
ghost use Rattle.std.specs.Prelude.{◌≡◌, [], IfOk, flat_map, is_some, map};

use super::conclusion::Conclusion;
use super::condition::{Condition, condition_of};
use super::reason::Reason;
use pd_report::{Answer, Report};
use pd_spec::NamedPred;
use std::alloc::{AllocError, Global};

/// The answers that a script asks to fail on: a list of conditions, which may be empty.
#[derive(Drop)]
pub struct FailOn<'a> {
    conditions: Vec<Condition<'a>>,
}

/// The conditions of a list, if all of its parts are some.
fn conditions_of(alloc: Global, list: &str) -> Result<Option<Vec<Condition<'_>>>, AllocError>
    ensures { IfOk result (IsFoundAs (λ found. conditions_view found.items) list_text AreLawful list.now) }
{
    let mut conditions = Vec::new(alloc);
    let mut left = list;
    while let Some((first, rest)) = left.split_once(',') {
        let Some(condition) = condition_of(first) else {
            return Ok(None);
        };
        conditions.push(condition)?;
        left = rest;
    }
    let Some(last) = condition_of(left) else {
        return Ok(None);
    };
    conditions.push(last)?;
    Ok(Some(conditions))
}

/// The first name in a condition that is none of these predicates', if there is one.
fn unknown_name<'n>(conditions: &[Condition<'n>], predicates: &[NamedPred]) -> Option<&'n [u8]>
    ensures { name_view result
        ≡ unknown_name (names_of (map named_view predicates.now)) (conditions_view conditions.now) }
{
    for condition in conditions {
        if condition.lacks_predicate(predicates) {
            return condition.name();
        }
    }
    None
}

/// Whether a condition is met.
fn any_met(conditions: &[Condition<'_>], answers: &[Answer]) -> bool
    ensures { result ≡ list_any (is_met (map answer_view answers.now)) (conditions_view conditions.now) }
{
    conditions.iter().any(|condition| condition.is_met(answers))
}

/// What answers come to.
fn conclusion_of(conditions: &[Condition<'_>], answers: &[Answer]) -> Conclusion
    ensures { conclusion_view result
        ≡ conclusion_of_answers (conditions_view conditions.now) (map answer_view answers.now) }
{
    if any_met(conditions, answers) {
        return Conclusion::Met;
    }
    Conclusion::Unmet
}

/// The conditions that are met, each with each answer that meets it.
fn reasons_of<'n, 'a>(
    alloc: Global,
    conditions: &[Condition<'n>],
    answers: &'a [Answer],
) -> Result<Vec<Reason<'n, 'a>>, AllocError>
    ensures { IfOk result (λ found. map reason_view found.items
        ≡ flat_map (reasons_of (map answer_view answers.now)) (conditions_view conditions.now)) }
{
    let mut found = Vec::new(alloc);
    for condition in conditions {
        condition.add_reasons(answers, &mut found)?;
    }
    Ok(found)
}

impl<'a> FailOn<'a> {
    /// No condition.
    pub fn nothing(alloc: Global) -> FailOn<'a>
        ensures { fail_on_view result ≡ [] }
    {
        FailOn {
            conditions: Vec::new(alloc),
        }
    }

    /// The conditions of a list, at least one with a comma between each two, if it is such a list.
    ///
    /// # Errors
    /// An allocation was refused.
    pub fn of(alloc: Global, list: &'a str) -> Result<Option<FailOn<'a>>, AllocError>
        ensures { IfOk result (IsFoundAs fail_on_view list_text AreLawful list.now) }
    {
        let Some(conditions) = conditions_of(alloc, list)? else {
            return Ok(None);
        };
        Ok(Some(FailOn { conditions }))
    }

    /// The first name in a condition that is none of these predicates', if there is one.
    pub fn unknown_name(&self, predicates: &[NamedPred]) -> Option<&'a [u8]>
        ensures { name_view result
            ≡ unknown_name (names_of (map named_view predicates.now)) (fail_on_view self.now) }
    {
        unknown_name(&self.conditions, predicates)
    }

    /// Whether a condition has the name of a predicate.
    pub fn has_names(&self) -> bool
        ensures { result ≡ is_some (unknown_name [] (fail_on_view self.now)) }
    {
        self.unknown_name(&[]).is_some()
    }

    /// What a report comes to under these conditions.
    pub fn conclusion(&self, report: &Report) -> Conclusion
        ensures { conclusion_view result ≡ conclusion (fail_on_view self.now) (report_view report.now) }
    {
        match report {
            Report::Judged { answers, .. } => conclusion_of(&self.conditions, answers),
            Report::Refused(_) => Conclusion::Refused,
        }
    }

    /// The conditions that a report meets, in their order, each with each of the answers that meet it, in theirs.
    ///
    /// # Errors
    /// An allocation was refused.
    pub fn reasons<'r>(
        &self,
        alloc: Global,
        report: &'r Report,
    ) -> Result<Vec<Reason<'a, 'r>>, AllocError>
        ensures { IfOk result (λ found. map reason_view found.items
            ≡ reasons (fail_on_view self.now) (report_view report.now)) }
    {
        match report {
            Report::Judged { answers, .. } => reasons_of(alloc, &self.conditions, answers),
            Report::Refused(_) => Ok(Vec::new(alloc)),
        }
    }
}
