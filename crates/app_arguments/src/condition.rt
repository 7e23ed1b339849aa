//! One condition.
ghost use Rattle.app_arguments.specs.Conditions.{IsLawful, condition_text, is_asked_for, is_met, lacks_predicate, reasons_of};
ghost use Rattle.judge_runs.specs.Wishes.{is_for, names_of};
ghost use Rattle.app_arguments.specs.ConditionViews.{IsNamed, IsOnName, condition_view, name_view, reason_view};
ghost use Rattle.def_format.specs.Lists.{is_one_of};
ghost use Rattle.pd_report.specs.Reading.{IsFoundAs};
ghost use Rattle.pd_report.specs.Views.{answer_view};
ghost use Rattle.pd_spec.specs.Named.{named_view};
ghost use Rattle.std.specs.List.{list_any};
ghost use Rattle.std.specs.Prelude.{◌≡◌, ◌++◌, OnOk, map, string_bytes};
ghost use Rattle.std.specs.Str.{bytes_eq};

use super::kind::{Kind, is_of_kind, kind_of};
use super::reason::Reason;
use judge_runs::has_name;
use pd_pred::is_name;
use pd_report::Answer;
use pd_spec::NamedPred;
use std::alloc::AllocError;

/// The answers of a kind, of the predicate of a name, or of any if there is no name.
#[derive(Drop)]
pub(crate) struct Condition<'a> {
    /// The predicate's name.
    name: Option<&'a [u8]>,
    /// The kind.
    kind: Kind,
}

/// The condition on the predicate of this name, or on any.
fn condition_on<'a>(name: Option<&'a [u8]>, word: &[u8]) -> Option<Condition<'a>>
    ensures { IsOnName (name_view name.entry) word.now result }
{
    let Some(kind) = kind_of(word) else {
        return None;
    };
    Some(Condition { name, kind })
}

/// The condition on the predicate of this name, if it is one that a predicate may have.
fn named_condition<'a>(name: &'a [u8], word: &[u8]) -> Option<Condition<'a>>
    ensures { IsNamed name.now word.now result }
{
    if !is_name(name) {
        return None;
    }
    condition_on(Some(name), word)
}

/// The condition with this text, if there is one.
pub(crate) fn condition_of(text: &str) -> Option<Condition<'_>>
    ensures { IsFoundAs condition_view condition_text IsLawful text.now result }
{
    let Some((name, word)) = text.split_once(':') else {
        return condition_on(None, text.as_bytes());
    };
    named_condition(name.as_bytes(), word.as_bytes())
}

/// Whether an answer is that of the predicate of this name, or of any if there is no name.
fn is_of_name(name: Option<&[u8]>, answer: &Answer) -> bool
    ensures { result ≡ is_for (name_view name.entry) (answer_view answer.now) }
{
    match name {
        Some(name) => answer.name.as_bytes() == name,
        None => true,
    }
}

impl<'n> Condition<'n> {
    /// Whether an answer is one of those that it asks for.
    fn asks_for(&self, answer: &Answer) -> bool
        ensures { result ≡ is_asked_for (condition_view self.now) (answer_view answer.now) }
    {
        is_of_name(self.name, answer) && is_of_kind(self.kind, answer)
    }

    /// Whether one of the answers is one of those that it asks for.
    pub(crate) fn is_met(&self, answers: &[Answer]) -> bool
        ensures { result ≡ is_met (map answer_view answers.now) (condition_view self.now) }
    {
        answers.iter().any(|answer| self.asks_for(answer))
    }

    /// Adds each of the answers that it asks for, in their order, as a reason to fail.
    ///
    /// # Errors
    /// Out of memory; what was added until then stays.
    pub(crate) fn add_reasons<'a>(
        &self,
        answers: &'a [Answer],
        reasons: &mut Vec<Reason<'n, 'a>>,
    ) -> Result<(), AllocError>
        ensures { OnOk result (map reason_view reasons.new.items ≡ map reason_view reasons.old.items
            ++ reasons_of (map answer_view answers.now) (condition_view self.now)) }
    {
        for answer in answers {
            if self.asks_for(answer) {
                let (name, kind) = (self.name, self.kind);
                reasons.push(Reason { name, kind, answer })?;
            }
        }
        Ok(())
    }

    /// The name of the predicate that it is on, if it has one.
    pub(crate) fn name(&self) -> Option<&'n [u8]>
        ensures { name_view result ≡ (condition_view self.now).name }
    {
        self.name
    }

    /// Whether it names a predicate that isn't among these.
    pub(crate) fn lacks_predicate(&self, predicates: &[NamedPred]) -> bool
        ensures { result ≡ lacks_predicate (names_of (map named_view predicates.now)) (condition_view self.now) }
    {
        match self.name {
            Some(name) => !has_name(predicates, name),
            None => false,
        }
    }
}
