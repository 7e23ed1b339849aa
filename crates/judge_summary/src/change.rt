//! What a line adds to a summary.
ghost use Rattle.judge_summary.specs.Summaries.{all_predicate_counts, answer_at, answer_change, answer_counts, error_change, failing_in, fields_change, is_answer, line_change, number_in, numbers_at, numbers_of, object_at, predicate_counts, predicates_counts, predicates_in, summary_change, once, whole};
ghost use Rattle.judge_summary.specs.Views.{change_view, numbered_view};
ghost use Rattle.serde_json.specs.Find.{as_str, get_member};
ghost use Rattle.serde_json.specs.View.{items_view, members_view, view};
ghost use Rattle.std.specs.Prelude.{◌≡◌, ◌++◌, ◌∷◌, [], codes, decimal, map, string_bytes, option_and_then, option_map, IfOk, OnOk};

use itoa::Buffer;
use pd_spec::{json_value, value_at};
use serde_json::{Map, Value};
use std::alloc::{AllocError, Global};

/// What a line adds to a summary: texts, each as often as its number says.
#[derive(Drop)]
pub(crate) struct Change {
    /// To the counts.
    pub(crate) counts: Vec<(String, u64)>,
    /// To the ids that fail.
    pub(crate) failing: Vec<(String, u64)>,
}

/// The text that stands at this field, if one does.
fn text_at<'a>(fields: &'a Map<String, Value>, name: &str) -> Option<&'a str>
    ensures { option_map (λ text. text.now) result
        ≡ option_and_then as_str (get_member name.now (members_view fields.now.entries)) }
{
    value_at(fields, name)?.as_str()
}

/// The object that stands at this field, if one does.
fn object_at<'a>(fields: &'a Map<String, Value>, name: &str) -> Option<&'a Map<String, Value>>
    ensures { option_map (λ object. members_view object.now.entries) result
        ≡ object_at name.now (members_view fields.now.entries) }
{
    value_at(fields, name)?.as_object()
}

/// The members of an object, as a list.
fn entries_of(
    alloc: Global,
    fields: &Map<String, Value>,
) -> Result<Vec<(&String, &Value)>, AllocError>
    ensures { IfOk result (λ entries. map (λ entry. (entry.0.now, entry.1.now)) entries.items ≡ fields.now.entries) }
{
    fields.iter().collect(alloc)
}

/// Adds a number under its name. The result is whether it is a whole number from 0 to 2^64 - 1.
fn push_number(
    alloc: Global,
    numbers: &mut Vec<(String, u64)>,
    name: &String,
    value: &Value,
) -> Result<Option<()>, AllocError>
    ensures { IfOk result (λ found. option_map (λ _. numbered_view numbers.new.items) found
        ≡ option_map (λ more. numbered_view numbers.old.items ++ more) (number_in (string_bytes name.now)
        (view value.now))) }
{
    let Some(number) = value.as_u64() else {
        return Ok(None);
    };
    numbers.push((String::from_str(alloc, name.as_str())?, number))?;
    Ok(Some(()))
}

/// The numbers of these members, each under its name, if each is a whole number from 0 to 2^64 - 1.
fn numbers_from(
    alloc: Global,
    entries: &[(&String, &Value)],
) -> Result<Option<Vec<(String, u64)>>, AllocError>
    ensures { IfOk result (λ found. option_map (λ numbers. numbered_view numbers.items) found
        ≡ numbers_of (members_view (map (λ entry. (entry.0.now, entry.1.now)) entries.now))) }
{
    let mut numbers = Vec::new(alloc);
    for (name, value) in entries {
        let found = push_number(alloc, &mut numbers, name, value)?;
        match found {
            Some(()) => {}
            None => return Ok(None),
        }
    }
    Ok(Some(numbers))
}

/// The numbers of an object, each under its name, if each is a whole number from 0 to 2^64 - 1.
fn numbers_of(
    alloc: Global,
    fields: &Map<String, Value>,
) -> Result<Option<Vec<(String, u64)>>, AllocError>
    ensures { IfOk result (λ found. option_map (λ numbers. numbered_view numbers.items) found
        ≡ numbers_of (members_view fields.now.entries)) }
{
    let entries = entries_of(alloc, fields)?;
    numbers_from(alloc, &entries)
}

/// The numbers of the object at this field, if it has one.
fn numbers_at(
    alloc: Global,
    fields: &Map<String, Value>,
    name: &str,
) -> Result<Option<Vec<(String, u64)>>, AllocError>
    ensures { IfOk result (λ found. option_map (λ numbers. numbered_view numbers.items) found
        ≡ numbers_at name.now (members_view fields.now.entries)) }
{
    match object_at(fields, name) {
        Some(object) => numbers_of(alloc, object),
        None => Ok(None),
    }
}

/// What a summary adds.
fn summary_change(alloc: Global, fields: &Map<String, Value>) -> Result<Option<Change>, AllocError>
    ensures { IfOk result (λ found. option_map change_view found ≡ summary_change (members_view fields.now.entries)) }
{
    let Some(counts) = numbers_at(alloc, fields, "counts")? else {
        return Ok(None);
    };
    let Some(failing) = numbers_at(alloc, fields, "failing")? else {
        return Ok(None);
    };
    Ok(Some(Change { counts, failing }))
}

/// A text once more.
fn push_once(alloc: Global, texts: &mut Vec<(String, u64)>, text: &str) -> Result<(), AllocError>
    ensures { OnOk result (numbered_view texts.new.items ≡ numbered_view texts.old.items ++ once text.now ∷ []) }
{
    texts.push((String::from_str(alloc, text)?, 1))?;
    Ok(())
}

/// The id of a run, once, or nothing, if it has none; its id has to be a text.
fn failing_in(
    alloc: Global,
    fields: &Map<String, Value>,
) -> Result<Option<Vec<(String, u64)>>, AllocError>
    ensures { IfOk result (λ found. option_map (λ numbers. numbered_view numbers.items) found
        ≡ failing_in (members_view fields.now.entries)) }
{
    let mut failing = Vec::new(alloc);
    let Some(value) = value_at(fields, "id") else {
        return Ok(Some(failing));
    };
    let Some(id) = value.as_str() else {
        return Ok(None);
    };
    push_once(alloc, &mut failing, id)?;
    Ok(Some(failing))
}

/// What an error adds.
fn error_change(alloc: Global, fields: &Map<String, Value>) -> Result<Option<Change>, AllocError>
    ensures { IfOk result (λ found. option_map change_view found ≡ error_change (members_view fields.now.entries)) }
{
    let Some(_error) = text_at(fields, "error") else {
        return Ok(None);
    };
    let Some(failing) = failing_in(alloc, fields)? else {
        return Ok(None);
    };
    let mut counts = Vec::new(alloc);
    push_once(alloc, &mut counts, "runs")?;
    push_once(alloc, &mut counts, "errors")?;
    Ok(Some(Change { counts, failing }))
}

/// Whether it is one of the three answers.
fn is_answer(word: &str) -> bool
    ensures { result ≡ is_answer word.now }
{
    word == "yes" || word == "no" || word == "unknown"
}

/// The answer at this field of a predicate.
fn answer_at<'a>(fields: &'a Map<String, Value>, name: &str) -> Option<&'a str>
    ensures { option_map (λ word. word.now) result ≡ answer_at name.now (members_view fields.now.entries) }
{
    let word = text_at(object_at(fields, name)?, "answer")?;
    if is_answer(word) { Some(word) } else { None }
}

/// One answer for a predicate, once more.
fn push_answer(
    alloc: Global,
    texts: &mut Vec<(String, u64)>,
    name: &str,
    question: &str,
    word: &str,
) -> Result<(), AllocError>
    ensures { OnOk result (numbered_view texts.new.items
        ≡ numbered_view texts.old.items ++ once (name.now ++ question.now ++ word.now) ∷ []) }
{
    let mut text = String::from_str(alloc, name)?;
    text.push_str(question)?;
    text.push_str(word)?;
    texts.push((text, 1))?;
    Ok(())
}

/// Adds both answers for a predicate. The result is whether it has the shape of one.
fn push_predicate(
    alloc: Global,
    texts: &mut Vec<(String, u64)>,
    value: &Value,
) -> Result<Option<()>, AllocError>
    ensures { IfOk result (λ found. option_map (λ _. numbered_view texts.new.items) found
        ≡ option_map (λ more. numbered_view texts.old.items ++ more) (predicate_counts (view value.now))) }
{
    let Some(fields) = value.as_object() else {
        return Ok(None);
    };
    let Some(name) = text_at(fields, "name") else {
        return Ok(None);
    };
    let Some(possibly) = answer_at(fields, "possibly") else {
        return Ok(None);
    };
    let Some(definitely) = answer_at(fields, "definitely") else {
        return Ok(None);
    };
    push_answer(alloc, texts, name, " possibly ", possibly)?;
    push_answer(alloc, texts, name, " definitely ", definitely)?;
    Ok(Some(()))
}

/// The answers for predicates, if each has the shape of one.
fn predicate_counts(
    alloc: Global,
    predicates: &[Value],
) -> Result<Option<Vec<(String, u64)>>, AllocError>
    ensures { IfOk result (λ found. option_map (λ numbers. numbered_view numbers.items) found
        ≡ all_predicate_counts (items_view predicates.now)) }
{
    let mut counts = Vec::new(alloc);
    for predicate in predicates {
        let found = push_predicate(alloc, &mut counts, predicate)?;
        match found {
            Some(()) => {}
            None => return Ok(None),
        }
    }
    Ok(Some(counts))
}

/// The predicates of a report, if it has any.
fn predicates_in(fields: &Map<String, Value>) -> Option<&Vec<Value>>
    ensures { option_map (λ values. items_view values.now.items) result
        ≡ predicates_in (members_view fields.now.entries) }
{
    value_at(object_at(fields, "report")?, "predicates")?.as_array()
}

/// The answers for the predicates of a report, if it has any, and each has the shape of one.
fn answers_in(
    alloc: Global,
    fields: &Map<String, Value>,
) -> Result<Option<Vec<(String, u64)>>, AllocError>
    ensures { IfOk result (λ found. option_map (λ numbers. numbered_view numbers.items) found
        ≡ predicates_counts (predicates_in (members_view fields.now.entries))) }
{
    match predicates_in(fields) {
        Some(predicates) => predicate_counts(alloc, predicates),
        None => Ok(Some(Vec::new(alloc))),
    }
}

/// An exit status, once more.
fn push_status(alloc: Global, texts: &mut Vec<(String, u64)>, status: u64) -> Result<(), AllocError>
    ensures { OnOk result (numbered_view texts.new.items
        ≡ numbered_view texts.old.items ++ once (codes "status " ++ decimal status) ∷ []) }
{
    let mut text = String::from_str(alloc, "status ")?;
    text.push_str(Buffer::new().format(status))?;
    texts.push((text, 1))?;
    Ok(())
}

/// The number at this field, if it is a whole number from 0 to 2^64 - 1.
fn number_at(fields: &Map<String, Value>, name: &str) -> Option<u64>
    ensures { result ≡ option_and_then whole (get_member name.now (members_view fields.now.entries)) }
{
    value_at(fields, name)?.as_u64()
}

/// What an answer adds.
fn answer_change(alloc: Global, fields: &Map<String, Value>) -> Result<Option<Change>, AllocError>
    ensures { IfOk result (λ found. option_map change_view found ≡ answer_change (members_view fields.now.entries)) }
{
    let Some(status) = number_at(fields, "status") else {
        return Ok(None);
    };
    let Some(answers) = answers_in(alloc, fields)? else {
        return Ok(None);
    };
    let Some(id) = failing_in(alloc, fields)? else {
        return Ok(None);
    };
    let mut counts = answers;
    push_once(alloc, &mut counts, "runs")?;
    push_status(alloc, &mut counts, status)?;
    let failing = if status == 0 { Vec::new(alloc) } else { id };
    Ok(Some(Change { counts, failing }))
}

/// What a summary, an error or an answer adds.
fn fields_change(alloc: Global, fields: &Map<String, Value>) -> Result<Option<Change>, AllocError>
    ensures { IfOk result (λ found. option_map change_view found ≡ fields_change (members_view fields.now.entries)) }
{
    if let Some(change) = summary_change(alloc, fields)? {
        return Ok(Some(change));
    }
    if let Some(change) = error_change(alloc, fields)? {
        return Ok(Some(change));
    }
    answer_change(alloc, fields)
}

/// What a line adds that isn't blank, if it is a summary, an error or an answer.
///
/// # Errors
/// If memory runs out.
pub(crate) fn line_change(alloc: Global, line: &[u8]) -> Result<Option<Change>, AllocError>
    ensures { IfOk result (λ found. option_map change_view found ≡ line_change line.now) }
{
    let Some(value) = json_value(alloc, line)? else {
        return Ok(None);
    };
    match value.as_object() {
        Some(fields) => fields_change(alloc, fields),
        None => Ok(None),
    }
}
