//! Both texts, by what they are made of.
ghost use Rattle.judge_results.specs.Results.{counts_data, first_fields, junit_by, junit_head, numbered, orders_data, outcome_word, results_json, run_data};
ghost use Rattle.judge_results.specs.ResultsSoFar.{joined_text, listed};
ghost use Rattle.judge_runs.specs.Runs.{Run, conclusion};
ghost use Rattle.judge_runs.specs.Tallies.{AreCounts};
ghost use Rattle.judge_runs.specs.Wishes.{Condition};
ghost use Rattle.serde_json.specs.Data.{Data, array, no_members, object};
ghost use Rattle.serde_json.specs.View.{items_of, view};
ghost use Rattle.serde_json.specs.Written.{compact_text, items_have_float};
ghost use Rattle.std.specs.Prelude.{◌≡◌, ◌++◌, IfOk, List, OnOk, false, map, true};

use super::reports::{without_begin, without_end};
use judge_runs::Counts;
use pd_report::{push_bytes, push_number};
use serde_json::{Value, json};
use std::alloc::{AllocError, Global};

/// The word for what runs come to together.
fn outcome_word(counts: Counts) -> &'static str
    ensures { (wishes : List Condition) (runs : List Run) → AreCounts wishes runs counts
        → result.now ≡ outcome_word (conclusion wishes runs) }
{
    if counts.fail > 0 {
        return "fail";
    }
    if counts.not_judged > 0 {
        return "not judged";
    }
    "pass"
}

/// The numbers of runs.
fn counts_value(alloc: Global, counts: Counts) -> Result<Value, AllocError>
    ensures { IfOk result (λ value. view value
        ≡ counts_data counts.all counts.fail counts.not_judged counts.pass) }
{
    json!(in alloc; {
        "all": counts.all,
        "fail": counts.fail,
        "not_judged": counts.not_judged,
        "pass": counts.pass
    })
}

/// How many orders the runs have, if it is known.
fn orders_value(orders: Option<u64>) -> Value
    ensures { view result ≡ orders_data orders }
{
    match orders {
        Some(number) => Value::from(number),
        None => Value::Null,
    }
}

/// An object of the first fields of runs of which these are the numbers and the number of orders.
fn head_value(alloc: Global, counts: Counts, orders: Option<u64>) -> Result<Value, AllocError>
    ensures { IfOk result (λ value. (wishes : List Condition) (all : List Run) → AreCounts wishes all counts
        → view value ≡ object (first_fields (counts_data counts.all counts.fail counts.not_judged counts.pass)
        (orders_data orders) (conclusion wishes all) no_members)) }
{
    let numbers = counts_value(alloc, counts)?;
    let different = orders_value(orders);
    let outcome = outcome_word(counts);
    json!(in alloc; {
        "counts": numbers,
        "format": 1u64,
        "orders": different,
        "outcome": outcome
    })
}

/// The JSON text of an array of these values.
fn array_text(alloc: Global, values: Vec<Value>) -> Result<Vec<u8>, AllocError>
    ensures { IfOk result (λ text. items_have_float (items_of (map view values.items)) ≡ false
        → text.items ≡ compact_text (array (items_of (map view values.items)))) }
{
    let value = Value::from(values);
    let text = value.to_vec(alloc)?;
    Ok(text)
}

/// The JSON text by the text of an object of the first fields, the reports, each after a comma, and the text of the
/// runs.
fn joined_text(
    alloc: Global,
    head: &[u8],
    reports: &[u8],
    runs: &[u8],
) -> Result<Vec<u8>, AllocError>
    ensures { IfOk result (λ text. text.items ≡ joined_text head.now reports.now runs.now) }
{
    let mut out = Vec::new(alloc);
    push_bytes(&mut out, without_end(head))?;
    push_bytes(&mut out, b",\"reports\":[")?;
    push_bytes(&mut out, without_begin(reports))?;
    push_bytes(&mut out, b"],\"runs\":")?;
    push_bytes(&mut out, runs)?;
    push_bytes(&mut out, b"}\n")?;
    Ok(out)
}

/// The JSON text of runs of which these are the numbers, the number of orders, the values, and the reports, each after
/// a comma, if it is wanted.
///
/// # Errors
/// Out of memory.
pub(crate) fn json_text(
    alloc: Global,
    is_wanted: bool,
    counts: Counts,
    orders: Option<u64>,
    reports: &[u8],
    runs: Vec<Value>,
) -> Result<Vec<u8>, AllocError>
    ensures { IfOk result (λ text. is_wanted ≡ true → (wishes : List Condition) (all : List Run) (datas : List Data)
        → AreCounts wishes all counts → map view runs.items ≡ map (run_data wishes) all
        → reports.now ≡ listed datas → text.items ≡ results_json wishes all datas orders) }
{
    if !is_wanted {
        return Ok(Vec::new(alloc));
    }
    let value = head_value(alloc, counts, orders)?;
    let head = value.to_vec(alloc)?;
    let values = array_text(alloc, runs)?;
    let text = joined_text(alloc, &head, reports, &values)?;
    Ok(text)
}

/// Appends a word and a number.
#[tactic(auto, unfolding(crate::specs::Results::numbered))]
fn push_field(out: &mut Vec<u8>, word: &str, number: u64) -> Result<(), AllocError>
    ensures { OnOk result (out.new.items ≡ out.old.items ++ numbered word.now number) }
{
    push_bytes(out, word.as_bytes())?;
    push_number(out, number)
}

/// Appends what stands before the test cases.
fn push_head(out: &mut Vec<u8>, counts: Counts) -> Result<(), AllocError>
    ensures { OnOk result (out.new.items
        ≡ out.old.items ++ junit_head counts.all counts.fail counts.not_judged) }
{
    push_bytes(out, b"<?xml version=\"1.0\" encoding=\"UTF-8\"?>\n")?;
    push_field(out, "<testsuite name=\"monitor\" tests=\"", counts.all)?;
    push_field(out, "\" failures=\"", counts.fail)?;
    push_field(out, "\" errors=\"", counts.not_judged)?;
    push_bytes(out, b"\">\n")?;
    Ok(())
}

/// The XML of runs of which these are the numbers and the test cases, if it is wanted.
///
/// # Errors
/// Out of memory.
pub(crate) fn junit_text(
    alloc: Global,
    is_wanted: bool,
    counts: Counts,
    cases: &[u8],
) -> Result<Vec<u8>, AllocError>
    ensures { IfOk result (λ text. is_wanted ≡ true
        → text.items ≡ junit_by (junit_head counts.all counts.fail counts.not_judged) cases.now) }
{
    let mut out = Vec::new(alloc);
    if !is_wanted {
        return Ok(out);
    }
    push_head(&mut out, counts)?;
    push_bytes(&mut out, cases)?;
    push_bytes(&mut out, b"</testsuite>\n")?;
    Ok(out)
}
