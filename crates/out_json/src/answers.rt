//! The answers of a report, as JSON values.
ghost use Rattle.out_json.specs.JsonReports.{answer_data, answered, definitely_data, field, number_data, possibly_data, with_counts, yes_data};
ghost use Rattle.pd_report.specs.Views.{answer_view, definitely_view, possibly_view};
ghost use Rattle.serde_json.specs.Data.{no_members};
ghost use Rattle.serde_json.specs.View.{members_view, view};
ghost use Rattle.std.specs.Prelude.{◌≡◌, map, IfOk};

use super::places::{Places, known_fields};
use super::runs::path_runs;
use pd_pred::Names;
use pd_report::{Answer, Definitely, Possibly};
use serde_json::{Map, Value, json, put};
use std::alloc::{AllocError, Global};

/// The counts of a cut, each under the name of its process.
fn cut_fields(
    alloc: Global,
    names: &Names,
    counts: &[u64],
) -> Result<Map<String, Value>, AllocError>
    ensures { IfOk result (λ fields. members_view fields.entries ≡ with_counts names.now counts.now no_members) }
{
    let mut fields = Map::new(alloc);
    let known = names.processes().min(counts.len());
    for process in 0..known {
        put(
            &mut fields,
            alloc,
            names.name(process),
            Value::from(counts[process]),
        )?;
    }
    Ok(fields)
}

/// That it is unknown, by this level.
fn unknown_value(alloc: Global, level: u64) -> Result<Value, AllocError>
    ensures { IfOk result (λ value. view value ≡ answered "unknown" (field "level" (number_data level) no_members)) }
{
    json!(in alloc; {"answer": "unknown", "level": level})
}

/// That a cut with these counts satisfies the predicate of this name, and what is known of it.
fn yes_value<P: Places>(
    alloc: Global,
    names: &Names,
    places: &P,
    name: &str,
    counts: &[u64],
) -> Result<Value, AllocError>
    ensures { IfOk result (λ value. view value ≡ yes_data names.now (P.known places.now name.now) counts.now) }
{
    let cut = cut_fields(alloc, names, counts)?;
    match places.known_at(alloc, name, counts)? {
        Some(known) => {
            let known = known_fields(alloc, &known)?;
            json!(in alloc; {"answer": "yes", "at": known, "cut": cut})
        }
        None => json!(in alloc; {"answer": "yes", "cut": cut}),
    }
}

/// Whether the predicate of this name possibly holds.
fn possibly_value<P: Places>(
    alloc: Global,
    names: &Names,
    places: &P,
    name: &str,
    possibly: &Possibly,
) -> Result<Value, AllocError>
    ensures { IfOk result (λ value. view value ≡ possibly_data names.now (P.known places.now name.now)
        (possibly_view possibly.now)) }
{
    match possibly {
        Possibly::Yes(counts) => yes_value(alloc, names, places, name, counts),
        Possibly::No => json!(in alloc; {"answer": "no"}),
        Possibly::Unknown(level) => unknown_value(alloc, *level),
    }
}

/// Whether a predicate definitely holds.
fn definitely_value(alloc: Global, definitely: &Definitely) -> Result<Value, AllocError>
    ensures { IfOk result (λ value. view value ≡ definitely_data (definitely_view definitely.now)) }
{
    match definitely {
        Definitely::Yes(level) => json!(in alloc; {"answer": "yes", "level": *level}),
        Definitely::No(path) => {
            let path = path_runs(alloc, path)?;
            json!(in alloc; {"answer": "no", "path": path})
        }
        Definitely::Unknown(level) => unknown_value(alloc, *level),
    }
}

/// The answers for one predicate.
fn answer_value<P: Places>(
    alloc: Global,
    names: &Names,
    places: &P,
    answer: &Answer,
) -> Result<Value, AllocError>
    ensures { IfOk result (λ value. view value
        ≡ answer_data names.now (P.known places.now) (answer_view answer.now)) }
{
    let possibly = possibly_value(alloc, names, places, &answer.name, &answer.possibly)?;
    let definitely = definitely_value(alloc, &answer.definitely)?;
    json!(in alloc; {"name": &answer.name, "possibly": possibly, "definitely": definitely})
}

/// The answers of a report.
pub(crate) fn answer_values<P: Places>(
    alloc: Global,
    names: &Names,
    places: &P,
    answers: &[Answer],
) -> Result<Vec<Value>, AllocError>
    ensures { IfOk result (λ values. map view values.items
        ≡ map (answer_data names.now (P.known places.now)) (map answer_view answers.now)) }
{
    let mut values = Vec::new(alloc);
    for answer in answers {
        values.push(answer_value(alloc, names, places, answer)?)?;
    }
    Ok(values)
}
