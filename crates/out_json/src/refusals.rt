//! Why a session is refused, as a JSON value.
ghost use Rattle.out_json.specs.JsonReports.{place_data, refusal_data};
ghost use Rattle.pd_report.specs.Views.{named_places_view, refusal_view};
ghost use Rattle.serde_json.specs.View.{view};
ghost use Rattle.std.specs.Prelude.{◌≡◌, map, IfOk};

use super::runs::pair_value;
use pd_report::Refusal;
use serde_json::{Value, json};
use std::alloc::{AllocError, Global};

/// The events of a causal cycle.
fn cycle_values(alloc: Global, places: &[(String, u64)]) -> Result<Vec<Value>, AllocError>
    ensures { IfOk result (λ values. map view values.items ≡ map place_data (named_places_view places.now)) }
{
    let mut values = Vec::new(alloc);
    for (name, number) in places {
        values.push(pair_value(alloc, name.as_str(), *number)?)?;
    }
    Ok(values)
}

/// Why a session is refused.
pub(crate) fn refusal_value(alloc: Global, refusal: &Refusal) -> Result<Value, AllocError>
    ensures { IfOk result (λ value. view value ≡ refusal_data (refusal_view refusal.now)) }
{
    match refusal {
        Refusal::Spec(word) => json!(in alloc; {"family": "document", "word": word}),
        Refusal::Predicate { k, word, at } => {
            json!(in alloc; {"family": "predicate", "word": word, "predicate": *k, "at": *at})
        }
        Refusal::Streams => json!(in alloc; {"family": "streams"}),
        Refusal::Stream { stream, line, word } => {
            json!(in alloc; {"family": "stream", "word": word, "stream": *stream, "line": *line})
        }
        Refusal::Absent(name) => json!(in alloc; {"family": "absent", "process": name}),
        Refusal::Match { word, name, number } => {
            json!(in alloc; {"family": "match", "word": word, "process": name, "event": *number})
        }
        Refusal::Cycle(places) => {
            let events = cycle_values(alloc, places)?;
            json!(in alloc; {"family": "cycle", "events": events})
        }
    }
}
