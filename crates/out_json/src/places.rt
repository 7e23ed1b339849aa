//! What is known of a cut: where the last events before it were recorded, and what variables are worth there.
ghost use Rattle.out_json.specs.JsonReports.{process_field, put_all, value_field, values_data};
ghost use Rattle.out_json.specs.Known.{process_view, value_view};
ghost use Rattle.serde_json.specs.Data.{no_members};
ghost use Rattle.serde_json.specs.View.{members_view, view};
ghost use Rattle.std.specs.Prelude.{◌≡◌, map, IfOk};

use serde_json::{Map, Value, json, put};
use std::alloc::{AllocError, Global};

/// What is known of a process at a cut.
#[derive(Drop)]
pub struct ProcessAt<'a> {
    /// The name of the process.
    pub process: &'a str,
    /// The name of the file and the number of the line in which the last of its events in the cut was recorded.
    pub recorded: Option<(&'a str, u64)>,
    /// What variables of it are worth, each by its name.
    pub values: Vec<(&'a str, i64)>,
}

/// Knows something of cuts.
pub trait Places {
    ghost use Rattle.out_json.specs.JsonReports.{ProcessAt};
    ghost use Rattle.out_json.specs.Known.{known_view};
    ghost use Rattle.std.specs.Prelude.{◌≡◌, ℕ, IfOk, List, Option};

    // What is known of the processes at the cut of the predicate of a name, by its counts.
    ghost known: { Self → List ℕ → List ℕ → Option (List ProcessAt) };

    /// What is known of the processes at the cut with these counts, which is that of the predicate of this name.
    ///
    /// # Errors
    /// Out of memory.
    fn known_at<'a>(
        &'a self,
        alloc: Global,
        name: &str,
        counts: &[u64],
    ) -> Result<Option<Vec<ProcessAt<'a>>>, AllocError>
        ensures { IfOk result (λ found. known_view found ≡ known self.now name.now counts.now) };
}

/// Knows nothing of any cut.
#[derive(Clone, Copy)]
pub struct Nowhere;

impl Places for Nowhere {
    ghost use Rattle.out_json.specs.JsonReports.{nowhere};

    ghost known = { λ _. nowhere };

    fn known_at<'a>(
        &'a self,
        _alloc: Global,
        _name: &str,
        _counts: &[u64],
    ) -> Result<Option<Vec<ProcessAt<'a>>>, AllocError> {
        Ok(None)
    }
}

/// What variables are worth, each under its name.
fn value_fields(alloc: Global, values: &[(&str, i64)]) -> Result<Map<String, Value>, AllocError>
    ensures { IfOk result (λ fields. members_view fields.entries
        ≡ put_all (map value_field (map value_view values.now)) no_members) }
{
    let mut fields = Map::new(alloc);
    for place in 0..values.len() {
        let (name, value) = values[place];
        put(&mut fields, alloc, name, Value::from(value))?;
    }
    Ok(fields)
}

/// What is known of a process at a cut.
fn process_value(alloc: Global, known: &ProcessAt<'_>) -> Result<Value, AllocError>
    ensures { IfOk result (λ value. view value ≡ (process_field (process_view known.now)).1) }
{
    let values = value_fields(alloc, &known.values)?;
    match known.recorded {
        Some((file, line)) => { json!(in alloc; {"file": file, "line": line, "values": values}) }
        None => json!(in alloc; {"values": values}),
    }
}

/// What is known of processes at a cut, each under its name.
pub(crate) fn known_fields(
    alloc: Global,
    known: &[ProcessAt<'_>],
) -> Result<Map<String, Value>, AllocError>
    ensures { IfOk result (λ fields. members_view fields.entries
        ≡ put_all (map process_field (map process_view known.now)) no_members) }
{
    let mut fields = Map::new(alloc);
    for place in 0..known.len() {
        let value = process_value(alloc, &known[place])?;
        put(&mut fields, alloc, known[place].process, value)?;
    }
    Ok(fields)
}
