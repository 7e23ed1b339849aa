//! An observation's events, by how many of one process follow one another.
ghost use Rattle.out_json.specs.JsonReports.{pair_data, run_data, runs, runs_from};
ghost use Rattle.pd_report.specs.Steps.{AreBelow, name_at, names_at, names_view};
ghost use Rattle.serde_json.specs.View.{view};
ghost use Rattle.std.specs.Prelude.{◌≡◌, ◌<◌, ◌+◌, ◌++◌, ◌∷◌, ◌^◌, ℕ, List, [], length, map, IfOk, OnOk};

use pd_report::Path;
use serde_json::{Value, json};
use std::alloc::{AllocError, Global};

/// A name with a number.
pub(crate) fn pair_value(alloc: Global, name: &str, number: u64) -> Result<Value, AllocError>
    ensures { IfOk result (λ value. view value ≡ pair_data name.now number) }
{
    json!(in alloc; [name, number])
}

/// Appends a run: a name with how many events of its process follow one another.
fn push_run(alloc: Global, runs: &mut Vec<Value>, name: &str, count: u64) -> Result<(), AllocError>
    ensures { OnOk result (map view runs.new.items ≡ map view runs.old.items
        ++ run_data (record { name = name.now; count = count }) ∷ []) }
{
    runs.push(pair_value(alloc, name, count)?)?;
    Ok(())
}

/// How many events the last run has after this one, whose process may be another: then the run before is appended.
fn push_event(
    alloc: Global,
    runs: &mut Vec<Value>,
    last: &str,
    count: u64,
    next: &str,
) -> Result<u64, AllocError>
    requires { count + 1 < 2 ^ 64 }
    ensures small { IfOk result (λ longer. longer < count + 2) }
    ensures runs { IfOk result (λ longer. (others : List (List ℕ))
        → map view runs.new.items ++ map run_data (runs_from next.now longer others)
        ≡ map view runs.old.items ++ map run_data (runs_from last.now count (next.now ∷ others))) }
{
    if next == last {
        return Ok(count + 1);
    }
    push_run(alloc, runs, last, count)?;
    Ok(1)
}

/// The name at this place.
fn name_of(names: &[String], step: usize) -> &str
    requires { step < length names.now }
    ensures { result.now ≡ name_at (names_view names.now) step }
{
    names[step].as_str()
}

/// The runs of the events whose processes have the names at these places.
fn runs_at(alloc: Global, names: &[String], steps: &[usize]) -> Result<Vec<Value>, AllocError>
    requires { AreBelow (length names.now) steps.now }
    ensures { IfOk result (λ values. map view values.items
        ≡ map run_data (runs (names_at (names_view names.now) steps.now))) }
{
    let mut runs = Vec::new(alloc);
    let Some((first, others)) = steps.split_first() else {
        return Ok(runs);
    };
    let mut last = *first;
    let mut count = 1u64;
    for step in others {
        count = push_event(
            alloc,
            &mut runs,
            name_of(names, last),
            count,
            name_of(names, *step),
        )?;
        last = *step;
    }
    push_run(alloc, &mut runs, name_of(names, last), count)?;
    Ok(runs)
}

/// The runs of an observation's events.
pub(crate) fn path_runs(alloc: Global, path: &Path) -> Result<Vec<Value>, AllocError>
    ensures { IfOk result (λ values. map view values.items ≡ map run_data (runs path.now)) }
{
    let (names, steps) = path.parts();
    runs_at(alloc, names, steps)
}
