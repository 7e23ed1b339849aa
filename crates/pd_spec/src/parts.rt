//! The names and the initial values of a document, made from its outline.
ghost use Rattle.std.specs.Prelude.{◌≡◌, IfOk, false, map, string_bytes};
ghost use Rattle.std.specs.BTreeMap.{keys, values};
ghost use Rattle.serde_json.specs.View.{view};
ghost use Rattle.def_format.specs.Documents.{has_twice, initial_of, names_of_outline, process_names};
ghost use Rattle.pd_pred.specs.Names.{entry_view, entries_view};
ghost use Rattle.pd_spec.specs.Outlines.{process_view, outline_view, entry_in, row_in, initial_value, HasDistinctVars, AllHaveDistinctVars, AreDistinctTexts};

use super::outline::{Outline, ProcessOutline};
use pd_pred::{Names, ProcessNames};
use serde_json::{Map, Value};
use std::alloc::{AllocError, Global};

fn var_names(alloc: Global, vars: &Map<String, Value>) -> Result<Vec<String>, AllocError>
    ensures names { IfOk result (λ names. map string_bytes names.items ≡ map string_bytes (keys vars.now)) }
    ensures distinct { IfOk result (λ names. AreDistinctTexts (map string_bytes names.items)) }
{
    let mut names = Vec::new(alloc);
    for key in vars.keys() {
        names.push(key.clone()?)?;
    }
    Ok(names)
}

fn process_entry(alloc: Global, process: &ProcessOutline) -> Result<ProcessNames, AllocError>
    ensures names { IfOk result (λ names. entry_view names ≡ entry_in (process_view process.now)) }
    ensures distinct { IfOk result (λ names. HasDistinctVars (entry_view names)) }
{
    let name = String::from_str(alloc, process.name)?;
    let vars = var_names(alloc, process.vars)?;
    Ok(ProcessNames { name, vars })
}

fn process_entries(
    alloc: Global,
    processes: &[ProcessOutline],
) -> Result<Vec<ProcessNames>, AllocError>
    ensures names { IfOk result (λ names. entries_view names.items ≡ map entry_in (map process_view processes.now)) }
    ensures distinct { IfOk result (λ names. AllHaveDistinctVars (entries_view names.items)) }
{
    let mut names = Vec::new(alloc);
    for process in processes {
        names.push(process_entry(alloc, process)?)?;
    }
    Ok(names)
}

fn whole_number_or_zero(value: &Value) -> i64
    ensures { result ≡ initial_value (view value.now) }
{
    value.as_i64().unwrap_or(0)
}

fn initial_row(alloc: Global, vars: &Map<String, Value>) -> Result<Vec<i64>, AllocError>
    ensures { IfOk result (λ row. row.items ≡ map (λ value. initial_value (view value)) (values vars.now)) }
{
    let mut row = Vec::new(alloc);
    for value in vars.values() {
        row.push(whole_number_or_zero(value))?;
    }
    Ok(row)
}

fn initial_rows(alloc: Global, processes: &[ProcessOutline]) -> Result<Vec<Vec<i64>>, AllocError>
    ensures { IfOk result (λ rows. map (λ row. row.items) rows.items ≡ map row_in (map process_view processes.now)) }
{
    let mut rows = Vec::new(alloc);
    for process in processes {
        rows.push(initial_row(alloc, process.vars)?)?;
    }
    Ok(rows)
}

impl Outline<'_> {
    /// The processes and their variables. No two processes have one name.
    pub(crate) fn names(&self, alloc: Global) -> Result<Names, AllocError>
        requires { has_twice (process_names (outline_view self.now)) ≡ false }
        ensures { IfOk result (λ names. names ≡ names_of_outline (outline_view self.now)) }
    {
        let processes = process_entries(alloc, &self.processes)?;
        Ok(Names::new(processes))
    }

    /// The initial values, in a row for each process.
    pub(crate) fn initial(&self, alloc: Global) -> Result<Vec<Vec<i64>>, AllocError>
        ensures { IfOk result (λ rows. map (λ row. row.items) rows.items ≡ initial_of (outline_view self.now)) }
    {
        initial_rows(alloc, &self.processes)
    }
}
