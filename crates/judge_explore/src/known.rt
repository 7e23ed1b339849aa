//! What is known of the cuts of a session's answers.
ghost use Rattle.def_model.specs.Events.{event_count, events_of};
ghost use Rattle.def_model.specs.Predicates.{state_at};
ghost use Rattle.judge_explore.specs.Known.{nobody, predicate_named, process_at, processes_at, recorded_at, source_at, under_name};
ghost use Rattle.out_json.specs.Known.{line_view, process_view, value_view};
ghost use Rattle.out_page.specs.Views.{source_view, sources_view};
ghost use Rattle.pd_pred.specs.Trees.{tree_view};
ghost use Rattle.pd_spec.specs.Named.{named_view};
ghost use Rattle.std.specs.Prelude.{◌≡◌, ◌<◌, ◌≤◌, [], IfOk, length, map, option_map, position, slice_get, slice_index, slice_index_or, string_bytes, take};
ghost use Rattle.std.specs.Str.{bytes_eq};

use def_model::Values;
use judge_facts::named_values;
use out_json::{Places, ProcessAt};
use out_page::Source;
use pd_clock::Computation;
use pd_pred::{Names, Tree};
use pd_spec::{NamedPred, Spec};
use std::alloc::{AllocError, Global};

/// The state at a cut with these counts.
#[derive(Clone, Copy)]
struct CutValues<'a, 'c> {
    computation: &'a Computation<'c>,
    counts: &'a [u64],
}

/// The count of this number, or 0 if there is none.
fn count_at(counts: &[u64], p: usize) -> u64
    ensures { result ≡ slice_index counts.now p }
{
    match counts.get(p) {
        Some(count) => *count,
        None => 0,
    }
}

/// How many of the first events of a process there are, of so many.
fn count_within(computation: &Computation<'_>, p: usize, count: u64) -> u64
    ensures few { p < length computation.now.events → result ≤ event_count computation.now.events p }
    ensures same { take result (events_of computation.now.events p) ≡ take count (events_of computation.now.events p) }
{
    if p < computation.processes() {
        return count.min(computation.events(p));
    }
    count
}

impl Values for CutValues<'_, '_> {
    ghost state = { λ s. state_at s.computation.now.initial s.computation.now.events s.counts.now };

    fn value(&self, process: usize, var: usize) -> i64 {
        let count = count_within(self.computation, process, count_at(self.counts, process));
        self.computation.value(process, count, var)
    }
}

/// The name of the variable of this number.
fn name_at(vars: &[String], var: usize) -> &str
    ensures { result.now ≡ slice_index_or (map string_bytes vars.now) var [] }
{
    match vars.get(var) {
        Some(name) => name.as_str(),
        None => "",
    }
}

/// The values of variables, each under its name.
fn under_names<'a>(
    alloc: Global,
    vars: &'a [String],
    values: &[(usize, i64)],
) -> Result<Vec<(&'a str, i64)>, AllocError>
    ensures { IfOk result (λ found. map value_view found.items
        ≡ map (under_name (map string_bytes vars.now)) values.now) }
{
    let mut found = Vec::with_capacity(alloc, values.len())?;
    for (var, value) in values {
        found.push((name_at(vars, *var), *value))?;
    }
    Ok(found)
}

/// The line of the event of this number, counted from 1, if it is known.
fn line_in<'a>(source: &Source<'a>, number: u64) -> Option<(&'a str, u64)>
    ensures { option_map line_view result ≡ recorded_at (source_view source.now) number }
{
    let index = number.checked_sub(1)?;
    let line = source.lines.get(index as usize)?;
    Some((source.name, *line))
}

/// The file and the line of the event of this number, counted from 1, of this process, if they are known.
fn recorded_at<'a>(sources: &[Source<'a>], p: usize, number: u64) -> Option<(&'a str, u64)>
    ensures { option_map line_view result ≡ recorded_at (source_at (sources_view sources.now) p) number }
{
    let source = sources.get(p)?;
    line_in(source, number)
}

/// The name of a process.
fn process_name(names: &Names, p: usize) -> &str
    requires { p < length names.now }
    ensures { result.now ≡ (slice_index_or names.now p nobody).name }
{
    names.name(p)
}

/// The names of a process's variables.
fn vars_of(names: &Names, p: usize) -> &[String]
    requires { p < length names.now }
    ensures { map string_bytes result.now ≡ (slice_index_or names.now p nobody).vars }
{
    names.vars(p)
}

/// What is known of a process at a cut with these counts and values.
fn process_at<'a, V: Values>(
    alloc: Global,
    names: &'a Names,
    tree: &Tree,
    values: &V,
    sources: &[Source<'a>],
    counts: &[u64],
    p: usize,
) -> Result<ProcessAt<'a>, AllocError>
    requires { p < length names.now }
    ensures { IfOk result (λ known. process_view known ≡ process_at (tree_view tree.now) (V.state values.now)
        (sources_view sources.now) counts.now p (slice_index_or names.now p nobody)) }
{
    let vars = vars_of(names, p);
    let found = named_values(alloc, tree, values, p, vars.len())?;
    let values = under_names(alloc, vars, &found)?;
    Ok(ProcessAt {
        process: process_name(names, p),
        recorded: recorded_at(sources, p, count_at(counts, p)),
        values,
    })
}

/// What is known of all processes at a cut with these counts and values.
fn processes_at<'a, V: Values>(
    alloc: Global,
    names: &'a Names,
    tree: &Tree,
    values: &V,
    sources: &[Source<'a>],
    counts: &[u64],
) -> Result<Vec<ProcessAt<'a>>, AllocError>
    ensures { IfOk result (λ known. map process_view known.items ≡ processes_at (tree_view tree.now)
        (V.state values.now) (sources_view sources.now) counts.now 0 names.now) }
{
    let mut known = Vec::with_capacity(alloc, names.processes())?;
    for p in 0..names.processes() {
        known.push(process_at(alloc, names, tree, values, sources, counts, p)?)?;
    }
    Ok(known)
}

/// The place of the first predicate of this name.
fn place_of(predicates: &[NamedPred], name: &str) -> Option<usize>
    ensures { result ≡ position (λ predicate. bytes_eq (string_bytes predicate.name) name.now) predicates.now }
{
    predicates
        .iter()
        .position(|predicate| predicate.name.as_str() == name)
}

/// The predicate at this place.
fn predicate_at(predicates: &[NamedPred], place: usize) -> Option<&NamedPred>
    ensures { option_map (λ found. named_view found.now) result ≡ slice_get (map named_view predicates.now) place }
{
    predicates.get(place)
}

/// The first predicate of this name.
fn predicate_named<'a>(predicates: &'a [NamedPred], name: &str) -> Option<&'a NamedPred>
    ensures { option_map (λ found. named_view found.now) result
        ≡ predicate_named (map named_view predicates.now) name.now }
{
    match place_of(predicates, name) {
        Some(place) => predicate_at(predicates, place),
        None => None,
    }
}

/// Knows, of the cuts of the answers on a document, what is recorded of its events, and where.
#[derive(Clone, Copy)]
pub(crate) struct CutPlaces<'a, 'c> {
    /// The document.
    pub(crate) spec: &'a Spec,
    /// Where the events of each process were recorded.
    pub(crate) sources: &'a [Source<'a>],
    /// The events.
    pub(crate) computation: &'a Computation<'c>,
}

impl Places for CutPlaces<'_, '_> {
    ghost use Rattle.judge_explore.specs.Known.{known_by};
    ghost use Rattle.out_page.specs.Views.{sources_view};
    ghost use Rattle.pd_spec.specs.Views.{document_view};

    ghost known = { λ s. known_by (document_view s.spec.now).names (document_view s.spec.now).predicates
        (sources_view s.sources.now) s.computation.now };

    fn known_at<'k>(
        &'k self,
        alloc: Global,
        name: &str,
        counts: &[u64],
    ) -> Result<Option<Vec<ProcessAt<'k>>>, AllocError> {
        let Some(predicate) = predicate_named(self.spec.predicates(), name) else {
            return Ok(None);
        };
        let values = CutValues {
            computation: self.computation,
            counts,
        };
        let (tree, names) = (predicate.pred.tree(), self.spec.names());
        let known = processes_at(alloc, names, tree, &values, self.sources, counts)?;
        Ok(Some(known))
    }
}
