//! The faults of a document of right shape, but for those in the texts of predicates.
ghost use Rattle.std.specs.Prelude.{◌≡◌, ◌||◌, length, map, string_bytes, ◌&&◌, IfOk, IfErr, OnOk, None, option_map};
ghost use Rattle.std.specs.List.{list_all};
ghost use Rattle.std.specs.BTreeMap.{keys};
ghost use Rattle.serde_json.specs.Find.{as_i64};
ghost use Rattle.serde_json.specs.View.{view};
ghost use Rattle.def_format.specs.Documents.{has_twice, is_within, outline_fault, predicate_names, process_names, vars_fit, width_fits};
ghost use Rattle.def_format.specs.Limits.{predicate_limit};
ghost use Rattle.def_format.specs.Names.{is_name};
ghost use Rattle.pd_spec.specs.Faults.{IsFaultFound};
ghost use Rattle.pd_spec.specs.Outlines.{process_view, predicate_outline_view, outline_view, has_names};

use super::SpecFault;
use super::fields::are_whole;
use super::outline::{Outline, PredicateOutline, ProcessOutline};
use super::twice::has_twice;
use def_format::{PREDICATE_LIMIT, VAR_LIMIT, WIDTH_LIMIT};
use pd_pred::is_name;
use serde_json::{Map, Value};
use std::alloc::{AllocError, Global};

fn process_names<'a>(
    alloc: Global,
    processes: &[ProcessOutline<'a>],
) -> Result<Vec<&'a str>, AllocError>
    ensures { IfOk result (λ names. names.items ≡ map (λ process. process.name) processes.now) }
{
    processes.iter().map(|process| process.name).collect(alloc)
}

fn predicate_names<'a>(
    alloc: Global,
    predicates: &[PredicateOutline<'a>],
) -> Result<Vec<&'a str>, AllocError>
    ensures { IfOk result (λ names. names.items ≡ map (λ predicate. predicate.name) predicates.now) }
{
    predicates
        .iter()
        .map(|predicate| predicate.name)
        .collect(alloc)
}

fn processes_have_twice(alloc: Global, processes: &[ProcessOutline]) -> Result<bool, AllocError>
    ensures { IfOk result (λ twice. twice ≡ has_twice (map (λ process. process.0) (map process_view processes.now))) }
{
    let names = process_names(alloc, processes)?;
    has_twice(alloc, &names)
}

fn predicates_have_twice(alloc: Global, predicates: &[PredicateOutline]) -> Result<bool, AllocError>
    ensures { IfOk result (λ twice. twice
        ≡ has_twice (map (λ predicate. predicate.0) (map predicate_outline_view predicates.now))) }
{
    let names = predicate_names(alloc, predicates)?;
    has_twice(alloc, &names)
}

fn are_var_names(vars: &Map<String, Value>) -> bool
    ensures { result ≡ list_all (λ key. is_name (string_bytes key)) (keys vars.now) }
{
    vars.keys().all(|key| is_name(key.as_bytes()))
}

fn processes_are_named(processes: &[ProcessOutline]) -> bool
    ensures { result ≡ list_all (λ process. is_name process.name.now) processes.now }
{
    processes
        .iter()
        .all(|process| is_name(process.name.as_bytes()))
}

fn vars_are_named(processes: &[ProcessOutline]) -> bool
    ensures { result ≡ list_all (λ process. list_all (λ key. is_name (string_bytes key)) (keys process.vars.now))
        processes.now }
{
    processes.iter().all(|process| are_var_names(process.vars))
}

fn predicates_are_named(predicates: &[PredicateOutline]) -> bool
    ensures { result ≡ list_all (λ predicate. is_name predicate.name.now) predicates.now }
{
    predicates
        .iter()
        .all(|predicate| is_name(predicate.name.as_bytes()))
}

fn vars_fit(process: &ProcessOutline) -> bool
    ensures { result ≡ vars_fit (process_view process.now) }
{
    process.vars.len() <= VAR_LIMIT && are_whole(process.vars)
}

fn all_vars_fit(processes: &[ProcessOutline]) -> bool
    ensures { result ≡ list_all (λ process. vars_fit (process_view process)) processes.now }
{
    processes.iter().all(|process| vars_fit(process))
}

fn width_fits(width: Option<&Value>) -> bool
    ensures { result ≡ width_fits (option_map (λ value. view value.now) width.entry) }
{
    match width {
        None => true,
        Some(value) => match value.as_i64() {
            Some(width) => 1 <= width && width <= WIDTH_LIMIT as i64,
            None => false,
        },
    }
}

impl Outline<'_> {
    fn processes_fit(&self, limit: usize) -> bool
        ensures { result ≡ is_within 1 limit (length (outline_view self.now).processes) }
    {
        1 <= self.processes.len() && self.processes.len() <= limit
    }

    fn is_named(&self) -> bool
        ensures { result ≡ has_names (outline_view self.now) }
    {
        processes_are_named(&self.processes)
            && vars_are_named(&self.processes)
            && predicates_are_named(&self.predicates)
    }

    fn has_name_twice(&self, alloc: Global) -> Result<bool, AllocError>
        ensures { IfOk result (λ twice. twice
            ≡ (has_twice (process_names (outline_view self.now))
            || has_twice (predicate_names (outline_view self.now)))) }
    {
        if processes_have_twice(alloc, &self.processes)? {
            return Ok(true);
        }
        predicates_have_twice(alloc, &self.predicates)
    }

    fn vars_fit(&self) -> bool
        ensures { result ≡ list_all vars_fit (outline_view self.now).processes }
    {
        all_vars_fit(&self.processes)
    }

    fn predicates_fit(&self) -> bool
        ensures { result ≡ is_within 1 predicate_limit (length (outline_view self.now).predicates) }
    {
        1 <= self.predicates.len() && self.predicates.len() <= PREDICATE_LIMIT
    }

    /// Whether the outline has no fault, if it may have this many processes.
    ///
    /// # Errors
    /// The first fault of the outline, or out of memory.
    pub(crate) fn check(&self, alloc: Global, limit: usize) -> Result<(), SpecFault>
        ensures ok { OnOk result (outline_fault limit (outline_view self.now) ≡ None) }
        ensures err { IfErr result (λ fault. IsFaultFound fault (outline_fault limit (outline_view self.now))) }
    {
        if !self.processes_fit(limit) {
            return Err(SpecFault::Processes);
        }
        if !self.is_named() {
            return Err(SpecFault::Name);
        }
        if self.has_name_twice(alloc)? {
            return Err(SpecFault::NameTwice);
        }
        if !self.vars_fit() {
            return Err(SpecFault::Vars);
        }
        if !self.predicates_fit() {
            return Err(SpecFault::Predicates);
        }
        if !width_fits(self.width) {
            return Err(SpecFault::Width);
        }
        Ok(())
    }
}
