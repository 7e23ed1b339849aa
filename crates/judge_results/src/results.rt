//! The results of runs, as they are added.
ghost use Rattle.judge_results.specs.Results.{case_text, run_data};
ghost use Rattle.judge_runs.specs.Views.{outcome_view, wishes_view};
ghost use Rattle.serde_json.specs.View.{view};
ghost use Rattle.std.specs.Prelude.{◌≡◌, ◌++◌, ◌∷◌, [], OnOk, map, true};

use super::case::push_case;
use super::reports::push_report;
use super::run_value::run_value;
use super::texts::{json_text, junit_text};
use judge_runs::{Counts, Outcome, Wish};
use serde_json::Value;
use std::alloc::{AllocError, Global};

/// Which texts of the results are wanted.
#[derive(Clone, Copy)]
pub struct Wanted {
    /// Whether the JSON text is.
    pub json: bool,
    /// Whether the XML of JUnit is.
    pub junit: bool,
}

/// The texts of the results; of one that isn't wanted nothing is known.
#[derive(Drop)]
pub struct Texts {
    /// The JSON text.
    pub json: Vec<u8>,
    /// The XML of JUnit.
    pub junit: Vec<u8>,
}

/// The results of the runs so far, as far as they are wanted.
#[derive(Drop)]
pub struct Results {
    wanted: Wanted,
    values: Vec<Value>,
    cases: Vec<u8>,
    /// The reports of runs that fail, each after a comma.
    reports: Vec<u8>,
}

/// Adds the value of the run in this folder, of which this comes, if it is wanted.
fn add_value(
    values: &mut Vec<Value>,
    is_wanted: bool,
    alloc: Global,
    wishes: &[Wish<'_>],
    folder: &str,
    outcome: &Outcome,
) -> Result<(), AllocError>
    ensures { OnOk result (is_wanted ≡ true → map view values.new.items ≡ map view values.old.items
        ++ run_data (wishes_view wishes.now) (record {
          folder = folder.now;
          outcome = outcome_view outcome.now;
        }) ∷ []) }
{
    if is_wanted {
        values.push(run_value(alloc, wishes, folder, outcome)?)?;
    }
    Ok(())
}

/// Adds the test case of the run in this folder, of which this comes, if it is wanted.
fn add_case(
    cases: &mut Vec<u8>,
    is_wanted: bool,
    alloc: Global,
    wishes: &[Wish<'_>],
    folder: &str,
    outcome: &Outcome,
) -> Result<(), AllocError>
    ensures { OnOk result (is_wanted ≡ true → cases.new.items ≡ cases.old.items
        ++ case_text (wishes_view wishes.now) (record {
          folder = folder.now;
          outcome = outcome_view outcome.now;
        })) }
{
    if is_wanted {
        push_case(cases, alloc, wishes, folder, outcome)?;
    }
    Ok(())
}

impl Results {
    ghost use Rattle.def_format.specs.Lines.{line_feed};
    ghost use Rattle.judge_results.specs.Results.{report_data};
    ghost use Rattle.judge_results.specs.ResultsSoFar.{AreResults, AreTexts};
    ghost use Rattle.judge_runs.specs.Runs.{Run};
    ghost use Rattle.judge_runs.specs.Tallies.{AreCounts};
    ghost use Rattle.judge_runs.specs.Views.{outcome_view, wishes_view};
    ghost use Rattle.judge_runs.specs.Wishes.{Condition};
    ghost use Rattle.judge_results.specs.declared.results.Wanted as wanted;
    ghost use Rattle.serde_json.specs.Data.{Data};
    ghost use Rattle.serde_json.specs.Written.{compact_text};
    ghost use Rattle.std.specs.Prelude.{◌≡◌, ◌++◌, ◌∷◌, [], IfOk, List, OnOk};

    /// Of no run.
    pub fn new(alloc: Global, wanted: Wanted) -> Results
        ensures { (wishes : List Condition) → AreResults wanted wishes [] [] result }
    {
        Results {
            wanted,
            values: Vec::new(alloc),
            cases: Vec::new(alloc),
            reports: Vec::new(alloc),
        }
    }

    /// Adds the run in this folder, of which this comes.
    ///
    /// # Errors
    /// Out of memory.
    pub fn add(
        &mut self,
        alloc: Global,
        wishes: &[Wish<'_>],
        folder: &str,
        outcome: &Outcome,
    ) -> Result<(), AllocError>
        ensures { OnOk result ((wanted : wanted.Wanted) (before : List Run) (reports : List Data)
            → AreResults wanted (wishes_view wishes.now) before reports self.old
            → AreResults wanted (wishes_view wishes.now) (before ++ record {
              folder = folder.now;
              outcome = outcome_view outcome.now;
            } ∷ []) reports self.new) }
    {
        let wanted = self.wanted;
        let values = &mut self.values;
        add_value(values, wanted.json, alloc, wishes, folder, outcome)?;
        let cases = &mut self.cases;
        add_case(cases, wanted.junit, alloc, wishes, folder, outcome)?;
        Ok(())
    }

    /// Adds the report of the run of this name. The text is its line, as `judge` writes it: one JSON value and an LF.
    /// It becomes a part of the JSON text as it is.
    ///
    /// # Errors
    /// Out of memory.
    pub fn add_report(&mut self, alloc: Global, name: &str, text: &[u8]) -> Result<(), AllocError>
        ensures { OnOk result ((wanted : wanted.Wanted) (wishes : List Condition) (runs : List Run)
            (reports : List Data) (report : Data) → AreResults wanted wishes runs reports self.old
            → text.now ≡ compact_text report ++ line_feed ∷ []
            → AreResults wanted wishes runs (reports ++ report_data name.now report ∷ []) self.new) }
    {
        push_report(&mut self.reports, alloc, name, text)?;
        Ok(())
    }

    /// The texts of the runs, of which these are the numbers, and which have this many orders, if that is known.
    ///
    /// # Errors
    /// Out of memory.
    pub fn texts(
        self,
        alloc: Global,
        counts: Counts,
        orders: Option<u64>,
    ) -> Result<Texts, AllocError>
        ensures { IfOk result (λ texts. (wanted : wanted.Wanted) (wishes : List Condition) (all : List Run)
            (reports : List Data) → AreResults wanted wishes all reports self → AreCounts wishes all counts
            → AreTexts wanted wishes all reports orders texts) }
    {
        let Results {
            wanted,
            values,
            cases,
            reports,
        } = self;
        let json = json_text(alloc, wanted.json, counts, orders, &reports, values)?;
        let junit = junit_text(alloc, wanted.junit, counts, &cases)?;
        Ok(Texts { json, junit })
    }
}
