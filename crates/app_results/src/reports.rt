//! Adds the reports of recorded runs that fail to the results of all runs.
ghost use Rattle.app_arguments.specs.Views.{names_view};
ghost use Rattle.app_results.specs.RunReports.{IsLineOf, IsReportOf, IsReportText};
ghost use Rattle.app_test.specs.TestedRuns.{AddsReports, wanted_by};
ghost use Rattle.pd_spec.specs.Views.{options_view};
ghost use Rattle.serde_json.specs.Data.{null};
ghost use Rattle.std.specs.Prelude.{◌≡◌, ◌∷◌, [], IfErr, IfOk, OnOk, true};

use super::run_page::run_object;
use app_arguments::Test;
use app_host::{System, World};
use app_test::wanted_by;
use judge_results::Results;
use judge_session::EngineFault;
use pd_engine::Gate;
use pd_report::push_bytes;
use std::alloc::{AllocError, Global};

/// The line of what stands in place of a report that can't be made.
fn null_text(alloc: Global) -> Result<Vec<u8>, AllocError>
    ensures { IfOk result (λ text. IsLineOf null text.items) }
{
    let mut text = Vec::new(alloc);
    push_bytes(&mut text, b"null\n")?;
    Ok(text)
}

/// The line of the report of the run of this name: the object that `judge` writes of it, for which its files are read
/// once more; or null, if they can't be.
///
/// # Errors
/// `Memory`.
fn report_text<Y: System, G: Gate + Sync>(
    world: &World<'_, Y>,
    name: &str,
    test: &Test<'_>,
    gate: &G,
) -> Result<Vec<u8>, EngineFault>
    ensures report { IfOk result (λ text. IsReportText (Y.Files.file_of world.now.files.now)
        (options_view test.now.options) name.now text.items) }
    ensures err { IfErr result (λ fault. fault ≡ EngineFault.Memory) }
{
    match run_object(world, name, test, gate) {
        Ok(text) => Ok(text),
        Err(EngineFault::Memory) => Err(EngineFault::Memory),
        Err(_) => {
            let text = null_text(world.alloc)?;
            Ok(text)
        }
    }
}

/// Adds the report of the run of this name to the results.
///
/// # Errors
/// `Memory`.
fn add_report<Y: System, G: Gate + Sync>(
    world: &World<'_, Y>,
    name: &str,
    test: &Test<'_>,
    gate: &G,
    results: &mut Results,
) -> Result<(), EngineFault>
    ensures added { OnOk result (AddsReports (IsReportOf (Y.Files.file_of world.now.files.now)
        (options_view test.now.options)) true (name.now ∷ []) results.old results.new) }
    ensures err { IfErr result (λ fault. fault ≡ EngineFault.Memory) }
{
    let text = report_text(world, name, test, gate)?;
    results.add_report(world.alloc, name, &text)?;
    Ok(())
}

/// Adds the reports of the runs of these names, in their order, to the results.
///
/// # Errors
/// `Memory`.
fn add_all<Y: System, G: Gate + Sync>(
    world: &World<'_, Y>,
    names: &[&str],
    test: &Test<'_>,
    gate: &G,
    results: &mut Results,
) -> Result<(), EngineFault>
    ensures added { OnOk result (AddsReports (IsReportOf (Y.Files.file_of world.now.files.now)
        (options_view test.now.options)) true (names_view names.now) results.old results.new) }
    ensures err { IfErr result (λ fault. fault ≡ EngineFault.Memory) }
{
    for name in names {
        add_report(world, name, test, gate, results)?;
    }
    Ok(())
}

/// Adds the reports of the runs of these names, in their order, to the results, if a JSON text is wanted.
///
/// # Errors
/// `Memory`.
pub(crate) fn add_reports<Y: System, G: Gate + Sync>(
    world: &World<'_, Y>,
    names: &[&str],
    test: &Test<'_>,
    gate: &G,
    results: &mut Results,
) -> Result<(), EngineFault>
    ensures added { OnOk result (AddsReports (IsReportOf (Y.Files.file_of world.now.files.now)
        (options_view test.now.options)) (wanted_by test.now).json (names_view names.now) results.old results.new) }
    ensures err { IfErr result (λ fault. fault ≡ EngineFault.Memory) }
{
    if !wanted_by(test).json {
        return Ok(());
    }
    add_all(world, names, test, gate, results)
}
