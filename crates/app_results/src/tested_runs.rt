//! Tests recorded runs, and writes the pages of those that fail and the files of results, with their reports.
ghost use Rattle.app_arguments.specs.Views.{format_view, names_view};
ghost use Rattle.app_results.specs.RunReports.{IsReportOf};
ghost use Rattle.app_test.specs.Tests.{TestLeaves, test_ending};
ghost use Rattle.judge_runs.specs.Views.{wishes_view};
ghost use Rattle.pd_spec.specs.Views.{options_view};
ghost use Rattle.std.specs.Prelude.{◌≡◌, ◌++◌, ◌+◌, ◌<◌, ◌≤◌, drop, length};

use super::pages::{Pages, add_pages};
use super::reports::add_reports;
use super::result_files::{ResultFiles, save_results};
use app_arguments::Test;
use app_host::{System, World};
use app_test::{Records, Tested, conclude, test_some};
use judge_runs::Conclusion;
use judge_session::EngineFault;
use pd_engine::Gate;
use std::io::Write;

/// The runs from this one on, as many as are judged side by side, or as there are.
fn runs_from<'s, 'f>(runs: &'s [&'f str], from: usize, count: u64) -> &'s [&'f str]
    requires some { from < length runs.now }
    requires many { 1 ≤ count }
    ensures next { result.now ++ drop (from + length result.now) runs.now ≡ drop from runs.now }
    ensures some { 1 ≤ length result.now }
    ensures within { from + length result.now ≤ length runs.now }
{
    let (_, rest) = runs.split_at(from);
    let (some, _) = rest.split_at(rest.len().min(count as usize));
    some
}

/// Tests recorded runs, as `test_files`, whose folder for pages is there, if they are wanted.
///
/// # Errors
/// As `test_files`. That a page or a file of results couldn't be written is no fault yet.
fn test_all<'a, Y: System, G: Gate + Sync, O: Write>(
    world: &World<'_, Y>,
    test: &Test<'a>,
    gate: &G,
    pages: &mut Pages<'a>,
    files: &mut ResultFiles<'a>,
    output: &mut O,
) -> Result<Conclusion, EngineFault>
    ensures { TestLeaves (Y.Files.file_of world.now.files.now) (options_view test.now.options)
        (wishes_view test.now.wishes.items) (format_view test.now.format)
        (IsReportOf (Y.Files.file_of world.now.files.now) (options_view test.now.options))
        (names_view test.now.runs.items) (test_ending result) (O.contents output.old) (O.contents output.new) }
{
    let mut tested = Tested::new(world.alloc, test);
    let mut from = 0;
    while from < test.runs.len() {
        let runs = runs_from(&test.runs, from, test.jobs.count());
        let failing = test_some(world, test, runs, gate, &mut tested, output)?;
        add_reports(world, &failing, test, gate, &mut tested.records.results)?;
        add_pages(world, &failing, test, gate, pages)?;
        from += runs.len();
    }
    let Tested { records, orders } = tested;
    let Records { tally, results } = records;
    let different = orders.count();
    let texts = results.texts(world.alloc, tally.counts(), different)?;
    save_results(world, test, &texts, files);
    conclude(
        world.alloc,
        &tally,
        test.format,
        &texts.json,
        different,
        output,
    )
}

/// Whether pages and files of results can be written, as far as it can be told before a run is judged: the files can be
/// made, and then the folder for the pages is. If not, it is noted why.
fn are_ready<Y: System>(
    world: &World<'_, Y>,
    pages: &mut Pages<'_>,
    files: &mut ResultFiles<'_>,
) -> bool {
    files.try_names(world.files, world.alloc) && pages.make_folder(world.files, world.alloc)
}

/// Whether all pages and files of results are written that are wanted.
fn are_whole(pages: &Pages<'_>, files: &ResultFiles<'_>) -> bool {
    pages.are_whole() && files.are_whole()
}

/// Tests these recorded runs, in their order, some side by side: writes the line of each as soon as those are judged,
/// and the pages of those that fail, if they are wanted; then the files of results that are wanted; then the numbers of
/// all runs, the first lines of those that don't pass, and how many orders the runs have. As JSON it writes one object
/// at the end, and no lines. If a JSON text is wanted, it has the report of each run that fails, as `judge` writes it,
/// for which the files of the run are read once more; or null, if they can't be. The output is flushed after each line
/// and at the end. It gives what the runs come to.
///
/// # Errors
/// `Memory` leaves the lines of the first runs written. `Write` leaves a part of the text written, or all of it if only
/// the last flush failed, or a page or a file of results couldn't be written; nothing, if the folder for the pages or
/// a file of results can't be made.
pub fn test_files<'a, Y: System, G: Gate + Sync, O: Write>(
    world: &World<'_, Y>,
    test: &Test<'a>,
    gate: &G,
    pages: &mut Pages<'a>,
    files: &mut ResultFiles<'a>,
    output: &mut O,
) -> Result<Conclusion, EngineFault>
    ensures { TestLeaves (Y.Files.file_of world.now.files.now) (options_view test.now.options)
        (wishes_view test.now.wishes.items) (format_view test.now.format)
        (IsReportOf (Y.Files.file_of world.now.files.now) (options_view test.now.options))
        (names_view test.now.runs.items) (test_ending result) (O.contents output.old) (O.contents output.new) }
{
    if !are_ready(world, pages, files) {
        return Err(EngineFault::Write);
    }
    let end = test_all(world, test, gate, pages, files, output)?;
    if !are_whole(pages, files) {
        return Err(EngineFault::Write);
    }
    Ok(end)
}
