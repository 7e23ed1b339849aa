//! Tests runs, some at a time.
ghost use Rattle.app_arguments.specs.Formats.{Json};
ghost use Rattle.app_arguments.specs.Views.{format_view, names_view};
ghost use Rattle.app_test.specs.Jobs.{run_of, runs_of};
ghost use Rattle.app_test.specs.TestedRuns.{EndsTest, IsConcluded, LeavesMore, LeavesRuns, TestsMore, WritesResult, WritesRuns, end_in, lines_in, lists_failing};
ghost use Rattle.judge_results.specs.Results.{results_json};
ghost use Rattle.judge_runs.specs.Runs.{Run, line_of};
ghost use Rattle.judge_runs.specs.Tallies.{Stands, summary_text};
ghost use Rattle.judge_shared.specs.Sharing.{AreSound};
ghost use Rattle.serde_json.specs.Data.{Data};
ghost use Rattle.app_test.specs.Tests.{IsRunIn, failing_in, fails_run, orders_text};
ghost use Rattle.std.specs.List.{AllZip};
ghost use Rattle.judge_runs.specs.Views.{wishes_view};
ghost use Rattle.judge_runs.specs.Wishes as wished;
ghost use Rattle.pd_spec.specs.Views.{options_view};
ghost use Rattle.std.specs.Io.KnownBytes.{Appends};
ghost use Rattle.std.specs.Prelude.{◌≡◌, ◌++◌, ◌∷◌, [], IfErr, IfOk, IsOkUnless, List, OnErr, OnOk, length, take, true, ℕ};

use super::jobs::trials_of_jobs;
use super::records::{Records, Tested, lists_failing};
use super::run::jobs_of;
use app_arguments::{Format, Test};
use app_host::{System, World, write_flushed};
use judge_runs::{Conclusion, Outcome, Tally, Wish};
use judge_session::EngineFault;
use judge_shared::{Orders, final_outcomes};
use pd_engine::Gate;
use pd_report::{push_bytes, push_number};
use std::alloc::{AllocError, Global};
use std::io::Write;

/// Whether the run in this folder fails, of which this comes: an answer isn't as wished.
///
/// # Errors
/// An allocation was refused.
fn is_failing(
    alloc: Global,
    wishes: &[Wish<'_>],
    folder: &str,
    outcome: &Outcome,
) -> Result<bool, AllocError>
    ensures { IfOk result (λ fails. fails ≡ fails_run (wishes_view wishes.now) (run_of folder.now outcome.now)) }
{
    let mut one = Tally::new(alloc);
    one.add(alloc, wishes, folder, outcome)?;
    match one.conclusion() {
        Conclusion::AllPass => Ok(false),
        Conclusion::SomeFails => Ok(true),
        Conclusion::SomeNotJudged => Ok(false),
    }
}

/// What is asked of runs that are tested.
#[derive(Clone, Copy)]
struct Asked<'a, 'w> {
    /// What is wished of their predicates.
    wishes: &'a [Wish<'w>],
    /// The format of what is written.
    format: Format,
    /// Whether the folders of those that fail are listed.
    lists_failing: bool,
}

/// Adds the folder of a run of which this comes, if such are listed and the run fails.
///
/// # Errors
/// An allocation was refused.
fn note_failing<'f>(
    alloc: Global,
    asked: &Asked<'_, '_>,
    folder: &'f str,
    outcome: &Outcome,
    failing: &mut Vec<&'f str>,
) -> Result<(), AllocError>
    ensures { OnOk result (asked.now.lists_failing ≡ true → names_view failing.new.items ≡ names_view failing.old.items
        ++ failing_in (wishes_view asked.now.wishes.now) (run_of folder.now outcome.now ∷ [])) }
{
    if asked.lists_failing && is_failing(alloc, asked.wishes, folder, outcome)? {
        failing.push(folder)?;
    }
    Ok(())
}

/// Writes the line of a run, if lines are written, and flushes the output.
///
/// # Errors
/// `Write` leaves a prefix of the line written, or all of it if only the flush failed.
fn write_line<O: Write>(format: Format, line: &[u8], output: &mut O) -> Result<(), EngineFault>
    ensures written { (wishes : List wished.Condition) (run : Run) → line.now ≡ line_of wishes run
        → OnOk result (Appends (O.contents output.old) (O.contents output.new)
        (lines_in (format_view format) wishes (run ∷ []))) }
    ensures left { (wishes : List wished.Condition) (run : Run) → line.now ≡ line_of wishes run
        → OnErr result (LeavesRuns (format_view format) wishes (run ∷ []) (O.contents output.old)
        (O.contents output.new)) }
    ensures err { IfErr result EndsTest }
{
    match format {
        Format::Plain => write_flushed(line, output),
        Format::Json => Ok(()),
    }
}

/// Writes the line of the run in this folder, of which this comes, if lines are written, and flushes the output.
///
/// # Errors
/// `Memory` leaves nothing written of it. `Write` leaves a prefix of the line written, or all of it if only the flush
/// failed.
fn write_run<O: Write>(
    alloc: Global,
    asked: &Asked<'_, '_>,
    folder: &str,
    outcome: &Outcome,
    tally: &mut Tally,
    output: &mut O,
) -> Result<(), EngineFault>
    ensures stands { OnOk result ((before : List Run) → Stands (wishes_view asked.now.wishes.now) before tally.old
        → Stands (wishes_view asked.now.wishes.now) (before ++ run_of folder.now outcome.now ∷ []) tally.new) }
    ensures written { OnOk result (Appends (O.contents output.old) (O.contents output.new)
        (lines_in (format_view asked.now.format) (wishes_view asked.now.wishes.now)
        (run_of folder.now outcome.now ∷ []))) }
    ensures left { OnErr result (LeavesRuns (format_view asked.now.format) (wishes_view asked.now.wishes.now)
        (run_of folder.now outcome.now ∷ []) (O.contents output.old) (O.contents output.new)) }
    ensures err { IfErr result EndsTest }
{
    let line = tally.add(alloc, asked.wishes, folder, outcome)?;
    write_line(asked.format, &line, output)
}

/// Writes the line of the run in this folder, of which this comes, if lines are written, flushes the output, and adds
/// the run to the records, and the folder, if such are listed and the run fails.
///
/// # Errors
/// `Memory` leaves the line written or nothing of it. `Write` leaves a prefix of the line written, or all of it if only
/// the flush failed.
fn put_known<'f, O: Write>(
    alloc: Global,
    asked: &Asked<'_, '_>,
    folder: &'f str,
    outcome: &Outcome,
    failing: &mut Vec<&'f str>,
    records: &mut Records,
    output: &mut O,
) -> Result<(), EngineFault>
    ensures written { OnOk result (WritesRuns (format_view asked.now.format) (wishes_view asked.now.wishes.now)
        asked.now.lists_failing (run_of folder.now outcome.now ∷ []) records.old records.new
        (names_view failing.old.items) (names_view failing.new.items) (O.contents output.old)
        (O.contents output.new)) }
    ensures left { OnErr result (LeavesRuns (format_view asked.now.format) (wishes_view asked.now.wishes.now)
        (run_of folder.now outcome.now ∷ []) (O.contents output.old) (O.contents output.new)) }
    ensures err { IfErr result EndsTest }
{
    write_run(alloc, asked, folder, outcome, &mut records.tally, output)?;
    records.results.add(alloc, asked.wishes, folder, outcome)?;
    note_failing(alloc, asked, folder, outcome, failing)?;
    Ok(())
}

/// The same of a run of which this comes, if memory didn't run out.
///
/// # Errors
/// As `put_known`.
fn put_run<'f, O: Write>(
    alloc: Global,
    asked: &Asked<'_, '_>,
    folder: &'f str,
    found: &Result<Outcome, EngineFault>,
    failing: &mut Vec<&'f str>,
    records: &mut Records,
    output: &mut O,
) -> Result<(), EngineFault>
    ensures written { OnOk result (WritesResult (format_view asked.now.format) (wishes_view asked.now.wishes.now)
        asked.now.lists_failing folder.now found.now records.old records.new (names_view failing.old.items)
        (names_view failing.new.items) (O.contents output.old) (O.contents output.new)) }
    ensures left { OnErr result (LeavesRuns (format_view asked.now.format) (wishes_view asked.now.wishes.now)
        (runs_of (folder.now ∷ []) (found.now ∷ [])) (O.contents output.old) (O.contents output.new)) }
    ensures err { IfErr result EndsTest }
{
    match found {
        Ok(outcome) => put_known(alloc, asked, folder, outcome, failing, records, output),
        Err(_) => Err(EngineFault::Memory),
    }
}

/// Writes the lines of the runs in these folders, of which this comes, in their order, if lines are written, flushes
/// the output after each, and adds the runs to the records. It gives the folders of those that fail, if such are
/// listed.
///
/// # Errors
/// `Memory` leaves the lines of the runs before written. `Write` leaves a prefix of the lines written, or all of them
/// if only the last flush failed.
fn put_runs<'f, O: Write>(
    alloc: Global,
    asked: &Asked<'_, '_>,
    folders: &[&'f str],
    found: &[Result<Outcome, EngineFault>],
    records: &mut Records,
    output: &mut O,
) -> Result<Vec<&'f str>, EngineFault>
    requires { length found.now ≡ length folders.now }
    ensures whole { IfOk result (λ _. length (runs_of (names_view folders.now) found.now) ≡ length folders.now) }
    ensures written { IfOk result (λ failing. WritesRuns (format_view asked.now.format)
        (wishes_view asked.now.wishes.now) asked.now.lists_failing (runs_of (names_view folders.now) found.now)
        records.old records.new [] (names_view failing.items) (O.contents output.old) (O.contents output.new)) }
    ensures left { OnErr result (LeavesRuns (format_view asked.now.format) (wishes_view asked.now.wishes.now)
        (runs_of (names_view folders.now) found.now) (O.contents output.old) (O.contents output.new)) }
    ensures err { IfErr result EndsTest }
{
    let mut failing = Vec::new(alloc);
    for place in 0..folders.len() {
        let (folder, one) = (folders[place], &found[place]);
        put_run(alloc, asked, folder, one, &mut failing, records, output)?;
    }
    Ok(failing)
}

/// What comes of the runs of these names, in their order: their files are opened, each is judged in a thread of its
/// own, unless the answers of its order are known, and their orders are noted.
///
/// # Errors
/// `Memory`.
fn outcomes_of<Y: System, G: Gate + Sync>(
    world: &World<'_, Y>,
    test: &Test<'_>,
    wishes: &[Wish<'_>],
    names: &[&str],
    gate: &G,
    orders: &mut Orders,
) -> Result<Vec<Result<Outcome, EngineFault>>, EngineFault>
    requires { AreSound (options_view test.now.options) orders.old }
    ensures all { IfOk result (λ found. length found.items ≡ length names.now) }
    ensures runs { IfOk result (λ found. AllZip (IsRunIn (Y.Files.file_of world.now.files.now)
        (options_view test.now.options) (wishes_view wishes.now))
        (take (length (runs_of (names_view names.now) found.items)) (names_view names.now))
        (runs_of (names_view names.now) found.items)) }
    ensures sound { IfOk result (λ _. AreSound (options_view test.now.options) orders.new) }
    ensures err { IsOkUnless result EngineFault.Memory }
{
    let jobs = jobs_of(world, names, &test.options, wishes)?;
    let workers = test.workers.count();
    let trials = trials_of_jobs(
        world.rt,
        &world.alloc,
        &test.options,
        wishes,
        workers,
        gate,
        orders,
        jobs,
    )?;
    Ok(final_outcomes(orders, world.alloc, trials)?)
}

/// Tests the runs in these folders side by side: opens their files, judges each in a thread of its own, unless the
/// answers of its order are known, writes their lines in the order of the folders, if lines are written, flushes the
/// output after each, and adds the runs to what is known. It gives the folders of the runs that fail, if such are
/// listed. The workers, which share the work on one run, and the gate change how long it takes, and nothing else.
///
/// # Errors
/// `Memory` leaves the lines of the first runs written, or none. `Write` leaves a prefix of the lines written, or all
/// of them if only the last flush failed.
fn test_asked<'f, Y: System, G: Gate + Sync, O: Write>(
    world: &World<'_, Y>,
    test: &Test<'_>,
    asked: &Asked<'_, '_>,
    folders: &[&'f str],
    gate: &G,
    tested: &mut Tested,
    output: &mut O,
) -> Result<Vec<&'f str>, EngineFault>
    requires { AreSound (options_view test.now.options) tested.old.orders }
    ensures tested { IfOk result (λ failing. TestsMore (Y.Files.file_of world.now.files.now)
        (options_view test.now.options) (wishes_view asked.now.wishes.now) (format_view asked.now.format)
        asked.now.lists_failing (names_view folders.now) tested.old.records tested.new.records
        (names_view failing.items) (O.contents output.old) (O.contents output.new)) }
    ensures sound { IfOk result (λ _. AreSound (options_view test.now.options) tested.new.orders) }
    ensures left { OnErr result (LeavesMore (Y.Files.file_of world.now.files.now) (options_view test.now.options)
        (wishes_view asked.now.wishes.now) (format_view asked.now.format) (names_view folders.now)
        (O.contents output.old) (O.contents output.new)) }
    ensures err { IfErr result EndsTest }
{
    let found = outcomes_of(world, test, asked.wishes, folders, gate, &mut tested.orders)?;
    put_runs(
        world.alloc,
        asked,
        folders,
        &found,
        &mut tested.records,
        output,
    )
}

/// Tests the runs in these folders side by side, as `test_asked`. The folders of those that fail are listed if pages or
/// a JSON text are wanted.
///
/// # Errors
/// As `test_asked`.
pub fn test_some<'f, Y: System, G: Gate + Sync, O: Write>(
    world: &World<'_, Y>,
    test: &Test<'_>,
    folders: &[&'f str],
    gate: &G,
    tested: &mut Tested,
    output: &mut O,
) -> Result<Vec<&'f str>, EngineFault>
    requires { AreSound (options_view test.now.options) tested.old.orders }
    ensures tested { IfOk result (λ failing. TestsMore (Y.Files.file_of world.now.files.now)
        (options_view test.now.options) (wishes_view test.now.wishes.items) (format_view test.now.format)
        (lists_failing test.now) (names_view folders.now) tested.old.records tested.new.records
        (names_view failing.items) (O.contents output.old) (O.contents output.new)) }
    ensures sound { IfOk result (λ _. AreSound (options_view test.now.options) tested.new.orders) }
    ensures left { OnErr result (LeavesMore (Y.Files.file_of world.now.files.now) (options_view test.now.options)
        (wishes_view test.now.wishes.items) (format_view test.now.format) (names_view folders.now)
        (O.contents output.old) (O.contents output.new)) }
    ensures err { IfErr result EndsTest }
{
    let asked = Asked {
        wishes: &test.wishes,
        format: test.format,
        lists_failing: lists_failing(test),
    };
    test_asked(world, test, &asked, folders, gate, tested, output)
}

/// The line that says how many orders the runs have, if it is known.
///
/// # Errors
/// An allocation was refused.
fn push_orders(out: &mut Vec<u8>, orders: Option<u64>) -> Result<(), AllocError>
    ensures { OnOk result (out.new.items ≡ out.old.items ++ orders_text orders) }
{
    match orders {
        Some(number) => {
            push_bytes(out, b"orders: ")?;
            push_number(out, number)?;
            push_bytes(out, b"\n")
        }
        None => Ok(()),
    }
}

/// The summary of the runs that a tally stands for, with this number of orders.
///
/// # Errors
/// An allocation was refused.
fn summary_of(alloc: Global, tally: &Tally, orders: Option<u64>) -> Result<Vec<u8>, AllocError>
    ensures { IfOk result (λ text. (wishes : List wished.Condition) (runs : List Run) → Stands wishes runs tally.now
        → text.items ≡ summary_text wishes runs ++ orders_text orders) }
{
    let mut summary = tally.summary(alloc)?;
    push_orders(&mut summary, orders)?;
    Ok(summary)
}

/// Writes what is due at the end, and flushes the output: the summary of the runs that a tally stands for, with this
/// number of orders, or this JSON text.
///
/// # Errors
/// `Memory` leaves nothing written. `Write` leaves a prefix of it written, or all of it if only the flush failed.
fn write_end<O: Write>(
    alloc: Global,
    tally: &Tally,
    format: Format,
    json: &[u8],
    orders: Option<u64>,
    output: &mut O,
) -> Result<(), EngineFault>
    ensures written { (wishes : List wished.Condition) (runs : List Run) (reports : List Data)
        → Stands wishes runs tally.now
        → (format_view format ≡ Json → json.now ≡ results_json wishes runs reports orders)
        → OnOk result (Appends (O.contents output.old) (O.contents output.new)
        (end_in (format_view format) wishes runs reports orders)) }
    ensures left { (wishes : List wished.Condition) (runs : List Run) (reports : List Data)
        → Stands wishes runs tally.now
        → (format_view format ≡ Json → json.now ≡ results_json wishes runs reports orders)
        → OnErr result ((count : ℕ) × Appends (O.contents output.old) (O.contents output.new)
        (take count (end_in (format_view format) wishes runs reports orders))) }
    ensures err { IfErr result EndsTest }
{
    match format {
        Format::Plain => {
            let summary = summary_of(alloc, tally, orders)?;
            write_flushed(&summary, output)
        }
        Format::Json => write_flushed(json, output),
    }
}

/// Writes what is due at the end, and flushes the output: the summary of the runs that a tally stands for, with this
/// number of orders, or the JSON text of their results. It gives what they come to.
///
/// # Errors
/// `Memory` leaves nothing written. `Write` leaves a prefix of it written, or all of it if only the flush failed.
pub fn conclude<O: Write>(
    alloc: Global,
    tally: &Tally,
    format: Format,
    json: &[u8],
    orders: Option<u64>,
    output: &mut O,
) -> Result<Conclusion, EngineFault>
    ensures end { (wishes : List wished.Condition) (runs : List Run) (reports : List Data)
        → Stands wishes runs tally.now
        → (format_view format ≡ Json → json.now ≡ results_json wishes runs reports orders)
        → IsConcluded (format_view format) wishes runs reports orders result (O.contents output.old)
        (O.contents output.new) }
    ensures err { IfErr result EndsTest }
{
    write_end(alloc, tally, format, json, orders, output)?;
    Ok(tally.conclusion())
}
