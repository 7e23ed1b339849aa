//! One run of the program.
ghost use Rattle.app_arguments.specs.Views.{place_view};
ghost use Rattle.app_serve.specs.Kept.{AsksForFiles};
ghost use Rattle.app_serve.specs.Served.{IsServed};
ghost use Rattle.app_arguments.specs.Arguments.{AsksFor};
ghost use Rattle.app_draw.specs.Drawings.{EndsDrawn};
ghost use Rattle.pd_cli.specs.Explained.{Explained};
ghost use Rattle.app_explore.specs.Explorations.{AskedPage, ExplorationLeaves, FilesLeave};
ghost use Rattle.app_host.specs.Faults.{named_ending};
ghost use Rattle.pd_cli.specs.RunCases.{RunsAsAsked};
ghost use Rattle.pd_cli.specs.Runs.{RunsAs};
ghost use Rattle.out_picture.specs.Scopes.{scope_view};
ghost use Rattle.app_arguments.specs.ConditionViews.{fail_on_view};
ghost use Rattle.app_arguments.specs.Statuses.{Ends, JudgeInput, JudgementLeaves, LeavesOf, MayBeUnread, OfConnections, OfFinding, OfNamed, ServiceMayFail, UnreadClaim, sources_of};
ghost use Rattle.app_arguments.specs.Views.{format_view, names_view, page_view, session_view};
ghost use Rattle.app_host.specs.Formats.{IsFindingIn};
ghost use Rattle.app_batch.specs.Batches.{BatchLeaves};
ghost use Rattle.app_bundle.specs.Bundles.{BundleLeaves};
ghost use Rattle.app_infer.specs.Inferences.{EndsInferred};
ghost use Rattle.app_merge.specs.Merges.{EndsMerged};
ghost use Rattle.app_reduce.specs.Files.{RunLeaves};
ghost use Rattle.app_results.specs.RunReports.{IsReportOf};
ghost use Rattle.app_test.specs.Tests.{TestLeaves};
ghost use Rattle.judge_runs.specs.Views.{wishes_view};
ghost use Rattle.def_judgement.specs.Writes.{WritesTruthOfBundle};
ghost use Rattle.pd_spec.specs.Views.{options_view};
ghost use Rattle.std.specs.Prelude.{◌≡◌, ◌≤◌, ◌∷◌, [], drop, false, length, map, vec_len};

use super::bundle::judge_input;
use super::explained_services::service_text;
use super::explanation::write_explanation;
use super::parser_error::report_parser_error;
use app_arguments::{
    Batch, Format, Judgement, PageOptions, Reduction, Request, Service, SessionNames, Test, parse,
};
use app_batch::{Asked, batch_lines, batch_text};
use app_bundle::{bundle_runs, bundle_runs_text};
use app_draw::{draw_noted, report_drawing};
use app_ends::{
    bundle_text, check_text, drawing_text, exploration_text, judgement_text, notes_to_draw,
};
use app_explore::{explore_files, object_files};
use app_host::{
    FileSource, LevelGate, Network, NotedSource, Notes, System, World, check_files, judge_files,
    report_bundle, report_end, report_judgement,
};
use app_infer::{infer_files, infer_text, report_infer};
use app_merge::{merge_lines, merge_text, report_merge};
use app_reduce::{Unwritten, reduce_files, reduction_text, report_reduction};
use app_results::{Pages, ResultFiles, test_files, test_text};
use app_serve::{Host, Peers, report_service_end, serve};
use app_test::report_test;
use judge_session::EngineFault;
use out_picture::DrawOptions;
use pd_engine::{ByteSource, Gate, Report};
use std::alloc::Global;
use std::io::Write;
use std::random::RandomSource;
use std::sync::Wait;
use std::thread::Threads;

/// Checks the report in the file of this name against files, writes what is found in this format, and gives the exit
/// status.
fn run_check<Y: System, O: Write, E: Write>(
    world: &World<'_, Y>,
    report: &str,
    names: &SessionNames<'_>,
    format: Format,
    output: &mut O,
    errors: &mut E,
) -> u8
    ensures { Explained world.now.explain (λ start. Ends (λ ending. LeavesOf (options_view names.now.options)
        (Y.Files.file_of world.now.files.now names.now.spec.now)
        (UnreadClaim (Y.Files.file_of world.now.files.now) names.now.spec.now report.now (session_view names.now).1)
        (OfFinding (IsFindingIn (format_view format)) (Y.Files.file_of world.now.files.now report.now).source
        (sources_of (map (Y.Files.file_of world.now.files.now) (session_view names.now).1)))
        ending (O.contents output.old) (O.contents output.new)) result start (E.contents errors.new))
        (E.contents errors.old) }
{
    let end = check_files(world, report, names, format, output);
    let text = check_text(world, report, names, &end);
    write_explanation(world.explain, &text, errors);
    report_end(&end, errors)
}

/// Draws the session in files, with the report that may be among them, and what was noted of its events, and gives the
/// exit status. Notes change none.
fn run_draw<Y: System, O: Write, E: Write>(
    world: &World<'_, Y>,
    scope: &DrawOptions<'_>,
    names: &SessionNames<'_>,
    output: &mut O,
    errors: &mut E,
) -> u8
    ensures { Explained world.now.explain (λ start. EndsDrawn (Y.Files.file_of world.now.files.now) (options_view
        names.now.options) names.now.spec.now (session_view names.now).1 (scope_view scope.now) result
        (O.contents output.old) (O.contents output.new) start (E.contents errors.new)) (E.contents errors.old) }
{
    let mut due = None;
    let noted = notes_to_draw(world, names);
    let end = draw_noted(world, scope, names, &noted, &mut due, output);
    let text = drawing_text(world, due.as_ref(), scope, names, &noted, &end);
    write_explanation(world.explain, &text, errors);
    report_drawing(&end, errors)
}

/// Judges a session whose streams come by connections, and gives the exit status.
fn run_service<Y: System, O: Write, E: Write>(
    world: &World<'_, Y>,
    service: &Service<'_>,
    output: &mut O,
    errors: &mut E,
) -> u8
    ensures { Explained world.now.explain (λ start. Ends (λ ending. LeavesOf (options_view service.now.options)
        (Y.Files.file_of world.now.files.now service.now.spec.now) (MayBeUnread (Y.Files.file_of world.now.files.now
        service.now.spec.now ∷ []) (Y.Files.file_of world.now.files.now service.now.spec.now ∷ []))
        (OfNamed (fail_on_view service.now.fail_on) (OfConnections (IsServed (format_view service.now.format))
        (Y.Network.may_give world.now.network.now (place_view service.now.place)) (ServiceMayFail service.now.wait
        Y.Network.never_fails) (AsksForFiles service.now) (fail_on_view service.now.fail_on))) ending
        (O.contents output.old) (O.contents output.new)) result start (E.contents errors.new)) (E.contents errors.old) }
{
    let peers = Peers::new(world.alloc, world.explain || service.keep.is_some());
    let gate = LevelGate::new(world.files);
    let host = Host {
        files: world.files,
        network: world.network,
        alloc: world.alloc,
        service,
        peers: &peers,
        gate: &gate,
        notes: world.notes,
        explain: world.explain,
    };
    let end = serve(world, &host, output);
    let text = service_text(world, &host, &end);
    write_explanation(world.explain, &text, errors);
    report_service_end(&service.fail_on, &end, errors)
}

/// Judges the session in files, and writes the report in this format.
///
/// # Errors
/// As `judge_files` and `object_files`.
fn judge_files_in<Y: System, G: Gate + Sync, O: Write>(
    world: &World<'_, Y>,
    judgement: &Judgement<'_>,
    format: Format,
    gate: &G,
    output: &mut O,
) -> Result<Option<Report>, EngineFault>
    ensures { FilesLeave (Y.Files.file_of world.now.files.now) (options_view judgement.now.names.options)
        (fail_on_view judgement.now.fail_on) (format_view format) judgement.now.names.spec.now
        (session_view judgement.now.names).1 (named_ending (fail_on_view judgement.now.fail_on) result)
        (O.contents output.old) (O.contents output.new) }
{
    match format {
        Format::Plain => judge_files(world, judgement, gate, output),
        Format::Json => object_files(world, judgement, gate, output),
    }
}

/// Judges the session in files, writes the report in this format, and gives the exit status.
fn run_files<Y: System, O: Write, E: Write>(
    world: &World<'_, Y>,
    judgement: &Judgement<'_>,
    format: Format,
    output: &mut O,
    errors: &mut E,
) -> u8
    ensures { Explained world.now.explain (λ start. Ends (λ ending. FilesLeave (Y.Files.file_of world.now.files.now)
        (options_view judgement.now.names.options) (fail_on_view judgement.now.fail_on) (format_view format)
        judgement.now.names.spec.now (session_view judgement.now.names).1 ending (O.contents output.old)
        (O.contents output.new)) result start (E.contents errors.new)) (E.contents errors.old) }
{
    let gate = LevelGate::new(world.files);
    let end = judge_files_in(world, judgement, format, &gate, output);
    let text = judgement_text(world, judgement, gate.widest(), &end);
    write_explanation(world.explain, &text, errors);
    report_judgement(&judgement.fail_on, &end, errors)
}

/// Explores the session in files, and gives the exit status. What is read is noted whether an explanation is wanted or
/// not, since the page of a refusal has one.
fn run_explore<Y: System, O: Write, E: Write>(
    world: &World<'_, Y>,
    judgement: &Judgement<'_>,
    page: &PageOptions<'_>,
    output: &mut O,
    errors: &mut E,
) -> u8
    ensures { Explained world.now.explain (λ start. Ends (λ ending. ExplorationLeaves
        (Y.Files.file_of world.now.files.now) (options_view judgement.now.names.options)
        (fail_on_view judgement.now.fail_on) (AskedPage (page_view page.now)) judgement.now.names.spec.now
        (session_view judgement.now.names).1 ending (O.contents output.old) (O.contents output.new)) result start
        (E.contents errors.new)) (E.contents errors.old) }
{
    let gate = LevelGate::new(world.files);
    let files = judgement
        .names
        .streams
        .len()
        .saturating_add(page.notes.len());
    let notes = Notes::for_streams(world.alloc, files);
    let world = World::<'_, Y> {
        rt: world.rt,
        files: world.files,
        network: world.network,
        alloc: world.alloc,
        explain: world.explain,
        notes: &notes,
    };
    let end = explore_files(&world, judgement, page, &gate, output);
    let text = exploration_text(&world, judgement, page, gate.widest(), &end);
    write_explanation(world.explain, &text, errors);
    report_judgement(&judgement.fail_on, &end, errors)
}

/// Tests recorded runs, and gives the exit status.
fn run_test<Y: System, O: Write, E: Write>(
    world: &World<'_, Y>,
    test: &Test<'_>,
    output: &mut O,
    errors: &mut E,
) -> u8
    ensures { Explained world.now.explain (λ start. Ends (λ ending. TestLeaves (Y.Files.file_of world.now.files.now)
        (options_view test.now.options) (wishes_view test.now.wishes.items) (format_view test.now.format)
        (IsReportOf (Y.Files.file_of world.now.files.now) (options_view test.now.options))
        (names_view test.now.runs.items) ending (O.contents output.old) (O.contents output.new)) result start
        (E.contents errors.new)) (E.contents errors.old) }
{
    let gate = LevelGate::new(world.files);
    let mut pages = Pages::new(world.alloc, test.pages);
    let mut files = ResultFiles::new(test);
    let end = test_files(world, test, &gate, &mut pages, &mut files, output);
    let text = test_text(world, &end, pages.end(), files.end());
    write_explanation(world.explain, &text, errors);
    report_test(&end, errors)
}

/// Writes the first document of the streams in files, and gives the exit status.
fn run_infer<Y: System, O: Write, E: Write>(
    world: &World<'_, Y>,
    streams: &[&str],
    output: &mut O,
    errors: &mut E,
) -> u8
    ensures { Explained world.now.explain (λ start. EndsInferred (Y.Files.file_of world.now.files.now)
        (names_view streams.now) result (O.contents output.old) (O.contents output.new) start
        (E.contents errors.new)) (E.contents errors.old) }
{
    let end = infer_files(world, streams, output);
    let text = infer_text(world, streams, &end);
    write_explanation(world.explain, &text, errors);
    report_infer(&end, errors)
}

/// Notes of what will be read, of this many streams too, if that is wanted and there is memory for them.
fn stream_notes(alloc: Global, is_wanted: bool, streams: usize) -> Notes {
    if is_wanted {
        Notes::for_streams(alloc, streams)
    } else {
        Notes::new(alloc, false)
    }
}

/// Writes a session that has the answers of the recorded run in files, and gives the exit status.
fn run_reduce<Y: System, O: Write, E: Write>(
    world: &World<'_, Y>,
    reduction: &Reduction<'_>,
    output: &mut O,
    errors: &mut E,
) -> u8
    ensures { Explained world.now.explain (λ start. Ends (λ ending. RunLeaves
        (Y.Files.file_of world.now.files.now) (options_view reduction.now.names.options)
        reduction.now.names.spec.now (session_view reduction.now.names).1 ending (O.contents output.old)
        (O.contents output.new)) result start (E.contents errors.new)) (E.contents errors.old) }
{
    let streams = reduction.names.streams.len();
    let notes = stream_notes(world.alloc, world.explain, streams);
    let world = World::<'_, Y> {
        rt: world.rt,
        files: world.files,
        network: world.network,
        alloc: world.alloc,
        explain: world.explain,
        notes: &notes,
    };
    let mut unwritten = Unwritten::new();
    let end = reduce_files(&world, reduction, &mut unwritten, output);
    let text = reduction_text(&world, reduction, &unwritten, &end);
    write_explanation(world.explain, &text, errors);
    report_reduction(&end, errors)
}

/// Judges the sessions in the lines of the input, or in its bundles, and gives the exit status.
fn run_batch<Y: System, I: ByteSource + Drop, O: Write, E: Write>(
    world: &World<'_, Y>,
    input: I,
    batch: &Batch<'_>,
    output: &mut O,
    errors: &mut E,
) -> u8
    requires { I.has_ended input ≡ false }
    ensures { Explained world.now.explain (λ start. Ends (λ ending. BatchLeaves (I.left input)
        (options_view batch.now.options) (fail_on_view batch.now.fail_on) batch.now.in_bundles ending
        (O.contents output.old) (O.contents output.new)) result start (E.contents errors.new)) (E.contents errors.old) }
{
    let asked = Asked {
        options: &batch.options,
        fail_on: &batch.fail_on,
        workers: batch.workers.count(),
        in_bundles: batch.in_bundles,
    };
    let jobs = batch.jobs.count();
    let end = batch_lines(world.rt, world.alloc, input, &asked, jobs, output);
    let text = batch_text(world, &end);
    write_explanation(world.explain, &text, errors);
    report_test(&end, errors)
}

/// Writes recorded runs as sessions in lines, and gives the exit status.
fn run_bundle_runs<Y: System, O: Write, E: Write>(
    world: &World<'_, Y>,
    runs: &[&str],
    output: &mut O,
    errors: &mut E,
) -> u8
    ensures { Explained world.now.explain (λ start. Ends (λ ending. BundleLeaves
        (Y.Files.file_of world.now.files.now) (names_view runs.now) ending (O.contents output.old)
        (O.contents output.new)) result start (E.contents errors.new)) (E.contents errors.old) }
{
    let end = bundle_runs(world, runs, output);
    let text = bundle_runs_text(world, &end);
    write_explanation(world.explain, &text, errors);
    report_end(&end, errors)
}

/// Writes the summary of the lines of the input, and gives the exit status.
fn run_merge<Y: System, I: ByteSource + Drop, O: Write, E: Write>(
    world: &World<'_, Y>,
    input: I,
    output: &mut O,
    errors: &mut E,
) -> u8
    requires { I.has_ended input ≡ false }
    ensures { Explained world.now.explain (λ start. EndsMerged (I.left input) result (O.contents output.old)
        (O.contents output.new) start (E.contents errors.new)) (E.contents errors.old) }
{
    let end = merge_lines(world, input, output);
    let text = merge_text(world, &end);
    write_explanation(world.explain, &text, errors);
    report_merge(&end, errors)
}

/// Judges the bundle on the input, and gives the exit status.
fn run_bundle<Y: System, I: ByteSource + Drop, O: Write, E: Write>(
    world: &World<'_, Y>,
    input: I,
    output: &mut O,
    errors: &mut E,
) -> u8
    requires { I.has_ended input ≡ false }
    ensures { Explained world.now.explain (λ start. Ends (λ ending. JudgementLeaves (I.left input) ending
        (O.contents output.old) (O.contents output.new)) result start (E.contents errors.new)) (E.contents errors.old) }
{
    let gate = LevelGate::new(world.files);
    let input = NotedSource::new(world.alloc, input, world.notes.document());
    let end = judge_input(world, input, &gate, output);
    let text = bundle_text(world, gate.widest(), &end);
    write_explanation(world.explain, &text, errors);
    report_bundle(&end, errors)
}

/// Does what the arguments after the program's name ask for, and gives the exit status.
fn run_arguments<Y: System, I: ByteSource + Drop, O: Write, E: Write>(
    world: &World<'_, Y>,
    arguments: &[String],
    input: I,
    output: &mut O,
    errors: &mut E,
) -> u8
    requires { I.has_ended input ≡ false }
    ensures ends { Explained world.now.explain (λ start. RunsAsAsked (map (λ argument. argument.bytes.items)
        arguments.now) (I.left input) (Y.Files.file_of world.now.files.now) (Y.Network.may_give world.now.network.now)
        Y.Network.never_fails result (O.contents output.old) (O.contents output.new) start (E.contents errors.new))
        (E.contents errors.old) }
{
    match parse(world.alloc, arguments) {
        Ok(Request::Bundle) => run_bundle(world, input, output, errors),
        Ok(Request::Judge(judgement, format)) => {
            run_files(world, &judgement, format, output, errors)
        }
        Ok(Request::Check(report, names, format)) => {
            run_check(world, report, &names, format, output, errors)
        }
        Ok(Request::Draw(scope, names)) => run_draw(world, &scope, &names, output, errors),
        Ok(Request::Serve(service)) => { run_service(world, &service, output, errors) }
        Ok(Request::Explore(judgement, page)) => {
            run_explore(world, &judgement, &page, output, errors)
        }
        Ok(Request::Test(test)) => { run_test(world, &test, output, errors) }
        Ok(Request::Infer(streams)) => run_infer(world, &streams, output, errors),
        Ok(Request::Reduce(reduction)) => run_reduce(world, &reduction, output, errors),
        Ok(Request::Batch(batch)) => run_batch(world, input, &batch, output, errors),
        Ok(Request::BundleRuns(runs)) => run_bundle_runs(world, &runs, output, errors),
        Ok(Request::Merge) => run_merge(world, input, output, errors),
        Err(error) => report_parser_error(&error, output, errors),
    }
}

/// The arguments without the first one.
fn without_first(arguments: &[String]) -> &[String]
    requires { 1 ≤ length arguments.now }
    ensures { result.now ≡ drop 1 arguments.now }
{
    &arguments[1..]
}

/// Runs the program on its arguments, of which the first is its name, and gives its exit status.
///
/// With no further argument a bundle is read from `input`, and its report is written to `output`. Further arguments are
/// parsed: `judge`, with the names of the files of a session document and one stream or more, judges these and writes
/// their report to `output`; `check`, with the names of the files of a session document, a report and one stream or
/// more, checks that report and writes what is found to `output`; `draw`, with the same names, draws that report, and
/// without a report the one that is due, and writes the picture to `output`; `serve`, with the name of a session
/// document's file and a place, judges streams that come by connections; `explore`, with the names of `judge`, judges
/// these and writes the page on which their run is explored, or the page of a refusal, to `output`; these three answer
/// predicates beyond the width where they are decided, and fail on answers, if that is asked for; `test`, with the
/// names of folders with recorded runs, judges each and writes to `output` which of them are not as wished; `infer`,
/// with the names of streams, writes their first document to `output`; `reduce`, with the names of `judge`, writes a
/// session that has the answers of a recorded run into a folder, and what both have to `output`; `batch` judges the
/// sessions in the lines of `input`, `bundle`, with the names of folders with recorded runs, writes such lines, and
/// `merge` writes the summary of what `batch` wrote from `input`; the help that they ask for is written to `output`,
/// and what is wrong with them to `errors`. `errors` also has one line for each fault, and before it an explanation if
/// one is wanted, as `explain` says; what of it can't be written is left off.
pub fn run<
    S: RandomSource + Threads + Wait + Sync,
    F: FileSource,
    N: Network + Sync,
    I: ByteSource + Drop,
    O: Write,
    E: Write,
>(
    rt: &S,
    files: &F,
    network: &N,
    alloc: Global,
    arguments: Vec<String>,
    input: I,
    explain: bool,
    output: &mut O,
    errors: &mut E,
) -> u8
    requires open { I.has_ended input ≡ false }
    // The exit status says what is left on the output and on the errors, by what the arguments after the first ask for.
    // Each file, each connection and the input are a source of their own: what is known to be given to its end is
    // judged whole, and of one that is known to fail all that it gave before.
    // If explanations are wanted, any text may stand before that on the errors.
    ensures ends { Explained explain (λ start. RunsAs
        (AsksFor (drop 1 (map (λ argument. argument.bytes.items) arguments.items)))
        (I.left input) (F.file_of files.now) (N.may_give network.now) N.never_fails result
        (O.contents output.old) (O.contents output.new) start (E.contents errors.new)) (E.contents errors.old) }
    // With no further argument that is the report of the bundle on the input.
    ensures bundle { vec_len arguments ≤ 1 → Explained explain (λ start. RunsAs (λ request. request ≡ JudgeInput)
        (I.left input) (F.file_of files.now) (N.may_give network.now) N.never_fails result
        (O.contents output.old) (O.contents output.new) start (E.contents errors.new)) (E.contents errors.old) }
    // If the input holds a well-formed session, status 0 or 1 is 0; and with no level over the width, that report says
    // the truth of each predicate.
    ensures headline { vec_len arguments ≤ 1 → result ≤ 1 → WritesTruthOfBundle (I.left input) (result ≡ 0)
        (O.contents output.old) (O.contents output.new) }
{
    let notes = Notes::new(alloc, explain);
    let world = World::<'_, (S, F, N)> {
        rt,
        files,
        network,
        alloc,
        explain,
        notes: &notes,
    };
    if arguments.len() <= 1 {
        return run_bundle(&world, input, output, errors);
    }
    run_arguments(&world, without_first(&arguments), input, output, errors)
}
