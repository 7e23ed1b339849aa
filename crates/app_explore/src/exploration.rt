//! Explores the session in files, or makes the object of its report.
ghost use Rattle.app_arguments.specs.ConditionViews.{fail_on_view};
ghost use Rattle.judge_runs.specs.Wishes.{Condition};
ghost use Rattle.app_arguments.specs.Statuses.{OfNamed, OfReport};
ghost use Rattle.app_arguments.specs.Views.{page_view, session_view};
ghost use Rattle.app_explore.specs.Explorations.{Asked, AskedObject, AskedPage, ExplorationLeaves, IsFormOf, OfForm, all_named, wishes_of};
ghost use Rattle.app_host.specs.Faults.{judgement_ending, named_ending};
ghost use Rattle.app_host.specs.FileSources.{ReadLeaves, bytes_in};
ghost use Rattle.def_format.specs.Documents as documents;
ghost use Rattle.def_judgement.specs.Writes.{Source};
ghost use Rattle.judge_explore.specs.Explored.{IsOwed, IsOwnRefusal};
ghost use Rattle.judge_explore.specs.Forms.{form_view};
ghost use Rattle.judge_explore.specs.FileViews.{file_view, files_view};
ghost use Rattle.judge_explore.specs.Sources.{AreFilesOf, IsFileOf, StreamFile as SourceFile, stream_bytes};
ghost use Rattle.judge_session.specs.Unanswered.{IsUnanswered};
ghost use Rattle.judge_session.specs.Inquiries.{inquiry_view};
ghost use Rattle.judge_runs.specs.Views.{wishes_view};
ghost use Rattle.pd_engine.specs.Ends.{IsGiven};
ghost use Rattle.pd_spec.specs.Views.{options_view};
ghost use Rattle.std.specs.Prelude.{◌≡◌, ◌⊎◌, All, IfErr, IfOk, IfSome, List, Ok, false, map};

use super::page_extras::extras_of;
use super::wished::has_all_named;
use app_arguments::{Judgement, PageOptions, SessionNames};
use app_ends::refusal_text;
use app_host::{FileSource, System, World, read_session};
use def_format::STREAM_BYTE_LIMIT;
use judge_explore::{Form, Page, StreamFile, explore, refused_page, write_page};
use judge_runs::Wish;
use judge_session::{EngineFault, Unanswered, read_upto};
use pd_engine::{ByteSource, Gate, Inquiry, Report};
use pd_report::Refusal;
use std::alloc::{AllocError, Global};
use std::io::Write;

/// The explanation of a refusal, which its page has. An object has none.
fn explanation_in<Y: System>(
    world: &World<'_, Y>,
    names: &SessionNames<'_>,
    form: Form<'_, '_>,
    refusal: &Refusal,
) -> Vec<u8> {
    match form {
        Form::Page(_) => refusal_text(world, names, refusal),
        Form::Object => Vec::new(world.alloc),
    }
}

/// The page of the refusal of the session in files, with its explanation, or its object.
///
/// # Errors
/// `Memory`.
fn unanswered_page<Y: System>(
    world: &World<'_, Y>,
    names: &SessionNames<'_>,
    form: Form<'_, '_>,
    unanswered: Unanswered,
) -> Result<Page, EngineFault>
    // It is owed of each inquiry and of readers of which the refusal is, whatever the files.
    ensures page { (inquiry : documents.Inquiry) (files : List SourceFile) (inputs : List Source)
        → IsUnanswered (IsOwnRefusal inquiry inputs) unanswered → IfOk result (λ page.
        IsOwed inquiry (form_view form.entry) files inputs (IsGiven (Ok page.report)) page.text.items) }
    ensures err { IfErr result (λ fault. fault ≡ EngineFault.Memory) }
{
    match unanswered {
        Unanswered::Refused(refusal) => {
            let text = explanation_in(world, names, form, &refusal);
            let page = refused_page(world.alloc, form, refusal, &text)?;
            Ok(page)
        }
        Unanswered::Memory => Err(EngineFault::Memory),
    }
}

/// The page or the object of a document, with what is asked, and the streams, or of their refusal, with its
/// explanation.
///
/// # Errors
/// `Memory`.
fn page_of<Y: System, R: ByteSource + Send + Drop, G: Gate + Sync>(
    world: &World<'_, Y>,
    inquiry: Inquiry<'_, '_, '_>,
    form: Form<'_, '_>,
    sources: &[StreamFile<'_>],
    streams: Vec<R>,
    judgement: &Judgement<'_>,
    gate: &G,
) -> Result<Page, EngineFault>
    requires { All (λ stream. R.has_ended stream ≡ false) streams.items }
    ensures page { IfOk result (λ page. IsOwed (inquiry_view inquiry.entry) (form_view form.entry)
        (files_view sources.now) (map R.left streams.items) (IsGiven (Ok page.report)) page.text.items) }
    ensures err { IfErr result (λ fault. fault ≡ EngineFault.Memory) }
{
    let workers = judgement.workers.count();
    match explore(
        world.rt,
        world.alloc,
        inquiry,
        form,
        sources,
        streams,
        workers,
        gate,
    ) {
        Ok(page) => Ok(page),
        Err(unanswered) => unanswered_page(world, &judgement.names, form, unanswered),
    }
}

/// Explores a document, with what is asked, and the streams, writes the page, or that of the refusal, or the object,
/// and flushes the output. It gives the report.
///
/// # Errors
/// `Memory` leaves nothing written. `Write` leaves a part of the text written, or all of it if only the flush failed.
fn explore_read<Y: System, R: ByteSource + Send + Drop, G: Gate + Sync, O: Write>(
    world: &World<'_, Y>,
    inquiry: Inquiry<'_, '_, '_>,
    form: Form<'_, '_>,
    sources: &[StreamFile<'_>],
    streams: Vec<R>,
    judgement: &Judgement<'_>,
    gate: &G,
    output: &mut O,
) -> Result<Report, EngineFault>
    requires { All (λ stream. R.has_ended stream ≡ false) streams.items }
    // This is said for all answers on which the run may be to fail.
    ensures written { (fail_on : List Condition) → ReadLeaves (OfReport (IsOwed (inquiry_view inquiry.entry)
        (form_view form.entry) (files_view sources.now) (map R.left streams.items)) fail_on)
        (judgement_ending fail_on result) (O.contents output.old) (O.contents output.new) }
    ensures err { IfErr result (λ fault. (fault ≡ EngineFault.Memory) ⊎ (fault ≡ EngineFault.Write)) }
{
    let page = page_of(world, inquiry, form, sources, streams, judgement, gate)?;
    let report = write_page(page, output)?;
    if output.flush().is_err() {
        return Err(EngineFault::Write);
    }
    Ok(report)
}

/// The bytes that a stream's file has left, and of more than a stream may have one more, if they can be read.
///
/// # Errors
/// Out of memory.
fn stream_left<R: ByteSource + Drop>(alloc: Global, file: R) -> Result<Option<Vec<u8>>, AllocError>
    requires { R.has_ended file ≡ false }
    ensures { IfOk result (λ found. IfSome found (λ found. IfSome (R.left file).bytes
        (λ bytes. found.items ≡ stream_bytes bytes))) }
{
    match read_upto(alloc, file, STREAM_BYTE_LIMIT as usize) {
        Ok(bytes) => Ok(Some(bytes)),
        Err(EngineFault::Memory) => Err(AllocError),
        Err(_) => Ok(None),
    }
}

/// The same of the file of this name, if it can be read a second time.
///
/// # Errors
/// Out of memory.
fn read_again<Y: System>(world: &World<'_, Y>, name: &str) -> Result<Option<Vec<u8>>, AllocError>
    ensures { IfOk result (λ found. IfSome found (λ found. IfSome (bytes_in (Y.Files.file_of world.now.files.now)
        name.now) (λ bytes. found.items ≡ stream_bytes bytes))) }
{
    if !world.files.can_be_reread(name) {
        return Ok(None);
    }
    match world.files.open(name) {
        Ok(file) => stream_left(world.alloc, file),
        Err(_) => Ok(None),
    }
}

/// The file of a stream, with its lines, if it can be read a second time.
///
/// # Errors
/// Out of memory.
fn stream_file<'a, Y: System>(
    world: &World<'_, Y>,
    name: &'a str,
) -> Result<StreamFile<'a>, AllocError>
    ensures { IfOk result (λ file. IsFileOf (bytes_in (Y.Files.file_of world.now.files.now)) name.now (file_view
        file)) }
{
    let found = read_again(world, name)?;
    match found {
        Some(bytes) => StreamFile::read(world.alloc, name, &bytes),
        None => Ok(StreamFile::unread(world.alloc, name)),
    }
}

/// The files of streams.
///
/// # Errors
/// Out of memory.
pub fn stream_files<'a, Y: System>(
    world: &World<'_, Y>,
    names: &[&'a str],
) -> Result<Vec<StreamFile<'a>>, AllocError>
    ensures { IfOk result (λ found. AreFilesOf (bytes_in (Y.Files.file_of world.now.files.now)) (map (λ name. name.now)
        names.now) (files_view found.items)) }
{
    let mut found = Vec::new(world.alloc);
    for name in names {
        found.push(stream_file(world, name)?)?;
    }
    Ok(found)
}

/// Looks up in a document, with what is asked, the predicates that are named; if all are there, or the document is
/// refused, reads the streams' files once more, for the numbers of their lines, and explores the document and the
/// streams, as `explore_read`. It gives the report, or nothing if a predicate isn't there: then nothing is read of the
/// streams, and nothing is written.
///
/// # Errors
/// As `explore_read`.
fn explore_named<Y: System, R: ByteSource + Send + Drop, G: Gate + Sync, O: Write>(
    world: &World<'_, Y>,
    inquiry: Inquiry<'_, '_, '_>,
    form: Form<'_, '_>,
    streams: Vec<R>,
    judgement: &Judgement<'_>,
    wishes: &[Wish<'_>],
    gate: &G,
    output: &mut O,
) -> Result<Option<Report>, EngineFault>
    requires { All (λ stream. R.has_ended stream ≡ false) streams.items }
    // This is said for all that may be asked for in this form, with these wishes.
    ensures { (asked : Asked) → IsFormOf (bytes_in (Y.Files.file_of world.now.files.now)) asked (form_view form.entry)
        → wishes_of asked ≡ wishes_view wishes.now
        → ReadLeaves (OfNamed (all_named (fail_on_view judgement.now.fail_on) (wishes_of asked))
        (OfForm (bytes_in (Y.Files.file_of world.now.files.now)) asked
        (session_view judgement.now.names).1 (map R.left streams.items) (fail_on_view judgement.now.fail_on))
        (inquiry_view inquiry.entry)) (named_ending (fail_on_view judgement.now.fail_on) result)
        (O.contents output.old) (O.contents output.new) }
{
    if !has_all_named(world.alloc, inquiry, &judgement.fail_on, wishes)? {
        return Ok(None);
    }
    let sources = stream_files(world, &judgement.names.streams)?;
    match explore_read(
        world, inquiry, form, &sources, streams, judgement, gate, output,
    ) {
        Ok(report) => Ok(Some(report)),
        Err(fault) => Err(fault),
    }
}

/// Opens the files of a session, the document and then the streams, reads the document and the files of notes, looks up
/// in the document the predicates that are named, explores it, with what is asked, and the streams, writes the page, or
/// that of the refusal, and flushes the output. It gives the report, or nothing if a predicate that is named isn't
/// there: then no stream is read, and nothing is written. All files of the session are opened before one is read. A
/// stream whose read fails later is a fault of that stream.
///
/// # Errors
/// `Read`, if a file can't be opened or the document can't be read, or a file of notes isn't text or is too long, and
/// `Memory` leave nothing written. `Write` leaves a part of the text written, or all of it if only the flush failed.
pub fn explore_files<Y: System, G: Gate + Sync, O: Write>(
    world: &World<'_, Y>,
    judgement: &Judgement<'_>,
    page: &PageOptions<'_>,
    gate: &G,
    output: &mut O,
) -> Result<Option<Report>, EngineFault>
    ensures { ExplorationLeaves (Y.Files.file_of world.now.files.now) (options_view judgement.now.names.options)
        (fail_on_view judgement.now.fail_on) (AskedPage (page_view page.now)) judgement.now.names.spec.now
        (session_view judgement.now.names).1 (named_ending (fail_on_view judgement.now.fail_on) result)
        (O.contents output.old) (O.contents output.new) }
{
    match read_session(world, &judgement.names) {
        Ok(read) => match extras_of(world, page, judgement.names.streams.len()) {
            Ok(extras) => {
                let streams = read.streams;
                let inquiry = Inquiry {
                    document: &read.document,
                    options: &judgement.names.options,
                };
                let form = Form::Page(&extras);
                explore_named(
                    world,
                    inquiry,
                    form,
                    streams,
                    judgement,
                    &page.wishes,
                    gate,
                    output,
                )
            }
            Err(fault) => Err(fault),
        },
        Err(fault) => Err(fault),
    }
}

/// Does the same with the object of the report in place of the page, without notes: where the cuts of its answers stand
/// is found in the streams' files, which are read once more.
///
/// # Errors
/// `Read`, if a file can't be opened or the document can't be read, and `Memory` leave nothing written. `Write` leaves
/// a part of the object written, or all of it if only the flush failed.
pub fn object_files<Y: System, G: Gate + Sync, O: Write>(
    world: &World<'_, Y>,
    judgement: &Judgement<'_>,
    gate: &G,
    output: &mut O,
) -> Result<Option<Report>, EngineFault>
    ensures { ExplorationLeaves (Y.Files.file_of world.now.files.now) (options_view judgement.now.names.options)
        (fail_on_view judgement.now.fail_on) AskedObject judgement.now.names.spec.now
        (session_view judgement.now.names).1 (named_ending (fail_on_view judgement.now.fail_on) result)
        (O.contents output.old) (O.contents output.new) }
{
    match read_session(world, &judgement.names) {
        Ok(read) => {
            let streams = read.streams;
            let inquiry = Inquiry {
                document: &read.document,
                options: &judgement.names.options,
            };
            let form = Form::Object;
            explore_named(world, inquiry, form, streams, judgement, &[], gate, output)
        }
        Err(fault) => Err(fault),
    }
}
