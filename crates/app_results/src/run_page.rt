//! What is made of a recorded run: its page, or the object of its report.
ghost use Rattle.app_arguments.specs.Views.{page_view};
ghost use Rattle.app_host.specs.FileSources.{bytes_in};
ghost use Rattle.app_test.specs.Tests.{streams_in};
ghost use Rattle.def_format.specs.Documents.{IsDocument, inquiry_of};
ghost use Rattle.judge_runs.specs.Views.{wish_view, wishes_view};
ghost use Rattle.app_explore.specs.Explorations.{Asked, AskedObject, IsFormOf};
ghost use Rattle.app_results.specs.RunPages.{IsMadeOfDocument, IsMadeOfFolder, IsMadeOfRun, IsPageOfRun, is_named, named_wishes, page_of_wishes};
ghost use Rattle.app_results.specs.RunReports.{IsLineOf};
ghost use Rattle.judge_explore.specs.Explored.{Object};
ghost use Rattle.judge_explore.specs.Forms.{form_view};
ghost use Rattle.serde_json.specs.Data.{Data};
ghost use Rattle.pd_spec.specs.Views.{document_view, options_view};
ghost use Rattle.std.specs.Prelude.{◌≡◌, IfOk, map, string_bytes};

use super::bundle_pages::bundle_text;
use app_arguments::{PageOptions, Test};
use app_explore::{extras_of, stream_files};
use app_host::{FileSource, System, World, is_out_of_memory};
use app_test::{Unopened, document_in, open_streams, read_run_document, stream_in};
use judge_bundles::is_bundle_name;
use judge_explore::{Form, Page, explore};
use judge_runs::{Wish, first_unnamed};
use judge_session::{EngineFault, Unanswered};
use pd_engine::{Gate, Inquiry};
use pd_spec::Spec;
use std::alloc::{AllocError, Global};

/// Whether a wish is for the predicate of a name.
fn is_named(wish: &Wish<'_>) -> bool
    ensures { result ≡ is_named (wish_view wish.now).name }
{
    match wish.name {
        Some(_) => true,
        None => false,
    }
}

/// The wishes for predicates of a name.
fn named_wishes<'a>(alloc: Global, wishes: &[Wish<'a>]) -> Result<Vec<Wish<'a>>, AllocError>
    ensures { IfOk result (λ named. wishes_view named.items ≡ named_wishes (wishes_view wishes.now)) }
{
    let mut named = Vec::new(alloc);
    for wish in wishes {
        if is_named(wish) {
            named.push(*wish)?;
        }
    }
    Ok(named)
}

/// What is asked of the page of a run of which this is wished.
fn page_options<'a>(alloc: Global, wishes: &[Wish<'a>]) -> Result<PageOptions<'a>, AllocError>
    ensures { IfOk result (λ page. page_view page ≡ page_of_wishes (wishes_view wishes.now)) }
{
    Ok(PageOptions {
        wishes: named_wishes(alloc, wishes)?,
        notes: Vec::new(alloc),
        link: None,
    })
}

/// The names of the files of the streams of a document's processes in a run's folder, in the document's order.
fn stream_names(alloc: Global, folder: &str, spec: &Spec) -> Result<Vec<String>, AllocError>
    ensures { IfOk result (λ names. map string_bytes names.items
        ≡ streams_in folder.now (document_view spec.now).names) }
{
    let mut names = Vec::new(alloc);
    for place in 0..spec.names().processes() {
        names.push(stream_in(alloc, folder, spec.names().name(place))?)?;
    }
    Ok(names)
}

/// These texts, lent.
fn texts_of<'a>(alloc: Global, texts: &'a [String]) -> Result<Vec<&'a str>, AllocError>
    ensures { IfOk result (λ lent. map (λ text. text.now) lent.items ≡ map string_bytes texts.now) }
{
    let mut lent = Vec::new(alloc);
    for text in texts {
        lent.push(text.as_str())?;
    }
    Ok(lent)
}

/// Whether each of these files can be read a second time. What a pipe gave is gone, and to open it again would wait for
/// someone who writes.
pub(crate) fn can_be_reread<Y: System>(world: &World<'_, Y>, names: &[&str]) -> bool {
    for name in names {
        if !world.files.can_be_reread(name) {
            return false;
        }
    }
    true
}

/// The fault of what is to be made of a run whose streams aren't open for this reason.
fn unopened_fault(unopened: Unopened) -> EngineFault {
    match unopened {
        Unopened::Stream(_) => EngineFault::Read,
        Unopened::Memory => EngineFault::Memory,
    }
}

/// What is made in this form of the run in this folder, whose document was read, with what is asked.
///
/// # Errors
/// `Read`, if a stream can't be opened, or the session is refused, and `Memory`.
fn document_text<Y: System, G: Gate + Sync>(
    world: &World<'_, Y>,
    folder: &str,
    document: &[u8],
    spec: &Spec,
    test: &Test<'_>,
    form: Form<'_, '_>,
    gate: &G,
) -> Result<Vec<u8>, EngineFault>
    requires { IsDocument (inquiry_of (options_view test.now.options) document.now) (document_view spec.now) }
    // This is said for all that may be asked for in this form.
    ensures { (asked : Asked) → IsFormOf (bytes_in (Y.Files.file_of world.now.files.now)) asked (form_view form.entry)
        → IfOk result (λ text. IsMadeOfDocument (Y.Files.file_of world.now.files.now) asked folder.now
        (inquiry_of (options_view test.now.options) document.now) text.items) }
{
    let alloc = world.alloc;
    let files = stream_names(alloc, folder, spec)?;
    let names = texts_of(alloc, &files)?;
    if !can_be_reread(world, &names) {
        return Err(EngineFault::Read);
    }
    let streams = match open_streams(world, folder, spec) {
        Ok(streams) => streams,
        Err(unopened) => return Err(unopened_fault(unopened)),
    };
    let sources = stream_files(world, &names)?;
    let inquiry = Inquiry {
        document,
        options: &test.options,
    };
    let workers = test.workers.count();
    match explore(
        world.rt, alloc, inquiry, form, &sources, streams, workers, gate,
    ) {
        Ok(page) => {
            let Page { text, report: _ } = page;
            Ok(text)
        }
        Err(Unanswered::Memory) => Err(EngineFault::Memory),
        Err(Unanswered::Refused(_)) => Err(EngineFault::Read),
    }
}

/// What is made in this form of the run in this folder, with what is asked of it; its files are read once more.
///
/// # Errors
/// `Read`, if a file can't be opened, the document can't be read, is refused or lacks a predicate that is wished for,
/// and `Memory`.
fn folder_text<Y: System, G: Gate + Sync>(
    world: &World<'_, Y>,
    folder: &str,
    test: &Test<'_>,
    form: Form<'_, '_>,
    gate: &G,
) -> Result<Vec<u8>, EngineFault>
    ensures { (asked : Asked) → IsFormOf (bytes_in (Y.Files.file_of world.now.files.now)) asked (form_view form.entry)
        → IfOk result (λ text. IsMadeOfFolder (Y.Files.file_of world.now.files.now) (options_view test.now.options)
        asked folder.now text.items) }
{
    let path = document_in(world.alloc, folder)?;
    if !can_be_reread(world, &[path.as_str()]) {
        return Err(EngineFault::Read);
    }
    let document = read_run_document(world, &path)?;
    match Spec::read_with_options(world.alloc, &document, &test.options) {
        Ok(spec) => {
            if first_unnamed(&test.wishes, spec.predicates()).is_some() {
                return Err(EngineFault::Read);
            }
            document_text(world, folder, &document, &spec, test, form, gate)
        }
        Err(fault) => {
            if is_out_of_memory(&fault) {
                return Err(EngineFault::Memory);
            }
            Err(EngineFault::Read)
        }
    }
}

/// What is made in this form of the run of this name, with what is asked of it; its files, or that of the bundle, are
/// read once more.
///
/// # Errors
/// `Read`, if a file can't be opened or read, or the session is refused or lacks a predicate that is wished for, and
/// `Memory`.
fn run_text<Y: System, G: Gate + Sync>(
    world: &World<'_, Y>,
    name: &str,
    test: &Test<'_>,
    form: Form<'_, '_>,
    gate: &G,
) -> Result<Vec<u8>, EngineFault>
    ensures made { (asked : Asked)
        → IsFormOf (bytes_in (Y.Files.file_of world.now.files.now)) asked (form_view form.entry)
        → IfOk result (λ text. IsMadeOfRun (Y.Files.file_of world.now.files.now) (options_view test.now.options) asked
        name.now text.items) }
    // An object is a line of JSON.
    ensures line { form_view form.entry ≡ Object
        → IfOk result (λ text. (report : Data) × IsLineOf report text.items) }
{
    if is_bundle_name(name) {
        return bundle_text(world, name, test, form, gate);
    }
    folder_text(world, name, test, form, gate)
}

/// The page of the run of this name, on which it is explored with what is asked and wished of it; its files, or that of
/// the bundle, are read once more.
///
/// # Errors
/// As `run_text`.
pub(crate) fn run_page<Y: System, G: Gate + Sync>(
    world: &World<'_, Y>,
    name: &str,
    test: &Test<'_>,
    gate: &G,
) -> Result<Vec<u8>, EngineFault>
    ensures { IfOk result (λ text. IsPageOfRun (Y.Files.file_of world.now.files.now) (options_view test.now.options)
        (wishes_view test.now.wishes.items) name.now text.items) }
{
    let asked = page_options(world.alloc, &test.wishes)?;
    let extras = extras_of(world, &asked, 0)?;
    let form = Form::Page(&extras);
    run_text(world, name, test, form, gate)
}

/// The object of the run of this name, as `judge` writes it, with what is asked of the run; its files, or that of the
/// bundle, are read once more.
///
/// # Errors
/// As `run_text`.
pub(crate) fn run_object<Y: System, G: Gate + Sync>(
    world: &World<'_, Y>,
    name: &str,
    test: &Test<'_>,
    gate: &G,
) -> Result<Vec<u8>, EngineFault>
    ensures made { IfOk result (λ text. IsMadeOfRun (Y.Files.file_of world.now.files.now)
        (options_view test.now.options) AskedObject name.now text.items) }
    ensures line { IfOk result (λ text. (report : Data) × IsLineOf report text.items) }
{
    let form = Form::Object;
    run_text(world, name, test, form, gate)
}
