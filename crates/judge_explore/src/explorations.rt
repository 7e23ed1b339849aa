//! Explores a session: makes its page or its object, and writes it.
ghost use Rattle.judge_explore.specs.Explored.{IsKept, IsOwed, IsOwnRefusal, IsPageOfInputs, is_cycle, refusal_text};
ghost use Rattle.judge_explore.specs.FileViews.{files_view};
ghost use Rattle.judge_explore.specs.Sources.{StreamFile as SourceFile};
ghost use Rattle.judge_explore.specs.Explored.{Form as Made};
ghost use Rattle.judge_explore.specs.Forms.{form_view};
ghost use Rattle.def_format.specs.Documents as documents;
ghost use Rattle.def_format.specs.Limits.{worker_limit};
ghost use Rattle.def_format.specs.Reports.{Refused};
ghost use Rattle.def_judgement.specs.Writes.{Source as StreamSource, Writes};
ghost use Rattle.pd_engine.specs.Ends.{IsGiven};
ghost use Rattle.pd_report.specs.Views.{refusal_view, report_view};
ghost use Rattle.judge_session.specs.Ends.{call_end};
ghost use Rattle.judge_session.specs.Inquiries.{inquiry_view};
ghost use Rattle.judge_session.specs.Unanswered.{IsUnanswered};
ghost use Rattle.std.specs.Prelude.{◌≡◌, ◌≤◌, All, IfErr, IfOk, List, Ok, false, map};

use super::form::Form;
use super::page::Page;
use super::pages::page_of_session;
use super::stream_file::StreamFile;
use judge_session::{EngineFault, Inquiry, Unanswered};
use out_json::json_text;
use out_page::refusal_page;
use pd_expand::Crew;
use pd_gather::{ByteSource, NoObserver, Observer};
use pd_level::Gate;
use pd_pred::Names;
use pd_report::{Refusal, Report, write_all};
use std::alloc::{AllocError, Global};
use std::io::Write;
use std::random::RandomSource;
use std::sync::Wait;
use std::thread::Threads;

/// Whether a refusal is for a causal cycle.
fn is_cycle(refusal: &Refusal) -> bool
    ensures { result ≡ is_cycle (Refused (refusal_view refusal.now)) }
{
    match refusal {
        Refusal::Cycle(_) => true,
        _ => false,
    }
}

/// Why a session comes to no page. No refusal that comes here is for a causal cycle, of which there is a page; one that
/// is gives nothing.
fn without_cycle(unanswered: Unanswered) -> Unanswered
    ensures { IsUnanswered (IsKept unanswered) result }
{
    match unanswered {
        Unanswered::Refused(refusal) => {
            if is_cycle(&refusal) {
                return Unanswered::Memory;
            }
            Unanswered::Refused(refusal)
        }
        Unanswered::Memory => Unanswered::Memory,
    }
}

/// The page or the object of a session, or why it comes to none, as `explore` gives it, by this crew. The observer, if
/// there is one, watches while the streams are read.
fn page_by_crew<
    S: RandomSource + Threads + Wait + Sync,
    R: ByteSource + Send + Drop,
    G: Gate + Sync,
    O: Observer + Sync,
>(
    crew: &Crew<'_, '_, S, G>,
    alloc: Global,
    inquiry: Inquiry<'_, '_, '_>,
    form: Form<'_, '_>,
    files: &[StreamFile<'_>],
    readers: Vec<R>,
    observer: Option<&O>,
) -> Result<Page, Unanswered>
    requires { All (λ r. R.has_ended r ≡ false) readers.items }
    ensures page { IfOk result (λ page. IsPageOfInputs (inquiry_view inquiry.entry) (form_view form.entry)
        (files_view files.now) (map R.left readers.items) (IsGiven (Ok page.report)) page.text.items) }
    ensures refused { IfErr result (IsUnanswered
        (IsOwnRefusal (inquiry_view inquiry.entry) (map R.left readers.items))) }
{
    match page_of_session(crew, alloc, inquiry, form, files, readers, observer) {
        Ok(page) => Ok(page),
        Err(unanswered) => Err(without_cycle(unanswered)),
    }
}

/// Explores the session of an inquiry's document and of the streams: judges it, and gives its page, with the answers of
/// its report, or its object in place of that. Of a session that is refused for a causal cycle the page shows the
/// cycle; of one that is refused otherwise the refusal is given, of which `refused_page` is the page. The page has what
/// is to stand beside the session, and says where each event was recorded, by these files; the object says it of the
/// last events of each cut. The streams are read each on its own thread; none is read if the document is refused, or if
/// they are too many. A read that fails is a fault of its stream. The workers, from 1 to 16, and the gate change how
/// long it takes, and nothing of the page.
///
/// # Errors
/// A refusal that is for no causal cycle, and `Memory`.
pub fn explore<
    S: RandomSource + Threads + Wait + Sync,
    R: ByteSource + Send + Drop,
    G: Gate + Sync,
>(
    rt: &S,
    alloc: Global,
    inquiry: Inquiry<'_, '_, '_>,
    form: Form<'_, '_>,
    files: &[StreamFile<'_>],
    readers: Vec<R>,
    workers: u64,
    gate: &G,
) -> Result<Page, Unanswered>
    requires open { All (λ r. R.has_ended r ≡ false) readers.items }
    requires some_workers { 1 ≤ workers }
    requires few_workers { workers ≤ worker_limit }
    ensures page { IfOk result (λ page. IsPageOfInputs (inquiry_view inquiry.entry) (form_view form.entry)
        (files_view files.now) (map R.left readers.items) (IsGiven (Ok page.report)) page.text.items) }
    ensures refused { IfErr result (IsUnanswered
        (IsOwnRefusal (inquiry_view inquiry.entry) (map R.left readers.items))) }
{
    let crew = Crew::new(rt, workers, gate);
    page_by_crew(
        &crew,
        alloc,
        inquiry,
        form,
        files,
        readers,
        None::<&NoObserver>,
    )
}

/// Explores a session as `explore` does, by this crew. The observer watches while the streams are read.
///
/// # Errors
/// A refusal that is for no causal cycle, and `Memory`.
pub fn explore_watched<
    S: RandomSource + Threads + Wait + Sync,
    R: ByteSource + Send + Drop,
    G: Gate + Sync,
    O: Observer + Sync,
>(
    crew: &Crew<'_, '_, S, G>,
    alloc: Global,
    inquiry: Inquiry<'_, '_, '_>,
    form: Form<'_, '_>,
    files: &[StreamFile<'_>],
    readers: Vec<R>,
    observer: &O,
) -> Result<Page, Unanswered>
    requires { All (λ r. R.has_ended r ≡ false) readers.items }
    ensures page { IfOk result (λ page. IsPageOfInputs (inquiry_view inquiry.entry) (form_view form.entry)
        (files_view files.now) (map R.left readers.items) (IsGiven (Ok page.report)) page.text.items) }
    ensures refused { IfErr result (IsUnanswered
        (IsOwnRefusal (inquiry_view inquiry.entry) (map R.left readers.items))) }
{
    page_by_crew(crew, alloc, inquiry, form, files, readers, Some(observer))
}

/// The text of a refusal's report in this form, with this explanation.
fn refusal_text(
    alloc: Global,
    form: Form<'_, '_>,
    report: &Report,
    explanation: &[u8],
) -> Result<Vec<u8>, AllocError>
    ensures { IfOk result (λ text. text.items ≡ refusal_text (form_view form.entry) (report_view report.now)
        explanation.now) }
{
    match form {
        Form::Page(_) => refusal_page(alloc, report, explanation),
        Form::Object => {
            let none = Names::new(Vec::new(alloc));
            json_text(alloc, &none, report)
        }
    }
}

/// The page of a refusal, with this explanation, which may be any bytes; or its object, which has none.
///
/// # Errors
/// Out of memory.
pub fn refused_page(
    alloc: Global,
    form: Form<'_, '_>,
    refusal: Refusal,
    explanation: &[u8],
) -> Result<Page, AllocError>
    // It is owed of each inquiry and of readers of which this is the refusal, whatever the files.
    ensures { IfOk result (λ page. (inquiry : documents.Inquiry) (files : List SourceFile)
        (inputs : List StreamSource) → IsOwnRefusal inquiry inputs (Refused (refusal_view refusal))
        → IsOwed inquiry (form_view form.entry) files inputs (IsGiven (Ok page.report)) page.text.items) }
{
    let report = Report::Refused(refusal);
    let text = refusal_text(alloc, form, &report, explanation)?;
    Ok(Page { text, report })
}

/// Writes the text of a page, and gives the session's report.
fn write_text<W: Write>(page: Page, writer: &mut W) -> Result<Report, EngineFault>
    ensures written { Writes (λ text. text ≡ page.text.items) (call_end result) (W.contents writer.old)
        (W.contents writer.new) }
    ensures report { IfOk result (λ report. report ≡ page.report) }
    ensures err { IfErr result (λ fault. fault ≡ EngineFault.Write) }
{
    let Page { text, report } = page;
    write_all(&text, writer)?;
    Ok(report)
}

/// Writes a page, and gives the session's report.
///
/// # Errors
/// `Write` leaves a prefix of the text written, and not all of it.
pub fn write_page<W: Write>(page: Page, writer: &mut W) -> Result<Report, EngineFault>
    // If the page is owed of a session, that is written.
    ensures written { (inquiry : documents.Inquiry) (form : Made) (files : List SourceFile)
        (inputs : List StreamSource) → IsOwed inquiry form files inputs (IsGiven (Ok page.report)) page.text.items
        → Writes (IsOwed inquiry form files inputs (IsGiven result)) (call_end result)
        (W.contents writer.old) (W.contents writer.new) }
    ensures err { IfErr result (λ fault. fault ≡ EngineFault.Write) }
{
    write_text(page, writer)
}
