//! Checks a report's evidence.
ghost use Rattle.judge_check.specs.Views.{finding_view};
ghost use Rattle.judge_draw.specs.Checks.{Finds, FindsOf, good_as};
ghost use Rattle.def_format.specs.Documents.{plain};
ghost use Rattle.def_judgement.specs.Writes.{IsFindingTextOf, Writes};
ghost use Rattle.pd_report.specs.Views.{report_view};
ghost use Rattle.judge_session.specs.Ends.{call_end};
ghost use Rattle.judge_session.specs.Inquiries.{inquiry_view};
ghost use Rattle.judge_session.specs.SessionReports.{IsReportOfInputs};
ghost use Rattle.judge_session.specs.Unanswered.{IsUnanswered};
ghost use Rattle.std.specs.Prelude.{◌≡◌, ◌⊎◌, All, IfErr, IfOk, IsOkUnless, false, map};

use super::session::read_session;
use judge_check::{Finding, find_formed, find_refused, text};
use judge_session::{EngineFault, Inquiry, Unanswered, computation_of};
use pd_gather::ByteSource;
use pd_report::{Report, ReportFault, write_all};
use pd_spec::Options;
use std::alloc::Global;
use std::io::Write;
use std::random::RandomSource;
use std::sync::Wait;
use std::thread::Threads;

/// What is found of a report, if the session is well formed, or why it comes to no answers.
fn find_in_session<S: RandomSource + Threads + Wait + Sync, R: ByteSource + Send + Drop>(
    rt: &S,
    alloc: Global,
    claimed: &Report,
    inquiry: Inquiry<'_, '_, '_>,
    streams: Vec<R>,
) -> Result<Finding, Unanswered>
    requires open { All (λ r. R.has_ended r ≡ false) streams.items }
    ensures found { IfOk result (λ finding. FindsOf (inquiry_view inquiry.entry) (report_view claimed.now)
        (map R.left streams.items) (finding_view finding)) }
    ensures refused { IfErr result (IsUnanswered
        (IsReportOfInputs (inquiry_view inquiry.entry) (map R.left streams.items))) }
{
    let session = read_session(rt, alloc, inquiry, streams)?;
    let (computation, messages) = computation_of(rt, alloc, &session.spec, &session.traces)?;
    Ok(find_formed(alloc, &session.spec, claimed, &computation, messages)?)
}

/// What is found of a report that is read.
fn find_claimed<S: RandomSource + Threads + Wait + Sync, R: ByteSource + Send + Drop>(
    rt: &S,
    alloc: Global,
    claimed: &Report,
    inquiry: Inquiry<'_, '_, '_>,
    streams: Vec<R>,
) -> Result<Finding, EngineFault>
    requires open { All (λ r. R.has_ended r ≡ false) streams.items }
    ensures found { IfOk result (λ finding. FindsOf (inquiry_view inquiry.entry) (report_view claimed.now)
        (map R.left streams.items) (finding_view finding)) }
    ensures err { IsOkUnless result EngineFault.Memory }
{
    match find_in_session(rt, alloc, claimed, inquiry, streams) {
        Ok(finding) => Ok(finding),
        Err(unanswered) => match unanswered {
            Unanswered::Refused(refusal) => Ok(find_refused(claimed, &refusal)),
            Unanswered::Memory => Err(EngineFault::Memory),
        },
    }
}

/// What a check finds of a report's bytes: what `check_inquiry` writes.
///
/// # Errors
/// `Memory`. A read that fails is a fault of its stream.
pub fn finding_of<S: RandomSource + Threads + Wait + Sync, R: ByteSource + Send + Drop>(
    rt: &S,
    alloc: Global,
    inquiry: Inquiry<'_, '_, '_>,
    report: &[u8],
    streams: Vec<R>,
) -> Result<Finding, EngineFault>
    requires open { All (λ r. R.has_ended r ≡ false) streams.items }
    ensures found { IfOk result (λ finding. Finds (inquiry_view inquiry.entry) report.now (map R.left streams.items)
        (finding_view finding)) }
    ensures err { IsOkUnless result EngineFault.Memory }
{
    match pd_report::read(alloc, report) {
        Ok(claimed) => find_claimed(rt, alloc, &claimed, inquiry, streams),
        Err(ReportFault::Line(line)) => Ok(Finding::NotRead(line)),
        Err(ReportFault::Memory) => Err(EngineFault::Memory),
    }
}

/// Checks a report against the session of the document in these bytes, as `check_inquiry` does where nothing is asked
/// beside it.
///
/// # Errors
/// As `check_inquiry`.
pub fn check<S: RandomSource + Threads + Wait + Sync, R: ByteSource + Send + Drop, W: Write>(
    rt: &S,
    alloc: Global,
    spec: &[u8],
    report: &[u8],
    streams: Vec<R>,
    writer: &mut W,
) -> Result<bool, EngineFault>
    requires open { All (λ r. R.has_ended r ≡ false) streams.items }
    ensures written { Writes (IsFindingTextOf (plain spec.now) report.now (map R.left streams.items) (good_as result))
        (call_end result) (W.contents writer.old) (W.contents writer.new) }
    ensures err { IfErr result (λ fault. (fault ≡ EngineFault.Memory) ⊎ (fault ≡ EngineFault.Write)) }
{
    let options = Options::none(alloc);
    let inquiry = Inquiry {
        document: spec,
        options: &options,
    };
    check_inquiry(rt, alloc, inquiry, report, streams, writer)
}

/// Checks a report against the session that it is said to be of, and writes what it finds: that the report's bytes are
/// no report, and from which line on; or whether the session is refused as the report says; or whether the report's
/// counts and names are the session's and, for each predicate, whether the cut that is printed is consistent and
/// satisfies, and the path that is printed is that of an observation with no satisfying cut. The streams are read each
/// on its own thread, and only if the report is read, the document isn't refused and they aren't too many. The result
/// is whether nothing that was found is bad.
///
/// # Errors
/// `Memory` leaves nothing written. `Write` leaves a prefix of the text written, and not all of it. A read that fails
/// is a fault of its stream.
pub fn check_inquiry<
    S: RandomSource + Threads + Wait + Sync,
    R: ByteSource + Send + Drop,
    W: Write,
>(
    rt: &S,
    alloc: Global,
    inquiry: Inquiry<'_, '_, '_>,
    report: &[u8],
    streams: Vec<R>,
    writer: &mut W,
) -> Result<bool, EngineFault>
    requires open { All (λ r. R.has_ended r ≡ false) streams.items }
    // The text of what the check finds is written whole, and true is reported exactly if no line of it ends with the
    // word `bad` and none says that the report isn't read; a write that fails leaves a prefix of that text, and out of
    // memory leaves nothing.
    ensures written { Writes (IsFindingTextOf (inquiry_view inquiry.entry) report.now (map R.left streams.items)
        (good_as result)) (call_end result) (W.contents writer.old) (W.contents writer.new) }
    ensures err { IfErr result (λ fault. (fault ≡ EngineFault.Memory) ⊎ (fault ≡ EngineFault.Write)) }
{
    def_judgement::clean_is_clean();
    let finding = finding_of(rt, alloc, inquiry, report, streams)?;
    let text = text(alloc, &finding)?;
    write_all(&text, writer)?;
    Ok(finding.is_clean())
}
