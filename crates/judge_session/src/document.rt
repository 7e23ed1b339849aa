//! Reads the document of a session.
ghost use Rattle.judge_session.specs.Inquiries.{inquiry_view};
ghost use Rattle.judge_session.specs.Unanswered.{IsUnanswered, NamesNoCycle};
ghost use Rattle.def_format.specs.Documents.{IsDocument, plain};
ghost use Rattle.def_judgement.specs.Judgements.{IsJudgement, RawStream};
ghost use Rattle.pd_spec.specs.Views.{document_view};
ghost use Rattle.std.specs.Prelude.{IfErr, IfOk, List};

use super::inquiry::Inquiry;
use super::refusal::of_document;
use super::unanswered::Unanswered;
use pd_spec::{Options, Spec};
use std::alloc::Global;

/// The document of an inquiry, with what is asked in place of what its bytes say, or its refusal, which is the report
/// of the session whatever its streams are.
///
/// # Errors
/// `Refused` if the document is refused, and `Memory`.
pub fn read_inquiry(alloc: Global, inquiry: Inquiry<'_, '_, '_>) -> Result<Spec, Unanswered>
    ensures read { IfOk result (λ spec. IsDocument (inquiry_view inquiry.entry) (document_view spec)) }
    ensures refused { IfErr result (IsUnanswered (λ report. (streams : List RawStream)
        → IsJudgement (inquiry_view inquiry.entry) streams report)) }
    ensures no_cycle { IfErr result (IsUnanswered NamesNoCycle) }
{
    match Spec::read_with_options(alloc, inquiry.document, inquiry.options) {
        Ok(spec) => Ok(spec),
        Err(fault) => Err(Unanswered::Refused(of_document(alloc, fault)?)),
    }
}

/// The document in these bytes, of which nothing is asked beside them, or its refusal.
///
/// # Errors
/// As `read_inquiry`.
pub fn read_document(alloc: Global, bytes: &[u8]) -> Result<Spec, Unanswered>
    ensures read { IfOk result (λ spec. IsDocument (plain bytes.now) (document_view spec)) }
    ensures refused { IfErr result (IsUnanswered (λ report. (streams : List RawStream)
        → IsJudgement (plain bytes.now) streams report)) }
{
    let options = Options::none(alloc);
    let inquiry = Inquiry {
        document: bytes,
        options: &options,
    };
    read_inquiry(alloc, inquiry)
}
