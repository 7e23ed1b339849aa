//! The page of a refusal.
ghost use Rattle.def_format.specs.Reports.{report_text};
ghost use Rattle.out_page.specs.JsonTexts.{lacks_less};
ghost use Rattle.out_page.specs.Pages.{refusal_data, refusal_page};
ghost use Rattle.pd_report.specs.Views.{report_view};
ghost use Rattle.std.specs.Prelude.{◌≡◌, ◌++◌, ℕ, List, IfOk, OnOk, true};

use super::json_texts::push_quoted;
use super::page::{push_after, text_before};
use pd_report::{Report, push_bytes};
use std::alloc::{AllocError, Global};

/// Appends the data of a refusal.
fn push_refusal(out: &mut Vec<u8>, report: &[u8], explanation: &[u8]) -> Result<(), AllocError>
    ensures { OnOk result (out.new.items ≡ out.old.items ++ refusal_data report.now explanation.now) }
{
    push_bytes(out, b"{\"format\":1,\"refusal\":[")?;
    push_quoted(out, report)?;
    push_bytes(out, b",")?;
    push_quoted(out, explanation)?;
    push_bytes(out, b"]}\n")?;
    Ok(())
}

/// The page of a refusal with this text of its report, and this explanation.
#[tactic(auto, unfolding(crate::specs::Pages::refusal_page))]
fn page_of(alloc: Global, report: &[u8], explanation: &[u8]) -> Result<Vec<u8>, AllocError>
    ensures { IfOk result (λ text. text.items ≡ refusal_page report.now explanation.now) }
{
    let mut out = Vec::new(alloc);
    push_bytes(&mut out, text_before())?;
    push_refusal(&mut out, report, explanation)?;
    push_after(&mut out)?;
    Ok(out)
}

/// The text of the page of a refusal: it shows the report as its text is, and this explanation, which may be any bytes.
///
/// # Errors
/// Out of memory.
pub fn refusal_page(
    alloc: Global,
    report: &Report,
    explanation: &[u8],
) -> Result<Vec<u8>, AllocError>
    ensures { IfOk result (λ text. text.items ≡ refusal_page (report_text (report_view report.now)) explanation.now) }
{
    let text = pd_report::text(alloc, report)?;
    page_of(alloc, &text, explanation)
}

/// The law of a refusal's data: whatever the report and the explanation are, no byte of it is `<`. It has no code.
pub fn refusal_lacks_less()
    ensures { (report explanation : List ℕ) → lacks_less (refusal_data report explanation) ≡ true }
{}
