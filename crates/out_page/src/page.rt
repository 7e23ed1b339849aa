//! A page's text, also written.
ghost use Rattle.pd_match.specs.Views.{pairs_view};
ghost use Rattle.out_page.specs.Pages.{page_text, text_after, text_before};
ghost use Rattle.out_page.specs.Written.{scripts, text_diagram, text_labels, text_lanes, text_main, text_matter, text_notes, text_panel, text_picture, text_pointer, text_predicate, text_refusal, text_run, text_verdict};
ghost use Rattle.out_page.specs.Views.{extras_view, outcome_view, sources_view};
ghost use Rattle.pd_spec.specs.Views.{document_view};
ghost use Rattle.read_traces.specs.Views.{computation_view};
ghost use Rattle.std.specs.Io.KnownBytes.{Appends, Keeps};
ghost use Rattle.std.specs.Prelude.{◌≡◌, ◌<◌, ◌++◌, ℕ, length, take, Err, IfOk, OnOk};

use super::Content;
use super::page_data::push_data;
use super::text_before::BEFORE;
use super::text_diagram::DIAGRAM;
use super::text_labels::LABELS;
use super::text_lanes::LANES;
use super::text_main::MAIN;
use super::text_matter::MATTER;
use super::text_notes::NOTES;
use super::text_panel::PANEL;
use super::text_picture::PICTURE;
use super::text_pointer::POINTER;
use super::text_predicate::PREDICATE;
use super::text_refusal::REFUSAL;
use super::text_run::RUN;
use super::text_verdict::VERDICT;
use pd_report::{WriteFault, push_bytes, write_all};
use std::alloc::{AllocError, Global};
use std::io::Write;

/// The page's text before its data.
#[tactic(auto, unfolding(crate::specs::Pages::text_before))]
pub(crate) fn text_before() -> &'static [u8]
    ensures { result.now ≡ text_before }
{
    BEFORE
}

/// The text with the script that knows what follows from the data.
#[tactic(auto, unfolding(crate::specs::Written::text_run))]
fn text_run() -> &'static [u8]
    ensures { result.now ≡ text_run }
{
    RUN
}

/// The text with the script that says what came of the run, and of its wishes.
#[tactic(auto, unfolding(crate::specs::Written::text_verdict))]
fn text_verdict() -> &'static [u8]
    ensures { result.now ≡ text_verdict }
{
    VERDICT
}

/// The text with the script that reads the notes of recorders.
#[tactic(auto, unfolding(crate::specs::Written::text_notes))]
fn text_notes() -> &'static [u8]
    ensures { result.now ≡ text_notes }
{
    NOTES
}

/// The text with the script that reads a predicate that is typed.
#[tactic(auto, unfolding(crate::specs::Written::text_predicate))]
fn text_predicate() -> &'static [u8]
    ensures { result.now ≡ text_predicate }
{
    PREDICATE
}

/// The text with the script that finds what matters to a predicate.
#[tactic(auto, unfolding(crate::specs::Written::text_matter))]
fn text_matter() -> &'static [u8]
    ensures { result.now ≡ text_matter }
{
    MATTER
}

/// The text with the script that orders and folds the lanes.
#[tactic(auto, unfolding(crate::specs::Written::text_lanes))]
fn text_lanes() -> &'static [u8]
    ensures { result.now ≡ text_lanes }
{
    LANES
}

/// The text with the script that writes notes and values on the drawing.
#[tactic(auto, unfolding(crate::specs::Written::text_labels))]
fn text_labels() -> &'static [u8]
    ensures { result.now ≡ text_labels }
{
    LABELS
}

/// The text with the script that draws the run.
#[tactic(auto, unfolding(crate::specs::Written::text_diagram))]
fn text_diagram() -> &'static [u8]
    ensures { result.now ≡ text_diagram }
{
    DIAGRAM
}

/// The text with the script that saves what is drawn.
#[tactic(auto, unfolding(crate::specs::Written::text_picture))]
fn text_picture() -> &'static [u8]
    ensures { result.now ≡ text_picture }
{
    PICTURE
}

/// The text with the script that shows what stands beside the run.
#[tactic(auto, unfolding(crate::specs::Written::text_panel))]
fn text_panel() -> &'static [u8]
    ensures { result.now ≡ text_panel }
{
    PANEL
}

/// The text with the script that shows a session that is refused.
#[tactic(auto, unfolding(crate::specs::Written::text_refusal))]
fn text_refusal() -> &'static [u8]
    ensures { result.now ≡ text_refusal }
{
    REFUSAL
}

/// The text with the script that follows the pointer.
#[tactic(auto, unfolding(crate::specs::Written::text_pointer))]
fn text_pointer() -> &'static [u8]
    ensures { result.now ≡ text_pointer }
{
    POINTER
}

/// The text with the script that starts the page, and the page's end.
#[tactic(auto, unfolding(crate::specs::Written::text_main))]
fn text_main() -> &'static [u8]
    ensures { result.now ≡ text_main }
{
    MAIN
}

/// Appends the scripts.
#[tactic(auto, unfolding(crate::specs::Written::scripts))]
fn push_scripts(out: &mut Vec<u8>) -> Result<(), AllocError>
    ensures { OnOk result (out.new.items ≡ out.old.items ++ scripts) }
{
    push_bytes(out, text_run())?;
    push_bytes(out, text_verdict())?;
    push_bytes(out, text_notes())?;
    push_bytes(out, text_predicate())?;
    push_bytes(out, text_matter())?;
    push_bytes(out, text_lanes())?;
    push_bytes(out, text_labels())?;
    push_bytes(out, text_diagram())?;
    push_bytes(out, text_picture())?;
    push_bytes(out, text_panel())?;
    push_bytes(out, text_refusal())?;
    push_bytes(out, text_pointer())?;
    push_bytes(out, text_main())
}

/// Appends the page's text after its data.
pub(crate) fn push_after(out: &mut Vec<u8>) -> Result<(), AllocError>
    ensures { OnOk result (out.new.items ≡ out.old.items ++ text_after) }
{
    push_scripts(out)?;
    Ok(())
}

/// A page's text: the text before the data, the data, and the text after it.
///
/// # Errors
/// Out of memory.
#[tactic(auto, unfolding(crate::specs::Pages::page_text))]
pub fn text(alloc: Global, content: &Content<'_, '_, '_>) -> Result<Vec<u8>, AllocError>
    ensures { IfOk result (λ text. text.items ≡ page_text (document_view content.now.spec.now)
        (extras_view content.now.extras.now) (sources_view content.now.sources.now)
        (computation_view content.now.traces.now) (pairs_view content.now.pairs.now) (outcome_view
        content.now.outcome)) }
{
    let mut out = Vec::new(alloc);
    push_bytes(&mut out, text_before())?;
    push_data(&mut out, content)?;
    push_after(&mut out)?;
    Ok(out)
}

/// Writes a page's text. It doesn't flush the writer.
///
/// # Errors
/// `Memory` leaves nothing written. `Write`, if the writer fails, in whatever way, or takes nothing, leaves a prefix
/// of the text written, and not all of it.
pub fn write<W: Write>(
    alloc: Global,
    content: &Content<'_, '_, '_>,
    writer: &mut W,
) -> Result<(), WriteFault>
    ensures written { OnOk result (Appends (W.contents writer.old) (W.contents writer.new)
        (page_text (document_view content.now.spec.now)
        (extras_view content.now.extras.now) (sources_view content.now.sources.now)
        (computation_view content.now.traces.now)
        (pairs_view content.now.pairs.now) (outcome_view content.now.outcome))) }
    ensures part { result ≡ Err WriteFault.Write → (taken : ℕ)
        × (taken < length (page_text (document_view content.now.spec.now)
        (extras_view content.now.extras.now) (sources_view content.now.sources.now)
        (computation_view content.now.traces.now)
        (pairs_view content.now.pairs.now) (outcome_view content.now.outcome)))
        × Appends (W.contents writer.old) (W.contents writer.new)
        (take taken (page_text (document_view content.now.spec.now)
        (extras_view content.now.extras.now) (sources_view content.now.sources.now)
        (computation_view content.now.traces.now)
        (pairs_view content.now.pairs.now) (outcome_view content.now.outcome))) }
    ensures memory { result ≡ Err WriteFault.Memory → Keeps (W.contents writer.old) (W.contents writer.new) }
{
    let text = text(alloc, content)?;
    write_all(&text, writer)
}
