//! What a picture says in words.
ghost use Rattle.out_picture.specs.Cycles.{cycle_description, cycle_legend};
ghost use Rattle.out_picture.specs.Layout.{upto};
ghost use Rattle.out_picture.specs.Pictures.{count_words, counts_text, crossing_words, cut_words, description, heading_shapes, legend, point, process_words, texts_view, where_worth, window_note};
ghost use Rattle.out_picture.specs.Shapes.{SeenText, all_seen};
ghost use Rattle.std.specs.Prelude.{◌≡◌, ◌++◌, ◌∷◌, [], IfOk, OnOk, string_bytes};

use super::Evidence;
use super::shapes::push_text;
use super::texts::{push_decimal, push_words, shortened, text_at};
use super::window::{Window, count_at};
use out_svg::{Anchor, Class, Point, Shape};
use pd_clock::Computation;
use std::alloc::{AllocError, Global};

/// What the shapes mean.
pub(crate) fn legend(evidence: &Evidence) -> &'static str
    ensures { result.now ≡ legend evidence.now }
{
    match evidence {
        Evidence::Absent => {
            "Dots are events, arrows are messages; a broken arrow is a message in flight."
        }
        Evidence::Cut { .. } => {
            "The thick line is a cut; open dots have not happened. Numbers above dots: an order of events through it."
        }
        Evidence::Observation(_) => {
            "The numbers above the dots are the order of an observation in which no cut satisfies."
        }
    }
}

/// Which columns are shown, if not all are.
fn window_note(alloc: Global, window: Window, widest: u32) -> Result<String, AllocError>
    ensures { IfOk result (λ text. string_bytes text ≡ window_note window widest) }
{
    if u32::from(window.shown) >= widest {
        return String::from_str(alloc, "All events are shown.");
    }
    let first = u64::from(window.first);
    let last = (first + u64::from(window.shown)).saturating_sub(1);
    let mut text = String::from_str(alloc, "Columns ")?;
    push_decimal(alloc, &mut text, first)?;
    push_words(&mut text, " to ")?;
    push_decimal(alloc, &mut text, last)?;
    push_words(&mut text, " of ")?;
    push_decimal(alloc, &mut text, u64::from(widest))?;
    push_words(
        &mut text,
        " are shown. A diamond stands for an event before or after them.",
    )?;
    Ok(text)
}

/// Adds a remark.
fn push_note(shapes: &mut Vec<Shape>, y: u32, text: String) -> Result<(), AllocError>
    ensures { OnOk result (all_seen shapes.new.items ≡ all_seen shapes.old.items
        ++ SeenText Class.Note (point 24 y) Anchor.Start 13 (string_bytes text) ∷ []) }
{
    push_text(
        shapes,
        Class::Note,
        Point { x: 24, y },
        Anchor::Start,
        13,
        text,
    )
}

/// Adds the title, what the shapes mean, and which columns are shown.
pub(crate) fn push_headings(
    alloc: Global,
    shapes: &mut Vec<Shape>,
    window: Window,
    widest: u32,
    title: &str,
    legend: &str,
) -> Result<(), AllocError>
    ensures { OnOk result (all_seen shapes.new.items ≡ all_seen shapes.old.items
        ++ heading_shapes window widest title.now legend.now) }
{
    let heading = shortened(alloc, title, 112)?;
    push_text(
        shapes,
        Class::Name,
        Point { x: 24, y: 38 },
        Anchor::Start,
        18,
        heading,
    )?;
    push_note(shapes, 64, String::from_str(alloc, legend)?)?;
    push_note(shapes, 84, window_note(alloc, window, widest)?)
}

/// How many processes and events there are.
fn counts_text(alloc: Global, computation: &Computation<'_>) -> Result<String, AllocError>
    ensures { IfOk result (λ text. string_bytes text ≡ counts_text computation.now.events) }
{
    let mut text = String::new(alloc);
    push_decimal(alloc, &mut text, computation.processes() as u64)?;
    push_words(&mut text, " processes, ")?;
    push_decimal(alloc, &mut text, computation.total())?;
    push_words(&mut text, " events. ")?;
    Ok(text)
}

/// Appends these values after the word that leads to them, if there are some.
fn push_worth(text: &mut String, values: &str) -> Result<(), AllocError>
    ensures { OnOk result (string_bytes text.new ≡ string_bytes text.old ++ where_worth values.now) }
{
    if !values.is_empty() {
        push_words(text, ", where ")?;
        push_words(text, values)?;
    }
    Ok(())
}

/// Appends a number and a name, each after these words.
#[tactic(auto, unfolding(crate::specs::Pictures::count_words))]
fn push_count_words(
    alloc: Global,
    text: &mut String,
    before: &str,
    count: u64,
    between: &str,
    name: &str,
) -> Result<(), AllocError>
    ensures { OnOk result (string_bytes text.new ≡ string_bytes text.old
        ++ count_words before.now count between.now name.now) }
{
    push_words(text, before)?;
    push_decimal(alloc, text, count)?;
    push_words(text, between)?;
    push_words(text, name)
}

/// Appends how many events of the process of this name are in a cut, and what its variables are worth there.
fn push_process_words(
    alloc: Global,
    text: &mut String,
    count: u64,
    name: &str,
    values: &str,
) -> Result<(), AllocError>
    ensures { OnOk result (string_bytes text.new ≡ string_bytes text.old
        ++ process_words count name.now values.now) }
{
    push_count_words(alloc, text, " The cut has ", count, " events of ", name)?;
    push_worth(text, values)?;
    push_words(text, ".")?;
    Ok(())
}

/// Appends the same of the process with this number.
fn push_crossing_words(
    alloc: Global,
    text: &mut String,
    counts: &[u64],
    names: &[String],
    values: &[String],
    p: usize,
) -> Result<(), AllocError>
    ensures { OnOk result (string_bytes text.new ≡ string_bytes text.old
        ++ crossing_words counts.now (texts_view names.now) (texts_view values.now) p) }
{
    push_process_words(
        alloc,
        text,
        count_at(counts, p),
        text_at(names, p),
        text_at(values, p),
    )
}

/// Appends the same of each of these many processes.
fn push_crossings_words(
    alloc: Global,
    text: &mut String,
    counts: &[u64],
    names: &[String],
    values: &[String],
    lanes: usize,
) -> Result<(), AllocError>
    ensures { OnOk result (string_bytes text.new ≡ string_bytes text.old
        ++ upto (crossing_words counts.now (texts_view names.now) (texts_view values.now)) lanes) }
{
    for p in 0..lanes {
        push_crossing_words(alloc, text, counts, names, values, p)?;
    }
    Ok(())
}

/// Appends the same of each of these many processes, if the evidence is a cut.
fn push_cut_words(
    alloc: Global,
    text: &mut String,
    names: &[String],
    lanes: usize,
    evidence: &Evidence,
) -> Result<(), AllocError>
    ensures { OnOk result (string_bytes text.new ≡ string_bytes text.old
        ++ cut_words (texts_view names.now) lanes evidence.now) }
{
    match evidence {
        Evidence::Cut { counts, values, .. } => {
            push_crossings_words(alloc, text, counts, names, values, lanes)
        }
        Evidence::Absent | Evidence::Observation(_) => Ok(()),
    }
}

/// What stands in the picture, for those who don't see it.
pub(crate) fn description(
    alloc: Global,
    window: Window,
    widest: u32,
    computation: &Computation<'_>,
    names: &[String],
    evidence: &Evidence,
) -> Result<String, AllocError>
    ensures { IfOk result (λ text. string_bytes text
        ≡ description window widest computation.now.events (texts_view names.now) evidence.now) }
{
    let note = window_note(alloc, window, widest)?;
    let mut text = counts_text(alloc, computation)?;
    push_words(&mut text, legend(evidence))?;
    push_words(&mut text, " ")?;
    push_words(&mut text, &note)?;
    push_cut_words(alloc, &mut text, names, computation.processes(), evidence)?;
    Ok(text)
}

/// What the shapes mean in the picture of a cycle.
pub(crate) fn cycle_legend() -> &'static str
    ensures { result.now ≡ cycle_legend }
{
    "Thick: a causal cycle. Each ringed event receives what was sent after the next ringed event, and so around."
}

/// What stands in the picture of a cycle, for those who don't see it.
pub(crate) fn cycle_description(
    alloc: Global,
    window: Window,
    widest: u32,
) -> Result<String, AllocError>
    ensures { IfOk result (λ text. string_bytes text ≡ cycle_description window widest) }
{
    let note = window_note(alloc, window, widest)?;
    let mut text = String::from_str(alloc, cycle_legend())?;
    push_words(&mut text, " ")?;
    push_words(&mut text, &note)?;
    Ok(text)
}
