//! Labels: what is noted of events, below their dots.
ghost use Rattle.out_picture.specs.Notes.{AddsNotes, label_shapes};
ghost use Rattle.out_picture.specs.Shapes.{all_seen};
ghost use Rattle.std.specs.Prelude.{◌≡◌, ◌++◌, IfOk, OnOk, flat_map};

use super::label::{EventLabel, Label, NotedPicture};
use super::shapes::push_text;
use super::texts::{push_decimal, push_words};
use super::window::{Window, column_at};
use out_svg::{Anchor, Class, Drawing, Point, Shape};
use pd_clock::Place;
use std::alloc::{AllocError, Global};

/// How many places a label has for the text of a note.
const NOTE_PLACES: usize = 18;

/// How many places a character takes: those of scripts with wide characters take two.
fn places_of(c: char) -> usize {
    if c < '\u{1100}' { 1 } else { 2 }
}

/// A character as it stands in a label: a line break or a tab is a space, and what shows as no character, or turns the
/// direction of a text, is the character that stands for such.
fn shown_character(c: char) -> char {
    match c {
        '\t' | '\n' | '\r' => ' ',
        '\0'..='\u{1f}' | '\u{7f}'..='\u{9f}' | '\u{61c}' | '\u{200e}' | '\u{200f}' => '\u{fffd}',
        '\u{2028}'..='\u{202e}' | '\u{2066}'..='\u{2069}' => '\u{fffd}',
        _ => c,
    }
}

/// Appends the characters of a text for which a label has places, and three dots in one place if these aren't all.
fn push_beginning(out: &mut String, text: &str) -> Result<(), AllocError> {
    let mut places = 0usize;
    for c in text.chars() {
        places = places.saturating_add(places_of(c));
        if places > NOTE_PLACES {
            return out.push('…');
        }
        out.push(shown_character(c))?;
    }
    Ok(())
}

impl EventLabel {
    /// What is noted of an event: the text of a note, cut off after 18 places, and how many other notes it has.
    ///
    /// # Errors
    /// Out of memory.
    pub fn new(
        alloc: Global,
        event: Place,
        note: &str,
        others: u64,
    ) -> Result<EventLabel, AllocError> {
        let mut text = String::new(alloc);
        push_beginning(&mut text, note)?;
        if others > 0 {
            push_words(&mut text, " +")?;
            push_decimal(alloc, &mut text, others)?;
        }
        Ok(EventLabel { event, text })
    }
}

/// How far below its event a label stands in this column: below the event's number, and so that labels of three columns
/// side by side stand on a line each.
fn drop_of(column: u32) -> u32 {
    match column % 3 {
        1 => 44,
        2 => 54,
        _ => 64,
    }
}

/// Where the label of an event stands.
fn label_point(window: Window, rows: &[Vec<u32>], event: Place) -> Point {
    let at = window.event_point(rows, event);
    Point {
        x: at.x,
        y: at.y.saturating_add(drop_of(column_at(rows, event))),
    }
}

/// The labels of those events that are shown.
///
/// # Errors
/// Out of memory.
pub(crate) fn shown_labels(
    alloc: Global,
    window: Window,
    rows: &[Vec<u32>],
    labels: &[EventLabel],
) -> Result<Vec<Label>, AllocError> {
    let mut shown = Vec::new(alloc);
    for label in labels {
        if window.shows(column_at(rows, label.event)) {
            let at = label_point(window, rows, label.event);
            let text = String::from_str(alloc, &label.text)?;
            shown.push(Label { at, text })?;
        }
    }
    Ok(shown)
}

/// Adds a label.
fn push_label(alloc: Global, shapes: &mut Vec<Shape>, label: &Label) -> Result<(), AllocError>
    ensures { OnOk result (all_seen shapes.new.items ≡ all_seen shapes.old.items ++ label_shapes label.now) }
{
    let text = String::from_str(alloc, &label.text)?;
    push_text(shapes, Class::Note, label.at, Anchor::Middle, 10, text)
}

/// Adds labels.
fn push_labels(alloc: Global, shapes: &mut Vec<Shape>, labels: &[Label]) -> Result<(), AllocError>
    ensures { OnOk result (all_seen shapes.new.items
        ≡ all_seen shapes.old.items ++ flat_map label_shapes labels.now) }
{
    for label in labels {
        push_label(alloc, shapes, label)?;
    }
    Ok(())
}

/// The picture with its labels over all shapes, each as a text of the class of remarks, if it is to have them.
///
/// # Errors
/// Out of memory.
pub fn with_labels(
    alloc: Global,
    picture: NotedPicture,
    is_noted: bool,
) -> Result<Drawing, AllocError>
    ensures { IfOk result (AddsNotes is_noted picture.drawing) }
{
    let NotedPicture { drawing, labels } = picture;
    if !is_noted {
        return Ok(drawing);
    }
    let mut shapes = drawing.shapes;
    push_labels(alloc, &mut shapes, &labels)?;
    Ok(Drawing {
        width: drawing.width,
        height: drawing.height,
        title: drawing.title,
        description: drawing.description,
        shapes,
    })
}
