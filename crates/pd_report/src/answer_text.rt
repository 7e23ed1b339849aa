//! The lines of answers.
ghost use Rattle.def_format.specs.Reports.{answer_lines, definitely_words, path_text, possibly_words, spaced, text_of_lines};
ghost use Rattle.pd_report.specs.Views.{answer_view, answers_text, definitely_line, definitely_view, possibly_line, possibly_view};
ghost use Rattle.std.specs.Prelude.{◌≡◌, ◌∷◌, ◌++◌, [], OnOk};

use super::answer::Answer;
use super::definitely::Definitely;
use super::fields::{push_bytes, push_names, push_number, push_numbers};
use super::path::Path;
use super::possibly::Possibly;
use std::alloc::AllocError;

/// Appends the words for whether a predicate possibly holds.
fn push_possibly(out: &mut Vec<u8>, possibly: &Possibly) -> Result<(), AllocError>
    ensures { OnOk result (out.new.items ≡ out.old.items ++ spaced (possibly_words (possibly_view possibly.now))) }
{
    match possibly {
        Possibly::Yes(counts) => {
            push_bytes(out, b"yes ")?;
            push_numbers(out, counts)
        }
        Possibly::No => push_bytes(out, b"no"),
        Possibly::Unknown(level) => {
            push_bytes(out, b"unknown ")?;
            push_number(out, *level)
        }
    }
}

/// Appends a path: names with a comma between each two, or `-` if there is none.
fn push_path(out: &mut Vec<u8>, path: &Path) -> Result<(), AllocError>
    ensures { OnOk result (out.new.items ≡ out.old.items ++ path_text path.now) }
{
    let (names, steps) = path.parts();
    if steps.is_empty() {
        return push_bytes(out, b"-");
    }
    push_names(out, names, steps)
}

/// Appends the words for whether a predicate definitely holds.
fn push_definitely(out: &mut Vec<u8>, definitely: &Definitely) -> Result<(), AllocError>
    ensures { OnOk result (out.new.items ≡ out.old.items
        ++ spaced (definitely_words (definitely_view definitely.now))) }
{
    match definitely {
        Definitely::Yes(level) => {
            push_bytes(out, b"yes ")?;
            push_number(out, *level)
        }
        Definitely::No(path) => {
            push_bytes(out, b"no ")?;
            push_path(out, path)
        }
        Definitely::Unknown(level) => {
            push_bytes(out, b"unknown ")?;
            push_number(out, *level)
        }
    }
}

/// Appends an answer's first line.
fn push_possibly_line(out: &mut Vec<u8>, answer: &Answer) -> Result<(), AllocError>
    ensures { OnOk result (out.new.items ≡ out.old.items ++ (possibly_line (answer_view answer.now) ++ 10 ∷ [])) }
{
    push_bytes(out, answer.name.as_bytes())?;
    push_bytes(out, b" possibly ")?;
    push_possibly(out, &answer.possibly)?;
    push_bytes(out, b"\n")
}

/// Appends an answer's second line.
fn push_definitely_line(out: &mut Vec<u8>, answer: &Answer) -> Result<(), AllocError>
    ensures { OnOk result (out.new.items ≡ out.old.items ++ (definitely_line (answer_view answer.now) ++ 10 ∷ [])) }
{
    push_bytes(out, answer.name.as_bytes())?;
    push_bytes(out, b" definitely ")?;
    push_definitely(out, &answer.definitely)?;
    push_bytes(out, b"\n")
}

/// Appends an answer's two lines.
fn push_answer(out: &mut Vec<u8>, answer: &Answer) -> Result<(), AllocError>
    ensures { OnOk result (out.new.items ≡ out.old.items ++ text_of_lines (answer_lines (answer_view answer.now))) }
{
    push_possibly_line(out, answer)?;
    push_definitely_line(out, answer)
}

/// Appends the lines of answers.
pub(crate) fn push_answers(out: &mut Vec<u8>, answers: &[Answer]) -> Result<(), AllocError>
    ensures { OnOk result (out.new.items ≡ out.old.items ++ answers_text answers.now) }
{
    for answer in answers {
        push_answer(out, answer)?;
    }
    Ok(())
}
