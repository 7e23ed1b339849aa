//! The answers of a report, or the causal cycle that it names.
ghost use Rattle.def_format.specs.Names.{process_named};
ghost use Rattle.out_page.specs.AnswerData.{Answered, Cyclic, answer_text, definitely_text, named_place_text, outcome_text, possibly_text, process_number, unknown_text};
ghost use Rattle.out_page.specs.JsonTexts.{listed};
ghost use Rattle.out_page.specs.Views.{outcome_view};
ghost use Rattle.pd_report.specs.Steps.{AreBelow, name_at, names_at, names_view};
ghost use Rattle.pd_report.specs.Views.{answer_view, definitely_view, named_place_view, named_places_view, possibly_view};
ghost use Rattle.std.specs.Prelude.{◌≡◌, ◌<◌, ◌++◌, decimal, length, map, unwrap_or, OnOk};

use super::Outcome;
use super::json_texts::{push_index, push_quoted};
use pd_pred::Names;
use pd_report::{Answer, Definitely, Path, Possibly, push_bytes, push_number};
use std::alloc::AllocError;

/// Appends numbers with a comma between each two.
pub(crate) fn push_counts(out: &mut Vec<u8>, counts: &[u64]) -> Result<(), AllocError>
    ensures { OnOk result (out.new.items ≡ out.old.items ++ listed decimal counts.now) }
{
    let Some((first, others)) = counts.split_first() else {
        return Ok(());
    };
    push_number(out, *first)?;
    for count in others {
        push_bytes(out, b",")?;
        push_number(out, *count)?;
    }
    Ok(())
}

/// Appends that it is unknown, and by which level.
fn push_unknown(out: &mut Vec<u8>, level: u64) -> Result<(), AllocError>
    ensures { OnOk result (out.new.items ≡ out.old.items ++ unknown_text level) }
{
    push_bytes(out, b"[\"unknown\",")?;
    push_number(out, level)?;
    push_bytes(out, b"]")?;
    Ok(())
}

/// Appends whether a predicate possibly holds.
fn push_possibly(out: &mut Vec<u8>, possibly: &Possibly) -> Result<(), AllocError>
    ensures { OnOk result (out.new.items ≡ out.old.items ++ possibly_text (possibly_view possibly.now)) }
{
    match possibly {
        Possibly::Yes(counts) => {
            push_bytes(out, b"[\"yes\",[")?;
            push_counts(out, counts)?;
            push_bytes(out, b"]]")
        }
        Possibly::No => push_bytes(out, b"[\"no\"]"),
        Possibly::Unknown(level) => push_unknown(out, *level),
    }
}

/// The number of the process of this name, from 0.
fn process_number(names: &Names, name: &str) -> usize
    ensures { result ≡ unwrap_or (process_named names.now name.now) 0 }
{
    names.find(name).unwrap_or(0)
}

/// Appends the number of the process whose name stands at this place.
fn push_step(
    out: &mut Vec<u8>,
    names: &Names,
    texts: &[String],
    step: usize,
) -> Result<(), AllocError>
    requires { step < length texts.now }
    ensures { OnOk result (out.new.items ≡ out.old.items
        ++ process_number names.now (name_at (names_view texts.now) step)) }
{
    push_index(out, process_number(names, texts[step].as_str()))?;
    Ok(())
}

/// Appends the numbers of the processes whose names stand at these places, with a comma between each two.
fn push_steps(
    out: &mut Vec<u8>,
    names: &Names,
    texts: &[String],
    steps: &[usize],
) -> Result<(), AllocError>
    requires { AreBelow (length texts.now) steps.now }
    ensures { OnOk result (out.new.items ≡ out.old.items
        ++ listed (process_number names.now) (names_at (names_view texts.now) steps.now)) }
{
    let Some((first, others)) = steps.split_first() else {
        return Ok(());
    };
    push_step(out, names, texts, *first)?;
    for step in others {
        push_bytes(out, b",")?;
        push_step(out, names, texts, *step)?;
    }
    Ok(())
}

/// Appends the numbers of the processes of a path, with a comma between each two.
fn push_path(out: &mut Vec<u8>, names: &Names, path: &Path) -> Result<(), AllocError>
    ensures { OnOk result (out.new.items ≡ out.old.items
        ++ listed (process_number names.now) path.now) }
{
    let (texts, steps) = path.parts();
    push_steps(out, names, texts, steps)?;
    Ok(())
}

/// Appends whether a predicate definitely holds.
fn push_definitely(
    out: &mut Vec<u8>,
    names: &Names,
    definitely: &Definitely,
) -> Result<(), AllocError>
    ensures { OnOk result (out.new.items ≡ out.old.items
        ++ definitely_text names.now (definitely_view definitely.now)) }
{
    match definitely {
        Definitely::Yes(level) => {
            push_bytes(out, b"[\"yes\",")?;
            push_number(out, *level)?;
            push_bytes(out, b"]")
        }
        Definitely::No(path) => {
            push_bytes(out, b"[\"no\",[")?;
            push_path(out, names, path)?;
            push_bytes(out, b"]]")
        }
        Definitely::Unknown(level) => push_unknown(out, *level),
    }
}

/// Appends the answers for one predicate.
fn push_answer(out: &mut Vec<u8>, names: &Names, answer: &Answer) -> Result<(), AllocError>
    ensures { OnOk result (out.new.items ≡ out.old.items ++ answer_text names.now (answer_view answer.now)) }
{
    push_bytes(out, b"{\"name\":")?;
    push_quoted(out, answer.name.as_bytes())?;
    push_bytes(out, b",\"possibly\":")?;
    push_possibly(out, &answer.possibly)?;
    push_bytes(out, b",\"definitely\":")?;
    push_definitely(out, names, &answer.definitely)?;
    push_bytes(out, b"}")?;
    Ok(())
}

/// Appends answers with a comma between each two.
fn push_answers(out: &mut Vec<u8>, names: &Names, answers: &[Answer]) -> Result<(), AllocError>
    ensures { OnOk result (out.new.items ≡ out.old.items
        ++ listed (answer_text names.now) (map answer_view answers.now)) }
{
    let Some((first, others)) = answers.split_first() else {
        return Ok(());
    };
    push_answer(out, names, first)?;
    for answer in others {
        push_bytes(out, b",")?;
        push_answer(out, names, answer)?;
    }
    Ok(())
}

/// Appends the field of the answers.
fn push_answers_field(
    out: &mut Vec<u8>,
    names: &Names,
    answers: &[Answer],
) -> Result<(), AllocError>
    ensures { OnOk result (out.new.items ≡ out.old.items
        ++ outcome_text names.now (Answered (map answer_view answers.now))) }
{
    push_bytes(out, b"\"answers\":[")?;
    push_answers(out, names, answers)?;
    push_bytes(out, b"]")?;
    Ok(())
}

/// Appends an event of a causal cycle.
fn push_named_place(
    out: &mut Vec<u8>,
    names: &Names,
    place: &(String, u64),
) -> Result<(), AllocError>
    ensures { OnOk result (out.new.items ≡ out.old.items ++ named_place_text names.now (named_place_view place.now)) }
{
    push_bytes(out, b"[")?;
    push_index(out, process_number(names, place.0.as_str()))?;
    push_bytes(out, b",")?;
    push_number(out, place.1)?;
    push_bytes(out, b"]")?;
    Ok(())
}

/// Appends the events of a causal cycle with a comma between each two.
fn push_named_places(
    out: &mut Vec<u8>,
    names: &Names,
    places: &[(String, u64)],
) -> Result<(), AllocError>
    ensures { OnOk result (out.new.items ≡ out.old.items
        ++ listed (named_place_text names.now) (named_places_view places.now)) }
{
    let Some((first, others)) = places.split_first() else {
        return Ok(());
    };
    push_named_place(out, names, first)?;
    for place in others {
        push_bytes(out, b",")?;
        push_named_place(out, names, place)?;
    }
    Ok(())
}

/// Appends the field of the causal cycle.
fn push_cycle_field(
    out: &mut Vec<u8>,
    names: &Names,
    places: &[(String, u64)],
) -> Result<(), AllocError>
    ensures { OnOk result (out.new.items ≡ out.old.items
        ++ outcome_text names.now (Cyclic (named_places_view places.now))) }
{
    push_bytes(out, b"\"cycle\":[")?;
    push_named_places(out, names, places)?;
    push_bytes(out, b"]")?;
    Ok(())
}

/// Appends what is shown of a report.
pub(crate) fn push_outcome(
    out: &mut Vec<u8>,
    names: &Names,
    outcome: Outcome<'_>,
) -> Result<(), AllocError>
    ensures { OnOk result (out.new.items ≡ out.old.items ++ outcome_text names.now (outcome_view outcome.entry)) }
{
    match outcome {
        Outcome::Answers(answers) => push_answers_field(out, names, answers),
        Outcome::Cycle(places) => push_cycle_field(out, names, places),
    }
}
