//! Says what would decide an answer that is unknown at any width, or which rule doesn't apply.
use super::forms::{PossiblyForm, decides_definitely, possibly_form};
use super::lifted::{Unknown, say_lifted, unknown_of};
use super::session::Session;
use app_text::Text;
use def_format::WIDTH_LIMIT;
use judge_lifted::LiftedAnswer;
use pd_pred::Tree;
use pd_report::Answer;
use std::alloc::Global;

/// What is said of a Possibly that is unknown, and was asked at the width alone.
fn possibly_ways(form: PossiblyForm) -> &'static str {
    match form {
        PossiblyForm::Decided => "--beyond-width decides whether it possibly holds",
        PossiblyForm::ManyTerms => "--beyond-width may find whether it possibly holds",
        PossiblyForm::SeveralSums | PossiblyForm::EqualSum | PossiblyForm::Both => {
            "--beyond-width decides in some cases whether it possibly holds"
        }
    }
}

/// What is said of a Definitely that is unknown, and was asked at the width alone, after this was said of Possibly.
fn definitely_ways(form: Option<PossiblyForm>, decides: bool) -> &'static str {
    match (form, decides) {
        (None, true) => "--beyond-width decides whether it definitely holds",
        (None, false) => "--beyond-width may find whether it definitely holds",
        (Some(_), true) => ", and whether it definitely holds",
        (Some(_), false) => ", and may find whether it definitely holds",
    }
}

/// What is said of a Possibly that is unknown, and was asked beyond the width too.
fn possibly_reason(form: PossiblyForm) -> &'static str {
    match form {
        PossiblyForm::Decided => "",
        PossiblyForm::ManyTerms =>
            ", since it is an `or` of more than 4,096 `and`s once it is multiplied out",
        PossiblyForm::SeveralSums =>
            ", since two comparisons of one `and` name several processes each",
        PossiblyForm::EqualSum => {
            ", since it asks whether sums over several processes are equal; with >= or <= in the place of that it is \
decided"
        }
        PossiblyForm::Both => {
            ", since two comparisons of one `and` name several processes each, or since it asks whether sums over \
several processes are equal"
        }
    }
}

/// Says what would decide what is unknown of Possibly, of this form, and of Definitely, if they were asked at the width
/// alone.
fn say_ways(out: &mut Text, possibly: Option<PossiblyForm>, definitely: Option<bool>) {
    if let Some(form) = possibly {
        out.say(possibly_ways(form));
    }
    match definitely {
        Some(decides) => out.say(definitely_ways(possibly, decides)),
        None => (),
    }
}

/// Says why the answers that are unknown weren't found beyond the width either: of Possibly of this form, and of
/// Definitely with this width.
fn say_reasons(out: &mut Text, possibly: Option<PossiblyForm>, definitely: Option<u64>) {
    if let Some(form) = possibly {
        out.say("no rule decides at any width whether it possibly holds");
        out.say(possibly_reason(form));
        out.say(", and it holds at none of the cuts that are tried");
    }
    let Some(width) = definitely else {
        return;
    };
    out.say(if possibly.is_some() { "; " } else { "" });
    out.say(
        "the search back for whether it definitely holds came to more dead ends than the width",
    );
    out.say(if width < WIDTH_LIMIT {
        ", so a greater width may find it"
    } else {
        ""
    });
}

/// Whether a session was read of a bundle.
fn is_of_bundle(session: &Session<'_, '_>) -> bool {
    for source in session.sources {
        if let Some(source) = source {
            if source.before > 0 {
                return true;
            }
        }
    }
    false
}

/// Says how the session of a bundle is judged beyond the width, if something is undecided that was asked without that.
pub(crate) fn say_bundle(out: &mut Text, session: &Session<'_, '_>, is_undecided: bool) {
    if is_undecided && !session.spec.beyond_width() && is_of_bundle(session) {
        out.say("A bundle is judged without --beyond-width: put its parts into files for that.\n");
        return;
    }
}

/// Says what would decide what is unknown of a predicate at any width, or which rule doesn't apply.
fn say_unknown(
    out: &mut Text,
    session: &Session<'_, '_>,
    name: &str,
    tree: &Tree,
    unknown: Unknown,
) {
    let processes = session.computation.processes();
    let possibly = if unknown.possibly {
        Some(possibly_form(tree, processes))
    } else {
        None
    };
    out.say_name(name);
    out.say(" is undecided: ");
    if session.spec.beyond_width() {
        let width = session.spec.width();
        say_reasons(out, possibly, unknown.definitely.then_some(width));
    } else {
        let decides = decides_definitely(tree, processes);
        say_ways(out, possibly, unknown.definitely.then_some(decides));
    }
    out.say(".\n");
}

/// Says of a predicate of which an answer is unknown what the reduction of the run decides, if that was judged. Of what
/// is left it says what would decide it at any width, or which rule doesn't apply: by the predicate alone, and by how
/// it was asked. It gives whether an answer is unknown.
pub(crate) fn say_undecided(
    out: &mut Text,
    alloc: Global,
    session: &Session<'_, '_>,
    tree: &Tree,
    answer: &Answer,
    lifted: Option<&LiftedAnswer>,
) -> bool {
    let unknown = unknown_of(answer);
    if !unknown.is_some() {
        return false;
    }
    let name = answer.name.as_str();
    let left = match lifted {
        Some(lifted) => say_lifted(out, alloc, session, name, tree, unknown, lifted),
        None => unknown,
    };
    if left.is_some() {
        say_unknown(out, session, name, tree, left);
    }
    true
}
