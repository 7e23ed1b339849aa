//! Explains why there is no report.
use super::near_names::say_near;
use app_text::Text;
use pd_spec::NamedPred;
use std::alloc::{AllocError, Global};

/// Explains that a file can't be opened or read, in the words of the system.
pub fn explain_file(out: &mut Text, name: &str, why: &str) {
    out.say("The file ");
    out.say_shown(name.as_bytes());
    out.say(" can't be read: ");
    out.say_shown(why.as_bytes());
    out.say(".\n");
}

/// Explains that a file couldn't be read, of which no more is known.
pub fn explain_no_file(out: &mut Text) {
    out.say("A file couldn't be opened or read.\n");
}

/// Explains that a report is too long to be read.
pub fn explain_long_report(out: &mut Text, name: &str) {
    out.say("The file ");
    out.say_shown(name.as_bytes());
    out.say(
        " has more than 268,435,456 bytes, the most that is read of a report: look whether it is the right file.\n",
    );
}

/// Explains that memory ran out.
pub fn explain_memory(out: &mut Text) {
    out.say(
        "The system refused memory. Let the program have more of it, or judge a shorter run, or one with a smaller \
width.\n",
    );
}

/// Explains that the output couldn't be written.
pub fn explain_output(out: &mut Text) {
    out.say("Standard output couldn't take all that is written: look whether its disk is full.\n");
}

/// Explains that a bundle is too long, or that it can't be read.
pub fn explain_bundle_fault(out: &mut Text, is_long: bool) {
    if is_long {
        out.say(
            "The bundle on standard input has more than 67,108,864 bytes: put its parts into files, and judge these by \
`monitor judge`.\n",
        );
        return;
    }
    out.say(
        "Standard input can't be read: give a bundle, the session document and the streams with a line --- before each \
stream, as in `monitor < FILE`.\n",
    );
}

/// The names of the predicates.
fn predicate_texts(alloc: Global, predicates: &[NamedPred]) -> Result<Vec<&str>, AllocError> {
    let mut texts = Vec::new(alloc);
    for predicate in predicates {
        texts.push(predicate.name.as_str())?;
    }
    Ok(texts)
}

/// Says which predicates the document has.
fn say_predicates(out: &mut Text, names: &[&str]) {
    out.say("The predicates of the document are ");
    for (index, name) in names.iter().enumerate() {
        out.say(if index == 0 { "" } else { ", " });
        out.say_name(name);
    }
    out.say(".\n");
}

/// Explains that the document has no predicate of the name that this option names, whether one has nearly this name,
/// and which there are.
pub fn explain_no_predicate(
    out: &mut Text,
    alloc: Global,
    predicates: &[NamedPred],
    option: &str,
    name: &str,
) {
    out.say("The document has no predicate ");
    out.say_name(name);
    out.say(", which ");
    out.say(option);
    out.say(" names.\n");
    let Some(names) = out.take_made(predicate_texts(alloc, predicates)) else {
        return;
    };
    say_near(out, alloc, name, &names, "");
    say_predicates(out, &names);
}
