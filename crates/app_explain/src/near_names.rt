//! Says which name is near to one that there isn't.
use super::nearest::place_of_nearest;
use app_text::Text;
use pd_pred::Names;
use std::alloc::{AllocError, Global};

/// The most bytes of a name to which a near one is looked for: one is near to no longer name of a session.
const LENGTH_LIMIT: usize = 64;

/// The names of the processes.
///
/// # Errors
/// Out of memory.
pub(crate) fn process_texts(alloc: Global, names: &Names) -> Result<Vec<&str>, AllocError> {
    let mut texts = Vec::new(alloc);
    for process in 0..names.processes() {
        texts.push(names.name(process))?;
    }
    Ok(texts)
}

/// The names of a process's variables; there are none if there is no such process.
///
/// # Errors
/// Out of memory.
pub(crate) fn var_texts(
    alloc: Global,
    names: &Names,
    process: usize,
) -> Result<Vec<&str>, AllocError> {
    let mut texts = Vec::new(alloc);
    if process < names.processes() {
        for var in names.vars(process) {
            texts.push(var.as_str())?;
        }
    }
    Ok(texts)
}

/// Says which of these names is nearest to the given one, after what stands before it, if one is near. It gives whether
/// one is.
pub(crate) fn say_near(
    out: &mut Text,
    alloc: Global,
    given: &str,
    names: &[&str],
    before: &str,
) -> bool {
    if given.len() > LENGTH_LIMIT {
        return false;
    }
    let Some(found) = out.take_made(place_of_nearest(alloc, given, names)) else {
        return false;
    };
    let Some(name) = found.and_then(|place| names.get(place)) else {
        return false;
    };
    out.say("Did you mean `");
    out.say_shown(before.as_bytes());
    out.say_shown(name.as_bytes());
    out.say("`?\n");
    true
}

/// Says of each process that has a variable of this name how it is written. It gives whether one has.
pub(crate) fn say_owners(out: &mut Text, names: &Names, var: &str) -> bool {
    let mut before = "Did you mean `";
    let mut is_found = false;
    for process in 0..names.processes() {
        if names.find_var(process, var).is_some() {
            out.say(before);
            out.say_shown(names.name(process).as_bytes());
            out.say(".");
            out.say_shown(var.as_bytes());
            out.say("`");
            before = ", or `";
            is_found = true;
        }
    }
    out.say(if is_found { "?\n" } else { "" });
    is_found
}
