//! Finds the part of a session document that is refused.
use super::near_names::say_near;
use super::words::DocumentWord;
use app_text::{Source, Text, place_of_name, places_of_name};
use def_format::VAR_LIMIT;
use pd_pred::is_name;
use serde_json::{Map, Value};
use std::alloc::Global;

/// The fields of a document.
const FIELDS: [&str; 4] = ["processes", "predicates", "width", "version"];

/// Shows where this name stands in the document, if that is sure.
fn show_name(out: &mut Text, source: &Source<'_>, name: &str) {
    match place_of_name(source.bytes, name) {
        Some(place) => out.show_place(source, place),
        None => (),
    }
}

/// The first field of an object that isn't one of these.
fn other_field<'a>(fields: &'a Map<String, Value>, names: &[&str]) -> Option<&'a str> {
    for key in fields.keys() {
        if !names.iter().any(|name| key.as_str() == *name) {
            return Some(key.as_str());
        }
    }
    None
}

/// The objects of an array of the document, which is empty if there is none.
fn items_of<'a>(value: &'a Value, name: &str) -> &'a [Value] {
    let Some(fields) = value.as_object() else {
        return &[];
    };
    match fields.get(name) {
        Some(Value::Array(items)) => items.as_slice(),
        _ => &[],
    }
}

/// The text of a field, which is empty if there is none.
fn text_of<'a>(item: &'a Value, name: &str) -> &'a str {
    let Some(fields) = item.as_object() else {
        return "";
    };
    match fields.get(name) {
        Some(Value::String(text)) => text.as_str(),
        _ => "",
    }
}

/// Says that the document has a field that it may not have.
fn say_other_field(out: &mut Text, alloc: Global, source: &Source<'_>, name: &str) {
    out.say("There is a field ");
    out.say_name(name);
    out.say(" that has no meaning here.\n");
    show_name(out, source, name);
    let _ = say_near(out, alloc, name, &FIELDS, "");
}

/// Says which of the two lists is absent, or is none.
fn say_list(out: &mut Text, source: &Source<'_>, fields: &Map<String, Value>, name: &str) -> bool {
    match fields.get(name) {
        Some(Value::Array(_)) => return false,
        Some(_) => {
            out.say("The field ");
            out.say_name(name);
            out.say(" isn't a list, in square brackets.\n");
            show_name(out, source, name);
        }
        None => {
            out.say("It has no field ");
            out.say_name(name);
            out.say(".\n");
        }
    }
    true
}

/// Whether the value is an object of a text `name` and of one field more, which is a text or an object as said.
fn is_item(item: &Value, field: &str) -> bool {
    let Some(fields) = item.as_object() else {
        return false;
    };
    let is_right = match fields.get(field) {
        Some(Value::String(_)) => field == "text",
        Some(Value::Object(_)) => field == "vars",
        _ => false,
    };
    is_right && fields.len() == 2 && matches!(fields.get("name"), Some(Value::String(_)))
}

/// Says which item of a list doesn't have the form of one.
fn say_items(out: &mut Text, source: &Source<'_>, value: &Value, list: &str, field: &str) -> bool {
    for (index, item) in items_of(value, list).iter().enumerate() {
        if !is_item(item, field) {
            out.say("Item ");
            out.say_number((index as u64).saturating_add(1));
            out.say(" of ");
            out.say_name(list);
            out.say(" isn't an object of \"name\", a text, and \"");
            out.say(field);
            out.say(if field == "vars" {
                "\", an object, and nothing else.\n"
            } else {
                "\", a text, and nothing else.\n"
            });
            show_name(out, source, text_of(item, "name"));
            return true;
        }
    }
    false
}

/// Says which part of a document has not the form that it should have.
fn say_shape(out: &mut Text, alloc: Global, source: &Source<'_>, value: &Value) {
    let Some(fields) = value.as_object() else {
        out.say("It isn't an object, in braces.\n");
        return;
    };
    if let Some(other) = other_field(fields, &FIELDS) {
        say_other_field(out, alloc, source, other);
        return;
    }
    if say_list(out, source, fields, "processes") || say_list(out, source, fields, "predicates") {
        return;
    }
    if say_items(out, source, value, "processes", "vars") {
        return;
    }
    let _found = say_items(out, source, value, "predicates", "text");
}

/// Says how many items a list has.
fn say_count(out: &mut Text, count: usize, of_what: &str) {
    out.say("It has ");
    out.say_number(count as u64);
    out.say(of_what);
}

/// Says which name can't be one, and of what.
fn say_bad_name(out: &mut Text, source: &Source<'_>, what: &str, name: &str) {
    out.say("It is the name of ");
    out.say(what);
    out.say(": ");
    out.say_name(name);
    out.say(".\n");
    show_name(out, source, name);
}

/// Says which name of a process, of a variable or of a predicate can't be one, in the order in which they are looked
/// at.
fn say_name_fault(out: &mut Text, source: &Source<'_>, value: &Value) {
    for process in items_of(value, "processes") {
        let name = text_of(process, "name");
        if !is_name(name.as_bytes()) {
            say_bad_name(out, source, "a process", name);
            return;
        }
    }
    for process in items_of(value, "processes") {
        if let Some(name) = bad_var_name(process) {
            say_bad_name(out, source, "a variable", name);
            return;
        }
    }
    for predicate in items_of(value, "predicates") {
        let name = text_of(predicate, "name");
        if !is_name(name.as_bytes()) {
            say_bad_name(out, source, "a predicate", name);
            return;
        }
    }
}

/// The variables of a process.
fn vars_of(process: &Value) -> Option<&Map<String, Value>> {
    match process.as_object()?.get("vars") {
        Some(Value::Object(vars)) => Some(vars),
        _ => None,
    }
}

/// The first variable of a process whose name can't be one.
fn bad_var_name(process: &Value) -> Option<&str> {
    for key in vars_of(process)?.keys() {
        if !is_name(key.as_bytes()) {
            return Some(key.as_str());
        }
    }
    None
}

/// The first name that stands twice in a list.
fn name_twice<'a>(items: &'a [Value]) -> Option<&'a str> {
    for (index, item) in items.iter().enumerate() {
        let name = text_of(item, "name");
        if items
            .iter()
            .take(index)
            .any(|other| text_of(other, "name") == name)
        {
            return Some(name);
        }
    }
    None
}

/// Says which name stands twice.
fn say_twice(out: &mut Text, source: &Source<'_>, value: &Value) {
    let found = match name_twice(items_of(value, "processes")) {
        Some(name) => Some(name),
        None => name_twice(items_of(value, "predicates")),
    };
    let Some(name) = found else {
        return;
    };
    out.say("It is the name ");
    out.say_name(name);
    out.say(".\n");
    match places_of_name(source.bytes, name) {
        (2, second) => out.show_place(source, second),
        _ => (),
    }
}

/// Says which variable of a process can't be as it is given.
fn say_vars(out: &mut Text, source: &Source<'_>, value: &Value) {
    for process in items_of(value, "processes") {
        if let Some(vars) = vars_of(process) {
            if say_vars_of(out, source, text_of(process, "name"), vars) {
                return;
            }
        }
    }
}

/// Says what is wrong with the variables of a process, and whether something is.
fn say_vars_of(
    out: &mut Text,
    source: &Source<'_>,
    process: &str,
    vars: &Map<String, Value>,
) -> bool {
    if vars.len() > VAR_LIMIT {
        out.say("Process ");
        out.say_name(process);
        out.say(" has ");
        out.say_number(vars.len() as u64);
        out.say(" variables.\n");
        return true;
    }
    for (name, given) in vars.iter() {
        if given.as_i64().is_none() {
            out.say("The initial value of the variable ");
            out.say_name(name.as_str());
            out.say(" of process ");
            out.say_name(process);
            out.say(" isn't a whole number.\n");
            show_name(out, source, name.as_str());
            return true;
        }
    }
    false
}

/// Says which part of a document has the fault of this word, and shows where it stands, if that is
/// sure.
pub(crate) fn say_detail(
    out: &mut Text,
    alloc: Global,
    source: &Source<'_>,
    value: &Value,
    word: DocumentWord,
) {
    match word {
        DocumentWord::Shape => say_shape(out, alloc, source, value),
        DocumentWord::Processes | DocumentWord::RunProcesses => say_count(
            out,
            items_of(value, "processes").len(),
            " processes.\n",
        ),
        DocumentWord::Name => say_name_fault(out, source, value),
        DocumentWord::NameTwice => say_twice(out, source, value),
        DocumentWord::Vars => say_vars(out, source, value),
        DocumentWord::Predicates => say_count(
            out,
            items_of(value, "predicates").len(),
            " predicates.\n",
        ),
        DocumentWord::Width => show_name(out, source, "width"),
        DocumentWord::Version => show_name(out, source, "version"),
        DocumentWord::Long | DocumentWord::Json => (),
    }
}
