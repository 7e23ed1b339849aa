//! Lines of the plain shape: an event whose fields are read token by token, with no JSON value in between. A line takes
//! no memory of its own.
ghost use Rattle.std.specs.Prelude.{◌≡◌, ◌≢◌, ◌<◌, None, ℕ, List, [], ◌∷◌, length, All, AllPairs, map, string_bytes, Option, Some, Ok, IfNone, IfOk, IfSome, IsTrue, OnOk, slice_index_or, slice_set};
ghost use Rattle.json.specs.Token.{key};
ghost use Rattle.serde_json.specs.Data.{Members, no_members};
ghost use Rattle.def_format.specs.Records.{record_of};
ghost use Rattle.read_tokens.specs.Runs.{IsPlain};
ghost use Rattle.read_traces.specs.Columns.{seen_kind_view};
ghost use Rattle.pd_events.specs.Parts.{event_due, sets_due};
ghost use Rattle.pd_events.specs.Plain.{GivesFields, GoesOn, line_fields, row_sets, settings_or_none};

use super::record::vars_of;
use super::room::{Hint, Room};
use pd_pred::Names;
use read_tokens::{Key, Tokens};
use read_traces::Kind;
use std::alloc::{AllocError, Global};

/// Whether the variable at this place has this name.
fn has_name(vars: &[String], v: usize, name: &[u8]) -> bool
    ensures { IsTrue result → (v < length vars.now)
        × (slice_index_or (map string_bytes vars.now) v [] ≡ name.now) }
{
    if v < vars.len() {
        return vars[v].as_bytes() == name;
    }
    false
}

/// The variable of this name.
fn var_named(vars: &[String], name: &[u8]) -> Option<usize>
    ensures { IfSome result (λ v. (v < length vars.now)
        × (slice_index_or (map string_bytes vars.now) v [] ≡ name.now)) }
{
    for v in 0..vars.len() {
        if has_name(vars, v, name) {
            return Some(v);
        }
    }
    None
}

/// The variable that the hint at this place says, if its name is the key that comes next.
fn var_by_hint(
    vars: &[String],
    hints: &[Hint],
    place: usize,
    tokens: &mut Tokens<'_>,
) -> Option<usize>
    ensures found { IfSome result (λ v. (v < length vars.now)
        × (tokens.old ≡ key (slice_index_or (map string_bytes vars.now) v []) ∷ tokens.new)) }
    ensures none { IfNone result (tokens.new ≡ tokens.old) }
{
    if place >= hints.len() {
        return None;
    }
    let hint = &hints[place];
    let v = hint.variable;
    if !has_name(vars, v, hint.key.name()) {
        return None;
    }
    if !tokens.passes_key(&hint.key) {
        return None;
    }
    Some(v)
}

/// Makes this variable, of this name, the hint at a place, or the next one if there is none.
fn remember(
    alloc: Global,
    hints: &mut Vec<Hint>,
    place: usize,
    variable: usize,
    name: &[u8],
) -> Result<(), AllocError>
    requires { All IsPlain name.now }
{
    if place < hints.len() {
        let hint = &mut hints[place];
        hint.variable = variable;
        return hint.key.set(name);
    }
    let mut key = Key::new(alloc);
    key.set(name)?;
    hints.push(Hint { variable, key })?;
    Ok(())
}

/// The variable whose name is the key that comes next. The one that the hint at this place says is compared first.
fn next_var(
    alloc: Global,
    vars: &[String],
    hints: &mut Vec<Hint>,
    place: usize,
    tokens: &mut Tokens<'_>,
) -> Result<Option<usize>, AllocError>
    ensures { IfOk result (λ found. IfSome found (λ v. (v < length vars.now)
        × (tokens.old ≡ key (slice_index_or (map string_bytes vars.now) v []) ∷ tokens.new))) }
{
    if let Some(v) = var_by_hint(vars, hints, place, tokens) {
        return Ok(Some(v));
    }
    let Some(name) = tokens.key() else {
        return Ok(None);
    };
    let Some(v) = var_named(vars, name) else {
        return Ok(None);
    };
    remember(alloc, hints, place, v, name)?;
    Ok(Some(v))
}

/// Makes this a row for this many variables, none of which has a number.
fn no_numbers(row: &mut Vec<Option<i64>>, count: usize) -> Result<(), AllocError>
    ensures len { OnOk result (length row.new.items ≡ count) }
    ensures none { OnOk result ((v : ℕ) → slice_index_or row.new.items v None ≡ None) }
{
    row.clear();
    for _v in 0..count {
        row.push(None)?;
    }
    Ok(())
}

/// Sets the number of a variable.
fn set_number(row: &mut Vec<Option<i64>>, v: usize, value: i64)
    requires { v < length row.old.items }
    ensures { row.new.items ≡ slice_set row.old.items v (Some value) }
{
    row[v] = Some(value);
}

/// Keeps the variables that have a number in this row, with it, in their order.
fn find_sets(row: &[Option<i64>], sets: &mut Vec<(usize, i64)>) -> Result<(), AllocError>
    ensures { OnOk result (sets.new.items ≡ row_sets 0 row.now) }
{
    sets.clear();
    for v in 0..row.len() {
        if let Some(value) = row[v] {
            sets.push((v, value))?;
        }
    }
    Ok(())
}

/// Whether the members of an object, after its opening brace, are all variables with whole numbers. What they set is
/// then in the room. The hints there are the variables that the members of an earlier object set: most lines have the
/// same order.
fn next_sets(vars: &[String], room: &mut Room, tokens: &mut Tokens<'_>) -> Result<bool, AllocError>
    requires { AllPairs (λ (x y : List ℕ). x ≢ y) (map string_bytes vars.now) }
    ensures { IfOk result (λ found. IsTrue found → (settings : Members)
        × GivesFields 125 no_members tokens.old settings tokens.new
        × (sets_due (map string_bytes vars.now) settings ≡ Ok room.new.sets.items)) }
{
    no_numbers(&mut room.row, vars.len())?;
    let mut count = 0usize;
    'members: loop {
        if tokens.closes() {
            find_sets(&room.row, &mut room.sets)?;
            return Ok(true);
        }
        let Some(v) = next_var(room.alloc, vars, &mut room.hints, count, tokens)? else {
            return Ok(false);
        };
        let Some(value) = tokens.number() else {
            return Ok(false);
        };
        set_number(&mut room.row, v, value);
        count = count.saturating_add(1);
    }
}

/// The kind of event after the field of this name, if it is the only one that says a message.
fn next_kind<'a>(tokens: &mut Tokens<'a>, name: &[u8], kind: Kind<'a>) -> Option<Kind<'a>>
    ensures { IfSome result (λ after. (settings : Option Members) →
        GoesOn 126 (line_fields (seen_kind_view kind.entry) settings) (key name.now ∷ tokens.old)
        (line_fields (seen_kind_view after) settings) tokens.new) }
{
    let Kind::Local = kind else {
        return None;
    };
    let id = tokens.text()?;
    if name == "send".as_bytes() {
        return Some(Kind::Send(id));
    }
    if name == "recv".as_bytes() {
        return Some(Kind::Recv(id));
    }
    None
}

/// The kind of event that the fields of an object say after its opening brace. The variables that it sets are then in
/// the room.
fn next_event<'a>(
    vars: &[String],
    room: &mut Room,
    tokens: &mut Tokens<'a>,
) -> Result<Option<Kind<'a>>, AllocError>
    requires { AllPairs (λ (x y : List ℕ). x ≢ y) (map string_bytes vars.now) }
    ensures { IfOk result (λ found. IfSome found (λ kind. (settings : Option Members)
        × GivesFields 126 no_members tokens.old (line_fields (seen_kind_view kind) settings) tokens.new
        × (sets_due (map string_bytes vars.now) (settings_or_none settings) ≡ Ok room.new.sets.items))) }
{
    let mut kind = Kind::Local;
    let mut has_sets = false;
    room.sets.clear();
    // Two fields at most, and the closing brace.
    'fields: for _ in 0..3 {
        if tokens.closes() {
            return Ok(Some(kind));
        }
        let Some(name) = tokens.key() else {
            return Ok(None);
        };
        if name == "set".as_bytes() && !has_sets {
            if !tokens.opens() {
                return Ok(None);
            }
            if !next_sets(vars, room, tokens)? {
                return Ok(None);
            }
            has_sets = true;
            continue;
        }
        let Some(found) = next_kind(tokens, name, kind) else {
            return Ok(None);
        };
        kind = found;
    }
    Ok(None)
}

/// The kind of event of a line after the join of this process, which is counted from 0, if the line has the plain
/// shape. The variables that it sets are then in the room for them, and the line's record is that event if its id has
/// its length, otherwise the fault of the id.
///
/// # Errors
/// If memory runs out.
pub(crate) fn plain_event<'a>(
    names: &Names,
    room: &mut Room,
    process: usize,
    bytes: &'a [u8],
) -> Result<Option<Kind<'a>>, AllocError>
    ensures { IfOk result (λ found. IfSome found (λ kind. record_of names.now (Some process) bytes.now
        ≡ event_due (seen_kind_view kind) room.new.sets.items)) }
{
    names.differ();
    let Ok(_text) = str::from_utf8(bytes) else {
        return Ok(None);
    };
    let mut tokens = Tokens::new(bytes);
    if !tokens.opens() {
        return Ok(None);
    }
    let Some(kind) = next_event(vars_of(names, process), room, &mut tokens)? else {
        return Ok(None);
    };
    if !tokens.is_over() {
        return Ok(None);
    }
    Ok(Some(kind))
}
