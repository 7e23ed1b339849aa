//! The variables that a line sets, in the order of its text.
ghost use Rattle.json.specs.Find.{as_object, get};
ghost use Rattle.json.specs.Value.{members_view, value_view};
ghost use Rattle.judge_infer.specs.Inferred.{names_or_none, set_names, with_var, with_vars};
ghost use Rattle.judge_infer.specs.Streams.{member_names};
ghost use Rattle.judge_infer.specs.Views.{IsVars};
ghost use Rattle.def_format.specs.Lists.{is_one_of};
ghost use Rattle.std.specs.List.{list_any};
ghost use Rattle.std.specs.Str.{bytes_eq};
ghost use Rattle.std.specs.Prelude.{◌≡◌, codes, map, option_and_then, option_map, string_bytes};

use super::AddFault;
use super::fault::{Wrong, line_fault};
use def_format::VAR_LIMIT;
use json::{Error, Scratch, Value};
use pd_pred::is_name;
use std::alloc::Global;

fn is_var(vars: &[String], name: &str) -> bool
    ensures { result ≡ list_any (λ var. bytes_eq name.now (string_bytes var)) vars.now }
{
    vars.iter().any(|var| name == var.as_str())
}

/// Whether one of the variables has this name.
fn has_var(vars: &[String], name: &str) -> bool
    ensures { result ≡ is_one_of (map string_bytes vars.now) name.now }
{
    is_var(vars, name)
}

/// Adds the variable of this name, which the line of this number sets, if it is new.
fn add_var(alloc: Global, vars: &mut Vec<String>, number: u64, name: &str) -> Result<(), AddFault>
    ensures { IsVars number (with_var (map string_bytes vars.old.items) name.now)
        (map string_bytes vars.new.items) result }
{
    if has_var(vars, name) {
        return Ok(());
    }
    if !is_name(name.as_bytes()) {
        return Err(line_fault(number, Wrong::VarName));
    }
    if vars.len() >= VAR_LIMIT {
        return Err(line_fault(number, Wrong::Vars));
    }
    vars.push(String::from_str(alloc, name)?)?;
    Ok(())
}

/// Adds the variables of these names.
fn add_members(
    alloc: Global,
    vars: &mut Vec<String>,
    number: u64,
    members: &[(&str, Value<'_>)],
) -> Result<(), AddFault>
    ensures { IsVars number (with_vars (map string_bytes vars.old.items) (member_names (members_view members.now)))
        (map string_bytes vars.new.items) result }
{
    for member in members {
        add_var(alloc, vars, number, member.0)?;
    }
    Ok(())
}

/// The fields of a value, in the order of its text, if it is an object.
fn members_of<'v, 'a>(value: &'v Value<'a>) -> Option<&'v Vec<(&'a str, Value<'a>)>>
    ensures { option_map (λ members. members_view members.now.items) result ≡ as_object (value_view value.now) }
{
    match value {
        Value::Object(members) => Some(members),
        _ => None,
    }
}

/// Adds the variables that a value's object `set` has.
fn add_vars_of(
    alloc: Global,
    vars: &mut Vec<String>,
    number: u64,
    value: &Value<'_>,
) -> Result<(), AddFault>
    ensures { IsVars number (with_vars (map string_bytes vars.old.items)
        (names_or_none (option_and_then as_object (get (codes "set") (value_view value.now)))))
        (map string_bytes vars.new.items) result }
{
    let Some(set) = value.get("set") else {
        return Ok(());
    };
    match members_of(set) {
        Some(members) => add_members(alloc, vars, number, members),
        None => Ok(()),
    }
}

/// Adds the variables that the line of this number sets, in the order of its text.
#[tactic(auto, using(crate::proofs::VarSteps::vars_some, crate::proofs::VarSteps::vars_none))]
pub(crate) fn add_set_vars(
    alloc: Global,
    vars: &mut Vec<String>,
    number: u64,
    line: &[u8],
) -> Result<(), AddFault>
    ensures { IsVars number (with_vars (map string_bytes vars.old.items) (set_names line.now))
        (map string_bytes vars.new.items) result }
{
    let mut scratch = Scratch::new(alloc);
    match Value::from_slice(alloc, line, &mut scratch) {
        Ok(value) => add_vars_of(alloc, vars, number, &value),
        Err(error) => match error {
            Error::Invalid => Ok(()),
            Error::OutOfMemory | Error::TooLong | Error::DuplicateKey => Err(AddFault::Memory),
        },
    }
}
