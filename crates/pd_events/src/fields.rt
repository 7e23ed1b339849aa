//! The fields of a JSON object.
ghost use Rattle.std.specs.Prelude.{◌≡◌, ◌≢◌, map, string_bytes, length, MatchOption};
ghost use Rattle.std.specs.Str.{bytes_eq};
ghost use Rattle.std.specs.List.{list_any, list_all};
ghost use Rattle.std.specs.BTreeMap.{keys};
ghost use Rattle.serde_json.specs.Data.{member, no_members};
ghost use Rattle.serde_json.specs.View.{view, members_view};
ghost use Rattle.def_format.specs.Records.{has_only};

use serde_json::{Map, Value};

fn is_var(vars: &[String], text: &str) -> bool
    ensures { result ≡ list_any (λ var. bytes_eq text.now (string_bytes var)) vars.now }
{
    vars.iter().any(|var| text == var.as_str())
}

fn keys_are_vars(vars: &[String], fields: &Map<String, Value>) -> bool
    ensures { result ≡ list_all (λ key. list_any (λ var. bytes_eq (string_bytes key) (string_bytes var)) vars.now)
        (keys fields.now) }
{
    fields.keys().all(|key| is_var(vars, key.as_str()))
}

/// Whether each field is one of these variables.
pub fn has_only_vars(vars: &[String], fields: &Map<String, Value>) -> bool
    ensures { result ≡ has_only (map string_bytes vars.now) (members_view fields.now.entries) }
{
    keys_are_vars(vars, fields)
}

/// The name and the value of the field, if there is one alone.
pub fn only_field(fields: &Map<String, Value>) -> Option<(&str, &Value)>
    ensures { MatchOption result (length fields.now.entries ≢ 1)
        (λ field. members_view fields.now.entries ≡ member field.0.now (view field.1.now) no_members) }
{
    if fields.len() != 1 {
        return None;
    }
    let (name, value) = fields.first_key_value()?;
    Some((name.as_str(), value))
}
