//! The field of a JSON object that has one alone.
ghost use Rattle.std.specs.Prelude.{◌≡◌, ◌≢◌, length, MatchOption};
ghost use Rattle.serde_json.specs.Data.{member, no_members};
ghost use Rattle.serde_json.specs.View.{view, members_view};

use serde_json::{Map, Value};

/// The name and the value of the field, if there is one alone.
pub(crate) fn only_field(fields: &Map<String, Value>) -> Option<(&str, &Value)>
    ensures { MatchOption result (length fields.now.entries ≢ 1)
        (λ field. members_view fields.now.entries ≡ member field.0.now (view field.1.now) no_members) }
{
    if fields.len() != 1 {
        return None;
    }
    let (name, value) = fields.first_key_value()?;
    Some((name.as_str(), value))
}
