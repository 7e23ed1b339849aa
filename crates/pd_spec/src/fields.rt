//! The fields of a JSON object.
ghost use Rattle.std.specs.Prelude.{◌≡◌, map, string_bytes, option_map, is_some};
ghost use Rattle.serde_json.specs.Find.{as_str, as_object, as_array, get_member};
ghost use Rattle.serde_json.specs.View.{view, members_view, items_view};
ghost use Rattle.std.specs.List.{list_any, list_all};
ghost use Rattle.std.specs.BTreeMap.{keys, values};
ghost use Rattle.std.specs.Str.{bytes_eq};
ghost use Rattle.def_format.specs.Records.{has_only, whole_number, values as values_of};
ghost use Rattle.def_format.specs.Documents.{field};

use serde_json::{Map, Value};

fn is_one_of(texts: &[&str], text: &str) -> bool
    ensures { result ≡ list_any (λ other. bytes_eq text.now other.now) texts.now }
{
    texts.iter().any(|other| text == *other)
}

fn keys_are_among(names: &[&str], fields: &Map<String, Value>) -> bool
    ensures { result ≡ list_all (λ key. list_any (λ other. bytes_eq (string_bytes key) other.now) names.now)
        (keys fields.now) }
{
    fields.keys().all(|key| is_one_of(names, key.as_str()))
}

/// Whether each field of the object is one of these.
pub fn has_only(names: &[&str], fields: &Map<String, Value>) -> bool
    ensures { result ≡ has_only (map (λ name. name.now) names.now) (members_view fields.now.entries) }
{
    keys_are_among(names, fields)
}

fn values_are_whole(fields: &Map<String, Value>) -> bool
    ensures { result ≡ list_all (λ value. is_some (whole_number (view value))) (values fields.now) }
{
    fields.values().all(|value| value.as_i64().is_some())
}

/// Whether each field's value is a whole number of 64 bits.
pub fn are_whole(fields: &Map<String, Value>) -> bool
    ensures { result ≡ list_all (λ value. is_some (whole_number value)) (values_of (members_view fields.now.entries)) }
{
    values_are_whole(fields)
}

/// The value of this field, if it is there.
pub fn value_at<'a>(fields: &'a Map<String, Value>, name: &str) -> Option<&'a Value>
    ensures { option_map (λ value. view value.now) result ≡ get_member name.now (members_view fields.now.entries) }
{
    fields.get(name)
}

/// The text that stands at this field, if one does.
pub(crate) fn text_at<'a>(fields: &'a Map<String, Value>, name: &str) -> Option<&'a str>
    ensures { option_map (λ text. text.now) result ≡ field name.now as_str (members_view fields.now.entries) }
{
    value_at(fields, name)?.as_str()
}

/// The object that stands at this field, if one does.
pub(crate) fn object_at<'a>(
    fields: &'a Map<String, Value>,
    name: &str,
) -> Option<&'a Map<String, Value>>
    ensures { option_map (λ object. members_view object.now.entries) result
        ≡ field name.now as_object (members_view fields.now.entries) }
{
    value_at(fields, name)?.as_object()
}

/// The array that stands at this field, if one does.
pub(crate) fn array_at<'a>(fields: &'a Map<String, Value>, name: &str) -> Option<&'a Vec<Value>>
    ensures { option_map (λ array. items_view array.now.items) result
        ≡ field name.now as_array (members_view fields.now.entries) }
{
    value_at(fields, name)?.as_array()
}
