//! Reads parts of a JSON value.
ghost use Rattle.std.specs.Prelude.{◌≡◌, length, map, option_map};
ghost use Rattle.std.specs.List.{list_all};
ghost use Rattle.serde_json.specs.View.{view, members_view};
ghost use Rattle.serde_json.specs.Events.{members_len};
ghost use Rattle.poly_text.specs.Json as json;
ghost use Rattle.poly_text.specs.Views.{views};

use serde_json::{Map, Value};

/// The elements of the value, if it is a list.
#[tactic(auto, using(crate::proofs::Lists::elements_view))]
pub fn as_list(value: &Value) -> Option<&[Value]>
    ensures { option_map (λ l. views l.now) result ≡ json.as_list (view value.now) }
{
    let list = value.as_array()?;
    Some(list.as_slice())
}

/// The elements of the list at the key, if the value is an object that has a list at this key.
pub fn list_at<'v>(value: &'v Value, name: &str) -> Option<&'v [Value]>
    ensures { option_map (λ l. views l.now) result ≡ json.list_at name.now (view value.now) }
{
    let found = value.get(name)?;
    as_list(found)
}

/// The text at the key, if the value is an object that has a text at this key.
pub fn text_at<'v>(value: &'v Value, name: &str) -> Option<&'v str>
    ensures { option_map (λ t. t.now) result ≡ json.text_at name.now (view value.now) }
{
    let found = value.get(name)?;
    found.as_str()
}

/// The text, or an empty one if the value isn't a text.
pub fn text(value: &Value) -> &str
    ensures { result.now ≡ json.text (view value.now) }
{
    match value.as_str() {
        Some(text) => text,
        None => "",
    }
}

/// Whether the value is a whole number that fits into a `u64` or an `i64`.
pub fn is_whole(value: &Value) -> bool
    ensures { result ≡ json.is_whole (view value.now) }
{
    value.is_u64() || value.is_i64()
}

/// Whether all values are texts.
pub fn are_texts(values: &[Value]) -> bool
    ensures { result ≡ list_all (λ v. json.is_text (view v)) values.now }
{
    values.iter().all(|value| value.is_string())
}

/// Whether all values are objects.
pub fn are_objects(values: &[Value]) -> bool
    ensures { result ≡ list_all (λ v. json.is_object (view v)) values.now }
{
    values.iter().all(|value| value.is_object())
}

/// How many keys the object has.
#[tactic(auto, using(crate::proofs::Lists::members_count))]
pub fn count(map: &Map<String, Value>) -> usize
    ensures { result ≡ members_len (members_view map.now.entries) }
{
    map.len()
}
