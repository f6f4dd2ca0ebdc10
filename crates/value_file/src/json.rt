// The data of a file, and the fields of its objects.
ghost use Rattle.std.specs.Prelude.{◌≡◌, option_map, IfOk};
ghost use Rattle.serde_json.specs.View.{view, items_view};
ghost use Rattle.value_file.specs.Json.{text_of, json_of, text_in, list_in};

use serde_json::Value;
use std::alloc::{AllocError, Global};
use std::str;

#[tactic(auto, unfolding(crate::specs::Json::text_of))]
fn text(bytes: &[u8]) -> Option<&str>
    ensures { option_map (λ s. s.now) result ≡ text_of bytes.now }
{
    match str::from_utf8(bytes) {
        Ok(text) => Some(text),
        Err(_) => None,
    }
}

/// The data that the bytes spell, if they spell any.
#[tactic(auto, unfolding(crate::specs::Json::json_of))]
pub fn json(alloc: Global, bytes: &[u8]) -> Result<Option<Value>, AllocError>
    ensures { IfOk result (λ v. option_map view v ≡ json_of bytes.now) }
{
    let Some(text) = text(bytes) else {
        return Ok(None);
    };
    match Value::from_str(alloc, text) {
        Ok(value) => Ok(Some(value)),
        Err(error) => {
            if error.is_memory() {
                Err(AllocError)
            } else {
                Ok(None)
            }
        }
    }
}

/// The text in a field of an object.
pub fn text_field<'a>(value: &'a Value, field: &str) -> Option<&'a str>
    ensures { option_map (λ s. s.now) result ≡ text_in field.now (view value.now) }
{
    value.get(field)?.as_str()
}

/// The list in a field of an object.
pub fn list_field<'a>(value: &'a Value, field: &str) -> Option<&'a [Value]>
    ensures { option_map (λ l. items_view l.now) result ≡ list_in field.now (view value.now) }
{
    Some(value.get(field)?.as_array()?)
}
