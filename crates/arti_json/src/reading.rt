// Documents, and their members by name.
ghost use Rattle.std.specs.Prelude.{◌≡◌, ◌≢◌, ◌≤◌, Ok, Err, Some, None, IfOk, IfErr};
ghost use Rattle.std.specs.Str.{IsUtf8};
ghost use Rattle.serde_json.specs.Data.{depth};
ghost use Rattle.serde_json.specs.Read.{read, max_depth};
ghost use Rattle.serde_json.specs.View.{view};
ghost use Rattle.serde_json.specs.Find.{get};
ghost use Rattle.arti_json.specs.Members.{text_of, kept_text, flag_of, number_of};

use crate::JsonFault;
use arti_rows::Text;
use serde_json::Value;
use std::alloc::Global;

// The most bytes of a member's text.
const MOST_TEXT: usize = 4096;

/// The value that the bytes spell, of at most 127 levels.
pub fn read(alloc: Global, bytes: &[u8]) -> Result<Value, JsonFault>
    ensures ok { IfOk result (λ v. IsUtf8 bytes.now × (read bytes.now ≡ Some (view v))) }
    ensures fault { IfErr result (λ e. e ≢ JsonFault.Memory → (e ≡ JsonFault.NotJson) × (IsUtf8 bytes.now → read bytes.now ≡ None)) }
{
    match Value::from_slice(alloc, bytes) {
        Ok(value) => Ok(value),
        Err(error) if error.is_memory() => Err(JsonFault::Memory),
        Err(_) => Err(JsonFault::NotJson),
    }
}

fn wrong_kind(alloc: Global, key: &str) -> JsonFault
    ensures { result ≢ JsonFault.Memory → result ≡ JsonFault.WrongKind key.now }
{
    match Text::from_str(alloc, key) {
        Ok(key) => JsonFault::WrongKind(key),
        Err(_) => JsonFault::Memory,
    }
}

fn too_long(alloc: Global, key: &str) -> JsonFault
    ensures { result ≢ JsonFault.Memory → result ≡ JsonFault.TooLong key.now }
{
    match Text::from_str(alloc, key) {
        Ok(key) => JsonFault::TooLong(key),
        Err(_) => JsonFault::Memory,
    }
}

/// The text of a member. A member that is null isn't there, and a value that is no object has none.
pub fn text_at(alloc: Global, value: &Value, key: &str) -> Result<Option<Text>, JsonFault>
    ensures ok { IfOk result (λ t. text_of key.now (get key.now (view value.now)) ≡ Ok t) }
    ensures fault { IfErr result (λ e. e ≢ JsonFault.Memory → text_of key.now (get key.now (view value.now)) ≡ Err e) }
{
    match value.get(key) {
        None => Ok(None),
        Some(Value::Null) => Ok(None),
        Some(Value::String(text)) => kept(alloc, key, text.as_str()),
        Some(_) => Err(wrong_kind(alloc, key)),
    }
}

// A text that isn't too long.
fn kept(alloc: Global, key: &str, text: &str) -> Result<Option<Text>, JsonFault>
    ensures ok { IfOk result (λ t. kept_text key.now text.now ≡ Ok t) }
    ensures fault { IfErr result (λ e. e ≢ JsonFault.Memory → kept_text key.now text.now ≡ Err e) }
{
    if text.len() > MOST_TEXT {
        return Err(too_long(alloc, key));
    }
    Ok(Some(Text::from_str(alloc, text)?))
}

/// The truth of a member, or the default where it isn't there.
pub fn flag_at(alloc: Global, value: &Value, key: &str, default: bool) -> Result<bool, JsonFault>
    ensures ok { IfOk result (λ b. flag_of key.now default (get key.now (view value.now)) ≡ Ok b) }
    ensures fault { IfErr result (λ e. e ≢ JsonFault.Memory → flag_of key.now default (get key.now (view value.now)) ≡ Err e) }
{
    match value.get(key) {
        None => Ok(default),
        Some(Value::Null) => Ok(default),
        Some(Value::Bool(flag)) => Ok(*flag),
        Some(_) => Err(wrong_kind(alloc, key)),
    }
}

/// The number of a member: one without sign, point or exponent.
pub fn number_at(alloc: Global, value: &Value, key: &str) -> Result<Option<u64>, JsonFault>
    ensures ok { IfOk result (λ n. number_of key.now (get key.now (view value.now)) ≡ Ok n) }
    ensures fault { IfErr result (λ e. e ≢ JsonFault.Memory → number_of key.now (get key.now (view value.now)) ≡ Err e) }
{
    match value.get(key) {
        None => Ok(None),
        Some(Value::Null) => Ok(None),
        Some(Value::Number(number)) => match number.as_u64() {
            Some(number) => Ok(Some(number)),
            None => Err(wrong_kind(alloc, key)),
        },
        Some(_) => Err(wrong_kind(alloc, key)),
    }
}
