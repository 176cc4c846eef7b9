//! Members that hold keys of repositories.
ghost use Rattle.std.specs.Prelude.{◌≡◌, ◌≢◌, ◌++◌, ◌∷◌, [], Ok, Err, IfOk, IfErr, OnOk};
ghost use Rattle.std.specs.List.{list_all};
ghost use Rattle.serde_json.specs.View.{view, items_view};
ghost use Rattle.serde_json.specs.Find.{get};
ghost use Rattle.arti_rows.specs.Names.{is_repo_byte, is_one_of, reserved_keys};
ghost use Rattle.arti_definitions.specs.Keys.{has_key_characters, key_from, short_key, key_in, keys_from, few_keys, keys_of};

use crate::faults::{too_long, wrong_kind};
use arti_json::JsonFault;
use arti_rows::{Seq, Text, is_repo_key};
use serde_json::Value;
use std::alloc::{AllocError, Global};

// The most bytes of a text.
const MOST_TEXT: usize = 4096;

// The most keys of a list.
const MOST_KEYS: usize = 256;

fn is_repo_byte(b: u8) -> bool
    ensures { result ≡ is_repo_byte b }
{
    b.is_ascii_alphanumeric() || b == b'-' || b == b'_' || b == b'.'
}

fn has_repo_bytes(bytes: &[u8]) -> bool
    ensures { result ≡ list_all is_repo_byte bytes.now }
{
    bytes.iter().all(|b| is_repo_byte(*b))
}

fn is_reserved(key: &str) -> bool
    ensures { result ≡ is_one_of reserved_keys key.now }
{
    key == "." || key == ".." || key == "api" || key == "artifactory"
}

// Whether a text has the characters of a key, of whatever length.
fn has_key_characters(key: &str) -> bool
    ensures { result ≡ has_key_characters key.now }
{
    has_repo_bytes(key.as_bytes()) && !is_reserved(key)
}

/// A text as a key.
pub fn key_from(alloc: Global, name: &str, text: &str) -> Result<Text, JsonFault>
    ensures ok { IfOk result (λ key. key_from name.now text.now ≡ Ok key) }
    ensures fault { IfErr result (λ e. e ≢ JsonFault.Memory → key_from name.now text.now ≡ Err e) }
{
    if is_repo_key(text) {
        return Ok(Text::from_str(alloc, text)?);
    }
    if has_key_characters(text) {
        return Err(too_long(alloc, name));
    }
    Err(wrong_kind(alloc, name))
}

// A text that may be too long for any member, as a key.
fn short_key(alloc: Global, name: &str, text: &str) -> Result<Text, JsonFault>
    ensures ok { IfOk result (λ key. short_key name.now text.now ≡ Ok key) }
    ensures fault { IfErr result (λ e. e ≢ JsonFault.Memory → short_key name.now text.now ≡ Err e) }
{
    if text.len() > MOST_TEXT {
        return Err(too_long(alloc, name));
    }
    key_from(alloc, name, text)
}

// The key that a value of a list is.
fn key_in(alloc: Global, name: &str, value: &Value) -> Result<Text, JsonFault>
    ensures ok { IfOk result (λ key. key_in name.now (view value.now) ≡ Ok key) }
    ensures fault { IfErr result (λ e. e ≢ JsonFault.Memory → key_in name.now (view value.now) ≡ Err e) }
{
    match value {
        Value::String(text) => short_key(alloc, name, text.as_str()),
        _ => Err(wrong_kind(alloc, name)),
    }
}

fn push_key(keys: &mut Vec<Text>, key: Text) -> Result<(), AllocError>
    ensures { OnOk result (keys.new.items ≡ keys.old.items ++ key ∷ []) }
{
    keys.push(key)?;
    Ok(())
}

// The keys that the values of a list are.
fn keys_from(alloc: Global, name: &str, values: &[Value]) -> Result<Vec<Text>, JsonFault>
    ensures ok { IfOk result (λ keys. keys_from name.now (items_view values.now) ≡ Ok keys.items) }
    ensures fault { IfErr result (λ e. e ≢ JsonFault.Memory → keys_from name.now (items_view values.now) ≡ Err e) }
{
    let mut keys = Vec::new(alloc);
    for value in values {
        let key = key_in(alloc, name, value)?;
        push_key(&mut keys, key)?;
    }
    Ok(keys)
}

// The keys of a list, if they aren't too many.
fn few_keys(alloc: Global, name: &str, values: &[Value]) -> Result<Seq<Text>, JsonFault>
    ensures ok { IfOk result (λ keys. few_keys name.now (items_view values.now) ≡ Ok keys) }
    ensures fault { IfErr result (λ e. e ≢ JsonFault.Memory → few_keys name.now (items_view values.now) ≡ Err e) }
{
    let keys = keys_from(alloc, name, values)?;
    if keys.len() > MOST_KEYS {
        return Err(too_long(alloc, name));
    }
    Ok(Seq::from_vec(keys))
}

/// The keys that a member lists. Where it isn't there, or is null, there are none.
pub fn keys_at(alloc: Global, document: &Value, name: &str) -> Result<Seq<Text>, JsonFault>
    ensures ok { IfOk result (λ keys. keys_of name.now (get name.now (view document.now)) ≡ Ok keys) }
    ensures fault { IfErr result (λ e. e ≢ JsonFault.Memory → keys_of name.now (get name.now (view document.now)) ≡ Err e) }
{
    match document.get(name) {
        None => Ok(Seq::new(alloc)),
        Some(Value::Null) => Ok(Seq::new(alloc)),
        Some(Value::Array(values)) => few_keys(alloc, name, values),
        Some(_) => Err(wrong_kind(alloc, name)),
    }
}
