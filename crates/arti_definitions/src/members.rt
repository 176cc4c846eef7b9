//! The members of a body that defines a repository.
ghost use Rattle.std.specs.Prelude.{◌≡◌, ◌≢◌, [], codes, nat_eq, Ok, Err, IfOk, IfErr, OnOk};
ghost use Rattle.std.specs.List.{starts_with};
ghost use Rattle.serde_json.specs.View.{view};
ghost use Rattle.arti_definitions.specs.Documents.{required_in};
ghost use Rattle.arti_definitions.specs.Body.{class_named, class_in, url_from, url_in, members_in, default_from, default_in, pattern_from, pattern_in, same_key_from, with_room, own_key_in};

use crate::faults::{missing, too_long, wrong_kind};
use crate::keys::{key_from, keys_at};
use arti_json::{JsonFault, text_at};
use arti_rows::{Class, Seq, Text};
use serde_json::Value;
use std::alloc::{AllocError, Global};

// The most bytes of a remote's key, so that there is room for that of its cache.
const MOST_REMOTE_KEY: usize = 58;

// The text of a member that has to be there.
fn required_at(alloc: Global, document: &Value, name: &str) -> Result<Text, JsonFault>
    ensures ok { IfOk result (λ t. required_in name.now (view document.now) ≡ Ok t) }
    ensures fault { IfErr result (λ e. e ≢ JsonFault.Memory → required_in name.now (view document.now) ≡ Err e) }
{
    match text_at(alloc, document, name)? {
        Some(text) => Ok(text),
        None => Err(missing(alloc, name)),
    }
}

fn class_named(alloc: Global, text: &str) -> Result<Class, JsonFault>
    ensures ok { IfOk result (λ class. class_named text.now ≡ Ok class) }
    ensures fault { IfErr result (λ e. e ≢ JsonFault.Memory → class_named text.now ≡ Err e) }
{
    match text {
        "local" => Ok(Class::Local),
        "remote" => Ok(Class::Remote),
        "virtual" => Ok(Class::Virtual),
        _ => Err(wrong_kind(alloc, "rclass")),
    }
}

/// What kind of repository it is.
pub fn class_at(alloc: Global, document: &Value) -> Result<Class, JsonFault>
    ensures ok { IfOk result (λ class. class_in (view document.now) ≡ Ok class) }
    ensures fault { IfErr result (λ e. e ≢ JsonFault.Memory → class_in (view document.now) ≡ Err e) }
{
    let text = required_at(alloc, document, "rclass")?;
    class_named(alloc, text.as_str())
}

fn is_http(text: &str) -> bool
    ensures { result ≡ starts_with nat_eq text.now (codes "http://") }
{
    text.starts_with("http://")
}

fn url_from(alloc: Global, text: Text) -> Result<Text, JsonFault>
    ensures ok { IfOk result (λ url. url_from text ≡ Ok url) }
    ensures fault { IfErr result (λ e. e ≢ JsonFault.Memory → url_from text ≡ Err e) }
{
    if is_http(text.as_str()) {
        return Ok(text);
    }
    Err(wrong_kind(alloc, "url"))
}

fn empty(alloc: Global) -> Result<Text, AllocError>
    ensures { IfOk result (λ t. t ≡ []) }
{
    Text::from_str(alloc, "")
}

fn remote_url_at(alloc: Global, document: &Value) -> Result<Text, JsonFault>
    ensures ok { IfOk result (λ url. url_in Class.Remote (view document.now) ≡ Ok url) }
    ensures fault { IfErr result (λ e. e ≢ JsonFault.Memory → url_in Class.Remote (view document.now) ≡ Err e) }
{
    let text = required_at(alloc, document, "url")?;
    url_from(alloc, text)
}

/// The URL of a remote.
pub fn url_at(alloc: Global, document: &Value, class: Class) -> Result<Text, JsonFault>
    ensures ok { IfOk result (λ url. url_in class (view document.now) ≡ Ok url) }
    ensures fault { IfErr result (λ e. e ≢ JsonFault.Memory → url_in class (view document.now) ≡ Err e) }
{
    match class {
        Class::Local => Ok(empty(alloc)?),
        Class::Remote => remote_url_at(alloc, document),
        Class::Virtual => Ok(empty(alloc)?),
    }
}

/// The members of a virtual.
pub fn members_at(alloc: Global, document: &Value, class: Class) -> Result<Seq<Text>, JsonFault>
    ensures ok { IfOk result (λ members. members_in class (view document.now) ≡ Ok members) }
    ensures fault { IfErr result (λ e. e ≢ JsonFault.Memory → members_in class (view document.now) ≡ Err e) }
{
    match class {
        Class::Local => Ok(Seq::new(alloc)),
        Class::Remote => Ok(Seq::new(alloc)),
        Class::Virtual => keys_at(alloc, document, "repositories"),
    }
}

fn default_key(alloc: Global, text: &str) -> Result<Option<Text>, JsonFault>
    ensures ok { IfOk result (λ key. default_from (Some text.now) ≡ Ok key) }
    ensures fault { IfErr result (λ e. e ≢ JsonFault.Memory → default_from (Some text.now) ≡ Err e) }
{
    if text.is_empty() {
        return Ok(None);
    }
    let key = key_from(alloc, "defaultDeploymentRepo", text)?;
    Ok(Some(key))
}

fn virtual_default_at(alloc: Global, document: &Value) -> Result<Option<Text>, JsonFault>
    ensures ok { IfOk result (λ key. default_in Class.Virtual (view document.now) ≡ Ok key) }
    ensures fault { IfErr result (λ e. e ≢ JsonFault.Memory → default_in Class.Virtual (view document.now) ≡ Err e) }
{
    match text_at(alloc, document, "defaultDeploymentRepo")? {
        Some(text) => default_key(alloc, text.as_str()),
        None => Ok(None),
    }
}

/// Where a virtual takes deploys.
pub fn default_at(alloc: Global, document: &Value, class: Class) -> Result<Option<Text>, JsonFault>
    ensures ok { IfOk result (λ key. default_in class (view document.now) ≡ Ok key) }
    ensures fault { IfErr result (λ e. e ≢ JsonFault.Memory → default_in class (view document.now) ≡ Err e) }
{
    match class {
        Class::Local => Ok(None),
        Class::Remote => Ok(None),
        Class::Virtual => virtual_default_at(alloc, document),
    }
}

fn pattern_from(alloc: Global, usual: &str, text: Option<Text>) -> Result<Text, AllocError>
    ensures { IfOk result (λ t. t ≡ pattern_from usual.now text) }
{
    match text {
        None => Text::from_str(alloc, usual),
        Some(text) => or_usual(alloc, usual, text),
    }
}

fn or_usual(alloc: Global, usual: &str, text: Text) -> Result<Text, AllocError>
    ensures { IfOk result (λ t. t ≡ pattern_from usual.now (Some text)) }
{
    if text.as_str().is_empty() {
        return Text::from_str(alloc, usual);
    }
    Ok(text)
}

/// A pattern, or the usual one where it isn't there or is empty.
pub fn pattern_at(
    alloc: Global,
    document: &Value,
    name: &str,
    usual: &str,
) -> Result<Text, JsonFault>
    ensures ok { IfOk result (λ t. pattern_in name.now usual.now (view document.now) ≡ Ok t) }
    ensures fault { IfErr result (λ e. e ≢ JsonFault.Memory → pattern_in name.now usual.now (view document.now) ≡ Err e) }
{
    let text = text_at(alloc, document, name)?;
    Ok(pattern_from(alloc, usual, text)?)
}

fn judge_same(alloc: Global, key: &str, text: Option<Text>) -> Result<(), JsonFault>
    ensures ok { OnOk result (same_key_from key.now text ≡ Ok key.now) }
    ensures fault { IfErr result (λ e. e ≢ JsonFault.Memory → same_key_from key.now text ≡ Err e) }
{
    match text {
        None => Ok(()),
        Some(text) => judge_equal(alloc, key, text.as_str()),
    }
}

fn judge_equal(alloc: Global, key: &str, text: &str) -> Result<(), JsonFault>
    ensures ok { OnOk result (same_key_from key.now (Some text.now) ≡ Ok key.now) }
    ensures fault { IfErr result (λ e. e ≢ JsonFault.Memory → same_key_from key.now (Some text.now) ≡ Err e) }
{
    if text == key {
        return Ok(());
    }
    Err(wrong_kind(alloc, "key"))
}

fn judge_room(alloc: Global, class: Class, key: &str) -> Result<(), JsonFault>
    ensures ok { OnOk result (with_room class key.now ≡ Ok key.now) }
    ensures fault { IfErr result (λ e. e ≢ JsonFault.Memory → with_room class key.now ≡ Err e) }
{
    match class {
        Class::Local => Ok(()),
        Class::Remote => judge_remote_room(alloc, key),
        Class::Virtual => Ok(()),
    }
}

fn judge_remote_room(alloc: Global, key: &str) -> Result<(), JsonFault>
    ensures ok { OnOk result (with_room Class.Remote key.now ≡ Ok key.now) }
    ensures fault { IfErr result (λ e. e ≢ JsonFault.Memory → with_room Class.Remote key.now ≡ Err e) }
{
    if key.len() > MOST_REMOTE_KEY {
        return Err(too_long(alloc, "key"));
    }
    Ok(())
}

/// The definition's key, which the document may name too.
pub fn own_key_at(
    alloc: Global,
    document: &Value,
    class: Class,
    key: &str,
) -> Result<Text, JsonFault>
    ensures ok { IfOk result (λ own. own_key_in class key.now (view document.now) ≡ Ok own) }
    ensures fault { IfErr result (λ e. e ≢ JsonFault.Memory → own_key_in class key.now (view document.now) ≡ Err e) }
{
    let text = text_at(alloc, document, "key")?;
    judge_same(alloc, key, text)?;
    judge_room(alloc, class, key)?;
    Ok(Text::from_str(alloc, key)?)
}
