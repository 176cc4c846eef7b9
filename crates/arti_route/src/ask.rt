// What a request asks.
ghost use Rattle.std.specs.Prelude.{◌≡◌, ◌&&◌, nat_eq, true, false, if◌then◌else◌, IfOk, IfSome, length, drop, Some, None};
ghost use Rattle.std.specs.List.{list_any, list_all, starts_with};
ghost use Rattle.arti_rows.specs.Key.{key_of};
ghost use Rattle.arti_model.specs.Store.{local_key};
ghost use Rattle.arti_model.specs.Heads.{has_field, has_method, deploy_fields, is_plain, local_front, is_target_byte, is_plain_path, target_item, item_asked, is_query};
ghost use Rattle.arti_wire.specs.Fields.{texts_of};

use crate::fields::{self, has_field};
use arti_rows::{ItemKey, KeyFault};
use arti_wire::{Field, Request};
use std::alloc::{AllocError, Global};

const LOCAL: &str = "generic-local";

const LOCAL_FRONT: &str = "/generic-local/";

const QUERY_TARGET: &str = "/api/search/aql";

const USER: &str = "X-Arti-User";

/// Whether the request has that method.
pub fn has_method(request: &Request, method: &str) -> bool
    ensures { result ≡ has_method request.now method.now }
{
    request.method.as_str() == method
}

// Whether some field has a meaning for a deploy alone.
fn has_deploy_field(fields: &[Field]) -> bool
    ensures { result ≡ list_any (has_field (texts_of fields.now)) deploy_fields }
{
    has_field(fields, fields::DEPLOY)
        || has_field(fields, fields::SHA1)
        || has_field(fields, fields::SHA256)
        || has_field(fields, fields::MD5)
}

// Whether no field has a meaning that isn't built yet for the request.
fn is_plain(request: &Request) -> bool
    ensures { result ≡ is_plain request.now }
{
    if has_field(request.fields.as_slice(), USER) {
        return false;
    }
    has_method(request, "PUT") || !has_deploy_field(request.fields.as_slice())
}

fn is_target_byte(b: u8) -> bool
    ensures { result ≡ is_target_byte b }
{
    b.is_ascii_alphanumeric() || b == b'-' || b == b'_' || b == b'.' || b == b'/'
}

fn has_target_bytes(path: &[u8]) -> bool
    ensures { result ≡ list_all is_target_byte path.now }
{
    path.iter().all(|b| is_target_byte(*b))
}

// The path behind the front, where the target has it.
fn behind_front(target: &str) -> Option<&str>
    ensures front { result ≡ None → starts_with nat_eq target.now local_front ≡ false }
    ensures path { IfSome result (λ path. (starts_with nat_eq target.now local_front ≡ true) × (path.now ≡ drop (length local_front) target.now)) }
{
    target.strip_prefix(LOCAL_FRONT)
}

// The item of a path that is written without escapes.
fn path_item(alloc: Global, path: &str) -> Result<Option<ItemKey>, AllocError>
    ensures { IfOk result (λ o. o ≡ (if is_plain_path path.now then Some (key_of local_key path.now) else None)) }
{
    if !has_target_bytes(path.as_bytes()) {
        return Ok(None);
    }
    match ItemKey::new(alloc, LOCAL, path) {
        Ok(key) => Ok(Some(key)),
        Err(KeyFault::Memory) => Err(AllocError),
        Err(_) => Ok(None),
    }
}

// The item that a target names.
fn target_item(alloc: Global, target: &str) -> Result<Option<ItemKey>, AllocError>
    ensures { IfOk result (λ o. o ≡ target_item target.now) }
{
    match behind_front(target) {
        None => Ok(None),
        Some(path) => path_item(alloc, path),
    }
}

/// Whether it is a query that is built.
pub fn is_query(request: &Request) -> bool
    ensures { result ≡ (is_plain request.now && is_query request.now) }
{
    has_method(request, "POST") && request.target.as_str() == QUERY_TARGET && is_plain(request)
}

/// The item that a request names, where it is a request that is built.
pub fn item_asked(alloc: Global, request: &Request) -> Result<Option<ItemKey>, AllocError>
    ensures { IfOk result (λ o. o ≡ item_asked request.now) }
{
    if !is_plain(request) {
        return Ok(None);
    }
    target_item(alloc, request.target.as_str())
}
