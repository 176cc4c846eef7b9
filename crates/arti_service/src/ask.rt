// What the head of a request asks.
ghost use Rattle.std.specs.Prelude.{◌≡◌, ◌&&◌, IfOk, Some};
ghost use Rattle.arti_model.specs.Deploys.{lacks_digest, bad_header, wanted_digests};
ghost use Rattle.arti_model.specs.Heads.{item_asked};
ghost use Rattle.arti_model.specs.Decide.{ask_of, asked_of, deploy_asked};
ghost use Rattle.arti_wire.specs.Fields.{texts_of};
ghost use Rattle.arti_service.specs.Asks.{asked_is, IsKnownToRead, IsLocal};
ghost use Rattle.arti_model.specs.Requests.{Request};
ghost use Rattle.arti_model.specs.Store.{local_key};

use arti_route::{
    bad_header, has_method, is_checksum_deploy, is_query, item_asked, lacks_digest, wanted_digests,
};
use arti_rows::{ItemKey, Refusal, SomeDigests, Text};
use arti_wire::{Field, Request};
use std::alloc::{AllocError, Global};

/// What a head asks, or the refusal that it alone tells.
#[derive(Drop)]
pub enum Asked {
    Refused(Refusal),
    /// The content that is sent goes to that key, and has to have these digests.
    Deploy(ItemKey, SomeDigests),
    /// The first content that has these digests goes there.
    DeployFound(ItemKey, SomeDigests),
    Fetch(ItemKey),
    Query,
}

// Whether the content is to be found by its digests, and none is named.
fn names_none(checksum: bool, wanted: &SomeDigests) -> bool
    ensures { result ≡ (checksum && lacks_digest wanted.now) }
{
    checksum && lacks_digest(wanted)
}

// What a deploy asks.
fn deploy_of(alloc: Global, key: ItemKey, fields: &[Field]) -> Result<Asked, AllocError>
    requires { key.repo ≡ local_key }
    ensures asks { IfOk result (λ a. asked_is a ≡ deploy_asked key (texts_of fields.now) (bad_header (texts_of fields.now))) }
    ensures local { IfOk result IsLocal }
    ensures reads { (q : Request) → IfOk result (λ a. IsKnownToRead a q) }
{
    if let Some(name) = bad_header(fields) {
        let name = Text::from_str(alloc, name)?;
        return Ok(Asked::Refused(Refusal::BadHeader(name)));
    }
    let wanted = wanted_digests(fields);
    let checksum = is_checksum_deploy(fields);
    if names_none(checksum, &wanted) {
        return Ok(Asked::Refused(Refusal::ChecksumMissing));
    }
    if checksum {
        return Ok(Asked::DeployFound(key, wanted));
    }
    Ok(Asked::Deploy(key, wanted))
}

// What is asked of an item.
fn ask_on(alloc: Global, request: &Request, key: ItemKey) -> Result<Asked, AllocError>
    requires { key.repo ≡ local_key }
    ensures asks { IfOk result (λ a. asked_is a ≡ asked_of request.now (Some key)) }
    ensures local { IfOk result IsLocal }
    ensures reads { IfOk result (λ a. IsKnownToRead a request.now) }
{
    if has_method(request, "PUT") {
        return deploy_of(alloc, key, request.fields.as_slice());
    }
    if has_method(request, "GET") {
        return Ok(Asked::Fetch(key));
    }
    Ok(Asked::Refused(Refusal::NotYet(None)))
}

/// What a head asks.
pub fn ask_of(alloc: Global, request: &Request) -> Result<Asked, AllocError>
    ensures asks { IfOk result (λ a. asked_is a ≡ ask_of request.now) }
    ensures local { IfOk result IsLocal }
    ensures reads { IfOk result (λ a. IsKnownToRead a request.now) }
{
    if is_query(request) {
        return Ok(Asked::Query);
    }
    match item_asked(alloc, request)? {
        None => Ok(Asked::Refused(Refusal::NotYet(None))),
        Some(key) => ask_on(alloc, request, key),
    }
}
