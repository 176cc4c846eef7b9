// What a request asks, or why it is refused before anything is looked up.
ghost use Rattle.std.specs.Prelude.{◌≡◌, ◌≢◌, Ok, Err, IfOk, IfErr, MatchOption, true, false};
ghost use Rattle.std.specs.List.{list_all};
ghost use Rattle.arti_model.specs.Asks.{asked, user_read, is_user, is_user_byte};
ghost use Rattle.arti_route.specs.Asked.{asked_by};
ghost use Rattle.arti_wire.specs.Fields.{texts_of};
ghost use Rattle.arti_rows.specs.declared.refusal.Refusal.TheVariants as refusal;

use crate::fields::first_value;
use crate::routes::route_of;
use crate::rows::row_of;
use crate::target::Target;
use arti_model::{Ask, Route};
use arti_rows::{Refusal, Text};
use arti_wire::{Field, Request};
use std::alloc::{AllocError, Global};

const USER: &str = "X-Arti-User";

// The user of a request that names none.
const NOBODY: &str = "anonymous";

fn is_user_byte(b: u8) -> bool
    ensures { result ≡ is_user_byte b }
{
    33 <= b && b <= 126
}

fn has_user_bytes(name: &[u8]) -> bool
    ensures { result ≡ list_all is_user_byte name.now }
{
    name.iter().all(|b| is_user_byte(*b))
}

// Whether it is a user's name: 1 to 64 visible ASCII characters.
fn is_user(name: &[u8]) -> bool
    ensures { result ≡ is_user name.now }
{
    !name.is_empty() && name.len() <= 64 && has_user_bytes(name)
}

// The text of a user's name.
fn user_text(name: &[u8]) -> Option<&str>
    ensures { MatchOption result (is_user name.now ≡ false) (λ t. (is_user name.now ≡ true) × (t.now ≡ name.now)) }
{
    if !is_user(name) {
        return None;
    }
    match str::from_utf8(name) {
        Ok(text) => Some(text),
        Err(_) => None,
    }
}

// The user that the fields name.
fn user(alloc: Global, fields: &[Field]) -> Result<Text, Refusal>
    ensures ok { IfOk result (λ t. user_read (texts_of fields.now) ≡ Ok t) }
    ensures refused { IfErr result (λ why. why ≢ refusal.Memory → user_read (texts_of fields.now) ≡ Err why) }
{
    match first_value(fields, USER) {
        None => Ok(Text::from_str(alloc, NOBODY)?),
        Some(name) => match user_text(name) {
            Some(text) => Ok(Text::from_str(alloc, text)?),
            None => Err(Refusal::BadUser),
        },
    }
}

// What a route asks, and for which user.
fn asked_by(alloc: Global, route: Route, target: &Target, fields: &[Field]) -> Result<Ask, Refusal>
    ensures ok { IfOk result (λ a. asked_by route target.now (texts_of fields.now) ≡ Ok a) }
    ensures refused { IfErr result (λ why. why ≢ refusal.Memory → asked_by route target.now (texts_of fields.now) ≡ Err why) }
{
    let user = user(alloc, fields)?;
    let row = row_of(alloc, route, target, fields)?;
    Ok(Ask { user, row })
}

// What a request asks, or why it is refused.
#[tactic(auto, unfolding(arti_model::specs::Asks::asked))]
fn asked(alloc: Global, request: &Request) -> Result<Ask, Refusal>
    ensures ok { IfOk result (λ a. asked request.now ≡ Ok a) }
    ensures refused { IfErr result (λ why. why ≢ refusal.Memory → asked request.now ≡ Err why) }
{
    let target = Target::read(alloc, request.target.as_str())?;
    let route = route_of(request.method.as_str(), target.segments.as_slice())?;
    let ask = asked_by(alloc, route, &target, request.fields.as_slice())?;
    Ok(ask)
}

/// What a request asks, or the first of its refusals: the target, the route, the user, the digests of a deploy, the query's
/// parameters, the names. Property texts and lists of keys are unread.
pub fn ask_of(alloc: Global, request: &Request) -> Result<Result<Ask, Refusal>, AllocError>
    ensures { IfOk result (λ r. r ≡ asked request.now) }
{
    match asked(alloc, request) {
        Ok(ask) => Ok(Ok(ask)),
        Err(Refusal::Memory) => Err(AllocError),
        Err(refusal) => Ok(Err(refusal)),
    }
}
