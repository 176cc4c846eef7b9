// The places that a repository's items are looked for in.
ghost use Rattle.std.specs.Prelude.{◌≡◌, ◌++◌, length, IfOk, OnOk};
ghost use Rattle.arti_rows.specs.declared.rows.Class.TheVariants.{Virtual};
ghost use Rattle.arti_repos.specs.Definitions.{InOrder, is_of, cache_key};
ghost use Rattle.arti_repos.specs.Ranks.{IsAcyclic};
ghost use Rattle.arti_repos.specs.Walks.{leaves, arranged, places_as, key_as};
ghost use Rattle.arti_repos.specs.Frames.{pending};
ghost use Rattle.arti_repos.specs.Visits.{values, coming, itself, Visits};

use crate::frame::{Frame, frame_of, next_member};
use crate::meeting::{meet, none_met};
use crate::{Place, PlaceKind};
use arti_rows::{Class, RepoDef, Text};
use std::alloc::{AllocError, Global};

/// The places of a key that has a definition.
pub(crate) fn walk(
    alloc: Global,
    definitions: &[RepoDef],
    key: &str,
) -> Result<Vec<Place>, AllocError>
    requires order { InOrder definitions.now }
    requires acyclic { IsAcyclic definitions.now }
    ensures { IfOk result (λ places. places.items ≡ arranged (leaves definitions.now key.now)) }
{
    let found = leaves(alloc, definitions, key)?;
    let mut places = Vec::new(alloc);
    add_places(alloc, &mut places, &found, Class::Local, PlaceKind::Local)?;
    add_places(alloc, &mut places, &found, Class::Remote, PlaceKind::Cache)?;
    add_places(alloc, &mut places, &found, Class::Remote, PlaceKind::Remote)?;
    Ok(places)
}

// The locals and remotes that a key stands for, in listed order, each once.
fn leaves<'a>(
    alloc: Global,
    definitions: &'a [RepoDef],
    key: &str,
) -> Result<Vec<&'a RepoDef>, AllocError>
    requires order { InOrder definitions.now }
    requires acyclic { IsAcyclic definitions.now }
    ensures { IfOk result (λ found. values found.items ≡ leaves definitions.now key.now) }
{
    let mut met = none_met(alloc, definitions.len())?;
    let mut frames = Vec::new(alloc);
    let mut found = Vec::new(alloc);
    visit(definitions, &mut met, &mut frames, &mut found, key)?;
    'members: while let Some(member) = next_member(&mut frames) {
        visit(definitions, &mut met, &mut frames, &mut found, member)?;
    }
    Ok(found)
}

// A key that is met for the first time: a virtual's members come next, another one is found.
fn visit<'a>(
    definitions: &'a [RepoDef],
    met: &mut Vec<bool>,
    frames: &mut Vec<Frame<'a>>,
    found: &mut Vec<&'a RepoDef>,
    key: &str,
) -> Result<(), AllocError>
    requires order { InOrder definitions.now }
    requires count { length met.old.items ≡ length definitions.now }
    ensures count { length met.new.items ≡ length definitions.now }
    ensures visits { OnOk result (Visits definitions.now key.now met.old.items (pending frames.old.items) (values found.old.items) met.new.items (pending frames.new.items) (values found.new.items)) }
{
    match meet(definitions, met, key) {
        None => Ok(()),
        Some(def) => enter(def, frames, found),
    }
}

fn enter<'a>(
    def: &'a RepoDef,
    frames: &mut Vec<Frame<'a>>,
    found: &mut Vec<&'a RepoDef>,
) -> Result<(), AllocError>
    ensures frames { OnOk result (pending frames.new.items ≡ coming def.now ++ pending frames.old.items) }
    ensures found { OnOk result (values found.new.items ≡ values found.old.items ++ itself def.now) }
{
    if is_virtual(def) {
        frames.push(frame_of(def))?;
    } else {
        found.push(def)?;
    }
    Ok(())
}

fn is_virtual(def: &RepoDef) -> bool
    ensures { result ≡ is_of Virtual def.now }
{
    match def.class {
        Class::Virtual => true,
        _ => false,
    }
}

// The places of this kind that those of a class have.
fn add_places(
    alloc: Global,
    places: &mut Vec<Place>,
    found: &[&RepoDef],
    class: Class,
    kind: PlaceKind,
) -> Result<(), AllocError>
    ensures { OnOk result (places.new.items ≡ places.old.items ++ places_as class kind (values found.now)) }
{
    for def in found {
        if is_of(def, class) {
            places.push(place_in(alloc, def.key.as_str(), kind)?)?;
        }
    }
    Ok(())
}

fn is_of(def: &RepoDef, class: Class) -> bool
    ensures { result ≡ is_of class def.now }
{
    match (def.class, class) {
        (Class::Local, Class::Local) => true,
        (Class::Remote, Class::Remote) => true,
        (Class::Virtual, Class::Virtual) => true,
        _ => false,
    }
}

// The place of this kind that a key has.
fn place_in(alloc: Global, key: &str, kind: PlaceKind) -> Result<Place, AllocError>
    ensures { IfOk result (λ p. p ≡ record { key = key_as kind key.now; kind = kind }) }
{
    Ok(Place {
        key: key_as(alloc, key, kind)?,
        kind,
    })
}

fn key_as(alloc: Global, key: &str, kind: PlaceKind) -> Result<Text, AllocError>
    ensures { IfOk result (λ t. t ≡ key_as kind key.now) }
{
    match kind {
        PlaceKind::Cache => cache_key(alloc, key),
        _ => Text::from_str(alloc, key),
    }
}

/// The key of a remote's cache.
pub(crate) fn cache_key(alloc: Global, key: &str) -> Result<Text, AllocError>
    ensures { IfOk result (λ t. t ≡ cache_key key.now) }
{
    let mut text = String::from_str(alloc, key)?;
    text.push_str("-cache")?;
    Ok(Text::from_string(text))
}
