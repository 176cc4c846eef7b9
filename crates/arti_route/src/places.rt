// The target of a copy or move: a repository, a slash, and something, behind a leading slash.
ghost use Rattle.std.specs.Prelude.{◌≡◌, ◌≢◌, Ok, Err, IfOk, IfErr, MatchOption, ◌-◌, nat_eq, codes, length, string_bytes};
ghost use Rattle.std.specs.List.{ends_with};
ghost use Rattle.arti_model.specs.Asks.{segment, full_to, is_place, place_read, place_key, move_read};
ghost use Rattle.arti_rows.specs.declared.refusal.Refusal.TheVariants as refusal;

use crate::names::{api_item, whole_key};
use crate::queries::{bad_query, flag, needed};
use crate::routes::segment;
use crate::target::{Target, cut};
use arti_rows::{ItemKey, Refusal, Text};
use std::alloc::{AllocError, Global};

fn ends_in_slash(text: &str) -> bool
    ensures { result ≡ ends_with nat_eq text.now (codes "/") }
{
    text.ends_with("/")
}

// Where it ends in a slash, the source's name is appended.
fn full_to(to: Text, name: &str) -> Result<String, AllocError>
    ensures { IfOk result (λ s. string_bytes s ≡ full_to to name.now) }
{
    let mut full = to.into_string();
    if !ends_in_slash(full.as_str()) {
        return Ok(full);
    }
    full.push_str(name)?;
    Ok(full)
}

// Whether it is a repository, a slash, and something.
fn is_place(place: &str) -> bool
    ensures { result ≡ is_place place.now }
{
    let (repo, whole) = cut(place, '/');
    !repo.is_empty() && !whole.is_empty()
}

// The place behind a leading slash.
fn place_of(to: &str) -> Option<&str>
    ensures { MatchOption result (place_read to.now ≡ Err (refusal.BadQuery (codes "to"))) (λ p. place_read to.now ≡ Ok p.now) }
{
    match to.strip_prefix("/") {
        Some(place) => {
            if is_place(place) {
                return Some(place);
            }
            None
        }
        None => None,
    }
}

// The place of that target.
fn place(alloc: Global, to: &str) -> Result<Text, Refusal>
    ensures ok { IfOk result (λ p. place_read to.now ≡ Ok p) }
    ensures refused { IfErr result (λ why. why ≢ refusal.Memory → place_read to.now ≡ Err why) }
{
    match place_of(to) {
        Some(place) => Ok(Text::from_str(alloc, place)?),
        None => Err(bad_query(alloc, "to")),
    }
}

// The place of a target, to which the source's name is appended where it ends in a slash.
fn full_place(alloc: Global, target: &Target, to: Text) -> Result<Text, Refusal>
    ensures ok { IfOk result (λ p. place_read (full_to to (segment target.now.segments (length target.now.segments - 1))) ≡ Ok p) }
    ensures refused { IfErr result (λ why. why ≢ refusal.Memory → place_read (full_to to (segment target.now.segments (length target.now.segments - 1))) ≡ Err why) }
{
    let segments = target.segments.as_slice();
    let full = full_to(to, segment(segments, segments.len().saturating_sub(1)))?;
    place(alloc, full.as_str())
}

// The item at a place.
fn key_at(alloc: Global, place: &str) -> Result<ItemKey, Refusal>
    ensures ok { IfOk result (λ k. place_key place.now ≡ Ok k) }
    ensures refused { IfErr result (λ why. why ≢ refusal.Memory → place_key place.now ≡ Err why) }
{
    let (repo, whole) = cut(place, '/');
    whole_key(alloc, repo, whole)
}

/// What a copy or move asks: the source, the target, and whether nothing is to be changed.
pub fn moved(alloc: Global, target: &Target) -> Result<(ItemKey, ItemKey, bool), Refusal>
    ensures ok { IfOk result (λ m. move_read target.now ≡ Ok (m.0, (m.1, m.2))) }
    ensures refused { IfErr result (λ why. why ≢ refusal.Memory → move_read target.now ≡ Err why) }
{
    let to = needed(alloc, target, "to")?;
    let dry = flag(alloc, target, "dry", false)?;
    let place = full_place(alloc, target, to)?;
    let from = api_item(alloc, target)?;
    let to = key_at(alloc, place.as_str())?;
    Ok((from, to, dry))
}
