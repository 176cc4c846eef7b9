// What the placeholders of a pattern stand for in a text. From the right, part by part, a row says from which places of
// the text what follows can go on to its end; of it only the last place is kept for each star, since a star that is as
// long as it can be ends there. Then one walk from the left tells the placeholders. The time is that of the rows: the
// number of parts times the number of characters.
ghost use Rattle.std.specs.Prelude.{◌≡◌, ◌+◌, ◌<◌, ◌≤◌, ◌^◌, ◌&&◌, ◌++◌, ◌∷◌, [], ℕ, List, true, false, length, drop, reverse, take, nat_le, MatchOption, IfSome, IfOk, OnOk, IfNone, None, slice_index, slice_index_or, option_map, encode_utf8_all, is_some, map, All, vec_len};
ghost use Rattle.std.specs.Str.{chars};
ghost use Rattle.arti_wild.specs.declared.part.Part.{Part};
ghost use Rattle.arti_wild.specs.declared.part.Part.TheVariants.{Star};
ghost use Rattle.arti_wild.specs.declared.capturing.Span.{Span};
ghost use Rattle.arti_wild.specs.Splits.{takes_first, greatest, byte_place, captured};
ghost use Rattle.arti_wild.specs.Places.{IsRow, IsLastPlace, AreStarPlaces, IsDead, closed, walk, by_offsets};
ghost use Rattle.arti_wild.specs.Places as spec;

use crate::chars::first;
use crate::part::Part;
use crate::pattern::Pattern;
use std::alloc::{AllocError, Global};

/// A part of a text in bytes, `end` outside.
#[derive(Clone, Copy)]
pub struct Span {
    pub start: u32,
    pub end: u32,
}

fn decode(alloc: Global, mut text: &str) -> Result<Vec<char>, AllocError>
    ensures { IfOk result (λ decoded. decoded.items ≡ chars text.now) }
{
    let mut decoded = Vec::new(alloc);
    'chars: loop {
        match first(text) {
            None => return Ok(decoded),
            Some((c, rest)) => {
                decoded.push(c)?;
                text = rest;
            }
        }
    }
}

// Whether the part takes the character at the place.
fn takes(part: Part, text: &[char], place: usize) -> bool
    requires { place < length text.now }
    ensures { result ≡ takes_first part (drop place text.now) }
{
    match part {
        Part::Char(c) => text[place] == c,
        Part::Any => true,
        Part::LastSlash => text[place] == '/' && !text[place + 1..].contains(&'/'),
        _ => false,
    }
}

// The row of these parts with one in front that takes one character.
fn take_one(part: Part, text: &[char], row: &mut [bool])
    requires part { spec.is_single part ≡ true }
    requires places { length row.old ≡ length text.now + 1 }
    ensures { (parts : List Part) → IsRow parts text.now row.old → IsRow (part ∷ parts) text.now row.new }
{
    let end = text.len();
    'places: for place in 0..end {
        row[place] = takes(part, text, place) && row[place + 1];
    }
    row[end] = false;
}

fn last_place(row: &[bool]) -> Option<usize>
    ensures { MatchOption result ((k : ℕ) → k < length row.now → slice_index_or row.now k false ≡ false) (λ i. (i < length row.now) × (slice_index_or row.now i false ≡ true) × ((k : ℕ) → i < k → k < length row.now → slice_index_or row.now k false ≡ false)) }
{
    let mut i = row.len();
    'back: while i > 0 {
        i -= 1;
        if row[i] {
            return Some(i);
        }
    }
    None
}

fn up_to(last: usize, row: &mut [bool])
    ensures each { (k : ℕ) → k < length row.old → slice_index_or row.new k false ≡ nat_le k last }
    ensures places { length row.new ≡ length row.old }
{
    'places: for (place, here) in row.iter_mut().enumerate() {
        *here = place <= last;
    }
}

// The row of these parts with a star in front, where what follows the star can go on from some place; the last one is kept.
fn take_star(row: &mut [bool], places: &mut Vec<usize>) -> Result<bool, AllocError>
    ensures alive { IfOk result (λ alive. (parts : List Part) (text : List ℕ) → alive ≡ true → IsRow parts text row.old → AreStarPlaces parts text (reverse places.old.items) → IsRow (Star ∷ parts) text row.new × AreStarPlaces (Star ∷ parts) text (reverse places.new.items)) }
    ensures dead { IfOk result (λ alive. (parts : List Part) (text : List ℕ) → alive ≡ false → IsRow parts text row.old → IsDead (Star ∷ parts) text) }
{
    match last_place(row) {
        None => Ok(false),
        Some(last) => {
            push(places, last)?;
            up_to(last, row);
            Ok(true)
        }
    }
}

fn push(places: &mut Vec<usize>, place: usize) -> Result<(), AllocError>
    ensures { OnOk result (places.new.items ≡ places.old.items ++ place ∷ []) }
{
    places.push(place)?;
    Ok(())
}

// Whether the part takes one character.
fn is_single(part: Part) -> bool
    ensures { result ≡ spec.is_single part }
{
    matches!(&part, Part::Char(_) | Part::LastSlash | Part::Any)
}

// The row of these parts with one more in front, if they can go on from some place then.
fn step(
    part: Part,
    text: &[char],
    row: &mut [bool],
    places: &mut Vec<usize>,
) -> Result<bool, AllocError>
    requires { length row.old ≡ length text.now + 1 }
    ensures alive { IfOk result (λ alive. (parts : List Part) → alive ≡ true → IsRow parts text.now row.old → AreStarPlaces parts text.now (reverse places.old.items) → IsRow (part ∷ parts) text.now row.new × AreStarPlaces (part ∷ parts) text.now (reverse places.new.items)) }
    ensures dead { IfOk result (λ alive. (parts : List Part) → alive ≡ false → IsRow parts text.now row.old → IsDead (part ∷ parts) text.now) }
{
    if is_single(part) {
        take_one(part, text, row);
        return Ok(true);
    }
    match part {
        Part::Star => take_star(row, places),
        _ => Ok(true),
    }
}

// The row of no parts.
fn end_row(alloc: Global, len: usize) -> Result<Vec<bool>, AllocError>
    requires { len < 2 ^ 63 }
    ensures { IfOk result (λ row. (text : List ℕ) → length text ≡ len → IsRow [] text row.items) }
{
    let mut row = Vec::with_capacity(alloc, len + 1)?;
    'places: for place in 0..len + 1 {
        row.push(place == len)?;
    }
    Ok(row)
}

// The last places from which what follows each star can go on, the last star first, where the parts split the text.
fn star_places(
    alloc: Global,
    parts: &[Part],
    text: &[char],
) -> Result<Option<Vec<usize>>, AllocError>
    ensures { IfOk result (λ r. MatchOption r (greatest parts.now text.now ≡ None) (λ places. (is_some (greatest parts.now text.now) ≡ true) × AreStarPlaces parts.now text.now (reverse places.items))) }
{
    let mut row = end_row(alloc, text.len())?;
    let mut places = Vec::new(alloc);
    let mut i = parts.len();
    'parts: while i > 0 {
        i -= 1;
        let alive = step(parts[i], text, row.as_mut_slice(), &mut places)?;
        if !alive {
            return Ok(None);
        }
    }
    let whole = row[0];
    if !whole {
        return Ok(None);
    }
    Ok(Some(places))
}

// The bytes at which the characters begin, and the end.
fn offsets(alloc: Global, text: &[char]) -> Result<Vec<u32>, AllocError>
    requires { length (encode_utf8_all text.now) < 2 ^ 32 }
    ensures { IfOk result (λ offsets. (length offsets.items ≡ length text.now + 1) × ((k : ℕ) → k ≤ length text.now → slice_index offsets.items k ≡ byte_place text.now k)) }
{
    let mut offsets = Vec::new(alloc);
    let mut at = 0;
    'chars: for c in text {
        offsets.push(at)?;
        at += c.len_utf8() as u32;
    }
    offsets.push(at)?;
    Ok(offsets)
}

fn place_after(limit: usize, part: Part, at: usize, places: &mut Vec<usize>) -> usize
    ensures { (result, reverse places.new.items) ≡ spec.place_after limit part at (reverse places.old.items) }
{
    match part {
        Part::Star => match places.pop() {
            None => at,
            Some(place) => place,
        },
        Part::Open | Part::Close => at,
        Part::Char(_) | Part::LastSlash | Part::Any => { if at < limit { at + 1 } else { at } }
    }
}

fn opened_after(part: Part, opened: usize, at: usize) -> usize
    ensures { result ≡ spec.opened_after part opened at }
{
    match part {
        Part::Open => at,
        _ => opened,
    }
}

fn offset(offsets: &[u32], at: usize) -> u32
    ensures { result ≡ slice_index offsets.now at }
{
    match offsets.get(at) {
        Some(offset) => *offset,
        None => 0,
    }
}

fn close(
    spans: &mut Vec<Span>,
    offsets: &[u32],
    part: Part,
    opened: usize,
    at: usize,
) -> Result<(), AllocError>
    ensures { OnOk result (spans.new.items ≡ spans.old.items ++ map (by_offsets offsets.now) (closed part opened at)) }
{
    match part {
        Part::Close => {
            let span = Span {
                start: offset(offsets, opened),
                end: offset(offsets, at),
            };
            spans.push(span)?;
            Ok(())
        }
        _ => Ok(()),
    }
}

// The placeholders, where each star reaches to the last of these places.
fn spans(
    alloc: Global,
    parts: &[Part],
    mut places: Vec<usize>,
    offsets: &[u32],
) -> Result<Vec<Span>, AllocError>
    ensures { IfOk result (λ spans. spans.items ≡ map (by_offsets offsets.now) (walk (length offsets.now) 0 0 parts.now (reverse places.items))) }
{
    let mut spans = Vec::new(alloc);
    let mut opened = 0;
    let mut at = 0;
    'parts: for part in parts {
        close(&mut spans, offsets, *part, opened, at)?;
        opened = opened_after(*part, opened, at);
        at = place_after(offsets.len(), *part, at, &mut places);
    }
    Ok(spans)
}

/// What the placeholders of the pattern stand for in the text, in the split whose list of star lengths, in characters and
/// from the left, is the greatest in list order; None where the pattern doesn't stand for the whole text.
pub fn captures(
    alloc: Global,
    pattern: &Pattern,
    text: &str,
) -> Result<Option<Vec<Span>>, AllocError>
    requires { length text.now < 2 ^ 32 }
    ensures { IfOk result (λ spans. option_map (λ v. v.items) spans ≡ captured pattern.now text.now) }
{
    let decoded = decode(alloc, text)?;
    let places = star_places(alloc, pattern.parts(), &decoded)?;
    match places {
        None => Ok(None),
        Some(places) => {
            let offsets = offsets(alloc, &decoded)?;
            let spans = spans(alloc, pattern.parts(), places, &offsets)?;
            Ok(Some(spans))
        }
    }
}
