// Targets as they are read: `{n}` is a placeholder.
ghost use Rattle.std.specs.Prelude.{◌≡◌, ◌++◌, ◌∷◌, [], ℕ, List, drop, IfOk, IfErr, OnOk, Some, None, is_some};
ghost use Rattle.std.specs.Str.{chars};
ghost use Rattle.arti_targets.specs.declared.part.TargetPart.TheVariants.{Group};
ghost use Rattle.arti_targets.specs.declared.target.TargetFault.TheVariants.{NoPlaceholder};
ghost use Rattle.arti_targets.specs.Targets as spec;

use crate::part::TargetPart;
use std::alloc::{AllocError, Global};
use std::marker::Model;
use thiserror::Error;

/// A target, which contracts see as the list of its parts.
#[derive(Drop)]
pub struct Target {
    parts: Vec<TargetPart>,
}

impl Model for Target {
    ghost use Rattle.std.specs.Prelude.{List};
    ghost use Rattle.arti_targets.specs.declared.part.TargetPart.{TargetPart};

    ghost Value = { List TargetPart };

    ghost view = { λ t. t.parts.items };
}

impl Target {
    /// Its parts, from the left.
    pub fn parts(&self) -> &[TargetPart]
        ensures { result.now ≡ self.now }
    {
        self.parts.as_slice()
    }
}

/// Why a target is not read.
#[derive(Clone, Copy, Debug, PartialEq, Eq, Error)]
pub enum TargetFault {
    /// The pattern has no placeholder of that number.
    #[error("no placeholder has the number {0}")]
    NoPlaceholder(u32),
    #[error("out of memory")]
    Memory,
}

impl From<AllocError> for TargetFault {
    ghost use Rattle.std.specs.Prelude.{◌≡◌};
    ghost use Rattle.arti_targets.specs.declared.target.TargetFault.TheVariants.{Memory};

    ghost from_gives = { λ _ fault. fault ≡ Memory };

    fn from(_: AllocError) -> TargetFault {
        TargetFault::Memory
    }
}

fn is_digit(c: char) -> bool
    ensures { result ≡ spec.is_digit c }
{
    '0' <= c && c <= '9'
}

// The number of the placeholder whose opening brace these characters follow, and how many of them belong to it.
fn hole(rest: &[char]) -> Option<(u32, usize)>
    ensures { result ≡ spec.hole rest.now }
{
    let mut seen = 0;
    let mut number = 0;
    'digits: for c in rest {
        if *c == '}' {
            return if seen == 0 {
                None
            } else {
                Some((number, seen + 1))
            };
        }
        if !is_digit(*c) || seen >= 3 {
            return None;
        }
        number = number * 10 + (u32::from(*c) - 48);
        seen += 1;
    }
    None
}

// The part that begins with a character, and how many of the characters behind it belong to it.
fn part_at(c: char, rest: &[char]) -> (TargetPart, usize)
    ensures { result ≡ spec.part_at c rest.now }
{
    let found = if c == '{' { hole(rest) } else { None };
    match found {
        None => (TargetPart::Char(c), 0),
        Some((number, len)) => (TargetPart::Group(number), len),
    }
}

fn decode(alloc: Global, text: &str) -> Result<Vec<char>, AllocError>
    ensures { IfOk result (λ decoded. decoded.items ≡ chars text.now) }
{
    let mut decoded = Vec::new(alloc);
    for c in text.chars() {
        decoded.push(c)?;
    }
    Ok(decoded)
}

// The parts of some characters.
fn parts_of(alloc: Global, text: &[char]) -> Result<Vec<TargetPart>, AllocError>
    ensures { IfOk result (λ parts. parts.items ≡ spec.parts_from 0 text.now) }
{
    let mut parts = Vec::new(alloc);
    let mut taken = 0;
    'chars: for at in 0..text.len() {
        if taken > 0 {
            taken -= 1;
        } else {
            let (part, more) = part_at(text[at], &text[at + 1..]);
            parts.push(part)?;
            taken = more;
        }
    }
    Ok(parts)
}

fn is_wrong(part: TargetPart, groups: u32) -> bool
    ensures { result ≡ spec.is_wrong groups part }
{
    match part {
        TargetPart::Char(_) => false,
        TargetPart::Group(number) => number == 0 || number > groups,
    }
}

// The first part that names none of so many placeholders.
fn wrong_part(parts: &[TargetPart], groups: u32) -> Option<TargetPart>
    ensures { result ≡ spec.wrong_part groups parts.now }
{
    'parts: for part in parts {
        if is_wrong(*part, groups) {
            return Some(*part);
        }
    }
    None
}

/// Reads a target. `{n}`, where n has 1 to 3 digits, is the placeholder of that number; the first one that isn't one of the pattern's `groups`
/// placeholders, counted from 1, is refused.
pub fn read_target(alloc: Global, text: &str, groups: u32) -> Result<Target, TargetFault>
    ensures read { IfOk result (λ t. t ≡ spec.parts_of text.now) }
    ensures good { OnOk result (spec.wrong_part groups (spec.parts_of text.now) ≡ None) }
    ensures wrong { (n : ℕ) → IfErr result (λ fault. fault ≡ NoPlaceholder n → spec.wrong_part groups (spec.parts_of text.now) ≡ Some (Group n)) }
{
    let decoded = decode(alloc, text)?;
    let parts = parts_of(alloc, &decoded)?;
    match wrong_part(&parts, groups) {
        Some(TargetPart::Group(number)) => Err(TargetFault::NoPlaceholder(number)),
        Some(TargetPart::Char(_)) => unreachable!(),
        None => Ok(Target { parts }),
    }
}
