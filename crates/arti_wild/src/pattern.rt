// Patterns with placeholders, as they are read.
ghost use Rattle.std.specs.Prelude.{◌≡◌, ◌≤◌, [], ◌∷◌, ◌==◌, ◌&&◌, ◌++◌, ℕ, List, true, false, cond, length, OnOk, OnErr, MatchOption, IfSome, IfOk, IfErr, Some, None, option_map};
ghost use Rattle.std.specs.Str.{chars};
ghost use Rattle.arti_wild.specs.Parts.{parts_of, part_of, is_parenthesis, with_last_slash, pattern_of};
ghost use Rattle.arti_wild.specs.Parts as spec;
ghost use Rattle.arti_wild.specs.declared.pattern.PatternFault.TheVariants.{BadPattern};

use crate::chars::first;
use crate::part::Part;
use std::alloc::{AllocError, Global};
use std::marker::Model;
use thiserror::Error;

/// A pattern with placeholders, which contracts see as the list of its parts.
#[derive(Drop)]
pub struct Pattern {
    parts: Vec<Part>,
}

impl Model for Pattern {
    ghost use Rattle.std.specs.Prelude.{List};
    ghost use Rattle.arti_wild.specs.declared.part.Part.{Part};

    ghost Value = { List Part };

    ghost view = { λ p. p.parts.items };
}

impl Pattern {
    /// Its parts, from the left.
    pub fn parts(&self) -> &[Part]
        ensures { result.now ≡ self.now }
    {
        self.parts.as_slice()
    }
}

/// Why a pattern is not read.
#[derive(Clone, Copy, Debug, Error)]
pub enum PatternFault {
    #[error("a parenthesis is missing or stands inside another, or a slash is missing")]
    BadPattern,
    #[error("out of memory")]
    Memory,
}

impl From<AllocError> for PatternFault {
    ghost use Rattle.std.specs.Prelude.{◌≡◌};
    ghost use Rattle.arti_wild.specs.declared.pattern.PatternFault.TheVariants.{Memory};

    ghost from_gives = { λ _ fault. fault ≡ Memory };

    fn from(_: AllocError) -> PatternFault {
        PatternFault::Memory
    }
}

// What a character outside or inside a placeholder stands for, and whether what follows is inside.
fn part(inside: bool, c: char) -> Option<(Part, bool)>
    ensures { result ≡ part_of inside c }
{
    match c {
        '(' if inside => None,
        '(' => Some((Part::Open, true)),
        ')' if inside => Some((Part::Close, false)),
        ')' => None,
        '*' => Some((Part::Star, inside)),
        '?' => Some((Part::Any, inside)),
        c => Some((Part::Char(c), inside)),
    }
}

// The parenthesis after a backslash, and what follows it.
fn escaped(c: char, rest: &str) -> Option<(char, &str)>
    ensures { MatchOption result ((d : ℕ) (more : List ℕ) → chars rest.now ≡ d ∷ more → ((c == 92) && is_parenthesis d) ≡ false) (λ r. (chars rest.now ≡ r.0 ∷ chars r.1.now) × (((c == 92) && is_parenthesis r.0) ≡ true)) }
{
    match first(rest) {
        Some((d, more)) if c == '\\' && (d == '(' || d == ')') => Some((d, more)),
        _ => None,
    }
}

// The first part of what begins with the character, whether what follows it is inside a placeholder, and that.
fn next_part(inside: bool, c: char, rest: &str) -> Option<(Part, bool, &str)>
    ensures part { MatchOption result (parts_of inside (c ∷ chars rest.now) ≡ None) (λ r. parts_of inside (c ∷ chars rest.now) ≡ option_map (λ more. r.0 ∷ more) (parts_of r.1 (chars r.2.now))) }
    ensures less { IfSome result (λ r. length (chars r.2.now) ≤ length (chars rest.now)) }
{
    match escaped(c, rest) {
        Some((d, more)) => Some((Part::Char(d), inside, more)),
        None => match part(inside, c) {
            None => None,
            Some((part, within)) => Some((part, within, rest)),
        },
    }
}

fn push(parts: &mut Vec<Part>, part: Part) -> Result<(), AllocError>
    ensures { OnOk result (parts.new.items ≡ parts.old.items ++ part ∷ []) }
{
    parts.push(part)?;
    Ok(())
}

fn parse(alloc: Global, mut text: &str) -> Result<Vec<Part>, PatternFault>
    ensures ok { IfOk result (λ parts. parts_of false (chars text.now) ≡ Some parts.items) }
    ensures bad { IfErr result (λ fault. fault ≡ BadPattern → parts_of false (chars text.now) ≡ None) }
{
    let mut parts = Vec::new(alloc);
    let mut inside = false;
    'parts: loop {
        match first(text) {
            None => {
                if inside {
                    return Err(PatternFault::BadPattern);
                }
                return Ok(parts);
            }
            Some((c, rest)) => match next_part(inside, c, rest) {
                None => return Err(PatternFault::BadPattern),
                Some((part, within, more)) => {
                    push(&mut parts, part)?;
                    inside = within;
                    text = more;
                }
            },
        }
    }
}

fn is_slash(part: Part) -> bool
    ensures { result ≡ spec.is_slash part }
{
    match part {
        Part::Char(c) => c == '/',
        _ => false,
    }
}

// Marks the last slash, if there is one.
fn mark_last_slash(parts: &mut [Part]) -> bool
    ensures { with_last_slash parts.old ≡ cond result (Some parts.new) None }
{
    let mut i = parts.len();
    'back: while i > 0 {
        i -= 1;
        if is_slash(parts[i]) {
            parts[i] = Part::LastSlash;
            return true;
        }
    }
    false
}

fn marked_for(whole_path: bool, mut parts: Vec<Part>) -> Result<Vec<Part>, PatternFault>
    ensures ok { IfOk result (λ marked. spec.marked_for whole_path parts.items ≡ Some marked.items) }
    ensures bad { IfErr result (λ fault. fault ≡ BadPattern → spec.marked_for whole_path parts.items ≡ None) }
{
    if whole_path {
        return Ok(parts);
    }
    if mark_last_slash(parts.as_mut_slice()) {
        Ok(parts)
    } else {
        Err(PatternFault::BadPattern)
    }
}

/// Reads a pattern: `(` and `)` mark a placeholder, `\(` and `\)` are those characters, and the rest is as for `wild`. A
/// pattern that isn't read for whole paths needs a slash; its last one stands for the text's last slash.
pub fn read_pattern(alloc: Global, text: &str, whole_path: bool) -> Result<Pattern, PatternFault>
    ensures ok { IfOk result (λ pattern. pattern_of whole_path text.now ≡ Some pattern) }
    ensures bad { IfErr result (λ fault. fault ≡ BadPattern → pattern_of whole_path text.now ≡ None) }
{
    match parse(alloc, text) {
        Err(fault) => Err(fault),
        Ok(parts) => match marked_for(whole_path, parts) {
            Err(fault) => Err(fault),
            Ok(parts) => Ok(Pattern { parts }),
        },
    }
}
