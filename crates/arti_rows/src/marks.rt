// The characters of a property text, by what they stand for.
ghost use Rattle.std.specs.Prelude.{◌≡◌, ◌<◌, ◌==◌, [], ◌∷◌, true, false, length, MatchOption, IfSome, IfOk, string_bytes};
ghost use Rattle.std.specs.Str.{chars};
ghost use Rattle.std.specs.List.{list_any, slice_split, before_first, after_first};
ghost use Rattle.arti_rows.specs.PropTexts.{escapable, marks_of, ends, text_of};

use crate::mark::Mark;
use std::alloc::{AllocError, Global};

// The first character, and what follows it.
fn first(text: &str) -> Option<(char, &str)>
    ensures { MatchOption result (chars text.now ≡ []) (λ p. chars text.now ≡ p.0 ∷ chars p.1.now) }
{
    let mut rest = text.chars();
    let c = rest.next()?;
    Some((c, rest.as_str()))
}

fn is_escapable(c: char) -> bool
    ensures { result ≡ list_any (λ e. e == c) escapable }
{
    match c {
        ',' | ';' | '=' | '|' | '\\' => true,
        _ => false,
    }
}

// What the first character or two stand for, and what follows them.
fn first_mark(text: &str) -> Option<(Mark, &str)>
    ensures mark { MatchOption result (marks_of (chars text.now) ≡ []) (λ p. marks_of (chars text.now) ≡ p.0 ∷ marks_of (chars p.1.now)) }
    ensures less { IfSome result (λ p. length (chars p.1.now) < length (chars text.now)) }
{
    let (c, after) = first(text)?;
    if c == '\\' {
        if let Some((d, behind)) = first(after) {
            if is_escapable(d) {
                return Some((
                    Mark {
                        char: d,
                        escaped: true,
                    },
                    behind,
                ));
            }
        }
    }
    Some((
        Mark {
            char: c,
            escaped: false,
        },
        after,
    ))
}

/// What the characters of a text stand for.
pub(crate) fn marks(alloc: Global, mut text: &str) -> Result<Vec<Mark>, AllocError>
    ensures { IfOk result (λ marks. marks.items ≡ marks_of (chars text.now)) }
{
    let mut marks = Vec::new(alloc);
    'marks: loop {
        match first_mark(text) {
            None => return Ok(marks),
            Some((mark, rest)) => {
                marks.push(mark)?;
                text = rest;
            }
        }
    }
}

fn ends(mark: Mark, c: char) -> bool
    ensures { result ≡ ends c mark }
{
    mark.char == c && !mark.escaped
}

/// What stands before the first such character, and what stands behind it.
pub(crate) fn cut(marks: &[Mark], c: char) -> Option<(&[Mark], &[Mark])>
    ensures any { MatchOption result (list_any (ends c) marks.now ≡ false) (λ _. list_any (ends c) marks.now ≡ true) }
    ensures parts { IfSome result (λ p. (p.0.now ≡ before_first (ends c) marks.now) × (p.1.now ≡ after_first (ends c) marks.now)) }
    ensures split { MatchOption result (slice_split (ends c) marks.now ≡ marks.now ∷ []) (λ p. slice_split (ends c) marks.now ≡ p.0.now ∷ slice_split (ends c) p.1.now) }
    ensures less { IfSome result (λ p. length p.1.now < length marks.now) }
{
    for (i, mark) in marks.iter().enumerate() {
        if ends(*mark, c) {
            return Some((&marks[..i], &marks[i + 1..]));
        }
    }
    None
}

/// The text of such characters.
pub(crate) fn text(alloc: Global, marks: &[Mark]) -> Result<String, AllocError>
    ensures { IfOk result (λ t. string_bytes t ≡ text_of marks.now) }
{
    let mut text = String::new(alloc);
    for mark in marks {
        text.push(mark.char)?;
    }
    Ok(text)
}
