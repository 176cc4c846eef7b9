// Wild patterns. The characters up to the first star are taken from the front. Then what stands between two stars is put
// where it first fits, since the star that follows can take whatever a later place would have left over. No place of the
// text is tried twice for one of these parts, so the time is at most quadratic.
ghost use Rattle.std.specs.Prelude.{◌≡◌, ◌≤◌, ◌<◌, ◌&&◌, not, false, length, MatchOption, IfSome};
ghost use Rattle.std.specs.Str.{chars};
ghost use Rattle.arti_wild.specs.Fits.{any_rest};
ghost use Rattle.arti_wild.specs.Wild.{is_star, stands_for, takes_char, wild_chars, wild_text};
ghost use Rattle.arti_wild.specs.Run.{run_of, IsStuck, landed};

use crate::chars::first;

fn takes(p: char, c: char) -> bool
    ensures { result ≡ takes_char p c }
{
    p != '*' && (p == '?' || p == c)
}

// What follows in both, where the pattern's first character takes the text's.
fn step<'p, 't>(pattern: &'p str, text: &'t str) -> Option<(&'p str, &'t str)>
    ensures run { MatchOption result (run_of takes_char (chars pattern.now) (chars text.now) ≡ (chars pattern.now, chars text.now)) (λ r. run_of takes_char (chars pattern.now) (chars text.now) ≡ run_of takes_char (chars r.0.now) (chars r.1.now)) }
    ensures less { IfSome result (λ r. length (chars r.1.now) < length (chars text.now)) }
{
    match first(pattern) {
        None => None,
        Some((p, more_pattern)) => match first(text) {
            None => None,
            Some((c, more_text)) => {
                if takes(p, c) {
                    Some((more_pattern, more_text))
                } else {
                    None
                }
            }
        },
    }
}

// What is left of both where the pattern's characters go no further.
fn run<'p, 't>(mut pattern: &'p str, mut text: &'t str) -> (&'p str, &'t str)
    ensures { run_of takes_char (chars pattern.now) (chars text.now) ≡ (chars result.0.now, chars result.1.now) }
{
    while let Some((more_pattern, more_text)) = step(pattern, text) {
        pattern = more_pattern;
        text = more_text;
    }
    (pattern, text)
}

fn has_landed(pattern: &str, text: &str) -> bool
    ensures { result ≡ landed is_star (chars pattern.now) (chars text.now) }
{
    match first(pattern) {
        Some((p, _)) => p == '*',
        None => first(text).is_none(),
    }
}

// The first rest of the text from which the pattern goes on to a star, or to the end of both.
fn find<'p, 't>(pattern: &'p str, mut text: &'t str) -> Option<(&'p str, &'t str)>
    ensures found { MatchOption result (any_rest (wild_chars (chars pattern.now)) (chars text.now) ≡ false) (λ r. any_rest (wild_chars (chars pattern.now)) (chars text.now) ≡ wild_chars (chars r.0.now) (chars r.1.now)) }
    ensures stuck { IfSome result (λ r. IsStuck takes_char (chars r.0.now) (chars r.1.now)) }
    ensures no_longer { IfSome result (λ r. length (chars r.0.now) ≤ length (chars pattern.now)) }
{
    loop {
        let (more_pattern, more_text) = run(pattern, text);
        if has_landed(more_pattern, more_text) {
            return Some((more_pattern, more_text));
        }
        match first(text) {
            None => return None,
            Some((_, rest)) => text = rest,
        }
    }
}

/// Whether the pattern stands for the whole text: `*` is any text, `?` one character (a Unicode scalar value), any other
/// character itself.
pub fn wild(pattern: &str, text: &str) -> bool
    ensures { result ≡ wild_text pattern.now text.now }
{
    let (pattern, text) = run(pattern, text);
    after_run(pattern, text)
}

// The same where the pattern's characters go no further: it has ended, or a star comes next, or nothing fits.
fn after_run(mut pattern: &str, mut text: &str) -> bool
    requires { IsStuck takes_char (chars pattern.now) (chars text.now) }
    ensures { result ≡ wild_text pattern.now text.now }
{
    'stars: loop {
        match first(pattern) {
            None => return first(text).is_none(),
            Some((p, after_star)) => {
                if p != '*' {
                    return false;
                }
                match find(after_star, text) {
                    None => return false,
                    Some((more_pattern, more_text)) => (pattern, text) = (more_pattern, more_text),
                }
            }
        }
    }
}
