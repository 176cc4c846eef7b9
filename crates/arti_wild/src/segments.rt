// Ant patterns. Their segments are matched as the characters of a wild pattern are, with `**` in place of the star, so the
// time is at most quadratic too: no two segments are compared twice.
ghost use Rattle.std.specs.Prelude.{◌≡◌, ◌≤◌, ◌<◌, [], ◌∷◌, false, length, MatchOption, IfSome, List, ℕ};
ghost use Rattle.arti_wild.specs.Fits.{any_rest};
ghost use Rattle.arti_wild.specs.Run.{run_of, IsStuck, landed};
ghost use Rattle.arti_wild.specs.Ant.{is_double_star, takes_segment, segments_fit, pattern_fits, trimmed, ant_path, segments_left, pattern_left};
ghost use Rattle.arti_wild.specs.Ant as spec;

use crate::matching::wild;

// The first segment of what is left of a path, and what is left then.
fn next_segment(more: bool, text: &str) -> Option<(&str, bool, &str)>
    ensures { MatchOption result (segments_left more text.now ≡ []) (λ r. segments_left more text.now ≡ r.0.now ∷ segments_left r.1 r.2.now) }
{
    if !more {
        return None;
    }
    match text.split_once('/') {
        Some((segment, rest)) => Some((segment, true, rest)),
        None => Some((text, false, text)),
    }
}

// An empty segment at the end is `**`.
fn end_of(more: bool, segment: &str) -> &str
    ensures { result.now ≡ spec.end_of more segment.now }
{
    if more {
        return segment;
    }
    if segment.is_empty() { "**" } else { segment }
}

// The same of a pattern, whose last segment is `**` where a slash ends it.
fn next_pattern(more: bool, text: &str) -> Option<(&str, bool, &str)>
    ensures { MatchOption result (pattern_left more text.now ≡ []) (λ r. pattern_left more text.now ≡ r.0.now ∷ pattern_left r.1 r.2.now) }
{
    match next_segment(more, text) {
        None => None,
        Some((segment, more, rest)) => Some((end_of(more, segment), more, rest)),
    }
}

fn takes(pattern: &str, segment: &str) -> bool
    ensures { result ≡ takes_segment pattern.now segment.now }
{
    pattern != "**" && wild(pattern, segment)
}

type Left<'p, 't> = (bool, &'p str, bool, &'t str);

// What is left of both, where the pattern's first segment takes the path's.
fn step<'p, 't>(
    more_pattern: bool,
    pattern: &'p str,
    more_path: bool,
    path: &'t str,
) -> Option<Left<'p, 't>>
    ensures run { MatchOption result (run_of takes_segment (pattern_left more_pattern pattern.now) (segments_left more_path path.now) ≡ (pattern_left more_pattern pattern.now, segments_left more_path path.now)) (λ r. run_of takes_segment (pattern_left more_pattern pattern.now) (segments_left more_path path.now) ≡ run_of takes_segment (pattern_left r.0 r.1.now) (segments_left r.2 r.3.now)) }
    ensures less { IfSome result (λ r. length (segments_left r.2 r.3.now) < length (segments_left more_path path.now)) }
{
    match next_pattern(more_pattern, pattern) {
        None => None,
        Some((first, later_pattern, pattern_rest)) => match next_segment(more_path, path) {
            None => None,
            Some((segment, later_path, path_rest)) => {
                if takes(first, segment) {
                    Some((later_pattern, pattern_rest, later_path, path_rest))
                } else {
                    None
                }
            }
        },
    }
}

// What is left of both where the pattern's segments go no further.
fn run<'p, 't>(
    mut more_pattern: bool,
    mut pattern: &'p str,
    mut more_path: bool,
    mut path: &'t str,
) -> Left<'p, 't>
    ensures { run_of takes_segment (pattern_left more_pattern pattern.now) (segments_left more_path path.now) ≡ (pattern_left result.0 result.1.now, segments_left result.2 result.3.now) }
{
    'steps: while let Some(next) = step(more_pattern, pattern, more_path, path) {
        (more_pattern, pattern, more_path, path) = next;
    }
    (more_pattern, pattern, more_path, path)
}

fn has_landed(more_pattern: bool, pattern: &str, more_path: bool, path: &str) -> bool
    ensures { result ≡ landed is_double_star (pattern_left more_pattern pattern.now) (segments_left more_path path.now) }
{
    match next_pattern(more_pattern, pattern) {
        Some((first, _, _)) => first == "**",
        None => next_segment(more_path, path).is_none(),
    }
}

// The first rest of the path from which the pattern goes on to `**`, or to the end of both.
fn find<'p, 't>(
    more_pattern: bool,
    pattern: &'p str,
    mut more_path: bool,
    mut path: &'t str,
) -> Option<Left<'p, 't>>
    ensures found { MatchOption result (any_rest (segments_fit (pattern_left more_pattern pattern.now)) (segments_left more_path path.now) ≡ false) (λ r. any_rest (segments_fit (pattern_left more_pattern pattern.now)) (segments_left more_path path.now) ≡ segments_fit (pattern_left r.0 r.1.now) (segments_left r.2 r.3.now)) }
    ensures stuck { IfSome result (λ r. IsStuck takes_segment (pattern_left r.0 r.1.now) (segments_left r.2 r.3.now)) }
    ensures no_longer { IfSome result (λ r. length (pattern_left r.0 r.1.now) ≤ length (pattern_left more_pattern pattern.now)) }
{
    'rests: loop {
        let left = run(more_pattern, pattern, more_path, path);
        if has_landed(left.0, left.1, left.2, left.3) {
            return Some(left);
        }
        match next_segment(more_path, path) {
            None => return None,
            Some((_, later_path, rest)) => (more_path, path) = (later_path, rest),
        }
    }
}

// Whether what is left fits, where the pattern's segments go no further.
fn after_run(mut more_pattern: bool, mut pattern: &str, mut more_path: bool, mut path: &str) -> bool
    requires { IsStuck takes_segment (pattern_left more_pattern pattern.now) (segments_left more_path path.now) }
    ensures { result ≡ segments_fit (pattern_left more_pattern pattern.now) (segments_left more_path path.now) }
{
    'stars: loop {
        match next_pattern(more_pattern, pattern) {
            None => return next_segment(more_path, path).is_none(),
            Some((first, later_pattern, after_star)) => {
                if first != "**" {
                    return false;
                }
                match find(later_pattern, after_star, more_path, path) {
                    None => return false,
                    Some(left) => (more_pattern, pattern, more_path, path) = left,
                }
            }
        }
    }
}

fn fits(pattern: &str, path: &str) -> bool
    ensures { result ≡ pattern_fits pattern.now path.now }
{
    if pattern.is_empty() {
        return false;
    }
    let (more_pattern, pattern, more_path, path) = run(true, pattern, true, path);
    after_run(more_pattern, pattern, more_path, path)
}

fn skip_spaces(mut text: &str) -> &str
    ensures { result.now ≡ spec.skip_spaces text.now }
{
    'spaces: loop {
        match text.strip_prefix(' ') {
            None => return text,
            Some(rest) => text = rest,
        }
    }
}

fn skip_last_spaces(mut text: &str) -> &str
    ensures { result.now ≡ spec.skip_last_spaces text.now }
{
    'spaces: loop {
        match text.strip_suffix(' ') {
            None => return text,
            Some(front) => text = front,
        }
    }
}

fn one_fits(pattern: &str, path: &str) -> bool
    ensures { result ≡ pattern_fits (trimmed pattern.now) path.now }
{
    fits(skip_last_spaces(skip_spaces(pattern)), path)
}

/// Whether one of the patterns, which commas separate, stands for the path; spaces round a pattern are dropped. A segment
/// `**` stands for any number of segments, none too; in another one `*` is any text and `?` one character. A pattern that
/// ends in `/` has `**` appended, and an empty pattern stands for nothing.
pub fn ant(mut patterns: &str, path: &str) -> bool
    ensures { result ≡ ant_path patterns.now path.now }
{
    'patterns: loop {
        match patterns.split_once(',') {
            None => return one_fits(patterns, path),
            Some((pattern, more)) => {
                if one_fits(pattern, path) {
                    return true;
                }
                patterns = more;
            }
        }
    }
}
