//! Patterns on outside examples and at their edges.
use arti_wild::{PatternFault, Span, ant, captures, read_pattern, wild};
use std::alloc::{AllocError, Global};
use std::test::Fail;

#[test]
fn wild_patterns(rt: HostRuntime) {
    for (pattern, text, expected) in [
        ("a*c?", "abcd", true),
        ("", "", true),
        ("", "a", false),
        ("*", "", true),
        ("?", "", false),
        ("?", "é", true),
        ("??", "é", false),
        ("*é?", "xéy", true),
        ("a*b*c", "aXbYbZc", true),
        ("a*b*c", "aXcYb", false),
        ("*.jar", "x.jar", true),
        ("*.jar", "x.jar.sha1", false),
        ("a?c", "abc", true),
        ("a?c", "ac", false),
        ("**", "x/y", true),
        ("*a*a*", "aa", true),
        ("*a*a*", "a", false),
        ("a*", "b", false),
        ("日*語?", "日本語字", true),
        ("a*a", "a", false),
        ("\\(a", "\\(a", true),
        ("x*yz", "xyyz", true),
        (
            "a*a*a*a*a*a*a*a*a*a*a*a*a*a*b",
            "aaaaaaaaaaaaaaaaaaaaaaaaaaaaaaaaaaaaaaaaaaaaaaaaaaaaaaaaaaaaaaaaaa",
            false,
        ),
    ] {
        assert_eq!(rt; wild(pattern, text), expected, "{pattern} {text}");
    }
}

#[test]
fn ant_patterns(rt: HostRuntime) {
    for (patterns, path, expected) in [
        ("**/*.jar", "x.jar", true),
        ("a/*/c", "a/b/b/c", false),
        ("**", "a/b", true),
        ("**", "", true),
        ("a/**/c", "a/c", true),
        ("a/**/c", "a/b/d/c", true),
        ("a/**/c", "a/b/d", false),
        ("a/", "a/b/c", true),
        ("a/", "a", true),
        ("/", "a", false),
        ("/", "/a", true),
        (" x , **/y ", "y", true),
        (" x , **/y ", "z/y", true),
        ("", "", false),
        (",", "", false),
        ("a,,b", "b", true),
        ("*", "a/b", false),
        ("?/b", "é/b", true),
        ("**/a/**/b", "a/a/c/b", true),
        ("**/a/**/b", "c/b/a", false),
        ("a**", "ab", true),
        ("a/**b", "a/c/b", false),
        ("org/acme/**, com/*", "com/x", true),
    ] {
        assert_eq!(rt; ant(patterns, path), expected, "{patterns} {path}");
    }
}

fn shown(alloc: Global, found: Option<Vec<Span>>) -> Result<String, AllocError> {
    let Some(spans) = found else {
        return String::from_str(alloc, "none");
    };
    let mut shown = String::new(alloc);
    for span in &spans {
        shown.push_str(&format!(in alloc; "{}-{} ", span.start, span.end)?)?;
    }
    Ok(shown)
}

#[test]
fn placeholders(rt: HostRuntime) -> Result<(), Fail> {
    let alloc = rt.alloc();
    for (pattern, whole_path, text, expected) in [
        ("(*)-(*)", true, "a-b-c", "0-3 4-5 "),
        ("(*)", true, "", "0-0 "),
        ("(a*)b(*)", true, "aXbYb", "0-4 5-5 "),
        ("(*)(*)", true, "ab", "0-2 2-2 "),
        ("(?)*", true, "éxy", "0-2 "),
        ("\\(*\\)(*)", true, "(x)y", "3-4 "),
        ("\\\\(*\\)", true, "\\(a)", ""),
        ("*/(*)", false, "r/p/f.jar", "4-9 "),
        ("*/(*).jar", false, "r/p/f.jar", "4-5 "),
        ("r/*", false, "r/p/f.jar", "none"),
        ("r/*", true, "r/p/f.jar", ""),
        ("(*)/*-(*).jar", false, "g/a/b-1-2.jar", "0-3 8-9 "),
        ("()x()", true, "x", "0-0 1-1 "),
        ("(日*)語", true, "日本語", "0-6 "),
        ("a", true, "b", "none"),
        ("*a*a*", true, "ba", "none"),
    ] {
        let pattern = match read_pattern(alloc, pattern, whole_path) {
            Ok(pattern) => pattern,
            Err(_) => panic!(rt; "{pattern} is a pattern"),
        };
        if text.len() < 100 {
            let found = shown(alloc, captures(alloc, &pattern, text)?)?;
            assert_eq!(rt; found.as_str(), expected, "{text}");
        }
    }
    Ok(())
}

#[test]
fn refused_patterns(rt: HostRuntime) {
    for (pattern, whole_path, expected) in [
        ("(", true, false),
        (")", true, false),
        ("(a(b))", true, false),
        ("(a)(b", true, false),
        ("a", false, false),
        ("a/", false, true),
        ("\\(", true, true),
        ("\\\\)", true, true),
        ("\\", true, true),
        ("(/)", false, true),
    ] {
        match read_pattern(rt.alloc(), pattern, whole_path) {
            Ok(_) => assert!(rt; expected, "{pattern} is read"),
            Err(PatternFault::BadPattern) => assert!(rt; !expected, "{pattern} is refused"),
            Err(fault) => panic!(rt; "{fault} at {pattern}"),
        }
    }
}
