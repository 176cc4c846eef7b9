//! Targets of file specs, on examples of JFrog's File Spec manual and at their edges.
ghost use Rattle.std.specs.Prelude.{◌≡◌, length, IfOk, None};
ghost use Rattle.arti_targets.specs.Targets.{wrong_part};

use arti_rows::{ItemKey, KeyFault, Text};
use arti_targets::{Target, TargetFault, read_target, target_of};
use arti_wild::{PatternFault, Span, captures, read_pattern};
use std::alloc::{AllocError, Global};
use std::test::Fail;

#[derive(Debug, Drop)]
enum Stop {
    Key(KeyFault),
    Pattern(PatternFault),
    Target(TargetFault),
    Memory,
    NoMatch,
}

impl From<AllocError> for Stop {
    ghost use Rattle.std.specs.Prelude.{◌≡◌};
    ghost use Rattle.arti_language_tests.specs.declared.targets.Stop.TheVariants.{Memory};

    ghost from_gives = { λ _ e. e ≡ Memory };

    fn from(_: AllocError) -> Stop {
        Stop::Memory
    }
}

// A target whose placeholders are numbers of these spans.
fn read(alloc: Global, target: &str, spans: &[Span]) -> Result<Target, Stop>
    ensures { IfOk result (λ t. wrong_part (length spans.now) t ≡ None) }
{
    if spans.len() > 1000 {
        return Err(Stop::NoMatch);
    }
    match read_target(alloc, target, spans.len() as u32) {
        Ok(target) => Ok(target),
        Err(fault) => Err(Stop::Target(fault)),
    }
}

// The target of a file in `libs` by a pattern; an empty target is none.
fn named(
    alloc: Global,
    pattern: &str,
    target: &str,
    flat: bool,
    whole: &str,
) -> Result<Text, Stop> {
    let pattern = read_pattern(alloc, pattern, true).map_err(|fault| Stop::Pattern(fault))?;
    let key = ItemKey::new(alloc, "libs", whole).map_err(|fault| Stop::Key(fault))?;
    let text = format!(in alloc; "libs/{whole}")?;
    if text.len() > 4096 {
        return Err(Stop::NoMatch);
    }
    let Some(spans) = captures(alloc, &pattern, &text)? else {
        return Err(Stop::NoMatch);
    };
    if target.is_empty() {
        return Ok(target_of(alloc, None, flat, &key, &text, &spans)?);
    }
    let target = read(alloc, target, &spans)?;
    Ok(target_of(alloc, Some(&target), flat, &key, &text, &spans)?)
}

#[test]
fn targets(rt: HostRuntime) -> Result<(), Fail> {
    let alloc = rt.alloc();
    for (pattern, target, flat, whole, expected) in [
        (
            "libs/(*)/(*)-1.jar",
            "out/{2}/{1}/",
            false,
            "a/b/x-1-1.jar",
            "out/x-1/a/b/x-1-1.jar",
        ),
        ("libs/*.jar", "", false, "a/b/x-1-1.jar", "a/b/x-1-1.jar"),
        ("libs/*.jar", "", true, "a/b/x-1-1.jar", "x-1-1.jar"),
        ("libs/r.jar", "", false, "r.jar", "r.jar"),
        ("libs/r.jar", "", true, "r.jar", "r.jar"),
        ("*", "froggy/", false, "a/b/c.tgz", "froggy/a/b/c.tgz"),
        ("*", "froggy/", true, "a/b/c.tgz", "froggy/c.tgz"),
        ("*", "froggy/", false, "c.tgz", "froggy/c.tgz"),
        ("*", "froggy", false, "a/b/c.tgz", "froggy"),
        ("libs/(*).(*)", "{2}/", false, "a/b/c.tgz", "tgz/c.tgz"),
        (
            "libs/(*).(*)",
            "{1}.{2}.old",
            false,
            "a/b/c.tgz",
            "a/b/c.tgz.old",
        ),
        ("libs/(*)()", "{2}", false, "a/b", "b"),
        ("libs/(*)()", "{2}", true, "a/b", "b"),
        ("libs/a(*)", "{1}", true, "a/b/c", "/b/c"),
        ("libs/(*)", "{01}{001}{1}", true, "ab", "ababab"),
        ("libs/(*)", "{1234}x", true, "ab", "{1234}x"),
        ("libs/(*)", "{}{{1}}{1", true, "ab", "{}{ab}{1"),
        ("libs/(*)", "{ 1}{-1}{1 }{a}", true, "ab", "{ 1}{-1}{1 }{a}"),
        ("libs/(*)", "{1}", true, "{1}{2}", "{1}{2}"),
        ("libs/(?)(*)", "{2}{1}ü", true, "éa日", "a日éü"),
        ("libs/(*)x(*)", "{2}/{1}/", false, "d/axb", "b/d/a/axb"),
    ] {
        match named(alloc, pattern, target, flat, whole) {
            Ok(text) => assert_eq!(rt; text.as_str(), expected, "{pattern} {target} {whole}"),
            Err(stop) => assert!(rt; false, "{pattern} {target} {whole}: {stop:?}"),
        }
    }
    Ok(())
}

#[test]
fn placeholders_that_are_not_there(rt: HostRuntime) {
    let alloc = rt.alloc();
    for (target, groups, wrong) in [
        ("{3}", 2, 3),
        ("{0}", 2, 0),
        ("{1}{000}{9}", 2, 0),
        ("{2}{1}{012}", 2, 12),
        ("a{1}", 0, 1),
        ("{999}", 998, 999),
    ] {
        match read_target(alloc, target, groups) {
            Err(fault) => assert_eq!(rt; fault, TargetFault::NoPlaceholder(wrong), "{target}"),
            Ok(_) => assert!(rt; false, "{target} is read"),
        }
    }
}
