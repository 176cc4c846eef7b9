// The parts of a target. Its marks are looked for before any escape is read, so an escaped mark is an ordinary character.
ghost use Rattle.std.specs.Prelude.{◌≡◌, ◌≢◌, ◌<◌, ◌==◌, Ok, Err, IfOk, IfErr, MatchBool, map, length, drop};
ghost use Rattle.std.specs.List.{slice_split, before_first, after_first};
ghost use Rattle.arti_model.specs.Targets.{path_part, text_part, query_of, part_read, segments_read, path_read, param_read, params_read, without_context, target_read};
ghost use Rattle.arti_rows.specs.declared.refusal.Refusal.TheVariants as refusal;

use arti_rows::{Refusal, Seq, Text};
use percent_encoding::{DecodeError, percent_decode};
use std::alloc::{AllocError, Global};
use std::marker::Model;

/// A parameter of the query: its name as it was sent, and the value behind its first `=`, if it has one.
pub type Param = (Text, Option<Text>);

/// The parts of a target, without escapes.
#[derive(Drop)]
pub struct Target {
    /// Of its path, without a first one `artifactory`.
    pub segments: Seq<Text>,
    /// What stands behind the first `;` of its path.
    pub text: Text,
    pub params: Seq<Param>,
}

impl Model for Target {
    ghost use Rattle.arti_model.specs.Targets.{Target};

    ghost Value = { Target };

    ghost view = { λ t. record { segments = t.segments; text = t.text; params = t.params } };
}

/// What stands before a mark, and what stands behind it; without the mark all stands before it.
pub fn cut(text: &str, mark: char) -> (&str, &str)
    requires { mark < 128 }
    ensures before { result.0.now ≡ before_first (λ b. b == mark) text.now }
    ensures after { result.1.now ≡ after_first (λ b. b == mark) text.now }
{
    match text.split_once(mark) {
        Some(parts) => parts,
        None => (text, ""),
    }
}

// The path of a target, what stands behind the path's `;`, and the query.
fn cuts(target: &str) -> (&str, &str, &str)
    ensures path { result.0.now ≡ path_part target.now }
    ensures text { result.1.now ≡ text_part target.now }
    ensures query { result.2.now ≡ query_of target.now }
{
    let (place, query) = cut(target, '?');
    let (path, text) = cut(place, ';');
    (path, text, query)
}

/// The parts of a text between the marks.
pub fn parts(alloc: Global, text: &str, mark: char) -> Result<Vec<&str>, AllocError>
    requires { mark < 128 }
    ensures { IfOk result (λ v. map (λ x. x.now) v.items ≡ slice_split (λ b. b == mark) text.now) }
{
    text.split(mark).collect(alloc)
}

// A part without its escapes.
fn decoded(alloc: Global, part: &str) -> Result<Text, Refusal>
    ensures ok { IfOk result (λ t. part_read part.now ≡ Ok t) }
    ensures refused { IfErr result (λ why. why ≢ refusal.Memory → part_read part.now ≡ Err why) }
{
    match percent_decode(part.as_bytes()).decode_utf8(alloc) {
        Ok(text) => Ok(Text::from_str(alloc, &text)?),
        Err(DecodeError::OutOfMemory) => Err(Refusal::Memory),
        Err(DecodeError::Utf8(_)) => Err(Refusal::BadTarget),
    }
}

// The segments behind a path's first slash.
fn segments(alloc: Global, path: &str) -> Result<Seq<Text>, Refusal>
    ensures ok { IfOk result (λ s. segments_read path.now ≡ Ok s) }
    ensures refused { IfErr result (λ why. why ≢ refusal.Memory → segments_read path.now ≡ Err why) }
{
    let mut segments = Seq::new(alloc);
    let parts = parts(alloc, path, '/')?;
    for part in &parts {
        segments.push(decoded(alloc, part)?)?;
    }
    Ok(segments)
}

// A path's segments behind its leading slash.
fn path(alloc: Global, path: &str) -> Result<Seq<Text>, Refusal>
    ensures ok { IfOk result (λ s. path_read path.now ≡ Ok s) }
    ensures refused { IfErr result (λ why. why ≢ refusal.Memory → path_read path.now ≡ Err why) }
{
    match path.strip_prefix("/") {
        Some(behind) => segments(alloc, behind),
        None => Err(Refusal::BadTarget),
    }
}

// A parameter, cut at its first `=` if it has one.
fn param(alloc: Global, text: &str) -> Result<Param, Refusal>
    ensures ok { IfOk result (λ p. param_read text.now ≡ Ok p) }
    ensures refused { IfErr result (λ why. why ≢ refusal.Memory → param_read text.now ≡ Err why) }
{
    match text.split_once('=') {
        Some((name, value)) => {
            let value = decoded(alloc, value)?;
            Ok((Text::from_str(alloc, name)?, Some(value)))
        }
        None => Ok((Text::from_str(alloc, text)?, None)),
    }
}

// The parameters of a query.
fn params(alloc: Global, query: &str) -> Result<Seq<Param>, Refusal>
    ensures ok { IfOk result (λ s. params_read query.now ≡ Ok s) }
    ensures refused { IfErr result (λ why. why ≢ refusal.Memory → params_read query.now ≡ Err why) }
{
    let mut params = Seq::new(alloc);
    let parts = parts(alloc, query, '&')?;
    for text in &parts {
        params.push(param(alloc, text)?)?;
    }
    Ok(params)
}

// Whether there is a first segment, and it is `artifactory`.
fn begins_with_context(segments: &Seq<Text>) -> bool
    ensures { MatchBool result ((0 < length segments.now) × (without_context segments.now ≡ drop 1 segments.now)) (without_context segments.now ≡ segments.now) }
{
    match segments.as_slice().first() {
        Some(first) => first.as_str() == "artifactory",
        None => false,
    }
}

// A first segment `artifactory` says nothing.
fn without_context(segments: Seq<Text>) -> Seq<Text>
    ensures { result ≡ without_context segments }
{
    if !begins_with_context(&segments) {
        return segments;
    }
    let mut behind = segments.into_vec();
    behind.remove(0);
    Seq::from_vec(behind)
}

impl Target {
    /// The parts of a target.
    pub fn read(alloc: Global, target: &str) -> Result<Target, Refusal>
        ensures ok { IfOk result (λ t. target_read target.now ≡ Ok t) }
        ensures refused { IfErr result (λ why. why ≢ refusal.Memory → target_read target.now ≡ Err why) }
    {
        let (front, text, query) = cuts(target);
        let segments = path(alloc, front)?;
        let text = decoded(alloc, text)?;
        let params = params(alloc, query)?;
        Ok(Target {
            segments: without_context(segments),
            text,
            params,
        })
    }
}
