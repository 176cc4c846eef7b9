// The names in a target: keys of repositories and items, names and numbers of builds. A path's segments are judged as they
// stand without escapes, so a slash that was escaped breaks the rule of characters.
ghost use Rattle.std.specs.Prelude.{◌≡◌, ◌≢◌, ◌<◌, ◌-◌, Ok, Err, IfOk, IfErr, Some, None, true, if◌then◌else◌, length, take, drop, string_bytes};
ghost use Rattle.std.specs.Option.{option_or};
ghost use Rattle.std.specs.List.{join_with_byte, list_any};
ghost use Rattle.arti_rows.specs.Names.{is_repo_key, segment_fault, first_fault, path_fault, key_fault};
ghost use Rattle.arti_rows.specs.Key.{key_of};
ghost use Rattle.arti_model.specs.Asks.{ends_empty, refusal_of, key_by, key_read, item_read, api_item_read, repo_read, build_text, build_read, item_segments};
ghost use Rattle.arti_model.specs.Targets.{is_slash};
ghost use Rattle.arti_rows.specs.declared.refusal.Refusal.TheVariants as refusal;

use crate::routes::{ends_empty, segment};
use crate::target::Target;
use arti_rows::{ItemKey, KeyFault, Refusal, Text, has_control, is_repo_key};
use std::alloc::{AllocError, Global};

// The refusal of a key that has that fault.
fn refusal_of(fault: KeyFault) -> Refusal
    ensures { result ≡ refusal_of fault }
{
    match fault {
        KeyFault::BadName => Refusal::BadName,
        KeyFault::TooLong => Refusal::TooLong(None),
        KeyFault::Memory => Refusal::Memory,
    }
}

/// The key of a repository and of a path and name joined.
pub fn whole_key(alloc: Global, repo: &str, whole: &str) -> Result<ItemKey, Refusal>
    ensures ok { IfOk result (λ k. key_by (key_fault repo.now whole.now) (key_of repo.now whole.now) ≡ Ok k) }
    ensures refused { IfErr result (λ why. why ≢ refusal.Memory → key_by (key_fault repo.now whole.now) (key_of repo.now whole.now) ≡ Err why) }
{
    match ItemKey::new(alloc, repo, whole) {
        Ok(key) => Ok(key),
        Err(fault) => Err(refusal_of(fault)),
    }
}

fn has_slash(segment: &Text) -> bool
    ensures { result ≡ list_any is_slash segment.now }
{
    segment.as_str().as_bytes().iter().any(|b| *b == b'/')
}

fn some_has_slash(segments: &[Text]) -> bool
    ensures { result ≡ list_any (λ s. list_any is_slash s) segments.now }
{
    for segment in segments {
        if has_slash(segment) {
            return true;
        }
    }
    false
}

// What is wrong with a path of an item.
fn path_fault(alloc: Global, repo: &str, path: &str) -> Option<KeyFault>
    ensures { result ≢ Some KeyFault.Memory → result ≡ key_fault repo.now path.now }
{
    ItemKey::new(alloc, repo, path).err()
}

// What is wrong with a segment. One without a slash is judged as a path.
fn segment_fault(alloc: Global, repo: &str, segment: &Text) -> Option<KeyFault>
    requires { is_repo_key repo.now ≡ true }
    ensures { result ≢ Some KeyFault.Memory → result ≡ segment_fault segment.now }
{
    if has_slash(segment) {
        return Some(KeyFault::BadName);
    }
    path_fault(alloc, repo, segment.as_str())
}

// The first fault of the segments from the left.
fn first_fault(alloc: Global, repo: &str, segments: &[Text]) -> Option<KeyFault>
    requires { is_repo_key repo.now ≡ true }
    ensures { result ≢ Some KeyFault.Memory → result ≡ first_fault segments.now }
{
    for segment in segments {
        if let Some(fault) = segment_fault(alloc, repo, segment) {
            return Some(fault);
        }
    }
    None
}

// What is wrong with the segments and can't be told once they are joined, since an escaped slash then looks like another.
fn fault_apart(alloc: Global, repo: &str, segments: &[Text]) -> Option<KeyFault>
    requires { is_repo_key repo.now ≡ true }
    ensures { result ≢ Some KeyFault.Memory → option_or result (path_fault (join_with_byte 47 segments.now)) ≡ option_or (first_fault segments.now) (path_fault (join_with_byte 47 segments.now)) }
{
    if !some_has_slash(segments) {
        return None;
    }
    first_fault(alloc, repo, segments)
}

// The segments with slashes between them.
fn joined(alloc: Global, segments: &[Text]) -> Result<String, AllocError>
    ensures { IfOk result (λ s. string_bytes s ≡ join_with_byte 47 segments.now) }
{
    let Some((first, others)) = segments.split_first() else {
        return Ok(String::new(alloc));
    };
    let mut whole = String::from_str(alloc, first.as_str())?;
    for segment in others {
        whole.push_str("/")?;
        whole.push_str(segment.as_str())?;
    }
    Ok(whole)
}

// The key of a repository and of segments that are judged joined.
fn joined_key(alloc: Global, repo: &str, segments: &[Text]) -> Result<ItemKey, Refusal>
    ensures ok { IfOk result (λ k. key_by (key_fault repo.now (join_with_byte 47 segments.now)) (key_of repo.now (join_with_byte 47 segments.now)) ≡ Ok k) }
    ensures refused { IfErr result (λ why. why ≢ refusal.Memory → key_by (key_fault repo.now (join_with_byte 47 segments.now)) (key_of repo.now (join_with_byte 47 segments.now)) ≡ Err why) }
{
    let whole = joined(alloc, segments)?;
    whole_key(alloc, repo, whole.as_str())
}

// The key of a repository and the segments of a path.
fn key_of(alloc: Global, repo: &str, segments: &[Text]) -> Result<ItemKey, Refusal>
    ensures ok { IfOk result (λ k. key_read repo.now segments.now ≡ Ok k) }
    ensures refused { IfErr result (λ why. why ≢ refusal.Memory → key_read repo.now segments.now ≡ Err why) }
{
    if !is_repo_key(repo) {
        return Err(Refusal::BadName);
    }
    match fault_apart(alloc, repo, segments) {
        Some(fault) => Err(refusal_of(fault)),
        None => joined_key(alloc, repo, segments),
    }
}

// The segments behind the first n.
fn behind(segments: &[Text], n: usize) -> &[Text]
    ensures { result.now ≡ drop n segments.now }
{
    if n > segments.len() {
        return &[];
    }
    &segments[n..]
}

// A last segment that is empty is dropped.
fn without_last_empty(segments: &[Text]) -> &[Text]
    ensures { result.now ≡ (if ends_empty segments.now then take (length segments.now - 1) segments.now else segments.now) }
{
    if ends_empty(segments) {
        return &segments[..segments.len() - 1];
    }
    segments
}

// The segments of an item's path behind its repository.
fn item_segments(segments: &[Text]) -> &[Text]
    ensures { result.now ≡ item_segments segments.now }
{
    behind(without_last_empty(segments), 1)
}

/// The item of a path that begins with its repository.
pub fn item(alloc: Global, target: &Target) -> Result<ItemKey, Refusal>
    ensures ok { IfOk result (λ k. item_read target.now ≡ Ok k) }
    ensures refused { IfErr result (λ why. why ≢ refusal.Memory → item_read target.now ≡ Err why) }
{
    let segments = target.segments.as_slice();
    key_of(alloc, segment(segments, 0), item_segments(segments))
}

/// The item of a path under `api`, whose repository stands behind the request's word.
pub fn api_item(alloc: Global, target: &Target) -> Result<ItemKey, Refusal>
    ensures ok { IfOk result (λ k. api_item_read target.now ≡ Ok k) }
    ensures refused { IfErr result (λ why. why ≢ refusal.Memory → api_item_read target.now ≡ Err why) }
{
    let segments = target.segments.as_slice();
    key_of(alloc, segment(segments, 2), behind(segments, 3))
}

/// The key of a repository.
pub fn repo(alloc: Global, repo: &str) -> Result<Text, Refusal>
    ensures ok { IfOk result (λ t. repo_read repo.now ≡ Ok t) }
    ensures refused { IfErr result (λ why. why ≢ refusal.Memory → repo_read repo.now ≡ Err why) }
{
    if !is_repo_key(repo) {
        return Err(Refusal::BadName);
    }
    Ok(Text::from_str(alloc, repo)?)
}

/// A build's name or number.
pub fn build_text(alloc: Global, text: &str) -> Result<Text, Refusal>
    ensures ok { IfOk result (λ t. build_text text.now ≡ Ok t) }
    ensures refused { IfErr result (λ why. why ≢ refusal.Memory → build_text text.now ≡ Err why) }
{
    if text.is_empty() || has_control(text.as_bytes()) {
        return Err(Refusal::BadName);
    }
    if text.len() > 255 {
        return Err(Refusal::TooLong(None));
    }
    Ok(Text::from_str(alloc, text)?)
}

/// A build's name and number, which stand at that place.
pub fn build(alloc: Global, segments: &[Text], n: usize) -> Result<(Text, Text), Refusal>
    requires { n < 8 }
    ensures ok { IfOk result (λ b. build_read segments.now n ≡ Ok b) }
    ensures refused { IfErr result (λ why. why ≢ refusal.Memory → build_read segments.now n ≡ Err why) }
{
    let name = build_text(alloc, segment(segments, n))?;
    let number = build_text(alloc, segment(segments, n + 1))?;
    Ok((name, number))
}
