// The key that an item gets where a folder that it lies beneath gets another.
ghost use Rattle.std.specs.Prelude.{◌≡◌, ◌≢◌, ◌==◌, ◌≤◌, ℕ, List, ◌++◌, if◌then◌else◌, length, IfOk, IfSome, Some, None, true, false};
ghost use Rattle.std.specs.List.{count_by};
ghost use Rattle.std.specs.Option.{is_none};
ghost use Rattle.arti_rows.specs.Key.{whole_of};
ghost use Rattle.arti_rows.specs.Names.{key_fault, segments_of};
ghost use Rattle.arti_tree.specs.Renames.{fits, is_within, may_follow, moved, moved_whole};

use arti_rows::{ItemKey, Text};
use std::alloc::{AllocError, Global};

/// The key of an item of the same repository, where it is the one that changes or lies beneath it. The text is path and name of the new key joined.
pub(crate) fn moved_key(
    alloc: Global,
    item: &ItemKey,
    from: &ItemKey,
    to: &ItemKey,
    to_whole: &str,
) -> Result<Option<ItemKey>, AllocError>
    requires repo { item.now.repo ≡ from.now.repo }
    requires to_whole { to_whole.now ≡ whole_of to.now }
    requires good { is_within from.now item.now ≡ true → key_fault to.now.repo (moved_whole from.now to.now item.now) ≡ None }
    ensures { IfOk result (λ o. o ≡ (if is_within from.now item.now then Some (moved from.now to.now item.now) else None)) }
{
    item.rules();
    from.rules();
    to.rules();
    if item == from {
        return Ok(Some(to.clone()?));
    }
    match beneath(item.path.as_str(), from) {
        Some(rest) => {
            let path = joined(alloc, to_whole, rest)?;
            Ok(Some(ItemKey {
                repo: to.repo.clone()?,
                path,
                name: item.name.clone()?,
            }))
        }
        None => Ok(None),
    }
}

/// Whether a key is this one, or lies beneath it.
pub(crate) fn is_within(top: &ItemKey, key: &ItemKey) -> bool
    ensures { result ≡ is_within top.now key.now }
{
    top.rules();
    key.rules();
    if key == top {
        return true;
    }
    if key.repo != top.repo {
        return false;
    }
    beneath(key.path.as_str(), top).is_some()
}

/// Whether a key within another is one still where that becomes a third.
pub(crate) fn stays(key: &ItemKey, from: &ItemKey, to: &ItemKey) -> bool
    requires { is_within from.now key.now ≡ true }
    ensures { result ≡ is_none (key_fault to.now.repo (moved_whole from.now to.now key.now)) }
{
    key.rules();
    from.rules();
    to.rules();
    let long = length_of(key) + length_of(to) - length_of(from);
    let deep = depth_of(key) + depth_of(to) - depth_of(from);
    fits(long, deep)
}

// Whether a path of so many bytes and segments may be.
fn fits(long: usize, deep: usize) -> bool
    ensures { result ≡ fits long deep }
{
    long <= 1_024 && deep <= 64
}

// How many bytes path and name joined have.
fn length_of(key: &ItemKey) -> usize
    ensures value { result ≡ length (whole_of key.now) }
    ensures few { result ≤ 1024 }
{
    key.rules();
    let name = key.name.as_str().len();
    if key.path.as_str() == "." {
        return name;
    }
    key.path.as_str().len() + 1 + name
}

// How many segments path and name joined have.
fn depth_of(key: &ItemKey) -> usize
    ensures value { result ≡ length (segments_of (whole_of key.now)) }
    ensures few { result ≤ 64 }
{
    key.rules();
    if key.path.as_str() == "." {
        return 1;
    }
    slashes_in(key.path.as_str().as_bytes()) + 2
}

fn slashes_in(text: &[u8]) -> usize
    ensures { result ≡ count_by (λ b. b == 47) text.now }
{
    let mut count = 0usize;
    for b in text {
        if *b == b'/' {
            count += 1;
        }
    }
    count
}

// What stands behind a key's path and name in a path beneath it.
fn beneath<'a>(path: &'a str, top: &ItemKey) -> Option<&'a str>
    ensures none { result ≡ None → (rest : List ℕ) → path.now ≡ whole_of top.now ++ rest → may_follow rest ≡ false }
    ensures rest { IfSome result (λ rest. (path.now ≡ whole_of top.now ++ rest.now) × (may_follow rest.now ≡ true)) }
{
    match behind_key(path, top) {
        Some(rest) if may_follow(rest.as_bytes()) => Some(rest),
        _ => None,
    }
}

// What stands behind a key's path and name at a text's front.
fn behind_key<'a>(text: &'a str, key: &ItemKey) -> Option<&'a str>
    ensures none { result ≡ None → (rest : List ℕ) → text.now ≢ whole_of key.now ++ rest }
    ensures rest { IfSome result (λ rest. text.now ≡ whole_of key.now ++ rest.now) }
{
    if key.path.as_str() == "." {
        return behind(text, key.name.as_str());
    }
    let folder = behind(text, key.path.as_str())?;
    let inside = behind(folder, "/")?;
    behind(inside, key.name.as_str())
}

// What stands behind a text at another's front.
fn behind<'a>(path: &'a str, whole: &str) -> Option<&'a str>
    ensures none { result ≡ None → (rest : List ℕ) → path.now ≢ whole.now ++ rest }
    ensures rest { IfSome result (λ rest. path.now ≡ whole.now ++ rest.now) }
{
    path.strip_prefix(whole)
}

fn may_follow(rest: &[u8]) -> bool
    ensures { result ≡ may_follow rest.now }
{
    match rest {
        [] => true,
        [b, ..] => *b == b'/',
    }
}

// Two texts as one.
fn joined(alloc: Global, front: &str, rest: &str) -> Result<Text, AllocError>
    ensures { IfOk result (λ t. t ≡ front.now ++ rest.now) }
{
    let mut whole = String::from_str(alloc, front)?;
    whole.push_str(rest)?;
    Ok(Text::from_string(whole))
}
