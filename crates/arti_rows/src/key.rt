// The keys of items.
ghost use Rattle.std.specs.Prelude.{◌≡◌, ◌+◌, ◌<◌, ◌==◌, ◌||◌, ◌++◌, ◌∷◌, nat_lt, if◌then◌else◌, map, take, slice_index, IfOk, OnOk, Some, None, IsErrOf, IsTrue, length};
ghost use Rattle.arti_rows.specs.Key.{key_of, whole_of, fronts, folders_above, path_of, name_of, Rejoins};
ghost use Rattle.arti_rows.specs.Names.{is_repo_key, is_repo_byte, reserved_keys, dot_names, is_one_of, barred_marks, is_barred_byte, has_good_name, segment_fault, path_fault, key_fault, IsKey};
ghost use Rattle.std.specs.List.{list_all, list_any};

use crate::{KeyFault, Text};
use std::alloc::{AllocError, Global};
use std::marker::Model;

/// An item's key: its repository, the path of its folder (`.` at the root), its name.
#[derive(Debug, PartialEq, Eq, PartialOrd, Ord, Drop)]
pub struct ItemKey {
    pub repo: Text,
    pub path: Text,
    pub name: Text,
}

impl Model for ItemKey {
    ghost use Rattle.arti_rows.specs.Key.{Key};
    ghost use Rattle.arti_rows.specs.Names.{IsKey};

    ghost Value = { Key };

    ghost view = { λ k. record { repo = k.repo; path = k.path; name = k.name } };

    ghost invariant = { λ k. IsKey (record { repo = k.repo; path = k.path; name = k.name }) };

    ghost inverse = { λ k. record { repo = k.repo; path = k.path; name = k.name } };
}

impl Clone for ItemKey {
    ghost use Rattle.std.specs.Prelude.{◌≡◌};

    ghost is_clone = { λ s t. t ≡ s };

    fn clone(&self) -> Result<ItemKey, AllocError> {
        Ok(ItemKey {
            repo: self.repo.clone()?,
            path: self.path.clone()?,
            name: self.name.clone()?,
        })
    }
}

impl ItemKey {
    /// The key of a repository and of a path and name joined by slashes.
    pub fn new(alloc: Global, repo: &str, whole: &str) -> Result<ItemKey, KeyFault>
        ensures good { OnOk result (key_fault repo.now whole.now ≡ None) }
        ensures value { IfOk result (λ k. k ≡ key_of repo.now whole.now) }
        ensures rules { IfOk result IsKey }
        ensures bad_name { IsErrOf result KeyFault.BadName → key_fault repo.now whole.now ≡ Some KeyFault.BadName }
        ensures too_long { IsErrOf result KeyFault.TooLong → key_fault repo.now whole.now ≡ Some KeyFault.TooLong }
    {
        if let Some(fault) = fault_of(repo, whole) {
            return Err(fault);
        }
        let (path, name) = cut(whole);
        Ok(ItemKey {
            repo: Text::from_str(alloc, repo)?,
            path: Text::from_str(alloc, path)?,
            name: Text::from_str(alloc, name)?,
        })
    }

    /// Path and name joined by a slash; at the root it is the name alone.
    pub fn whole(&self, alloc: Global) -> Result<Text, AllocError>
        ensures { IfOk result (λ t. t ≡ whole_of self.now) }
    {
        if self.path.as_str() == "." {
            return self.name.clone();
        }
        joined(alloc, self.path.as_str(), self.name.as_str())
    }

    /// The folders above it, the topmost first.
    pub fn folders(&self, alloc: Global) -> Result<Vec<ItemKey>, AllocError>
        ensures { IfOk result (λ v. v.items ≡ folders_above self.now) }
    {
        let whole = self.whole(alloc)?;
        folders_of(alloc, self.repo.as_str(), whole.as_str())
    }

    /// The rules that each key keeps.
    pub fn rules(&self)
        ensures { IsKey self.now }
    {
        let _ = &self.repo;
    }
}

/// Whether a text is a repository's key.
pub fn is_repo_key(key: &str) -> bool
    ensures { result ≡ is_repo_key key.now }
{
    if key.is_empty() || key.len() > 64 {
        return false;
    }
    has_repo_bytes(key.as_bytes()) && !is_reserved(key)
}

fn has_repo_bytes(bytes: &[u8]) -> bool
    ensures { result ≡ list_all is_repo_byte bytes.now }
{
    bytes.iter().all(|b| is_repo_byte(*b))
}

fn is_repo_byte(b: u8) -> bool
    ensures { result ≡ is_repo_byte b }
{
    b.is_ascii_alphanumeric() || b == b'-' || b == b'_' || b == b'.'
}

fn is_reserved(key: &str) -> bool
    ensures { result ≡ is_one_of reserved_keys key.now }
{
    key == "." || key == ".." || key == "api" || key == "artifactory"
}

// Whether a segment's name is right, of whatever length.
fn has_good_name(segment: &str) -> bool
    ensures { result ≡ has_good_name segment.now }
{
    if segment.is_empty() || has_barred(segment.as_bytes()) {
        return false;
    }
    !is_dots(segment)
}

fn is_dots(segment: &str) -> bool
    ensures { result ≡ is_one_of dot_names segment.now }
{
    segment == "." || segment == ".."
}

fn has_barred(bytes: &[u8]) -> bool
    ensures { result ≡ list_any is_barred_byte bytes.now }
{
    bytes.iter().any(|b| is_barred(*b))
}

fn is_barred(b: u8) -> bool
    ensures { result ≡ is_barred_byte b }
{
    b < 32 || b == 127 || is_barred_mark(b)
}

fn is_barred_mark(b: u8) -> bool
    ensures { result ≡ list_any (λ c. c == b) barred_marks }
{
    match b {
        b'/' | b'\\' | b':' | b'|' | b'?' | b'*' | b'"' | b'<' | b'>' => true,
        _ => false,
    }
}

fn segment_fault(segment: &str) -> Option<KeyFault>
    ensures { result ≡ segment_fault segment.now }
{
    if !has_good_name(segment) {
        return Some(KeyFault::BadName);
    }
    if segment.len() > 255 {
        return Some(KeyFault::TooLong);
    }
    None
}

// What is wrong with a path and name joined.
fn path_fault(whole: &str) -> Option<KeyFault>
    ensures { result ≡ path_fault whole.now }
{
    let mut rest = whole;
    let mut before = 0usize;
    'segments: loop {
        match rest.split_once('/') {
            Some((segment, after)) => {
                match segment_fault(segment) {
                    Some(fault) => return Some(fault),
                    None => before += 1,
                }
                rest = after;
            }
            None => {
                return match segment_fault(rest) {
                    Some(fault) => Some(fault),
                    None => length_fault(whole.len(), before),
                };
            }
        }
    }
}

// What is wrong with a path of that length, in which so many segments stand before the last.
fn length_fault(len: usize, before: usize) -> Option<KeyFault>
    ensures { result ≡ (if nat_lt 1024 len || nat_lt 64 (before + 1) then Some KeyFault.TooLong else None) }
{
    if len > 1024 || before >= 64 {
        return Some(KeyFault::TooLong);
    }
    None
}

fn fault_of(repo: &str, whole: &str) -> Option<KeyFault>
    ensures { result ≡ key_fault repo.now whole.now }
{
    if !is_repo_key(repo) {
        return Some(KeyFault::BadName);
    }
    path_fault(whole)
}

// The path, or `.` where there is none, and the name behind it.
fn cut(whole: &str) -> (&str, &str)
    ensures path { result.0.now ≡ path_of whole.now }
    ensures name { result.1.now ≡ name_of whole.now }
    ensures whole { Rejoins whole.now result.0.now result.1.now }
{
    match whole.rsplit_once('/') {
        Some(parts) => parts,
        None => (".", whole),
    }
}

// Two texts with a slash between them.
fn joined(alloc: Global, path: &str, name: &str) -> Result<Text, AllocError>
    ensures { IfOk result (λ t. t ≡ path.now ++ 47 ∷ name.now) }
{
    let mut whole = String::from_str(alloc, path)?;
    whole.push_str("/")?;
    whole.push_str(name)?;
    Ok(Text::from_string(whole))
}

// The folders that a good path and name joined lies in.
fn folders_of(alloc: Global, repo: &str, whole: &str) -> Result<Vec<ItemKey>, AllocError>
    requires { key_fault repo.now whole.now ≡ None }
    ensures { IfOk result (λ v. v.items ≡ map (λ front. key_of repo.now front) (fronts whole.now)) }
{
    let mut folders = Vec::new(alloc);
    for (i, b) in whole.as_bytes().iter().enumerate() {
        if *b == b'/' {
            folders.push(folder_at(alloc, repo, whole, i)?)?;
        }
    }
    Ok(folders)
}

// The folder whose path and name end before that slash.
fn folder_at(alloc: Global, repo: &str, whole: &str, i: usize) -> Result<ItemKey, AllocError>
    requires good { key_fault repo.now whole.now ≡ None }
    requires within { i < length whole.now }
    requires slash { slice_index whole.now i ≡ 47 }
    ensures { IfOk result (λ k. k ≡ key_of repo.now (take i whole.now)) }
{
    let (path, name) = cut(&whole[..i]);
    Ok(ItemKey {
        repo: Text::from_str(alloc, repo)?,
        path: Text::from_str(alloc, path)?,
        name: Text::from_str(alloc, name)?,
    })
}
