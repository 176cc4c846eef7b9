// Why an edit is refused.
ghost use Rattle.std.specs.Prelude.{◌≡◌, ◌≤◌, not, filter, length, option_map, None};
ghost use Rattle.std.specs.List.{find};
ghost use Rattle.arti_rows.specs.Key.{folders_above};
ghost use Rattle.arti_rows.specs.declared.refusal.Refusal.TheVariants as refusal;
ghost use Rattle.arti_rows.specs.declared.refusal.Which.TheVariants.{Items};
ghost use Rattle.arti_model.specs.Store.{has_item, has_file};
ghost use Rattle.arti_model.specs.Apply.{is_local, refused_if, refused_below, has_folder, added_with, passes_limit, put_refusal};
ghost use Rattle.arti_catalog.specs.Built.{edit_refusal};
ghost use Rattle.arti_catalog.specs.Held.{Fits, items_of};
ghost use Rattle.arti_catalog.specs.Judged.{Judges};

use crate::judging_kept::{judge_remove, judge_set, judge_unset};
use crate::parts::Parts;
use arti_rows::{Edit, ItemKey, Limits, Refusal, Which};
use std::alloc::{AllocError, Global};

/// Judges an edit on the items as they are.
pub(crate) fn judge(
    alloc: Global,
    limits: &Limits,
    parts: &Parts,
    edit: &Edit,
) -> Result<(), Refusal>
    requires { Fits parts.now.tree parts.now.rows }
    ensures { Judges result (edit_refusal limits.now edit.now (items_of parts.now.tree parts.now.rows)) }
{
    match edit {
        Edit::Folder { key } => judge_folder(alloc, limits, parts, key),
        Edit::File { key, .. } => judge_file(alloc, limits, parts, key),
        Edit::Downloaded { key } => judge_download(parts, key),
        Edit::Remove { key } => judge_remove(alloc, parts, key),
        Edit::SetProps { key, deep, props } => {
            judge_set(alloc, parts, key, *deep, props.as_slice())
        }
        Edit::DropProps { key, deep, .. } => judge_unset(alloc, parts, key, *deep),
        _ => Err(Refusal::NotYet(None)),
    }
}

// Of a folder that is made.
fn judge_folder(alloc: Global, limits: &Limits, parts: &Parts, key: &ItemKey) -> Result<(), Refusal>
    requires { Fits parts.now.tree parts.now.rows }
    ensures { Judges result (put_refusal limits.now (items_of parts.now.tree parts.now.rows) key.now (has_file (items_of parts.now.tree parts.now.rows) key.now) (refusal.FileHere key.now)) }
{
    judge_repo(key)?;
    let folders = key.folders(alloc)?;
    if let Some(file) = file_among(parts, &folders) {
        return Err(Refusal::FileAbove(file.clone()?));
    }
    if parts.has_file(key) {
        return Err(Refusal::FileHere(key.clone()?));
    }
    judge_room(limits, parts, &folders, key)
}

// Of a file that comes.
fn judge_file(alloc: Global, limits: &Limits, parts: &Parts, key: &ItemKey) -> Result<(), Refusal>
    requires { Fits parts.now.tree parts.now.rows }
    ensures { Judges result (put_refusal limits.now (items_of parts.now.tree parts.now.rows) key.now (has_folder (items_of parts.now.tree parts.now.rows) key.now) (refusal.FolderHere key.now)) }
{
    judge_repo(key)?;
    let folders = key.folders(alloc)?;
    if let Some(file) = file_among(parts, &folders) {
        return Err(Refusal::FileAbove(file.clone()?));
    }
    if parts.has_folder(key) {
        return Err(Refusal::FolderHere(key.clone()?));
    }
    judge_room(limits, parts, &folders, key)
}

// Of a download.
fn judge_download(parts: &Parts, key: &ItemKey) -> Result<(), Refusal>
    requires { Fits parts.now.tree parts.now.rows }
    ensures { Judges result (refused_if (not (is_local key.now)) (refusal.NoRepo key.now.repo) (refused_if (not (has_file (items_of parts.now.tree parts.now.rows) key.now)) (refusal.NotFound key.now) None)) }
{
    judge_repo(key)?;
    if !parts.has_file(key) {
        return Err(Refusal::NotFound(key.clone()?));
    }
    Ok(())
}

// The repository of the key is there.
pub(crate) fn judge_repo(key: &ItemKey) -> Result<(), Refusal>
    ensures { Judges result (refused_if (not (is_local key.now)) (refusal.NoRepo key.now.repo) None) }
{
    if key.repo.as_str() == "generic-local" {
        return Ok(());
    }
    Err(Refusal::NoRepo(key.repo.clone()?))
}

// The first of the keys at which a file stands.
fn file_among<'a>(parts: &Parts, keys: &'a [ItemKey]) -> Option<&'a ItemKey>
    requires { Fits parts.now.tree parts.now.rows }
    ensures { option_map (λ key. key.now) result ≡ find (has_file (items_of parts.now.tree parts.now.rows)) keys.now }
{
    for key in keys {
        if parts.has_file(key) {
            return Some(key);
        }
    }
    None
}

// There is room for an item and those of the folders above it that are missing.
fn judge_room(
    limits: &Limits,
    parts: &Parts,
    folders: &[ItemKey],
    key: &ItemKey,
) -> Result<(), Refusal>
    requires fits { Fits parts.now.tree parts.now.rows }
    requires folders { folders.now ≡ folders_above key.now }
    ensures { Judges result (refused_if (passes_limit limits.now (items_of parts.now.tree parts.now.rows) (added_with (items_of parts.now.tree parts.now.rows) key.now)) (refusal.Full Items) None) }
{
    if has_room(limits, parts, added_with(parts, folders, key)) {
        return Ok(());
    }
    Err(Refusal::Full(Which::Items))
}

// How many items come with the key.
fn added_with(parts: &Parts, folders: &[ItemKey], key: &ItemKey) -> usize
    requires fits { Fits parts.now.tree parts.now.rows }
    requires folders { folders.now ≡ folders_above key.now }
    ensures { result ≡ added_with (items_of parts.now.tree parts.now.rows) key.now }
{
    let missing = count_missing(parts, folders);
    if parts.has(key) { missing } else { missing + 1 }
}

// How many of the keys are missing.
fn count_missing(parts: &Parts, keys: &[ItemKey]) -> usize
    requires { Fits parts.now.tree parts.now.rows }
    ensures count { result ≡ length (filter (λ key. not (has_item (items_of parts.now.tree parts.now.rows) key)) keys.now) }
    ensures most { result ≤ length keys.now }
{
    let mut count = 0;
    for key in keys {
        if !parts.has(key) {
            count += 1;
        }
    }
    count
}

// Whether so many items may come.
fn has_room(limits: &Limits, parts: &Parts, added: usize) -> bool
    requires { Fits parts.now.tree parts.now.rows }
    ensures { result ≡ not (passes_limit limits.now (items_of parts.now.tree parts.now.rows) added) }
{
    let most = limits.items as usize;
    added == 0 || (added <= most && parts.len() <= most - added)
}
