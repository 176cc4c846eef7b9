// Which edits are accepted.
ghost use Rattle.std.specs.Prelude.{◌≡◌, ◌+◌, ◌≤◌, ◌&&◌, ◌||◌, ◌==◌, nat_le, ℕ, List, not, filter, length, is_some, is_none, IfOk};
ghost use Rattle.std.specs.List.{list_any};
ghost use Rattle.arti_rows.specs.Key.{folders_above};
ghost use Rattle.arti_model.specs.Store.{has_item, has_file};
ghost use Rattle.arti_model.specs.Apply.{is_local, file_above, has_folder, added_with, passes_limit, edit_refusal};
ghost use Rattle.arti_store.specs.Items.{items_of};

use crate::rows::Rows;
use arti_rows::{Edit, ItemKey, Limits};
use std::alloc::{AllocError, Global};

/// Whether an edit is accepted.
pub(crate) fn accepts(
    alloc: Global,
    limits: &Limits,
    edit: &Edit,
    rows: &Rows,
) -> Result<bool, AllocError>
    ensures { IfOk result (λ b. b ≡ is_none (edit_refusal limits.now edit.now (items_of rows.now))) }
{
    match edit {
        Edit::Folder { key } => may_put(alloc, limits, rows, key, rows.has_file(key)),
        Edit::File { key, .. } => may_put(alloc, limits, rows, key, has_folder(rows, key)),
        Edit::Downloaded { key } => Ok(is_local(key) && rows.has_file(key)),
        _ => Ok(false),
    }
}

// Whether an item may come to a key, where `taken` says whether one of the other kind stands there.
fn may_put(
    alloc: Global,
    limits: &Limits,
    rows: &Rows,
    key: &ItemKey,
    taken: bool,
) -> Result<bool, AllocError>
    ensures { IfOk result (λ b. b ≡ (is_local key.now && not (list_any (has_file (items_of rows.now)) (folders_above key.now)) && not taken
        && not (passes_limit limits.now (items_of rows.now) (added_with (items_of rows.now) key.now)))) }
{
    if !is_local(key) {
        return Ok(false);
    }
    let folders = key.folders(alloc)?;
    if has_file_among(rows, &folders) || taken {
        return Ok(false);
    }
    Ok(!passes_limit(limits, rows, key, &folders))
}

/// Whether a file stands above the key, or a folder at it.
pub(crate) fn is_barred(rows: &Rows, key: &ItemKey, folders: &[ItemKey]) -> bool
    requires { folders.now ≡ folders_above key.now }
    ensures { result ≡ (is_some (file_above (items_of rows.now) key.now) || has_folder (items_of rows.now) key.now) }
{
    has_file_among(rows, folders) || has_folder(rows, key)
}

/// Whether the limit of items would be passed with one at the key and the folders above it.
pub(crate) fn passes_limit(limits: &Limits, rows: &Rows, key: &ItemKey, folders: &[ItemKey]) -> bool
    requires { folders.now ≡ folders_above key.now }
    ensures { result ≡ passes_limit limits.now (items_of rows.now) (added_with (items_of rows.now) key.now) }
{
    !has_room(limits, rows, count_with(rows, folders, key))
}

// Whether the key is one of the repository.
fn is_local(key: &ItemKey) -> bool
    ensures { result ≡ is_local key.now }
{
    key.repo.as_str() == "generic-local"
}

// Whether a folder stands at the key.
fn has_folder(rows: &Rows, key: &ItemKey) -> bool
    ensures { result ≡ has_folder (items_of rows.now) key.now }
{
    rows.has(key) && !rows.has_file(key)
}

// Whether a file stands at one of the keys.
fn has_file_among(rows: &Rows, keys: &[ItemKey]) -> bool
    ensures { result ≡ list_any (has_file (items_of rows.now)) keys.now }
{
    for key in keys {
        if rows.has_file(key) {
            return true;
        }
    }
    false
}

// How many of the folders above a key and of the key itself are missing.
fn count_with(rows: &Rows, folders: &[ItemKey], key: &ItemKey) -> usize
    requires { folders.now ≡ folders_above key.now }
    ensures { result ≡ added_with (items_of rows.now) key.now }
{
    let missing = count_missing(rows, folders);
    if rows.has(key) { missing } else { missing + 1 }
}

// How many of the keys are missing.
fn count_missing(rows: &Rows, keys: &[ItemKey]) -> usize
    ensures count { result ≡ length (filter (λ key. not (has_item (items_of rows.now) key)) keys.now) }
    ensures most { result ≤ length keys.now }
{
    let mut count = 0;
    for key in keys {
        if !rows.has(key) {
            count += 1;
        }
    }
    count
}

// Whether so many rows may come.
fn has_room(limits: &Limits, rows: &Rows, added: usize) -> bool
    ensures { result ≡ ((added == 0) || nat_le (length rows.now + added) limits.now.items) }
{
    let most = limits.items as usize;
    added == 0 || (added <= most && rows.as_slice().len() <= most - added)
}
