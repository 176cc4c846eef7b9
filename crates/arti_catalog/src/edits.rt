// What edits do.
ghost use Rattle.std.specs.Prelude.{◌≡◌, ◌++◌, ◌∷◌, [], true, false, map, filter, not, length, None, Some, is_some, option_map, IfOk, OnOk};
ghost use Rattle.std.specs.Option.{option_copied};
ghost use Rattle.arti_rows.specs.declared.edits.Edit.{Edit};
ghost use Rattle.arti_model.specs.Store.{has_item, item_of_row, missing_folders, new_folder, put_items};
ghost use Rattle.arti_model.specs.Apply.{with_folder, with_deployed, with_download, is_local, has_folder};
ghost use Rattle.arti_model.specs.Edits.{edited};
ghost use Rattle.arti_catalog.specs.Built.{edit_refusal};
ghost use Rattle.arti_tree.specs.Rows.{row_at};
ghost use Rattle.arti_catalog.specs.Held.{Fits, Keeps, IsPut, counted_row, folder_row, file_row, items_of, itself};

use crate::parts::Parts;
use crate::props_edits::{PropsEdit, change_props};
use crate::removing::remove;
use crate::rows::{Rows, copies};
use arti_rows::{
    Edit, FileRef, Given, ItemKey, ItemRow, Limits, Moment, Property, Seq, Stat, Text,
};
use std::alloc::{AllocError, Global};

/// Does an edit that isn't refused.
pub(crate) fn do_one(
    alloc: Global,
    limits: &Limits,
    parts: &mut Parts,
    moment: Moment,
    user: &Text,
    edit: &Edit,
) -> Result<(), AllocError>
    requires fits { Fits parts.old.tree parts.old.rows }
    requires keeps { Keeps limits.now parts.old.tree }
    requires accepted { edit_refusal limits.now edit.now (items_of parts.old.tree parts.old.rows) ≡ None }
    ensures fits { OnOk result (Fits parts.new.tree parts.new.rows) }
    ensures keeps { OnOk result (Keeps limits.now parts.new.tree) }
    ensures done { OnOk result (items_of parts.new.tree parts.new.rows ≡ edited itself moment user.now edit.now (items_of parts.old.tree parts.old.rows)) }
{
    match edit {
        Edit::Folder { key } => put_folder(alloc, limits, parts, moment, user, key),
        Edit::File {
            key,
            given,
            file,
            props,
        } => put_file(
            alloc, limits, parts, moment, user, key, *given, *file, props,
        ),
        Edit::Downloaded { key } => count_download(parts, moment, user, key),
        Edit::Remove { key } => remove(alloc, parts, key),
        Edit::SetProps { key, deep, props } => {
            let edit = PropsEdit::Set(props.as_slice());
            change_props(alloc, parts, moment, *deep, key, &edit)
        }
        Edit::DropProps { key, deep, keys } => {
            let edit = PropsEdit::Unset(keys.as_slice());
            change_props(alloc, parts, moment, *deep, key, &edit)
        }
        _ => Ok(()),
    }
}

// Makes a folder with those above it, where it is missing.
fn put_folder(
    alloc: Global,
    limits: &Limits,
    parts: &mut Parts,
    moment: Moment,
    user: &Text,
    key: &ItemKey,
) -> Result<(), AllocError>
    requires fits { Fits parts.old.tree parts.old.rows }
    requires keeps { Keeps limits.now parts.old.tree }
    requires local { is_local key.now ≡ true }
    ensures fits { OnOk result (Fits parts.new.tree parts.new.rows) }
    ensures keeps { OnOk result (Keeps limits.now parts.new.tree) }
    ensures done { OnOk result (items_of parts.new.tree parts.new.rows ≡ with_folder (items_of parts.old.tree parts.old.rows) moment user.now key.now) }
{
    if parts.has(key) {
        return Ok(());
    }
    let new = folder_row(alloc, moment, user, key.clone()?)?;
    add(alloc, limits, parts, moment, user, new)
}

// Puts a file where no folder is, and makes the folders above it that are missing.
fn put_file(
    alloc: Global,
    limits: &Limits,
    parts: &mut Parts,
    moment: Moment,
    user: &Text,
    key: &ItemKey,
    given: Given,
    file: FileRef,
    props: &Seq<Property>,
) -> Result<(), AllocError>
    requires fits { Fits parts.old.tree parts.old.rows }
    requires keeps { Keeps limits.now parts.old.tree }
    requires local { is_local key.now ≡ true }
    requires no_folder { has_folder (items_of parts.old.tree parts.old.rows) key.now ≡ false }
    ensures fits { OnOk result (Fits parts.new.tree parts.new.rows) }
    ensures keeps { OnOk result (Keeps limits.now parts.new.tree) }
    ensures done { OnOk result (items_of parts.new.tree parts.new.rows ≡ with_deployed (items_of parts.old.tree parts.old.rows) moment user.now key.now given file props.now) }
{
    let props = Seq::from_vec(copies(alloc, props.as_slice())?);
    let old = parts.find(key);
    let new = file_row(moment, user, old, key.clone()?, given, file, props)?;
    place(alloc, limits, parts, moment, user, new)
}

// A file comes to its place.
fn place(
    alloc: Global,
    limits: &Limits,
    parts: &mut Parts,
    moment: Moment,
    user: &Text,
    new: ItemRow,
) -> Result<(), AllocError>
    requires fits { Fits parts.old.tree parts.old.rows }
    requires keeps { Keeps limits.now parts.old.tree }
    requires local { is_local new.key ≡ true }
    requires file { is_some new.file ≡ true }
    requires no_folder { has_folder (items_of parts.old.tree parts.old.rows) new.key ≡ false }
    ensures fits { OnOk result (Fits parts.new.tree parts.new.rows) }
    ensures keeps { OnOk result (Keeps limits.now parts.new.tree) }
    ensures done { OnOk result (items_of parts.new.tree parts.new.rows
        ≡ put_items (map (new_folder moment user.now) (missing_folders (items_of parts.old.tree parts.old.rows) new.key) ++ item_of_row new ∷ []) (items_of parts.old.tree parts.old.rows)) }
{
    match parts.tree.get(&new.key) {
        Some(id) => replace(parts, moment, user, id, new),
        None => add(alloc, limits, parts, moment, user, new),
    }
}

// A file takes the place of the one of its key.
fn replace(
    parts: &mut Parts,
    moment: Moment,
    user: &Text,
    id: u32,
    new: ItemRow,
) -> Result<(), AllocError>
    requires fits { Fits parts.old.tree parts.old.rows }
    requires there { Some id ≡ option_map (λ r. r.id) (row_at parts.old.tree new.key) }
    requires file { is_some new.file ≡ true }
    requires no_folder { has_folder (items_of parts.old.tree parts.old.rows) new.key ≡ false }
    ensures fits { OnOk result (Fits parts.new.tree parts.new.rows) }
    ensures keys { parts.new.tree ≡ parts.old.tree }
    ensures done { OnOk result (items_of parts.new.tree parts.new.rows
        ≡ put_items (map (new_folder moment user.now) (missing_folders (items_of parts.old.tree parts.old.rows) new.key) ++ item_of_row new ∷ []) (items_of parts.old.tree parts.old.rows)) }
{
    parts.tree.folders_stand();
    parts.rows.put(id, new)?;
    Ok(())
}

// Counts a download of the item of a key.
fn count_download(
    parts: &mut Parts,
    moment: Moment,
    user: &Text,
    key: &ItemKey,
) -> Result<(), AllocError>
    requires { Fits parts.old.tree parts.old.rows }
    ensures fits { OnOk result (Fits parts.new.tree parts.new.rows) }
    ensures keys { parts.new.tree ≡ parts.old.tree }
    ensures done { OnOk result (items_of parts.new.tree parts.new.rows ≡ with_download (items_of parts.old.tree parts.old.rows) moment user.now key.now) }
{
    let Some(id) = parts.tree.get(key) else {
        return Ok(());
    };
    let Some(row) = parts.rows.take(id) else {
        return Ok(());
    };
    parts.rows.put(id, counted(row, moment, user.clone()?))?;
    Ok(())
}

// The row with one download more.
fn counted(mut row: ItemRow, moment: Moment, user: Text) -> ItemRow
    ensures { result ≡ counted_row moment user row }
{
    let before = match &row.stat {
        None => 0,
        Some(stat) => stat.downloads,
    };
    row.stat = Some(Stat {
        downloads: before.saturating_add(1),
        downloaded: moment,
        downloaded_by: user,
    });
    row
}

// A row comes whose key isn't there, with the folders above it that are missing.
fn add(
    alloc: Global,
    limits: &Limits,
    parts: &mut Parts,
    moment: Moment,
    user: &Text,
    new: ItemRow,
) -> Result<(), AllocError>
    requires fits { Fits parts.old.tree parts.old.rows }
    requires keeps { Keeps limits.now parts.old.tree }
    requires local { is_local new.key ≡ true }
    ensures fits { OnOk result (Fits parts.new.tree parts.new.rows) }
    ensures keeps { OnOk result (Keeps limits.now parts.new.tree) }
    ensures done { OnOk result (items_of parts.new.tree parts.new.rows
        ≡ put_items (map (new_folder moment user.now) (missing_folders (items_of parts.old.tree parts.old.rows) new.key) ++ item_of_row new ∷ []) (items_of parts.old.tree parts.old.rows)) }
{
    let key = new.key.clone()?;
    let is_file = new.file.is_some();
    let news = with_folders(alloc, parts, moment, user, new)?;
    let Ok(ids) = parts.tree.put(alloc, key, is_file, limits.items) else {
        return Err(AllocError);
    };
    put_all(&mut parts.rows, &ids, news)?;
    parts.tree.rules();
    let _ = parts.tree.ordered();
    Ok(())
}

// Rows come to their ids, one after the other.
fn put_all(rows: &mut Rows, ids: &[u32], news: Vec<ItemRow>) -> Result<(), AllocError>
    requires { length ids.now ≡ length news.items }
    ensures { OnOk result (IsPut ids.now news.items rows.old rows.new) }
{
    let mut place = 0usize;
    for new in news {
        rows.put(ids[place], new)?;
        place += 1;
    }
    Ok(())
}

// A row behind the folders above it that are missing.
fn with_folders(
    alloc: Global,
    parts: &Parts,
    moment: Moment,
    user: &Text,
    new: ItemRow,
) -> Result<Vec<ItemRow>, AllocError>
    requires { Fits parts.now.tree parts.now.rows }
    ensures { IfOk result (λ v. v.items ≡ map (folder_row moment user.now) (missing_folders (items_of parts.now.tree parts.now.rows) new.key) ++ new ∷ []) }
{
    let folders = new.key.folders(alloc)?;
    let mut news = made(alloc, parts, moment, user, folders)?;
    news.push(new)?;
    Ok(news)
}

// Those of the folders that are missing.
fn made(
    alloc: Global,
    parts: &Parts,
    moment: Moment,
    user: &Text,
    folders: Vec<ItemKey>,
) -> Result<Vec<ItemRow>, AllocError>
    requires { Fits parts.now.tree parts.now.rows }
    ensures { IfOk result (λ v. v.items ≡ map (folder_row moment user.now) (filter (λ folder. not (has_item (items_of parts.now.tree parts.now.rows) folder)) folders.items)) }
{
    let mut news = Vec::new(alloc);
    for folder in folders {
        if !parts.has(&folder) {
            news.push(folder_row(alloc, moment, user, folder)?)?;
        }
    }
    Ok(news)
}

// A folder that is made.
fn folder_row(
    alloc: Global,
    moment: Moment,
    user: &Text,
    key: ItemKey,
) -> Result<ItemRow, AllocError>
    ensures { IfOk result (λ r. r ≡ folder_row moment user.now key) }
{
    Ok(ItemRow {
        key,
        created: moment,
        created_by: user.clone()?,
        modified: moment,
        modified_by: user.clone()?,
        updated: moment,
        given: Given {
            md5: false,
            sha1: false,
            sha256: false,
        },
        file: None,
        props: Seq::new(alloc),
        stat: None,
    })
}

// A file that is deployed. A row that was there tells when and by whom it was created.
fn file_row(
    moment: Moment,
    user: &Text,
    old: Option<&ItemRow>,
    key: ItemKey,
    given: Given,
    file: FileRef,
    props: Seq<Property>,
) -> Result<ItemRow, AllocError>
    ensures { IfOk result (λ r. r ≡ file_row moment user.now key given file props (option_copied old.entry)) }
{
    let (created, created_by) = match old {
        None => (moment, user.clone()?),
        Some(row) => (row.created, row.created_by.clone()?),
    };
    Ok(ItemRow {
        key,
        created,
        created_by,
        modified: moment,
        modified_by: user.clone()?,
        updated: moment,
        given,
        file: Some(file),
        props,
        stat: None,
    })
}
