// What edits do to rows.
ghost use Rattle.std.specs.Prelude.{◌≡◌, ◌++◌, ℕ, List, length, map, filter, not, IfOk, OnOk, OnErr, All, Contains};
ghost use Rattle.std.specs.Option.{option_copied};
ghost use Rattle.arti_rows.specs.declared.rows.FileRef.{FileRef};
ghost use Rattle.arti_rows.specs.declared.edits.Edit.{Edit};
ghost use Rattle.arti_model.specs.Store.{has_item, missing_folders};
ghost use Rattle.arti_model.specs.Apply.{with_folder, with_deployed, edited, edited_by};
ghost use Rattle.arti_store.specs.Items.{HasFileIn, items_of, folder_row, file_row};
ghost use Rattle.arti_store.specs.Changes.{references_of};
ghost use Rattle.arti_store.specs.Replays.{itself};

use crate::rows::Rows;
use arti_rows::{Change, Edit, FileRef, Given, ItemKey, ItemRow, Moment, Property, Seq, Text};
use std::alloc::{AllocError, Global};

/// Does the edits of a change, one after the other. After an `Err` some of the first were done.
pub(crate) fn do_all(alloc: Global, rows: &mut Rows, change: &Change) -> Result<(), AllocError>
    ensures done { OnOk result (items_of rows.new ≡ edited_by itself change.now.moment change.now.user change.now.edits (items_of rows.old)) }
    ensures files { (kept : List FileRef) → All (HasFileIn kept) rows.old → All (Contains kept) (references_of change.now.edits) → All (HasFileIn kept) rows.new }
{
    do_each(
        alloc,
        rows,
        change.moment,
        &change.user,
        change.edits.as_slice(),
    )
}

// Does edits, which are borrowed, since a function that drops an edit is proved for the drop of each kind.
fn do_each(
    alloc: Global,
    rows: &mut Rows,
    moment: Moment,
    user: &Text,
    edits: &[Edit],
) -> Result<(), AllocError>
    ensures done { OnOk result (items_of rows.new ≡ edited_by itself moment user.now edits.now (items_of rows.old)) }
    ensures files { (kept : List FileRef) → All (HasFileIn kept) rows.old → All (Contains kept) (references_of edits.now) → All (HasFileIn kept) rows.new }
{
    for edit in edits {
        do_one(alloc, rows, moment, user, edit)?;
    }
    Ok(())
}

/// Does one edit. An `Err` changes nothing.
pub(crate) fn do_one(
    alloc: Global,
    rows: &mut Rows,
    moment: Moment,
    user: &Text,
    edit: &Edit,
) -> Result<(), AllocError>
    ensures done { OnOk result (items_of rows.new ≡ edited itself moment user.now edit.now (items_of rows.old)) }
    ensures unchanged { OnErr result (rows.new ≡ rows.old) }
{
    match edit {
        Edit::Folder { key } => put_folder(alloc, rows, moment, user, key),
        Edit::File {
            key,
            given,
            file,
            props,
        } => put_file(alloc, rows, moment, user, key, *given, *file, props),
        Edit::Downloaded { key } => rows.count(moment, user, key),
        _ => Ok(()),
    }
}

// Makes a folder with those above it, where it is missing.
fn put_folder(
    alloc: Global,
    rows: &mut Rows,
    moment: Moment,
    user: &Text,
    key: &ItemKey,
) -> Result<(), AllocError>
    ensures done { OnOk result (items_of rows.new ≡ with_folder (items_of rows.old) moment user.now key.now) }
    ensures unchanged { OnErr result (rows.new ≡ rows.old) }
{
    if rows.has(key) {
        return Ok(());
    }
    let mut news = folders_for(alloc, rows, moment, user, key)?;
    news.push(folder_row(alloc, moment, user, key.clone()?)?)?;
    rows.put_all(news)
}

// Puts a file, and the folders above it that are missing.
fn put_file(
    alloc: Global,
    rows: &mut Rows,
    moment: Moment,
    user: &Text,
    key: &ItemKey,
    given: Given,
    file: FileRef,
    props: &Seq<Property>,
) -> Result<(), AllocError>
    ensures done { OnOk result (items_of rows.new ≡ with_deployed (items_of rows.old) moment user.now key.now given file props.now) }
    ensures unchanged { OnErr result (rows.new ≡ rows.old) }
{
    let mut news = folders_for(alloc, rows, moment, user, key)?;
    let new = file_row(
        moment,
        user,
        rows.find(key),
        key.clone()?,
        given,
        file,
        Seq::from_vec(copies(alloc, props.as_slice())?),
    )?;
    news.push(new)?;
    rows.put_all(news)
}

// A copy of properties.
fn copies(alloc: Global, props: &[Property]) -> Result<Vec<Property>, AllocError>
    ensures { IfOk result (λ v. v.items ≡ props.now) }
{
    let mut copies = Vec::with_capacity(alloc, props.len())?;
    for pair in props {
        copies.push(pair.clone()?)?;
    }
    Ok(copies)
}

// The folders above a key that are missing.
fn folders_for(
    alloc: Global,
    rows: &Rows,
    moment: Moment,
    user: &Text,
    key: &ItemKey,
) -> Result<Vec<ItemRow>, AllocError>
    ensures { IfOk result (λ v. v.items ≡ map (folder_row moment user.now) (missing_folders (items_of rows.now) key.now)) }
{
    let folders = key.folders(alloc)?;
    made(alloc, rows, moment, user, folders)
}

// Those of the folders that are missing.
fn made(
    alloc: Global,
    rows: &Rows,
    moment: Moment,
    user: &Text,
    folders: Vec<ItemKey>,
) -> Result<Vec<ItemRow>, AllocError>
    ensures { IfOk result (λ v. v.items ≡ map (folder_row moment user.now) (filter (λ folder. not (has_item (items_of rows.now) folder)) folders.items)) }
{
    let mut news = Vec::new(alloc);
    for folder in folders {
        if !rows.has(&folder) {
            news.push(folder_row(alloc, moment, user, folder)?)?;
        }
    }
    Ok(news)
}

// A folder that is made.
fn folder_row(
    alloc: Global,
    moment: Moment,
    user: &Text,
    key: ItemKey,
) -> Result<ItemRow, AllocError>
    ensures { IfOk result (λ r. r ≡ folder_row moment user.now key) }
{
    Ok(ItemRow {
        key,
        created: moment,
        created_by: user.clone()?,
        modified: moment,
        modified_by: user.clone()?,
        updated: moment,
        given: Given {
            md5: false,
            sha1: false,
            sha256: false,
        },
        file: None,
        props: Seq::new(alloc),
        stat: None,
    })
}

// A file that is deployed. A row that was there tells when and by whom it was created.
fn file_row(
    moment: Moment,
    user: &Text,
    old: Option<&ItemRow>,
    key: ItemKey,
    given: Given,
    file: FileRef,
    props: Seq<Property>,
) -> Result<ItemRow, AllocError>
    ensures { IfOk result (λ r. r ≡ file_row moment user.now key given file props (option_copied old.entry)) }
{
    let (created, created_by) = match old {
        None => (moment, user.clone()?),
        Some(row) => (row.created, row.created_by.clone()?),
    };
    Ok(ItemRow {
        key,
        created,
        created_by,
        modified: moment,
        modified_by: user.clone()?,
        updated: moment,
        given,
        file: Some(file),
        props,
        stat: None,
    })
}
