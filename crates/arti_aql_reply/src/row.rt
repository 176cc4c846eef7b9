// The object of a row.
ghost use Rattle.std.specs.Prelude.{◌≡◌, ◌++◌, ◌∷◌, [], OnOk, codes, decimal, Option, option_map};
ghost use Rattle.json.specs.Print.{quoted};
ghost use Rattle.arti_time.specs.Printed.{printed};
ghost use Rattle.arti_rows.specs.declared.rows.FileRef.{FileRef};
ghost use Rattle.arti_model.specs.Query.{member, kind_name, row_text};
ghost use Rattle.arti_aql_reply.specs.Rows.{facts_of_row};
ghost use Rattle.arti_aql_reply.specs.Parts.{place_text, size_text, making_text, change_text};

use crate::members::{write_next_date, write_next_size, write_next_words, write_words};
use arti_rows::{FileRef, ItemKey, ItemRow};
use std::alloc::{AllocError, Global};

// What kind of item it is.
fn kind_name(file: &Option<FileRef>) -> &'static str
    ensures { result.now ≡ kind_name (option_map (λ (f : FileRef). f.len) file.now) }
{
    match file {
        Some(_) => "file",
        None => "folder",
    }
}

// Where an item is, and its kind.
fn write_place(
    alloc: Global,
    out: &mut Vec<u8>,
    key: &ItemKey,
    kind: &str,
) -> Result<(), AllocError>
    ensures { OnOk result (out.new.items ≡ out.old.items ++ place_text key.now kind.now) }
{
    out.push(b'{')?;
    write_words(alloc, out, "repo", key.repo.as_str())?;
    write_next_words(alloc, out, "path", key.path.as_str())?;
    write_next_words(alloc, out, "name", key.name.as_str())?;
    write_next_words(alloc, out, "type", kind)?;
    Ok(())
}

// How large a file is; nothing of a folder.
fn write_file(alloc: Global, out: &mut Vec<u8>, file: &Option<FileRef>) -> Result<(), AllocError>
    ensures { OnOk result (out.new.items ≡ out.old.items ++ size_text (option_map (λ (f : FileRef). f.len) file.now)) }
{
    match file {
        Some(file) => write_next_size(alloc, out, "size", file.len),
        None => Ok(()),
    }
}

// When and by whom it was made.
fn write_making(alloc: Global, out: &mut Vec<u8>, row: &ItemRow) -> Result<(), AllocError>
    ensures { OnOk result (out.new.items ≡ out.old.items ++ making_text (facts_of_row row.now)) }
{
    write_next_date(alloc, out, "created", row.created)?;
    write_next_words(alloc, out, "created_by", row.created_by.as_str())?;
    Ok(())
}

// When and by whom it was changed.
fn write_change(alloc: Global, out: &mut Vec<u8>, row: &ItemRow) -> Result<(), AllocError>
    ensures { OnOk result (out.new.items ≡ out.old.items ++ change_text (facts_of_row row.now)) }
{
    write_next_date(alloc, out, "modified", row.modified)?;
    write_next_words(alloc, out, "modified_by", row.modified_by.as_str())?;
    write_next_date(alloc, out, "updated", row.updated)?;
    out.push(b'}')?;
    Ok(())
}

/// Appends the object of a row.
pub fn write_row(alloc: Global, out: &mut Vec<u8>, row: &ItemRow) -> Result<(), AllocError>
    ensures { OnOk result (out.new.items ≡ out.old.items ++ row_text (facts_of_row row.now)) }
{
    write_place(alloc, out, &row.key, kind_name(&row.file))?;
    write_file(alloc, out, &row.file)?;
    write_making(alloc, out, row)?;
    write_change(alloc, out, row)?;
    Ok(())
}
