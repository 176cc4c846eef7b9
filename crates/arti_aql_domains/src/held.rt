//! What a row has in its fields, without a copy of it.
ghost use Rattle.std.specs.Prelude.{◌≡◌, ◌+◌, ◌<◌, ◌^◌, length, pos, nat_eq};
ghost use Rattle.std.specs.Cmp.Lexicographic.{pointwise};
ghost use Rattle.arti_rows.specs.Key.{fronts, root_path};
ghost use Rattle.arti_query_model.specs.Values.{Number};
ghost use Rattle.arti_aql_domains.specs.RowValues as value;
ghost use Rattle.arti_aql_domains.specs.RowValues.{held_view};

use arti_query_model::FieldId;
use arti_rows::{BuildRow, FileRef, ItemRow, Moment, Property};

/// A row whose own fields and properties are asked for.
#[derive(Clone, Copy)]
pub enum Row<'a> {
    Item(&'a ItemRow),
    Build(&'a BuildRow),
}

/// The value of a field. Digests are texts of small hexadecimal digits.
#[derive(Clone, Copy)]
pub enum Held<'a> {
    Absent,
    Words(&'a str),
    Md5(&'a [u8; 16]),
    Sha1(&'a [u8; 20]),
    Sha256(&'a [u8; 32]),
    Number(i128),
    Date(Moment),
    File,
    Folder,
}

fn kind_of_item(file: &Option<FileRef>) -> Held<'static>
    ensures { held_view result ≡ value.kind_of_item file.now }
{
    match file {
        Some(_) => Held::File,
        None => Held::Folder,
    }
}

fn size(file: &Option<FileRef>) -> Held<'static>
    ensures { held_view result ≡ value.size file.now }
{
    match file {
        Some(file) => Held::Number(i128::from(file.len)),
        None => Held::Absent,
    }
}

fn md5(file: &Option<FileRef>) -> Held<'_>
    ensures { held_view result ≡ value.md5 file.now }
{
    match file {
        Some(file) => Held::Md5(&file.digests.md5),
        None => Held::Absent,
    }
}

fn sha1(file: &Option<FileRef>) -> Held<'_>
    ensures { held_view result ≡ value.sha1 file.now }
{
    match file {
        Some(file) => Held::Sha1(&file.digests.sha1),
        None => Held::Absent,
    }
}

fn sha256(file: &Option<FileRef>) -> Held<'_>
    ensures { held_view result ≡ value.sha256 file.now }
{
    match file {
        Some(file) => Held::Sha256(&file.digests.sha256),
        None => Held::Absent,
    }
}

// The digests that the client gave.
fn given_md5(row: &ItemRow) -> Held<'_>
    ensures { held_view result ≡ value.if_given row.now.given.md5 (value.md5 row.now.file) }
{
    if row.given.md5 {
        md5(&row.file)
    } else {
        Held::Absent
    }
}

fn given_sha1(row: &ItemRow) -> Held<'_>
    ensures { held_view result ≡ value.if_given row.now.given.sha1 (value.sha1 row.now.file) }
{
    if row.given.sha1 {
        sha1(&row.file)
    } else {
        Held::Absent
    }
}

fn slashes(text: &str) -> u64
    ensures { result ≡ length (fronts text.now) }
{
    let mut count = 0;
    for byte in text.as_bytes() {
        if *byte == b'/' {
            count += 1;
        }
    }
    count
}

fn is_root(path: &str) -> bool
    ensures { result ≡ pointwise nat_eq path.now root_path }
{
    path == "."
}

// How many segments a name has behind a path.
fn below(path: &str, name: &str) -> u128
    ensures value { result ≡ length (fronts path.now) + length (fronts name.now) + 2 }
    ensures small { result < 2 ^ 66 }
{
    u128::from(slashes(path)) + u128::from(slashes(name)) + 2
}

fn at_root(name: &str) -> u128
    ensures value { result ≡ length (fronts name.now) + 1 }
    ensures small { result < 2 ^ 66 }
{
    u128::from(slashes(name)) + 1
}

// How many segments path and name have together.
fn segments(path: &str, name: &str) -> u128
    ensures value { result ≡ value.segments path.now name.now }
    ensures small { result < 2 ^ 66 }
{
    if is_root(path) {
        at_root(name)
    } else {
        below(path, name)
    }
}

fn depth(path: &str, name: &str) -> Held<'static>
    ensures { held_view result ≡ Number (pos (value.segments path.now name.now)) }
{
    Held::Number(segments(path, name) as i128)
}

/// The value of a field of an item.
pub fn item_value(row: &ItemRow, field: FieldId) -> Held<'_>
    ensures { held_view result ≡ value.item_value row.now field }
{
    match field {
        FieldId::ItemRepo => Held::Words(row.key.repo.as_str()),
        FieldId::ItemPath => Held::Words(row.key.path.as_str()),
        FieldId::ItemName => Held::Words(row.key.name.as_str()),
        FieldId::ItemType => kind_of_item(&row.file),
        FieldId::ItemSize => size(&row.file),
        FieldId::ItemCreated => Held::Date(row.created),
        FieldId::ItemCreatedBy => Held::Words(row.created_by.as_str()),
        FieldId::ItemModified => Held::Date(row.modified),
        FieldId::ItemModifiedBy => Held::Words(row.modified_by.as_str()),
        FieldId::ItemUpdated => Held::Date(row.updated),
        FieldId::ItemDepth => depth(row.key.path.as_str(), row.key.name.as_str()),
        FieldId::ItemOriginalMd5 => given_md5(row),
        FieldId::ItemOriginalSha1 => given_sha1(row),
        FieldId::ItemActualMd5 => md5(&row.file),
        FieldId::ItemActualSha1 => sha1(&row.file),
        FieldId::ItemSha256 => sha256(&row.file),
        _ => Held::Absent,
    }
}

/// The value of a field of a build.
pub fn build_value(row: &BuildRow, field: FieldId) -> Held<'_>
    ensures { held_view result ≡ value.build_value row.now field }
{
    match field {
        FieldId::BuildName => Held::Words(row.name.as_str()),
        FieldId::BuildNumber => Held::Words(row.number.as_str()),
        FieldId::BuildStarted => Held::Date(row.started),
        FieldId::BuildUrl => Held::Words(row.url.as_str()),
        FieldId::BuildCreated => Held::Date(row.created),
        FieldId::BuildCreatedBy => Held::Words(row.created_by.as_str()),
        FieldId::BuildModified => Held::Date(row.modified),
        FieldId::BuildModifiedBy => Held::Words(row.modified_by.as_str()),
        _ => Held::Absent,
    }
}

impl<'a> Row<'a> {
    /// The value of a field of the row.
    pub fn value(self, field: FieldId) -> Held<'a>
        ensures { held_view result ≡ value.row_value self.entry field }
    {
        match self {
            Row::Item(row) => item_value(row, field),
            Row::Build(row) => build_value(row, field),
        }
    }

    pub fn properties(self) -> &'a [Property]
        ensures { result.now ≡ value.row_properties self.entry }
    {
        match self {
            Row::Item(row) => row.props.as_slice(),
            Row::Build(row) => row.props.as_slice(),
        }
    }
}
