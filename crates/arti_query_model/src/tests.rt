//! Typed tests, and what is shown of a row.
use crate::fields::{FieldId, Rel};
use arti_aql_parse::Op;
use arti_rows::{Moment, Seq, Text};

/// What an item is. `Any` is in tests alone, and equals both.
#[derive(Clone, Copy)]
pub enum ItemKind {
    File,
    Folder,
    Any,
}

/// What a value is compared with.
#[derive(Drop)]
pub enum TypedLit {
    Words(Text),
    Number(i64),
    Date(Moment),
    Kind(ItemKind),
    Null,
}

/// A test of a value. `Before` and `Last` don't stand in one: they are `Lt` and `Gte` of a date.
#[derive(Drop)]
pub struct TypedTest {
    pub op: Op,
    pub value: TypedLit,
}

/// Which properties of a row are tested: the values of those with a key, the values of all, or the keys of all.
#[derive(Drop)]
pub enum PropKey {
    Key(Text),
    AnyValue,
    AnyKey,
}

/// A test of the properties of a row.
#[derive(Drop)]
pub struct PropTest {
    pub key: PropKey,
    pub test: TypedTest,
}

/// What is shown of a row: all fields, one of them, or its properties that have a key, or all its properties.
#[derive(Drop)]
pub enum ShownPart {
    All,
    Field(FieldId),
    Key(Text),
    EveryKey,
}

/// What is shown of the rows at a path. The path is empty for the root.
#[derive(Drop)]
pub struct Shown {
    pub path: Seq<Rel>,
    pub part: ShownPart,
}
