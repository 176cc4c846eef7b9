//! A query, as it is read.

use arti_rows::{Seq, Text};

/// What a test does with the value of a field.
#[derive(Clone, Copy)]
pub enum Op {
    Eq,
    Ne,
    Gt,
    Gte,
    Lt,
    Lte,
    Match,
    Nmatch,
    Before,
    Last,
}

/// What a field is tested against.
#[derive(Drop)]
pub enum Lit {
    Words(Text),
    Number(i64),
    Null,
}

/// One test of a field.
#[derive(Drop)]
pub struct Test {
    pub op: Op,
    pub value: Lit,
}

/// A row that meets each member.
#[cycle(tree)]
#[derive(Drop)]
pub struct Object {
    pub members: Vec<Member>,
}

/// A member of an object: objects joined by and, by or, over one and the same property, or the tests of one field.
#[cycle(tree)]
#[derive(Drop)]
pub enum Member {
    All(Vec<Object>),
    Any(Vec<Object>),
    Same(Vec<Object>),
    Tests(Text, Vec<Test>),
}

/// The fields that rows are sorted by.
#[derive(Drop)]
pub struct Sort {
    pub descending: bool,
    pub fields: Seq<Text>,
}

/// A query: whose rows are wanted, which of them, and what is shown in which order.
#[derive(Drop)]
pub struct Query {
    pub domain: Text,
    pub find: Seq<Object>,
    pub include: Option<Seq<Text>>,
    pub sort: Option<Sort>,
    pub offset: Option<u64>,
    pub limit: Option<u64>,
    pub distinct: Option<bool>,
}

/// What the suffixes of a query say.
#[derive(Drop)]
pub struct Suffixes {
    pub include: Option<Seq<Text>>,
    pub sort: Option<Sort>,
    pub offset: Option<u64>,
    pub limit: Option<u64>,
    pub distinct: Option<bool>,
}
