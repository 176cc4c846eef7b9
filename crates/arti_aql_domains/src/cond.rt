//! Queries typed: criteria over rows and the rows that are related to them.
use arti_query_model::{FieldId, PropTest, Rel, Shown, TypedTest};

/// Typed criteria. A list of relations is the path to the row that is tested, without a closing `property`; it is empty for
/// the root.
#[derive(Drop)]
pub enum Cond {
    All(Vec<Cond>),
    Any(Vec<Cond>),
    /// One and the same property meets each test.
    Same(Vec<Rel>, Vec<PropTest>),
    Field(Vec<Rel>, FieldId, TypedTest),
    Pair(Vec<Rel>, PropTest),
}

/// A query typed. What it sorts by are root fields, each with whether it descends.
#[derive(Drop)]
pub struct Typed {
    /// Builds are found, not items.
    pub builds: bool,
    pub cond: Cond,
    pub shown: Vec<Shown>,
    pub sort: Vec<(FieldId, bool)>,
    pub offset: u64,
    pub limit: Option<u64>,
}
