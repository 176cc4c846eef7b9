//! The words that the grammar gives a meaning.
ghost use Rattle.std.specs.Prelude.{◌≡◌};
ghost use Rattle.std.specs.Str.{bytes_eq};
ghost use Rattle.arti_aql_parse.specs.Words.{group_of, op_of, suffix_of, truth_of, is_null, is_find, begins_with_dollar, order_of};

use crate::query::Op;

/// How the objects of a list are joined.
#[derive(Drop)]
pub enum Group {
    All,
    Any,
    Same,
}

/// What may follow the closing parenthesis of a query.
#[derive(Clone, Copy)]
pub enum Suffix {
    Include,
    Sort,
    Offset,
    Limit,
    Distinct,
}

fn same(a: &str, b: &str) -> bool
    ensures { result ≡ bytes_eq a.now b.now }
{
    a == b
}

#[tactic(auto, unfolding(crate::specs::Words::group_of))]
pub fn group_of(key: &str) -> Option<Group>
    ensures { result ≡ group_of key.now }
{
    if same(key, "$and") {
        Some(Group::All)
    } else if same(key, "$or") {
        Some(Group::Any)
    } else if same(key, "$msp") {
        Some(Group::Same)
    } else {
        None
    }
}

#[tactic(auto, unfolding(crate::specs::Words::op_of))]
pub fn op_of(name: &str) -> Option<Op>
    ensures { result ≡ op_of name.now }
{
    if same(name, "$eq") {
        Some(Op::Eq)
    } else if same(name, "$ne") {
        Some(Op::Ne)
    } else if same(name, "$gt") {
        Some(Op::Gt)
    } else if same(name, "$gte") {
        Some(Op::Gte)
    } else if same(name, "$lt") {
        Some(Op::Lt)
    } else if same(name, "$lte") {
        Some(Op::Lte)
    } else if same(name, "$match") {
        Some(Op::Match)
    } else if same(name, "$nmatch") {
        Some(Op::Nmatch)
    } else if same(name, "$before") {
        Some(Op::Before)
    } else if same(name, "$last") {
        Some(Op::Last)
    } else {
        None
    }
}

#[tactic(auto, unfolding(crate::specs::Words::suffix_of))]
pub fn suffix_of(name: &str) -> Option<Suffix>
    ensures { result ≡ suffix_of name.now }
{
    if same(name, "include") {
        Some(Suffix::Include)
    } else if same(name, "sort") {
        Some(Suffix::Sort)
    } else if same(name, "offset") {
        Some(Suffix::Offset)
    } else if same(name, "limit") {
        Some(Suffix::Limit)
    } else if same(name, "distinct") {
        Some(Suffix::Distinct)
    } else {
        None
    }
}

#[tactic(auto, unfolding(crate::specs::Words::truth_of))]
pub fn truth_of(name: &str) -> Option<bool>
    ensures { result ≡ truth_of name.now }
{
    if same(name, "true") {
        Some(true)
    } else if same(name, "false") {
        Some(false)
    } else {
        None
    }
}

/// Whether a sort descends.
#[tactic(auto, unfolding(crate::specs::Words::order_of))]
pub fn order_of(name: &str) -> Option<bool>
    ensures { result ≡ order_of name.now }
{
    if same(name, "$asc") {
        Some(false)
    } else if same(name, "$desc") {
        Some(true)
    } else {
        None
    }
}

#[tactic(auto, unfolding(crate::specs::Words::is_null))]
pub fn is_null(name: &str) -> bool
    ensures { result ≡ is_null name.now }
{
    same(name, "null")
}

#[tactic(auto, unfolding(crate::specs::Words::is_find))]
pub fn is_find(name: &str) -> bool
    ensures { result ≡ is_find name.now }
{
    same(name, "find")
}

pub fn begins_with_dollar(key: &str) -> bool
    ensures { result ≡ begins_with_dollar key.now }
{
    let bytes = key.as_bytes();
    !bytes.is_empty() && bytes[0] == b'$'
}
