//! Tests of one and the same property, typed.
ghost use Rattle.std.specs.Prelude.{◌≡◌, ◌≢◌, [], List, Ok, Err, Some, None, IfOk, IfErr, OnOk};
ghost use Rattle.std.specs.Cmp.Lexicographic.{pointwise};
ghost use Rattle.std.specs.Option.{unwrap_or};
ghost use Rattle.arti_query_model.specs.Criteria.{leaf};
ghost use Rattle.arti_query_model.specs.World.{same};
ghost use Rattle.arti_query_model.specs.declared.fault.TypeFault.TheVariants.{Memory};
ghost use Rattle.arti_query_model.specs.Outcome.{each};
ghost use Rattle.arti_query_model.specs.Typing as typing;
ghost use Rattle.arti_query_model.specs.Typing.{goes_with, rel_number, same_rel, members_with};
ghost use Rattle.arti_aql_parse.specs.Tree as tree;
ghost use Rattle.arti_aql_parse.specs.Tree.{PlainMember};
ghost use Rattle.arti_aql_parse.specs.View.{member_view, members_view, objects_view};
ghost use Rattle.arti_aql_domains.specs.Paths.{what_view};
ghost use Rattle.arti_aql_domains.specs.Conditions.{cond_view};
ghost use Rattle.arti_aql_domains.specs.Behind.{found_view, told};

use crate::cond::Cond;
use crate::faults::{bad_value, wrong_operator};
use crate::leaves::copied_key;
use crate::paths::{Target, What, find_target};
use crate::values::typed_test;
use arti_aql_parse::{Lit, Member, Object, Test};
use arti_query_model::{FieldType, PropKey, PropTest, Rel, TypeFault};
use arti_rows::{Moment, Seq};
use std::alloc::Global;

// The tests so far, and the path of them all.
#[derive(Drop)]
struct Found {
    path: Option<Seq<Rel>>,
    tests: Vec<PropTest>,
}

fn rel_number(rel: Rel) -> u8
    ensures { result ≡ rel_number rel }
{
    match rel {
        Rel::Property => 0,
        Rel::Stat => 1,
        Rel::Artifact => 2,
        Rel::Dependency => 3,
        Rel::Item => 4,
        Rel::Module => 5,
        Rel::Build => 6,
        Rel::Promotion => 7,
    }
}

fn same_rel(a: Rel, b: Rel) -> bool
    ensures { result ≡ same_rel a b }
{
    rel_number(a) == rel_number(b)
}

fn are_one_path(a: &[Rel], b: &[Rel]) -> bool
    ensures { result ≡ pointwise same_rel a.now b.now }
{
    if a.len() != b.len() {
        return false;
    }
    for i in 0..a.len() {
        if !same_rel(a[i], b[i]) {
            return false;
        }
    }
    true
}

fn goes_with(before: &Option<Seq<Rel>>, path: &[Rel]) -> bool
    ensures { result ≡ goes_with before.now path.now }
{
    match before {
        None => true,
        Some(before) => are_one_path(before.as_slice(), path),
    }
}

// The properties that a member tests, if it tests any, at the path of those before it.
#[tactic(auto, unfolding(arti_query_model::specs::Typing::same_key))]
fn same_key<'a>(
    alloc: Global,
    before: &Option<Seq<Rel>>,
    target: &'a Target,
) -> Result<&'a PropKey, TypeFault>
    ensures key { IfOk result (λ k. typing.same_key before.now target.now.path.items (what_view target.now.what) ≡ Ok k.now) }
    ensures refused { IfErr result (λ f. f ≢ Memory → typing.same_key before.now target.now.path.items (what_view target.now.what) ≡ Err f) }
{
    match &target.what {
        What::Properties(key) if goes_with(before, target.path.as_slice()) => Ok(key),
        _ => Err(wrong_operator(alloc, "$msp")),
    }
}

#[tactic(auto, unfolding(arti_query_model::specs::Typing::same_test))]
fn same_test(
    alloc: Global,
    now: Moment,
    path: &str,
    key: &PropKey,
    test: &Test,
) -> Result<PropTest, TypeFault>
    ensures typed { IfOk result (λ t. typing.same_test now path.now key.now test.now ≡ Ok t) }
    ensures refused { IfErr result (λ f. f ≢ Memory → typing.same_test now path.now key.now test.now ≡ Err f) }
{
    let typed = typed_test(alloc, now, path, FieldType::Texts, test)?;
    if matches!(test.value, Lit::Null) {
        return Err(bad_value(alloc, path));
    }
    Ok(PropTest {
        key: copied_key(key)?,
        test: typed,
    })
}

fn same_tests(
    alloc: Global,
    now: Moment,
    path: &str,
    key: &PropKey,
    tests: &[Test],
) -> Result<Vec<PropTest>, TypeFault>
    ensures typed { IfOk result (λ ts. each (typing.same_test now path.now key.now) tests.now ≡ Ok ts.items) }
    ensures refused { IfErr result (λ f. f ≢ Memory → each (typing.same_test now path.now key.now) tests.now ≡ Err f) }
{
    let mut found = Vec::new(alloc);
    for test in tests {
        let typed = same_test(alloc, now, path, key, test)?;
        found.push(typed)?;
    }
    Ok(found)
}

// The tests of a field, behind others at a path.
fn same_field(
    alloc: Global,
    root: Rel,
    now: Moment,
    before: &Option<Seq<Rel>>,
    path: &str,
    tests: &[Test],
) -> Result<Found, TypeFault>
    ensures typed { IfOk result (λ s. typing.same_member (record { root = root; now = now }) before.now (tree.tests path.now tests.now) ≡ Ok (found_view s)) }
    ensures refused { IfErr result (λ f. f ≢ Memory → typing.same_member (record { root = root; now = now }) before.now (tree.tests path.now tests.now) ≡ Err f) }
{
    let target = find_target(alloc, root, path)?;
    let key = same_key(alloc, before, &target)?;
    let found = same_tests(alloc, now, path, key, tests)?;
    Ok(Found {
        path: Some(Seq::from_vec(target.path)),
        tests: found,
    })
}

// The tests of a member, behind others at a path.
fn same_member(
    alloc: Global,
    root: Rel,
    now: Moment,
    before: &Option<Seq<Rel>>,
    member: &Member,
) -> Result<Found, TypeFault>
    ensures typed { IfOk result (λ s. typing.same_member (record { root = root; now = now }) before.now (member_view member.now) ≡ Ok (found_view s)) }
    ensures refused { IfErr result (λ f. f ≢ Memory → typing.same_member (record { root = root; now = now }) before.now (member_view member.now) ≡ Err f) }
{
    match member {
        Member::Tests(path, tests) => {
            same_field(alloc, root, now, before, path.as_str(), tests.as_slice())
        }
        Member::All(_) | Member::Any(_) | Member::Same(_) => Err(wrong_operator(alloc, "$msp")),
    }
}

fn push_members(
    alloc: Global,
    root: Rel,
    now: Moment,
    members: &[Member],
    found: &mut Found,
) -> Result<(), TypeFault>
    ensures typed { OnOk result ((rest : List PlainMember) → told (record { root = root; now = now }) found.old (members_with (members_view members.now) rest) ≡ told (record { root = root; now = now }) found.new rest) }
    ensures refused { IfErr result (λ f. f ≢ Memory → (rest : List PlainMember) → told (record { root = root; now = now }) found.old (members_with (members_view members.now) rest) ≡ Err f) }
{
    for member in members {
        let mut next = same_member(alloc, root, now, &found.path, member)?;
        found.path = next.path;
        found.tests.append(&mut next.tests)?;
    }
    Ok(())
}

fn path_or_root(alloc: Global, path: Option<Seq<Rel>>) -> Vec<Rel>
    ensures { result.items ≡ unwrap_or path [] }
{
    match path {
        Some(path) => path.into_vec(),
        None => Vec::new(alloc),
    }
}

fn same_cond(alloc: Global, found: Found) -> Cond
    ensures { cond_view result ≡ leaf (unwrap_or found.path []) (same found.tests.items) }
{
    let path = path_or_root(alloc, found.path);
    Cond::Same(path, found.tests)
}

/// Tests of one and the same property. Without a test they are at the root.
pub fn type_same(
    alloc: Global,
    root: Rel,
    now: Moment,
    objects: &[Object],
) -> Result<Cond, TypeFault>
    ensures typed { IfOk result (λ c. typing.same_of (record { root = root; now = now }) (objects_view objects.now) ≡ Ok (cond_view c)) }
    ensures refused { IfErr result (λ f. f ≢ Memory → typing.same_of (record { root = root; now = now }) (objects_view objects.now) ≡ Err f) }
{
    let mut found = Found {
        path: None,
        tests: Vec::new(alloc),
    };
    for object in objects {
        push_members(alloc, root, now, object.members.as_slice(), &mut found)?;
    }
    Ok(same_cond(alloc, found))
}
