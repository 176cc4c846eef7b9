//! Criteria, typed from left to right.
ghost use Rattle.std.specs.Prelude.{◌≡◌, ◌≢◌, Ok, Err, IfOk, IfErr, map};
ghost use Rattle.arti_query_model.specs.declared.fault.TypeFault.TheVariants.{Memory};
ghost use Rattle.arti_query_model.specs.Typing as typing;
ghost use Rattle.arti_query_model.specs.Outcome.{each};
ghost use Rattle.arti_aql_parse.specs.View.{objects_view};
ghost use Rattle.arti_aql_domains.specs.Conditions.{cond_view};
ghost use Rattle.arti_aql_domains.specs.Listed.{of_member, of_object};

use crate::cond::Cond;
use crate::leaves::type_tests;
use crate::same::type_same;
use arti_aql_parse::{Member, Object};
use arti_query_model::{Rel, TypeFault};
use arti_rows::Moment;
use std::alloc::Global;

#[cycle(criteria)]
fn type_member(alloc: Global, root: Rel, now: Moment, member: &Member) -> Result<Cond, TypeFault>
    ensures typed { IfOk result (λ c. of_member (record { root = root; now = now }) member.now ≡ Ok (cond_view c)) }
    ensures refused { IfErr result (λ f. f ≢ Memory → of_member (record { root = root; now = now }) member.now ≡ Err f) }
{
    match member {
        Member::All(objects) => {
            let parts = type_objects(alloc, root, now, objects.as_slice())?;
            Ok(Cond::All(parts))
        }
        Member::Any(objects) => {
            let parts = type_objects(alloc, root, now, objects.as_slice())?;
            Ok(Cond::Any(parts))
        }
        Member::Same(objects) => type_same(alloc, root, now, objects.as_slice()),
        Member::Tests(path, tests) => type_tests(alloc, root, now, path.as_str(), tests.as_slice()),
    }
}

#[cycle(criteria)]
fn type_members(
    alloc: Global,
    root: Rel,
    now: Moment,
    members: &[Member],
) -> Result<Vec<Cond>, TypeFault>
    ensures typed { IfOk result (λ cs. each (of_member (record { root = root; now = now })) members.now ≡ Ok (map cond_view cs.items)) }
    ensures refused { IfErr result (λ f. f ≢ Memory → each (of_member (record { root = root; now = now })) members.now ≡ Err f) }
{
    let mut parts = Vec::new(alloc);
    for member in members {
        let part = type_member(alloc, root, now, member)?;
        parts.push(part)?;
    }
    Ok(parts)
}

// An object holds where all its members do.
#[cycle(criteria)]
fn type_object(alloc: Global, root: Rel, now: Moment, object: &Object) -> Result<Cond, TypeFault>
    ensures typed { IfOk result (λ c. of_object (record { root = root; now = now }) object.now ≡ Ok (cond_view c)) }
    ensures refused { IfErr result (λ f. f ≢ Memory → of_object (record { root = root; now = now }) object.now ≡ Err f) }
{
    let parts = type_members(alloc, root, now, object.members.as_slice())?;
    Ok(Cond::All(parts))
}

#[cycle(criteria)]
fn type_objects(
    alloc: Global,
    root: Rel,
    now: Moment,
    objects: &[Object],
) -> Result<Vec<Cond>, TypeFault>
    ensures typed { IfOk result (λ cs. each (of_object (record { root = root; now = now })) objects.now ≡ Ok (map cond_view cs.items)) }
    ensures refused { IfErr result (λ f. f ≢ Memory → each (of_object (record { root = root; now = now })) objects.now ≡ Err f) }
{
    let mut parts = Vec::new(alloc);
    for object in objects {
        let part = type_object(alloc, root, now, object)?;
        parts.push(part)?;
    }
    Ok(parts)
}

/// The criteria of a query: each object holds.
#[tactic(auto, unfolding(arti_query_model::specs::Typing::typed_criteria))]
pub fn type_criteria(
    alloc: Global,
    root: Rel,
    now: Moment,
    find: &[Object],
) -> Result<Cond, TypeFault>
    ensures typed { IfOk result (λ c. typing.typed_criteria (record { root = root; now = now }) (objects_view find.now) ≡ Ok (cond_view c)) }
    ensures refused { IfErr result (λ f. f ≢ Memory → typing.typed_criteria (record { root = root; now = now }) (objects_view find.now) ≡ Err f) }
{
    let parts = type_objects(alloc, root, now, find)?;
    Ok(Cond::All(parts))
}
