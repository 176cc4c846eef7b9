//! The tests of one path, typed.
ghost use Rattle.std.specs.Prelude.{◌≡◌, ◌≢◌, Ok, Err, IfOk, IfErr, map};
ghost use Rattle.arti_query_model.specs.declared.fault.TypeFault.TheVariants.{Memory};
ghost use Rattle.arti_query_model.specs.Outcome.{each};
ghost use Rattle.arti_query_model.specs.Typing as typing;
ghost use Rattle.arti_query_model.specs.Typing.{Begin};
ghost use Rattle.arti_query_model.specs.World.{field};
ghost use Rattle.arti_aql_domains.specs.Paths.{what_view};
ghost use Rattle.arti_aql_domains.specs.Conditions.{cond_view};

use crate::cond::Cond;
use crate::paths::{Target, What, find_target};
use crate::values::typed_test;
use arti_aql_parse::Test;
use arti_query_model::{FieldType, PropKey, PropTest, Rel, TypeFault};
use arti_rows::Moment;
use std::alloc::{AllocError, Global};

pub fn copied(alloc: Global, path: &[Rel]) -> Result<Vec<Rel>, AllocError>
    ensures { IfOk result (λ copy. copy.items ≡ path.now) }
{
    path.iter().copied().collect(alloc)
}

pub fn copied_key(key: &PropKey) -> Result<PropKey, AllocError>
    ensures { IfOk result (λ copy. copy ≡ key.now) }
{
    match key {
        PropKey::Key(text) => Ok(PropKey::Key(text.clone()?)),
        PropKey::AnyValue => Ok(PropKey::AnyValue),
        PropKey::AnyKey => Ok(PropKey::AnyKey),
    }
}

// A test at the end of a path.
#[tactic(auto, unfolding(arti_query_model::specs::Typing::leaf_of))]
fn leaf(
    alloc: Global,
    now: Moment,
    path: &str,
    target: &Target,
    test: &Test,
) -> Result<Cond, TypeFault>
    ensures typed { IfOk result (λ c. typing.leaf_of now path.now target.now.path.items (what_view target.now.what) test.now ≡ Ok (cond_view c)) }
    ensures refused { IfErr result (λ f. f ≢ Memory → typing.leaf_of now path.now target.now.path.items (what_view target.now.what) test.now ≡ Err f) }
{
    match &target.what {
        What::Field(field, values) => {
            let typed = typed_test(alloc, now, path, *values, test)?;
            let rels = copied(alloc, target.path.as_slice())?;
            Ok(Cond::Field(rels, *field, typed))
        }
        What::Properties(key) => {
            let typed = typed_test(alloc, now, path, FieldType::Texts, test)?;
            let rels = copied(alloc, target.path.as_slice())?;
            let key = copied_key(key)?;
            Ok(Cond::Pair(rels, PropTest { key, test: typed }))
        }
    }
}

fn leaves(
    alloc: Global,
    now: Moment,
    path: &str,
    target: &Target,
    tests: &[Test],
) -> Result<Vec<Cond>, TypeFault>
    ensures typed { IfOk result (λ cs. each (typing.leaf_of now path.now target.now.path.items (what_view target.now.what)) tests.now ≡ Ok (map cond_view cs.items)) }
    ensures refused { IfErr result (λ f. f ≢ Memory → each (typing.leaf_of now path.now target.now.path.items (what_view target.now.what)) tests.now ≡ Err f) }
{
    let mut found = Vec::new(alloc);
    for test in tests {
        let cond = leaf(alloc, now, path, target, test)?;
        found.push(cond)?;
    }
    Ok(found)
}

/// The tests of one field.
#[tactic(auto, unfolding(arti_query_model::specs::Typing::typed_tests))]
pub fn type_tests(
    alloc: Global,
    root: Rel,
    now: Moment,
    path: &str,
    tests: &[Test],
) -> Result<Cond, TypeFault>
    ensures typed { IfOk result (λ c. typing.typed_tests (record { root = root; now = now }) path.now tests.now ≡ Ok (cond_view c)) }
    ensures refused { IfErr result (λ f. f ≢ Memory → typing.typed_tests (record { root = root; now = now }) path.now tests.now ≡ Err f) }
{
    let target = find_target(alloc, root, path)?;
    let found = leaves(alloc, now, path, &target, tests)?;
    Ok(Cond::All(found))
}
