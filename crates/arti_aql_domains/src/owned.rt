//! Tests of the properties of a row.
ghost use Rattle.std.specs.Prelude.{◌≡◌, ◌&&◌, length, nat_lt};
ghost use Rattle.std.specs.List.{list_all};
ghost use Rattle.std.specs.List as list;
ghost use Rattle.arti_query_model.specs.World as model;

use crate::table::same;
use crate::tested::{is_denial, null_holds, words_meet};
use arti_query_model::{PropKey, PropTest, TypedLit};
use arti_rows::Property;

// Whether a test asks of a property at all.
fn is_in_question(key: &PropKey, property: &Property) -> bool
    ensures { result ≡ model.is_in_question key.now property.now }
{
    match key {
        PropKey::Key(key) => same(key.as_str(), property.key.as_str()),
        PropKey::AnyValue | PropKey::AnyKey => true,
    }
}

fn tested_text<'a>(key: &PropKey, property: &'a Property) -> &'a str
    ensures { result.now ≡ model.tested_text key.now property.now }
{
    match key {
        PropKey::AnyKey => property.key.as_str(),
        PropKey::Key(_) | PropKey::AnyValue => property.value.as_str(),
    }
}

fn property_meets(test: &PropTest, property: &Property) -> bool
    ensures { result ≡ model.property_meets test.now property.now }
{
    words_meet(tested_text(&test.key, property), &test.test)
}

fn has_one_in_question(key: &PropKey, properties: &[Property]) -> bool
    ensures { result ≡ nat_lt 0 (length (model.in_question key.now properties.now)) }
{
    for property in properties {
        if is_in_question(key, property) {
            return true;
        }
    }
    false
}

fn all_meet(test: &PropTest, properties: &[Property]) -> bool
    ensures { result ≡ list.list_all (model.property_meets test.now) (model.in_question test.now.key properties.now) }
{
    for property in properties {
        if is_in_question(&test.key, property) && !property_meets(test, property) {
            return false;
        }
    }
    true
}

fn one_meets(test: &PropTest, properties: &[Property]) -> bool
    ensures { result ≡ list.list_any (model.property_meets test.now) (model.in_question test.now.key properties.now) }
{
    for property in properties {
        if is_in_question(&test.key, property) && property_meets(test, property) {
            return true;
        }
    }
    false
}

/// What a test says of a row's properties: a denial must hold of all that are in question, anything else of one.
#[tactic(auto, unfolding(arti_query_model::specs::World::pair_holds))]
pub fn pair_holds(test: &PropTest, properties: &[Property]) -> bool
    ensures { result ≡ model.pair_holds test.now properties.now }
{
    match &test.test.value {
        TypedLit::Null => null_holds(test.test.op, !has_one_in_question(&test.key, properties)),
        TypedLit::Words(_) | TypedLit::Number(_) | TypedLit::Date(_) | TypedLit::Kind(_) => {
            if is_denial(test.test.op) {
                all_meet(test, properties)
            } else {
                one_meets(test, properties)
            }
        }
    }
}

fn meets_each(tests: &[PropTest], property: &Property) -> bool
    ensures { result ≡ list_all (λ t. model.is_in_question t.key property.now && model.property_meets t property.now) tests.now }
{
    for test in tests {
        if !is_in_question(&test.key, property) || !property_meets(test, property) {
            return false;
        }
    }
    true
}

/// Whether one property is in question in each test, and meets it.
#[tactic(auto, unfolding(arti_query_model::specs::World::same_holds))]
pub fn same_holds(tests: &[PropTest], properties: &[Property]) -> bool
    ensures { result ≡ model.same_holds tests.now properties.now }
{
    properties
        .iter()
        .any(|property| meets_each(tests, property))
}
