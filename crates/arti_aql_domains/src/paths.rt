//! Paths: the names of relations, then a field, or `@` and the key of a property, with dots between them.
ghost use Rattle.std.specs.Prelude.{◌≡◌, ◌≢◌, ◌<◌, ◌∷◌, ◌++◌, [], length, nat_lt, Ok, Err, Some, None, IfOk, IfErr, IfSome, MatchOption, option_map, drop, true};
ghost use Rattle.arti_query_model.specs.declared.fault.TypeFault.TheVariants.{Memory};
ghost use Rattle.arti_query_model.specs.declared.tests.ShownPart.TheVariants.{All};
ghost use Rattle.arti_query_model.specs.Paths as model;
ghost use Rattle.arti_query_model.specs.Paths.{path_text, relations_named, end_of};
ghost use Rattle.arti_aql_domains.specs.Paths.{behind, target_view, Leads};

use crate::faults::{no_field, path_too_long};
use crate::table::{field_of, has_properties, relation_of, same};
use arti_query_model::{FieldId, FieldType, PropKey, Rel, Shown, ShownPart, TypeFault};
use arti_rows::{Seq, Text, is_prop_key};
use std::alloc::{AllocError, Global};

/// Most relations of a path.
const MOST_RELATIONS: usize = 6;

/// What a path of criteria leads to: a field, or properties of the row at its end.
#[derive(Drop)]
pub enum What {
    Field(FieldId, FieldType),
    Properties(PropKey),
}

/// What is tested, and of which row. A closing `property` isn't among the relations.
#[derive(Drop)]
pub struct Target {
    pub path: Vec<Rel>,
    pub what: What,
}

// The relations before the last part of a path, the domain that they lead to, and that part.
#[derive(Drop)]
struct Walked<'a> {
    path: Vec<Rel>,
    domain: Rel,
    last: &'a str,
}

// The first name and what stands behind its dot, unless the part is the last.
fn cut(path: &str) -> Option<(&str, &str)>
    ensures parts { MatchOption result (path_text path.now ≡ record { names = []; last = path.now }) (λ r. path_text path.now ≡ behind r.0.now (path_text r.1.now)) }
    ensures less { IfSome result (λ r. length r.1.now < length path.now) }
{
    if is_property_text(path) {
        return None;
    }
    match path.split_once('.') {
        Some((name, rest)) => Some((name, rest)),
        None => None,
    }
}

fn is_property_text(part: &str) -> bool
    ensures { result ≡ model.is_property_text part.now }
{
    let bytes = part.as_bytes();
    !bytes.is_empty() && bytes[0] == b'@'
}

// Whether more relations stand before the last part than a path may have, whatever their names are.
fn is_too_long(path: &str) -> bool
    ensures { result ≡ nat_lt 6 (length (path_text path.now).names) }
{
    let mut rest = path;
    let mut count = 0;
    while count <= MOST_RELATIONS {
        match cut(rest) {
            None => return false,
            Some((_, more)) => rest = more,
        }
        count += 1;
    }
    true
}

// Follows the names of relations from the root.
fn walk<'a>(alloc: Global, root: Rel, text: &'a str) -> Result<Option<Walked<'a>>, AllocError>
    ensures relations { IfOk result (λ w. option_map (λ w. w.path.items) w ≡ relations_named root (path_text text.now).names) }
    ensures leads { IfOk result (λ w. IfSome w (λ w. Leads root text.now w.path.items w.domain w.last.now)) }
{
    let mut path = Vec::new(alloc);
    let mut domain = root;
    let mut rest = text;
    while let Some((name, more)) = cut(rest) {
        let Some(rel) = relation_of(domain, name) else {
            return Ok(None);
        };
        path.push(rel)?;
        domain = rel;
        rest = more;
    }
    Ok(Some(Walked {
        path,
        domain,
        last: rest,
    }))
}

// The same, refused where the path is too long or a name is no relation.
#[tactic(auto, unfolding(arti_query_model::specs::Paths::relations_of))]
fn relations_of<'a>(alloc: Global, root: Rel, text: &'a str) -> Result<Walked<'a>, TypeFault>
    ensures relations { IfOk result (λ w. model.relations_of root text.now ≡ Ok w.path.items) }
    ensures leads { IfOk result (λ w. Leads root text.now w.path.items w.domain w.last.now) }
    ensures refused { IfErr result (λ f. f ≢ Memory → model.relations_of root text.now ≡ Err f) }
{
    if is_too_long(text) {
        return Err(path_too_long(alloc, text));
    }
    match walk(alloc, root, text)? {
        Some(walked) => Ok(walked),
        None => Err(no_field(alloc, text)),
    }
}

// The key behind the `@` of a last part.
fn behind_sign(last: &str) -> &str
    requires { model.is_property_text last.now ≡ true }
    ensures { result.now ≡ drop 1 last.now }
{
    match last.split_once('@') {
        Some((_, key)) => key,
        None => last,
    }
}

// The properties that the last part of a path names.
#[tactic(auto, unfolding(arti_query_model::specs::Paths::property_key))]
fn property_key(alloc: Global, last: &str) -> Result<Option<PropKey>, AllocError>
    requires { model.is_property_text last.now ≡ true }
    ensures { IfOk result (λ k. k ≡ model.property_key last.now) }
{
    if same(last, "@*") {
        return Ok(Some(PropKey::AnyValue));
    }
    let key = behind_sign(last);
    if is_prop_key(key) {
        Ok(Some(PropKey::Key(Text::from_str(alloc, key)?)))
    } else {
        Ok(None)
    }
}

// A field at the end of a path; one of a property tests the properties of the row before.
fn at_field(mut path: Vec<Rel>, values: FieldType, field: FieldId) -> Target
    ensures { target_view result ≡ model.at_field path.items values field }
{
    match field {
        FieldId::PropertyKey => {
            path.pop();
            Target {
                path,
                what: What::Properties(PropKey::AnyKey),
            }
        }
        FieldId::PropertyValue => {
            path.pop();
            Target {
                path,
                what: What::Properties(PropKey::AnyValue),
            }
        }
        _ => Target {
            path,
            what: What::Field(field, values),
        },
    }
}

#[tactic(auto, unfolding(arti_query_model::specs::Paths::target_at))]
fn target_at(alloc: Global, walked: Walked<'_>) -> Result<Option<Target>, AllocError>
    ensures { IfOk result (λ t. option_map target_view t ≡ model.target_at walked.entry.domain walked.entry.path.items walked.entry.last.now) }
{
    if !is_property_text(walked.last) {
        return match field_of(walked.domain, walked.last) {
            Some((values, field)) => Ok(Some(at_field(walked.path, values, field))),
            None => Ok(None),
        };
    }
    if !has_properties(walked.domain) {
        return Ok(None);
    }
    match property_key(alloc, walked.last)? {
        Some(key) => Ok(Some(Target {
            path: walked.path,
            what: What::Properties(key),
        })),
        None => Ok(None),
    }
}

/// What a path of criteria leads to.
#[tactic(auto, unfolding(arti_query_model::specs::Paths::target))]
pub fn find_target(alloc: Global, root: Rel, path: &str) -> Result<Target, TypeFault>
    ensures found { IfOk result (λ t. model.target root path.now ≡ Ok (target_view t)) }
    ensures refused { IfErr result (λ f. f ≢ Memory → model.target root path.now ≡ Err f) }
{
    let walked = relations_of(alloc, root, path)?;
    match target_at(alloc, walked)? {
        Some(target) => Ok(target),
        None => Err(no_field(alloc, path)),
    }
}

// The properties that the last part of a path shows.
#[tactic(auto, unfolding(arti_query_model::specs::Paths::shown_properties))]
fn shown_properties(alloc: Global, last: &str) -> Result<Option<ShownPart>, AllocError>
    requires { model.is_property_text last.now ≡ true }
    ensures { IfOk result (λ p. p ≡ model.shown_properties last.now) }
{
    if same(last, "@*") {
        return Ok(Some(ShownPart::EveryKey));
    }
    let key = behind_sign(last);
    if is_prop_key(key) {
        Ok(Some(ShownPart::Key(Text::from_str(alloc, key)?)))
    } else {
        Ok(None)
    }
}

fn shown_at(path: Vec<Rel>, part: ShownPart) -> Shown
    ensures { result ≡ model.shown_at path.items part }
{
    Shown {
        path: Seq::from_vec(path),
        part,
    }
}

// All fields at the end of one more relation, if the path may have one more.
#[tactic(auto, unfolding(arti_query_model::specs::Paths::shown_below))]
fn shown_below(alloc: Global, text: &str, mut path: Vec<Rel>, rel: Rel) -> Result<Shown, TypeFault>
    ensures shows { IfOk result (λ s. model.shown_below text.now path.items rel ≡ Ok s) }
    ensures refused { IfErr result (λ f. f ≢ Memory → model.shown_below text.now path.items rel ≡ Err f) }
{
    if path.len() >= MOST_RELATIONS {
        return Err(path_too_long(alloc, text));
    }
    path.push(rel)?;
    Ok(shown_at(path, ShownPart::All))
}

// A field, or all fields of a relation.
#[tactic(auto, unfolding(arti_query_model::specs::Paths::shown_name))]
fn shown_name(alloc: Global, text: &str, walked: Walked<'_>) -> Result<Shown, TypeFault>
    ensures shows { IfOk result (λ s. model.shown_name text.now walked.entry.domain walked.entry.path.items walked.entry.last.now ≡ Ok s) }
    ensures refused { IfErr result (λ f. f ≢ Memory → model.shown_name text.now walked.entry.domain walked.entry.path.items walked.entry.last.now ≡ Err f) }
{
    if let Some((_, field)) = field_of(walked.domain, walked.last) {
        return Ok(shown_at(walked.path, ShownPart::Field(field)));
    }
    match relation_of(walked.domain, walked.last) {
        Some(rel) => shown_below(alloc, text, walked.path, rel),
        None => Err(no_field(alloc, text)),
    }
}

/// What a text of an include shows.
#[tactic(auto, unfolding(arti_query_model::specs::Paths::shown_of, arti_query_model::specs::Paths::shown_last))]
pub fn shown_of(alloc: Global, root: Rel, text: &str) -> Result<Shown, TypeFault>
    ensures shows { IfOk result (λ s. model.shown_of root text.now ≡ Ok s) }
    ensures refused { IfErr result (λ f. f ≢ Memory → model.shown_of root text.now ≡ Err f) }
{
    let walked = relations_of(alloc, root, text)?;
    if !is_property_text(walked.last) {
        if same(walked.last, "*") {
            return Ok(shown_at(walked.path, ShownPart::All));
        }
        return shown_name(alloc, text, walked);
    }
    if !has_properties(walked.domain) {
        return Err(no_field(alloc, text));
    }
    match shown_properties(alloc, walked.last)? {
        Some(part) => Ok(shown_at(walked.path, part)),
        None => Err(no_field(alloc, text)),
    }
}
