//! The domains with their fields and relations, and the operators that fields take.
ghost use Rattle.std.specs.Prelude.{◌≡◌, map, option_map};
ghost use Rattle.std.specs.Str.{bytes_eq};
ghost use Rattle.arti_query_model.specs.Table as table;
ghost use Rattle.arti_query_model.specs.Typed as typed;
ghost use Rattle.arti_aql_domains.specs.Entries.{entry_view, meaning};

use arti_aql_parse::Op;
use arti_query_model::{FieldId, FieldType, Rel};

/// A field's name, what values it has, and which one it is.
pub type Field = (&'static str, FieldType, FieldId);

const ITEM: [Field; 17] = [
    ("repo", FieldType::Texts, FieldId::ItemRepo),
    ("path", FieldType::Texts, FieldId::ItemPath),
    ("name", FieldType::Texts, FieldId::ItemName),
    ("type", FieldType::Kinds, FieldId::ItemType),
    ("size", FieldType::Numbers, FieldId::ItemSize),
    ("created", FieldType::Dates, FieldId::ItemCreated),
    ("created_by", FieldType::Texts, FieldId::ItemCreatedBy),
    ("modified", FieldType::Dates, FieldId::ItemModified),
    ("modified_by", FieldType::Texts, FieldId::ItemModifiedBy),
    ("updated", FieldType::Dates, FieldId::ItemUpdated),
    ("depth", FieldType::Numbers, FieldId::ItemDepth),
    ("original_md5", FieldType::Texts, FieldId::ItemOriginalMd5),
    ("original_sha1", FieldType::Texts, FieldId::ItemOriginalSha1),
    ("actual_md5", FieldType::Texts, FieldId::ItemActualMd5),
    ("actual_sha1", FieldType::Texts, FieldId::ItemActualSha1),
    ("sha256", FieldType::Texts, FieldId::ItemSha256),
    ("virtual_repos", FieldType::Lists, FieldId::ItemVirtualRepos),
];

const PROPERTY: [Field; 2] = [
    ("key", FieldType::Texts, FieldId::PropertyKey),
    ("value", FieldType::Texts, FieldId::PropertyValue),
];

const STAT: [Field; 3] = [
    ("downloads", FieldType::Numbers, FieldId::StatDownloads),
    ("downloaded", FieldType::Dates, FieldId::StatDownloaded),
    ("downloaded_by", FieldType::Texts, FieldId::StatDownloadedBy),
];

const ARTIFACT: [Field; 5] = [
    ("name", FieldType::Texts, FieldId::ArtifactName),
    ("type", FieldType::Texts, FieldId::ArtifactType),
    ("sha1", FieldType::Texts, FieldId::ArtifactSha1),
    ("sha256", FieldType::Texts, FieldId::ArtifactSha256),
    ("md5", FieldType::Texts, FieldId::ArtifactMd5),
];

const DEPENDENCY: [Field; 6] = [
    ("name", FieldType::Texts, FieldId::DependencyName),
    ("type", FieldType::Texts, FieldId::DependencyType),
    ("scope", FieldType::Texts, FieldId::DependencyScope),
    ("sha1", FieldType::Texts, FieldId::DependencySha1),
    ("sha256", FieldType::Texts, FieldId::DependencySha256),
    ("md5", FieldType::Texts, FieldId::DependencyMd5),
];

const MODULE: [Field; 1] = [("name", FieldType::Texts, FieldId::ModuleName)];

const BUILD: [Field; 8] = [
    ("name", FieldType::Texts, FieldId::BuildName),
    ("number", FieldType::Texts, FieldId::BuildNumber),
    ("started", FieldType::Dates, FieldId::BuildStarted),
    ("url", FieldType::Texts, FieldId::BuildUrl),
    ("created", FieldType::Dates, FieldId::BuildCreated),
    ("created_by", FieldType::Texts, FieldId::BuildCreatedBy),
    ("modified", FieldType::Dates, FieldId::BuildModified),
    ("modified_by", FieldType::Texts, FieldId::BuildModifiedBy),
];

const PROMOTION: [Field; 6] = [
    ("created", FieldType::Dates, FieldId::PromotionCreated),
    ("created_by", FieldType::Texts, FieldId::PromotionCreatedBy),
    ("status", FieldType::Texts, FieldId::PromotionStatus),
    ("repo", FieldType::Texts, FieldId::PromotionRepo),
    ("comment", FieldType::Texts, FieldId::PromotionComment),
    ("user", FieldType::Texts, FieldId::PromotionUser),
];

const OF_ITEM: [Rel; 4] = [Rel::Property, Rel::Stat, Rel::Artifact, Rel::Dependency];

const OF_USE: [Rel; 2] = [Rel::Item, Rel::Module];

const OF_MODULE: [Rel; 3] = [Rel::Artifact, Rel::Dependency, Rel::Build];

const OF_BUILD: [Rel; 3] = [Rel::Property, Rel::Module, Rel::Promotion];

const NO_RELATIONS: [Rel; 0] = [];

/// The fields of a domain, in the order in which they are shown.
#[tactic(auto, unfolding(arti_query_model::specs::Table::fields))]
pub fn fields(domain: Rel) -> &'static [Field]
    ensures { map entry_view result.now ≡ table.fields domain }
{
    match domain {
        Rel::Item => &ITEM,
        Rel::Property => &PROPERTY,
        Rel::Stat => &STAT,
        Rel::Artifact => &ARTIFACT,
        Rel::Dependency => &DEPENDENCY,
        Rel::Module => &MODULE,
        Rel::Build => &BUILD,
        Rel::Promotion => &PROMOTION,
    }
}

// The relations of a domain, in the order in which their lists are shown.
#[tactic(auto, unfolding(arti_query_model::specs::Table::relations))]
fn relations(domain: Rel) -> &'static [Rel]
    ensures { result.now ≡ table.relations domain }
{
    match domain {
        Rel::Item => &OF_ITEM,
        Rel::Artifact | Rel::Dependency => &OF_USE,
        Rel::Module => &OF_MODULE,
        Rel::Build => &OF_BUILD,
        Rel::Property | Rel::Stat | Rel::Promotion => &NO_RELATIONS,
    }
}

/// The name of a relation in a path.
#[tactic(auto, unfolding(arti_query_model::specs::Table::relation_name))]
pub fn relation_name(rel: Rel) -> &'static str
    ensures { result.now ≡ table.relation_name rel }
{
    match rel {
        Rel::Property => "property",
        Rel::Stat => "stat",
        Rel::Artifact => "artifact",
        Rel::Dependency => "dependency",
        Rel::Item => "item",
        Rel::Module => "module",
        Rel::Build => "build",
        Rel::Promotion => "promotion",
    }
}

fn is_equality(op: Op) -> bool
    ensures { result ≡ table.is_equality op }
{
    matches!(op, Op::Eq | Op::Ne)
}

fn is_order(op: Op) -> bool
    ensures { result ≡ table.is_order op }
{
    matches!(op, Op::Gt | Op::Gte | Op::Lt | Op::Lte)
}

fn is_pattern(op: Op) -> bool
    ensures { result ≡ table.is_pattern op }
{
    matches!(op, Op::Match | Op::Nmatch)
}

// How long ago it was.
fn is_age(op: Op) -> bool
    ensures { result ≡ table.is_age op }
{
    matches!(op, Op::Before | Op::Last)
}

/// Whether a field with these values takes the operator.
#[tactic(auto, unfolding(arti_query_model::specs::Table::takes))]
pub fn takes(values: FieldType, op: Op) -> bool
    ensures { result ≡ table.takes values op }
{
    match values {
        FieldType::Texts => is_equality(op) || is_order(op) || is_pattern(op),
        FieldType::Numbers => is_equality(op) || is_order(op),
        FieldType::Dates => is_equality(op) || is_order(op) || is_age(op),
        FieldType::Kinds => is_equality(op),
        FieldType::Lists => false,
    }
}

/// Whether two texts are one.
pub fn same(a: &str, b: &str) -> bool
    ensures { result ≡ bytes_eq a.now b.now }
{
    a == b
}

/// The first of these fields that has this name.
pub fn named_field(fields: &[Field], name: &str) -> Option<(FieldType, FieldId)>
    ensures { result ≡ option_map meaning (table.named_entry name.now (map entry_view fields.now)) }
{
    for field in fields {
        if same(name, field.0) {
            return Some((field.1, field.2));
        }
    }
    None
}

fn named_relation(rels: &[Rel], name: &str) -> Option<Rel>
    ensures { result ≡ table.named_relation name.now rels.now }
{
    for rel in rels {
        if same(name, relation_name(*rel)) {
            return Some(*rel);
        }
    }
    None
}

/// The field of a domain that has this name, and what values it has.
#[tactic(auto, unfolding(arti_query_model::specs::Table::field_of))]
pub fn field_of(domain: Rel, name: &str) -> Option<(FieldType, FieldId)>
    ensures { result ≡ option_map meaning (table.field_of domain name.now) }
{
    named_field(fields(domain), name)
}

// The fields that are shown of a root where none is named: the first ten of an item, all of a build.
#[tactic(auto, unfolding(arti_query_model::specs::Table::fields))]
fn shown_at_first(root: Rel) -> &'static [Field]
    ensures { map entry_view result.now ≡ typed.shown_at_first root }
{
    match root {
        Rel::Item => &ITEM[..10],
        _ => fields(root),
    }
}

/// Whether a field of this name is shown of a root where none is named.
pub fn is_shown_at_first(root: Rel, name: &str) -> bool
    ensures { result ≡ typed.is_shown_at_first root name.now }
{
    named_field(shown_at_first(root), name).is_some()
}

/// The relation of a domain that has this name.
#[tactic(auto, unfolding(arti_query_model::specs::Table::relation_of))]
pub fn relation_of(domain: Rel, name: &str) -> Option<Rel>
    ensures { result ≡ table.relation_of domain name.now }
{
    named_relation(relations(domain), name)
}

/// Whether rows of a domain have properties.
pub fn has_properties(domain: Rel) -> bool
    ensures { result ≡ table.has_properties domain }
{
    matches!(domain, Rel::Item | Rel::Build)
}
