//! What is shown and sorted by.
ghost use Rattle.std.specs.Prelude.{◌≡◌, ◌≢◌, Bool, Ok, Err, IfOk, IfErr, option_map, map, codes};
ghost use Rattle.arti_query_model.specs.declared.fault.TypeFault.TheVariants.{Memory, SortNotShown};
ghost use Rattle.arti_query_model.specs.Outcome.{or_fault, each};
ghost use Rattle.arti_query_model.specs.Paths as paths;
ghost use Rattle.arti_query_model.specs.Typed as typed;
ghost use Rattle.arti_aql_domains.specs.Entries.{entry_view};
ghost use Rattle.arti_aql_domains.specs.Sortable.{shown_entries, sorted_among};

use crate::faults::sort_not_shown;
use crate::paths::shown_of;
use crate::table::{Field, field_of, fields, is_shown_at_first, named_field};
use arti_aql_parse::Sort;
use arti_query_model::{FieldId, FieldType, Rel, Shown, TypeFault};
use arti_rows::Text;
use std::alloc::{AllocError, Global};

/// What the texts of an include show.
pub fn type_shown(alloc: Global, root: Rel, includes: &[Text]) -> Result<Vec<Shown>, TypeFault>
    ensures shows { IfOk result (λ shown. each (paths.shown_of root) includes.now ≡ Ok shown.items) }
    ensures refused { IfErr result (λ f. f ≢ Memory → each (paths.shown_of root) includes.now ≡ Err f) }
{
    let mut shown = Vec::new(alloc);
    for text in includes {
        let part = shown_of(alloc, root, text.as_str())?;
        shown.push(part)?;
    }
    Ok(shown)
}

fn is_among(texts: &[Text], text: &str) -> bool
    ensures { result ≡ typed.is_among texts.now text.now }
{
    texts.iter().any(|other| text == other.as_str())
}

// Whether the name of a root field stands in an include.
fn names_root_field(root: Rel, includes: &[Text]) -> bool
    ensures { result ≡ typed.names_root_field root includes.now }
{
    includes
        .iter()
        .any(|text| field_of(root, text.as_str()).is_some())
}

// Whether a root field of this name is shown: `*` shows all, else those are that are named, or those of the default where none
// is. What can be known of the include without the name was found before.
#[tactic(auto, unfolding(arti_query_model::specs::Typed::is_shown))]
fn is_shown(root: Rel, includes: &[Text], shows_all: bool, names_one: bool, name: &str) -> bool
    requires all { shows_all ≡ typed.is_among includes.now (codes "*") }
    requires one { names_one ≡ typed.names_root_field root includes.now }
    ensures { result ≡ typed.is_shown root includes.now name.now }
{
    if shows_all {
        true
    } else if names_one {
        is_among(includes, name)
    } else {
        is_shown_at_first(root, name)
    }
}

// The root fields that are shown.
fn shown_fields(alloc: Global, root: Rel, includes: &[Text]) -> Result<Vec<Field>, AllocError>
    ensures { IfOk result (λ shown. map entry_view shown.items ≡ shown_entries root includes.now) }
{
    let shows_all = is_among(includes, "*");
    let names_one = names_root_field(root, includes);
    let rows = fields(root);
    let mut shown = Vec::new(alloc);
    for row in rows {
        if is_shown(root, includes, shows_all, names_one, row.0) {
            shown.push(*row)?;
        }
    }
    Ok(shown)
}

fn is_ordered(values: FieldType) -> bool
    ensures { result ≡ typed.is_ordered values }
{
    !matches!(values, FieldType::Lists)
}

// A field of those that are shown, if rows may be sorted by it.
fn sort_field(shown: &[Field], name: &str) -> Option<FieldId>
    ensures { (d : Bool) → sorted_among (map entry_view shown.now) d name.now ≡ or_fault (SortNotShown name.now) (option_map (λ f. (f, d)) result) }
{
    let (values, field) = named_field(shown, name)?;
    if is_ordered(values) {
        Some(field)
    } else {
        None
    }
}

fn type_fields(
    alloc: Global,
    shown: &[Field],
    descending: bool,
    names: &[Text],
) -> Result<Vec<(FieldId, bool)>, TypeFault>
    ensures typed { IfOk result (λ s. each (sorted_among (map entry_view shown.now) descending) names.now ≡ Ok s.items) }
    ensures refused { IfErr result (λ f. f ≢ Memory → each (sorted_among (map entry_view shown.now) descending) names.now ≡ Err f) }
{
    let mut fields = Vec::new(alloc);
    for name in names {
        let Some(field) = sort_field(shown, name.as_str()) else {
            return Err(sort_not_shown(alloc, name.as_str()));
        };
        fields.push((field, descending))?;
    }
    Ok(fields)
}

// By which fields rows are sorted.
fn type_order(
    alloc: Global,
    root: Rel,
    includes: &[Text],
    sort: &Sort,
) -> Result<Vec<(FieldId, bool)>, TypeFault>
    ensures typed { IfOk result (λ s. each (typed.sort_field root includes.now sort.now.descending) sort.now.fields ≡ Ok s.items) }
    ensures refused { IfErr result (λ f. f ≢ Memory → each (typed.sort_field root includes.now sort.now.descending) sort.now.fields ≡ Err f) }
{
    let shown = shown_fields(alloc, root, includes)?;
    type_fields(
        alloc,
        shown.as_slice(),
        sort.descending,
        sort.fields.as_slice(),
    )
}

/// What rows are sorted by.
#[tactic(auto, unfolding(arti_query_model::specs::Typed::sort_of))]
pub fn type_sort(
    alloc: Global,
    root: Rel,
    includes: &[Text],
    sort: &Option<Sort>,
) -> Result<Vec<(FieldId, bool)>, TypeFault>
    ensures typed { IfOk result (λ s. typed.sort_of root includes.now sort.now ≡ Ok s.items) }
    ensures refused { IfErr result (λ f. f ≢ Memory → typed.sort_of root includes.now sort.now ≡ Err f) }
{
    match sort {
        Some(sort) => type_order(alloc, root, includes, sort),
        None => Ok(Vec::new(alloc)),
    }
}
