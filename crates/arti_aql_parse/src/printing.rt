//! The printed form of a query.
ghost use Rattle.std.specs.Prelude.{◌≡◌, ◌≤◌, ◌++◌, ℕ, List, length, IfOk, OnOk, string_bytes};
ghost use Rattle.arti_aql_parse.specs.Print.{order_text, include_text, sort_text, offset_text, limit_text, distinct_text, suffixes_text, head_text, printed};
ghost use Rattle.arti_aql_parse.specs.Spellable.{HasSpelling};
ghost use Rattle.arti_aql_parse.specs.Spelling.{Spells, most_bytes};
ghost use Rattle.arti_aql_parse.specs.View.{view};

use crate::print_parts::{push_number, push_texts};
use crate::print_tree::push_objects;
use crate::query::{Query, Sort};
use crate::reading::MOST_LEVELS;
use arti_rows::{Seq, Text};
use std::alloc::{AllocError, Global};

// The names before the objects, and the opening parenthesis.
#[tactic(auto, unfolding(crate::specs::Print::head_text))]
fn push_head(out: &mut String, domain: &str) -> Result<(), AllocError>
    ensures { OnOk result (string_bytes out.new ≡ string_bytes out.old ++ head_text domain.now) }
{
    if domain.is_empty() {
        return out.push_str("find(");
    }
    out.push_str(domain)?;
    out.push_str(".find(")
}

#[tactic(auto, unfolding(crate::specs::Print::include_text))]
fn push_include(
    alloc: Global,
    out: &mut String,
    include: &Option<Seq<Text>>,
) -> Result<(), AllocError>
    ensures { OnOk result (string_bytes out.new ≡ string_bytes out.old ++ include_text include.now) }
{
    let Some(texts) = include else {
        return Ok(());
    };
    out.push_str(".include(")?;
    push_texts(alloc, out, texts.as_slice())?;
    out.push_str(")")
}

fn push_order(out: &mut String, descending: bool) -> Result<(), AllocError>
    ensures { OnOk result (string_bytes out.new ≡ string_bytes out.old ++ order_text descending) }
{
    if descending {
        out.push_str(".sort({\"$desc\":[")
    } else {
        out.push_str(".sort({\"$asc\":[")
    }
}

#[tactic(auto, unfolding(crate::specs::Print::sort_text))]
fn push_sort(alloc: Global, out: &mut String, sort: &Option<Sort>) -> Result<(), AllocError>
    ensures { OnOk result (string_bytes out.new ≡ string_bytes out.old ++ sort_text sort.now) }
{
    let Some(sort) = sort else {
        return Ok(());
    };
    push_order(out, sort.descending)?;
    push_texts(alloc, out, sort.fields.as_slice())?;
    out.push_str("]})")
}

#[tactic(auto, unfolding(crate::specs::Print::offset_text))]
fn push_offset(alloc: Global, out: &mut String, offset: Option<u64>) -> Result<(), AllocError>
    ensures { OnOk result (string_bytes out.new ≡ string_bytes out.old ++ offset_text offset) }
{
    let Some(offset) = offset else {
        return Ok(());
    };
    out.push_str(".offset(")?;
    push_number(alloc, out, offset)?;
    out.push_str(")")
}

#[tactic(auto, unfolding(crate::specs::Print::limit_text))]
fn push_limit(alloc: Global, out: &mut String, limit: Option<u64>) -> Result<(), AllocError>
    ensures { OnOk result (string_bytes out.new ≡ string_bytes out.old ++ limit_text limit) }
{
    let Some(limit) = limit else {
        return Ok(());
    };
    out.push_str(".limit(")?;
    push_number(alloc, out, limit)?;
    out.push_str(")")
}

#[tactic(auto, unfolding(crate::specs::Print::distinct_text))]
fn push_distinct(out: &mut String, distinct: Option<bool>) -> Result<(), AllocError>
    ensures { OnOk result (string_bytes out.new ≡ string_bytes out.old ++ distinct_text distinct) }
{
    match distinct {
        None => Ok(()),
        Some(true) => out.push_str(".distinct(true)"),
        Some(false) => out.push_str(".distinct(false)"),
    }
}

#[tactic(auto, unfolding(crate::specs::Print::suffixes_text))]
fn push_suffixes(alloc: Global, out: &mut String, query: &Query) -> Result<(), AllocError>
    ensures { OnOk result (string_bytes out.new ≡ string_bytes out.old ++ suffixes_text (view query.now).suffixes) }
{
    push_include(alloc, out, &query.include)?;
    push_sort(alloc, out, &query.sort)?;
    push_offset(alloc, out, query.offset)?;
    push_limit(alloc, out, query.limit)?;
    push_distinct(out, query.distinct)
}

/// The text of a query, which spells it where a text does: without a space, with the shortest escapes, the literal alone for a
/// single `$eq`, and the suffixes from `include` to `distinct`. What is nested deeper than 32 braces and brackets is left out, so
/// the stack goes no deeper than that.
#[tactic(auto, unfolding(crate::specs::Print::printed))]
pub fn print(alloc: Global, query: &Query) -> Result<Text, AllocError>
    ensures text { IfOk result (λ text. text ≡ printed (view query.now)) }
    // Where the query has a spelling and this text isn't too long, it is one.
    ensures spells { IfOk result (λ text. HasSpelling (view query.now) → length text ≤ most_bytes → Spells text (view query.now)) }
    // Where some text spells the query, this one does, and it is no longer.
    ensures shortest { IfOk result (λ text. (other : List ℕ) → Spells other (view query.now) → Spells text (view query.now) × (length text ≤ length other)) }
{
    let mut out = String::new(alloc);
    push_head(&mut out, query.domain.as_str())?;
    push_objects(alloc, &mut out, query.find.as_slice(), MOST_LEVELS)?;
    out.push_str(")")?;
    push_suffixes(alloc, &mut out, query)?;
    Ok(Text::from_string(out))
}
