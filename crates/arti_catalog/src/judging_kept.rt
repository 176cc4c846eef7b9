// Why an edit of what is there is refused.
ghost use Rattle.std.specs.Prelude.{◌≡◌, ◌&&◌, not, true, nat_lt, length, option_map, None, IfOk};
ghost use Rattle.std.specs.List.{list_any};
ghost use Rattle.arti_rows.specs.declared.refusal.Refusal.TheVariants as refusal;
ghost use Rattle.arti_rows.specs.declared.refusal.Which.TheVariants.{Properties};
ghost use Rattle.arti_model.specs.Store.{has_item};
ghost use Rattle.arti_model.specs.Apply.{is_local, refused_if};
ghost use Rattle.arti_model.specs.Edits.{refused_unless_there, is_too_much, has_no_room, items_within, most_props, props_set};
ghost use Rattle.arti_catalog.specs.Held.{Fits, items_of};
ghost use Rattle.arti_catalog.specs.Judged.{Judges, gets_too_many};

use crate::judging::judge_repo;
use crate::pairs::with_set;
use crate::parts::Parts;
use crate::rows::Rows;
use arti_rows::{ItemKey, Property, Refusal, Which};
use std::alloc::{AllocError, Global};

/// Of an item that is removed with all beneath it.
pub(crate) fn judge_remove(alloc: Global, parts: &Parts, key: &ItemKey) -> Result<(), Refusal>
    requires { Fits parts.now.tree parts.now.rows }
    ensures { Judges result (refused_unless_there (items_of parts.now.tree parts.now.rows) key.now (refused_if (is_too_much (items_of parts.now.tree parts.now.rows) key.now) refusal.TooManyItems None)) }
{
    judge_there(parts, key)?;
    judge_many(alloc, parts, key)
}

/// Of properties that are set.
pub(crate) fn judge_set(
    alloc: Global,
    parts: &Parts,
    key: &ItemKey,
    deep: bool,
    named: &[Property],
) -> Result<(), Refusal>
    requires { Fits parts.now.tree parts.now.rows }
    ensures { Judges result (refused_unless_there (items_of parts.now.tree parts.now.rows) key.now (refused_if (deep && is_too_much (items_of parts.now.tree parts.now.rows) key.now) refusal.TooManyItems
        (refused_if (has_no_room (items_of parts.now.tree parts.now.rows) deep key.now named.now) (refusal.Full Properties) None))) }
{
    judge_unset(alloc, parts, key, deep)?;
    judge_pairs(alloc, parts, key, deep, named)
}

/// Of properties that go.
pub(crate) fn judge_unset(
    alloc: Global,
    parts: &Parts,
    key: &ItemKey,
    deep: bool,
) -> Result<(), Refusal>
    requires { Fits parts.now.tree parts.now.rows }
    ensures { Judges result (refused_unless_there (items_of parts.now.tree parts.now.rows) key.now (refused_if (deep && is_too_much (items_of parts.now.tree parts.now.rows) key.now) refusal.TooManyItems None)) }
{
    judge_there(parts, key)?;
    if deep {
        return judge_many(alloc, parts, key);
    }
    Ok(())
}

// The item is there.
fn judge_there(parts: &Parts, key: &ItemKey) -> Result<(), Refusal>
    requires { Fits parts.now.tree parts.now.rows }
    ensures { Judges result (refused_unless_there (items_of parts.now.tree parts.now.rows) key.now None) }
{
    judge_repo(key)?;
    if !parts.has(key) {
        return Err(Refusal::NotFound(key.clone()?));
    }
    Ok(())
}

// No more items are touched than one edit may.
fn judge_many(alloc: Global, parts: &Parts, key: &ItemKey) -> Result<(), Refusal>
    requires fits { Fits parts.now.tree parts.now.rows }
    requires there { has_item (items_of parts.now.tree parts.now.rows) key.now ≡ true }
    ensures { Judges result (refused_if (is_too_much (items_of parts.now.tree parts.now.rows) key.now) refusal.TooManyItems None) }
{
    if count_within(alloc, parts, key)? > 16_384 {
        return Err(Refusal::TooManyItems);
    }
    Ok(())
}

// How many items are the one of a key or lie beneath it.
fn count_within(alloc: Global, parts: &Parts, key: &ItemKey) -> Result<usize, AllocError>
    requires fits { Fits parts.now.tree parts.now.rows }
    requires there { has_item (items_of parts.now.tree parts.now.rows) key.now ≡ true }
    ensures { IfOk result (λ n. n ≡ length (items_within key.now (items_of parts.now.tree parts.now.rows))) }
{
    let ids = parts.within(alloc, key)?;
    Ok(ids.len())
}

// No item gets too many properties.
fn judge_pairs(
    alloc: Global,
    parts: &Parts,
    key: &ItemKey,
    deep: bool,
    named: &[Property],
) -> Result<(), Refusal>
    requires fits { Fits parts.now.tree parts.now.rows }
    requires there { has_item (items_of parts.now.tree parts.now.rows) key.now ≡ true }
    ensures { Judges result (refused_if (has_no_room (items_of parts.now.tree parts.now.rows) deep key.now named.now) (refusal.Full Properties) None) }
{
    if has_no_room(alloc, parts, key, deep, named)? {
        return Err(Refusal::Full(Which::Properties));
    }
    Ok(())
}

// Whether some item would get too many properties.
fn has_no_room(
    alloc: Global,
    parts: &Parts,
    key: &ItemKey,
    deep: bool,
    named: &[Property],
) -> Result<bool, AllocError>
    requires fits { Fits parts.now.tree parts.now.rows }
    requires there { has_item (items_of parts.now.tree parts.now.rows) key.now ≡ true }
    ensures { IfOk result (λ b. b ≡ has_no_room (items_of parts.now.tree parts.now.rows) deep key.now named.now) }
{
    let ids = parts.acted_on(alloc, deep, key)?;
    let any = any_gets_too_many(alloc, &parts.rows, &ids, named)?;
    Ok(any)
}

// Whether the row of one of the ids would get too many properties.
fn any_gets_too_many(
    alloc: Global,
    rows: &Rows,
    ids: &[u32],
    named: &[Property],
) -> Result<bool, AllocError>
    ensures { IfOk result (λ b. b ≡ list_any (gets_too_many named.now rows.now) ids.now) }
{
    for id in ids {
        if gets_too_many(alloc, rows, *id, named)? {
            return Ok(true);
        }
    }
    Ok(false)
}

// Whether the row of an id would get too many properties.
fn gets_too_many(
    alloc: Global,
    rows: &Rows,
    id: u32,
    named: &[Property],
) -> Result<bool, AllocError>
    ensures { IfOk result (λ b. b ≡ gets_too_many named.now rows.now id) }
{
    match rows.get(id) {
        Some(row) => Ok(has_too_many(alloc, named, row.props.as_slice())?),
        None => Ok(false),
    }
}

// Whether these properties would be too many.
fn has_too_many(alloc: Global, named: &[Property], props: &[Property]) -> Result<bool, AllocError>
    ensures { IfOk result (λ b. b ≡ nat_lt most_props (length (props_set named.now props.now))) }
{
    let set = with_set(alloc, named, props)?;
    Ok(set.len() > 1_024)
}
