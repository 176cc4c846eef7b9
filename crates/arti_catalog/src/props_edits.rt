// Properties of items that change.
ghost use Rattle.std.specs.Prelude.{◌≡◌, ℕ, ◌==◌, true, if◌then◌else◌, option_map, IfOk, OnOk};
ghost use Rattle.arti_tree.specs.Ids.{AscendFrom};
ghost use Rattle.arti_model.specs.Store.{has_item};
ghost use Rattle.arti_model.specs.Edits.{with_changed_props};
ghost use Rattle.arti_catalog.specs.Held.{Fits, at, items_of};
ghost use Rattle.arti_catalog.specs.PropsEdits.{AllChanged, changed_by, changed_row};

use crate::pairs::{with_set, without};
use crate::parts::Parts;
use crate::rows::Rows;
use arti_rows::{ItemKey, ItemRow, Moment, Property, Text};
use std::alloc::{AllocError, Global};

/// What is done to properties.
#[derive(Drop)]
pub(crate) enum PropsEdit<'a> {
    /// The values of each key that is named are replaced.
    Set(&'a [Property]),
    /// Those of these keys go.
    Unset(&'a [Text]),
}

/// The properties of the item of a key change, and where it is deep those of the items beneath it too.
pub(crate) fn change_props(
    alloc: Global,
    parts: &mut Parts,
    moment: Moment,
    deep: bool,
    key: &ItemKey,
    edit: &PropsEdit<'_>,
) -> Result<(), AllocError>
    requires fits { Fits parts.old.tree parts.old.rows }
    requires there { has_item (items_of parts.old.tree parts.old.rows) key.now ≡ true }
    ensures fits { OnOk result (Fits parts.new.tree parts.new.rows) }
    ensures keys { parts.new.tree ≡ parts.old.tree }
    ensures done { OnOk result (items_of parts.new.tree parts.new.rows ≡ with_changed_props (items_of parts.old.tree parts.old.rows) moment deep key.now (changed_by edit.now)) }
{
    parts.tree.rules();
    let ids = parts.acted_on(alloc, deep, key)?;
    change_each(alloc, &mut parts.rows, moment, &ids, edit)?;
    Ok(())
}

// The rows of ids change.
fn change_each(
    alloc: Global,
    rows: &mut Rows,
    moment: Moment,
    ids: &[u32],
    edit: &PropsEdit<'_>,
) -> Result<(), AllocError>
    requires { AscendFrom 0 ids.now }
    ensures { OnOk result (AllChanged ids.now (changed_row moment edit.now) rows.old rows.new) }
{
    for id in ids {
        change_one(alloc, rows, moment, *id, edit)?;
    }
    Ok(())
}

// The row of an id changes.
fn change_one(
    alloc: Global,
    rows: &mut Rows,
    moment: Moment,
    id: u32,
    edit: &PropsEdit<'_>,
) -> Result<(), AllocError>
    ensures { OnOk result ((i : ℕ) → at rows.new i ≡ (if i == id then option_map (changed_row moment edit.now) (at rows.old i) else at rows.old i)) }
{
    let Some(row) = rows.take(id) else {
        return Ok(());
    };
    let row = changed(alloc, row, moment, edit)?;
    rows.put(id, row)?;
    Ok(())
}

// The row with its properties changed.
fn changed(
    alloc: Global,
    mut row: ItemRow,
    moment: Moment,
    edit: &PropsEdit<'_>,
) -> Result<ItemRow, AllocError>
    ensures { IfOk result (λ r. r ≡ changed_row moment edit.now row) }
{
    row.props = match edit {
        PropsEdit::Set(named) => with_set(alloc, named, row.props.as_slice())?,
        PropsEdit::Unset(keys) => without(alloc, keys, row.props.as_slice())?,
    };
    row.updated = moment;
    Ok(row)
}
