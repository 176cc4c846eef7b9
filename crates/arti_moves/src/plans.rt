// Folders, deletes, and changes of properties.
ghost use Rattle.std.specs.Prelude.{◌≡◌, ◌≤◌, ◌&&◌, length};
ghost use Rattle.std.specs.Option.{option_copied};
ghost use Rattle.arti_rows.specs.declared.edits.Edit.TheVariants as edits;
ghost use Rattle.arti_codec.specs.ChangeBytes.{properties, prop_keys, HasBytes};
ghost use Rattle.arti_model.specs.Apply.{is_local, has_folder};
ghost use Rattle.arti_model.specs.DecideItems.{decide_folder, making, done};
ghost use Rattle.arti_catalog.specs.Held.{items_in};
ghost use Rattle.arti_moves.specs.Moves.{change_in, is_folder_row, Plans, OfChange};

use crate::bytes::key_has_bytes;
use crate::edits::{drop_edit, folder_edit, one_change, remove_edit, set_edit};
use crate::settling::settle;
use arti_catalog::Catalog;
use arti_rows::{Change, ItemKey, ItemRow, Moment, Property, Refusal, Seq, Text};
use std::alloc::Global;

/// Of a folder; one that is there stays as it is.
pub(crate) fn plan_folder(
    alloc: Global,
    catalog: &Catalog,
    key: &ItemKey,
    moment: Moment,
    user: &str,
) -> Result<Option<Change>, Refusal>
    ensures plan { Plans result (change_in (decide_folder catalog.now.limits (items_in catalog.now) moment user.now (λ ref. ref) key.now)) }
    ensures bytes { length user.now ≤ 4096 → OfChange HasBytes result }
{
    if has_folder(catalog, key) {
        return Ok(None);
    }
    key_has_bytes(key);
    let edit = folder_edit(key)?;
    let change = one_change(alloc, moment, user, edit)?;
    let checked = catalog.check(alloc, &change);
    settle(checked, change)
}

/// Of an item that goes with all beneath it.
pub(crate) fn plan_delete(
    alloc: Global,
    catalog: &Catalog,
    key: &ItemKey,
    moment: Moment,
    user: &str,
) -> Result<Option<Change>, Refusal>
    ensures plan { Plans result (change_in (making catalog.now.limits (items_in catalog.now) moment user.now (λ ref. ref) (edits.Remove key.now) done)) }
    ensures bytes { length user.now ≤ 4096 → OfChange HasBytes result }
{
    key_has_bytes(key);
    let edit = remove_edit(key)?;
    let change = one_change(alloc, moment, user, edit)?;
    let checked = catalog.check(alloc, &change);
    settle(checked, change)
}

/// Of properties that are set.
pub(crate) fn plan_set(
    alloc: Global,
    catalog: &Catalog,
    key: &ItemKey,
    deep: bool,
    props: &Seq<Property>,
    moment: Moment,
    user: &str,
) -> Result<Option<Change>, Refusal>
    ensures plan { Plans result (change_in (making catalog.now.limits (items_in catalog.now) moment user.now (λ ref. ref) (edits.SetProps key.now deep props.now) done)) }
    ensures bytes { (properties 1024).keeps props.now → length user.now ≤ 4096 → OfChange HasBytes result }
{
    key_has_bytes(key);
    let edit = set_edit(key, deep, props)?;
    let change = one_change(alloc, moment, user, edit)?;
    let checked = catalog.check(alloc, &change);
    settle(checked, change)
}

/// Of properties that go.
pub(crate) fn plan_drop(
    alloc: Global,
    catalog: &Catalog,
    key: &ItemKey,
    deep: bool,
    keys: &Seq<Text>,
    moment: Moment,
    user: &str,
) -> Result<Option<Change>, Refusal>
    ensures plan { Plans result (change_in (making catalog.now.limits (items_in catalog.now) moment user.now (λ ref. ref) (edits.DropProps key.now deep keys.now) done)) }
    ensures bytes { prop_keys.keeps keys.now → length user.now ≤ 4096 → OfChange HasBytes result }
{
    key_has_bytes(key);
    let edit = drop_edit(key, deep, keys)?;
    let change = one_change(alloc, moment, user, edit)?;
    let checked = catalog.check(alloc, &change);
    settle(checked, change)
}

// Whether the folder that is asked for is there.
fn has_folder(catalog: &Catalog, key: &ItemKey) -> bool
    ensures { result ≡ (is_local key.now && has_folder (items_in catalog.now) key.now) }
{
    key.repo.as_str() == "generic-local" && is_folder_at(catalog, key)
}

// Whether a folder stands at the key.
fn is_folder_at(catalog: &Catalog, key: &ItemKey) -> bool
    ensures { result ≡ has_folder (items_in catalog.now) key.now }
{
    catalog.rules();
    is_folder(catalog.find(key))
}

fn is_folder(row: Option<&ItemRow>) -> bool
    ensures { result ≡ is_folder_row (option_copied row.entry) }
{
    match row {
        Some(row) => row.file.is_none(),
        None => false,
    }
}
