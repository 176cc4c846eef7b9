// Items that go.
ghost use Rattle.std.specs.Prelude.{◌≡◌, ℕ, true, false, not, filter, OnOk};
ghost use Rattle.arti_rows.specs.declared.limits.Limits.{Limits};
ghost use Rattle.arti_tree.specs.Renames.{has, without_within};
ghost use Rattle.arti_model.specs.Store.{has_item};
ghost use Rattle.arti_model.specs.Edits.{is_within, items_without};
ghost use Rattle.arti_catalog.specs.Held.{Fits, Keeps, at, items_of};

use crate::parts::Parts;
use crate::rows::Rows;
use arti_rows::ItemKey;
use arti_tree::Tree;
use std::alloc::{AllocError, Global};

/// An item goes with all beneath it.
pub(crate) fn remove(alloc: Global, parts: &mut Parts, key: &ItemKey) -> Result<(), AllocError>
    requires fits { Fits parts.old.tree parts.old.rows }
    requires there { has_item (items_of parts.old.tree parts.old.rows) key.now ≡ true }
    ensures fits { OnOk result (Fits parts.new.tree parts.new.rows) }
    ensures keeps { OnOk result ((limits : Limits) → Keeps limits parts.old.tree → Keeps limits parts.new.tree) }
    ensures done { OnOk result (items_of parts.new.tree parts.new.rows ≡ items_without key.now (items_of parts.old.tree parts.old.rows)) }
{
    parts.tree.rules();
    let ids = parts.within(alloc, key)?;
    let Some(id) = parts.tree.get(key) else {
        return Ok(());
    };
    drop_within(&mut parts.tree, id);
    parts.tree.rules();
    let _ = parts.tree.ordered();
    clear(&mut parts.rows, &ids);
    Ok(())
}

// The key of an id goes, and those beneath it.
fn drop_within(tree: &mut Tree, id: u32)
    ensures { tree.new ≡ without_within tree.old id }
{
    tree.remove_within(id);
}

// The rows of these ids go.
fn clear(rows: &mut Rows, ids: &[u32])
    ensures { (i : ℕ) → has ids.now i ≡ false → at rows.new i ≡ at rows.old i }
{
    for id in ids {
        let _ = rows.take(*id);
    }
}
