// Rows that get other keys, and their places in the default order.
ghost use Rattle.std.specs.Prelude.{◌≡◌, ◌+◌, ◌<◌, ◌≤◌, length, IsSome, None};
ghost use Rattle.arti_tree.specs.Rows.{row_at};
ghost use Rattle.arti_tree.specs.Slots.{at, live};
ghost use Rattle.arti_tree.specs.Kept.{Ordered};
ghost use Rattle.arti_tree.specs.Renames.{CanRekey, Differ, rekeyed, rekeyed_all};

use crate::blocks::Blocks;
use crate::searching::place_of;
use crate::slot::{Slot, set_key, slot_of};
use arti_rows::ItemKey;

/// A live row gets a key that isn't there.
fn rekey(slots: &mut Vec<Option<Slot>>, order: &mut Blocks, id: u32, key: ItemKey)
    requires live { IsSome (at slots.old.items id) }
    requires differ { Differ (live 0 slots.old.items) }
    requires order { Ordered (live 0 slots.old.items) order.old.items }
    requires absent { row_at (live 0 slots.old.items) key ≡ None }
    requires room { 0 < order.old.room }
    ensures rows { live 0 slots.new.items ≡ rekeyed id key (live 0 slots.old.items) }
    ensures differ { Differ (live 0 slots.new.items) }
    ensures order { Ordered (live 0 slots.new.items) order.new.items }
    ensures room { order.old.room ≤ order.new.room + 1 }
    ensures long { length slots.new.items ≡ length slots.old.items }
{
    let Some(slot) = slot_of(slots, id) else {
        unreachable!();
    };
    let Ok(old) = place_of(
        slots,
        order,
        slot.key.repo.as_str(),
        slot.key.path.as_str(),
        slot.key.name.as_str(),
    ) else {
        unreachable!();
    };
    order.remove(old);
    let Err(new) = place_of(
        slots,
        order,
        key.repo.as_str(),
        key.path.as_str(),
        key.name.as_str(),
    ) else {
        unreachable!();
    };
    order.insert(new, id);
    set_key(slots, id, key);
}

/// Live rows get other keys, one after the other.
pub(crate) fn rekey_all(
    slots: &mut Vec<Option<Slot>>,
    order: &mut Blocks,
    ids: &[u32],
    keys: Vec<ItemKey>,
)
    requires each { length ids.now ≡ length keys.items }
    requires can { CanRekey (live 0 slots.old.items) ids.now keys.items }
    requires differ { Differ (live 0 slots.old.items) }
    requires order { Ordered (live 0 slots.old.items) order.old.items }
    requires room { length keys.items ≤ order.old.room }
    ensures rows { live 0 slots.new.items ≡ rekeyed_all ids.now keys.items (live 0 slots.old.items) }
    ensures order { Ordered (live 0 slots.new.items) order.new.items }
    ensures long { length slots.new.items ≡ length slots.old.items }
{
    let mut i = 0usize;
    for key in keys {
        rekey(slots, order, ids[i], key);
        i += 1;
    }
}
