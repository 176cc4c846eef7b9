// Rows that go, and their places in the default order.
ghost use Rattle.std.specs.Prelude.{◌≡◌, ◌==◌, ℕ, true, if◌then◌else◌, IsSome, None};
ghost use Rattle.arti_tree.specs.Rows.{without_row, without_rows};
ghost use Rattle.arti_tree.specs.Slots.{at, live};
ghost use Rattle.arti_tree.specs.Kept.{Ordered};
ghost use Rattle.arti_tree.specs.Renames.{has, Differ, Once};

use crate::blocks::Blocks;
use crate::searching::place_of;
use crate::slot::{Slot, empty, slot_of};

/// A live row goes.
pub(crate) fn fell(slots: &mut Vec<Option<Slot>>, order: &mut Blocks, id: u32)
    requires live { IsSome (at slots.old.items id) }
    requires differ { Differ (live 0 slots.old.items) }
    requires order { Ordered (live 0 slots.old.items) order.old.items }
    ensures rows { live 0 slots.new.items ≡ without_row id (live 0 slots.old.items) }
    ensures each { (i : ℕ) → at slots.new.items i ≡ (if i == id then None else at slots.old.items i) }
    ensures differ { Differ (live 0 slots.new.items) }
    ensures order { Ordered (live 0 slots.new.items) order.new.items }
{
    let Some(slot) = slot_of(slots, id) else {
        unreachable!();
    };
    let Ok(place) = place_of(
        slots,
        order,
        slot.key.repo.as_str(),
        slot.key.path.as_str(),
        slot.key.name.as_str(),
    ) else {
        unreachable!();
    };
    order.remove(place);
    empty(slots, id);
}

/// Live rows go.
pub(crate) fn fell_all(slots: &mut Vec<Option<Slot>>, order: &mut Blocks, ids: &[u32])
    requires live { (i : ℕ) → has ids.now i ≡ true → IsSome (at slots.old.items i) }
    requires once { Once ids.now }
    requires differ { Differ (live 0 slots.old.items) }
    requires order { Ordered (live 0 slots.old.items) order.old.items }
    ensures rows { live 0 slots.new.items ≡ without_rows ids.now (live 0 slots.old.items) }
    ensures each { (i : ℕ) → at slots.new.items i ≡ (if has ids.now i then None else at slots.old.items i) }
    ensures order { Ordered (live 0 slots.new.items) order.new.items }
{
    for id in ids {
        fell(slots, order, *id);
    }
}
