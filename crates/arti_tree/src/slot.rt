// What is kept of a row under its id.
ghost use Rattle.std.specs.Prelude.{◌≡◌, ◌==◌, ℕ, ◌<◌, ◌≤◌, if◌then◌else◌, length, vec_len, vec_capacity, option_map, OnOk, Some, None};
ghost use Rattle.arti_tree.specs.Renames.{rekeyed};
ghost use Rattle.arti_tree.specs.Rows.{with_row, without_row};
ghost use Rattle.arti_tree.specs.Slots.{at, live, row_with};

use crate::blocks::Blocks;
use arti_rows::ItemKey;
use std::alloc::{AllocError, Global};

/// A row, without its id.
#[derive(Drop)]
pub(crate) struct Slot {
    pub(crate) key: ItemKey,
    pub(crate) is_file: bool,
}

/// The row of an id, where it is live.
pub(crate) fn slot_of(slots: &[Option<Slot>], id: u32) -> Option<&Slot>
    ensures { option_map (λ s. s.now) result ≡ at slots.now id }
{
    let id = id as usize;
    if id >= slots.len() {
        return None;
    }
    match &slots[id] {
        Some(slot) => Some(slot),
        None => None,
    }
}

/// A slot that is empty, or stands behind the last one, is filled.
pub(crate) fn fill(slots: &mut Vec<Option<Slot>>, id: u32, slot: Slot)
    requires within { id ≤ length slots.old.items }
    requires room { vec_len slots.old < vec_capacity slots.old }
    requires empty { at slots.old.items id ≡ None }
    ensures more { live 0 slots.new.items ≡ with_row (row_with id slot) (live 0 slots.old.items) }
    ensures each { (i : ℕ) → at slots.new.items i ≡ (if i == id then Some slot else at slots.old.items i) }
    ensures long { (n : ℕ) → length slots.old.items ≤ n → id < n → length slots.new.items ≤ n }
{
    let place = id as usize;
    if place < slots.len() {
        slots[place] = Some(slot);
    } else {
        let _ = slots.push(Some(slot));
    }
}

/// A slot is emptied.
pub(crate) fn empty(slots: &mut Vec<Option<Slot>>, id: u32)
    requires { id < length slots.old.items }
    ensures less { live 0 slots.new.items ≡ without_row id (live 0 slots.old.items) }
    ensures each { (i : ℕ) → at slots.new.items i ≡ (if i == id then None else at slots.old.items i) }
    ensures long { length slots.new.items ≡ length slots.old.items }
{
    slots[id as usize] = None;
}

/// A row gets another key.
pub(crate) fn set_key(slots: &mut Vec<Option<Slot>>, id: u32, key: ItemKey)
    ensures rows { live 0 slots.new.items ≡ rekeyed id key (live 0 slots.old.items) }
    ensures long { length slots.new.items ≡ length slots.old.items }
{
    let Some(slot) = slot_of(slots, id) else {
        return;
    };
    let is_file = slot.is_file;
    slots[id as usize] = Some(Slot { key, is_file });
}

/// Room for one row more.
pub(crate) fn make_room(
    slots: &mut Vec<Option<Slot>>,
    all: &mut Vec<u32>,
    order: &mut Blocks,
    alloc: Global,
) -> Result<(), AllocError>
    ensures slots { slots.new.items ≡ slots.old.items }
    ensures all { all.new.items ≡ all.old.items }
    ensures order { order.new.items ≡ order.old.items }
    ensures slots_room { OnOk result (vec_len slots.new < vec_capacity slots.new) }
    ensures all_room { OnOk result (vec_len all.new < vec_capacity all.new) }
    ensures order_room { OnOk result (0 < order.new.room) }
{
    slots.reserve(1)?;
    all.reserve(1)?;
    order.make_room(alloc, 1)?;
    Ok(())
}
