// Rows under their ids.
ghost use Rattle.std.specs.Prelude.{◌≡◌, ◌≢◌, ℕ, [], ◌<◌, IfOk, OnOk, None, map, slice_index_or, length};
ghost use Rattle.std.specs.Option.{option_copied};
ghost use Rattle.arti_catalog.specs.Boxes.{opened};
ghost use Rattle.arti_catalog.specs.Held.{at, IsSet};

use arti_rows::{ItemRow, Property, Seq, Stat};
use std::alloc::{AllocError, Global};
use std::marker::Model;

/// Rows under their ids. Contracts see what stands at each id.
#[derive(Drop)]
pub(crate) struct Rows {
    alloc: Global,
    // Each row takes memory of its own, so that the places that are kept free are small.
    slots: Vec<Option<Box<ItemRow>>>,
}

impl Model for Rows {
    ghost use Rattle.std.specs.Prelude.{List, Option, map};
    ghost use Rattle.arti_rows.specs.declared.rows.ItemRow.{ItemRow};
    ghost use Rattle.arti_catalog.specs.Boxes.{opened};

    ghost Value = { List (Option ItemRow) };

    ghost view = { λ r. map opened r.slots.items };
}

impl Rows {
    pub(crate) fn new(alloc: Global) -> Rows
        ensures { result ≡ [] }
    {
        Rows {
            alloc,
            slots: Vec::new(alloc),
        }
    }

    /// The row of an id.
    pub(crate) fn get(&self, id: u32) -> Option<&ItemRow>
        ensures { option_copied result ≡ at self.now id }
    {
        let id = id as usize;
        if id >= self.slots.len() {
            return None;
        }
        match &self.slots[id] {
            Some(row) => Some(row.as_ref()),
            None => None,
        }
    }

    /// Puts a row at an id, in the place of what stands there.
    pub(crate) fn put(&mut self, id: u32, row: ItemRow) -> Result<(), AllocError>
        ensures { OnOk result (IsSet self.old self.new id row) }
    {
        let row = Box::new(self.alloc, row)?;
        grow(&mut self.slots, id as usize)?;
        self.slots[id as usize] = Some(row);
        Ok(())
    }

    /// The same rows once more.
    pub(crate) fn copy(&self) -> Result<Rows, AllocError>
        ensures { IfOk result (λ r. r ≡ self.now) }
    {
        Ok(Rows {
            alloc: self.alloc,
            slots: slot_copies(self.alloc, &self.slots)?,
        })
    }

    /// Takes the row of an id away.
    pub(crate) fn take(&mut self, id: u32) -> Option<ItemRow>
        ensures row { result ≡ at self.old id }
        ensures gone { at self.new id ≡ None }
        ensures others { (i : ℕ) → i ≢ id → at self.new i ≡ at self.old i }
    {
        let id = id as usize;
        if id >= self.slots.len() {
            return None;
        }
        match self.slots[id].take() {
            Some(row) => Some(Box::into_inner(row)),
            None => None,
        }
    }
}

// What stands at each id once more.
fn slot_copies(
    alloc: Global,
    slots: &[Option<Box<ItemRow>>],
) -> Result<Vec<Option<Box<ItemRow>>>, AllocError>
    ensures { IfOk result (λ v. map opened v.items ≡ map opened slots.now) }
{
    let mut copies = Vec::with_capacity(alloc, slots.len())?;
    for slot in slots {
        copies.push(slot_copy(alloc, slot)?)?;
    }
    Ok(copies)
}

// What stands at an id once more.
fn slot_copy(alloc: Global, slot: &Option<Box<ItemRow>>) -> Result<Option<Box<ItemRow>>, AllocError>
    ensures { IfOk result (λ s. opened s ≡ opened slot.now) }
{
    match slot {
        None => Ok(None),
        Some(row) => Ok(Some(Box::new(alloc, row_copy(alloc, row.as_ref())?)?)),
    }
}

// A row once more.
fn row_copy(alloc: Global, row: &ItemRow) -> Result<ItemRow, AllocError>
    ensures { IfOk result (λ r. r ≡ row.now) }
{
    Ok(ItemRow {
        key: row.key.clone()?,
        created: row.created,
        created_by: row.created_by.clone()?,
        modified: row.modified,
        modified_by: row.modified_by.clone()?,
        updated: row.updated,
        given: row.given,
        file: row.file,
        props: Seq::from_vec(copies(alloc, row.props.as_slice())?),
        stat: stat_copy(&row.stat)?,
    })
}

// What was told of downloads once more.
fn stat_copy(stat: &Option<Stat>) -> Result<Option<Stat>, AllocError>
    ensures { IfOk result (λ s. s ≡ stat.now) }
{
    match stat {
        None => Ok(None),
        Some(stat) => Ok(Some(Stat {
            downloads: stat.downloads,
            downloaded: stat.downloaded,
            downloaded_by: stat.downloaded_by.clone()?,
        })),
    }
}

/// A copy of properties.
pub(crate) fn copies(alloc: Global, props: &[Property]) -> Result<Vec<Property>, AllocError>
    ensures { IfOk result (λ v. v.items ≡ props.now) }
{
    let mut copies = Vec::with_capacity(alloc, props.len())?;
    for pair in props {
        copies.push(pair.clone()?)?;
    }
    Ok(copies)
}

// There is a place at an id; new ones are empty.
fn grow(slots: &mut Vec<Option<Box<ItemRow>>>, id: usize) -> Result<(), AllocError>
    ensures long { OnOk result (id < length slots.new.items) }
    ensures each { OnOk result ((i : ℕ) → slice_index_or slots.new.items i None ≡ slice_index_or slots.old.items i None) }
{
    while slots.len() <= id {
        slots.push(None)?;
    }
    Ok(())
}
