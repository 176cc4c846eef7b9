// Rows under ids.
ghost use Rattle.std.specs.Prelude.{◌≡◌, [], Some, IfOk, OnOk, OnErr, option_map, option_copied, box_value};
ghost use Rattle.std.specs.Ordering.{nat_cmp};
ghost use Rattle.std.specs.BTreeMap.{is_at};
ghost use Rattle.std.specs.Map.{lookup, keys_of};
ghost use Rattle.std.specs.List.Sorted.{IsStrictlySortedBy};
ghost use Rattle.arti_props.specs.Rows.{set_row, drop_row};

use crate::row::Row;
use std::alloc::{AllocError, Global};
use std::collections::BTreeMap;
use std::marker::Model;

/// Rows under ids. Each takes memory of its own, so that the places that a map keeps free are small.
#[derive(Drop)]
pub(crate) struct Rows {
    boxes: BTreeMap<u32, Box<Row>>,
}

impl Model for Rows {
    ghost use Rattle.std.specs.Prelude.{ℕ, List};
    ghost use Rattle.arti_props.specs.declared.row.Row.{Row};
    ghost use Rattle.arti_props.specs.Boxes.{opened};

    ghost Value = { List (ℕ × Row) };

    ghost view = { λ r. opened r.boxes.entries };
}

impl Rows {
    pub(crate) fn new(alloc: Global) -> Rows
        ensures { result ≡ [] }
    {
        Rows {
            boxes: BTreeMap::new(alloc),
        }
    }

    /// The row under an id.
    pub(crate) fn get(&self, id: u32) -> Option<&Row>
        ensures { option_copied result ≡ lookup (is_at (nat_cmp id)) self.now }
    {
        match self.boxes.get(&id) {
            Some(row) => Some(row.as_ref()),
            None => None,
        }
    }

    /// Puts a row under an id, and gives what stood there.
    pub(crate) fn put(
        &mut self,
        alloc: Global,
        id: u32,
        row: Row,
    ) -> Result<Option<Row>, AllocError>
        requires { IsStrictlySortedBy nat_cmp (keys_of self.old) }
        ensures old { IfOk result (λ old. old ≡ lookup (is_at (nat_cmp id)) self.old) }
        ensures rows { OnOk result (self.new ≡ set_row id row self.old) }
        ensures there { OnOk result (lookup (is_at (nat_cmp id)) self.new ≡ Some row) }
        ensures unchanged { OnErr result (self.new ≡ self.old) }
        ensures ordered { IsStrictlySortedBy nat_cmp (keys_of self.new) }
    {
        let row = Box::new(alloc, row)?;
        let old = self.boxes.insert(id, row)?;
        Ok(opened(old))
    }

    /// Takes away the row under an id.
    pub(crate) fn take(&mut self, id: u32) -> Option<Row>
        requires { IsStrictlySortedBy nat_cmp (keys_of self.old) }
        ensures old { result ≡ lookup (is_at (nat_cmp id)) self.old }
        ensures rows { self.new ≡ drop_row id self.old }
        ensures ordered { IsStrictlySortedBy nat_cmp (keys_of self.new) }
    {
        opened(self.boxes.remove(&id))
    }
}

fn opened(row: Option<Box<Row>>) -> Option<Row>
    ensures { result ≡ option_map box_value row }
{
    match row {
        Some(row) => Some(Box::into_inner(row)),
        None => None,
    }
}
