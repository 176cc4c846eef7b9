// Rows that are lent.
ghost use Rattle.std.specs.Prelude.{◌≡◌, ℕ, ◌<◌, length, slice_index_or, Some, option_map};
ghost use Rattle.arti_catalog.specs.Held.{no_row};

use crate::rows::Rows;
use arti_rows::ItemRow;
use std::marker::Model;

/// The rows of some ids. Contracts see them as a list, in the order of the ids.
pub struct Lent<'a> {
    pub(crate) rows: &'a Rows,
    pub(crate) ids: &'a [u32],
}

impl<'a> Model for Lent<'a> {
    ghost use Rattle.std.specs.Prelude.{List, map, All};
    ghost use Rattle.arti_rows.specs.declared.rows.ItemRow.{ItemRow};
    ghost use Rattle.arti_catalog.specs.Held.{row_at_id, HasSome};

    ghost Value = { List ItemRow };

    ghost view = { λ l. map (row_at_id l.rows.now) l.ids.now };

    ghost invariant = { λ l. All (HasSome l.rows.now) l.ids.now };
}

impl<'a> Lent<'a> {
    /// How many rows there are.
    pub fn len(&self) -> usize
        ensures { result ≡ length self.now }
    {
        self.ids.len()
    }

    /// The row at a place.
    pub fn row(&self, place: usize) -> &'a ItemRow
        requires { place < length self.now }
        ensures { result.now ≡ slice_index_or self.now place no_row }
    {
        match self.rows.get(self.ids[place]) {
            Some(row) => row,
            None => unreachable!(),
        }
    }
}
