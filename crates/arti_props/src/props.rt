// Properties and digests under ids.
ghost use Rattle.std.specs.Prelude.{◌≡◌, [], IfOk, OnOk, OnErr, option_copied};
ghost use Rattle.std.specs.Ordering.{nat_cmp};
ghost use Rattle.std.specs.Map.{keys_of};
ghost use Rattle.std.specs.List.Sorted.{IsStrictlySortedBy};
ghost use Rattle.arti_props.specs.Rows.{Feature, Pair, Md5, Sha1, Sha256, has, ids_where, set_row, drop_row, pairs_of};
ghost use Rattle.arti_props.specs.Asked.{Stands};

use crate::index::Index;
use crate::row::Row;
use crate::rows::Rows;
use crate::{indexing, values};
use arti_rows::{Digests, Property};
use std::alloc::{AllocError, Global};
use std::marker::Model;

/// Rows of properties and digests under ids. Contracts see the list of the live rows, each behind its id, in ascending
/// order of ids.
#[derive(Drop)]
pub struct Props {
    rows: Rows,
    index: Index,
}

impl Model for Props {
    ghost use Rattle.std.specs.Prelude.{ℕ, List};
    ghost use Rattle.arti_props.specs.declared.row.Row.{Row};
    ghost use Rattle.arti_props.specs.Asked.{Stands};

    ghost Value = { List (ℕ × Row) };

    ghost view = { λ p. p.rows };

    ghost invariant = { λ p. Stands p.index p.rows };
}

impl Props {
    /// No row is live.
    pub fn new(alloc: Global) -> Result<Props, AllocError>
        ensures { IfOk result (λ p. p ≡ []) }
    {
        Ok(Props {
            rows: Rows::new(alloc),
            index: indexing::empty(alloc),
        })
    }

    /// Replaces what stands for the id, or adds it.
    pub fn set(
        &mut self,
        alloc: Global,
        id: u32,
        pairs: &[Property],
        digests: Option<&Digests>,
    ) -> Result<(), AllocError>
        ensures set { OnOk result (self.new ≡ set_row id (record { pairs = pairs.now; digests = option_copied digests.entry }) self.old) }
        ensures unchanged { OnErr result (self.new ≡ self.old) }
    {
        let row = Row::new(alloc, pairs, digests)?;
        put(alloc, &mut self.rows, &mut self.index, id, row)
    }

    /// Nothing stands for the id any more.
    pub fn drop_id(&mut self, id: u32)
        ensures { self.new ≡ drop_row id self.old }
    {
        take(&mut self.rows, &mut self.index, id);
    }

    /// The properties that stand for the id, none where it isn't live.
    pub fn pairs(&self, id: u32) -> &[Property]
        ensures { result.now ≡ pairs_of id self.now }
    {
        match self.rows.get(id) {
            Some(row) => row.pairs.as_slice(),
            None => &[],
        }
    }

    /// The ids of the rows that have the pair, ascending.
    pub fn with(&self, key: &str, value: &str) -> &[u32]
        ensures ids { result.now ≡ ids_where (has (Pair key.now value.now)) self.now }
        ensures ascending { IsStrictlySortedBy nat_cmp result.now }
    {
        values::list(&self.index.values, key, value)
    }

    /// The ids of the rows whose content has the MD5, ascending.
    pub fn with_md5(&self, digest: &[u8; 16]) -> &[u32]
        ensures ids { result.now ≡ ids_where (has (Md5 digest.now)) self.now }
        ensures ascending { IsStrictlySortedBy nat_cmp result.now }
    {
        self.index.md5s.list(digest)
    }

    /// The ids of the rows whose content has the SHA-1, ascending.
    pub fn with_sha1(&self, digest: &[u8; 20]) -> &[u32]
        ensures ids { result.now ≡ ids_where (has (Sha1 digest.now)) self.now }
        ensures ascending { IsStrictlySortedBy nat_cmp result.now }
    {
        self.index.sha1s.list(digest)
    }

    /// The ids of the rows whose content has the SHA-256, ascending.
    pub fn with_sha256(&self, digest: &[u8; 32]) -> &[u32]
        ensures ids { result.now ≡ ids_where (has (Sha256 digest.now)) self.now }
        ensures ascending { IsStrictlySortedBy nat_cmp result.now }
    {
        self.index.sha256s.list(digest)
    }

    /// The rows stand in ascending order of ids, each once.
    pub fn order(&self)
        ensures { IsStrictlySortedBy nat_cmp (keys_of self.now) }
    {
        let _ = &self.rows;
    }
}

// Puts a row under an id, in the place of what stands there. Nothing changes after all room is made.
fn put(
    alloc: Global,
    rows: &mut Rows,
    index: &mut Index,
    id: u32,
    row: Row,
) -> Result<(), AllocError>
    requires stands { Stands index.old rows.old }
    ensures stands { Stands index.new rows.new }
    ensures set { OnOk result (rows.new ≡ set_row id row rows.old) }
    ensures unchanged { OnErr result (rows.new ≡ rows.old) }
{
    if let Err(error) = indexing::make_room(alloc, index, &row, id) {
        indexing::tidy(index, Some(&row));
        return Err(error);
    }
    let old = rows.put(alloc, id, row)?;
    let new = rows.get(id);
    indexing::remove(index, old.as_ref(), new, id);
    indexing::add(index, new, id);
    indexing::tidy(index, old.as_ref());
    Ok(())
}

// Takes away the row under an id.
fn take(rows: &mut Rows, index: &mut Index, id: u32)
    requires stands { Stands index.old rows.old }
    ensures stands { Stands index.new rows.new }
    ensures dropped { rows.new ≡ drop_row id rows.old }
{
    let old = rows.take(id);
    indexing::remove(index, old.as_ref(), None, id);
    indexing::tidy(index, old.as_ref());
}
