// How the index follows the rows.
ghost use Rattle.std.specs.List.{list_any};
ghost use Rattle.std.specs.Prelude.{◌≡◌, ℕ, List, true, false, [], if◌then◌else◌, OnOk, option_copied};
ghost use Rattle.arti_ids.specs.Ids.{with_id, without_id};
ghost use Rattle.arti_props.specs.Rows.{Feature, Pair, is_pair, has, has_digest};
ghost use Rattle.arti_ids.specs.Lists.{ids_of, IsReady};
ghost use Rattle.arti_props.specs.Asked.{list_of, found_has};

use crate::index::Index;
use crate::row::Row;
use crate::values;
use arti_ids::Lists;
use arti_rows::{Digests, Property};
use std::alloc::{AllocError, Global};
use std::collections::BTreeMap;

/// No row has anything.
pub(crate) fn empty(alloc: Global) -> Index
    ensures { (f : Feature) → ids_of (list_of result f) ≡ [] }
{
    Index {
        values: BTreeMap::new(alloc),
        md5s: Lists::new(alloc),
        sha1s: Lists::new(alloc),
        sha256s: Lists::new(alloc),
    }
}

fn make_digest_rooms(
    alloc: Global,
    index: &mut Index,
    digests: &Digests,
    id: u32,
) -> Result<(), AllocError>
    ensures values { index.new.values ≡ index.old.values }
    ensures ids { (f : Feature) → ids_of (list_of index.new f) ≡ ids_of (list_of index.old f) }
    ensures ready { OnOk result ((f : Feature) → has_digest f digests.now ≡ true → IsReady id (list_of index.new f)) }
{
    index.md5s.make_room(alloc, &digests.md5, id)?;
    index.sha1s.make_room(alloc, &digests.sha1, id)?;
    index.sha256s.make_room(alloc, &digests.sha256, id)
}

fn add_digests(index: &mut Index, digests: &Digests, id: u32)
    requires ready { (f : Feature) → has_digest f digests.now ≡ true → IsReady id (list_of index.old f) }
    ensures values { index.new.values ≡ index.old.values }
    ensures ids { (f : Feature) → ids_of (list_of index.new f) ≡ (if has_digest f digests.now then with_id id (ids_of (list_of index.old f)) else ids_of (list_of index.old f)) }
{
    index.md5s.add(&digests.md5, id);
    index.sha1s.add(&digests.sha1, id);
    index.sha256s.add(&digests.sha256, id);
}

fn remove_digests(index: &mut Index, digests: &Digests, id: u32)
    ensures values { index.new.values ≡ index.old.values }
    ensures ids { (f : Feature) → ids_of (list_of index.new f) ≡ (if has_digest f digests.now then without_id id (ids_of (list_of index.old f)) else ids_of (list_of index.old f)) }
    ensures ready { (f : Feature) → IsReady id (list_of index.old f) → IsReady id (list_of index.new f) }
{
    index.md5s.remove(&digests.md5, id);
    index.sha1s.remove(&digests.sha1, id);
    index.sha256s.remove(&digests.sha256, id);
}

fn tidy_digests(index: &mut Index, digests: &Digests)
    ensures ids { (f : Feature) → ids_of (list_of index.new f) ≡ ids_of (list_of index.old f) }
{
    index.md5s.tidy(&digests.md5);
    index.sha1s.tidy(&digests.sha1);
    index.sha256s.tidy(&digests.sha256);
}

/// Room for the id in the lists of all that the row has, but for those in which it stands alone.
pub(crate) fn make_room(
    alloc: Global,
    index: &mut Index,
    row: &Row,
    id: u32,
) -> Result<(), AllocError>
    ensures ids { (f : Feature) → ids_of (list_of index.new f) ≡ ids_of (list_of index.old f) }
    ensures ready { OnOk result ((f : Feature) → has f row.now ≡ true → IsReady id (list_of index.new f)) }
{
    values::make_rooms(alloc, &mut index.values, row.pairs.as_slice(), id)?;
    match &row.digests {
        Some(digests) => make_digest_rooms(alloc, index, digests, id),
        None => Ok(()),
    }
}

/// The id is in the lists of all that the row has.
pub(crate) fn add(index: &mut Index, row: Option<&Row>, id: u32)
    requires ready { (f : Feature) → found_has f (option_copied row) ≡ true → IsReady id (list_of index.old f) }
    ensures ids { (f : Feature) → ids_of (list_of index.new f) ≡ (if found_has f (option_copied row.entry) then with_id id (ids_of (list_of index.old f)) else ids_of (list_of index.old f)) }
{
    if let Some(row) = row {
        values::add_all(&mut index.values, row.pairs.as_slice(), id);
        if let Some(digests) = &row.digests {
            add_digests(index, digests, id);
        }
    }
}

// The pairs of a row, none where there is no row.
fn pairs_of(row: Option<&Row>) -> &[Property]
    ensures { (k v : List ℕ) → list_any (is_pair k v) result.now ≡ found_has (Pair k v) (option_copied row.entry) }
{
    match row {
        Some(row) => row.pairs.as_slice(),
        None => &[],
    }
}

/// The id isn't in the lists of what the row has, but for what the next one has too: the lists of those pairs are left
/// alone.
pub(crate) fn remove(index: &mut Index, row: Option<&Row>, next: Option<&Row>, id: u32)
    ensures gone { (f : Feature) → found_has f (option_copied next.entry) ≡ false → ids_of (list_of index.new f) ≡ (if found_has f (option_copied row.entry) then without_id id (ids_of (list_of index.old f)) else ids_of (list_of index.old f)) }
    ensures others { (f : Feature) → with_id id (ids_of (list_of index.new f)) ≡ with_id id (ids_of (list_of index.old f)) }
    ensures ready { (f : Feature) → IsReady id (list_of index.old f) → IsReady id (list_of index.new f) }
{
    if let Some(row) = row {
        let stay = pairs_of(next);
        values::remove_all(&mut index.values, row.pairs.as_slice(), stay, id);
        if let Some(digests) = &row.digests {
            remove_digests(index, digests, id);
        }
    }
}

/// Without the lists of what the row has that are empty.
pub(crate) fn tidy(index: &mut Index, row: Option<&Row>)
    ensures { (f : Feature) → ids_of (list_of index.new f) ≡ ids_of (list_of index.old f) }
{
    if let Some(row) = row {
        values::tidy_all(&mut index.values, row.pairs.as_slice());
        if let Some(digests) = &row.digests {
            tidy_digests(index, digests);
        }
    }
}
