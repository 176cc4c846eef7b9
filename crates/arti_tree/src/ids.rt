// Lists of ids that ascend, each id once.
ghost use Rattle.std.specs.Prelude.{[], ◌∷◌, ◌++◌, ◌≡◌, ◌≢◌, ℕ, ◌+◌, ◌-◌, ◌<◌, ◌≤◌, ◌^◌, ◌⊎◌, take, drop, length, slice_index, vec_len, vec_capacity, IfOk, IfErr, OnOk, OnErr};
ghost use Rattle.arti_tree.specs.Ids.{AscendFrom, IsGap, IsNext, Lacks, with_id, without_id};
ghost use Rattle.arti_tree.specs.Shifts.{lead, left_by, merge, AreNew, with_ids, without_ids};

use std::alloc::{AllocError, Global};

// Where an id stands in the list, or would stand.
fn place_in(ids: &[u32], id: u32) -> Result<usize, usize>
    requires { AscendFrom 0 ids.now }
    ensures found { IfOk result (λ i. (i < length ids.now) × (slice_index ids.now i ≡ id)) }
    ensures gap { IfErr result (λ i. IsGap ids.now id i) }
{
    ids.binary_search(&id)
}

/// An id more.
pub(crate) fn add_id(ids: &mut Vec<u32>, id: u32) -> Result<(), AllocError>
    requires ascend { AscendFrom 0 ids.old.items }
    requires absent { Lacks ids.old.items id }
    ensures more { OnOk result (ids.new.items ≡ with_id id ids.old.items) }
    ensures unchanged { OnErr result (ids.new.items ≡ ids.old.items) }
    ensures full { OnErr result (vec_capacity ids.old ≤ vec_len ids.old) }
    ensures len { OnOk result (vec_len ids.new ≡ vec_len ids.old + 1) }
    ensures capacity { vec_capacity ids.old ≤ vec_capacity ids.new }
{
    match place_in(ids, id) {
        Ok(_) => Ok(()),
        Err(place) => {
            ids.insert(place, id)?;
            Ok(())
        }
    }
}

/// An id more, where there is room for one.
pub(crate) fn add_ready(ids: &mut Vec<u32>, id: u32)
    requires ascend { AscendFrom 0 ids.old.items }
    requires absent { Lacks ids.old.items id }
    requires room { vec_len ids.old < vec_capacity ids.old }
    ensures items { ids.new.items ≡ with_id id ids.old.items }
    ensures len { vec_len ids.new ≡ vec_len ids.old + 1 }
    ensures capacity { vec_capacity ids.old ≤ vec_capacity ids.new }
{
    let _ = add_id(ids, id);
}

/// Ids more that ascend, in one pass, or none of them.
pub(crate) fn add_ids(ids: &mut Vec<u32>, alloc: Global, more: &[u32]) -> Result<(), AllocError>
    requires ascend { AscendFrom 0 ids.old.items }
    requires more_ascend { AscendFrom 0 more.now }
    requires absent { AreNew ids.old.items more.now }
    ensures more { OnOk result (ids.new.items ≡ with_ids more.now ids.old.items) }
    ensures unchanged { OnErr result (ids.new.items ≡ ids.old.items) }
{
    let all = merged(alloc, ids, more)?;
    *ids = all;
    Ok(())
}

// The ids of two lists that ascend as one.
fn merged(alloc: Global, ids: &[u32], more: &[u32]) -> Result<Vec<u32>, AllocError>
    ensures { IfOk result (λ v. v.items ≡ merge ids.now more.now) }
{
    let mut all = Vec::with_capacity(alloc, ids.len() + more.len())?;
    let mut next = 0usize;
    for id in ids {
        let end = past(more, next, *id);
        all.extend_from_slice(&more[next..end])?;
        all.push(*id)?;
        next = end;
    }
    all.extend_from_slice(&more[next..])?;
    Ok(all)
}

/// Ids less that ascend, in one pass.
pub(crate) fn drop_ascending(ids: &mut Vec<u32>, fewer: &[u32])
    requires ascend { AscendFrom 0 ids.old.items }
    requires fewer_ascend { AscendFrom 0 fewer.now }
    ensures { ids.new.items ≡ without_ids fewer.now ids.old.items }
{
    let kept = close_up(ids, fewer);
    ids.truncate(kept);
}

// The ids that others leave come to the front. How many they are.
fn close_up(ids: &mut [u32], others: &[u32]) -> usize
    ensures left { take result ids.new ≡ left_by others.now ids.old }
    ensures within { result ≤ length ids.new }
    ensures long { length ids.new ≡ length ids.old }
{
    let mut next = 0usize;
    let mut kept = 0usize;
    for i in 0..ids.len() {
        let id = ids[i];
        next = past(others, next, id);
        if next == others.len() || others[next] != id {
            ids[kept] = id;
            kept += 1;
        }
    }
    kept
}

// The first place from this one on at which an id is not less.
fn past(ids: &[u32], from: usize, id: u32) -> usize
    requires { from ≤ length ids.now }
    ensures within { result ≤ length ids.now }
    ensures from { from ≤ result }
    ensures past { result ≡ from + lead id (drop from ids.now) }
{
    let mut place = from;
    'ids: while place < ids.len() && ids[place] < id {
        place += 1;
    }
    place
}

/// An id less.
pub(crate) fn drop_id(ids: &mut Vec<u32>, id: u32)
    requires { AscendFrom 0 ids.old.items }
    ensures { ids.new.items ≡ without_id id ids.old.items }
{
    if let Ok(place) = place_in(ids, id) {
        ids.remove(place);
    }
}

/// An id at the end, where there is room for one.
pub(crate) fn push_ready(ids: &mut Vec<u32>, id: u32)
    requires { vec_len ids.old < vec_capacity ids.old }
    ensures items { ids.new.items ≡ ids.old.items ++ id ∷ [] }
    ensures len { vec_len ids.new ≡ vec_len ids.old + 1 }
    ensures capacity { vec_capacity ids.old ≤ vec_capacity ids.new }
{
    let _ = ids.push(id);
}

/// The greatest number below the last of the ids that is none of them, or the next behind it where they leave none out.
pub(crate) fn free_id(ids: &[u32]) -> u32
    requires ascend { AscendFrom 0 ids.now }
    requires few { length ids.now < 2 ^ 32 }
    ensures absent { Lacks ids.now result }
    ensures within { (result ≡ 0) ⊎ ((0 < length ids.now) × (result ≤ slice_index ids.now (length ids.now - 1) + 1)) }
    ensures next { IsNext ids.now result }
{
    if ids.is_empty() {
        return 0;
    }
    let last = ids.len() - 1;
    if ids[last] as usize == last {
        return ids.len() as u32;
    }
    ids[run_of(ids)] - 1
}

// The place from which on the ids follow one another up to the last.
fn run_of(ids: &[u32]) -> usize
    requires some { 0 < length ids.now }
    requires few { length ids.now < 2 ^ 32 }
    ensures within { result < length ids.now }
    ensures run { slice_index ids.now (length ids.now - 1) + result ≤ slice_index ids.now result + (length ids.now - 1) }
    ensures before { (result ≡ 0) ⊎ (slice_index ids.now (result - 1) + (length ids.now - 1) < slice_index ids.now (length ids.now - 1) + (result - 1)) }
{
    let last = ids.len() - 1;
    let mut low = 0usize;
    let mut high = last;
    'run: while low < high {
        let middle = low + (high - low) / 2;
        if (ids[middle] as usize) + last < (ids[last] as usize) + middle {
            low = middle + 1;
        } else {
            high = middle;
        }
    }
    low
}
