// An ascending list of ids.
ghost use Rattle.std.specs.Prelude.{◌≡◌, ◌<◌, ◌∷◌, [], vec_capacity, IfOk, OnOk, OnErr};
ghost use Rattle.std.specs.Ordering.{nat_cmp};
ghost use Rattle.std.specs.List.Sorted.{IsStrictlySortedBy};
ghost use Rattle.arti_ids.specs.Ids.{Ascends, Fits, Takes, has_id, with_id, without_id};

use crate::kept::Kept;
use std::alloc::{AllocError, Global};
use std::marker::Model;
use std::slice;

/// An ascending list of ids. One id alone takes no memory beside the value. Contracts see the ids, and for how many there
/// is room.
#[derive(Drop)]
pub struct Ids {
    kept: Kept,
}

impl Model for Ids {
    ghost use Rattle.arti_ids.specs.Ids.{IdList, Ascends};
    ghost use Rattle.arti_ids.specs.Kept.{kept_list};

    ghost Value = { IdList };

    ghost view = { λ i. kept_list i.kept };

    ghost invariant = { λ i. Ascends (λ x. x) (kept_list i.kept).ids };
}

impl Ids {
    /// No ids, and room for one.
    pub fn new() -> Ids
        ensures ids { result.ids ≡ [] }
        ensures room { 0 < result.capacity }
    {
        Ids { kept: Kept::Empty }
    }

    /// One id, and room for another.
    pub fn beside(alloc: Global, id: u32) -> Result<Ids, AllocError>
        ensures ids { IfOk result (λ i. i.ids ≡ id ∷ []) }
        ensures room { IfOk result (λ i. 1 < i.capacity) }
    {
        Ok(Ids {
            kept: Kept::Many(beside(alloc, id)?),
        })
    }

    pub fn as_slice(&self) -> &[u32]
        ensures ids { result.now ≡ self.now.ids }
        ensures ascending { IsStrictlySortedBy nat_cmp result.now }
    {
        match &self.kept {
            Kept::Empty => &[],
            Kept::One(id) => slice::from_ref(id),
            Kept::Many(ids) => ids.as_slice(),
        }
    }

    /// Whether the id is among them.
    pub fn has(&self, id: u32) -> bool
        ensures { result ≡ has_id id self.now.ids }
    {
        match &self.kept {
            Kept::Empty => false,
            Kept::One(only) => *only == id,
            Kept::Many(ids) => is_among(ids, id),
        }
    }

    /// Room for the id. Where it is among them nothing happens.
    pub fn make_room(&mut self, alloc: Global, id: u32) -> Result<(), AllocError>
        ensures ids { self.new.ids ≡ self.old.ids }
        ensures ready { OnOk result (Takes id self.new) }
    {
        match &mut self.kept {
            Kept::Empty => Ok(()),
            Kept::One(one) => {
                let one = *one;
                if one != id {
                    self.kept = Kept::Many(beside(alloc, one)?);
                }
                Ok(())
            }
            Kept::Many(ids) => room_in(ids, id),
        }
    }

    /// The id is among them.
    pub fn add(&mut self, id: u32)
        requires ready { Takes id self.old }
        ensures ids { self.new.ids ≡ with_id id self.old.ids }
    {
        match &mut self.kept {
            Kept::Empty => self.kept = Kept::One(id),
            Kept::One(_) => {}
            Kept::Many(ids) => add_to(ids, id),
        }
    }

    /// The id is among them, or nothing changes.
    pub fn insert(&mut self, alloc: Global, id: u32) -> Result<(), AllocError>
        ensures ids { OnOk result (self.new.ids ≡ with_id id self.old.ids) }
        ensures unchanged { OnErr result (self.new.ids ≡ self.old.ids) }
    {
        self.make_room(alloc, id)?;
        self.add(id);
        Ok(())
    }

    /// The id isn't among them.
    pub fn remove(&mut self, id: u32)
        ensures ids { self.new.ids ≡ without_id id self.old.ids }
        ensures ready { Takes id self.old → Takes id self.new }
    {
        match &mut self.kept {
            Kept::Empty => {}
            Kept::One(only) => {
                if *only == id {
                    self.kept = Kept::Empty;
                }
            }
            Kept::Many(ids) => remove_from(ids, id),
        }
    }
}

// Whether an id is among ids that ascend.
fn is_among(ids: &[u32], id: u32) -> bool
    requires { Ascends (λ x. x) ids.now }
    ensures { result ≡ has_id id ids.now }
{
    match ids.binary_search(&id) {
        Ok(_) => true,
        Err(_) => false,
    }
}

// An id, with room for another.
fn beside(alloc: Global, id: u32) -> Result<Box<Vec<u32>>, AllocError>
    ensures ids { IfOk result (λ b. b.value.items ≡ id ∷ []) }
    ensures room { IfOk result (λ b. 1 < vec_capacity b.value) }
{
    let mut ids = Vec::with_capacity(alloc, 2)?;
    ids.push(id)?;
    Ok(Box::new(alloc, ids)?)
}

// Room for the id, unless it is among them.
fn room_in(ids: &mut Vec<u32>, id: u32) -> Result<(), AllocError>
    requires ascend { Ascends (λ x. x) ids.old.items }
    ensures ids { ids.new.items ≡ ids.old.items }
    ensures ready { OnOk result (Fits id ids.new.items (vec_capacity ids.new)) }
{
    // A list that has the id is left as it is, however full.
    if is_among(ids, id) {
        return Ok(());
    }
    ids.reserve(1)
}

// The id is among them.
fn add_to(ids: &mut Vec<u32>, id: u32)
    requires ascend { Ascends (λ x. x) ids.old.items }
    requires ready { Fits id ids.old.items (vec_capacity ids.old) }
    ensures ids { ids.new.items ≡ with_id id ids.old.items }
    ensures ascend { Ascends (λ x. x) ids.new.items }
{
    match ids.binary_search(&id) {
        Ok(_) => {}
        Err(place) => {
            let _ = ids.insert(place, id);
        }
    }
}

// The id isn't among them.
fn remove_from(ids: &mut Vec<u32>, id: u32)
    requires ascend { Ascends (λ x. x) ids.old.items }
    ensures ids { ids.new.items ≡ without_id id ids.old.items }
    ensures ascend { Ascends (λ x. x) ids.new.items }
    ensures ready { Fits id ids.old.items (vec_capacity ids.old) → Fits id ids.new.items (vec_capacity ids.new) }
{
    match ids.binary_search(&id) {
        Ok(place) => {
            ids.remove(place);
        }
        Err(_) => {}
    }
}
