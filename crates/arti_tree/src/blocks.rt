// A list of ids in blocks, so that an id more or less moves few of the others.
ghost use Rattle.std.specs.Prelude.{◌≡◌, ◌+◌, ◌<◌, ◌≤◌, ◌^◌, [], length, slice_index, IfOk, OnOk};
ghost use Rattle.std.specs.List.{concat, insert, remove};
ghost use Rattle.arti_tree.specs.Pieces.{lists};

use crate::pieces::{HALF, MOST, count, id_at, insert_at, over_in, ready_at, remove_at, set_aside};
use std::alloc::{AllocError, Global};
use std::marker::Model;

/// A list of ids. Contracts see it as the list, and how many more can come without memory.
#[derive(Drop)]
pub struct Blocks {
    // Where each block begins in the list.
    starts: Vec<usize>,
    blocks: Vec<Vec<u32>>,
    // Blocks that are set aside, for those that get full.
    spare: Vec<Vec<u32>>,
}

impl Model for Blocks {
    ghost use Rattle.arti_tree.specs.Held.{Held};

    ghost Value = { Held };

    ghost use Rattle.arti_tree.specs.Pieces.{IsBlocks, held};
    ghost use Rattle.std.specs.Prelude.{vec_capacity};

    ghost view = { λ b. held b.blocks.items b.spare.items };

    ghost invariant = { λ b. IsBlocks b.starts.items b.blocks.items b.spare.items (vec_capacity b.starts) (vec_capacity b.blocks) };
}

impl Blocks {
    /// No ids.
    pub fn new(alloc: Global) -> Result<Blocks, AllocError>
        ensures { IfOk result (λ b. b.items ≡ []) }
    {
        let mut starts = Vec::with_capacity(alloc, 1)?;
        starts.push(0)?;
        let mut blocks = Vec::with_capacity(alloc, 1)?;
        blocks.push(Vec::with_capacity(alloc, MOST)?)?;
        Ok(Blocks {
            starts,
            blocks,
            spare: Vec::new(alloc),
        })
    }

    /// How many ids there are.
    pub fn len(&self) -> usize
        ensures value { result ≡ length self.now.items }
        ensures few { result ≤ 2 ^ 32 }
    {
        count(&self.starts, &self.blocks)
    }

    /// The id at a place.
    pub fn get(&self, place: usize) -> u32
        requires { place < length self.now.items }
        ensures { result ≡ slice_index self.now.items place }
    {
        id_at(&self.starts, &self.blocks, place)
    }

    /// The ids, in blocks one behind the other.
    pub fn blocks(&self) -> &[Vec<u32>]
        ensures { concat (lists result.now) ≡ self.now.items }
    {
        self.blocks.as_slice()
    }

    /// An id more, where there is room for one.
    pub fn insert(&mut self, place: usize, id: u32)
        requires within { place ≤ length self.old.items }
        requires room { 0 < self.old.room }
        requires few { length self.old.items < 2 ^ 32 }
        ensures items { self.new.items ≡ insert self.old.items place id }
        ensures room { self.old.room ≤ self.new.room + 1 }
    {
        let at = ready_at(&mut self.starts, &mut self.blocks, &mut self.spare, place);
        insert_at(&mut self.starts, &mut self.blocks, at, place, id);
    }

    /// The id at a place goes.
    pub fn remove(&mut self, place: usize)
        requires { place < length self.old.items }
        ensures items { self.new.items ≡ remove self.old.items place }
        ensures room { self.old.room ≤ self.new.room }
        ensures few { length self.new.items < 2 ^ 32 }
    {
        remove_at(&mut self.starts, &mut self.blocks, place);
    }

    /// Room for so many ids more.
    pub fn make_room(&mut self, alloc: Global, more: usize) -> Result<(), AllocError>
        ensures items { self.new.items ≡ self.old.items }
        ensures room { OnOk result (more ≤ self.new.room) }
    {
        if more <= self.spare.len() {
            return Ok(());
        }
        let wanted = more / HALF + over_in(&self.blocks) / HALF + 1;
        set_aside(
            &mut self.starts,
            &mut self.blocks,
            &mut self.spare,
            alloc,
            wanted,
        )
    }

    /// The same ids.
    pub fn copy(&self, alloc: Global) -> Result<Blocks, AllocError>
        ensures { IfOk result (λ b. b.items ≡ self.now.items) }
    {
        let mut copy = Blocks::new(alloc)?;
        copy.make_room(alloc, self.len())?;
        for place in 0..self.len() {
            copy.insert(place, self.get(place));
        }
        Ok(copy)
    }
}
