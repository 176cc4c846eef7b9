// The catalog.
ghost use Rattle.std.specs.Prelude.{◌≡◌, ◌+◌, [], map, length, None, IfOk, OnOk, option_map};
ghost use Rattle.std.specs.Option.{option_copied};
ghost use Rattle.arti_model.specs.Store.{find_item, item_of_row};
ghost use Rattle.arti_model.specs.Deploys.{file_with};
ghost use Rattle.arti_model.specs.Edits.{edited_by};
ghost use Rattle.arti_catalog.specs.Built.{edits_refusal};
ghost use Rattle.arti_catalog.specs.Contents.{digests_of};
ghost use Rattle.arti_catalog.specs.Held.{AreLive, items_in, itself, row_at_id};
ghost use Rattle.arti_catalog.specs.Judged.{Applies, Judges};
ghost use Rattle.arti_catalog.specs.Formed.{WellFormed};

use crate::changes::{do_all, judge_and_do};
use crate::contents::file_with;
use crate::judging::judge;
use crate::parts::Parts;
use crate::{ApplyFault, Lent};
use arti_ground::Steps;
use arti_rows::{
    Change, Edit, FileRef, ItemKey, ItemRow, Limits, Moment, Refusal, SomeDigests, Text,
};
use arti_tree::Tree;
use std::alloc::{AllocError, Global};
use std::marker::Model;
use std::mem;
use std::sync::ledger::Ledger;

/// The items of a repository under ids.
#[derive(Drop)]
pub struct Catalog {
    limits: Limits,
    parts: Parts,
}

impl Model for Catalog {
    ghost use Rattle.arti_catalog.specs.Held.{Held, Fits, Keeps};

    ghost Value = { Held };

    ghost view = { λ c. record { limits = c.limits; tree = c.parts.tree; rows = c.parts.rows } };

    ghost invariant = { λ c. Fits c.parts.tree c.parts.rows × Keeps c.limits c.parts.tree };
}

impl Catalog {
    /// No items.
    pub fn new(alloc: Global, limits: &Limits) -> Result<Catalog, AllocError>
        ensures limits { IfOk result (λ c. c.limits ≡ limits.now) }
        ensures tree { IfOk result (λ c. c.tree ≡ []) }
    {
        Ok(Catalog {
            limits: *limits,
            parts: Parts::new(alloc)?,
        })
    }

    /// What holds of the items of each catalog.
    pub fn rules(&self)
        ensures { WellFormed self.now.limits (items_in self.now) }
    {
        self.parts.tree.rules();
        self.parts.tree.folders_stand();
    }

    /// The row of a key.
    pub fn find(&self, key: &ItemKey) -> Option<&ItemRow>
        ensures { option_map item_of_row (option_copied result) ≡ find_item (items_in self.now) key.now }
    {
        self.parts.find(key)
    }

    /// The content of the first file that has the digests, in the default order.
    pub fn file_with(&self, wanted: &SomeDigests) -> Option<&FileRef>
        ensures { option_copied result ≡ file_with digests_of wanted.now (items_in self.now) }
    {
        file_with(&self.parts, wanted)
    }

    /// The items' keys under their ids.
    pub fn items(&self) -> &Tree
        ensures { result.now ≡ self.now.tree }
    {
        &self.parts.tree
    }

    /// The rows of live ids. The counter rises by the number of ids.
    pub fn lend<'a, L: Ledger>(&'a self, ids: &'a [u32], steps: &mut Steps<L>) -> Lent<'a>
        requires { AreLive self.now.tree ids.now }
        ensures rows { result ≡ map (row_at_id self.now.rows) ids.now }
        ensures steps { steps.new ≡ steps.old + length ids.now }
    {
        steps.add(ids.len() as u64);
        Lent {
            rows: &self.parts.rows,
            ids,
        }
    }

    /// Why a change is refused: the first refusal of its edits, each judged on what those before it leave.
    pub fn check(&self, alloc: Global, change: &Change) -> Result<(), Refusal>
        ensures { Judges result (edits_refusal self.now.limits itself change.now.moment change.now.user change.now.edits (items_in self.now)) }
    {
        let edits = change.edits.as_slice();
        if let [edit] = edits {
            return judge(alloc, &self.limits, &self.parts, edit);
        }
        self.check_all(alloc, change.moment, &change.user, edits)
    }

    // Judges edits on a copy, in which they are done.
    fn check_all(
        &self,
        alloc: Global,
        moment: Moment,
        user: &Text,
        edits: &[Edit],
    ) -> Result<(), Refusal>
        ensures { Judges result (edits_refusal self.now.limits itself moment user.now edits.now (items_in self.now)) }
    {
        let mut copy = self.parts.copy(alloc)?;
        judge_and_do(alloc, &self.limits, &mut copy, moment, user, edits)
    }

    /// Applies a change that isn't refused. After an `Err` nothing is left but the limits.
    pub fn apply(&mut self, alloc: Global, change: &Change) -> Result<(), AllocError>
        requires { edits_refusal self.old.limits itself change.now.moment change.now.user change.now.edits (items_in self.old) ≡ None }
        ensures limits { self.new.limits ≡ self.old.limits }
        ensures done { OnOk result (items_in self.new ≡ edited_by itself change.now.moment change.now.user change.now.edits (items_in self.old)) }
    {
        let empty = Parts::new(alloc)?;
        let mut parts = mem::replace(&mut self.parts, empty);
        do_all(
            alloc,
            &self.limits,
            &mut parts,
            change.moment,
            &change.user,
            change.edits.as_slice(),
        )?;
        self.parts = parts;
        Ok(())
    }

    /// Judges a change and applies it, edit by edit. After an `Err` nothing is left but the limits.
    pub fn apply_checked(&mut self, alloc: Global, change: &Change) -> Result<(), ApplyFault>
        ensures limits { self.new.limits ≡ self.old.limits }
        ensures judged { Applies result (edits_refusal self.old.limits itself change.now.moment change.now.user change.now.edits (items_in self.old)) }
        ensures done { OnOk result (items_in self.new ≡ edited_by itself change.now.moment change.now.user change.now.edits (items_in self.old)) }
    {
        let empty = Parts::new(alloc)?;
        let mut parts = mem::replace(&mut self.parts, empty);
        judge_and_do(
            alloc,
            &self.limits,
            &mut parts,
            change.moment,
            &change.user,
            change.edits.as_slice(),
        )?;
        self.parts = parts;
        Ok(())
    }
}
