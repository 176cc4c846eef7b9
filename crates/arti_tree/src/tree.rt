// The rows of the tree and the lists that are kept of them.
ghost use Rattle.std.specs.Prelude.{◌≡◌, ◌≢◌, ◌∷◌, ◌-◌, ◌&&◌, drop, slice_index_or, IfErr, ◌<◌, ◌≤◌, ◌+◌, ◌^◌, vec_len, vec_capacity, List, [], ◌++◌, length, if◌then◌else◌, map, option_map, IfOk, IfSome, IsSome, OnOk, OnErr, Some, None, true, false};
ghost use Rattle.std.specs.Option.{option_map_or, is_none, is_some};
ghost use Rattle.std.specs.List.{All, concat, filter, find};
ghost use Rattle.arti_tree.specs.ByKey.{by_key, KeysOnce};
ghost use Rattle.arti_tree.specs.Pieces.{lists};
ghost use Rattle.arti_tree.specs.Rows.{Row, ids, row_of, row_at, lies_in, lies_beneath, is_of, rank_of, folder_id, with_row, without_row, may_go, HasFolder, IsFolder, IsLive, IsTree};
ghost use Rattle.arti_tree.specs.Ids.{AscendFrom, IsNext, TakesNext};
ghost use Rattle.arti_tree.specs.Slots.{row_with};
ghost use Rattle.arti_tree.specs.Searched.{key};
ghost use Rattle.arti_tree.specs.Adds.{is_end, is_missing, is_file_at, keys_added, put_fault, Adds};
ghost use Rattle.arti_rows.specs.Key.{folders_above, whole_of};
ghost use Rattle.arti_rows.specs.Names.{key_fault};
ghost use Rattle.arti_tree.specs.Chains.{CanAdd, Pushes, PushesNext};
ghost use Rattle.arti_tree.specs.Renames.{AreWithin, is_within, key_for, moved_row, moved_whole, renamed, rename_fault, without_within, StayKeys};

use crate::TreeFault;
use crate::blocks::Blocks;
use crate::copying::{copy_children, copy_ids, copy_repos, copy_slots};
use crate::ids::{add_ready, drop_ascending, drop_id, free_id, push_ready};
use crate::keys::{is_within, moved_key, stays};
use crate::lists::{Children, drop_lists, enter_both, leave_folder, listed, shift_both};
use crate::rekeying::rekey_all;
use crate::removing::fell_all;
use crate::repos::{Repos, ids_of, leave, leave_ascending};
use crate::searching::{cut, place_of};
use crate::slot::{Slot, empty, fill, make_room, slot_of};
use arti_rows::ItemKey;
use std::alloc::{AllocError, Global};
use std::collections::BTreeMap;
use std::marker::Model;

/// The live rows, each a key under an id. Contracts see them as a list that ascends by id.
#[derive(Drop)]
pub struct Tree {
    // By id, those that are gone left empty.
    slots: Vec<Option<Slot>>,
    all: Vec<u32>,
    // By the default order of their keys.
    order: Blocks,
    // The rows that lie in each folder, by its id.
    children: Children,
    repos: Repos,
}

impl Model for Tree {
    ghost use Rattle.std.specs.Prelude.{List};
    ghost use Rattle.arti_tree.specs.Rows.{Row};

    ghost Value = { List Row };

    ghost use Rattle.arti_tree.specs.Slots.{live};
    ghost use Rattle.arti_tree.specs.Kept.{Kept};
    ghost use Rattle.arti_tree.specs.Repos.{list_of};
    ghost use Rattle.arti_tree.specs.Children.{list_at};

    ghost view = { λ t. live 0 t.slots.items };

    ghost invariant = { λ t. Kept t.slots.items t.all.items t.order.items (list_at t.children) (list_of t.repos) };
}

impl Tree {
    /// No rows.
    pub fn new(alloc: Global) -> Result<Tree, AllocError>
        ensures { IfOk result (λ t. t ≡ []) }
    {
        Ok(Tree {
            slots: Vec::new(alloc),
            all: Vec::new(alloc),
            order: Blocks::new(alloc)?,
            children: BTreeMap::new(alloc),
            repos: BTreeMap::new(alloc),
        })
    }

    /// The same rows.
    pub fn copy(&self, alloc: Global) -> Result<Tree, AllocError>
        ensures { IfOk result (λ t. t ≡ self.now) }
    {
        Ok(Tree {
            slots: copy_slots(alloc, &self.slots)?,
            all: copy_ids(alloc, &self.all)?,
            order: self.order.copy(alloc)?,
            children: copy_children(&self.children)?,
            repos: copy_repos(&self.repos)?,
        })
    }

    /// What holds of the rows of each tree.
    pub fn rules(&self)
        ensures { IsTree self.now }
    {
        let _ = &self.slots;
    }

    /// All folders above each row are there.
    pub fn folders_stand(&self)
        ensures { (r : Row) → IsLive self.now r → All (IsFolder self.now) (folders_above r.key) }
    {
        self.rules();
    }

    /// The id of a key.
    pub fn get(&self, key: &ItemKey) -> Option<u32>
        ensures { result ≡ option_map (λ r. r.id) (row_at self.now key.now) }
    {
        match self.find(key.repo.as_str(), key.path.as_str(), key.name.as_str()) {
            Some((id, _)) => Some(id),
            None => None,
        }
    }

    /// The key of an id.
    pub fn key(&self, id: u32) -> Option<&ItemKey>
        ensures { option_map (λ k. k.now) result ≡ option_map (λ r. r.key) (row_of self.now id) }
    {
        match self.slot(id) {
            Some(slot) => Some(&slot.key),
            None => None,
        }
    }

    /// Whether an id is that of a file.
    pub fn is_file(&self, id: u32) -> bool
        ensures { result ≡ option_map_or (λ r. r.is_file) (row_of self.now id) false }
    {
        match self.slot(id) {
            Some(slot) => slot.is_file,
            None => false,
        }
    }

    /// How many rows come before that of an id in the default order.
    pub fn rank(&self, id: u32) -> Option<u32>
        ensures { result ≡ option_map (λ r. rank_of self.now r.key) (row_of self.now id) }
    {
        self.rules();
        let key = self.key(id)?;
        match self.find(key.repo.as_str(), key.path.as_str(), key.name.as_str()) {
            Some((_, rank)) => Some(rank),
            None => None,
        }
    }

    // The rows that lie in the folder of an id, whose key this is.
    fn inside(&self, id: u32, key: &ItemKey) -> &[u32]
        requires { option_map (λ r. r.key) (row_of self.now id) ≡ Some key.now }
        ensures rows { result.now ≡ ids (filter (lies_in key.now) self.now) }
        ensures ascend { AscendFrom 0 result.now }
    {
        let _key = key;
        listed(&self.children, id)
    }

    /// The rows that lie in a folder, with nothing between.
    pub fn children(&self, key: &ItemKey) -> &[u32]
        ensures rows { result.now ≡ ids (filter (lies_in key.now) self.now) }
        ensures ascend { AscendFrom 0 result.now }
    {
        match self.get(key) {
            Some(id) => listed(&self.children, id),
            None => &[],
        }
    }

    /// All rows.
    pub fn all(&self) -> &[u32]
        ensures rows { result.now ≡ ids self.now }
        ensures ascend { AscendFrom 0 result.now }
    {
        self.all.as_slice()
    }

    /// All rows in the default order of their keys, in blocks one behind the other.
    pub fn ordered(&self) -> &[Vec<u32>]
        ensures rows { concat (lists result.now) ≡ ids (by_key self.now) }
        ensures once { KeysOnce self.now }
    {
        self.order.blocks()
    }

    /// The rows of a repository.
    pub fn in_repo(&self, repo: &str) -> &[u32]
        ensures rows { result.now ≡ ids (filter (is_of repo.now) self.now) }
        ensures ascend { AscendFrom 0 result.now }
    {
        ids_of(&self.repos, repo)
    }

    /// The ids of the row of an id and of all beneath it. They ascend.
    pub fn within(&self, alloc: Global, id: u32) -> Result<Vec<u32>, AllocError>
        ensures within { IfOk result (λ v. IfSome (row_of self.now id) (λ r. AreWithin self.now r.key v.items)) }
        ensures none { IfOk result (λ v. row_of self.now id ≡ None → v.items ≡ []) }
        ensures ascend { IfOk result (λ v. AscendFrom 0 v.items) }
    {
        match self.key(id) {
            Some(from) => self.ids_within(alloc, id, from),
            None => Ok(Vec::new(alloc)),
        }
    }

    // What is kept under an id.
    fn slot(&self, id: u32) -> Option<&Slot>
        ensures { option_map (λ s. row_with id s.now) result ≡ row_of self.now id }
    {
        slot_of(&self.slots, id)
    }

    // The id and the rank of the key of these parts.
    fn find(&self, repo: &str, path: &str, name: &str) -> Option<(u32, u32)>
        ensures { result ≡ option_map (λ r. (r.id, rank_of self.now r.key)) (row_at self.now (key repo.now path.now name.now)) }
    {
        match place_of(&self.slots, &self.order, repo, path, name) {
            Ok(place) => Some((self.order.get(place), place as u32)),
            Err(_) => None,
        }
    }

    // The id of the folder that an item lies in.
    fn folder(&self, key: &ItemKey) -> Option<u32>
        ensures { result ≡ folder_id self.now key.now }
    {
        if key.path.as_str() == "." {
            return None;
        }
        let (path, name) = cut(key.path.as_str());
        match self.find(key.repo.as_str(), path, name) {
            Some((id, _)) => Some(id),
            None => None,
        }
    }

    // The id of the folder that the row of an id lies in.
    fn folder_under(&self, id: u32) -> Option<u32>
        ensures { IfSome (row_of self.now id) (λ r. result ≡ folder_id self.now r.key) }
    {
        match self.key(id) {
            Some(key) => self.folder(key),
            None => None,
        }
    }

    // A row more, whose key isn't there and whose folder is.
    fn add(&mut self, alloc: Global, key: ItemKey, is_file: bool) -> Result<u32, AllocError>
        requires absent { row_at self.old key ≡ None }
        requires folder { HasFolder self.old key }
        requires few { length self.old + 1 < 2 ^ 32 }
        ensures fresh { IfOk result (λ id. row_of self.old id ≡ None) }
        ensures next { IfOk result (λ id. IsNext (ids self.old) id) }
        ensures added { IfOk result (λ id. self.new ≡ with_row (record { id = id; key = key; is_file = is_file }) self.old) }
        ensures unchanged { OnErr result (self.new ≡ self.old) }
    {
        key.rules();
        let folder = self.folder(&key);
        let Err(place) = place_of(
            &self.slots,
            &self.order,
            key.repo.as_str(),
            key.path.as_str(),
            key.name.as_str(),
        ) else {
            unreachable!();
        };
        let id = free_id(&self.all);
        make_room(&mut self.slots, &mut self.all, &mut self.order, alloc)?;
        enter_both(
            &mut self.children,
            &mut self.repos,
            alloc,
            folder,
            key.repo.as_str(),
            id,
        )?;
        self.order.insert(place, id);
        add_ready(&mut self.all, id);
        fill(&mut self.slots, id, Slot { key, is_file });
        Ok(id)
    }

    // A row less, in which no row lies.
    fn drop_row(&mut self, id: u32)
        requires live { IsSome (row_of self.old id) }
        requires empty { IfSome (row_of self.old id) (λ r. find (lies_in r.key) self.old ≡ None) }
        ensures { self.new ≡ without_row id self.old }
    {
        let folder = self.folder_under(id);
        let Some(slot) = slot_of(&self.slots, id) else {
            unreachable!();
        };
        let Ok(place) = place_of(
            &self.slots,
            &self.order,
            slot.key.repo.as_str(),
            slot.key.path.as_str(),
            slot.key.name.as_str(),
        ) else {
            unreachable!();
        };
        leave(&mut self.repos, slot.key.repo.as_str(), id);
        leave_folder(&mut self.children, folder, id);
        self.order.remove(place);
        drop_id(&mut self.all, id);
        empty(&mut self.slots, id);
    }

    /// A row is removed where it is live and nothing lies beneath it.
    pub fn remove(&mut self, id: u32) -> bool
        ensures value { result ≡ may_go self.old id }
        ensures rows { self.new ≡ (if result then without_row id self.old else self.old) }
    {
        self.rules();
        if !self.is_childless(id) {
            return false;
        }
        self.drop_row(id);
        true
    }

    /// A row is removed where it is live, and all rows beneath it.
    pub fn remove_within(&mut self, id: u32) -> bool
        ensures value { result ≡ is_some (row_of self.old id) }
        ensures rows { self.new ≡ without_within self.old id }
    {
        self.rules();
        let Some(key) = self.key(id) else {
            return false;
        };
        match self.ids_within(*self.all.allocator(), id, key) {
            Ok(ids) => self.drop_all(id, &ids),
            Err(_) => self.drop_within(id),
        }
        true
    }

    // A live row goes, and all rows beneath it, whose ids these are.
    fn drop_all(&mut self, id: u32, ids: &[u32])
        requires live { IsSome (row_of self.old id) }
        requires within { IfSome (row_of self.old id) (λ r. AreWithin self.old r.key ids.now) }
        requires ascend { AscendFrom 0 ids.now }
        ensures { self.new ≡ without_within self.old id }
    {
        let folder = self.folder_under(id);
        let Some(slot) = slot_of(&self.slots, id) else {
            unreachable!();
        };
        leave_ascending(&mut self.repos, slot.key.repo.as_str(), ids);
        leave_folder(&mut self.children, folder, id);
        drop_lists(&mut self.children, ids);
        drop_ascending(&mut self.all, ids);
        fell_all(&mut self.slots, &mut self.order, ids);
    }

    // A live row goes, and all rows beneath it, those beneath it first.
    fn drop_within(&mut self, id: u32)
        requires { IsSome (row_of self.old id) }
        ensures { self.new ≡ without_within self.old id }
    {
        self.rules();
        'inside: while let Some(child) = self.last_inside(id) {
            self.rules();
            self.drop_within(child);
        }
        self.rules();
        self.drop_row(id);
    }

    // The last of the rows that lie in a live one.
    fn last_inside(&self, id: u32) -> Option<u32>
        ensures none { result ≡ None → IfSome (row_of self.now id) (λ r. find (lies_in r.key) self.now ≡ None) }
        ensures some { IfSome result (λ child. IfSome (row_of self.now id) (λ r. option_map_or (lies_in r.key) (row_of self.now child) false ≡ true)) }
    {
        self.rules();
        let key = self.key(id)?;
        let inside = self.inside(id, key);
        if inside.is_empty() {
            return None;
        }
        Some(inside[inside.len() - 1])
    }

    // Whether a row is live and nothing lies in it.
    fn is_childless(&self, id: u32) -> bool
        ensures { result ≡ option_map_or (λ r. is_none (find (lies_in r.key) self.now)) (row_of self.now id) false }
    {
        match slot_of(&self.slots, id) {
            Some(_) => listed(&self.children, id).is_empty(),
            None => false,
        }
    }

    // Keys are added in order, each a folder but for the last, or none of them is.
    fn add_all(
        &mut self,
        alloc: Global,
        mut keys: Vec<ItemKey>,
        is_file: bool,
        ids: &mut Vec<u32>,
    ) -> Result<(), AllocError>
        requires can { CanAdd self.old keys.items }
        requires few { length self.old + length keys.items < 2 ^ 32 }
        requires room { vec_len ids.old + length keys.items ≤ vec_capacity ids.old }
        ensures added { OnOk result (Pushes self.old keys.items is_file ids.old.items ids.new.items self.new) }
        ensures next { OnOk result (PushesNext self.old ids.old.items ids.new.items) }
        ensures unchanged { OnErr result (self.new ≡ self.old) }
    {
        if keys.is_empty() {
            return Ok(());
        }
        self.rules();
        let key = keys.remove(0);
        let as_file = is_last_file(is_file, &keys);
        let id = self.add(alloc, key, as_file)?;
        push_ready(ids, id);
        if let Err(error) = self.add_all(alloc, keys, is_file, ids) {
            self.drop_row(id);
            return Err(error);
        }
        Ok(())
    }

    /// The key is added, and the folders above it that are missing. The ids of the added keys, the topmost folder first.
    pub fn put(
        &mut self,
        alloc: Global,
        key: ItemKey,
        file: bool,
        limit: u32,
    ) -> Result<Vec<u32>, TreeFault>
        ensures ok { OnOk result (put_fault self.old key limit ≡ None) }
        ensures added { IfOk result (λ ids. Adds self.old (keys_added self.old key) file ids.items self.new) }
        ensures next { IfOk result (λ given. TakesNext (ids self.old) given.items) }
        ensures fault { IfErr result (λ e. e ≢ TreeFault.Memory → put_fault self.old key limit ≡ Some e) }
        ensures unchanged { OnErr result (self.new ≡ self.old) }
    {
        self.rules();
        key.rules();
        let mut folders = key.folders(alloc)?;
        let there = match self.there(&key, &folders) {
            Ok(there) => there,
            Err(place) => return Err(TreeFault::FileAbove(folders.remove(place))),
        };
        if self.get(&key).is_some() {
            return Err(TreeFault::Taken);
        }
        drop_front(&mut folders, there);
        if folders.push(key).is_err() {
            return Err(TreeFault::Memory);
        }
        if self.all.len() + folders.len() > limit as usize {
            return Err(TreeFault::Full);
        }
        let mut ids = Vec::with_capacity(alloc, folders.len())?;
        self.add_all(alloc, folders, file, &mut ids)?;
        Ok(ids)
    }

    /// The row of an id gets another key, and each row beneath it the key that follows from that. All keep their ids.
    pub fn rename(&mut self, alloc: Global, id: u32, to: ItemKey) -> Result<bool, TreeFault>
        requires folder { HasFolder self.old to }
        requires apart { IfSome (row_of self.old id) (λ r. is_within r.key to ≡ false) }
        requires keys { IfSome (row_of self.old id) (λ r. StayKeys self.old r.key to) }
        ensures value { IfOk result (λ b. b ≡ is_some (row_of self.old id)) }
        ensures rows { OnOk result (self.new ≡ renamed self.old id to) }
        ensures ok { OnOk result (rename_fault self.old id to ≡ None) }
        ensures fault { IfErr result (λ e. e ≢ TreeFault.Memory → rename_fault self.old id to ≡ Some e) }
        ensures unchanged { OnErr result (self.new ≡ self.old) }
    {
        let from = match self.key(id) {
            Some(key) => key.clone()?,
            None => return Ok(false),
        };
        if self.get(&to).is_some() {
            return Err(TreeFault::Taken);
        }
        self.move_within(alloc, id, &from, &to)?;
        Ok(true)
    }

    /// Whether what `rename` asks for holds: the folder of the key is there, the key isn't that of the row and doesn't lie beneath
    /// it, and each key that changes with it is one still.
    pub fn may_rename(&self, id: u32, to: &ItemKey) -> bool
        ensures folder { result ≡ true → HasFolder self.now to.now }
        ensures apart { result ≡ true → IfSome (row_of self.now id) (λ r. is_within r.key to.now ≡ false) }
        ensures keys { result ≡ true → IfSome (row_of self.now id) (λ r. StayKeys self.now r.key to.now) }
        ensures exact { HasFolder self.now to.now → IfSome (row_of self.now id) (λ r. is_within r.key to.now ≡ false) → IfSome (row_of self.now id) (λ r. StayKeys self.now r.key to.now) → result ≡ true }
    {
        to.rules();
        if !self.has_folder(to) {
            return false;
        }
        let Some(from) = self.key(id) else {
            return true;
        };
        if is_within(from, to) {
            return false;
        }
        self.keys_stay(id, from, from, to)
    }

    // Whether an item's folder is there, or it lies in none.
    fn has_folder(&self, key: &ItemKey) -> bool
        ensures there { result ≡ true → HasFolder self.now key.now }
        ensures exact { HasFolder self.now key.now → result ≡ true }
    {
        self.rules();
        if key.path.as_str() == "." {
            return true;
        }
        match self.folder(key) {
            Some(id) => !self.is_file(id),
            None => false,
        }
    }

    // Whether all keys beneath that of a folder are keys still where one that it is within becomes another.
    fn keys_stay(&self, id: u32, folder: &ItemKey, from: &ItemKey, to: &ItemKey) -> bool
        requires live { option_map (λ r. r.key) (row_of self.now id) ≡ Some folder.now }
        requires within { is_within from.now folder.now ≡ true }
        ensures stay { result ≡ true → (r : Row) → IsLive self.now r → lies_beneath folder.now r ≡ true → key_fault to.now.repo (moved_whole from.now to.now r.key) ≡ None }
        ensures exact { ((r : Row) → IsLive self.now r → lies_beneath folder.now r ≡ true → key_fault to.now.repo (moved_whole from.now to.now r.key) ≡ None) → result ≡ true }
    {
        self.rules();
        from.rules();
        folder.rules();
        for child in self.inside(id, folder) {
            let Some(key) = self.key(*child) else {
                unreachable!();
            };
            if !stays(key, from, to) {
                return false;
            }
            if !self.keys_stay(*child, key, from, to) {
                return false;
            }
        }
        true
    }

    // The rows within the key of an id are moved to another key, which isn't there.
    fn move_within(
        &mut self,
        alloc: Global,
        id: u32,
        from: &ItemKey,
        to: &ItemKey,
    ) -> Result<(), AllocError>
        requires live { option_map (λ r. r.key) (row_of self.old id) ≡ Some from.now }
        requires absent { row_at self.old to.now ≡ None }
        requires folder { HasFolder self.old to.now }
        requires apart { is_within from.now to.now ≡ false }
        requires keys { StayKeys self.old from.now to.now }
        ensures moved { OnOk result (self.new ≡ map (moved_row from.now to.now) self.old) }
        ensures unchanged { OnErr result (self.new ≡ self.old) }
    {
        from.rules();
        to.rules();
        let ids = self.ids_within(alloc, id, from)?;
        let keys = self.new_keys(alloc, from, to, &ids)?;
        let folders = (self.folder(from), self.folder(to));
        // Before anything changes, so that nothing behind the shift can fail.
        self.order.make_room(alloc, keys.len())?;
        shift_both(
            &mut self.children,
            &mut self.repos,
            alloc,
            folders,
            id,
            from.repo.as_str(),
            to.repo.as_str(),
            &ids,
        )?;
        rekey_all(&mut self.slots, &mut self.order, &ids, keys);
        Ok(())
    }

    // The ids of the rows within the key of an id. They ascend.
    fn ids_within(&self, alloc: Global, id: u32, from: &ItemKey) -> Result<Vec<u32>, AllocError>
        requires live { option_map (λ r. r.key) (row_of self.now id) ≡ Some from.now }
        ensures within { IfOk result (λ v. AreWithin self.now from.now v.items) }
        ensures ascend { IfOk result (λ v. AscendFrom 0 v.items) }
    {
        let mut found = Vec::new(alloc);
        found.push(id)?;
        self.find_beneath(id, from, &mut found)?;
        found.sort_unstable();
        Ok(found)
    }

    // The ids of the rows beneath the key of an id, the first that is found: behind each folder what lies in it.
    fn find_beneath(&self, id: u32, from: &ItemKey, found: &mut Vec<u32>) -> Result<(), AllocError>
        requires first { found.old.items ≡ id ∷ [] }
        requires live { option_map (λ r. r.key) (row_of self.now id) ≡ Some from.now }
        ensures { OnOk result (AreWithin self.now from.now found.new.items) }
    {
        self.rules();
        from.rules();
        let mut next = 0usize;
        'folders: while next < found.len() {
            let id = found[next];
            let Some(folder) = self.key(id) else {
                unreachable!();
            };
            found.extend_from_slice(self.inside(id, folder))?;
            next += 1;
        }
        Ok(())
    }

    // The keys that rows within one get where that becomes another.
    fn new_keys(
        &self,
        alloc: Global,
        from: &ItemKey,
        to: &ItemKey,
        ids: &[u32],
    ) -> Result<Vec<ItemKey>, AllocError>
        requires within { AreWithin self.now from.now ids.now }
        requires keys { StayKeys self.now from.now to.now }
        ensures { IfOk result (λ v. v.items ≡ map (key_for self.now from.now to.now) ids.now) }
    {
        self.rules();
        from.rules();
        let to_whole = to.whole(alloc)?;
        let mut keys = Vec::with_capacity(alloc, ids.len())?;
        for id in ids {
            let Some(item) = self.key(*id) else {
                unreachable!();
            };
            let Some(key) = moved_key(alloc, item, from, to, to_whole.as_str())? else {
                unreachable!();
            };
            keys.push(key)?;
        }
        Ok(keys)
    }

    // How many of the folders above a key are there, or where a file stands among them.
    fn there(&self, key: &ItemKey, folders: &[ItemKey]) -> Result<usize, usize>
        requires { folders.now ≡ folders_above key.now }
        ensures within { IfOk result (λ n. n ≤ length folders.now) }
        ensures missing { IfOk result (λ n. filter (is_missing self.now) folders.now ≡ drop n folders.now) }
        ensures no_file { OnOk result (find (is_file_at self.now) folders.now ≡ None) }
        ensures last { IfOk result (λ n. 0 < n → IsFolder self.now (slice_index_or folders.now (n - 1) key.now)) }
        ensures at_file { IfErr result (λ i. i < length folders.now) }
        ensures file { IfErr result (λ i. find (is_file_at self.now) folders.now ≡ Some (slice_index_or folders.now i key.now)) }
    {
        self.rules();
        key.rules();
        let mut there = folders.len();
        'up: while there > 0 {
            match self.get(&folders[there - 1]) {
                Some(id) if self.is_file(id) => return Err(there - 1),
                Some(_) => return Ok(there),
                None => there -= 1,
            }
        }
        Ok(0)
    }
}

// Without the first keys.
fn drop_front(keys: &mut Vec<ItemKey>, count: usize)
    requires { count ≤ length keys.old.items }
    ensures { keys.new.items ≡ drop count keys.old.items }
{
    for _i in 0..count {
        keys.remove(0);
    }
}

// Whether a key is that of a file, with these to come.
fn is_last_file(is_file: bool, rest: &[ItemKey]) -> bool
    ensures { result ≡ is_file && is_end rest.now }
{
    is_file && rest.is_empty()
}
