// Lists of ids under keys.
ghost use Rattle.std.specs.Prelude.{◌≡◌, [], None, if◌then◌else◌, OnOk};
ghost use Rattle.std.specs.BTreeMap.{is_at};
ghost use Rattle.std.specs.Ordering.{nat_cmp};
ghost use Rattle.std.specs.List.Sorted.{IsStrictlySortedBy};
ghost use Rattle.arti_ids.specs.Ids.{with_id, without_id};
ghost use Rattle.arti_ids.specs.Lists.{ids_of, IsReady};
ghost use Rattle.arti_ids.specs.Found.{found};

use crate::ids::Ids;
use std::alloc::{AllocError, Global};
use std::collections::BTreeMap;
use std::slice;

/// Ascending lists of ids under keys. Most have one id, which takes less room in a map of its own. Contracts see by `found`
/// the list under each key.
#[derive(Drop)]
pub struct Lists<K: Ord> {
    ones: BTreeMap<K, Option<u32>>,
    // What has a list here is taken from here.
    many: BTreeMap<K, Ids>,
}

impl<K: Ord> Lists<K> {
    /// No lists.
    pub fn new(alloc: Global) -> Lists<K>
        ensures { (q : K) → found K.cmp result q ≡ None }
    {
        Lists {
            ones: BTreeMap::new(alloc),
            many: BTreeMap::new(alloc),
        }
    }

    /// The list under a key.
    pub fn list(&self, key: &K) -> &[u32]
        ensures ids { result.now ≡ ids_of (found K.cmp self.now key.now) }
        ensures ascending { IsStrictlySortedBy nat_cmp result.now }
    {
        match self.many.get(key) {
            Some(ids) => ids.as_slice(),
            None => match self.ones.get(key) {
                Some(Some(id)) => slice::from_ref(id),
                _ => &[],
            },
        }
    }

    /// The id is in the list under a key.
    pub fn add(&mut self, key: &K, id: u32)
        requires ready { IsReady id (found K.cmp self.old key.now) }
        ensures ids { (q : K) → ids_of (found K.cmp self.new q) ≡ (if is_at (K.cmp key.now) q then with_id id (ids_of (found K.cmp self.old q)) else ids_of (found K.cmp self.old q)) }
    {
        if let Some(ids) = self.many.get_mut(key) {
            ids.add(id);
        } else if let Some(one) = self.ones.get_mut(key) {
            *one = Some(id);
        }
    }

    /// The id isn't in the list under a key.
    pub fn remove(&mut self, key: &K, id: u32)
        ensures ids { (q : K) → ids_of (found K.cmp self.new q) ≡ (if is_at (K.cmp key.now) q then without_id id (ids_of (found K.cmp self.old q)) else ids_of (found K.cmp self.old q)) }
        ensures ready { (q : K) → IsReady id (found K.cmp self.old q) → IsReady id (found K.cmp self.new q) }
    {
        if let Some(ids) = self.many.get_mut(key) {
            ids.remove(id);
        } else if let Some(one) = self.ones.get_mut(key) {
            if *one == Some(id) {
                *one = None;
            }
        }
    }
}

impl<K: Ord + Copy + Drop> Lists<K> {
    /// Room for the id in the list under a key. Where it is in the list nothing happens.
    pub fn make_room(&mut self, alloc: Global, key: &K, id: u32) -> Result<(), AllocError>
        ensures ids { (q : K) → ids_of (found K.cmp self.new q) ≡ ids_of (found K.cmp self.old q) }
        ensures ready { OnOk result (IsReady id (found K.cmp self.new key.now)) }
    {
        if let Some(ids) = self.many.get_mut(key) {
            return ids.make_room(alloc, id);
        }
        match self.ones.get(key) {
            None => {
                self.ones.insert(*key, None)?;
            }
            Some(None) => {}
            Some(Some(one)) => {
                if *one != id {
                    let ids = Ids::beside(alloc, *one)?;
                    self.many.insert(*key, ids)?;
                }
            }
        }
        Ok(())
    }
}

impl<K: Ord + Drop> Lists<K> {
    /// Without the list under a key, if it is empty.
    pub fn tidy(&mut self, key: &K)
        ensures ids { (q : K) → ids_of (found K.cmp self.new q) ≡ ids_of (found K.cmp self.old q) }
    {
        if self.list(key).is_empty() {
            self.many.remove(key);
            self.ones.remove(key);
        }
    }
}
