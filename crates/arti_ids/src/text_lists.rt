// Lists of ids under texts.
ghost use Rattle.std.specs.Prelude.{◌≡◌, ℕ, List, None, true, if◌then◌else◌, OnOk};
ghost use Rattle.std.specs.Str.{bytes_eq};
ghost use Rattle.std.specs.Ordering.{nat_cmp};
ghost use Rattle.std.specs.List.Sorted.{IsStrictlySortedBy};
ghost use Rattle.arti_ids.specs.Ids.{with_id, without_id};
ghost use Rattle.arti_ids.specs.Lists.{ids_of, IsReady};
ghost use Rattle.arti_ids.specs.Found.{list_under};

use crate::ids::Ids;
use std::alloc::{AllocError, Global};
use std::collections::BTreeMap;

/// Ascending lists of ids under texts. Contracts see by `list_under` the list under each text.
#[derive(Drop)]
pub struct TextLists {
    lists: BTreeMap<String, Ids>,
}

impl TextLists {
    /// No lists.
    pub fn new(alloc: Global) -> TextLists
        ensures { (t : List ℕ) → list_under result t ≡ None }
    {
        TextLists {
            lists: BTreeMap::new(alloc),
        }
    }

    /// Whether there is no list, not even an empty one.
    pub fn is_empty(&self) -> bool
        ensures { result ≡ true → (t : List ℕ) → list_under self.now t ≡ None }
    {
        self.lists.is_empty()
    }

    /// The list under a text.
    pub fn list(&self, text: &str) -> &[u32]
        ensures ids { result.now ≡ ids_of (list_under self.now text.now) }
        ensures ascending { IsStrictlySortedBy nat_cmp result.now }
    {
        match self.lists.get(text) {
            Some(ids) => ids.as_slice(),
            None => &[],
        }
    }

    /// Room for the id in the list under a text. Where it is in the list nothing happens.
    pub fn make_room(&mut self, alloc: Global, text: &str, id: u32) -> Result<(), AllocError>
        ensures ids { (t : List ℕ) → ids_of (list_under self.new t) ≡ ids_of (list_under self.old t) }
        ensures ready { OnOk result (IsReady id (list_under self.new text.now)) }
        ensures keeps { OnOk result ((t : List ℕ) → IsReady id (list_under self.old t) → IsReady id (list_under self.new t)) }
    {
        if let Some(ids) = self.lists.get_mut(text) {
            return ids.make_room(alloc, id);
        }
        self.lists
            .insert(String::from_str(alloc, text)?, Ids::new())?;
        Ok(())
    }

    /// The id is in the list under a text.
    pub fn add(&mut self, text: &str, id: u32)
        requires ready { IsReady id (list_under self.old text.now) }
        ensures ids { (t : List ℕ) → ids_of (list_under self.new t) ≡ (if bytes_eq text.now t then with_id id (ids_of (list_under self.old t)) else ids_of (list_under self.old t)) }
        ensures ready { (t : List ℕ) → IsReady id (list_under self.old t) → IsReady id (list_under self.new t) }
    {
        if let Some(ids) = self.lists.get_mut(text) {
            ids.add(id);
        }
    }

    /// The id isn't in the list under a text.
    pub fn remove(&mut self, text: &str, id: u32)
        ensures ids { (t : List ℕ) → ids_of (list_under self.new t) ≡ (if bytes_eq text.now t then without_id id (ids_of (list_under self.old t)) else ids_of (list_under self.old t)) }
        ensures ready { (t : List ℕ) → IsReady id (list_under self.old t) → IsReady id (list_under self.new t) }
    {
        if let Some(ids) = self.lists.get_mut(text) {
            ids.remove(id);
        }
    }

    /// Without the list under a text, if it is empty.
    pub fn tidy(&mut self, text: &str)
        ensures ids { (t : List ℕ) → ids_of (list_under self.new t) ≡ ids_of (list_under self.old t) }
    {
        if self.list(text).is_empty() {
            self.lists.remove(text);
        }
    }
}
