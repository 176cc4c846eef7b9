// Keys under ids with the rows of these ids, and what stands at a key.
ghost use Rattle.std.specs.Prelude.{◌≡◌, ◌∷◌, true, IfOk, [], length, filter, option_map};
ghost use Rattle.std.specs.Option.{option_copied};
ghost use Rattle.arti_tree.specs.Rows.{ids};
ghost use Rattle.arti_model.specs.Store.{find_item, has_file, has_item, item_of_row};
ghost use Rattle.arti_model.specs.Apply.{has_folder};
ghost use Rattle.arti_model.specs.Edits.{acts_on, is_within};
ghost use Rattle.arti_catalog.specs.Held.{Fits, items_of};

use crate::rows::Rows;
use arti_rows::{ItemKey, ItemRow};
use arti_tree::Tree;
use std::alloc::{AllocError, Global};

/// Keys under ids, and the rows of these ids.
#[derive(Drop)]
pub(crate) struct Parts {
    pub(crate) tree: Tree,
    pub(crate) rows: Rows,
}

impl Parts {
    /// No items.
    pub(crate) fn new(alloc: Global) -> Result<Parts, AllocError>
        ensures tree { IfOk result (λ p. p.tree ≡ []) }
        ensures fits { IfOk result (λ p. Fits p.tree p.rows) }
    {
        let tree = Tree::new(alloc)?;
        tree.rules();
        let _ = tree.ordered();
        Ok(Parts {
            tree,
            rows: Rows::new(alloc),
        })
    }

    /// The same keys and rows once more.
    pub(crate) fn copy(&self, alloc: Global) -> Result<Parts, AllocError>
        requires { Fits self.now.tree self.now.rows }
        ensures tree { IfOk result (λ p. p.tree ≡ self.now.tree) }
        ensures rows { IfOk result (λ p. p.rows ≡ self.now.rows) }
    {
        Ok(Parts {
            tree: self.tree.copy(alloc)?,
            rows: self.rows.copy()?,
        })
    }

    /// The ids of the item of a key and of those beneath it.
    pub(crate) fn within(&self, alloc: Global, key: &ItemKey) -> Result<Vec<u32>, AllocError>
        requires fits { Fits self.now.tree self.now.rows }
        requires there { has_item (items_of self.now.tree self.now.rows) key.now ≡ true }
        ensures { IfOk result (λ v. v.items ≡ ids (filter (λ r. is_within key.now r.key) self.now.tree)) }
    {
        self.tree.rules();
        match self.tree.get(key) {
            Some(id) => Ok(self.tree.within(alloc, id)?),
            None => Ok(Vec::new(alloc)),
        }
    }

    /// The ids of the items that an edit of properties acts on.
    pub(crate) fn acted_on(
        &self,
        alloc: Global,
        deep: bool,
        key: &ItemKey,
    ) -> Result<Vec<u32>, AllocError>
        requires fits { Fits self.now.tree self.now.rows }
        requires there { has_item (items_of self.now.tree self.now.rows) key.now ≡ true }
        ensures { IfOk result (λ v. v.items ≡ ids (filter (λ r. acts_on deep key.now r.key) self.now.tree)) }
    {
        if deep {
            return self.within(alloc, key);
        }
        match self.tree.get(key) {
            Some(id) => Ok(alone(alloc, id)?),
            None => Ok(Vec::new(alloc)),
        }
    }

    /// How many items there are.
    pub(crate) fn len(&self) -> usize
        requires { Fits self.now.tree self.now.rows }
        ensures { result ≡ length (items_of self.now.tree self.now.rows) }
    {
        self.tree.all().len()
    }

    /// The row of a key.
    pub(crate) fn find(&self, key: &ItemKey) -> Option<&ItemRow>
        requires { Fits self.now.tree self.now.rows }
        ensures { option_map item_of_row (option_copied result) ≡ find_item (items_of self.now.tree self.now.rows) key.now }
    {
        match self.tree.get(key) {
            Some(id) => self.rows.get(id),
            None => None,
        }
    }

    /// Whether something stands at the key.
    pub(crate) fn has(&self, key: &ItemKey) -> bool
        requires { Fits self.now.tree self.now.rows }
        ensures { result ≡ has_item (items_of self.now.tree self.now.rows) key.now }
    {
        self.tree.get(key).is_some()
    }

    /// Whether a file stands at the key.
    pub(crate) fn has_file(&self, key: &ItemKey) -> bool
        requires { Fits self.now.tree self.now.rows }
        ensures { result ≡ has_file (items_of self.now.tree self.now.rows) key.now }
    {
        match self.tree.get(key) {
            Some(id) => self.tree.is_file(id),
            None => false,
        }
    }

    /// Whether a folder stands at the key.
    pub(crate) fn has_folder(&self, key: &ItemKey) -> bool
        requires { Fits self.now.tree self.now.rows }
        ensures { result ≡ has_folder (items_of self.now.tree self.now.rows) key.now }
    {
        self.has(key) && !self.has_file(key)
    }
}

// An id alone.
fn alone(alloc: Global, id: u32) -> Result<Vec<u32>, AllocError>
    ensures { IfOk result (λ v. v.items ≡ id ∷ []) }
{
    let mut ids = Vec::new(alloc);
    ids.push(id)?;
    Ok(ids)
}
