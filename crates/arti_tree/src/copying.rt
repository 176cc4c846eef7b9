// Copies of what is kept of the rows.
ghost use Rattle.std.specs.Prelude.{◌≡◌, ℕ, List, IfOk};
ghost use Rattle.arti_tree.specs.Children.{list_at};
ghost use Rattle.arti_tree.specs.Repos.{list_of};

use crate::lists::Children;
use crate::repos::Repos;
use crate::slot::Slot;
use std::alloc::{AllocError, Global};

// What is kept under an id.
fn copied(slot: &Option<Slot>) -> Result<Option<Slot>, AllocError>
    ensures { IfOk result (λ s. s ≡ slot.now) }
{
    match slot {
        Some(slot) => Ok(Some(Slot {
            key: slot.key.clone()?,
            is_file: slot.is_file,
        })),
        None => Ok(None),
    }
}

/// What is kept under each id.
pub(crate) fn copy_slots(
    alloc: Global,
    slots: &[Option<Slot>],
) -> Result<Vec<Option<Slot>>, AllocError>
    ensures { IfOk result (λ v. v.items ≡ slots.now) }
{
    let mut copy = Vec::with_capacity(alloc, slots.len())?;
    for slot in slots {
        copy.push(copied(slot)?)?;
    }
    Ok(copy)
}

/// Ids.
pub(crate) fn copy_ids(alloc: Global, ids: &[u32]) -> Result<Vec<u32>, AllocError>
    ensures { IfOk result (λ v. v.items ≡ ids.now) }
{
    let mut copy = Vec::with_capacity(alloc, ids.len())?;
    copy.extend_from_slice(ids)?;
    Ok(copy)
}

/// The list of each folder.
pub(crate) fn copy_children(children: &Children) -> Result<Children, AllocError>
    ensures { IfOk result (λ c. (i : ℕ) → list_at c i ≡ list_at children.now i) }
{
    children.clone()
}

/// The list of each repository.
pub(crate) fn copy_repos(repos: &Repos) -> Result<Repos, AllocError>
    ensures { IfOk result (λ r. (q : List ℕ) → list_of r q ≡ list_of repos.now q) }
{
    repos.clone()
}
