// The rows that lie in each folder.
ghost use Rattle.std.specs.Prelude.{◌≡◌, ◌==◌, ℕ, List, if◌then◌else◌, nat_eq, true, false, ◌∷◌, [], OnOk, OnErr};
ghost use Rattle.std.specs.Cmp.Lexicographic.{pointwise};
ghost use Rattle.std.specs.Str.{bytes_eq};
ghost use Rattle.arti_tree.specs.Ids.{AscendFrom, Lacks, with_id, without_id};
ghost use Rattle.arti_tree.specs.Slots.{is_it};
ghost use Rattle.arti_tree.specs.Children.{list_at};
ghost use Rattle.arti_tree.specs.Repos.{list_of};
ghost use Rattle.arti_tree.specs.Renames.{has};
ghost use Rattle.arti_tree.specs.Shifts.{AreNew, shifted};

use crate::ids::{add_id, drop_id};
use crate::repos::{Repos, enter, shift_repos};
use std::alloc::{AllocError, Global};
use std::collections::BTreeMap;

/// The ids of each folder's rows, by its id. A folder in which nothing ever lay has no list.
pub(crate) type Children = BTreeMap<u32, Vec<u32>>;

/// The list of a folder.
pub(crate) fn listed(children: &Children, id: u32) -> &[u32]
    ensures { result.now ≡ list_at children.now id }
{
    match children.get(&id) {
        Some(ids) => ids.as_slice(),
        None => &[],
    }
}

// A row more in the list of a folder.
fn enter_list(
    children: &mut Children,
    alloc: Global,
    folder: u32,
    id: u32,
) -> Result<(), AllocError>
    requires ascend { AscendFrom 0 (list_at children.old folder) }
    requires absent { Lacks (list_at children.old folder) id }
    ensures more { OnOk result ((i : ℕ) → list_at children.new i ≡ (if folder == i then with_id id (list_at children.old i) else list_at children.old i)) }
    ensures unchanged { OnErr result ((i : ℕ) → list_at children.new i ≡ list_at children.old i) }
{
    if let Some(ids) = children.get_mut(&folder) {
        if let Err(error) = add_id(ids, id) {
            return Err(error);
        }
        return Ok(());
    }
    let mut ids = Vec::with_capacity(alloc, 1)?;
    ids.push(id)?;
    children.insert(folder, ids)?;
    Ok(())
}

// A row less in the list of a folder.
fn leave_list(children: &mut Children, folder: u32, id: u32)
    requires { AscendFrom 0 (list_at children.old folder) }
    ensures { (i : ℕ) → list_at children.new i ≡ (if folder == i then without_id id (list_at children.old i) else list_at children.old i) }
{
    if let Some(ids) = children.get_mut(&folder) {
        drop_id(ids, id);
    }
}

/// A row more in a folder.
pub(crate) fn enter_folder(
    children: &mut Children,
    alloc: Global,
    folder: Option<u32>,
    id: u32,
) -> Result<(), AllocError>
    requires ascend { (i : ℕ) → AscendFrom 0 (list_at children.old i) }
    requires absent { (i : ℕ) → is_it folder i ≡ true → Lacks (list_at children.old i) id }
    ensures more { OnOk result ((i : ℕ) → list_at children.new i ≡ (if is_it folder i then with_id id (list_at children.old i) else list_at children.old i)) }
    ensures unchanged { OnErr result ((i : ℕ) → list_at children.new i ≡ list_at children.old i) }
{
    match folder {
        Some(folder) => enter_list(children, alloc, folder, id),
        None => Ok(()),
    }
}

/// A row less in a folder.
pub(crate) fn leave_folder(children: &mut Children, folder: Option<u32>, id: u32)
    requires { (i : ℕ) → AscendFrom 0 (list_at children.old i) }
    ensures less { (i : ℕ) → list_at children.new i ≡ (if is_it folder i then without_id id (list_at children.old i) else list_at children.old i) }
{
    if let Some(folder) = folder {
        leave_list(children, folder, id);
    }
}

/// These have no rows left.
pub(crate) fn drop_lists(children: &mut Children, ids: &[u32])
    ensures { (i : ℕ) → list_at children.new i ≡ (if has ids.now i then [] else list_at children.old i) }
{
    for id in ids {
        children.remove(id);
    }
}

/// A row more in a folder and in a repository, or in neither.
pub(crate) fn enter_both(
    children: &mut Children,
    repos: &mut Repos,
    alloc: Global,
    folder: Option<u32>,
    repo: &str,
    id: u32,
) -> Result<(), AllocError>
    requires ascend { (i : ℕ) → AscendFrom 0 (list_at children.old i) }
    requires absent { (i : ℕ) → Lacks (list_at children.old i) id }
    requires repo_ascends { AscendFrom 0 (list_of repos.old repo.now) }
    requires repo_lacks { Lacks (list_of repos.old repo.now) id }
    ensures in_folder { OnOk result ((i : ℕ) → list_at children.new i ≡ (if is_it folder i then with_id id (list_at children.old i) else list_at children.old i)) }
    ensures in_repo { OnOk result ((q : List ℕ) → list_of repos.new q ≡ (if pointwise nat_eq q repo.now then with_id id (list_of repos.old q) else list_of repos.old q)) }
    ensures folders_stay { OnErr result ((i : ℕ) → list_at children.new i ≡ list_at children.old i) }
    ensures repos_stay { OnErr result ((q : List ℕ) → list_of repos.new q ≡ list_of repos.old q) }
{
    enter_folder(children, alloc, folder, id)?;
    if let Err(error) = enter(repos, alloc, repo, id) {
        leave_folder(children, folder, id);
        return Err(error);
    }
    Ok(())
}

/// Rows whose ids ascend leave a repository for another, and one of them a folder for another; or nothing changes. Where the two are
/// the same there is nothing to do.
pub(crate) fn shift_both(
    children: &mut Children,
    repos: &mut Repos,
    alloc: Global,
    folders: (Option<u32>, Option<u32>),
    id: u32,
    from: &str,
    to: &str,
    ids: &[u32],
) -> Result<(), AllocError>
    requires ascend { (i : ℕ) → AscendFrom 0 (list_at children.old i) }
    requires absent { (i : ℕ) → is_it folders.0 i ≡ false → Lacks (list_at children.old i) id }
    requires repos_ascend { (q : List ℕ) → AscendFrom 0 (list_of repos.old q) }
    requires ids_ascend { AscendFrom 0 ids.now }
    requires repos_lack { bytes_eq from.now to.now ≡ false → AreNew (list_of repos.old to.now) ids.now }
    ensures folders { OnOk result ((i : ℕ) → list_at children.new i ≡ shifted (is_it folders.0 i) (is_it folders.1 i) (id ∷ []) (list_at children.old i)) }
    ensures repos { OnOk result ((q : List ℕ) → list_of repos.new q ≡ shifted (bytes_eq q from.now) (bytes_eq q to.now) ids.now (list_of repos.old q)) }
    ensures folders_stay { OnErr result ((i : ℕ) → list_at children.new i ≡ list_at children.old i) }
    ensures repos_stay { OnErr result ((q : List ℕ) → list_of repos.new q ≡ list_of repos.old q) }
{
    let (was, will) = folders;
    if was == will {
        return shift_repos(repos, alloc, from, to, ids);
    }
    enter_folder(children, alloc, will, id)?;
    if let Err(error) = shift_repos(repos, alloc, from, to, ids) {
        leave_folder(children, will, id);
        return Err(error);
    }
    leave_folder(children, was, id);
    Ok(())
}
