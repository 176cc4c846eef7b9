// The rows of each repository.
ghost use Rattle.std.specs.Prelude.{◌≡◌, ℕ, List, if◌then◌else◌, false, OnOk, OnErr};
ghost use Rattle.std.specs.Str.{bytes_eq};
ghost use Rattle.arti_tree.specs.Ids.{AscendFrom, Lacks, with_id, without_id};
ghost use Rattle.arti_tree.specs.Repos.{list_of};
ghost use Rattle.arti_tree.specs.Shifts.{AreNew, shifted, with_ids, without_ids};

use crate::ids::{add_id, add_ids, drop_ascending, drop_id};
use std::alloc::{AllocError, Global};
use std::collections::BTreeMap;

/// The ids of each repository's rows, by its name.
pub(crate) type Repos = BTreeMap<String, Vec<u32>>;

/// The list of a repository.
pub(crate) fn ids_of<'a>(repos: &'a Repos, repo: &str) -> &'a [u32]
    ensures { result.now ≡ list_of repos.now repo.now }
{
    match repos.get(repo) {
        Some(ids) => ids.as_slice(),
        None => &[],
    }
}

/// A row more in a repository.
pub(crate) fn enter(repos: &mut Repos, alloc: Global, repo: &str, id: u32) -> Result<(), AllocError>
    requires ascend { AscendFrom 0 (list_of repos.old repo.now) }
    requires absent { Lacks (list_of repos.old repo.now) id }
    ensures more { OnOk result ((q : List ℕ) → list_of repos.new q ≡ (if bytes_eq q repo.now then with_id id (list_of repos.old q) else list_of repos.old q)) }
    ensures unchanged { OnErr result ((q : List ℕ) → list_of repos.new q ≡ list_of repos.old q) }
{
    if let Some(ids) = repos.get_mut(repo) {
        if let Err(error) = add_id(ids, id) {
            return Err(error);
        }
        return Ok(());
    }
    let mut ids = Vec::with_capacity(alloc, 1)?;
    ids.push(id)?;
    repos.insert(String::from_str(alloc, repo)?, ids)?;
    Ok(())
}

/// A row less in a repository.
pub(crate) fn leave(repos: &mut Repos, repo: &str, id: u32)
    requires { AscendFrom 0 (list_of repos.old repo.now) }
    ensures { (q : List ℕ) → list_of repos.new q ≡ (if bytes_eq q repo.now then without_id id (list_of repos.old q) else list_of repos.old q) }
{
    if let Some(ids) = repos.get_mut(repo) {
        drop_id(ids, id);
    }
}

// Rows more in a repository, whose ids ascend, or none of them.
fn enter_all(repos: &mut Repos, alloc: Global, repo: &str, ids: &[u32]) -> Result<(), AllocError>
    requires ascend { AscendFrom 0 (list_of repos.old repo.now) }
    requires ids_ascend { AscendFrom 0 ids.now }
    requires absent { AreNew (list_of repos.old repo.now) ids.now }
    ensures more { OnOk result ((q : List ℕ) → list_of repos.new q ≡ (if bytes_eq q repo.now then with_ids ids.now (list_of repos.old q) else list_of repos.old q)) }
    ensures unchanged { OnErr result ((q : List ℕ) → list_of repos.new q ≡ list_of repos.old q) }
{
    if let Some(list) = repos.get_mut(repo) {
        if let Err(error) = add_ids(list, alloc, ids) {
            return Err(error);
        }
        return Ok(());
    }
    let mut list = Vec::new(alloc);
    add_ids(&mut list, alloc, ids)?;
    repos.insert(String::from_str(alloc, repo)?, list)?;
    Ok(())
}

/// Rows less in a repository, whose ids ascend.
pub(crate) fn leave_ascending(repos: &mut Repos, repo: &str, ids: &[u32])
    requires ascend { AscendFrom 0 (list_of repos.old repo.now) }
    requires ids_ascend { AscendFrom 0 ids.now }
    ensures { (q : List ℕ) → list_of repos.new q ≡ (if bytes_eq q repo.now then without_ids ids.now (list_of repos.old q) else list_of repos.old q) }
{
    if let Some(list) = repos.get_mut(repo) {
        drop_ascending(list, ids);
    }
}

/// Rows whose ids ascend leave a repository for another, or stay where that is the same one.
pub(crate) fn shift_repos(
    repos: &mut Repos,
    alloc: Global,
    from: &str,
    to: &str,
    ids: &[u32],
) -> Result<(), AllocError>
    requires ascend { (q : List ℕ) → AscendFrom 0 (list_of repos.old q) }
    requires ids_ascend { AscendFrom 0 ids.now }
    requires absent { bytes_eq from.now to.now ≡ false → AreNew (list_of repos.old to.now) ids.now }
    ensures shifted { OnOk result ((q : List ℕ) → list_of repos.new q ≡ shifted (bytes_eq q from.now) (bytes_eq q to.now) ids.now (list_of repos.old q)) }
    ensures unchanged { OnErr result ((q : List ℕ) → list_of repos.new q ≡ list_of repos.old q) }
{
    if from == to {
        return Ok(());
    }
    enter_all(repos, alloc, to, ids)?;
    leave_ascending(repos, from, ids);
    Ok(())
}
