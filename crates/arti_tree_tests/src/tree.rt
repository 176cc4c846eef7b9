// A tree against plain rows.
use arti_rows::ItemKey;
use arti_tree::{Tree, TreeFault};
use std::alloc::{AllocError, Global};
use std::process::Abort;
use std::test::Fail;

#[derive(Drop)]
struct Plain {
    id: u32,
    key: ItemKey,
    is_file: bool,
}

#[derive(Clone, Copy, Debug, PartialEq, Eq)]
enum Answer {
    Added(usize),
    FileAbove,
    Taken,
    Full,
    Memory,
    Removed,
    Gone(usize),
    Moved(usize),
    Barred,
    Stays,
}

#[derive(Clone, Copy)]
enum Step {
    Put(bool, u32),
    Remove,
    RemoveWithin,
    Rename(&'static str, &'static str),
}

#[test]
fn each_list_is_that_of_plain_rows(rt: HostRuntime) -> Result<(), Fail> {
    let file = Step::Put(true, 8);
    let folder = Step::Put(false, 8);
    let alloc = rt.alloc();
    let mut tree = Tree::new(alloc)?;
    let mut rows = Vec::new(alloc);
    for (step, repo, whole, answer) in [
        (file, "b", "f/g/x", Answer::Added(3)),
        (file, "b", "f/g/y", Answer::Added(1)),
        (folder, "b", "f/g", Answer::Taken),
        (file, "b", "f/g/x/z", Answer::FileAbove),
        (file, "a", "x", Answer::Added(1)),
        (folder, "b", "f/g-/a", Answer::Added(2)),
        (Step::Remove, "b", "f/g", Answer::Stays),
        (Step::Remove, "b", "f/g/x", Answer::Removed),
        (Step::Remove, "b", "f/g/x", Answer::Stays),
        (folder, "b", "f/h", Answer::Added(1)),
        (Step::Put(true, 9), "c", "p/q/r", Answer::Full),
        (Step::Put(true, 10), "c", "p/q/r", Answer::Added(3)),
        (Step::Remove, "b", "f/g/y", Answer::Removed),
        (Step::Remove, "b", "f/g", Answer::Removed),
        (Step::Remove, "a", "x", Answer::Removed),
        (Step::Put(true, 8), "a", "y/z", Answer::Full),
        (Step::Put(true, 9), "a", "y/z", Answer::Added(2)),
        (Step::RemoveWithin, "b", "f/g-", Answer::Gone(2)),
        (Step::RemoveWithin, "b", "f/g-", Answer::Stays),
        (Step::RemoveWithin, "c", "p/q/r", Answer::Gone(1)),
        (Step::RemoveWithin, "b", "f", Answer::Gone(2)),
        (folder, "c", "p/q/s", Answer::Added(1)),
        (Step::RemoveWithin, "c", "p", Answer::Gone(3)),
    ] {
        let key = ItemKey::new(alloc, repo, whole)?;
        let given = match step {
            Step::Put(is_file, limit) => put(alloc, &mut tree, &mut rows, key, is_file, limit)?,
            Step::Remove => remove(&mut tree, &mut rows, &key),
            Step::RemoveWithin => remove_within(alloc, &mut tree, &mut rows, &key)?,
            Step::Rename(_, _) => Answer::Stays,
        };
        assert_eq!(rt; given, answer, "{repo}/{whole}");
        compare(&rt, alloc, &tree, rows.as_slice())?;
    }
    Ok(())
}

#[test]
fn each_list_is_that_of_renamed_rows(rt: HostRuntime) -> Result<(), Fail> {
    let file = Step::Put(true, 50);
    let folder = Step::Put(false, 50);
    let alloc = rt.alloc();
    let mut tree = Tree::new(alloc)?;
    let mut rows = Vec::new(alloc);
    for (step, repo, whole, answer) in [
        (file, "b", "f/g/x", Answer::Added(3)),
        (file, "b", "f/g/y", Answer::Added(1)),
        (file, "b", "f/h/i/w", Answer::Added(3)),
        (file, "b", "f-/g/v", Answer::Added(3)),
        (file, "b", "f/gg/u", Answer::Added(2)),
        (folder, "b", "k", Answer::Added(1)),
        (file, "a", "x", Answer::Added(1)),
        // A file gets another name, and another folder.
        (Step::Rename("b", "f/g/x2"), "b", "f/g/x", Answer::Moved(1)),
        (Step::Rename("b", "k/y"), "b", "f/g/y", Answer::Moved(1)),
        // A folder with what is beneath it, into another one and to the root.
        (Step::Rename("b", "k/h"), "b", "f/h", Answer::Moved(3)),
        (Step::Rename("b", "e"), "b", "k/h/i", Answer::Moved(2)),
        // Into another repository, from the root and beneath a folder.
        (Step::Rename("c", "f"), "b", "f", Answer::Moved(5)),
        (Step::Rename("a", "k"), "b", "k", Answer::Moved(3)),
        (Step::Rename("a", "k/h/f"), "c", "f", Answer::Moved(5)),
        (file, "b", "f/g/x", Answer::Added(3)),
        (Step::Rename("d", "x"), "a", "x", Answer::Moved(1)),
        // The key is there, or the row isn't.
        (Step::Rename("a", "k/h/f"), "b", "f", Answer::Taken),
        (Step::Rename("d", "x"), "b", "f/g/x", Answer::Taken),
        (Step::Rename("d", "y"), "c", "f", Answer::Stays),
        (Step::Rename("d", "x"), "c", "f", Answer::Stays),
        // Into itself, or where there is no folder.
        (Step::Rename("a", "k/h/n"), "a", "k", Answer::Barred),
        (Step::Rename("a", "m/n"), "a", "k", Answer::Barred),
        (Step::Rename("a", "k"), "a", "k", Answer::Barred),
        (Step::Rename("a", "k/y/n"), "b", "f/g/x", Answer::Barred),
        (Step::Remove, "a", "k", Answer::Stays),
        (Step::Remove, "a", "k/y", Answer::Removed),
        (Step::Rename("b", "f/k"), "a", "k", Answer::Moved(7)),
        (file, "b", "f/k/h/f/new", Answer::Added(1)),
    ] {
        let key = ItemKey::new(alloc, repo, whole)?;
        let given = match step {
            Step::Put(is_file, limit) => put(alloc, &mut tree, &mut rows, key, is_file, limit)?,
            Step::Remove => remove(&mut tree, &mut rows, &key),
            Step::RemoveWithin => remove_within(alloc, &mut tree, &mut rows, &key)?,
            Step::Rename(to_repo, to) => rename(alloc, &mut tree, &mut rows, &key, to_repo, to)?,
        };
        assert_eq!(rt; given, answer, "{repo}/{whole}");
        compare(&rt, alloc, &tree, rows.as_slice())?;
    }
    Ok(())
}

// A folder with an item so many segments deep moves to a place so many segments deep, as long as the item has at most 64.
#[test]
fn moves_by_depth(rt: HostRuntime) -> Result<(), Fail> {
    let alloc = rt.alloc();
    for (deep, to, may) in [
        (40, 25, true),
        (40, 26, false),
        (64, 1, true),
        (64, 2, false),
        (2, 63, true),
        (2, 64, false),
    ] {
        let mut tree = Tree::new(alloc)?;
        let item = chain(alloc, "a", deep)?;
        tree.put(alloc, item, true, 1_000).ok();
        if to > 1 {
            let folder = chain(alloc, "b", to - 1)?;
            tree.put(alloc, folder, false, 1_000).ok();
        }
        let from = tree.get(&ItemKey::new(alloc, "r", "a")?).unwrap_or(1_000);
        let key = chain(alloc, "b", to)?;
        assert_eq!(rt; tree.may_rename(from, &key), may, "{deep} to {to}");
    }
    Ok(())
}

// A key of so many segments, each but the first of one letter.
fn chain(alloc: Global, first: &str, deep: usize) -> Result<ItemKey, Fail> {
    let mut whole = String::from_str(alloc, first)?;
    for _segment in 1..deep {
        whole.push_str("/s")?;
    }
    Ok(ItemKey::new(alloc, "r", whole.as_str())?)
}

// A folder `a` with an item of 769 bytes moves to a key of so many bytes, as long as the item has at most 1,024.
#[test]
fn moves_by_length(rt: HostRuntime) -> Result<(), Fail> {
    let alloc = rt.alloc();
    let name = letters(alloc, 255)?;
    let mut whole = String::from_str(alloc, "a")?;
    for _name in 0..3 {
        whole.push('/')?;
        whole.push_str(name.as_str())?;
    }
    let mut tree = Tree::new(alloc)?;
    tree.put(alloc, ItemKey::new(alloc, "r", whole.as_str())?, true, 9)
        .ok();
    tree.put(alloc, ItemKey::new(alloc, "r", "c")?, false, 9)
        .ok();
    let from = tree.get(&ItemKey::new(alloc, "r", "a")?).unwrap_or(1_000);
    for (front, long, may) in [("", 255, true), ("c/", 254, true), ("c/", 255, false)] {
        let mut to = String::from_str(alloc, front)?;
        to.push_str(letters(alloc, long)?.as_str())?;
        let key = ItemKey::new(alloc, "r", to.as_str())?;
        assert_eq!(rt;
            tree.may_rename(from, &key),
            may,
            "{front} and {long} letters"
        );
    }
    Ok(())
}

fn letters(alloc: Global, count: usize) -> Result<String, AllocError> {
    let mut text = String::new(alloc);
    for _letter in 0..count {
        text.push('n')?;
    }
    Ok(text)
}

// The row of a key gets another, and those beneath it, in the plain rows too.
fn rename(
    alloc: Global,
    tree: &mut Tree,
    rows: &mut Vec<Plain>,
    key: &ItemKey,
    repo: &str,
    to: &str,
) -> Result<Answer, Fail> {
    let id = tree.get(key).unwrap_or(1_000);
    let new_key = ItemKey::new(alloc, repo, to)?;
    if !tree.may_rename(id, &new_key) {
        return Ok(Answer::Barred);
    }
    match tree.rename(alloc, id, new_key) {
        Ok(true) => (),
        Ok(false) => return Ok(Answer::Stays),
        Err(TreeFault::Taken) => return Ok(Answer::Taken),
        Err(_) => return Ok(Answer::Memory),
    }
    let mut front = String::from_str(alloc, key.whole(alloc)?.as_str())?;
    front.push('/')?;
    let mut moved = 0;
    for row in rows.iter_mut() {
        let whole = row.key.whole(alloc)?;
        let mut new = String::from_str(alloc, to)?;
        if row.key != *key {
            match whole.as_str().strip_prefix(front.as_str()) {
                Some(rest) if row.key.repo == key.repo => {
                    new.push('/')?;
                    new.push_str(rest)?;
                }
                _ => continue,
            }
        }
        row.key = ItemKey::new(alloc, repo, new.as_str())?;
        moved += 1;
    }
    Ok(Answer::Moved(moved))
}

// A key is put, into the plain rows too.
fn put(
    alloc: Global,
    tree: &mut Tree,
    rows: &mut Vec<Plain>,
    key: ItemKey,
    is_file: bool,
    limit: u32,
) -> Result<Answer, AllocError> {
    let mut keys = key.folders(alloc)?;
    keys.push(key.clone()?)?;
    let last = key.clone()?;
    let ids = match tree.put(alloc, key, is_file, limit) {
        Ok(ids) => ids,
        Err(TreeFault::FileAbove(_)) => return Ok(Answer::FileAbove),
        Err(TreeFault::Taken) => return Ok(Answer::Taken),
        Err(TreeFault::Full) => return Ok(Answer::Full),
        Err(TreeFault::Memory) => return Ok(Answer::Memory),
    };
    let count = ids.len();
    let mut ids = ids.into_iter();
    for key in keys {
        if has(rows.as_slice(), &key) {
            continue;
        }
        if let Some(id) = ids.next() {
            let is_file = is_file && key == last;
            rows.push(Plain { id, key, is_file })?;
        }
    }
    Ok(Answer::Added(count))
}

fn has(rows: &[Plain], key: &ItemKey) -> bool {
    rows.iter().any(|row| row.key == *key)
}

// The row of a key is removed, from the plain rows too.
fn remove(tree: &mut Tree, rows: &mut Vec<Plain>, key: &ItemKey) -> Answer {
    let id = tree.get(key).unwrap_or(1_000);
    if !tree.remove(id) {
        return Answer::Stays;
    }
    rows.retain(|row| row.id != id);
    Answer::Removed
}

// The row of a key is removed with those beneath it, from the plain rows too.
fn remove_within(
    alloc: Global,
    tree: &mut Tree,
    rows: &mut Vec<Plain>,
    key: &ItemKey,
) -> Result<Answer, AllocError> {
    let id = tree.get(key).unwrap_or(1_000);
    if !tree.remove_within(id) {
        return Ok(Answer::Stays);
    }
    let mut gone = Vec::new(alloc);
    for row in rows.iter() {
        let folders = row.key.folders(alloc)?;
        if row.key == *key || folders.iter().any(|folder| *folder == *key) {
            gone.push(row.id)?;
        }
    }
    let count = gone.len();
    for id in gone {
        rows.retain(|row| row.id != id);
    }
    Ok(Answer::Gone(count))
}

fn compare(rt: &impl Abort, alloc: Global, tree: &Tree, rows: &[Plain]) -> Result<(), AllocError> {
    let mut all = Vec::new(alloc);
    let ordered = in_order(alloc, tree)?;
    assert_eq!(rt; ordered.len(), rows.len());
    for row in rows {
        all.push(row.id)?;
        assert_eq!(rt; tree.get(&row.key), Some(row.id));
        let key = tree.key(row.id);
        assert!(rt; matches!(key, Some(key) if *key == row.key));
        assert_eq!(rt; tree.is_file(row.id), row.is_file);
        let before = rows.iter().filter(|other| other.key < row.key).count();
        assert_eq!(rt; tree.rank(row.id).map(|rank| rank as usize), Some(before));
        assert_eq!(rt; ordered.get(before).copied(), Some(row.id));
        let inside = in_folder(alloc, rows, &row.key)?;
        assert!(rt; tree.children(&row.key) == inside.as_slice());
    }
    all.sort_unstable();
    assert!(rt; tree.all() == all.as_slice());
    for repo in ["a", "b", "c", "d"] {
        let of = in_repo(alloc, rows, repo)?;
        assert!(rt; tree.in_repo(repo) == of.as_slice());
    }
    assert_eq!(rt; tree.rank(1_000), None);
    assert!(rt; tree.key(1_000).is_none());
    Ok(())
}

fn in_order(alloc: Global, tree: &Tree) -> Result<Vec<u32>, AllocError> {
    let mut ids = Vec::new(alloc);
    for block in tree.ordered() {
        for id in block {
            ids.push(*id)?;
        }
    }
    Ok(ids)
}

fn in_folder(alloc: Global, rows: &[Plain], key: &ItemKey) -> Result<Vec<u32>, AllocError> {
    let mut ids = Vec::new(alloc);
    for row in rows {
        let folders = row.key.folders(alloc)?;
        if matches!(folders.last(), Some(folder) if *folder == *key) {
            ids.push(row.id)?;
        }
    }
    ids.sort_unstable();
    Ok(ids)
}

fn in_repo(alloc: Global, rows: &[Plain], repo: &str) -> Result<Vec<u32>, AllocError> {
    let mut ids = Vec::new(alloc);
    for row in rows {
        if row.key.repo.as_str() == repo {
            ids.push(row.id)?;
        }
    }
    ids.sort_unstable();
    Ok(ids)
}
