// A catalog after each change.
use arti_catalog::Catalog;
use arti_rows::{
    Change, Digests, Edit, FileRef, Given, ItemKey, ItemRow, Limits, Moment, Refusal, Seq, Text,
    read_keys, read_props,
};
use std::alloc::{AllocError, Global};
use std::process::Abort;
use std::test::*;

// A file is made of so many bytes, and properties are set, or go, by such a text; a mark says whether beneath an item too.
#[derive(Clone, Copy)]
enum Step {
    Folder,
    File(u64),
    Downloaded,
    Remove,
    Set(bool, &'static str),
    Unset(bool, &'static str),
    Unbuilt,
}

fn edit_of(alloc: Global, step: Step, repo: &str, whole: &str) -> Result<Edit, Fail> {
    let key = ItemKey::new(alloc, repo, whole)?;
    Ok(match step {
        Step::Folder => Edit::Folder { key },
        Step::Downloaded => Edit::Downloaded { key },
        Step::Remove => Edit::Remove { key },
        Step::Set(deep, text) => Edit::SetProps {
            key,
            deep,
            props: Seq::from_vec(read_props(alloc, text)?),
        },
        Step::Unset(deep, text) => Edit::DropProps {
            key,
            deep,
            keys: Seq::from_vec(read_keys(alloc, text)?),
        },
        Step::Unbuilt => Edit::Unbuild {
            name: Text::from_str(alloc, "app")?,
            number: Text::from_str(alloc, "1")?,
        },
        Step::File(len) => Edit::File {
            key,
            given: Given {
                md5: false,
                sha1: true,
                sha256: false,
            },
            file: FileRef {
                place: 9,
                len,
                digests: Digests {
                    md5: [0; 16],
                    sha1: [1; 20],
                    sha256: [2; 32],
                },
            },
            props: Seq::new(alloc),
        },
    })
}

// A change at a moment of these edits of the local repository.
fn change_of(alloc: Global, moment: i64, edits: &[(Step, &str)]) -> Result<Change, Fail> {
    let mut all = Seq::new(alloc);
    for (step, whole) in edits {
        all.push(edit_of(alloc, *step, "generic-local", whole)?)?;
    }
    Ok(Change {
        moment: Moment::new(moment).ok_or("a moment")?,
        user: Text::from_str(alloc, "ann")?,
        edits: all,
    })
}

// So many items at most.
fn limits(items: u32) -> Limits {
    let most = Limits::standard();
    match Limits::new(
        most.repositories,
        items,
        most.builds,
        most.content,
        most.document,
        most.journal,
        most.blobs,
        most.requests,
    ) {
        Some(limits) => limits,
        None => most,
    }
}

// An item: its path and name, when it was created and last modified, and of a file the length and the downloads.
fn push_row(alloc: Global, shown: &mut String, row: &ItemRow) -> Result<(), AllocError> {
    let whole = row.key.whole(alloc)?;
    shown.push_str(whole.as_str())?;
    shown.push_str(&format!(in alloc; " {} {}", row.created.ms(), row.modified.ms())?)?;
    if let Some(file) = &row.file {
        let downloads = match &row.stat {
            None => 0,
            Some(stat) => stat.downloads,
        };
        shown.push_str(&format!(in alloc; " {} bytes, {} times", file.len, downloads)?)?;
    }
    for pair in row.props.as_slice() {
        shown.push_str(&format!(in alloc; " {}={}", pair.key.as_str(), pair.value.as_str())?)?;
    }
    shown.push_str("; ")
}

// The items in the order of their ids.
fn shown(alloc: Global, catalog: &Catalog) -> Result<String, AllocError> {
    let mut shown = String::new(alloc);
    for id in catalog.items().all() {
        if let Some(key) = catalog.items().key(*id) {
            if let Some(row) = catalog.find(key) {
                push_row(alloc, &mut shown, row)?;
            }
        }
    }
    Ok(shown)
}

const X: &str = "a 1 1; a/b 1 1; a/b/x 1 1 3 bytes, 0 times; ";

const X_FETCHED: &str = "a 1 1; a/b 1 1; a/b/x 1 1 3 bytes, 2 times; ";

const X_AGAIN: &str = "a 1 1; a/b 1 1; a/b/x 1 5 4 bytes, 0 times; ";

const SIX: &str =
    "a 1 1; a/b 1 1; a/b/x 1 5 4 bytes, 0 times; c 10 10; c/d 10 10; c/d/e 10 10 2 bytes, 0 times; ";

const LAST: &str =
    "a 1 1; a/b 1 1; a/b/x 1 5 4 bytes, 0 times; c 10 10; c/d 10 10; c/d/e 10 12 9 bytes, 1 times; ";

// Changes of a catalog of six items at most, in turn: the moment, the edits, why they are refused, and the items then.
const CHANGES: [(i64, &[(Step, &str)], &str, &str); 15] = [
    (1, &[(Step::File(3), "a/b/x")], "", X),
    (
        2,
        &[(Step::Downloaded, "a/b/x"), (Step::Downloaded, "a/b/x")],
        "",
        X_FETCHED,
    ),
    (
        3,
        &[(Step::Downloaded, "a/b")],
        r#"NotFound(ItemKey { repo: Text { text: "generic-local" }, path: Text { text: "a" }, name: Text { text: "b" } })"#,
        X_FETCHED,
    ),
    (
        4,
        &[(Step::Folder, "a/b"), (Step::Folder, "a")],
        "",
        X_FETCHED,
    ),
    (5, &[(Step::File(4), "a/b/x")], "", X_AGAIN),
    (
        6,
        &[(Step::Folder, "a/b/x")],
        r#"FileHere(ItemKey { repo: Text { text: "generic-local" }, path: Text { text: "a/b" }, name: Text { text: "x" } })"#,
        X_AGAIN,
    ),
    (
        7,
        &[(Step::File(1), "a")],
        r#"FolderHere(ItemKey { repo: Text { text: "generic-local" }, path: Text { text: "." }, name: Text { text: "a" } })"#,
        X_AGAIN,
    ),
    (
        8,
        &[(Step::File(1), "a/b/x/y/z")],
        r#"FileAbove(ItemKey { repo: Text { text: "generic-local" }, path: Text { text: "a/b" }, name: Text { text: "x" } })"#,
        X_AGAIN,
    ),
    (
        9,
        &[(Step::File(1), "c/d/e"), (Step::Folder, "f")],
        "Full(Items)",
        X_AGAIN,
    ),
    (
        10,
        &[(Step::Folder, "c/d"), (Step::File(2), "c/d/e")],
        "",
        SIX,
    ),
    (11, &[(Step::Folder, "f")], "Full(Items)", SIX),
    (
        12,
        &[(Step::File(9), "c/d/e"), (Step::Downloaded, "c/d/e")],
        "",
        LAST,
    ),
    (13, &[(Step::Unbuilt, "a")], "NotYet(None)", LAST),
    (
        14,
        &[(Step::Downloaded, "a/b/x"), (Step::Folder, "c/d/e")],
        r#"FileHere(ItemKey { repo: Text { text: "generic-local" }, path: Text { text: "c/d" }, name: Text { text: "e" } })"#,
        LAST,
    ),
    (15, &[], "", LAST),
];

const SET: &str = "a 1 1 q=1; a/b 1 1 q=1; a/b/x 1 1 3 bytes, 0 times p=0 q=1; ";

const SET_AGAIN: &str = "a 1 1 q=1; a/b 1 1 q=2 q=3 r=4; a/b/x 1 1 3 bytes, 0 times p=0 q=1; ";

const UNSET: &str = "a 1 1; a/b 1 1; a/b/x 1 1 3 bytes, 0 times p=0; ";

const LEFT: &str = "a 1 1; ";

// Properties that change, and items that go.
const EDITS: [(i64, &[(Step, &str)], &str, &str); 10] = [
    (
        1,
        &[(Step::File(3), "a/b/x"), (Step::Set(false, "p=0"), "a/b/x")],
        "",
        "a 1 1; a/b 1 1; a/b/x 1 1 3 bytes, 0 times p=0; ",
    ),
    (2, &[(Step::Set(true, "q=1"), "a")], "", SET),
    (3, &[(Step::Set(false, "r=4;q=3,2"), "a/b")], "", SET_AGAIN),
    (
        4,
        &[(Step::Set(false, "q=1"), "a/c")],
        r#"NotFound(ItemKey { repo: Text { text: "generic-local" }, path: Text { text: "a" }, name: Text { text: "c" } })"#,
        SET_AGAIN,
    ),
    (
        5,
        &[(Step::Unset(true, "q"), "c")],
        r#"NotFound(ItemKey { repo: Text { text: "generic-local" }, path: Text { text: "." }, name: Text { text: "c" } })"#,
        SET_AGAIN,
    ),
    (6, &[(Step::Unset(true, "q,r"), "a")], "", UNSET),
    (7, &[(Step::Unset(false, "p"), "a/b")], "", UNSET),
    (
        8,
        &[(Step::Remove, "a/b"), (Step::Remove, "a/b/x")],
        r#"NotFound(ItemKey { repo: Text { text: "generic-local" }, path: Text { text: "a/b" }, name: Text { text: "x" } })"#,
        UNSET,
    ),
    (9, &[(Step::Remove, "a/b")], "", LEFT),
    (
        10,
        &[(Step::Remove, "a"), (Step::File(1), "b")],
        "",
        "b 10 10 1 bytes, 0 times; ",
    ),
];

// Why a change is refused, nothing where it isn't.
fn judged(alloc: Global, catalog: &Catalog, change: &Change) -> Result<String, AllocError> {
    match catalog.check(alloc, change) {
        Ok(()) => Ok(String::new(alloc)),
        Err(refusal) => told(alloc, &refusal),
    }
}

fn told(alloc: Global, refusal: &Refusal) -> Result<String, AllocError> {
    format!(in alloc; "{refusal:?}")
}

// Applies a change that isn't refused.
fn apply(alloc: Global, catalog: &mut Catalog, change: &Change) -> Result<(), AllocError> {
    match catalog.check(alloc, change) {
        Ok(()) => catalog.apply(alloc, change),
        Err(_) => Ok(()),
    }
}

// Judges a change, applies it where it isn't refused, and tells why it is.
fn judge_and_apply(
    alloc: Global,
    catalog: &mut Catalog,
    change: &Change,
) -> Result<String, AllocError> {
    let why = judged(alloc, catalog, change)?;
    apply(alloc, catalog, change)?;
    Ok(why)
}

fn turn(
    alloc: Global,
    catalog: &mut Catalog,
    moment: i64,
    edits: &[(Step, &str)],
) -> Result<Result<String, AllocError>, Fail> {
    let change = change_of(alloc, moment, edits)?;
    Ok(judge_and_apply(alloc, catalog, &change))
}

// Changes in turn, each judged, and applied where it isn't refused.
fn run(
    rt: &impl Abort,
    alloc: Global,
    catalog: &mut Catalog,
    changes: &[(i64, &[(Step, &str)], &str, &str)],
) -> Result<(), Fail> {
    for (moment, edits, why, items) in changes {
        let told = turn(alloc, catalog, *moment, edits)??;
        assert_eq!(rt; told.as_str(), *why, "{moment}");
        assert_eq!(rt; shown(alloc, catalog)?.as_str(), *items, "{moment}");
    }
    Ok(())
}

#[test]
fn changes_in_turn(rt: HostRuntime) -> Result<(), Fail> {
    let mut catalog = Catalog::new(rt.alloc(), &limits(6))?;
    run(&rt, rt.alloc(), &mut catalog, CHANGES.as_slice())
}

#[test]
fn properties_and_removals_in_turn(rt: HostRuntime) -> Result<(), Fail> {
    let mut catalog = Catalog::new(rt.alloc(), &limits(9))?;
    run(&rt, rt.alloc(), &mut catalog, EDITS.as_slice())
}

// Judges and applies a change at once: whether it was done.
fn does(
    alloc: Global,
    catalog: &mut Catalog,
    moment: i64,
    edits: &[(Step, &str)],
) -> Result<bool, Fail> {
    let change = change_of(alloc, moment, edits)?;
    Ok(is_done(alloc, catalog, &change))
}

fn is_done(alloc: Global, catalog: &mut Catalog, change: &Change) -> bool {
    match catalog.apply_checked(alloc, change) {
        Ok(()) => true,
        Err(_) => false,
    }
}

// Changes in turn of those that aren't refused, each judged as it is applied.
fn run_checked(
    rt: &impl Abort,
    alloc: Global,
    catalog: &mut Catalog,
    changes: &[(i64, &[(Step, &str)], &str, &str)],
) -> Result<(), Fail> {
    for (moment, edits, why, items) in changes {
        if why.is_empty() {
            assert!(rt; does(alloc, catalog, *moment, edits)?, "{moment}");
            assert_eq!(rt; shown(alloc, catalog)?.as_str(), *items, "{moment}");
        }
    }
    Ok(())
}

#[test]
fn changes_judged_as_they_are_applied(rt: HostRuntime) -> Result<(), Fail> {
    let mut catalog = Catalog::new(rt.alloc(), &limits(6))?;
    run_checked(&rt, rt.alloc(), &mut catalog, CHANGES.as_slice())
}

// A change that is refused leaves no items.
#[test]
fn what_a_refused_change_leaves(rt: HostRuntime) -> Result<(), Fail> {
    let mut catalog = Catalog::new(rt.alloc(), &limits(6))?;
    let file = [(Step::File(3), "a/b/x")];
    let refused = [(Step::Folder, "c"), (Step::Folder, "a/b/x")];
    assert!(&rt; does(rt.alloc(), &mut catalog, 1, &file)?);
    assert!(&rt; !does(rt.alloc(), &mut catalog, 2, &refused)?);
    assert_eq!(rt; catalog.items().all().len(), 0);
    Ok(())
}
