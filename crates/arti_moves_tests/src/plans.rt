// Asks in turn: what each comes to, and the items behind it.
use arti_catalog::Catalog;
use arti_moves::{MoveAsk, plan_move};
use arti_rows::{
    Change, Digests, FileRef, ItemKey, ItemRow, Limits, Moment, Property, Refusal, Seq,
    SomeDigests, read_keys, read_props,
};
use std::alloc::{AllocError, Global};
use std::process::Abort;
use std::test::*;

// The digests that are wanted, each of one byte again and again: MD5, SHA-1, SHA-256. None is wanted where that is 0.
type Want = (u8, u8, u8);

// A content has so many bytes, and that number for each byte of its digests. A text says which properties come or go.
#[derive(Clone, Copy)]
enum Asked {
    Sent(u8, Want, &'static str),
    Named(Want),
    Folder,
    Delete,
    Set(bool, &'static str),
    Unset(bool, &'static str),
}

fn given<const N: usize>(byte: u8) -> Option<[u8; N]> {
    if byte == 0 { None } else { Some([byte; N]) }
}

fn wanted(want: Want) -> SomeDigests {
    SomeDigests {
        md5: given(want.0),
        sha1: given(want.1),
        sha256: given(want.2),
    }
}

fn content(byte: u8) -> FileRef {
    FileRef {
        place: 7,
        len: u64::from(byte),
        digests: Digests {
            md5: [byte; 16],
            sha1: [byte; 20],
            sha256: [byte; 32],
        },
    }
}

fn pairs(alloc: Global, text: &str) -> Result<Seq<Property>, Fail> {
    if text.is_empty() {
        return Ok(Seq::new(alloc));
    }
    Ok(Seq::from_vec(read_props(alloc, text)?))
}

fn ask_of(alloc: Global, asked: Asked, repo: &str, whole: &str) -> Result<MoveAsk, Fail> {
    let key = ItemKey::new(alloc, repo, whole)?;
    Ok(match asked {
        Asked::Sent(byte, want, text) => MoveAsk::Deploy {
            key,
            props: pairs(alloc, text)?,
            digests: wanted(want),
            file: Some(content(byte)),
        },
        Asked::Named(want) => MoveAsk::Deploy {
            key,
            props: Seq::new(alloc),
            digests: wanted(want),
            file: None,
        },
        Asked::Folder => MoveAsk::Folder { key },
        Asked::Delete => MoveAsk::Delete { key },
        Asked::Set(deep, text) => MoveAsk::SetProps {
            key,
            props: pairs(alloc, text)?,
            deep,
        },
        Asked::Unset(deep, text) => MoveAsk::DropProps {
            key,
            keys: Seq::from_vec(read_keys(alloc, text)?),
            deep,
        },
    })
}

// So many items at most.
fn limits(items: u32) -> Limits {
    let most = Limits::standard();
    match Limits::new(
        most.repositories,
        items,
        most.builds,
        most.content,
        most.document,
        most.journal,
        most.blobs,
        most.requests,
    ) {
        Some(limits) => limits,
        None => most,
    }
}

// An item: its path and name, when it was created and last modified, of a file the length, and the properties.
fn push_row(alloc: Global, shown: &mut String, row: &ItemRow) -> Result<(), AllocError> {
    let whole = row.key.whole(alloc)?;
    shown.push_str(whole.as_str())?;
    shown.push_str(&format!(in alloc; " {} {}", row.created.ms(), row.modified.ms())?)?;
    if let Some(file) = &row.file {
        shown.push_str(&format!(in alloc; " {} bytes", file.len)?)?;
    }
    for pair in row.props.as_slice() {
        shown.push_str(&format!(in alloc; " {}={}", pair.key.as_str(), pair.value.as_str())?)?;
    }
    shown.push_str("; ")
}

fn push_rows(
    alloc: Global,
    shown: &mut String,
    catalog: &Catalog,
    ids: &[u32],
) -> Result<(), AllocError> {
    for id in ids {
        if let Some(key) = catalog.items().key(*id) {
            if let Some(row) = catalog.find(key) {
                push_row(alloc, shown, row)?;
            }
        }
    }
    Ok(())
}

// The items in the default order.
fn shown(alloc: Global, catalog: &Catalog) -> Result<String, AllocError> {
    let mut shown = String::new(alloc);
    for block in catalog.items().ordered() {
        push_rows(alloc, &mut shown, catalog, block)?;
    }
    Ok(shown)
}

const TWO: &str = "a 1 1; a/b 1 1; ";

const THREE: &str = "a 1 1; a/b 1 1; a/b/x 5 5 3 bytes p=1; ";

const AGAIN: &str = "a 1 1; a/b 1 1; a/b/x 5 9 4 bytes; ";

const FOUR: &str = "a 1 1; c 20 20 4 bytes; a/b 1 1; a/b/x 5 9 4 bytes; ";

const SET: &str = "a 1 1 q=1 q=2; c 20 20 4 bytes; a/b 1 1 q=1 q=2; a/b/x 5 9 4 bytes q=1 q=2; ";

const UNSET: &str = "a 1 1 q=1 q=2; c 20 20 4 bytes; a/b 1 1; a/b/x 5 9 4 bytes; ";

const LEFT: &str = "a 1 1 q=1 q=2; c 20 20 4 bytes; ";

const NO_REPO: &str = r#"NoRepo(Text { text: "other" })"#;

const MISSING: &str =
    r#"NotFound(ItemKey { repo: Text { text: "generic-local" }, path: Text { text: "." }, name: Text { text: "z" } })"#;

const FILE_ABOVE: &str =
    r#"FileAbove(ItemKey { repo: Text { text: "generic-local" }, path: Text { text: "a/b" }, name: Text { text: "x" } })"#;

const FILE_HERE: &str =
    r#"FileHere(ItemKey { repo: Text { text: "generic-local" }, path: Text { text: "a/b" }, name: Text { text: "x" } })"#;

const FOLDER_HERE: &str =
    r#"FolderHere(ItemKey { repo: Text { text: "generic-local" }, path: Text { text: "a" }, name: Text { text: "b" } })"#;

const NONE: Want = (0, 0, 0);

const OTHER: &str = "other";

const LOCAL: &str = "generic-local";

// Asks of a catalog of five items at most: what is asked of which item, what it comes to, and the items then.
const ASKS: [(Asked, &str, &str, &str, &str); 36] = [
    (Asked::Folder, LOCAL, "a/b", "made", TWO),
    (Asked::Folder, LOCAL, "a/b", "none", TWO),
    (Asked::Folder, LOCAL, "a", "none", TWO),
    (Asked::Folder, OTHER, "a/b", NO_REPO, TWO),
    (Asked::Sent(3, NONE, "p=1"), LOCAL, "a/b/x", "made", THREE),
    (Asked::Folder, LOCAL, "a/b/x/y", FILE_ABOVE, THREE),
    (Asked::Folder, LOCAL, "a/b/x", FILE_HERE, THREE),
    (
        Asked::Sent(4, (4, 9, 9), ""),
        LOCAL,
        "a/b/x",
        r#"ChecksumMismatch(Text { text: "sha1" })"#,
        THREE,
    ),
    (Asked::Sent(4, (4, 4, 4), ""), LOCAL, "a/b/x", "made", AGAIN),
    (
        Asked::Sent(4, (9, 4, 4), ""),
        LOCAL,
        "a/b/x",
        r#"ChecksumMismatch(Text { text: "md5" })"#,
        AGAIN,
    ),
    (
        Asked::Sent(4, (0, 4, 9), ""),
        LOCAL,
        "d",
        r#"ChecksumMismatch(Text { text: "sha256" })"#,
        AGAIN,
    ),
    (Asked::Sent(4, (9, 9, 9), ""), OTHER, "d", NO_REPO, AGAIN),
    (
        Asked::Sent(4, (9, 9, 9), ""),
        LOCAL,
        "a/b/x/y/z",
        FILE_ABOVE,
        AGAIN,
    ),
    (
        Asked::Sent(4, (9, 9, 9), ""),
        LOCAL,
        "a/b",
        FOLDER_HERE,
        AGAIN,
    ),
    (Asked::Named((0, 3, 0)), LOCAL, "c", "NoContent", AGAIN),
    (Asked::Named((0, 4, 9)), LOCAL, "c", "NoContent", AGAIN),
    (Asked::Named((0, 9, 0)), OTHER, "c", NO_REPO, AGAIN),
    (Asked::Named((0, 9, 0)), LOCAL, "a/b", FOLDER_HERE, AGAIN),
    (Asked::Named((0, 4, 0)), LOCAL, "a/b/x/y", FILE_ABOVE, AGAIN),
    (Asked::Named((0, 4, 0)), LOCAL, "c", "made", FOUR),
    (Asked::Sent(5, NONE, ""), LOCAL, "d/e", "Full(Items)", FOUR),
    (
        Asked::Sent(5, (9, 0, 0), ""),
        LOCAL,
        "d/e",
        r#"ChecksumMismatch(Text { text: "md5" })"#,
        FOUR,
    ),
    (Asked::Named((0, 0, 9)), LOCAL, "d/e", "NoContent", FOUR),
    (Asked::Named((0, 0, 4)), LOCAL, "d/e", "Full(Items)", FOUR),
    (Asked::Folder, LOCAL, "d/e", "Full(Items)", FOUR),
    (Asked::Folder, LOCAL, "a/b", "none", FOUR),
    (Asked::Set(true, "q=2,1"), LOCAL, "a", "made", SET),
    (Asked::Set(true, "q=1"), LOCAL, "z", MISSING, SET),
    (Asked::Set(false, "q=1"), OTHER, "a", NO_REPO, SET),
    (Asked::Unset(true, "q"), LOCAL, "a/b", "made", UNSET),
    (Asked::Unset(false, "q"), LOCAL, "z", MISSING, UNSET),
    (Asked::Unset(true, "q"), OTHER, "a", NO_REPO, UNSET),
    (Asked::Delete, LOCAL, "z", MISSING, UNSET),
    (Asked::Delete, OTHER, "a", NO_REPO, UNSET),
    (Asked::Delete, LOCAL, "a/b", "made", LEFT),
    (
        Asked::Folder,
        LOCAL,
        "a/b",
        "made",
        "a 1 1 q=1 q=2; c 20 20 4 bytes; a/b 36 36; ",
    ),
];

// Applies a change that the catalog accepts.
fn apply(alloc: Global, catalog: &mut Catalog, change: &Change) -> Result<String, AllocError> {
    match catalog.check(alloc, change) {
        Ok(()) => {
            catalog.apply(alloc, change)?;
            String::from_str(alloc, "made")
        }
        Err(why) => told(alloc, &why),
    }
}

fn told(alloc: Global, why: &Refusal) -> Result<String, AllocError> {
    format!(in alloc; "{why:?}")
}

// What an ask comes to, where the change is made.
fn carried_out(
    alloc: Global,
    catalog: &mut Catalog,
    plan: Result<Option<Change>, Refusal>,
) -> Result<String, AllocError> {
    match plan {
        Ok(None) => String::from_str(alloc, "none"),
        Ok(Some(change)) => apply(alloc, catalog, &change),
        Err(why) => told(alloc, &why),
    }
}

fn turn(
    alloc: Global,
    catalog: &mut Catalog,
    moment: i64,
    asked: Asked,
    repo: &str,
    whole: &str,
) -> Result<Result<String, AllocError>, Fail> {
    let ask = ask_of(alloc, asked, repo, whole)?;
    let moment = Moment::new(moment).ok_or("a moment")?;
    let plan = plan_move(alloc, catalog, &ask, moment, "ann");
    Ok(carried_out(alloc, catalog, plan))
}

fn run(rt: &impl Abort, alloc: Global, catalog: &mut Catalog) -> Result<(), Fail> {
    let mut moment = 0;
    for (asked, repo, whole, plan, items) in &ASKS {
        if moment < 100 {
            moment += 1;
        }
        let came = turn(alloc, catalog, moment, *asked, repo, whole)??;
        assert_eq!(rt; came.as_str(), *plan, "{moment}");
        assert_eq!(rt; shown(alloc, catalog)?.as_str(), *items, "{moment}");
    }
    Ok(())
}

#[test]
fn asks_in_turn(rt: HostRuntime) -> Result<(), Fail> {
    let mut catalog = Catalog::new(rt.alloc(), &limits(5))?;
    run(&rt, rt.alloc(), &mut catalog)
}
