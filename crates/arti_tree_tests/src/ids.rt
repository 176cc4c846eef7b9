// Lists of ids after each change.
use arti_ids::{Ids, Lists, TextLists};
use std::alloc::{AllocError, Global};
use std::test::Fail;

// The ids, each with a blank behind it.
fn shown(alloc: Global, ids: &[u32]) -> Result<String, AllocError> {
    let mut shown = String::new(alloc);
    for id in ids {
        shown.push_str(&format!(in alloc; "{id} ")?)?;
    }
    Ok(shown)
}

// The id, whether it comes or goes, and the list behind it.
const CHANGES: [(u32, bool, &str); 11] = [
    (7, false, ""),
    (5, true, "5 "),
    (5, true, "5 "),
    (3, false, "5 "),
    (2, true, "2 5 "),
    (u32::MAX, true, "2 5 4294967295 "),
    (0, true, "0 2 5 4294967295 "),
    (2, false, "0 5 4294967295 "),
    (u32::MAX, false, "0 5 "),
    (0, false, "5 "),
    (5, false, ""),
];

#[test]
fn a_list_alone(rt: HostRuntime) -> Result<(), Fail> {
    let alloc = rt.alloc();
    let mut ids = Ids::new();
    for (id, comes, expected) in CHANGES {
        if comes {
            ids.insert(alloc, id)?;
        } else {
            ids.remove(id);
        }
        assert_eq!(rt; shown(alloc, ids.as_slice())?.as_str(), expected, "{id}");
        assert_eq!(rt; ids.has(id), comes, "{id}");
    }
    assert_eq!(rt; Ids::beside(alloc, 9)?.as_slice(), [9].as_slice());
    Ok(())
}

#[test]
fn lists_under_keys(rt: HostRuntime) -> Result<(), Fail> {
    let alloc = rt.alloc();
    let mut lists = Lists::new(alloc);
    for (id, comes, expected) in CHANGES {
        if comes {
            lists.make_room(alloc, &[7u8; 2], id)?;
            lists.add(&[7; 2], id);
        } else {
            lists.remove(&[7; 2], id);
            lists.tidy(&[7; 2]);
        }
        assert_eq!(rt;
            shown(alloc, lists.list(&[7; 2]))?.as_str(),
            expected,
            "{id}"
        );
        assert_eq!(rt; lists.list(&[8; 2]).len(), 0, "{id}");
    }
    Ok(())
}

#[test]
fn lists_under_texts(rt: HostRuntime) -> Result<(), Fail> {
    let alloc = rt.alloc();
    let mut lists = TextLists::new(alloc);
    for (id, comes, expected) in CHANGES {
        if comes {
            lists.make_room(alloc, "a", id)?;
            lists.add("a", id);
        } else {
            lists.remove("a", id);
            lists.tidy("a");
        }
        assert_eq!(rt; shown(alloc, lists.list("a"))?.as_str(), expected, "{id}");
        assert_eq!(rt; lists.list("b").len(), 0, "{id}");
    }
    assert!(rt; lists.is_empty());
    Ok(())
}
