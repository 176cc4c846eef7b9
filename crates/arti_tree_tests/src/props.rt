// Properties and digests under ids, beside a plain list of rows.
use arti_props::Props;
use arti_rows::{Digests, Property, PropsFault, Text, read_props};
use std::alloc::{AllocError, Global};
use std::test::Fail;

// A row of the plain list, its properties as a text.
#[derive(Clone, Copy)]
struct Plain {
    id: u32,
    text: &'static str,
    digest: Option<u8>,
}

fn digests(n: u8) -> Digests {
    Digests {
        md5: [n; 16],
        sha1: [n; 20],
        sha256: [n; 32],
    }
}

fn properties(alloc: Global, text: &str) -> Result<Vec<Property>, AllocError> {
    match read_props(alloc, text) {
        Ok(pairs) => Ok(pairs),
        Err(PropsFault::BadProps) => Ok(Vec::new(alloc)),
        Err(PropsFault::Memory) => Err(AllocError),
    }
}

fn has_pair(pairs: &[Property], key: &str, value: &str) -> bool {
    pairs.iter().any(|pair| pair.key.as_str() == key && pair.value.as_str() == value)
}

// The ids of the plain rows that have a pair.
fn with_pair(
    alloc: Global,
    plain: &[Plain],
    key: &str,
    value: &str,
) -> Result<Vec<u32>, AllocError> {
    let mut ids = Vec::new(alloc);
    for row in plain {
        if has_pair(&properties(alloc, row.text)?, key, value) {
            ids.push(row.id)?;
        }
    }
    ids.sort_unstable();
    Ok(ids)
}

fn with_digest(alloc: Global, plain: &[Plain], digest: u8) -> Result<Vec<u32>, AllocError> {
    let mut ids = Vec::new(alloc);
    for row in plain {
        if row.digest == Some(digest) {
            ids.push(row.id)?;
        }
    }
    ids.sort_unstable();
    Ok(ids)
}

// Whether the lists of pairs are those of the plain rows.
fn same_pairs(alloc: Global, props: &Props, plain: &[Plain]) -> Result<bool, AllocError> {
    for (key, value) in [
        ("a", "1"),
        ("a", "2"),
        ("a", ""),
        ("b", "1"),
        ("1", "a"),
        ("c", "1"),
    ] {
        let expected = with_pair(alloc, plain, key, value)?;
        if props.with(key, value) != expected.as_slice() {
            return Ok(false);
        }
    }
    Ok(true)
}

// Whether those of digests are.
fn same_digests(alloc: Global, props: &Props, plain: &[Plain]) -> Result<bool, AllocError> {
    for n in [7u8, 8, 9] {
        let expected = with_digest(alloc, plain, n)?;
        let expected = expected.as_slice();
        if props.with_md5(&[n; 16]) != expected
            || props.with_sha1(&[n; 20]) != expected
            || props.with_sha256(&[n; 32]) != expected
        {
            return Ok(false);
        }
    }
    Ok(true)
}

// Whether the properties under each id are.
fn same_rows(alloc: Global, props: &Props, plain: &[Plain]) -> Result<bool, AllocError> {
    for row in plain {
        let expected = properties(alloc, row.text)?;
        if props.pairs(row.id) != expected.as_slice() {
            return Ok(false);
        }
    }
    for id in [0u32, 1, 2, 3, 7, u32::MAX] {
        if !plain.iter().any(|row| row.id == id) && !props.pairs(id).is_empty() {
            return Ok(false);
        }
    }
    Ok(true)
}

#[test]
fn every_list_after_each_change(rt: HostRuntime) -> Result<(), Fail> {
    let alloc = rt.alloc();
    let mut props = Props::new(alloc)?;
    let mut plain: Vec<Plain> = Vec::new(alloc);
    // The id, and what is set; where no text is there, the id is dropped.
    for (id, text, digest) in [
        (3, Some("a=1,2;b=1"), None),
        (1, Some("a=1"), Some(7)),
        (u32::MAX, Some("a=1;1=a"), Some(7)),
        (2, Some(""), Some(8)),
        (0, Some("c=1;a="), Some(9)),
        (3, Some("a=2,"), Some(7)),
        (3, Some("a=2,"), Some(7)),
        (7, None, None),
        (1, None, None),
        (2, Some("b=1"), None),
        (1, Some("b=1;a=1"), Some(9)),
        (u32::MAX, None, None),
        (0, Some("a=1"), Some(8)),
        (3, None, None),
        (3, None, None),
        (0, None, None),
        (1, None, None),
        (2, None, None),
        (2, Some("a=2"), Some(8)),
        (2, Some("b=1"), Some(8)),
        (1, Some("b=1"), Some(8)),
        (2, Some("b=1"), Some(8)),
        (2, Some(""), Some(7)),
        (2, Some("a=1,2,3;b=1"), Some(7)),
        (1, Some("a=1,2,3"), Some(7)),
        // Some pairs stay, some go and some come, in each list beside another id.
        (2, Some("a=2,4;b=1;c=1"), Some(7)),
        (1, Some("a=1,2;c=1"), Some(7)),
        (1, None, None),
        (2, None, None),
    ] {
        plain.retain(|row| row.id != id);
        match text {
            Some(text) => {
                let pairs = properties(alloc, text)?;
                let digests = digest.map(digests);
                props.set(alloc, id, pairs.as_slice(), digests.as_ref())?;
                plain.push(Plain { id, text, digest })?;
            }
            None => props.drop_id(id),
        }
        let plain = plain.as_slice();
        assert!(rt; same_pairs(alloc, &props, plain)?, "{id}");
        assert!(rt; same_digests(alloc, &props, plain)?, "{id}");
        assert!(rt; same_rows(alloc, &props, plain)?, "{id}");
    }
    Ok(())
}

#[test]
fn a_pair_given_twice(rt: HostRuntime) -> Result<(), Fail> {
    let alloc = rt.alloc();
    let mut props = Props::new(alloc)?;
    let mut pairs = properties(alloc, "a=1")?;
    pairs.push(Property {
        key: Text::from_str(alloc, "a")?,
        value: Text::from_str(alloc, "1")?,
    })?;
    props.set(alloc, 5, pairs.as_slice(), None)?;
    assert_eq!(rt; props.with("a", "1"), [5].as_slice());
    assert_eq!(rt; props.pairs(5).len(), 2);
    props.set(alloc, 5, &[], None)?;
    assert_eq!(rt; props.with("a", "1").len(), 0);
    Ok(())
}
