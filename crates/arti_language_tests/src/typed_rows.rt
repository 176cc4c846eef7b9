//! Criteria that speak of a row's own fields and properties, tested on rows.
use arti_aql_domains::{Row, is_alone, test, type_query};
use arti_aql_parse::parse;
use arti_rows::{BuildRow, Digests, FileRef, Given, ItemKey, ItemRow, Moment, Property, Seq, Text};
use std::alloc::{AllocError, Global};
use std::process::Abort;
use std::test::Fail;

// Queries for items, and whether their criteria hold for the file and for the folder.
const OF_ITEMS: [(&str, bool, bool); 88] = [
    ("items.find()", true, true),
    ("items.find({})", true, true),
    (r#"items.find({"repo":"libs"})"#, true, true),
    (r#"items.find({"repo":"lib"})"#, false, false),
    (r#"items.find({"path":"."})"#, false, true),
    (r#"items.find({"path":{"$match":"a/*"}})"#, true, false),
    (r#"items.find({"name":{"$match":"*.jar"}})"#, true, false),
    (r#"items.find({"name":{"$nmatch":"?"}})"#, true, false),
    (r#"items.find({"name":{"$gt":"d"}})"#, true, false),
    (r#"items.find({"name":{"$gte":"d"}})"#, true, true),
    (r#"items.find({"name":{"$lt":"x.jar"}})"#, false, true),
    (r#"items.find({"name":null})"#, false, false),
    (r#"items.find({"name":{"$ne":null}})"#, true, true),
    (r#"items.find({"type":"file"})"#, true, false),
    (r#"items.find({"type":{"$ne":"folder"}})"#, true, false),
    (r#"items.find({"type":"any"})"#, true, true),
    (r#"items.find({"type":{"$ne":"any"}})"#, false, false),
    (r#"items.find({"type":null})"#, false, false),
    (r#"items.find({"size":10})"#, true, false),
    (r#"items.find({"size":"10"})"#, true, false),
    (r#"items.find({"size":{"$gt":9}})"#, true, false),
    (r#"items.find({"size":{"$lt":-1}})"#, false, false),
    (r#"items.find({"size":{"$ne":7}})"#, true, true),
    (r#"items.find({"size":null})"#, false, true),
    (r#"items.find({"size":{"$gte":"-10"}})"#, true, false),
    (r#"items.find({"depth":1})"#, false, true),
    (r#"items.find({"depth":{"$gte":3}})"#, true, false),
    (r#"items.find({"depth":{"$lt":3}})"#, false, true),
    (
        r#"items.find({"created":"1970-01-01T00:00:01Z"})"#,
        true,
        true,
    ),
    (
        r#"items.find({"created":{"$lt":"1970-01-01T00:00:01.001Z"}})"#,
        true,
        true,
    ),
    (r#"items.find({"created":{"$before":"8s"}})"#, true, true),
    (r#"items.find({"created":{"$before":"9s"}})"#, false, false),
    (r#"items.find({"created":{"$last":"9s"}})"#, true, true),
    (r#"items.find({"modified":{"$last":"8s"}})"#, true, false),
    (
        r#"items.find({"updated":{"$ne":"1970-01-01T01:00:03+01:00"}})"#,
        false,
        true,
    ),
    (
        r#"items.find({"modified":{"$before":"99999y"}})"#,
        false,
        false,
    ),
    (r#"items.find({"created_by":"ann"})"#, true, true),
    (r#"items.find({"modified_by":{"$ne":"ann"}})"#, true, false),
    (
        r#"items.find({"original_md5":"000102030405060708090a0b0c0d0e0f"})"#,
        true,
        false,
    ),
    (r#"items.find({"original_md5":null})"#, false, true),
    (r#"items.find({"original_sha1":null})"#, true, true),
    (
        r#"items.find({"original_sha1":{"$nmatch":"*"}})"#,
        true,
        true,
    ),
    (
        r#"items.find({"actual_md5":{"$match":"0001*0f"}})"#,
        true,
        false,
    ),
    (
        r#"items.find({"actual_md5":"000102030405060708090A0B0C0D0E0F"})"#,
        false,
        false,
    ),
    (r#"items.find({"actual_sha1":{"$gt":"10"}})"#, true, false),
    (
        r#"items.find({"actual_sha1":"101112131415161718191a1b1c1d1e1f20212223"})"#,
        true,
        false,
    ),
    (
        r#"items.find({"sha256":{"$match":"2425*4243"}})"#,
        true,
        false,
    ),
    (r#"items.find({"sha256":{"$ne":"x"}})"#, true, true),
    (r#"items.find({"sha256":null})"#, false, true),
    (r#"items.find({"@q":"1"})"#, true, false),
    (r#"items.find({"@q":{"$ne":"1"}})"#, false, true),
    (r#"items.find({"@q":{"$ne":"3"}})"#, true, true),
    (r#"items.find({"@q":{"$nmatch":"3*"}})"#, true, true),
    (r#"items.find({"@q":{"$nmatch":"2*"}})"#, false, true),
    (r#"items.find({"@q":null})"#, false, true),
    (r#"items.find({"@q":{"$ne":null}})"#, true, false),
    (r#"items.find({"@q":{"$gt":"1"}})"#, true, false),
    (r#"items.find({"@q":{"$gt":"2"}})"#, false, false),
    (r#"items.find({"@q":1})"#, true, false),
    (r#"items.find({"@w":{"$ne":"1"}})"#, true, true),
    (r#"items.find({"@w":{"$nmatch":"*"}})"#, true, true),
    (r#"items.find({"@w":{"$match":"*"}})"#, false, false),
    (r#"items.find({"@w":null})"#, true, true),
    (r#"items.find({"@*":"GPL"})"#, true, false),
    (r#"items.find({"@*":{"$ne":"GPL"}})"#, false, true),
    (r#"items.find({"@*":null})"#, false, true),
    (
        r#"items.find({"property.value":{"$match":"?"}})"#,
        true,
        false,
    ),
    (r#"items.find({"property.key":"lic"})"#, true, false),
    (r#"items.find({"property.key":{"$ne":"lic"}})"#, false, true),
    (
        r#"items.find({"property.key":{"$nmatch":"w*"}})"#,
        true,
        true,
    ),
    (r#"items.find({"property.key":null})"#, false, true),
    (
        r#"items.find({"$msp":[{"@q":{"$gt":"0"}},{"@q":{"$lt":"2"}}]})"#,
        true,
        false,
    ),
    (
        r#"items.find({"$msp":[{"@q":"1"},{"@q":"2"}]})"#,
        false,
        false,
    ),
    (r#"items.find({"$msp":[{"@q":{"$ne":"1"}}]})"#, true, false),
    (
        r#"items.find({"$msp":[{"@q":{"$nmatch":"*"}}]})"#,
        false,
        false,
    ),
    (r#"items.find({"$msp":[{}]})"#, true, false),
    (
        r#"items.find({"$msp":[{"@q":{"$gt":"1"},"property.key":"q"}]})"#,
        true,
        false,
    ),
    (
        r#"items.find({"$msp":[{"@*":"GPL"},{"property.key":"q"}]})"#,
        false,
        false,
    ),
    (r#"items.find({"$msp":[{"@w":{"$ne":"1"}}]})"#, false, false),
    (
        r#"items.find({"$and":[{"@q":"1"},{"@q":"2"}]})"#,
        true,
        false,
    ),
    (
        r#"items.find({"$or":[{"@q":"3"},{"@q":"2"}]})"#,
        true,
        false,
    ),
    (r#"items.find({"$or":[{}]})"#, true, true),
    (r#"items.find({"$and":[{}]})"#, true, true),
    (
        r#"items.find({"$or":[{"repo":"x"},{"name":"d"}]})"#,
        false,
        true,
    ),
    (r#"items.find({"repo":"libs"},{"name":"d"})"#, false, true),
    (
        r#"items.find({"$and":[{"$or":[{"name":"d"},{"size":10}]},{"created_by":"ann"}]})"#,
        true,
        true,
    ),
    (r#"items.find({"size":{"$gt":5,"$lt":20}})"#, true, false),
    (
        r#"items.find({"name":{"$match":"x*","$nmatch":"*r"}})"#,
        false,
        false,
    ),
];

// Queries for builds, and whether their criteria hold for the build.
const OF_BUILDS: [(&str, bool); 14] = [
    ("builds.find()", true),
    (r#"builds.find({"name":"app"})"#, true),
    (r#"builds.find({"number":{"$gt":"2"}})"#, false),
    (r#"builds.find({"number":17})"#, true),
    (r#"builds.find({"started":{"$before":"8s"}})"#, true),
    (r#"builds.find({"url":{"$match":"http://*"}})"#, true),
    (r#"builds.find({"created":"1970-01-01T00:00:05Z"})"#, true),
    (r#"builds.find({"created_by":{"$ne":"ann"}})"#, false),
    (
        r#"builds.find({"modified":{"$gte":"1970-01-01T00:00:06.001Z"}})"#,
        false,
    ),
    (r#"builds.find({"modified_by":null})"#, false),
    (r#"builds.find({"@os":"linux"})"#, true),
    (r#"builds.find({"@os":{"$ne":"linux"}})"#, false),
    (r#"builds.find({"$msp":[{"@os":{"$match":"l*"}}]})"#, true),
    (r#"builds.find({"property.key":{"$ne":"os"}})"#, false),
];

fn text(alloc: Global, words: &str) -> Result<Text, AllocError> {
    Text::from_str(alloc, words)
}

fn at<R: Abort>(rt: &R, ms: i64) -> Moment {
    Moment::new(ms).expect(rt, "a moment in range")
}

fn property(alloc: Global, key: &str, value: &str) -> Result<Property, AllocError> {
    Ok(Property {
        key: text(alloc, key)?,
        value: text(alloc, value)?,
    })
}

const MD5: [u8; 16] = [0, 1, 2, 3, 4, 5, 6, 7, 8, 9, 10, 11, 12, 13, 14, 15];

const SHA1: [u8; 20] = [
    16, 17, 18, 19, 20, 21, 22, 23, 24, 25, 26, 27, 28, 29, 30, 31, 32, 33, 34, 35,
];

const SHA256: [u8; 32] = [
    36, 37, 38, 39, 40, 41, 42, 43, 44, 45, 46, 47, 48, 49, 50, 51, 52, 53, 54, 55, 56, 57, 58, 59,
    60, 61, 62, 63, 64, 65, 66, 67,
];

fn content() -> FileRef {
    FileRef {
        place: 0,
        len: 10,
        digests: Digests {
            md5: MD5,
            sha1: SHA1,
            sha256: SHA256,
        },
    }
}

// `libs/a/b/x.jar`, with three properties. The client gave its MD5.
fn file<R: Abort>(rt: &R, alloc: Global) -> Result<ItemRow, Fail> {
    let mut props = Seq::new(alloc);
    for (key, value) in [("lic", "GPL"), ("q", "1"), ("q", "2")] {
        props.push(property(alloc, key, value)?)?;
    }
    Ok(ItemRow {
        key: ItemKey::new(alloc, "libs", "a/b/x.jar")?,
        created: at(rt, 1000),
        created_by: text(alloc, "ann")?,
        modified: at(rt, 2000),
        modified_by: text(alloc, "bob")?,
        updated: at(rt, 3000),
        given: Given {
            md5: true,
            sha1: false,
            sha256: false,
        },
        file: Some(content()),
        props,
        stat: None,
    })
}

// The folder `libs/d`.
fn folder<R: Abort>(rt: &R, alloc: Global) -> Result<ItemRow, Fail> {
    Ok(ItemRow {
        key: ItemKey::new(alloc, "libs", "d")?,
        created: at(rt, 1000),
        created_by: text(alloc, "ann")?,
        modified: at(rt, 1000),
        modified_by: text(alloc, "ann")?,
        updated: at(rt, 1000),
        given: Given {
            md5: false,
            sha1: false,
            sha256: false,
        },
        file: None,
        props: Seq::new(alloc),
        stat: None,
    })
}

// Build 17 of `app`, with one property.
fn build<R: Abort>(rt: &R, alloc: Global) -> Result<BuildRow, Fail> {
    let mut props = Seq::new(alloc);
    props.push(property(alloc, "os", "linux")?)?;
    Ok(BuildRow {
        name: text(alloc, "app")?,
        number: text(alloc, "17")?,
        started: at(rt, 1000),
        url: text(alloc, "http://ci/17")?,
        created: at(rt, 5000),
        created_by: text(alloc, "ann")?,
        modified: at(rt, 6000),
        modified_by: text(alloc, "bob")?,
        props,
        modules: Seq::new(alloc),
        promotions: Seq::new(alloc),
        document: Seq::new(alloc),
    })
}

// Whether a query's criteria hold for a row, if they speak of it alone.
fn holds(alloc: Global, now: Moment, words: &str, row: &Row<'_>) -> Result<Option<bool>, Fail> {
    let query = parse(alloc, words)?;
    let typed = type_query(alloc, &query, now)?;
    if is_alone(&typed.cond) {
        Ok(Some(test(&typed.cond, row)))
    } else {
        Ok(None)
    }
}

fn tries<R: Abort>(
    rt: &R,
    alloc: Global,
    words: &str,
    row: &Row<'_>,
    want: bool,
) -> Result<(), Fail> {
    let found = holds(alloc, at(rt, 10_000), words, row)?;
    assert_eq!(rt; found, Some(want), "{words}");
    Ok(())
}

#[test]
fn of_the_file(rt: HostRuntime) -> Result<(), Fail> {
    let file = file(&rt, rt.alloc())?;
    for (words, want, _) in &OF_ITEMS {
        tries(&rt, rt.alloc(), *words, &Row::Item(&file), *want)?;
    }
    Ok(())
}

#[test]
fn of_the_folder(rt: HostRuntime) -> Result<(), Fail> {
    let folder = folder(&rt, rt.alloc())?;
    for (words, _, want) in &OF_ITEMS {
        tries(&rt, rt.alloc(), *words, &Row::Item(&folder), *want)?;
    }
    Ok(())
}

#[test]
fn of_the_build(rt: HostRuntime) -> Result<(), Fail> {
    let build = build(&rt, rt.alloc())?;
    for (words, want) in &OF_BUILDS {
        tries(&rt, rt.alloc(), *words, &Row::Build(&build), *want)?;
    }
    Ok(())
}
