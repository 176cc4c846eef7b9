//! Queries typed: what a query means, or its first fault.
use arti_aql_domains::{TypeFault, Typed, type_query};
use arti_aql_parse::parse;
use arti_rows::Moment;
use std::alloc::{AllocError, Global};
use std::process::Abort;
use std::test::Fail;

fn named(alloc: Global, kind: &str, name: &str) -> Result<String, AllocError> {
    format!(in alloc; "{kind}: {name}")
}

fn told(alloc: Global, fault: &TypeFault) -> Result<String, AllocError> {
    match fault {
        TypeFault::NoDomain(name) => named(alloc, "NoDomain", name.as_str()),
        TypeFault::NoField(path) => named(alloc, "NoField", path.as_str()),
        TypeFault::WrongOperator(path) => named(alloc, "WrongOperator", path.as_str()),
        TypeFault::BadValue(path) => named(alloc, "BadValue", path.as_str()),
        TypeFault::PathTooLong(path) => named(alloc, "PathTooLong", path.as_str()),
        TypeFault::TooManyCases => String::from_str(alloc, "TooManyCases"),
        TypeFault::SortNotShown(path) => named(alloc, "SortNotShown", path.as_str()),
        TypeFault::Memory => String::from_str(alloc, "Memory"),
    }
}

// What a text means ten seconds after 1970 began.
fn typed(alloc: Global, text: &str) -> Result<Result<Typed, TypeFault>, Fail> {
    let query = parse(alloc, text)?;
    match Moment::new(10_000) {
        Some(now) => Ok(type_query(alloc, &query, now)),
        None => Ok(Err(TypeFault::Memory)),
    }
}

// Its first fault, if it has one.
fn fault_of(alloc: Global, text: &str) -> Result<String, Fail> {
    match typed(alloc, text)? {
        Ok(_) => Ok(String::from_str(alloc, "none")?),
        Err(fault) => Ok(told(alloc, &fault)?),
    }
}

// Texts of queries that have a right form, and the first fault of each.
const FAULTS: [(&str, &str); 64] = [
    ("archive.entries.find()", "NoDomain: archive.entries"),
    (r#"item.find({"nme":"x"})"#, "NoDomain: item"),
    (r#"builds.find({"repo":"x"})"#, "NoField: repo"),
    (r#"items.find({"nme":"x"})"#, "NoField: nme"),
    (r#"items.find({"":"x"})"#, "NoField: "),
    (r#"items.find({"@":"x"})"#, "NoField: @"),
    (r#"items.find({"@a b":"x"})"#, "NoField: @a b"),
    (r#"items.find({"@a*":"x"})"#, "NoField: @a*"),
    (r#"items.find({"repo.name":"x"})"#, "NoField: repo.name"),
    (r#"items.find({"stat.@k":"x"})"#, "NoField: stat.@k"),
    (r#"items.find({"artifact.@k":"x"})"#, "NoField: artifact.@k"),
    (r#"items.find({"property.@k":"x"})"#, "NoField: property.@k"),
    (r#"items.find({"stat":"x"})"#, "NoField: stat"),
    (
        r#"items.find({"artifact.stat.downloads":1})"#,
        "NoField: artifact.stat.downloads",
    ),
    (
        r#"items.find({"property.name":"x"})"#,
        "NoField: property.name",
    ),
    (
        r#"items.find({"artifact.module.build.module.artifact.item.property.key":"x"})"#,
        "PathTooLong: artifact.module.build.module.artifact.item.property.key",
    ),
    (
        r#"items.find({"a.b.c.d.e.f.g.h":"x"})"#,
        "PathTooLong: a.b.c.d.e.f.g.h",
    ),
    (
        r#"items.find({"size":{"$match":"1"}})"#,
        "WrongOperator: size",
    ),
    (
        r#"items.find({"created":{"$nmatch":"2*"}})"#,
        "WrongOperator: created",
    ),
    (
        r#"items.find({"name":{"$last":"3d"}})"#,
        "WrongOperator: name",
    ),
    (
        r#"items.find({"type":{"$gt":"file"}})"#,
        "WrongOperator: type",
    ),
    (
        r#"items.find({"virtual_repos":"x"})"#,
        "WrongOperator: virtual_repos",
    ),
    (
        r#"items.find({"virtual_repos":null})"#,
        "WrongOperator: virtual_repos",
    ),
    (
        r#"items.find({"artifact.item.virtual_repos":{"$eq":"x"}})"#,
        "WrongOperator: artifact.item.virtual_repos",
    ),
    (r#"items.find({"size":"x"})"#, "BadValue: size"),
    (r#"items.find({"size":"01"})"#, "BadValue: size"),
    (
        r#"items.find({"size":"1234567890123456789"})"#,
        "BadValue: size",
    ),
    (r#"items.find({"size":" 1"})"#, "BadValue: size"),
    (r#"items.find({"size":{"$gt":null}})"#, "BadValue: size"),
    (
        r#"items.find({"created":"yesterday"})"#,
        "BadValue: created",
    ),
    (r#"items.find({"created":7})"#, "BadValue: created"),
    (
        r#"items.find({"created":{"$before":"3"}})"#,
        "BadValue: created",
    ),
    (
        r#"items.find({"created":{"$last":"2020-01-01"}})"#,
        "BadValue: created",
    ),
    (r#"items.find({"type":"link"})"#, "BadValue: type"),
    (r#"items.find({"name":{"$match":null}})"#, "BadValue: name"),
    (r#"items.find({"@q":{"$gte":null}})"#, "BadValue: @q"),
    (
        r#"items.find({"size":{"$eq":1,"$match":"x","$gt":"y"}})"#,
        "WrongOperator: size",
    ),
    (
        r#"items.find({"size":{"$gt":"y","$match":"x"}})"#,
        "BadValue: size",
    ),
    (
        r#"items.find({"$or":[{"repo":"x"},{"nme":"x"}]},{"size":"x"})"#,
        "NoField: nme",
    ),
    (
        r#"items.find({"$and":[{"$or":[{"size":"x"}]}]})"#,
        "BadValue: size",
    ),
    (
        r#"items.find({"$msp":[{"name":"x"}]})"#,
        "WrongOperator: $msp",
    ),
    (r#"items.find({"$msp":[{"nme":"x"}]})"#, "NoField: nme"),
    (
        r#"items.find({"$msp":[{"@a":"x"},{"artifact.item.@a":"x"}]})"#,
        "WrongOperator: $msp",
    ),
    (r#"items.find({"$msp":[{"@a":null}]})"#, "BadValue: @a"),
    (
        r#"items.find({"$msp":[{"@a":{"$last":"3d"}}]})"#,
        "WrongOperator: @a",
    ),
    (
        r#"items.find({"$msp":[{"$and":[{"nme":"x"}]}]})"#,
        "WrongOperator: $msp",
    ),
    (
        r#"items.find({"$msp":[{"@a":{"$gt":null}}]})"#,
        "BadValue: @a",
    ),
    (
        r#"items.find({"$msp":[{"@a":"x"},{"stat.downloads":1}]})"#,
        "WrongOperator: $msp",
    ),
    (r#"items.find().include("nme")"#, "NoField: nme"),
    (r#"items.find().include("stat.name")"#, "NoField: stat.name"),
    (
        r#"items.find().include("artifact.module.build.module.artifact.item.stat")"#,
        "PathTooLong: artifact.module.build.module.artifact.item.stat",
    ),
    (
        r#"items.find().include("artifact.module.build.module.artifact.item.module")"#,
        "NoField: artifact.module.build.module.artifact.item.module",
    ),
    (r#"items.find().include("stat.@k")"#, "NoField: stat.@k"),
    (r#"items.find().include("@a b")"#, "NoField: @a b"),
    (
        r#"items.find().include("a.b.c.d.e.f.g.h")"#,
        "PathTooLong: a.b.c.d.e.f.g.h",
    ),
    (
        r#"items.find().include("name").sort({"$asc":["size"]})"#,
        "SortNotShown: size",
    ),
    (
        r#"items.find().sort({"$asc":["depth"]})"#,
        "SortNotShown: depth",
    ),
    (
        r#"items.find().sort({"$desc":["name","nme"]})"#,
        "SortNotShown: nme",
    ),
    (
        r#"items.find().sort({"$asc":["stat.downloads"]})"#,
        "SortNotShown: stat.downloads",
    ),
    (
        r#"items.find().include("virtual_repos").sort({"$asc":["virtual_repos"]})"#,
        "SortNotShown: virtual_repos",
    ),
    (
        r#"builds.find().sort({"$asc":["repo"]})"#,
        "SortNotShown: repo",
    ),
    (
        r#"items.find().include("@k").sort({"$asc":["sha256"]})"#,
        "SortNotShown: sha256",
    ),
    (
        r#"items.find({"nme":"x"}).include("nmf").sort({"$asc":["nmg"]})"#,
        "NoField: nme",
    ),
    (
        r#"items.find({"name":"x"}).include("nmf").sort({"$asc":["nmg"]})"#,
        "NoField: nmf",
    ),
];

#[test]
fn faults(rt: HostRuntime) -> Result<(), Fail> {
    for (text, want) in &FAULTS {
        let found = fault_of(rt.alloc(), *text)?;
        assert_eq!(rt; found.as_str(), *want, "of {text:?}");
    }
    Ok(())
}

// So many choices between two names, each of which has to hold.
fn choices(alloc: Global, field: &str, count: usize) -> Result<String, AllocError> {
    let mut text = String::from_str(alloc, "items.find(")?;
    for i in 0..count {
        if i > 0 {
            text.push(',')?;
        }
        let choice = format!(in alloc; r#"{{"$or":[{{"{field}":"a"}},{{"{field}":"b"}}]}}"#)?;
        text.push_str(choice.as_str())?;
    }
    text.push(')')?;
    Ok(text)
}

// Twelve choices between two are 4,096 cases. They count where a row may be chosen.
const CASES: [(&str, usize, &str); 6] = [
    ("artifact.name", 12, "none"),
    ("artifact.name", 13, "TooManyCases"),
    ("dependency.item.@k", 13, "TooManyCases"),
    ("stat.downloaded_by", 13, "none"),
    ("property.value", 13, "none"),
    ("name", 40, "none"),
];

#[test]
fn cases(rt: HostRuntime) -> Result<(), Fail> {
    for (field, count, want) in &CASES {
        let text = choices(rt.alloc(), *field, *count)?;
        let found = fault_of(rt.alloc(), text.as_str())?;
        assert_eq!(rt; found.as_str(), *want, "of {count} choices of {field}");
    }
    Ok(())
}

// Queries in the forms that JFrog's manual of its query language shows: whether builds are found, how many parts are shown, by how
// many fields is sorted, the offset and the limit.
const EXAMPLES: [(&str, bool, usize, usize, u64, Option<u64>); 48] = [
    (r#"items.find({"repo":"jcenter"})"#, false, 0, 0, 0, None),
    (
        r#"items.find({"repo":{"$eq":"jcenter"}})"#,
        false,
        0,
        0,
        0,
        None,
    ),
    (
        r#"items.find({"repo":"libs-release-local","path":"org/jfrog/artifactory","name":{"$match":"*.jar"}})"#,
        false,
        0,
        0,
        0,
        None,
    ),
    (
        r#"items.find({"name":{"$match":"*test.*"}})"#,
        false,
        0,
        0,
        0,
        None,
    ),
    (
        r#"items.find({"name":{"$nmatch":"*test.*"}})"#,
        false,
        0,
        0,
        0,
        None,
    ),
    (
        r#"items.find({"modified":{"$gt":"2015-07-01T00:00:00.000Z"}})"#,
        false,
        0,
        0,
        0,
        None,
    ),
    (
        r#"items.find({"modified":{"$last":"3d"}})"#,
        false,
        0,
        0,
        0,
        None,
    ),
    (
        r#"items.find({"modified":{"$before":"3mo"}})"#,
        false,
        0,
        0,
        0,
        None,
    ),
    (
        r#"items.find({"created":{"$last":"2w"}})"#,
        false,
        0,
        0,
        0,
        None,
    ),
    (
        r#"items.find({"updated":{"$last":"10minutes"}})"#,
        false,
        0,
        0,
        0,
        None,
    ),
    (
        r#"items.find({"size":{"$gt":"1000"}})"#,
        false,
        0,
        0,
        0,
        None,
    ),
    (
        r#"items.find({"size":{"$lte":1000}})"#,
        false,
        0,
        0,
        0,
        None,
    ),
    (r#"items.find({"type":"any"})"#, false, 0, 0, 0, None),
    (
        r#"items.find({"type":{"$eq":"folder"},"depth":{"$lte":2}})"#,
        false,
        0,
        0,
        0,
        None,
    ),
    (
        r#"items.find({"@artifactory.licenses":{"$eq":"GPL-1.0"}})"#,
        false,
        0,
        0,
        0,
        None,
    ),
    (
        r#"items.find({"@artifactory.licenses":{"$ne":"GPL-1.0"}})"#,
        false,
        0,
        0,
        0,
        None,
    ),
    (
        r#"items.find({"@os":{"$match":"lin*"},"@arch":"x86"})"#,
        false,
        0,
        0,
        0,
        None,
    ),
    (r#"items.find({"@*":"linux"})"#, false, 0, 0, 0, None),
    (
        r#"items.find({"property.key":{"$eq":"build.name"}})"#,
        false,
        0,
        0,
        0,
        None,
    ),
    (
        r#"items.find({"$msp":[{"@license":{"$match":"GPL-*"}},{"@license":{"$nmatch":"LGPL-*"}}]})"#,
        false,
        0,
        0,
        0,
        None,
    ),
    (
        r#"items.find({"$or":[{"repo":"a"},{"repo":"b"}]})"#,
        false,
        0,
        0,
        0,
        None,
    ),
    (
        r#"items.find({"$and":[{"repo":"a"},{"$or":[{"name":"x"},{"name":"y"}]}]})"#,
        false,
        0,
        0,
        0,
        None,
    ),
    (
        r#"items.find({"repo":"a"},{"name":"x"})"#,
        false,
        0,
        0,
        0,
        None,
    ),
    (
        r#"items.find({"stat.downloads":{"$gt":"5"},"stat.downloaded":{"$before":"1y"}})"#,
        false,
        0,
        0,
        0,
        None,
    ),
    (
        r#"items.find({"stat.downloaded_by":null})"#,
        false,
        0,
        0,
        0,
        None,
    ),
    (
        r#"items.find({"artifact.module.build.name":"app","artifact.module.build.number":"17"})"#,
        false,
        0,
        0,
        0,
        None,
    ),
    (
        r#"items.find({"artifact.module.build.promotion.status":"released"})"#,
        false,
        0,
        0,
        0,
        None,
    ),
    (
        r#"items.find({"dependency.scope":{"$match":"*compile*"}})"#,
        false,
        0,
        0,
        0,
        None,
    ),
    (
        r#"items.find({"artifact.module.build.@env.PATH":{"$match":"*"}})"#,
        false,
        0,
        0,
        0,
        None,
    ),
    (r#"builds.find({"name":"app"})"#, true, 0, 0, 0, None),
    (
        r#"builds.find({"started":{"$last":"30days"}})"#,
        true,
        0,
        0,
        0,
        None,
    ),
    (
        r#"builds.find({"module.artifact.item.repo":"libs"})"#,
        true,
        0,
        0,
        0,
        None,
    ),
    (
        r#"builds.find({"promotion.repo":"prod","promotion.created_by":"ann"})"#,
        true,
        0,
        0,
        0,
        None,
    ),
    (
        r#"builds.find({"@buildInfo.env.JAVA":"8"}).include("number","module.artifact.name")"#,
        true,
        2,
        0,
        0,
        None,
    ),
    (
        r#"items.find({"repo":"a"}).include("name","repo","path")"#,
        false,
        3,
        0,
        0,
        None,
    ),
    (
        r#"items.find({"repo":"a"}).include("*")"#,
        false,
        1,
        0,
        0,
        None,
    ),
    (
        r#"items.find({"repo":"a"}).include("name","property.*")"#,
        false,
        2,
        0,
        0,
        None,
    ),
    (
        r#"items.find({"repo":"a"}).include("@license","stat")"#,
        false,
        2,
        0,
        0,
        None,
    ),
    (
        r#"items.find({"repo":"a"}).include("artifact.module.build")"#,
        false,
        1,
        0,
        0,
        None,
    ),
    (
        r#"items.find({"repo":"a"}).include("stat.downloads","@*")"#,
        false,
        2,
        0,
        0,
        None,
    ),
    (
        r#"items.find({"repo":"a"}).sort({"$asc":["name","size"]})"#,
        false,
        0,
        2,
        0,
        None,
    ),
    (
        r#"items.find({"repo":"a"}).include("name","size").sort({"$desc":["size"]}).offset(10).limit(50)"#,
        false,
        2,
        1,
        10,
        Some(50),
    ),
    ("items.find().limit(0)", false, 0, 0, 0, Some(0)),
    (
        r#"items.find().include("*").sort({"$asc":["sha256"]}).distinct(false)"#,
        false,
        1,
        1,
        0,
        None,
    ),
    ("items.find().offset(3)", false, 0, 0, 3, None),
    (r#"items.find({"$msp":[{}]})"#, false, 0, 0, 0, None),
    ("items.find({})", false, 0, 0, 0, None),
    ("items.find()", false, 0, 0, 0, None),
];

#[test]
fn examples(rt: HostRuntime) -> Result<(), Fail> {
    for (text, builds, shown, sort, offset, limit) in &EXAMPLES {
        match typed(rt.alloc(), *text)? {
            Ok(query) => {
                let found = (
                    query.builds,
                    query.shown.len(),
                    query.sort.len(),
                    query.offset,
                    query.limit,
                );
                assert_eq!(rt;
                    found,
                    (*builds, *shown, *sort, *offset, *limit),
                    "of {text:?}"
                );
            }
            Err(fault) => panic!(rt; "{fault} of {text:?}"),
        }
    }
    Ok(())
}

// The fields of each domain, by a path from a root, and the letter of their values: texts, numbers, dates, kinds or lists.
const FIELDS: [(&str, &str, u8); 95] = [
    ("items", "repo", b't'),
    ("items", "path", b't'),
    ("items", "name", b't'),
    ("items", "type", b'k'),
    ("items", "size", b'n'),
    ("items", "created", b'd'),
    ("items", "created_by", b't'),
    ("items", "modified", b'd'),
    ("items", "modified_by", b't'),
    ("items", "updated", b'd'),
    ("items", "depth", b'n'),
    ("items", "original_md5", b't'),
    ("items", "original_sha1", b't'),
    ("items", "actual_md5", b't'),
    ("items", "actual_sha1", b't'),
    ("items", "sha256", b't'),
    ("items", "virtual_repos", b'l'),
    ("items", "stat.downloads", b'n'),
    ("items", "stat.downloaded", b'd'),
    ("items", "stat.downloaded_by", b't'),
    ("items", "artifact.name", b't'),
    ("items", "artifact.type", b't'),
    ("items", "artifact.sha1", b't'),
    ("items", "artifact.sha256", b't'),
    ("items", "artifact.md5", b't'),
    ("items", "dependency.name", b't'),
    ("items", "dependency.type", b't'),
    ("items", "dependency.scope", b't'),
    ("items", "dependency.sha1", b't'),
    ("items", "dependency.sha256", b't'),
    ("items", "dependency.md5", b't'),
    ("items", "artifact.module.name", b't'),
    ("items", "artifact.module.build.name", b't'),
    ("items", "artifact.module.build.number", b't'),
    ("items", "artifact.module.build.started", b'd'),
    ("items", "artifact.module.build.url", b't'),
    ("items", "artifact.module.build.created", b'd'),
    ("items", "artifact.module.build.created_by", b't'),
    ("items", "artifact.module.build.modified", b'd'),
    ("items", "artifact.module.build.modified_by", b't'),
    ("items", "dependency.item.repo", b't'),
    ("items", "dependency.item.path", b't'),
    ("items", "dependency.item.name", b't'),
    ("items", "dependency.item.type", b'k'),
    ("items", "dependency.item.size", b'n'),
    ("items", "dependency.item.created", b'd'),
    ("items", "dependency.item.created_by", b't'),
    ("items", "dependency.item.modified", b'd'),
    ("items", "dependency.item.modified_by", b't'),
    ("items", "dependency.item.updated", b'd'),
    ("items", "dependency.item.depth", b'n'),
    ("items", "dependency.item.original_md5", b't'),
    ("items", "dependency.item.original_sha1", b't'),
    ("items", "dependency.item.actual_md5", b't'),
    ("items", "dependency.item.actual_sha1", b't'),
    ("items", "dependency.item.sha256", b't'),
    ("items", "dependency.item.virtual_repos", b'l'),
    ("builds", "promotion.created", b'd'),
    ("builds", "promotion.created_by", b't'),
    ("builds", "promotion.status", b't'),
    ("builds", "promotion.repo", b't'),
    ("builds", "promotion.comment", b't'),
    ("builds", "promotion.user", b't'),
    ("builds", "name", b't'),
    ("builds", "number", b't'),
    ("builds", "started", b'd'),
    ("builds", "url", b't'),
    ("builds", "created", b'd'),
    ("builds", "created_by", b't'),
    ("builds", "modified", b'd'),
    ("builds", "modified_by", b't'),
    ("builds", "module.artifact.item.repo", b't'),
    ("builds", "module.artifact.item.path", b't'),
    ("builds", "module.artifact.item.name", b't'),
    ("builds", "module.artifact.item.type", b'k'),
    ("builds", "module.artifact.item.size", b'n'),
    ("builds", "module.artifact.item.created", b'd'),
    ("builds", "module.artifact.item.created_by", b't'),
    ("builds", "module.artifact.item.modified", b'd'),
    ("builds", "module.artifact.item.modified_by", b't'),
    ("builds", "module.artifact.item.updated", b'd'),
    ("builds", "module.artifact.item.depth", b'n'),
    ("builds", "module.artifact.item.original_md5", b't'),
    ("builds", "module.artifact.item.original_sha1", b't'),
    ("builds", "module.artifact.item.actual_md5", b't'),
    ("builds", "module.artifact.item.actual_sha1", b't'),
    ("builds", "module.artifact.item.sha256", b't'),
    ("builds", "module.artifact.item.virtual_repos", b'l'),
    ("items", "property.key", b't'),
    ("items", "property.value", b't'),
    ("items", "@k", b't'),
    ("items", "@*", b't'),
    ("items", "artifact.item.@k", b't'),
    ("builds", "@k", b't'),
    ("builds", "property.key", b't'),
];

const OPERATORS: [&str; 10] = [
    "$eq", "$ne", "$gt", "$gte", "$lt", "$lte", "$match", "$nmatch", "$before", "$last",
];

// A text, and texts of a number, a date, a span and a kind; a number; null.
const VALUES: [&str; 7] = [
    r#""a""#,
    r#""7""#,
    r#""2020-01-01""#,
    r#""3d""#,
    r#""file""#,
    "7",
    "null",
];

// For each letter and operator what comes of each value: it is typed, the operator is wrong, or the value is bad.
const VERDICTS: [(u8, [&str; 10]); 5] = [
    (
        b't',
        [
            "ttttttt", "ttttttt", "ttttttv", "ttttttv", "ttttttv", "ttttttv", "ttttttv", "ttttttv",
            "ooooooo", "ooooooo",
        ],
    ),
    (
        b'n',
        [
            "vtvvvtt", "vtvvvtt", "vtvvvtv", "vtvvvtv", "vtvvvtv", "vtvvvtv", "ooooooo", "ooooooo",
            "ooooooo", "ooooooo",
        ],
    ),
    (
        b'd',
        [
            "vvtvvvt", "vvtvvvt", "vvtvvvv", "vvtvvvv", "vvtvvvv", "vvtvvvv", "ooooooo", "ooooooo",
            "vvvtvvv", "vvvtvvv",
        ],
    ),
    (
        b'k',
        [
            "vvvvtvt", "vvvvtvt", "ooooooo", "ooooooo", "ooooooo", "ooooooo", "ooooooo", "ooooooo",
            "ooooooo", "ooooooo",
        ],
    ),
    (
        b'l',
        [
            "ooooooo", "ooooooo", "ooooooo", "ooooooo", "ooooooo", "ooooooo", "ooooooo", "ooooooo",
            "ooooooo", "ooooooo",
        ],
    ),
];

// What comes of a test, as a letter.
fn verdict(
    alloc: Global,
    domain: &str,
    path: &str,
    operator: &str,
    value: &str,
) -> Result<u8, Fail> {
    let text = format!(in alloc; r#"{domain}.find({{"{path}":{{"{operator}":{value}}}}})"#)?;
    let fault = fault_of(alloc, text.as_str())?;
    let wrong = named(alloc, "WrongOperator", path)?;
    let bad = named(alloc, "BadValue", path)?;
    if fault.as_str() == "none" {
        Ok(b't')
    } else if fault.as_str() == wrong.as_str() {
        Ok(b'o')
    } else if fault.as_str() == bad.as_str() {
        Ok(b'v')
    } else {
        Ok(b'?')
    }
}

fn tries_values<R: Abort>(
    rt: &R,
    alloc: Global,
    domain: &str,
    path: &str,
    operator: &str,
    letters: &str,
) -> Result<(), Fail> {
    for (value, want) in VALUES.iter().zip(letters.as_bytes()) {
        let found = verdict(alloc, domain, path, operator, *value)?;
        assert_eq!(rt; found, *want, "{path} {operator} {value}");
    }
    Ok(())
}

fn tries_operators<R: Abort>(
    rt: &R,
    alloc: Global,
    domain: &str,
    path: &str,
    lines: &[&str; 10],
) -> Result<(), Fail> {
    for (operator, letters) in OPERATORS.iter().zip(lines) {
        tries_values(rt, alloc, domain, path, *operator, *letters)?;
    }
    Ok(())
}

#[test]
fn each_field_operator_and_value(rt: HostRuntime) -> Result<(), Fail> {
    for (domain, path, letter) in &FIELDS {
        let mut tried = false;
        for (values, lines) in &VERDICTS {
            if values == letter {
                tries_operators(&rt, rt.alloc(), *domain, *path, lines)?;
                tried = true;
            }
        }
        assert!(rt; tried, "at {path}");
    }
    Ok(())
}
