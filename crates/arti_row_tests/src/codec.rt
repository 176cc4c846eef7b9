// Bytes and changes, both ways, and bytes that are no change.
use arti_codec::{DecodeFault, decode, encode};
use std::alloc::{AllocError, Global};
use std::test::*;

// Moment 1234, user ann, one edit.
const HEAD: &[u8] = b"\0\0\0\0\0\0\x04\xd2\0\x03ann\0\0\0\x01";

// The fifteen edits, by their numbers, and the definition of a remote, each with what it means.
const EDITS: [(&[u8], &str); 16] = [
    (
        b"\x01\0\x03all\x02\0\0\0\x02\0\x04libs\0\x03far\0\x04libs\0\x04**/*\0\x06tmp/**",
        r#"Define { def: RepoDef { key: Text { text: "all" }, class: Virtual, url: Text { text: "" }, members: Seq { items: [Text { text: "libs" }, Text { text: "far" }] }, default_to: Some(Text { text: "libs" }), includes: Text { text: "**/*" }, excludes: Text { text: "tmp/**" } } }"#,
    ),
    (
        b"\x02\0\x04libs\0\x03a/b\0\x05c.txt",
        r#"Folder { key: ItemKey { repo: Text { text: "libs" }, path: Text { text: "a/b" }, name: Text { text: "c.txt" } } }"#,
    ),
    (
        b"\x03\0\x04libs\0\x01.\0\x05c.txt\x05\x01\x02\x03\x04\x05\x06\x07\x08\0\0\0\0\x04\0\0\0\0\x01\x02\x03\x04\x05\x06\x07\x08\x09\x0a\x0b\x0c\x0d\x0e\x0f\x10\x11\x12\x13\x14\x15\x16\x17\x18\x19\x1a\x1b\x1c\x1d\x1e\x1f !\"#$%&'()*+,-./0123456789:;<=>?@ABC\0\x03\0\x01k\0\x01v\0\x01k\0\x01w\0\x07license\0\0",
        r#"File { key: ItemKey { repo: Text { text: "libs" }, path: Text { text: "." }, name: Text { text: "c.txt" } }, given: Given { md5: true, sha1: false, sha256: true }, file: FileRef { place: 72623859790382856, len: 67108864, digests: Digests { md5: [0, 1, 2, 3, 4, 5, 6, 7, 8, 9, 10, 11, 12, 13, 14, 15], sha1: [16, 17, 18, 19, 20, 21, 22, 23, 24, 25, 26, 27, 28, 29, 30, 31, 32, 33, 34, 35], sha256: [36, 37, 38, 39, 40, 41, 42, 43, 44, 45, 46, 47, 48, 49, 50, 51, 52, 53, 54, 55, 56, 57, 58, 59, 60, 61, 62, 63, 64, 65, 66, 67] } }, props: Seq { items: [Property { key: Text { text: "k" }, value: Text { text: "v" } }, Property { key: Text { text: "k" }, value: Text { text: "w" } }, Property { key: Text { text: "license" }, value: Text { text: "" } }] } }"#,
    ),
    (
        b"\x04\0\x04libs\0\x03a/b\0\x05c.txt",
        r#"Remove { key: ItemKey { repo: Text { text: "libs" }, path: Text { text: "a/b" }, name: Text { text: "c.txt" } } }"#,
    ),
    (
        b"\x05\0\x04libs\0\x03a/b\0\x05c.txt\0\x04libs\0\x01.\0\x05c.txt",
        r#"Move { from: ItemKey { repo: Text { text: "libs" }, path: Text { text: "a/b" }, name: Text { text: "c.txt" } }, to: ItemKey { repo: Text { text: "libs" }, path: Text { text: "." }, name: Text { text: "c.txt" } } }"#,
    ),
    (
        b"\x06\0\x04libs\0\x01.\0\x05c.txt\0\x04libs\0\x03a/b\0\x05c.txt",
        r#"Copy { from: ItemKey { repo: Text { text: "libs" }, path: Text { text: "." }, name: Text { text: "c.txt" } }, to: ItemKey { repo: Text { text: "libs" }, path: Text { text: "a/b" }, name: Text { text: "c.txt" } } }"#,
    ),
    (
        b"\x07\0\x04libs\0\x03a/b\0\x05c.txt\x01\0\x03\0\x01k\0\x01v\0\x01k\0\x01w\0\x07license\0\0",
        r#"SetProps { key: ItemKey { repo: Text { text: "libs" }, path: Text { text: "a/b" }, name: Text { text: "c.txt" } }, deep: true, props: Seq { items: [Property { key: Text { text: "k" }, value: Text { text: "v" } }, Property { key: Text { text: "k" }, value: Text { text: "w" } }, Property { key: Text { text: "license" }, value: Text { text: "" } }] } }"#,
    ),
    (
        b"\x08\0\x04libs\0\x03a/b\0\x05c.txt\0\0\x02\0\x01a\0\x01b",
        r#"DropProps { key: ItemKey { repo: Text { text: "libs" }, path: Text { text: "a/b" }, name: Text { text: "c.txt" } }, deep: false, keys: Seq { items: [Text { text: "a" }, Text { text: "b" }] } }"#,
    ),
    (
        b"\x09\0\x04libs\0\x03a/b\0\x05c.txt",
        r#"Downloaded { key: ItemKey { repo: Text { text: "libs" }, path: Text { text: "a/b" }, name: Text { text: "c.txt" } } }"#,
    ),
    (
        b"\x0a\0\x03app\0\x031.0\0\0\x01\x8b\xcf\xe5h\0\0\x0bhttp://ci/1\0\x01\0\x03env\0\x04prod\0\0\0\x02\0\x02m1\0\0\0\x02\0\x05a.jar\0\x03jar\x07\0\x01\x02\x03\x04\x05\x06\x07\x08\x09\x0a\x0b\x0c\x0d\x0e\x0f\x10\x11\x12\x13\x14\x15\x16\x17\x18\x19\x1a\x1b\x1c\x1d\x1e\x1f !\"#$%&'()*+,-./0123456789:;<=>?@ABC\0\x05b.jar\0\0\x02\x10\x11\x12\x13\x14\x15\x16\x17\x18\x19\x1a\x1b\x1c\x1d\x1e\x1f !\"#\0\0\0\x01\0\x05dep:1\0\x03jar\0\x02\0\x07compile\0\x04test\x01\0\x01\x02\x03\x04\x05\x06\x07\x08\x09\x0a\x0b\x0c\x0d\x0e\x0f\0\x02m2\0\0\0\0\0\0\0\0\0\0\0\x0e{\"name\":\"app\"}",
        r#"Build { info: BuildInfo { name: Text { text: "app" }, number: Text { text: "1.0" }, started: Moment { ms: 1700000000000 }, url: Text { text: "http://ci/1" }, props: Seq { items: [Property { key: Text { text: "env" }, value: Text { text: "prod" } }] }, modules: Seq { items: [ModuleRow { id: Text { text: "m1" }, artifacts: Seq { items: [ArtifactRow { name: Text { text: "a.jar" }, kind: Text { text: "jar" }, digests: SomeDigests { md5: Some([0, 1, 2, 3, 4, 5, 6, 7, 8, 9, 10, 11, 12, 13, 14, 15]), sha1: Some([16, 17, 18, 19, 20, 21, 22, 23, 24, 25, 26, 27, 28, 29, 30, 31, 32, 33, 34, 35]), sha256: Some([36, 37, 38, 39, 40, 41, 42, 43, 44, 45, 46, 47, 48, 49, 50, 51, 52, 53, 54, 55, 56, 57, 58, 59, 60, 61, 62, 63, 64, 65, 66, 67]) } }, ArtifactRow { name: Text { text: "b.jar" }, kind: Text { text: "" }, digests: SomeDigests { md5: None, sha1: Some([16, 17, 18, 19, 20, 21, 22, 23, 24, 25, 26, 27, 28, 29, 30, 31, 32, 33, 34, 35]), sha256: None } }] }, dependencies: Seq { items: [DependencyRow { id: Text { text: "dep:1" }, kind: Text { text: "jar" }, scopes: Seq { items: [Text { text: "compile" }, Text { text: "test" }] }, digests: SomeDigests { md5: Some([0, 1, 2, 3, 4, 5, 6, 7, 8, 9, 10, 11, 12, 13, 14, 15]), sha1: None, sha256: None } }] } }, ModuleRow { id: Text { text: "m2" }, artifacts: Seq { items: [] }, dependencies: Seq { items: [] } }] }, document: Seq { items: [123, 34, 110, 97, 109, 101, 34, 58, 34, 97, 112, 112, 34, 125] } } }"#,
    ),
    (
        b"\x0b\0\x03app\0\x031.0",
        r#"Unbuild { name: Text { text: "app" }, number: Text { text: "1.0" } }"#,
    ),
    (
        b"\x0c\0\x03app\0\x031.0\xff\xff\xc7|\xed\xd3(\0\0\x03bob\0\x06staged\0\x08any repo\0\x07fine \xc3\xa9\0\x03eve",
        r#"Promote { name: Text { text: "app" }, number: Text { text: "1.0" }, row: PromotionRow { created: Moment { ms: -62135596800000 }, created_by: Text { text: "bob" }, status: Text { text: "staged" }, repo: Text { text: "any repo" }, comment: Text { text: "fine é" }, user: Text { text: "eve" } } }"#,
    ),
    (
        b"\x0d\x01\x02\x03\x04\x05\x06\x07\x08\0\0\0\0\x04\0\0\0\0\x01\x02\x03\x04\x05\x06\x07\x08\x09\x0a\x0b\x0c\x0d\x0e\x0f\x10\x11\x12\x13\x14\x15\x16\x17\x18\x19\x1a\x1b\x1c\x1d\x1e\x1f !\"#$%&'()*+,-./0123456789:;<=>?@ABC",
        r#"Kept { file: FileRef { place: 72623859790382856, len: 67108864, digests: Digests { md5: [0, 1, 2, 3, 4, 5, 6, 7, 8, 9, 10, 11, 12, 13, 14, 15], sha1: [16, 17, 18, 19, 20, 21, 22, 23, 24, 25, 26, 27, 28, 29, 30, 31, 32, 33, 34, 35], sha256: [36, 37, 38, 39, 40, 41, 42, 43, 44, 45, 46, 47, 48, 49, 50, 51, 52, 53, 54, 55, 56, 57, 58, 59, 60, 61, 62, 63, 64, 65, 66, 67] } } }"#,
    ),
    (
        b"\x0e\0\x04libs\0\x03a/b\0\x05c.txt\0\0\0\0\0\0\0\x01\0\x03ann\0\0\0\0\0\0\0\x02\0\x03bob\xff\xff\xff\xff\xff\xff\xff\xfd\x05\x01\x01\x02\x03\x04\x05\x06\x07\x08\0\0\0\0\x04\0\0\0\0\x01\x02\x03\x04\x05\x06\x07\x08\x09\x0a\x0b\x0c\x0d\x0e\x0f\x10\x11\x12\x13\x14\x15\x16\x17\x18\x19\x1a\x1b\x1c\x1d\x1e\x1f !\"#$%&'()*+,-./0123456789:;<=>?@ABC\0\x03\0\x01k\0\x01v\0\x01k\0\x01w\0\x07license\0\0\x01\xff\xff\xff\xff\xff\xff\xff\xff\0\0\0\0\0\0\0\x04\0\x04carl",
        r#"Item { row: ItemRow { key: ItemKey { repo: Text { text: "libs" }, path: Text { text: "a/b" }, name: Text { text: "c.txt" } }, created: Moment { ms: 1 }, created_by: Text { text: "ann" }, modified: Moment { ms: 2 }, modified_by: Text { text: "bob" }, updated: Moment { ms: -3 }, given: Given { md5: true, sha1: false, sha256: true }, file: Some(FileRef { place: 72623859790382856, len: 67108864, digests: Digests { md5: [0, 1, 2, 3, 4, 5, 6, 7, 8, 9, 10, 11, 12, 13, 14, 15], sha1: [16, 17, 18, 19, 20, 21, 22, 23, 24, 25, 26, 27, 28, 29, 30, 31, 32, 33, 34, 35], sha256: [36, 37, 38, 39, 40, 41, 42, 43, 44, 45, 46, 47, 48, 49, 50, 51, 52, 53, 54, 55, 56, 57, 58, 59, 60, 61, 62, 63, 64, 65, 66, 67] } }), props: Seq { items: [Property { key: Text { text: "k" }, value: Text { text: "v" } }, Property { key: Text { text: "k" }, value: Text { text: "w" } }, Property { key: Text { text: "license" }, value: Text { text: "" } }] }, stat: Some(Stat { downloads: 18446744073709551615, downloaded: Moment { ms: 4 }, downloaded_by: Text { text: "carl" } }) } }"#,
    ),
    (
        b"\x0f\0\x03app\0\x031.0\0\0\x01\x8b\xcf\xe5h\0\0\x0bhttp://ci/1\0\x01\0\x03env\0\x04prod\0\0\0\x02\0\x02m1\0\0\0\x02\0\x05a.jar\0\x03jar\x07\0\x01\x02\x03\x04\x05\x06\x07\x08\x09\x0a\x0b\x0c\x0d\x0e\x0f\x10\x11\x12\x13\x14\x15\x16\x17\x18\x19\x1a\x1b\x1c\x1d\x1e\x1f !\"#$%&'()*+,-./0123456789:;<=>?@ABC\0\x05b.jar\0\0\x02\x10\x11\x12\x13\x14\x15\x16\x17\x18\x19\x1a\x1b\x1c\x1d\x1e\x1f !\"#\0\0\0\x01\0\x05dep:1\0\x03jar\0\x02\0\x07compile\0\x04test\x01\0\x01\x02\x03\x04\x05\x06\x07\x08\x09\x0a\x0b\x0c\x0d\x0e\x0f\0\x02m2\0\0\0\0\0\0\0\0\0\0\0\x0e{\"name\":\"app\"}\0\0\0\0\0\0\0\x05\0\x03ann\0\0\0\0\0\0\0\x06\0\x03bob\0\0\0\x02\xff\xff\xc7|\xed\xd3(\0\0\x03bob\0\x06staged\0\x08any repo\0\x07fine \xc3\xa9\0\x03eve\0\0\xe6w\xd2\x1f\xdb\xff\0\0\0\0\0\0\0\0\0\0",
        r#"Held { row: BuildRow { name: Text { text: "app" }, number: Text { text: "1.0" }, started: Moment { ms: 1700000000000 }, url: Text { text: "http://ci/1" }, created: Moment { ms: 5 }, created_by: Text { text: "ann" }, modified: Moment { ms: 6 }, modified_by: Text { text: "bob" }, props: Seq { items: [Property { key: Text { text: "env" }, value: Text { text: "prod" } }] }, modules: Seq { items: [ModuleRow { id: Text { text: "m1" }, artifacts: Seq { items: [ArtifactRow { name: Text { text: "a.jar" }, kind: Text { text: "jar" }, digests: SomeDigests { md5: Some([0, 1, 2, 3, 4, 5, 6, 7, 8, 9, 10, 11, 12, 13, 14, 15]), sha1: Some([16, 17, 18, 19, 20, 21, 22, 23, 24, 25, 26, 27, 28, 29, 30, 31, 32, 33, 34, 35]), sha256: Some([36, 37, 38, 39, 40, 41, 42, 43, 44, 45, 46, 47, 48, 49, 50, 51, 52, 53, 54, 55, 56, 57, 58, 59, 60, 61, 62, 63, 64, 65, 66, 67]) } }, ArtifactRow { name: Text { text: "b.jar" }, kind: Text { text: "" }, digests: SomeDigests { md5: None, sha1: Some([16, 17, 18, 19, 20, 21, 22, 23, 24, 25, 26, 27, 28, 29, 30, 31, 32, 33, 34, 35]), sha256: None } }] }, dependencies: Seq { items: [DependencyRow { id: Text { text: "dep:1" }, kind: Text { text: "jar" }, scopes: Seq { items: [Text { text: "compile" }, Text { text: "test" }] }, digests: SomeDigests { md5: Some([0, 1, 2, 3, 4, 5, 6, 7, 8, 9, 10, 11, 12, 13, 14, 15]), sha1: None, sha256: None } }] } }, ModuleRow { id: Text { text: "m2" }, artifacts: Seq { items: [] }, dependencies: Seq { items: [] } }] }, promotions: Seq { items: [PromotionRow { created: Moment { ms: -62135596800000 }, created_by: Text { text: "bob" }, status: Text { text: "staged" }, repo: Text { text: "any repo" }, comment: Text { text: "fine é" }, user: Text { text: "eve" } }, PromotionRow { created: Moment { ms: 253402300799999 }, created_by: Text { text: "" }, status: Text { text: "" }, repo: Text { text: "" }, comment: Text { text: "" }, user: Text { text: "" } }] }, document: Seq { items: [123, 34, 110, 97, 109, 101, 34, 58, 34, 97, 112, 112, 34, 125] } } }"#,
    ),
    (
        b"\x01\0\x03far\x01\0\x0ahttp://r/x\0\0\0\0\0\x04a/**\0\0",
        r#"Define { def: RepoDef { key: Text { text: "far" }, class: Remote, url: Text { text: "http://r/x" }, members: Seq { items: [] }, default_to: None, includes: Text { text: "a/**" }, excludes: Text { text: "" } } }"#,
    ),
];

// Edits that break a rule.
const BAD_EDITS: [(&str, &[u8]); 43] = [
    ("no field", b""),
    ("edit 0", b"\0\0\x04libs\0\x03a/b\0\x05c.txt"),
    (
        "edit 16",
        b"\x10\0\x03app\0\x031.0\0\0\x01\x8b\xcf\xe5h\0\0\x0bhttp://ci/1\0\x01\0\x03env\0\x04prod\0\0\0\x02\0\x02m1\0\0\0\x02\0\x05a.jar\0\x03jar\x07\0\x01\x02\x03\x04\x05\x06\x07\x08\x09\x0a\x0b\x0c\x0d\x0e\x0f\x10\x11\x12\x13\x14\x15\x16\x17\x18\x19\x1a\x1b\x1c\x1d\x1e\x1f !\"#$%&'()*+,-./0123456789:;<=>?@ABC\0\x05b.jar\0\0\x02\x10\x11\x12\x13\x14\x15\x16\x17\x18\x19\x1a\x1b\x1c\x1d\x1e\x1f !\"#\0\0\0\x01\0\x05dep:1\0\x03jar\0\x02\0\x07compile\0\x04test\x01\0\x01\x02\x03\x04\x05\x06\x07\x08\x09\x0a\x0b\x0c\x0d\x0e\x0f\0\x02m2\0\0\0\0\0\0\0\0\0\0\0\x0e{\"name\":\"app\"}",
    ),
    (
        "more edits than are counted",
        b"\x02\0\x04libs\0\x03a/b\0\x05c.txt\x02\0\x04libs\0\x03a/b\0\x05c.txt",
    ),
    ("a reserved repository", b"\x02\0\x03api\0\x01.\0\x01f"),
    ("a slash in the name", b"\x02\0\x04libs\0\x01a\0\x03b/c"),
    (
        "a slash in the name at the root",
        b"\x02\0\x04libs\0\x01.\0\x03b/c",
    ),
    (
        "a path that isn't the name's",
        b"\x02\0\x04libs\0\x03./a\0\x01b",
    ),
    ("no path", b"\x02\0\x04libs\0\0\0\x01b"),
    (
        "a name that isn't UTF-8",
        b"\x02\0\x04libs\0\x01.\0\x01\xff",
    ),
    ("a text that is cut", b"\x02\0\x04lib"),
    ("a text longer than the bytes", b"\x02\xff\xfflibs"),
    ("a class 3", b"\x01\0\x01l\x03\0\0\0\0\0\0\0\x04**/*\0\0"),
    (
        "a local with a URL",
        b"\x01\0\x01l\0\0\x08http://r\0\0\0\0\0\x04**/*\0\0",
    ),
    (
        "a local with a member",
        b"\x01\0\x01l\0\0\0\0\x01\0\x01a\0\0\0\x04**/*\0\0",
    ),
    (
        "a remote without a URL",
        b"\x01\0\x01l\x01\0\0\0\0\0\0\0\x04**/*\0\0",
    ),
    (
        "a remote's key of 59 bytes",
        b"\x01\0;rrrrrrrrrrrrrrrrrrrrrrrrrrrrrrrrrrrrrrrrrrrrrrrrrrrrrrrrrrr\x01\0\x08http://r\0\0\0\0\0\x04**/*\0\0",
    ),
    (
        "a remote by another scheme",
        b"\x01\0\x01l\x01\0\x09https://r\0\0\0\0\0\x04**/*\0\0",
    ),
    (
        "a virtual with a URL",
        b"\x01\0\x01l\x02\0\x08http://r\0\0\0\0\0\x04**/*\0\0",
    ),
    (
        "a member that is no key",
        b"\x01\0\x01l\x02\0\0\0\x01\0\x03a/b\0\0\0\x04**/*\0\0",
    ),
    ("a bad key", b"\x01\0\x03a b\0\0\0\0\0\0\0\0\x04**/*\0\0"),
    (
        "an unused bit",
        b"\x03\0\x04libs\0\x01.\0\x05c.txt\x08\0\0\0\0\0\0\0\x01\0\0\0\0\0\0\0\x07\0\x01\x02\x03\x04\x05\x06\x07\x08\x09\x0a\x0b\x0c\x0d\x0e\x0f\x10\x11\x12\x13\x14\x15\x16\x17\x18\x19\x1a\x1b\x1c\x1d\x1e\x1f !\"#$%&'()*+,-./0123456789:;<=>?@ABC\0\x03\0\x01k\0\x01v\0\x01k\0\x01w\0\x07license\0\0",
    ),
    (
        "a content that is too long",
        b"\x03\0\x04libs\0\x01.\0\x05c.txt\x05\0\0\0\0\0\0\0\x01\0\0\0\0\x04\0\0\x01\0\x01\x02\x03\x04\x05\x06\x07\x08\x09\x0a\x0b\x0c\x0d\x0e\x0f\x10\x11\x12\x13\x14\x15\x16\x17\x18\x19\x1a\x1b\x1c\x1d\x1e\x1f !\"#$%&'()*+,-./0123456789:;<=>?@ABC\0\x03\0\x01k\0\x01v\0\x01k\0\x01w\0\x07license\0\0",
    ),
    (
        "properties out of order",
        b"\x03\0\x04libs\0\x01.\0\x05c.txt\x05\0\0\0\0\0\0\0\x01\0\0\0\0\0\0\0\x07\0\x01\x02\x03\x04\x05\x06\x07\x08\x09\x0a\x0b\x0c\x0d\x0e\x0f\x10\x11\x12\x13\x14\x15\x16\x17\x18\x19\x1a\x1b\x1c\x1d\x1e\x1f !\"#$%&'()*+,-./0123456789:;<=>?@ABC\0\x02\0\x01b\0\0\0\x01a\0\0",
    ),
    (
        "values out of order",
        b"\x03\0\x04libs\0\x01.\0\x05c.txt\x05\0\0\0\0\0\0\0\x01\0\0\0\0\0\0\0\x07\0\x01\x02\x03\x04\x05\x06\x07\x08\x09\x0a\x0b\x0c\x0d\x0e\x0f\x10\x11\x12\x13\x14\x15\x16\x17\x18\x19\x1a\x1b\x1c\x1d\x1e\x1f !\"#$%&'()*+,-./0123456789:;<=>?@ABC\0\x02\0\x01a\0\x012\0\x01a\0\x011",
    ),
    (
        "a property twice",
        b"\x03\0\x04libs\0\x01.\0\x05c.txt\x05\0\0\0\0\0\0\0\x01\0\0\0\0\0\0\0\x07\0\x01\x02\x03\x04\x05\x06\x07\x08\x09\x0a\x0b\x0c\x0d\x0e\x0f\x10\x11\x12\x13\x14\x15\x16\x17\x18\x19\x1a\x1b\x1c\x1d\x1e\x1f !\"#$%&'()*+,-./0123456789:;<=>?@ABC\0\x02\0\x01a\0\x011\0\x01a\0\x011",
    ),
    (
        "an empty property key",
        b"\x03\0\x04libs\0\x01.\0\x05c.txt\x05\0\0\0\0\0\0\0\x01\0\0\0\0\0\0\0\x07\0\x01\x02\x03\x04\x05\x06\x07\x08\x09\x0a\x0b\x0c\x0d\x0e\x0f\x10\x11\x12\x13\x14\x15\x16\x17\x18\x19\x1a\x1b\x1c\x1d\x1e\x1f !\"#$%&'()*+,-./0123456789:;<=>?@ABC\0\x01\0\0\0\x011",
    ),
    (
        "a mark in a property key",
        b"\x03\0\x04libs\0\x01.\0\x05c.txt\x05\0\0\0\0\0\0\0\x01\0\0\0\0\0\0\0\x07\0\x01\x02\x03\x04\x05\x06\x07\x08\x09\x0a\x0b\x0c\x0d\x0e\x0f\x10\x11\x12\x13\x14\x15\x16\x17\x18\x19\x1a\x1b\x1c\x1d\x1e\x1f !\"#$%&'()*+,-./0123456789:;<=>?@ABC\0\x01\0\x03a=b\0\x011",
    ),
    (
        "a control character in a value",
        b"\x03\0\x04libs\0\x01.\0\x05c.txt\x05\0\0\0\0\0\0\0\x01\0\0\0\0\0\0\0\x07\0\x01\x02\x03\x04\x05\x06\x07\x08\x09\x0a\x0b\x0c\x0d\x0e\x0f\x10\x11\x12\x13\x14\x15\x16\x17\x18\x19\x1a\x1b\x1c\x1d\x1e\x1f !\"#$%&'()*+,-./0123456789:;<=>?@ABC\0\x01\0\x01a\0\x01\x0a",
    ),
    (
        "more properties than follow",
        b"\x03\0\x04libs\0\x01.\0\x05c.txt\x05\0\0\0\0\0\0\0\x01\0\0\0\0\0\0\0\x07\0\x01\x02\x03\x04\x05\x06\x07\x08\x09\x0a\x0b\x0c\x0d\x0e\x0f\x10\x11\x12\x13\x14\x15\x16\x17\x18\x19\x1a\x1b\x1c\x1d\x1e\x1f !\"#$%&'()*+,-./0123456789:;<=>?@ABC\0\x02\0\x01a\0\x01b",
    ),
    (
        "a truth that is 2",
        b"\x07\0\x04libs\0\x03a/b\0\x05c.txt\x02\0\0",
    ),
    (
        "keys out of order",
        b"\x08\0\x04libs\0\x03a/b\0\x05c.txt\x01\0\x02\0\x01b\0\x01a",
    ),
    (
        "a key twice",
        b"\x08\0\x04libs\0\x03a/b\0\x05c.txt\x01\0\x02\0\x01a\0\x01a",
    ),
    (
        "a key with a space",
        b"\x08\0\x04libs\0\x03a/b\0\x05c.txt\x01\0\x01\0\x03a b",
    ),
    ("no build name", b"\x0b\0\0\0\x011"),
    ("a build number with a tab", b"\x0b\0\x01a\0\x01\x09"),
    (
        "an unused bit of digests",
        b"\x0a\0\x01a\0\x011\0\0\0\0\0\0\0\0\0\0\0\0\0\0\0\x01\0\x01m\0\0\0\x01\0\x01n\0\x01k\x08\0\0\0\0\0\0\0\0",
    ),
    (
        "a digest that isn't there",
        b"\x0a\0\x01a\0\x011\0\0\0\0\0\0\0\0\0\0\0\0\0\0\0\x01\0\x01m\0\0\0\x01\0\x01n\0\x01k\x01\0\0\0\0\0\0\0\0",
    ),
    (
        "a document that isn't there",
        b"\x0a\0\x01a\0\x011\0\0\0\0\0\0\0\0\0\0\0\0\0\0\0\x01\0\x01m\0\0\0\x01\0\x01n\0\x01k\0\0\0\0\0\xff\xff\xff\xff",
    ),
    (
        "4294967295 modules",
        b"\x0a\0\x01a\0\x011\0\0\0\0\0\0\0\0\0\0\0\0\xff\xff\xff\xff",
    ),
    (
        "a file flag that is 2",
        b"\x0e\0\x04libs\0\x03a/b\0\x05c.txt\0\0\0\0\0\0\0\x01\0\0\0\0\0\0\0\0\0\x01\0\0\0\0\0\0\0\0\0\x01\0\x02\0\0\0",
    ),
    (
        "a stat flag that is 2",
        b"\x0e\0\x04libs\0\x03a/b\0\x05c.txt\0\0\0\0\0\0\0\x01\0\0\0\0\0\0\0\0\0\x01\0\0\0\0\0\0\0\0\0\x01\0\0\0\0\x02",
    ),
    (
        "a moment past the year 9999",
        b"\x0e\0\x04libs\0\x03a/b\0\x05c.txt\0\0\xe6w\xd2\x1f\xdc\0",
    ),
];

// Changes that break a rule.
const BAD_CHANGES: [(&str, &[u8]); 6] = [
    ("nothing", b""),
    ("no edit", b"\0\0\0\0\0\0\x04\xd2\0\x03ann\0\0\0\0"),
    (
        "fewer edits than are counted",
        b"\0\0\0\0\0\0\x04\xd2\0\x03ann\0\0\0\x02\x02\0\x04libs\0\x03a/b\0\x05c.txt",
    ),
    (
        "4294967295 edits",
        b"\0\0\0\0\0\0\x04\xd2\0\x03ann\xff\xff\xff\xff\x02\0\x04libs\0\x03a/b\0\x05c.txt",
    ),
    (
        "the year 10000",
        b"\0\0\xe6w\xd2\x1f\xdc\0\0\x03ann\0\0\0\x01\x02\0\x04libs\0\x03a/b\0\x05c.txt",
    ),
    (
        "the year 0",
        b"\xff\xff\xc7|\xed\xd3'\xff\0\x03ann\0\0\0\x01\x02\0\x04libs\0\x03a/b\0\x05c.txt",
    ),
];

fn with_head(alloc: Global, edit: &[u8]) -> Result<Vec<u8>, AllocError> {
    let mut bytes = Vec::from_slice(alloc, HEAD)?;
    bytes.extend_from_slice(edit)?;
    Ok(bytes)
}

fn is_refused(alloc: Global, bytes: &[u8]) -> bool {
    matches!(decode(alloc, bytes), Err(DecodeFault::NotAChange))
}

#[test]
fn each_edit_both_ways(rt: HostRuntime) -> Result<(), Fail> {
    let alloc = rt.alloc();
    for (bytes, meaning) in EDITS {
        let whole = with_head(alloc, bytes)?;
        let change = decode(alloc, &whole).ok().ok_or("a change")?;
        let shown = format!(in alloc; "{change:?}")?;
        let wanted = format!(in alloc;
            r#"Change {{ moment: Moment {{ ms: 1234 }}, user: Text {{ text: "ann" }}, edits: Seq {{ items: [{meaning}] }} }}"#
        )?;
        assert_eq!(rt; shown.as_str(), wanted.as_str());
        assert!(rt; encode(alloc, &change)? == whole, "{meaning}");
    }
    Ok(())
}

#[test]
fn cut_and_longer_bytes(rt: HostRuntime) -> Result<(), Fail> {
    let alloc = rt.alloc();
    for (bytes, meaning) in EDITS {
        let mut whole = with_head(alloc, bytes)?;
        for len in 0..whole.len() {
            assert!(rt; is_refused(alloc, &whole[..len]), "{meaning} up to {len}");
        }
        whole.push(0)?;
        assert!(rt; is_refused(alloc, &whole), "{meaning} and a byte");
    }
    Ok(())
}

#[test]
fn bytes_that_break_a_rule(rt: HostRuntime) -> Result<(), Fail> {
    let alloc = rt.alloc();
    for (name, bytes) in BAD_EDITS {
        assert!(rt; is_refused(alloc, &with_head(alloc, bytes)?), "{name}");
    }
    for (name, bytes) in BAD_CHANGES {
        assert!(rt; is_refused(alloc, bytes), "{name}");
    }
    Ok(())
}

// A folder's bytes after a user's name of so many letters.
fn long_user(alloc: Global, len: u16) -> Result<Vec<u8>, AllocError> {
    let mut bytes = vec![in alloc; 0; 8]?;
    bytes.extend_from_slice(&len.to_be_bytes())?;
    for _ in 0..len {
        bytes.push(b'a')?;
    }
    bytes.extend_from_slice(b"\0\0\0\x01\x02\0\x04libs\0\x01.\0\x01f")?;
    Ok(bytes)
}

#[test]
fn the_longest_text(rt: HostRuntime) -> Result<(), Fail> {
    let alloc = rt.alloc();
    assert!(rt; decode(alloc, &long_user(alloc, 4096)?).is_ok());
    assert!(rt; is_refused(alloc, &long_user(alloc, 4097)?));
    Ok(())
}

// The changes that define the local repository `libs`, and that deploy `abc` as the first content.
const WHOLE: [(&[u8], &str); 2] = [
    (
        b"\x00\x00\x00\x00\x00\x00\x00\x00\x00\x09anonymous\x00\x00\x00\x01\x01\x00\x04libs\x00\x00\x00\x00\x00\x00\x00\x00\x04**/*\x00\x00",
        r#"Change { moment: Moment { ms: 0 }, user: Text { text: "anonymous" }, edits: Seq { items: [Define { def: RepoDef { key: Text { text: "libs" }, class: Local, url: Text { text: "" }, members: Seq { items: [] }, default_to: None, includes: Text { text: "**/*" }, excludes: Text { text: "" } } }] } }"#,
    ),
    (
        b"\x00\x00\x00\x00\x00\x00\x00\x00\x00\x09anonymous\x00\x00\x00\x01\x03\x00\x0dgeneric-local\x00\x01.\x00\x01x\x00\x00\x00\x00\x00\x00\x00\x00\x00\x00\x00\x00\x00\x00\x00\x00\x03\x90\x01P\x98<\xd2O\xb0\xd6\x96?}(\xe1\x7fr\xa9\x99>6G\x06\x81j\xba>%qxP\xc2l\x9c\xd0\xd8\x9d\xbax\x16\xbf\x8f\x01\xcf\xeaAA@\xde]\xae\"#\xb0\x03a\xa3\x96\x17z\x9c\xb4\x10\xffa\xf2\x00\x15\xad\x00\x00",
        r#"Change { moment: Moment { ms: 0 }, user: Text { text: "anonymous" }, edits: Seq { items: [File { key: ItemKey { repo: Text { text: "generic-local" }, path: Text { text: "." }, name: Text { text: "x" } }, given: Given { md5: false, sha1: false, sha256: false }, file: FileRef { place: 0, len: 3, digests: Digests { md5: [144, 1, 80, 152, 60, 210, 79, 176, 214, 150, 63, 125, 40, 225, 127, 114], sha1: [169, 153, 62, 54, 71, 6, 129, 106, 186, 62, 37, 113, 120, 80, 194, 108, 156, 208, 216, 157], sha256: [186, 120, 22, 191, 143, 1, 207, 234, 65, 65, 64, 222, 93, 174, 34, 35, 176, 3, 97, 163, 150, 23, 122, 156, 180, 16, 255, 97, 242, 0, 21, 173] } }, props: Seq { items: [] } }] } }"#,
    ),
];

#[test]
fn whole_changes_both_ways(rt: HostRuntime) -> Result<(), Fail> {
    let alloc = rt.alloc();
    for (bytes, meaning) in WHOLE {
        let change = decode(alloc, bytes).ok().ok_or("a change")?;
        let shown = format!(in alloc; "{change:?}")?;
        assert_eq!(rt; shown.as_str(), meaning);
        assert!(rt; encode(alloc, &change)?.as_slice() == bytes);
    }
    Ok(())
}
