//! Bodies that define repositories, and the texts that tell of definitions.
use arti_definitions::{read_definition, write_definition, write_list};
use arti_json::JsonFault;
use arti_rows::{Class, RepoDef, Seq, Text};
use std::alloc::{AllocError, Global};
use std::test::Fail;

// A key, a body, and the object of the definition that it gives, or its fault.
const BODIES: [(&str, &str, &str); 57] = [
    (
        "libs",
        "{\"rclass\":\"local\"}",
        "{\"key\":\"libs\",\"rclass\":\"local\",\"url\":\"\",\"repositories\":[],\"defaultDeploymentRepo\":\"\",\"includesPattern\":\"**/*\",\"excludesPattern\":\"\"}",
    ),
    (
        "far",
        "{\"rclass\":\"remote\",\"url\":\"http://far.example/x\"}",
        "{\"key\":\"far\",\"rclass\":\"remote\",\"url\":\"http://far.example/x\",\"repositories\":[],\"defaultDeploymentRepo\":\"\",\"includesPattern\":\"**/*\",\"excludesPattern\":\"\"}",
    ),
    (
        "all",
        "{\"rclass\":\"virtual\",\"repositories\":[\"far\",\"l1\",\"l2\",\"l1\"],\"defaultDeploymentRepo\":\"l1\"}",
        "{\"key\":\"all\",\"rclass\":\"virtual\",\"url\":\"\",\"repositories\":[\"far\",\"l1\",\"l2\",\"l1\"],\"defaultDeploymentRepo\":\"l1\",\"includesPattern\":\"**/*\",\"excludesPattern\":\"\"}",
    ),
    (
        "all",
        " { \"key\" : \"all\" , \"rclass\" : \"virtual\" }\n",
        "{\"key\":\"all\",\"rclass\":\"virtual\",\"url\":\"\",\"repositories\":[],\"defaultDeploymentRepo\":\"\",\"includesPattern\":\"**/*\",\"excludesPattern\":\"\"}",
    ),
    (
        "l",
        "{\"rclass\":\"local\",\"url\":5,\"repositories\":\"x\",\"defaultDeploymentRepo\":[],\"other\":{}}",
        "{\"key\":\"l\",\"rclass\":\"local\",\"url\":\"\",\"repositories\":[],\"defaultDeploymentRepo\":\"\",\"includesPattern\":\"**/*\",\"excludesPattern\":\"\"}",
    ),
    (
        "r",
        "{\"rclass\":\"remote\",\"url\":\"http://\",\"repositories\":[5],\"defaultDeploymentRepo\":true}",
        "{\"key\":\"r\",\"rclass\":\"remote\",\"url\":\"http://\",\"repositories\":[],\"defaultDeploymentRepo\":\"\",\"includesPattern\":\"**/*\",\"excludesPattern\":\"\"}",
    ),
    (
        "v",
        "{\"rclass\":\"virtual\",\"url\":5,\"repositories\":null,\"defaultDeploymentRepo\":null,\"includesPattern\":null,\"excludesPattern\":null,\"key\":null}",
        "{\"key\":\"v\",\"rclass\":\"virtual\",\"url\":\"\",\"repositories\":[],\"defaultDeploymentRepo\":\"\",\"includesPattern\":\"**/*\",\"excludesPattern\":\"\"}",
    ),
    (
        "v",
        "{\"rclass\":\"virtual\",\"repositories\":[],\"defaultDeploymentRepo\":\"\",\"includesPattern\":\"\",\"excludesPattern\":\"\",\"key\":\"v\"}",
        "{\"key\":\"v\",\"rclass\":\"virtual\",\"url\":\"\",\"repositories\":[],\"defaultDeploymentRepo\":\"\",\"includesPattern\":\"**/*\",\"excludesPattern\":\"\"}",
    ),
    (
        "l",
        "{\"rclass\":\"local\",\"includesPattern\":\"b/**, *.txt\",\"excludesPattern\":\"a\\\"b\\\\\\u0001\u{e9}/\"}",
        "{\"key\":\"l\",\"rclass\":\"local\",\"url\":\"\",\"repositories\":[],\"defaultDeploymentRepo\":\"\",\"includesPattern\":\"b/**, *.txt\",\"excludesPattern\":\"a\\\"b\\\\\\u0001\u{e9}/\"}",
    ),
    (
        "l",
        "{\"rclass\":\"remote\",\"rclass\":\"local\"}",
        "{\"key\":\"l\",\"rclass\":\"local\",\"url\":\"\",\"repositories\":[],\"defaultDeploymentRepo\":\"\",\"includesPattern\":\"**/*\",\"excludesPattern\":\"\"}",
    ),
    ("l", "", "NotJson"),
    ("l", "{", "NotJson"),
    ("l", "{\"rclass\":\"local\"} x", "NotJson"),
    ("l", "[]", "Missing: rclass"),
    ("l", "5", "Missing: rclass"),
    ("l", "null", "Missing: rclass"),
    ("l", "{}", "Missing: rclass"),
    ("l", "{\"rclass\":null}", "Missing: rclass"),
    ("l", "{\"Rclass\":\"local\"}", "Missing: rclass"),
    ("l", "{\"rclass\":5}", "WrongKind: rclass"),
    ("l", "{\"rclass\":\"Local\"}", "WrongKind: rclass"),
    ("l", "{\"rclass\":\"\"}", "WrongKind: rclass"),
    ("r", "{\"rclass\":\"remote\"}", "Missing: url"),
    ("r", "{\"rclass\":\"remote\",\"url\":null}", "Missing: url"),
    (
        "r",
        "{\"rclass\":\"remote\",\"url\":\"\"}",
        "WrongKind: url",
    ),
    (
        "r",
        "{\"rclass\":\"remote\",\"url\":\"ftp://x\"}",
        "WrongKind: url",
    ),
    (
        "r",
        "{\"rclass\":\"remote\",\"url\":\"HTTP://x\"}",
        "WrongKind: url",
    ),
    (
        "r",
        "{\"rclass\":\"remote\",\"url\":\"http:/x\"}",
        "WrongKind: url",
    ),
    (
        "r",
        "{\"rclass\":\"remote\",\"url\":\"https://x\"}",
        "WrongKind: url",
    ),
    (
        "r",
        "{\"rclass\":\"remote\",\"url\":[\"http://x\"]}",
        "WrongKind: url",
    ),
    (
        "v",
        "{\"rclass\":\"virtual\",\"repositories\":\"l1\"}",
        "WrongKind: repositories",
    ),
    (
        "v",
        "{\"rclass\":\"virtual\",\"repositories\":{}}",
        "WrongKind: repositories",
    ),
    (
        "v",
        "{\"rclass\":\"virtual\",\"repositories\":[5]}",
        "WrongKind: repositories",
    ),
    (
        "v",
        "{\"rclass\":\"virtual\",\"repositories\":[null]}",
        "WrongKind: repositories",
    ),
    (
        "v",
        "{\"rclass\":\"virtual\",\"repositories\":[\"l1\",\"a b\"]}",
        "WrongKind: repositories",
    ),
    (
        "v",
        "{\"rclass\":\"virtual\",\"repositories\":[\"l1\",\"\"]}",
        "TooLong: repositories",
    ),
    (
        "v",
        "{\"rclass\":\"virtual\",\"repositories\":[\"\",\"a b\"]}",
        "TooLong: repositories",
    ),
    (
        "v",
        "{\"rclass\":\"virtual\",\"repositories\":[\"a/b\",\"\"]}",
        "WrongKind: repositories",
    ),
    (
        "v",
        "{\"rclass\":\"virtual\",\"repositories\":[\".\"]}",
        "WrongKind: repositories",
    ),
    (
        "v",
        "{\"rclass\":\"virtual\",\"repositories\":[\"api\"]}",
        "WrongKind: repositories",
    ),
    (
        "v",
        "{\"rclass\":\"virtual\",\"repositories\":[\"nnnnnnnnnnnnnnnnnnnnnnnnnnnnnnnnnnnnnnnnnnnnnnnnnnnnnnnnnnnnnnnnn\"]}",
        "TooLong: repositories",
    ),
    (
        "v",
        "{\"rclass\":\"virtual\",\"repositories\":[\"nnnnnnnnnnnnnnnnnnnnnnnnnnnnnnnnnnnnnnnnnnnnnnnnnnnnnnnnnnnnnnnnn \"]}",
        "WrongKind: repositories",
    ),
    (
        "v",
        "{\"rclass\":\"virtual\",\"repositories\":[\"nnnnnnnnnnnnnnnnnnnnnnnnnnnnnnnnnnnnnnnnnnnnnnnnnnnnnnnnnnnnnnnn\"]}",
        "{\"key\":\"v\",\"rclass\":\"virtual\",\"url\":\"\",\"repositories\":[\"nnnnnnnnnnnnnnnnnnnnnnnnnnnnnnnnnnnnnnnnnnnnnnnnnnnnnnnnnnnnnnnn\"],\"defaultDeploymentRepo\":\"\",\"includesPattern\":\"**/*\",\"excludesPattern\":\"\"}",
    ),
    (
        "v",
        "{\"rclass\":\"virtual\",\"defaultDeploymentRepo\":5}",
        "WrongKind: defaultDeploymentRepo",
    ),
    (
        "v",
        "{\"rclass\":\"virtual\",\"defaultDeploymentRepo\":\"a b\"}",
        "WrongKind: defaultDeploymentRepo",
    ),
    (
        "v",
        "{\"rclass\":\"virtual\",\"defaultDeploymentRepo\":\"..\"}",
        "WrongKind: defaultDeploymentRepo",
    ),
    (
        "v",
        "{\"rclass\":\"virtual\",\"defaultDeploymentRepo\":\"nnnnnnnnnnnnnnnnnnnnnnnnnnnnnnnnnnnnnnnnnnnnnnnnnnnnnnnnnnnnnnnnn\"}",
        "TooLong: defaultDeploymentRepo",
    ),
    (
        "l",
        "{\"rclass\":\"local\",\"includesPattern\":5}",
        "WrongKind: includesPattern",
    ),
    (
        "l",
        "{\"rclass\":\"local\",\"excludesPattern\":[]}",
        "WrongKind: excludesPattern",
    ),
    (
        "l",
        "{\"rclass\":\"local\",\"key\":\"m\"}",
        "WrongKind: key",
    ),
    ("l", "{\"rclass\":\"local\",\"key\":5}", "WrongKind: key"),
    ("l", "{\"rclass\":\"local\",\"key\":\"\"}", "WrongKind: key"),
    (
        "v",
        "{\"rclass\":\"virtual\",\"key\":5,\"excludesPattern\":5,\"includesPattern\":5,\"defaultDeploymentRepo\":5,\"repositories\":5}",
        "WrongKind: repositories",
    ),
    (
        "v",
        "{\"rclass\":\"virtual\",\"key\":5,\"excludesPattern\":5,\"includesPattern\":5,\"defaultDeploymentRepo\":5}",
        "WrongKind: defaultDeploymentRepo",
    ),
    (
        "v",
        "{\"rclass\":\"virtual\",\"key\":5,\"excludesPattern\":5,\"includesPattern\":5}",
        "WrongKind: includesPattern",
    ),
    (
        "v",
        "{\"rclass\":\"virtual\",\"key\":5,\"excludesPattern\":5}",
        "WrongKind: excludesPattern",
    ),
    ("v", "{\"rclass\":\"virtual\",\"key\":5}", "WrongKind: key"),
];

// How long the key is, and a body: its beginning, what is repeated and how often, its end. Then the fault, if there is one.
const LONG: [(usize, &str, &str, usize, &str, &str); 24] = [
    (64, "{\"rclass\":\"local\"}", "", 0, "", ""),
    (64, "{\"rclass\":\"virtual\"}", "", 0, "", ""),
    (
        58,
        "{\"rclass\":\"remote\",\"url\":\"http://x\"}",
        "",
        0,
        "",
        "",
    ),
    (
        59,
        "{\"rclass\":\"remote\",\"url\":\"http://x\"}",
        "",
        0,
        "",
        "TooLong: key",
    ),
    (
        59,
        "{\"rclass\":\"remote\",\"url\":\"http://x\",\"key\":\"k\"}",
        "",
        0,
        "",
        "WrongKind: key",
    ),
    (
        1,
        "{\"rclass\":\"virtual\",\"repositories\":[\"a\"",
        ",\"b\"",
        255,
        "]}",
        "",
    ),
    (
        1,
        "{\"rclass\":\"virtual\",\"repositories\":[\"a\"",
        ",\"b\"",
        256,
        "]}",
        "TooLong: repositories",
    ),
    (
        1,
        "{\"rclass\":\"virtual\",\"repositories\":[\"a\"",
        ",\"b\"",
        256,
        ",5]}",
        "WrongKind: repositories",
    ),
    (1, "{\"rclass\":\"", "l", 4096, "\"}", "WrongKind: rclass"),
    (1, "{\"rclass\":\"", "l", 4097, "\"}", "TooLong: rclass"),
    (
        1,
        "{\"rclass\":\"remote\",\"url\":\"http://",
        "x",
        4089,
        "\"}",
        "",
    ),
    (
        1,
        "{\"rclass\":\"remote\",\"url\":\"http://",
        "x",
        4090,
        "\"}",
        "TooLong: url",
    ),
    (
        1,
        "{\"rclass\":\"virtual\",\"repositories\":[\"",
        " ",
        4096,
        "\"]}",
        "WrongKind: repositories",
    ),
    (
        1,
        "{\"rclass\":\"virtual\",\"repositories\":[\"",
        " ",
        4097,
        "\"]}",
        "TooLong: repositories",
    ),
    (
        1,
        "{\"rclass\":\"virtual\",\"defaultDeploymentRepo\":\"",
        " ",
        4096,
        "\"}",
        "WrongKind: defaultDeploymentRepo",
    ),
    (
        1,
        "{\"rclass\":\"virtual\",\"defaultDeploymentRepo\":\"",
        " ",
        4097,
        "\"}",
        "TooLong: defaultDeploymentRepo",
    ),
    (
        1,
        "{\"rclass\":\"local\",\"includesPattern\":\"",
        "*",
        4096,
        "\"}",
        "",
    ),
    (
        1,
        "{\"rclass\":\"local\",\"includesPattern\":\"",
        "*",
        4097,
        "\"}",
        "TooLong: includesPattern",
    ),
    (
        1,
        "{\"rclass\":\"local\",\"excludesPattern\":\"",
        "*",
        4096,
        "\"}",
        "",
    ),
    (
        1,
        "{\"rclass\":\"local\",\"excludesPattern\":\"",
        "*",
        4097,
        "\"}",
        "TooLong: excludesPattern",
    ),
    (
        1,
        "{\"rclass\":\"local\",\"key\":\"",
        "n",
        4096,
        "\"}",
        "WrongKind: key",
    ),
    (
        1,
        "{\"rclass\":\"local\",\"key\":\"",
        "n",
        4097,
        "\"}",
        "TooLong: key",
    ),
    (1, "{\"rclass\":\"local\",\"x\":\"", "n", 4097, "\"}", ""),
    (1, "{\"rclass\":\"local\",\"x\":", "[", 127, "", "NotJson"),
];

fn named(alloc: Global, word: &str, name: &Text) -> Result<String, AllocError> {
    format!(in alloc; "{word}: {}", name.as_str())
}

fn fault_text(alloc: Global, fault: JsonFault) -> Result<String, AllocError> {
    match fault {
        JsonFault::NotJson => String::from_str(alloc, "NotJson"),
        JsonFault::Missing(name) => named(alloc, "Missing", &name),
        JsonFault::WrongKind(name) => named(alloc, "WrongKind", &name),
        JsonFault::TooLong(name) => named(alloc, "TooLong", &name),
        JsonFault::Memory => Err(AllocError),
    }
}

// The object of the definition that a body gives, or its fault.
fn told(alloc: Global, key: &str, body: &[u8]) -> Result<Vec<u8>, AllocError> {
    match read_definition(alloc, key, body) {
        Ok(definition) => write_definition(alloc, &definition),
        Err(fault) => {
            let text = fault_text(alloc, fault)?;
            Vec::from_slice(alloc, text.as_bytes())
        }
    }
}

// The fault of a body, or an empty text.
fn fault_of(alloc: Global, key: &str, body: &[u8]) -> Result<String, AllocError> {
    match read_definition(alloc, key, body) {
        Ok(_) => String::from_str(alloc, ""),
        Err(fault) => fault_text(alloc, fault),
    }
}

fn repeated(
    alloc: Global,
    front: &str,
    piece: &str,
    count: usize,
    end: &str,
) -> Result<String, AllocError> {
    let mut text = String::from_str(alloc, front)?;
    for _ in 0..count {
        text.push_str(piece)?;
    }
    text.push_str(end)?;
    Ok(text)
}

#[test]
fn bodies(rt: HostRuntime) -> Result<(), Fail> {
    let alloc = rt.alloc();
    for (key, body, want) in &BODIES {
        let told = told(alloc, *key, body.as_bytes())?;
        assert_eq!(rt; told.as_slice(), want.as_bytes(), "of {body:?}");
    }
    let told = told(alloc, "l", b"{\"rclass\":\"local\",\"x\":\"\xff\"}")?;
    assert_eq!(rt; told.as_slice(), b"NotJson".as_slice());
    Ok(())
}

#[test]
fn long_bodies(rt: HostRuntime) -> Result<(), Fail> {
    let alloc = rt.alloc();
    for (key, front, piece, count, end, want) in &LONG {
        let key = repeated(alloc, "", "n", *key, "")?;
        let body = repeated(alloc, *front, *piece, *count, *end)?;
        let fault = fault_of(alloc, &key, body.as_bytes())?;
        assert_eq!(rt;
            fault.as_str(),
            *want,
            "of {front}{piece}{end}, {count} times"
        );
    }
    Ok(())
}

// As deep as documents may nest, and one level deeper.
#[test]
fn deep_bodies(rt: HostRuntime) -> Result<(), Fail> {
    let alloc = rt.alloc();
    for (levels, want) in [(126usize, ""), (127, "NotJson")] {
        let lists = repeated(alloc, "{\"rclass\":\"local\",\"x\":", "[", levels, "")?;
        let body = repeated(alloc, &lists, "]", levels, "}")?;
        let fault = fault_of(alloc, "l", body.as_bytes())?;
        assert_eq!(rt; fault.as_str(), want, "{levels} lists");
    }
    Ok(())
}

fn definition(alloc: Global, key: &str, class: Class) -> Result<RepoDef, AllocError> {
    Ok(RepoDef {
        key: Text::from_str(alloc, key)?,
        class,
        url: Text::from_str(alloc, "")?,
        members: Seq::new(alloc),
        default_to: None,
        includes: Text::from_str(alloc, "")?,
        excludes: Text::from_str(alloc, "")?,
    })
}

#[test]
fn lists(rt: HostRuntime) -> Result<(), Fail> {
    let alloc = rt.alloc();
    let mut definitions = Vec::new(alloc);
    assert_eq!(rt;
        write_list(alloc, &definitions)?.as_slice(),
        b"[]".as_slice()
    );
    definitions.push(definition(alloc, "a", Class::Virtual)?)?;
    let one = write_list(alloc, &definitions)?;
    assert_eq!(rt;
        one.as_slice(),
        b"[{\"key\":\"a\",\"type\":\"VIRTUAL\"}]".as_slice()
    );
    definitions.push(definition(alloc, "b", Class::Local)?)?;
    definitions.push(definition(alloc, "c", Class::Remote)?)?;
    let three = write_list(alloc, &definitions)?;
    let want =
        "[{\"key\":\"a\",\"type\":\"VIRTUAL\"},{\"key\":\"b\",\"type\":\"LOCAL\"},{\"key\":\"c\",\"type\":\"REMOTE\"}]";
    assert_eq!(rt; three.as_slice(), want.as_bytes());
    Ok(())
}
