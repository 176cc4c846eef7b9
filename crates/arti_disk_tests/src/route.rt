// Heads against what they ask, and digests against those of a content.
use arti_route::{
    bad_header, given_of, has_digests, is_checksum_deploy, is_query, item_asked, lacks_digest,
    mismatch, wanted_digests,
};
use arti_rows::{Digests, Seq, SomeDigests, Text};
use arti_wire::{Field, Request};
use std::alloc::{AllocError, Global};
use std::test::Fail;

// Requests with `^` between them: method, target, fields and the item that is asked, with blanks between its parts,
// with `~` between them. A query is `query`.
fn requests() -> &'static str {
    "PUT~/generic-local/a/b.txt~~generic-local a b.txt^\
        GET~/generic-local/a~Host:x~generic-local . a^\
        DELETE~/generic-local/a/b/c-d_e~~generic-local a/b c-d_e^\
        GET~/generic-local/~~^\
        GET~/generic-local~~^\
        GET~/generic-local/a/~~^\
        GET~/generic-local/a//b~~^\
        GET~/generic-local/a/../b~~^\
        GET~/generic-local/a%20b~~^\
        GET~/generic-local/a?b~~^\
        PUT~/generic-local/a;b=c~~^\
        GET~/generic-locale/a~~^\
        GET~/other/a~~^\
        GET~/artifactory/generic-local/a~~^\
        POST~/api/search/aql~Host:x~query^\
        GET~/api/search/aql~~^\
        post~/api/search/aql~~^\
        POST~/api/search/aql/~~^\
        POST~/api/search/aq~~^\
        POST~/api/search/aql~X-Arti-User:me~^\
        POST~/api/search/aql~Host:x\nx-checksum-sha1:0~^\
        PUT~/generic-local/a~X-Arti-User:me~^\
        PUT~/generic-local/a~Host:x\nx-arti-USER:~^\
        GET~/generic-local/a~X-Arti-User:me~^\
        PUT~/generic-local/a~Host:x\nx-checksum-sha1:0~generic-local . a^\
        put~/generic-local/a~Host:x\nx-checksum-sha1:0~^\
        GET~/generic-local/a~Host:x\nx-checksum-sha1:0~^\
        GET~/generic-local/a~X-Checksum-Deploy:false~^\
        GET~/generic-local/a~X-Checksum-Sha256:0~^\
        GET~/generic-local/a~X-Checksum-MD5:0~^\
        GET~/generic-local/a~X-Checksum-Sha512:0~generic-local . a"
}

// Fields with `^` between them: a name of the case, the fields, and what they say, with `~` between them. The digests are
// those of `abc`.
fn deploys() -> &'static str {
    "no field~~lacking ^\
        another name~Host:x\nX-Checksum-Md:0~lacking ^\
        all three~X-Checksum-Md5:900150983cd24fb0d6963f7d28e17f72\nX-Checksum-Sha1:a9993e364706816aba3e25717850c26c9cd0d89d\nX-Checksum-Sha256:ba7816bf8f01cfea414140de5dae2223b00361a396177a9cb410ff61f20015ad~md5 900150983cd24fb0d6963f7d28e17f72 sha1 a9993e364706816aba3e25717850c26c9cd0d89d sha256 ba7816bf8f01cfea414140de5dae2223b00361a396177a9cb410ff61f20015ad m s t ^\
        large letters~x-checksum-sha256:BA7816BF8F01CFEA414140DE5DAE2223B00361A396177A9CB410FF61F20015AD\nX-CHECKSUM-SHA1:A9993E364706816ABA3E25717850C26C9CD0D89D\nHost:x\nx-Checksum-mD5:900150983cD24FB0D6963f7d28e17f72~md5 900150983cd24fb0d6963f7d28e17f72 sha1 a9993e364706816aba3e25717850c26c9cd0d89d sha256 ba7816bf8f01cfea414140de5dae2223b00361a396177a9cb410ff61f20015ad m s t ^\
        31 digits~X-Checksum-Md5:900150983cd24fb0d6963f7d28e17f7~X-Checksum-Md5 lacking ^\
        30 digits~X-Checksum-Md5:900150983cd24fb0d6963f7d28e17f~X-Checksum-Md5 lacking ^\
        34 digits~X-Checksum-Md5:900150983cd24fb0d6963f7d28e17f7200~X-Checksum-Md5 lacking ^\
        no digit~X-Checksum-Md5:~X-Checksum-Md5 lacking ^\
        38 digits~X-Checksum-Sha1:a9993e364706816aba3e25717850c26c9cd0d8~X-Checksum-Sha1 lacking ^\
        41 digits~X-Checksum-Sha1:a9993e364706816aba3e25717850c26c9cd0d89d0~X-Checksum-Sha1 lacking ^\
        42 digits~X-Checksum-Sha1:a9993e364706816aba3e25717850c26c9cd0d89d00~X-Checksum-Sha1 lacking ^\
        40 digits~X-Checksum-Sha256:a9993e364706816aba3e25717850c26c9cd0d89d~X-Checksum-Sha256 lacking ^\
        62 digits~X-Checksum-Sha256:ba7816bf8f01cfea414140de5dae2223b00361a396177a9cb410ff61f20015~X-Checksum-Sha256 lacking ^\
        66 digits~X-Checksum-Sha256:ba7816bf8f01cfea414140de5dae2223b00361a396177a9cb410ff61f20015ad00~X-Checksum-Sha256 lacking ^\
        no digit at the end~X-Checksum-Md5:900150983cd24fb0d6963f7d28e17f7g~X-Checksum-Md5 lacking ^\
        a blank within~X-Checksum-Md5:900150983cd24fb0 6963f7d28e17f72~X-Checksum-Md5 lacking ^\
        a letter of two bytes~X-Checksum-Md5:900150983cd24fb0d6963f7d28e17f\u{e9}~X-Checksum-Md5 lacking ^\
        a malformed one before~X-Checksum-Md5:00\nX-Checksum-Md5:900150983cd24fb0d6963f7d28e17f72~X-Checksum-Md5 lacking ^\
        a malformed one behind~X-Checksum-Sha1:a9993e364706816aba3e25717850c26c9cd0d89d\nx-checksum-sha1:00~sha1 a9993e364706816aba3e25717850c26c9cd0d89d s ^\
        three malformed~X-Checksum-Sha256:\nX-Checksum-Sha1:\nX-Checksum-Md5:~X-Checksum-Md5 lacking ^\
        two malformed~X-Checksum-Sha256:\nX-Checksum-Sha1:~X-Checksum-Sha1 lacking ^\
        true~X-Checksum-Deploy:true~found lacking ^\
        true, then false~x-checksum-deploy:true\nX-Checksum-Deploy:false~found lacking ^\
        false, then true~X-Checksum-Deploy:false\nX-Checksum-Deploy:true~lacking ^\
        True~X-Checksum-Deploy:True~lacking ^\
        TRUE~X-Checksum-Deploy:TRUE~lacking ^\
        true1~X-Checksum-Deploy:true1~lacking ^\
        no value~X-Checksum-Deploy:~lacking ^\
        by MD5~X-Checksum-Deploy:true\nX-Checksum-Md5:900150983cd24fb0d6963f7d28e17f72~md5 900150983cd24fb0d6963f7d28e17f72 m found lacking ^\
        by SHA-1~X-Checksum-Deploy:true\nX-Checksum-Sha1:a9993e364706816aba3e25717850c26c9cd0d89d~sha1 a9993e364706816aba3e25717850c26c9cd0d89d s found ^\
        by SHA-256~X-Checksum-Deploy:true\nX-Checksum-Sha256:ba7816bf8f01cfea414140de5dae2223b00361a396177a9cb410ff61f20015ad~sha256 ba7816bf8f01cfea414140de5dae2223b00361a396177a9cb410ff61f20015ad t found "
}

// Digests that are wanted with `^` between them: MD5, SHA-1 and SHA-256, each as the digit that its bytes are, or `-`,
// and the first that isn't `7`, with `~` between them.
fn digests() -> &'static str {
    "---~^777~^7--~^-7-~^--7~^877~md5^888~md5^788~sha1^-8-~sha1^778~sha256^--8~sha256^-88~sha1^8--~md5"
}

/// Fields, one a line, each with its name, a colon and its value.
pub fn fields_of(alloc: Global, lines: &[u8]) -> Result<Seq<Field>, Fail> {
    let mut fields = Vec::new(alloc);
    for line in lines.split(|b| *b == b'\n') {
        if let Some(colon) = line.iter().position(|b| *b == b':') {
            let name = str::from_utf8(&line[..colon])?;
            fields.push((
                Text::from_str(alloc, name)?,
                line[colon + 1..].to_vec(alloc)?,
            ))?;
        }
    }
    Ok(Seq::from_vec(fields))
}

// What a request asks.
fn told(alloc: Global, request: &Request) -> Result<String, AllocError> {
    if is_query(request) {
        return String::from_str(alloc, "query");
    }
    match item_asked(alloc, request)? {
        None => Ok(String::new(alloc)),
        Some(key) => {
            let mut text = String::from_str(alloc, key.repo.as_str())?;
            text.push_str(" ")?;
            text.push_str(key.path.as_str())?;
            text.push_str(" ")?;
            text.push_str(key.name.as_str())?;
            Ok(text)
        }
    }
}

#[test]
fn targets_are_told(rt: HostRuntime) -> Result<(), Fail> {
    let alloc = rt.alloc();
    for case in requests().split('^') {
        let mut parts = case.split('~');
        let request = Request {
            method: Text::from_str(alloc, parts.next().unwrap_or(""))?,
            target: Text::from_str(alloc, parts.next().unwrap_or(""))?,
            fields: fields_of(alloc, parts.next().unwrap_or("").as_bytes())?,
            last: false,
        };
        let text = told(alloc, &request)?;
        assert!(rt; parts.next() == Some(text.as_str()), "{case}: {text}");
    }
    Ok(())
}

fn add_word(text: &mut String, word: &str, there: bool) -> Result<(), AllocError> {
    if there {
        text.push_str(word)?;
        text.push_str(" ")?;
    }
    Ok(())
}

// Adds a word and the digits of a digest, where there is one.
fn add_digest<const N: usize>(
    alloc: Global,
    text: &mut String,
    word: &str,
    digest: &Option<[u8; N]>,
) -> Result<(), Fail> {
    if let Some(bytes) = digest {
        add_word(text, word, true)?;
        add_word(text, hex::encode(alloc, bytes.as_slice())?.as_str(), true)?;
    }
    Ok(())
}

// What the fields of a deploy say: the malformed one, the digests and which are given, whether the content is to be
// found by them, and whether one is lacking for that.
fn said(alloc: Global, fields: &[Field]) -> Result<String, Fail> {
    let mut text = String::new(alloc);
    let wanted = wanted_digests(fields);
    let given = given_of(&wanted);
    if let Some(name) = bad_header(fields) {
        add_word(&mut text, name, true)?;
    }
    add_digest(alloc, &mut text, "md5", &wanted.md5)?;
    add_digest(alloc, &mut text, "sha1", &wanted.sha1)?;
    add_digest(alloc, &mut text, "sha256", &wanted.sha256)?;
    add_word(&mut text, "m", given.md5)?;
    add_word(&mut text, "s", given.sha1)?;
    add_word(&mut text, "t", given.sha256)?;
    add_word(&mut text, "found", is_checksum_deploy(fields))?;
    add_word(&mut text, "lacking", lacks_digest(&wanted))?;
    Ok(text)
}

#[test]
fn fields_are_told(rt: HostRuntime) -> Result<(), Fail> {
    let alloc = rt.alloc();
    for case in deploys().split('^') {
        let mut parts = case.split('~').skip(1);
        let fields = fields_of(alloc, parts.next().unwrap_or("").as_bytes())?;
        let text = said(alloc, fields.as_slice())?;
        assert!(rt; parts.next() == Some(text.as_str()), "{case}: {text}");
    }
    let no_text = fields_of(alloc, b"X-Checksum-Md5:\xff\nX-Checksum-Deploy:\xff")?;
    let text = said(alloc, no_text.as_slice())?;
    assert_eq!(rt; text.as_str(), "X-Checksum-Md5 lacking ");
    Ok(())
}

fn filled(n: u8) -> Digests {
    Digests {
        md5: [n; 16],
        sha1: [n; 20],
        sha256: with_last(n),
    }
}

// A digest of sevens, but for its last byte.
fn with_last(n: u8) -> [u8; 32] {
    let mut digest = [b'7'; 32];
    digest[31] = n;
    digest
}

fn wanted_of(md5: u8, sha1: u8, sha256: u8) -> SomeDigests {
    SomeDigests {
        md5: if md5 == b'-' {
            None
        } else {
            Some(filled(md5).md5)
        },
        sha1: if sha1 == b'-' {
            None
        } else {
            Some(filled(sha1).sha1)
        },
        sha256: if sha256 == b'-' {
            None
        } else {
            Some(filled(sha256).sha256)
        },
    }
}

#[test]
fn digests_differ(rt: HostRuntime) -> Result<(), Fail> {
    let content = filled(b'7');
    for case in digests().split('^') {
        let mut parts = case.split('~');
        let [md5, sha1, sha256] = parts.next().unwrap_or("").as_bytes() else {
            assert!(rt; false, "{case}");
            return Ok(());
        };
        let wanted = wanted_of(*md5, *sha1, *sha256);
        let word = mismatch(&wanted, &content).unwrap_or("");
        assert!(rt; parts.next() == Some(word), "{case}: {word}");
        assert_eq!(rt; has_digests(&wanted, &content), word.is_empty(), "{case}");
    }
    Ok(())
}
