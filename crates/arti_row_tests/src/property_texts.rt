// The texts of properties and of property keys.
use arti_rows::{Property, PropsFault, read_keys, read_props};
use std::alloc::{AllocError, Global};
use std::test::Fail;

// The pairs as `[key|value]`, one after the other.
fn shown_pairs(alloc: Global, pairs: &[Property]) -> Result<String, AllocError> {
    let mut shown = String::new(alloc);
    for pair in pairs {
        shown.push_str(&format!(in alloc; "[{}|{}]", pair.key.as_str(), pair.value.as_str())?)?;
    }
    Ok(shown)
}

#[test]
fn property_texts(rt: HostRuntime) -> Result<(), Fail> {
    let alloc = rt.alloc();
    for (text, expected) in [
        ("a=1", "[a|1]"),
        ("b=2;a=1;a=0", "[a|0][a|1][b|2]"),
        ("a=x,y;a=y,x", "[a|x][a|y]"),
        ("k=", "[k|]"),
        ("k=a,,b", "[k|][k|a][k|b]"),
        (";;a=1;;", "[a|1]"),
        ("", "bad"),
        (";", "bad"),
        ("=v", "bad"),
        ("k", "bad"),
        ("a=1;b", "bad"),
        ("a=b=c", "[a|b=c]"),
        ("a=p|q", "[a|p|q]"),
        ("a=1\\,2,3", "[a|1,2][a|3]"),
        ("a\\=b=c", "bad"),
        ("a=\\x\\;\\\\", "[a|\\x;\\]"),
        ("a=x\\", "[a|x\\]"),
        ("a\\\\=1", "[a\\|1]"),
        ("a=1\\\\;b=2", "[a|1\\][b|2]"),
        ("a b=1", "bad"),
        ("a|b=1", "bad"),
        ("schlüssel=ä,ß", "[schlüssel|ß][schlüssel|ä]"),
        ("a=\u{1}", "bad"),
        ("a=\u{7f}", "bad"),
    ] {
        let shown = match read_props(alloc, text) {
            Ok(pairs) => shown_pairs(alloc, pairs.as_slice())?,
            Err(PropsFault::BadProps) => String::from_str(alloc, "bad")?,
            Err(PropsFault::Memory) => return Err(Fail::from(AllocError)),
        };
        assert_eq!(rt; shown.as_str(), expected, "{text}");
    }
    Ok(())
}

// So many times this letter.
fn letters(alloc: Global, letter: &str, times: u32) -> Result<String, AllocError> {
    let mut text = String::new(alloc);
    for _ in 0..times {
        text.push_str(letter)?;
    }
    Ok(text)
}

// How many pairs a text gives, none where it is bad.
fn count(alloc: Global, text: &str) -> Result<Option<usize>, AllocError> {
    match read_props(alloc, text) {
        Ok(pairs) => Ok(Some(pairs.len())),
        Err(PropsFault::BadProps) => Ok(None),
        Err(PropsFault::Memory) => Err(AllocError),
    }
}

// Whether a text is one key or several.
fn has_keys(alloc: Global, text: &str) -> Result<bool, AllocError> {
    match read_keys(alloc, text) {
        Ok(_) => Ok(true),
        Err(PropsFault::BadProps) => Ok(false),
        Err(PropsFault::Memory) => Err(AllocError),
    }
}

#[test]
fn limits_of_property_texts(rt: HostRuntime) -> Result<(), Fail> {
    let alloc = rt.alloc();
    for (times, expected) in [(255, Some(1)), (256, None)] {
        let key = letters(alloc, "k", times)?;
        assert_eq!(rt;
            count(alloc, &format!(in alloc; "{key}=1")?)?,
            expected,
            "{times}"
        );
        assert_eq!(rt; has_keys(alloc, &key)?, expected.is_some(), "{times}");
    }
    for (times, expected) in [(2048, Some(1)), (2049, None)] {
        let value = letters(alloc, "v", times)?;
        assert_eq!(rt;
            count(alloc, &format!(in alloc; "k={value}")?)?,
            expected,
            "{times}"
        );
    }
    // So many values, all different or twice the same.
    for (numbers, twice, expected) in [
        (1024u32, false, Some(1024)),
        (1025, false, None),
        (1024, true, Some(1024)),
    ] {
        let mut text = String::from_str(alloc, "k=0")?;
        for n in 1..numbers {
            text.push_str(&format!(in alloc; ",{n}")?)?;
            if twice {
                text.push_str(&format!(in alloc; ",{n}")?)?;
            }
        }
        assert_eq!(rt; count(alloc, &text)?, expected, "{numbers}");
    }
    Ok(())
}

#[test]
fn key_lists(rt: HostRuntime) -> Result<(), Fail> {
    let alloc = rt.alloc();
    for (text, expected) in [
        ("", "bad"),
        ("a", "a "),
        ("b,a,b", "a b "),
        ("a,", "bad"),
        (",a", "bad"),
        ("a b", "bad"),
        ("a\\b", "a\\b "),
        ("a\\,b", "a\\ b "),
        ("ä,a", "a ä "),
    ] {
        let mut shown = String::new(alloc);
        match read_keys(alloc, text) {
            Ok(keys) => {
                for key in &keys {
                    shown.push_str(key.as_str())?;
                    shown.push_str(" ")?;
                }
            }
            Err(PropsFault::BadProps) => shown.push_str("bad")?,
            Err(PropsFault::Memory) => return Err(Fail::from(AllocError)),
        }
        assert_eq!(rt; shown.as_str(), expected, "{text}");
    }
    Ok(())
}
