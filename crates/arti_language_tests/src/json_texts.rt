//! JSON texts and numbers.
use arti_json::{push_text, write_number, write_text};
use std::test::Fail;

// Texts, and as each is written.
const TEXTS: [(&str, &str); 5] = [
    ("", "\"\""),
    ("a/b.txt", "\"a/b.txt\""),
    ("a\"b\\c", "\"a\\\"b\\\\c\""),
    ("\u{1}\n", "\"\\u0001\\n\""),
    ("\u{e9}\u{7f}", "\"\u{e9}\u{7f}\""),
];

#[test]
fn texts_and_numbers(rt: HostRuntime) -> Result<(), Fail> {
    let alloc = rt.alloc();
    for (text, want) in &TEXTS {
        let mut out = vec![in alloc; b'x']?;
        write_text(alloc, &mut out, *text)?;
        assert_eq!(rt; &out[1..], want.as_bytes(), "at {text:?}");
        let mut pushed = String::from_str(alloc, "x")?;
        push_text(alloc, &mut pushed, *text)?;
        assert_eq!(rt; &pushed.as_bytes()[1..], want.as_bytes(), "at {text:?}");
    }
    let mut out = Vec::new(alloc);
    write_number(alloc, &mut out, 18446744073709551615)?;
    write_number(alloc, &mut out, 0)?;
    assert_eq!(rt; out.as_slice(), b"184467440737095516150".as_slice());
    Ok(())
}
