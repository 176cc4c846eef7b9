//! The bytes that a text in quotes stands for.
ghost use Rattle.std.specs.Prelude.{◌≡◌, ◌≤◌, ◌++◌, List, ℕ, length, drop, encode_utf8, OnOk, OnErr, IsUtf8};
ghost use Rattle.std.specs.List.{prefix_len};
ghost use Rattle.std.specs.Str.{IsCharBoundary};
ghost use Rattle.arti_aql_lex.specs.Literal.{literal_text, is_plain, IsClosed};

use crate::escape::escape_at;
use crate::literal::bytes_from;
use std::alloc::AllocError;

// How many bytes at the front are neither a quote nor a backslash.
fn run_len(rest: &[u8]) -> usize
    ensures value { result ≡ prefix_len is_plain rest.now }
    ensures within { result ≤ length rest.now }
{
    let mut len = 0;
    while len < rest.len() && rest[len] != b'"' && rest[len] != b'\\' {
        len += 1;
    }
    len
}

fn append_char(out: &mut Vec<u8>, c: char) -> Result<(), AllocError>
    ensures ok { OnOk result (out.new.items ≡ out.old.items ++ encode_utf8 c) }
    ensures err { OnErr result (out.new.items ≡ out.old.items) }
    ensures text { IsUtf8 (encode_utf8 c) }
{
    let mut buffer = [0; 4];
    let encoded = c.encode_utf8(&mut buffer);
    out.extend_from_slice(encoded.as_bytes())
}

/// Appends the bytes that a text stands for whose pieces begin at a place. After want of memory some of them were appended.
pub fn append_literal(text: &str, start: usize, out: &mut Vec<u8>) -> Result<(), AllocError>
    requires boundary { IsCharBoundary text.now start }
    requires closed { IsClosed (drop start text.now) }
    ensures ok { OnOk result (out.new.items ≡ out.old.items ++ literal_text 0 (drop start text.now)) }
    ensures utf8 { OnOk result (IsUtf8 (literal_text 0 (drop start text.now))) }
    ensures err { OnErr result ((more : List ℕ) × (out.new.items ≡ out.old.items ++ more)) }
{
    let bytes = text.as_bytes();
    let mut at = start;
    'pieces: loop {
        let stop = at + run_len(bytes_from(bytes, at));
        out.extend_from_slice(&bytes[at..stop])?;
        if bytes[stop] == b'"' {
            return Ok(());
        }
        match escape_at(bytes_from(bytes, stop)) {
            Ok((c, len)) => {
                append_char(out, c)?;
                at = stop + len;
            }
            Err(_) => unreachable!(),
        }
    }
}
