// The heads of replies.
ghost use Rattle.std.specs.Prelude.{◌≡◌, ◌++◌, IfOk, OnOk, string_bytes, decimal};
ghost use Rattle.std.specs.Option.{option_copied};
ghost use Rattle.arti_model.specs.Replies.{IsReplyStatus, phrase_of, line_end, status_line, field_line, digest_lines, body_lines, head_bytes};
ghost use Rattle.hex.specs.Hex.{encode_lower};

use arti_rows::Digests;
use http::StatusCode;
use std::alloc::{AllocError, Global};

/// The room that is made for a head at first.
const HEAD_SIZE: usize = 256;

// The phrase of a status.
fn phrase(status: u16) -> &'static str
    requires { IsReplyStatus status }
    ensures { result.now ≡ phrase_of status }
{
    let Ok(code) = StatusCode::from_u16(status) else {
        unreachable!()
    };
    code.canonical_reason().unwrap_or("")
}

// Appends the line of one field.
fn push_field(out: &mut String, name: &str, value: &str) -> Result<(), AllocError>
    ensures { OnOk result (string_bytes out.new ≡ string_bytes out.old ++ field_line name.now value.now) }
{
    out.push_str(name)?;
    out.push_str(": ")?;
    out.push_str(value)?;
    out.push_str("\r\n")
}

// A number in decimal digits.
fn digits_of(alloc: Global, number: u64) -> Result<String, AllocError>
    ensures { IfOk result (λ text. string_bytes text ≡ decimal number) }
{
    number.to_string(alloc)
}

// Appends the line of one digest.
fn push_digest(alloc: Global, out: &mut String, name: &str, digest: &[u8]) -> Result<(), AllocError>
    ensures { OnOk result (string_bytes out.new ≡ string_bytes out.old ++ field_line name.now (encode_lower digest.now)) }
{
    let text = hex::encode(alloc, digest)?;
    push_field(out, name, text.as_str())
}

// Appends the lines of three digests, where they are told.
fn push_digests(
    alloc: Global,
    out: &mut String,
    digests: Option<&Digests>,
) -> Result<(), AllocError>
    ensures { OnOk result (string_bytes out.new ≡ string_bytes out.old ++ digest_lines (option_copied digests.entry)) }
{
    let Some(digests) = digests else {
        return Ok(());
    };
    push_digest(alloc, out, "X-Checksum-Md5", &digests.md5)?;
    push_digest(alloc, out, "X-Checksum-Sha1", &digests.sha1)?;
    push_digest(alloc, out, "X-Checksum-Sha256", &digests.sha256)
}

// Appends the lines that tell of a body.
fn push_body_lines(
    alloc: Global,
    out: &mut String,
    kind: &str,
    digests: Option<&Digests>,
    len: u64,
) -> Result<(), AllocError>
    ensures { OnOk result (string_bytes out.new ≡ string_bytes out.old ++ body_lines kind.now (option_copied digests.entry) len) }
{
    push_field(out, "Content-Type", kind)?;
    push_digests(alloc, out, digests)?;
    let length = digits_of(alloc, len)?;
    push_field(out, "Content-Length", length.as_str())?;
    Ok(())
}

// The first line of a reply.
fn first_line(alloc: Global, status: u16) -> Result<String, AllocError>
    requires { IsReplyStatus status }
    ensures { IfOk result (λ line. string_bytes line ≡ status_line status) }
{
    let mut line = String::with_capacity(alloc, HEAD_SIZE)?;
    let code = digits_of(alloc, u64::from(status))?;
    line.push_str("HTTP/1.1 ")?;
    line.push_str(code.as_str())?;
    line.push_str(" ")?;
    line.push_str(phrase(status))?;
    line.push_str("\r\n")?;
    Ok(line)
}

/// The head of a reply, with the empty line behind it. The kind is a media type, the length that of the body in bytes.
pub fn response_head(
    alloc: Global,
    status: u16,
    kind: &str,
    digests: Option<&Digests>,
    len: u64,
) -> Result<Vec<u8>, AllocError>
    requires { IsReplyStatus status }
    ensures { IfOk result (λ head. head.items ≡ head_bytes status kind.now (option_copied digests.entry) len) }
{
    let mut head = first_line(alloc, status)?;
    if status == 204 {
        head.push_str("\r\n")?;
        return Ok(head.into_bytes());
    }
    push_body_lines(alloc, &mut head, kind, digests, len)?;
    head.push_str("\r\n")?;
    Ok(head.into_bytes())
}
