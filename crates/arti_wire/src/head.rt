// The head that bytes begin with, as `httparse` reads it.
ghost use Rattle.std.specs.Prelude.{◌≡◌, ℕ, ◌≤◌, List, length, take, drop, map, IfOk, IsUtf8, All};
ghost use Rattle.httparse.specs.Grammar.{RequestHead};
ghost use Rattle.httparse.specs.Spans.{IsHeaderWithin, IsRequestWithin, IsRequestAt, IsRequestOf, header_bytes, span_bytes};
ghost use Rattle.arti_model.specs.Requests.{request_of};
ghost use Rattle.arti_wire.specs.Fields.{texts_of};
ghost use Rattle.arti_wire.specs.Heads.{ReadsHead};

use crate::fields::{Field, asks_close};
use arti_rows::{Seq, Text};
use httparse::Status;
use httparse::spans::{EMPTY_HEADER_SPAN, HeaderSpan, RequestSpans, parse_request};
use std::alloc::{AllocError, Global};
use std::marker::Model;

/// The most bytes of a head, with its empty line.
pub const HEAD_ROOM: usize = 32768;

/// The most fields of a head.
const FIELD_ROOM: usize = 64;

/// The head of a request. The values of its fields are bytes, without the white space round them.
#[derive(Debug, Drop)]
pub struct Request {
    pub method: Text,
    pub target: Text,
    pub fields: Seq<Field>,
    /// No request follows on this stream.
    pub last: bool,
}

impl Model for Request {
    ghost use Rattle.arti_model.specs.Requests as model;
    ghost use Rattle.arti_wire.specs.Fields.{texts_of};

    ghost Value = { model.Request };

    ghost view = { λ r. record { method = r.method; target = r.target; fields = texts_of r.fields; last = r.last } };
}

// A text of bytes that are UTF-8.
fn text_at(alloc: Global, bytes: &[u8]) -> Result<Text, AllocError>
    requires { IsUtf8 bytes.now }
    ensures { IfOk result (λ text. text ≡ bytes.now) }
{
    match str::from_utf8(bytes) {
        Ok(text) => Text::from_str(alloc, text),
        Err(_) => unreachable!(),
    }
}

// The name and the value that two spans cover.
fn field_at(alloc: Global, bytes: &[u8], header: &HeaderSpan) -> Result<Field, AllocError>
    requires within { IsHeaderWithin (length bytes.now) header.now }
    requires name { IsUtf8 (span_bytes bytes.now header.now.name) }
    ensures { IfOk result (λ field. (field.0, field.1.items) ≡ header_bytes bytes.now header.now) }
{
    let name = text_at(alloc, header.name.of(bytes))?;
    let value = header.value.of(bytes).to_vec(alloc)?;
    Ok((name, value))
}

// The names and the values that spans cover.
fn fields_at(alloc: Global, bytes: &[u8], headers: &[HeaderSpan]) -> Result<Seq<Field>, AllocError>
    requires within { All (IsHeaderWithin (length bytes.now)) headers.now }
    requires names { All (λ header. IsUtf8 (span_bytes bytes.now header.name)) headers.now }
    ensures { IfOk result (λ fields. texts_of fields ≡ map (header_bytes bytes.now) headers.now) }
{
    let mut fields = Vec::with_capacity(alloc, headers.len())?;
    for header in headers {
        fields.push(field_at(alloc, bytes, header)?)?;
    }
    Ok(Seq::from_vec(fields))
}

// The request whose parts the spans cover.
fn request_at(
    alloc: Global,
    bytes: &[u8],
    headers: &[HeaderSpan],
    spans: &RequestSpans,
) -> Result<Request, AllocError>
    requires within { IsRequestWithin bytes.now headers.now spans.now }
    requires head { IsRequestOf bytes.now headers.now spans.now }
    ensures { IfOk result (λ request. (h : RequestHead) × IsRequestAt bytes.now headers.now spans.now h × (request ≡ request_of h)) }
{
    let fields = fields_at(alloc, bytes, &headers[..spans.headers])?;
    let method = text_at(alloc, spans.method.of(bytes))?;
    let target = text_at(alloc, spans.path.of(bytes))?;
    let last = asks_close(fields.as_slice());
    Ok(Request {
        method,
        target,
        fields,
        last,
    })
}

/// The first bytes, of which a head has no more.
pub fn window(bytes: &[u8]) -> &[u8]
    ensures { result.now ≡ take HEAD_ROOM bytes.now }
{
    if bytes.len() > HEAD_ROOM {
        &bytes[..HEAD_ROOM]
    } else {
        bytes
    }
}

/// The whole head that the bytes begin with, and its length; none where they begin with no such head.
pub fn read_head(alloc: Global, bytes: &[u8]) -> Result<Option<(Request, usize)>, AllocError>
    ensures { IfOk result (ReadsHead bytes.now) }
{
    let mut headers = [EMPTY_HEADER_SPAN; FIELD_ROOM];
    let front = window(bytes);
    match parse_request(front, &mut headers) {
        Ok(Status::Complete(spans)) => {
            let request = request_at(alloc, front, &headers, &spans)?;
            Ok(Some((request, spans.len)))
        }
        Ok(Status::Partial) => Ok(None),
        Err(_) => Ok(None),
    }
}
