// What the bytes ahead begin with.
ghost use Rattle.std.specs.Prelude.{◌≡◌, ℕ, List, length, drop, IfOk, ◌≤◌};
ghost use Rattle.arti_model.specs.Requests.{Head, HeadOrNone, unless_bad, body_fault, body_length, start_without};
ghost use Rattle.arti_wire.specs.Judged.{start_of, LiesWithin};

use crate::fields::body_of;
use crate::head::{HEAD_ROOM, Request, read_head, window};
use crate::lines::lines_to_empty;
use arti_model::Why;
use std::alloc::{AllocError, Global};

/// The most lines before the empty line of bytes that are no head, of which more are too many.
const LINE_ROOM: usize = 65;

/// What bytes begin with.
#[derive(Drop)]
pub enum Judged {
    /// Nothing.
    End,
    /// A head, its length, and the length of its body.
    Head(Request, usize, u64),
    Bad(Why),
    /// Neither a head nor an empty line, and there is room for more bytes.
    Open,
}

// What bytes begin with where no head stands.
fn refuse(bytes: &[u8]) -> Judged
    ensures start { start_of result bytes.now ≡ start_without bytes.now }
    ensures within { (content size : ℕ) → LiesWithin content size result }
{
    match lines_to_empty(window(bytes)) {
        Some(lines) if lines > LINE_ROOM => Judged::Bad(Why::HeadTooLarge),
        Some(_) => Judged::Bad(Why::BadHead),
        None if bytes.len() < HEAD_ROOM => Judged::Open,
        None => Judged::Bad(Why::HeadTooLarge),
    }
}

// What stands behind a head of that request and length.
fn accept(request: Request, len: usize, content: u64) -> Judged
    ensures start { (bytes : List ℕ) → start_of result bytes ≡ unless_bad (body_fault content request.fields) (Head request (body_length request.fields) (drop len bytes)) }
    ensures within { (size : ℕ) → len ≤ size → LiesWithin content size result }
{
    match body_of(request.fields.as_slice(), content) {
        Ok(body) => Judged::Head(request, len, body),
        Err(why) => Judged::Bad(why),
    }
}

/// What bytes begin with whose first byte is neither CR nor LF.
pub fn judge(alloc: Global, bytes: &[u8], content: u64) -> Result<Judged, AllocError>
    ensures starts { IfOk result (λ judged. HeadOrNone content bytes.now (start_of judged bytes.now)) }
    ensures within { IfOk result (LiesWithin content (length bytes.now)) }
{
    match read_head(alloc, bytes)? {
        Some((request, len)) => Ok(accept(request, len, content)),
        None => Ok(refuse(bytes)),
    }
}
