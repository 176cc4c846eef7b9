// Requests from a source, head by head and piece by piece.
ghost use Rattle.std.specs.Prelude.{◌≡◌, ◌≢◌, ℕ, ◌+◌, ◌-◌, ◌<◌, ◌≤◌, List, [], ◌++◌, length, take, drop, min, IfOk, IfErr, OnErr, Err};
ghost use Rattle.arti_model.specs.Requests.{Begins};
ghost use Rattle.arti_wire.specs.Ahead.{with_more};
ghost use Rattle.arti_wire.specs.Judged.{start_of, LiesWithin};
ghost use Rattle.arti_wire.specs.declared.wire.WireFault.TheVariants.{Source, Memory};
ghost use Rattle.arti_wire.specs.Framing.{IsInBody, body_left, AnswersStart, GoesOn, StepsOn, GivesBytes, HasSourceCause};

use crate::ahead::Ahead;
use crate::head::Request;
use crate::judge::{Judged, judge};
use crate::lines::{FrontByte, front};
use crate::reading::{fill_head, skip_line_ends};
use arti_ground::{Failed, Source};
use arti_model::Why;
use arti_rows::Limits;
use std::alloc::{AllocError, Global};
use std::marker::Model;
use thiserror::Error;

/// Where in the stream a wire is.
#[derive(Clone, Copy, Debug)]
pub enum Phase {
    /// A head comes next.
    Between,
    /// So many bytes of a body are to come.
    InBody(u64),
    /// The stream has ended, or a call failed: nothing more may be asked.
    Over,
}

/// What comes next in a stream.
#[derive(Debug, Drop)]
pub enum NextHead {
    Head(Request),
    End,
    Cut,
    Bad(Why),
}

/// A piece of a body.
#[derive(Clone, Copy, Debug)]
pub enum Piece {
    /// So many bytes are in the buffer.
    Some(usize),
    /// The body has no more bytes.
    Last,
    Cut,
    Bad(Why),
}

#[derive(Clone, Copy, Debug, Drop, Error)]
pub enum WireFault {
    #[error("the source failed")]
    Source,
    #[error("out of memory")]
    Memory,
}

impl From<Failed> for WireFault {
    ghost from_gives = { λ _ fault. fault ≡ Source };

    fn from(_failed: Failed) -> WireFault {
        WireFault::Source
    }
}

impl From<AllocError> for WireFault {
    ghost from_gives = { λ _ fault. fault ≡ Memory };

    fn from(_error: AllocError) -> WireFault {
        WireFault::Memory
    }
}

/// The reader of one stream of requests. Its buffer is made once.
#[derive(Drop)]
pub struct Wire {
    ahead: Ahead,
    phase: Phase,
}

impl Model for Wire {
    ghost use Rattle.arti_wire.specs.WireState.{WireState};

    ghost Value = { WireState };

    ghost view = { λ w. record { ahead = w.ahead; phase = w.phase } };
}

// What stands at the front of what is ahead and what is left; what is left of it stays ahead.
fn read_start<S: Source>(
    alloc: Global,
    ahead: &mut Ahead,
    source: &mut S,
    content: u64,
) -> Result<Judged, WireFault>
    ensures begins { S.tells → IfOk result (λ judged. Begins content (ahead.old ++ S.left source.old) (with_more (start_of judged ahead.new) (S.left source.new))) }
    ensures within { IfOk result (LiesWithin content (length ahead.new)) }
    ensures cause { HasSourceCause (S.faults source.old) (S.faults source.new) result }
{
    skip_line_ends(ahead, source)?;
    match front(ahead.as_slice()) {
        FrontByte::Nothing => return Ok(Judged::End),
        FrontByte::LineByte => return Ok(Judged::Bad(Why::BadHead)),
        FrontByte::Byte => {}
    }
    fill_head(ahead, source)?;
    Ok(judge(alloc, ahead.as_slice(), content)?)
}

impl Wire {
    pub fn new(alloc: Global) -> Result<Wire, AllocError>
        ensures ahead { IfOk result (λ wire. wire.ahead ≡ []) }
        ensures phase { IfOk result (λ wire. wire.phase ≡ Phase.Between) }
    {
        Ok(Wire {
            ahead: Ahead::new(alloc)?,
            phase: Phase::Between,
        })
    }

    /// Reads the next head. A head, its fields too, is `httparse`'s (RFC 9112), of at most 32,768 bytes and 64 fields.
    pub fn next_head<S: Source>(
        &mut self,
        alloc: Global,
        source: &mut S,
        limits: &Limits,
    ) -> Result<NextHead, WireFault>
        requires { self.old.phase ≡ Phase.Between }
        ensures starts { S.tells → IfOk result (λ next. AnswersStart limits.now.content (self.old.ahead ++ S.left source.old) next self.new.phase (self.new.ahead ++ S.left source.new)) }
        ensures phase { IfOk result (λ next. GoesOn limits.now.content next self.new.phase) }
        ensures over { OnErr result (self.new.phase ≡ Phase.Over) }
        ensures cause { HasSourceCause (S.faults source.old) (S.faults source.new) result }
    {
        self.phase = Phase::Over;
        let judged = read_start(alloc, &mut self.ahead, source, limits.content)?;
        Ok(match judged {
            Judged::Head(request, len, body) => {
                self.ahead.pass(len);
                self.phase = Phase::InBody(body);
                NextHead::Head(request)
            }
            Judged::End => NextHead::End,
            Judged::Open => NextHead::Cut,
            Judged::Bad(why) => NextHead::Bad(why),
        })
    }
}

impl Wire {
    /// Puts the next bytes of the body into the buffer. They go there straight from the source where none are ahead.
    pub fn next_piece<S: Source>(
        &mut self,
        source: &mut S,
        buf: &mut [u8],
    ) -> Result<Piece, WireFault>
        requires body { IsInBody self.old.phase }
        requires room { 0 < length buf.old }
        ensures steps { IfOk result (λ piece. StepsOn self.old.phase piece self.new.phase (length buf.new)) }
        ensures bytes { S.tells → IfOk result (λ piece. GivesBytes piece (self.old.ahead ++ S.left source.old) buf.new (self.new.ahead ++ S.left source.new)) }
        ensures over { OnErr result (self.new.phase ≡ Phase.Over) }
        ensures source { IfErr result (λ fault. fault ≡ WireFault.Source) }
        ensures cause { HasSourceCause (S.faults source.old) (S.faults source.new) result }
    {
        let left = match self.phase {
            Phase::InBody(left) => left,
            Phase::Between | Phase::Over => unreachable!(),
        };
        if left == 0 {
            self.phase = Phase::Between;
            return Ok(Piece::Last);
        }
        self.phase = Phase::Over;
        let most = room_for(left, buf.len());
        let n = self.ahead.give(source, &mut buf[..most])?;
        if n == 0 {
            return Ok(Piece::Cut);
        }
        self.phase = Phase::InBody(left - n as u64);
        Ok(Piece::Some(n))
    }
}

// How many bytes go into a buffer of that length, of so many.
fn room_for(left: u64, room: usize) -> usize
    ensures { result ≡ min left room }
{
    if left < room as u64 {
        left as usize
    } else {
        room
    }
}
