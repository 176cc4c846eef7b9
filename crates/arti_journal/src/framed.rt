// A body as one write puts it behind a closed gate.
ghost use Rattle.std.specs.Prelude.{◌≡◌, ◌↔◌, ◌+◌, ◌<◌, ◌≤◌, length, IfOk, IsErrOf};
ghost use Rattle.arti_journal.specs.Journal.{IsBody, most_body};
ghost use Rattle.arti_journal.specs.Parts.{framed};

use crate::FrameFault;
use std::alloc::Global;
use std::marker::Model;

/// The most bytes that a body may have.
pub(crate) const MOST_BODY: u32 = 67_108_864;

/// A body with its length before it and a closed gate behind it. A contract sees the body.
#[derive(Drop)]
pub struct Framed {
    bytes: Vec<u8>,
    len: u64,
}

impl Model for Framed {
    ghost use Rattle.std.specs.Prelude.{◌≡◌, ◌-◌, ◌+◌, ℕ, List, take, drop, length};
    ghost use Rattle.arti_journal.specs.Journal.{IsBody};
    ghost use Rattle.arti_journal.specs.Parts.{framed};

    ghost Value = { List ℕ };

    ghost view = { λ f. take f.len (drop 4 f.bytes.items) };

    ghost invariant = { λ f. record { bytes : f.bytes.items ≡ framed (take f.len (drop 4 f.bytes.items)); length_is : length f.bytes.items ≡ f.len + 5; fits : IsBody (take f.len (drop 4 f.bytes.items)) } };
}

impl Framed {
    /// The length of the body.
    pub(crate) fn len(&self) -> u64
        ensures length { result ≡ length self.now }
        ensures most { result ≤ most_body }
    {
        self.len
    }

    /// What is written behind a closed gate.
    pub(crate) fn bytes(&self) -> &[u8]
        ensures bytes { result.now ≡ framed self.now }
        ensures fits { IsBody self.now }
    {
        self.bytes.as_slice()
    }
}

/// Frames a body. It may have from 1 to 67,108,864 bytes.
pub fn frame(alloc: Global, body: Vec<u8>) -> Result<Framed, FrameFault>
    ensures body { IfOk result (λ f. f ≡ body.items) }
    ensures empty { IsErrOf result FrameFault.Empty ↔ (length body.items ≡ 0) }
    ensures too_long { IsErrOf result FrameFault.TooLong ↔ (most_body < length body.items) }
{
    if body.is_empty() {
        return Err(FrameFault::Empty);
    }
    if body.len() > MOST_BODY as usize {
        return Err(FrameFault::TooLong);
    }
    let len = body.len() as u32;
    let mut bytes = Vec::with_capacity(alloc, body.len() + 5)?;
    bytes.extend_from_slice(&len.to_be_bytes())?;
    bytes.extend_from_slice(&body)?;
    bytes.extend_from_slice(&[0])?;
    Ok(Framed {
        bytes,
        len: u64::from(len),
    })
}
