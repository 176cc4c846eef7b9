// Bytes that were read from a source and not yet used.
ghost use Rattle.std.specs.Prelude.{◌≡◌, ℕ, ◌+◌, ◌-◌, ◌<◌, ◌≤◌, List, [], ◌++◌, length, take, drop, min, IfOk, OnOk, OnErr, slice_range, vec_len, IsTrue, ◌↔◌, false};
ghost use Rattle.arti_ground.specs.State.{HasCause};

use arti_ground::{Failed, Source};
use std::alloc::{AllocError, Global};
use std::marker::Model;

/// How many bytes can be ahead: a head that was cut anywhere, and as much again, so that reads stay large.
pub const ROOM: usize = 65536;

/// Bytes ahead. Their room is made once.
#[derive(Drop)]
pub struct Ahead {
    room: Vec<u8>,
    start: usize,
    end: usize,
}

impl Model for Ahead {
    ghost use Rattle.std.specs.Prelude.{◌≡◌, ◌≤◌, ℕ, List, slice_range, vec_len, IsTrue, ◌↔◌, false};

    ghost Value = { List ℕ };

    ghost view = { λ a. slice_range a.room.items a.start a.end };

    ghost invariant = { λ a. (a.start ≤ a.end) × (a.end ≤ 65536) × (vec_len a.room ≡ 65536) };
}

impl Ahead {
    pub fn new(alloc: Global) -> Result<Ahead, AllocError>
        ensures { IfOk result (λ a. a ≡ []) }
    {
        let room = vec![in alloc; 0u8; ROOM]?;
        Ok(Ahead {
            room,
            start: 0,
            end: 0,
        })
    }

    pub fn as_slice(&self) -> &[u8]
        ensures value { result.now ≡ self.now }
        ensures small { length self.now ≤ ROOM }
    {
        &self.room[self.start..self.end]
    }

    /// Passes over the first n bytes.
    pub fn pass(&mut self, n: usize)
        requires { n ≤ length self.old }
        ensures { self.new ≡ drop n self.old }
    {
        self.start += n;
    }
}

// Moves the bytes from start to end to the front of the room.
fn settle(room: &mut Vec<u8>, start: usize, end: usize)
    requires order { start ≤ end }
    requires within { end ≤ vec_len room.old }
    ensures front { take (end - start) room.new.items ≡ slice_range room.old.items start end }
    ensures size { vec_len room.new ≡ vec_len room.old }
{
    room.copy_within(start..end, 0);
}

// Reads once, into the room from end on.
fn read_behind<S: Source>(room: &mut Vec<u8>, end: usize, source: &mut S) -> Result<usize, Failed>
    requires { end < vec_len room.old }
    ensures front { take end room.new.items ≡ take end room.old.items }
    ensures size { vec_len room.new ≡ vec_len room.old }
    ensures within { IfOk result (λ n. end + n ≤ vec_len room.new) }
    ensures bytes { S.tells → IfOk result (λ n. S.left source.old ≡ take n (drop end room.new.items) ++ S.left source.new) }
    ensures end { S.tells → IfOk result (λ n. n ≡ 0 → S.left source.old ≡ []) }
    ensures cause { HasCause (S.faults source.old) (S.faults source.new) result }
{
    source.read(&mut room[end..])
}

impl Ahead {
    /// Reads once, behind the bytes that are ahead. It reads 0 bytes only at the end of the source.
    pub fn fill<S: Source>(&mut self, source: &mut S) -> Result<usize, Failed>
        requires { length self.old < ROOM }
        ensures front { take (length self.old) self.new ≡ self.old }
        ensures grown { IfOk result (λ n. length self.new ≡ length self.old + n) }
        ensures bytes { S.tells → OnOk result (self.new ++ S.left source.new ≡ self.old ++ S.left source.old) }
        ensures end { S.tells → IfOk result (λ n. n ≡ 0 → S.left source.old ≡ []) }
        ensures kept { OnErr result (self.new ≡ self.old) }
        ensures cause { HasCause (S.faults source.old) (S.faults source.new) result }
    {
        if self.start > 0 {
            settle(&mut self.room, self.start, self.end);
            self.end -= self.start;
            self.start = 0;
        }
        let n = read_behind(&mut self.room, self.end, source)?;
        self.end += n;
        Ok(n)
    }
}

impl Ahead {
    /// Whether a byte is ahead. It reads where none is.
    pub fn has_more<S: Source>(&mut self, source: &mut S) -> Result<bool, Failed>
        ensures bytes { S.tells → OnOk result (self.new ++ S.left source.new ≡ self.old ++ S.left source.old) }
        ensures some { IfOk result (λ more. IsTrue more ↔ (0 < length self.new)) }
        ensures end { S.tells → IfOk result (λ more. more ≡ false → S.left source.new ≡ []) }
        ensures cause { HasCause (S.faults source.old) (S.faults source.new) result }
    {
        if !self.as_slice().is_empty() {
            return Ok(true);
        }
        Ok(self.fill(source)? > 0)
    }
}

impl Ahead {
    /// Puts the next bytes into the buffer, from the bytes ahead or, where there are none, from the source.
    pub fn give<S: Source>(&mut self, source: &mut S, buf: &mut [u8]) -> Result<usize, Failed>
        ensures within { IfOk result (λ n. n ≤ length buf.new) }
        ensures bytes { S.tells → IfOk result (λ n. self.old ++ S.left source.old ≡ take n buf.new ++ (self.new ++ S.left source.new)) }
        ensures end { S.tells → IfOk result (λ n. n ≡ 0 → 0 < length buf.old → self.old ++ S.left source.old ≡ []) }
        ensures cause { HasCause (S.faults source.old) (S.faults source.new) result }
    {
        let ahead = self.as_slice();
        if ahead.is_empty() {
            return source.read(buf);
        }
        let n = ahead.len().min(buf.len());
        buf[..n].copy_from_slice(&ahead[..n]);
        self.pass(n);
        Ok(n)
    }
}
