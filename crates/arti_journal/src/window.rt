// A file is read in pieces of a fixed size, through one buffer.
ghost use Rattle.std.specs.Prelude.{◌≡◌, ◌≢◌, ◌+◌, ◌-◌, ◌^◌, ◌<◌, ◌≤◌, [], min, length, take, drop, IfOk, OnOk};
ghost use Rattle.arti_ground.specs.State.{State, Reads, OnlyReads, HasCause};
ghost use Rattle.arti_journal.specs.Parts.{Seen, Shows, Reaches, IsPiece};

use arti_ground::{Failed, Ground};
use std::alloc::{AllocError, Global};
use std::marker::Model;

/// How many bytes are read at once.
const ROOM: usize = 65_536;

/// A part of a file, as it was read last. Contracts see the file, the place of the part and its bytes.
#[derive(Drop)]
pub(crate) struct Window {
    file: u32,
    buf: Vec<u8>,
    from: u64,
    len: usize,
}

impl Model for Window {
    ghost use Rattle.std.specs.Prelude.{◌<◌, ◌≤◌, length, take};
    ghost use Rattle.arti_journal.specs.Parts.{Seen};

    ghost Value = { Seen };

    ghost view = { λ w. record { file = w.file; from = w.from; held = take w.len w.buf.items } };

    ghost invariant = { λ w. record { file : w.file < 6; within : w.len ≤ length w.buf.items; room : 1 ≤ length w.buf.items } };
}

impl Window {
    /// Nothing of a file.
    pub(crate) fn new(alloc: Global, file: u32) -> Result<Window, AllocError>
        requires { file < 6 }
        ensures { IfOk result (λ w. w ≡ record { file = file; from = 0; held = [] }) }
    {
        let buf = vec![in alloc; 0u8; ROOM]?;
        Ok(Window {
            file,
            buf,
            from: 0,
            len: 0,
        })
    }

    /// Reads what the file has from this place on, as far as it fits.
    pub(crate) fn read<G: Ground>(
        &mut self,
        outside: &mut G,
        at: u64,
        out: &mut [u8],
    ) -> Result<usize, Failed>
        requires range { at + length out.old < 2 ^ 64 }
        requires shows { G.tells → Shows self.old ((G.state outside.old).files self.old.file) }
        ensures file { self.new.file ≡ self.old.file }
        ensures shows { G.tells → Shows self.new ((G.state outside.old).files self.old.file) }
        ensures within { IfOk result (λ n. n ≤ length out.old) }
        ensures bytes { G.tells → IfOk result (Reads ((G.state outside.old).files self.old.file) at out.old out.new) }
        ensures reads { G.tells → OnlyReads (G.state outside.old) (G.state outside.new) }
        ensures cause { HasCause (G.disk_faults outside.old) (G.disk_faults outside.new) result }
        ensures tell_faults { G.tell_faults outside.new ≡ G.tell_faults outside.old }
    {
        let mut done = 0;
        'pieces: while done < out.len() {
            let n = self.read_piece(outside, at + done as u64, &mut out[done..])?;
            if n == 0 {
                break;
            }
            done += n;
        }
        Ok(done)
    }

    // Reads some of it, unless there is none.
    fn read_piece<G: Ground>(
        &mut self,
        outside: &mut G,
        at: u64,
        out: &mut [u8],
    ) -> Result<usize, Failed>
        requires shows { G.tells → Shows self.old ((G.state outside.old).files self.old.file) }
        ensures file { self.new.file ≡ self.old.file }
        ensures shows { G.tells → Shows self.new ((G.state outside.old).files self.old.file) }
        ensures within { IfOk result (λ n. n ≤ length out.old) }
        ensures taken { G.tells → IfOk result (λ n. IsPiece ((G.state outside.old).files self.old.file) at out.old out.new n) }
        ensures reads { G.tells → OnlyReads (G.state outside.old) (G.state outside.new) }
        ensures cause { HasCause (G.disk_faults outside.old) (G.disk_faults outside.new) result }
        ensures tell_faults { G.tell_faults outside.new ≡ G.tell_faults outside.old }
    {
        self.reach(outside, at)?;
        Ok(self.give(at, out))
    }

    // Reads anew where a place isn't among what is held.
    fn reach<G: Ground>(&mut self, outside: &mut G, at: u64) -> Result<(), Failed>
        requires shows { G.tells → Shows self.old ((G.state outside.old).files self.old.file) }
        ensures file { self.new.file ≡ self.old.file }
        ensures shows { G.tells → Shows self.new ((G.state outside.old).files self.old.file) }
        ensures there { G.tells → OnOk result (at < length ((G.state outside.old).files self.old.file) → Reaches self.new at) }
        ensures reads { G.tells → OnlyReads (G.state outside.old) (G.state outside.new) }
        ensures cause { HasCause (G.disk_faults outside.old) (G.disk_faults outside.new) result }
        ensures tell_faults { G.tell_faults outside.new ≡ G.tell_faults outside.old }
    {
        if at >= self.from && at - self.from < self.len as u64 {
            return Ok(());
        }
        self.len = 0;
        let n = outside.read(self.file, at, &mut self.buf)?;
        self.from = at;
        self.len = n;
        Ok(())
    }

    // Copies what is held from a place on, as far as it fits.
    fn give(&self, at: u64, out: &mut [u8]) -> usize
        ensures within { result ≤ length out.old }
        ensures taken { take result out.new ≡ take result (drop (at - self.now.from) self.now.held) }
        ensures inside { result ≤ length self.now.held - (at - self.now.from) }
        ensures all { Reaches self.now at → result ≡ min (length out.old) (length self.now.held - (at - self.now.from)) }
        ensures reached { result ≢ 0 → Reaches self.now at }
    {
        if at < self.from || at - self.from >= self.len as u64 {
            return 0;
        }
        let skip = (at - self.from) as usize;
        let n = out.len().min(self.len - skip);
        out[..n].copy_from_slice(&self.buf[skip..skip + n]);
        n
    }
}
