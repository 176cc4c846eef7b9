// An input stream as a source. It tells nothing of what it holds.
ghost use Rattle.std.specs.Prelude.{◌≤◌, length, IfOk};

use arti_ground::{Failed, Source};
use std::io::{ErrorKind, Read};

/// A stream of bytes. Its count of faults stops at its greatest value.
#[derive(Drop)]
pub struct RealSource<R: Read + Drop> {
    input: R,
    faults: u64,
}

// Reads once, and again where a signal came between.
fn read_once<R: Read>(input: &mut R, buf: &mut [u8]) -> Result<usize, Failed>
    ensures { IfOk result (λ n. n ≤ length buf.old) }
{
    for _ in 0..u64::MAX {
        match input.read(buf) {
            Ok(n) => return Ok(n),
            Err(error) if error.kind() == ErrorKind::Interrupted => {}
            Err(_) => return Err(Failed),
        }
    }
    Err(Failed)
}

impl<R: Read + Drop> RealSource<R> {
    pub fn new(input: R) -> RealSource<R> {
        RealSource { input, faults: 0 }
    }
}

impl<R: Read + Drop> Source for RealSource<R> {
    ghost use Rattle.std.specs.Prelude.{[]};

    ghost tells = { ⊥ };

    ghost left = { λ _. [] };

    ghost faults = { λ s. s.faults };

    fn read(&mut self, buf: &mut [u8]) -> Result<usize, Failed> {
        let outcome = read_once(&mut self.input, buf);
        if outcome.is_err() {
            self.faults = self.faults.saturating_add(1);
        }
        outcome
    }
}
