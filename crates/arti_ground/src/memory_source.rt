// A source in memory.
ghost use Rattle.std.specs.Prelude.{◌≡◌, ◌≤◌, [], length, All};
ghost use Rattle.arti_ground.specs.Sources.{most};

use crate::{Failed, Source};
use std::marker::Model;

/// Bytes in memory as a source. Its reads are numbered from 0.
#[derive(Drop)]
pub struct MemorySource {
    bytes: Vec<u8>,
    place: usize,
    sizes: Vec<usize>,
    failing: Vec<u64>,
    number: u64,
    faults: u64,
}

impl Model for MemorySource {
    ghost use Rattle.std.specs.Prelude.{◌≤◌, length, drop, All};
    ghost use Rattle.arti_ground.specs.Sources.{Input};

    ghost Value = { Input };

    ghost view = { λ s. record { left = drop s.place s.bytes.items; sizes = s.sizes.items; failing = s.failing.items; number = s.number; faults = s.faults } };

    ghost invariant = { λ s. record { place : s.place ≤ length s.bytes.items; sizes : All (λ n. 1 ≤ n) s.sizes.items } };
}

impl MemorySource {
    /// A source of these bytes. The read of number k takes at most `sizes[k]` of them, and past that list only the
    /// buffer bounds it. The reads whose numbers stand in `failing` fail.
    pub fn new(bytes: Vec<u8>, sizes: Vec<usize>, failing: Vec<u64>) -> MemorySource
        requires sizes { All (λ n. 1 ≤ n) sizes.items }
        ensures holds { result ≡ record { left = bytes.items; sizes = sizes.items; failing = failing.items; number = 0; faults = 0 } }
    {
        MemorySource {
            bytes,
            place: 0,
            sizes,
            failing,
            number: 0,
            faults: 0,
        }
    }
}

impl Source for MemorySource {
    ghost use Rattle.std.specs.Prelude.{◌≡◌, ◌+◌, ◌≤◌, ◌↔◌, length, min, drop, IfOk, OnErr, IsErr};
    ghost use Rattle.std.specs.List.{Contains};
    ghost use Rattle.arti_ground.specs.State.{HasCause};
    ghost use Rattle.arti_ground.specs.Sources.{Takes, Input, InputRead};

    ghost tells = { Unit {0} };

    ghost left = { λ s. s.left };

    ghost faults = { λ s. s.faults };

    fn read(&mut self, buf: &mut [u8]) -> Result<usize, Failed>
        ensures within { IfOk result (λ n. n ≤ length buf.old) }
        ensures taken { IfOk result (Takes self.old.left self.new.left buf.new) }
        ensures failed { OnErr result (self.new.left ≡ self.old.left) }
        ensures cause { HasCause self.old.faults self.new.faults result }
        ensures chosen { InputRead self.old self.new (length buf.old) result }
    {
        let number = self.number;
        self.number = number.saturating_add(1);
        if self.failing.contains(&number) {
            self.faults = self.faults.saturating_add(1);
            return Err(Failed);
        }
        let n = most_of(&self.sizes, number, buf.len()).min(self.bytes.len() - self.place);
        buf[..n].copy_from_slice(&self.bytes[self.place..self.place + n]);
        self.place += n;
        Ok(n)
    }
}

// How many bytes the read of this number may take into a buffer of this length.
fn most_of(sizes: &Vec<usize>, number: u64, room: usize) -> usize
    requires { All (λ n. 1 ≤ n) sizes.now.items }
    ensures most { result ≡ most sizes.now.items number room }
    ensures within { result ≤ room }
    ensures some { result ≡ 0 → room ≡ 0 }
{
    match sizes.get(number as usize) {
        Some(size) => room.min(*size),
        None => room,
    }
}
