// Bytes that are read from the front.
ghost use Rattle.std.specs.Prelude.{◌≡◌, length, IfOk};
ghost use Rattle.std.specs.Int.{w16, w32, w64};
ghost use Rattle.arti_codec.specs.Reading.{Gives, GivesSeen, run_at, byte_at, flag_at, number_at};
ghost use Rattle.arti_codec.specs.ReadingRows.{text_at};

use crate::fault::DecodeFault;
use std::marker::Model;

// The bytes that aren't read yet.
#[derive(Drop)]
pub struct Reader<'a> {
    rest: &'a [u8],
}

impl<'a> Model for Reader<'a> {
    ghost use Rattle.std.specs.Prelude.{List, ℕ};

    ghost Value = { List ℕ };

    ghost view = { λ r. r.rest.now };
}

impl<'a> Reader<'a> {
    pub fn new(bytes: &'a [u8]) -> Reader<'a>
        ensures { result ≡ bytes.now }
    {
        Reader { rest: bytes }
    }

    pub fn len(&self) -> usize
        ensures { result ≡ length self.now }
    {
        self.rest.len()
    }

    // The next so many bytes.
    #[tactic(auto, unfolding(crate::specs::Reading::run_at))]
    pub fn run(&mut self, len: usize) -> Result<&'a [u8], DecodeFault>
        ensures front { GivesSeen (λ bytes. bytes.now) result (run_at len self.old) self.new }
        ensures length { IfOk result (λ bytes. length bytes.now ≡ len) }
    {
        if self.rest.len() < len {
            return Err(DecodeFault::NotAChange);
        }
        let (front, rest) = self.rest.split_at(len);
        self.rest = rest;
        Ok(front)
    }

    #[tactic(auto, unfolding(crate::specs::Reading::number_at))]
    pub fn u8(&mut self) -> Result<u8, DecodeFault>
        ensures { Gives result (byte_at self.old) self.new }
    {
        match self.rest {
            [first, rest @ ..] => {
                self.rest = rest;
                Ok(*first)
            }
            [] => Err(DecodeFault::NotAChange),
        }
    }

    // 1 for true and 0 for false.
    #[tactic(auto, unfolding(crate::specs::Reading::flag_at))]
    pub fn flag(&mut self) -> Result<bool, DecodeFault>
        ensures { Gives result (flag_at self.old) self.new }
    {
        let byte = self.u8()?;
        if byte >= 2 {
            return Err(DecodeFault::NotAChange);
        }
        Ok(byte == 1)
    }

    #[tactic(auto, unfolding(crate::specs::Reading::number_at))]
    pub fn u16(&mut self) -> Result<u16, DecodeFault>
        ensures { Gives result (number_at w16 self.old) self.new }
    {
        let b = self.run(2)?;
        Ok(u16::from_be_bytes([b[0], b[1]]))
    }

    #[tactic(auto, unfolding(crate::specs::Reading::number_at))]
    pub fn u32(&mut self) -> Result<u32, DecodeFault>
        ensures { Gives result (number_at w32 self.old) self.new }
    {
        let b = self.run(4)?;
        Ok(u32::from_be_bytes([b[0], b[1], b[2], b[3]]))
    }

    #[tactic(auto, unfolding(crate::specs::Reading::number_at))]
    pub fn u64(&mut self) -> Result<u64, DecodeFault>
        ensures { Gives result (number_at w64 self.old) self.new }
    {
        let b = self.run(8)?;
        Ok(u64::from_be_bytes([b[0], b[1], b[2], b[3], b[4], b[5], b[6], b[7]]))
    }

    // A text behind its length.
    #[tactic(auto, unfolding(crate::specs::ReadingRows::text_at))]
    pub fn text(&mut self) -> Result<&'a str, DecodeFault>
        ensures { GivesSeen (λ text. text.now) result (text_at self.old) self.new }
    {
        let len = self.u16()?;
        if len > 4096 {
            return Err(DecodeFault::NotAChange);
        }
        let bytes = self.run(len as usize)?;
        match str::from_utf8(bytes) {
            Ok(text) => Ok(text),
            Err(_) => Err(DecodeFault::NotAChange),
        }
    }
}
