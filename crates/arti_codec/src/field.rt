// Values that have a format, and lists of them.
ghost use Rattle.std.specs.Prelude.{◌≡◌, ◌++◌, OnOk, All, length};
ghost use Rattle.std.specs.List.{flat_map};
ghost use Rattle.std.specs.Int.{w16, w32, w64};
ghost use Rattle.arti_codec.specs.Format.{number, listed};
ghost use Rattle.arti_codec.specs.Reading.{Gives, times_at, limited_at, listed_at};

use crate::fault::DecodeFault;
use crate::reader::Reader;
use arti_rows::Seq;
use std::alloc::{AllocError, Global};

// A value that has a format.
pub trait Field: Drop {
    ghost use Rattle.std.specs.Prelude.{◌≡◌, ◌++◌, OnOk, List, ℕ, Option};
    ghost use Rattle.arti_codec.specs.Format.{Format};
    ghost use Rattle.arti_codec.specs.Reading.{Gives};

    ghost format: { Format Self };

    ghost read: { List ℕ → Option (Self × List ℕ) };

    // Adds its bytes.
    fn put(&self, out: &mut Vec<u8>) -> Result<(), AllocError>
        requires { format.keeps self.now }
        ensures { OnOk result (out.new.items ≡ out.old.items ++ format.spell self.now) };

    // Reads one from the front.
    fn take(alloc: Global, reader: &mut Reader<'_>) -> Result<Self, DecodeFault>
        ensures { Gives result (read reader.old) reader.new };
}

// Adds the bytes of a number.
#[tactic(auto, unfolding(crate::specs::Format::number))]
pub fn put_u16(out: &mut Vec<u8>, n: u16) -> Result<(), AllocError>
    ensures { OnOk result (out.new.items ≡ out.old.items ++ (number w16).spell n) }
{
    out.extend_from_slice(&n.to_be_bytes())
}

#[tactic(auto, unfolding(crate::specs::Format::number))]
pub fn put_u32(out: &mut Vec<u8>, n: u32) -> Result<(), AllocError>
    ensures { OnOk result (out.new.items ≡ out.old.items ++ (number w32).spell n) }
{
    out.extend_from_slice(&n.to_be_bytes())
}

#[tactic(auto, unfolding(crate::specs::Format::number))]
pub fn put_u64(out: &mut Vec<u8>, n: u64) -> Result<(), AllocError>
    ensures { OnOk result (out.new.items ≡ out.old.items ++ (number w64).spell n) }
{
    out.extend_from_slice(&n.to_be_bytes())
}

// Adds a length that two bytes have room for.
#[tactic(auto, unfolding(crate::specs::Format::number))]
fn put_len16(out: &mut Vec<u8>, len: usize) -> Result<(), AllocError>
    requires { (number w16).keeps len }
    ensures { OnOk result (out.new.items ≡ out.old.items ++ (number w16).spell len) }
{
    put_u16(out, len as u16)
}

// Adds a length that four bytes have room for.
#[tactic(auto, unfolding(crate::specs::Format::number))]
pub fn put_len32(out: &mut Vec<u8>, len: usize) -> Result<(), AllocError>
    requires { (number w32).keeps len }
    ensures { OnOk result (out.new.items ≡ out.old.items ++ (number w32).spell len) }
{
    put_u32(out, len as u32)
}

// Adds the bytes of each.
pub fn put_all<T: Field>(out: &mut Vec<u8>, items: &[T]) -> Result<(), AllocError>
    requires { All T.format.keeps items.now }
    ensures { OnOk result (out.new.items ≡ out.old.items ++ flat_map T.format.spell items.now) }
{
    for item in items {
        item.put(out)?;
    }
    Ok(())
}

// Reads so many. Room for sixteen at most is made before they come, whatever their number says.
pub fn take_all<T: Field>(
    alloc: Global,
    reader: &mut Reader<'_>,
    count: usize,
) -> Result<Seq<T>, DecodeFault>
    ensures { Gives result (times_at T.read count reader.old) reader.new }
{
    let mut items = Seq::from_vec(Vec::with_capacity(alloc, count.min(16))?);
    for _ in 0..count {
        items.push(T::take(alloc, reader)?)?;
    }
    Ok(items)
}

// Adds a list behind its length in two bytes.
pub fn put_list16<T: Field>(out: &mut Vec<u8>, items: &[T]) -> Result<(), AllocError>
    requires length { (number w16).keeps (length items.now) }
    requires each { All T.format.keeps items.now }
    ensures { OnOk result (out.new.items ≡ out.old.items ++ (listed w16 T.format).spell items.now) }
{
    put_len16(out, items.len())?;
    put_all(out, items)
}

// Adds a list behind its length in four bytes.
pub fn put_list32<T: Field>(out: &mut Vec<u8>, items: &[T]) -> Result<(), AllocError>
    requires length { (number w32).keeps (length items.now) }
    requires each { All T.format.keeps items.now }
    ensures { OnOk result (out.new.items ≡ out.old.items ++ (listed w32 T.format).spell items.now) }
{
    put_len32(out, items.len())?;
    put_all(out, items)
}

// Reads a list of at most so many behind its length in two bytes.
pub fn take_some16<T: Field>(
    alloc: Global,
    reader: &mut Reader<'_>,
    most: u16,
) -> Result<Seq<T>, DecodeFault>
    ensures { Gives result (limited_at w16 most T.read reader.old) reader.new }
{
    let count = reader.u16()?;
    if count > most {
        return Err(DecodeFault::NotAChange);
    }
    take_all(alloc, reader, count as usize)
}

// Reads a list behind its length in two bytes.
pub fn take_list16<T: Field>(alloc: Global, reader: &mut Reader<'_>) -> Result<Seq<T>, DecodeFault>
    ensures { Gives result (listed_at w16 T.read reader.old) reader.new }
{
    let count = reader.u16()?;
    take_all(alloc, reader, count as usize)
}

// Reads a list behind its length in four bytes.
pub fn take_list32<T: Field>(alloc: Global, reader: &mut Reader<'_>) -> Result<Seq<T>, DecodeFault>
    ensures { Gives result (listed_at w32 T.read reader.old) reader.new }
{
    let count = reader.u32()?;
    take_all(alloc, reader, count as usize)
}

// Reads a list of at most so many behind its length in four bytes.
pub fn take_some32<T: Field>(
    alloc: Global,
    reader: &mut Reader<'_>,
    most: u32,
) -> Result<Seq<T>, DecodeFault>
    ensures { Gives result (limited_at w32 most T.read reader.old) reader.new }
{
    let count = reader.u32()?;
    if count > most {
        return Err(DecodeFault::NotAChange);
    }
    take_all(alloc, reader, count as usize)
}
