// Changes.
ghost use Rattle.std.specs.Prelude.{◌≡◌, ◌++◌, IfOk, IsErrOf, OnOk};
ghost use Rattle.arti_codec.specs.ChangeBytes.{edit_list, change, HasBytes, ChangeBytes};
ghost use Rattle.arti_codec.specs.Reading.{Gives};
ghost use Rattle.arti_codec.specs.ReadingRows.{edit_list_at, change_at};

use crate::fault::DecodeFault;
use crate::field::{Field, put_list32, take_list32};
use crate::reader::Reader;
use arti_rows::{Change, Edit, Moment, Seq, Text};
use std::alloc::{AllocError, Global};

/// The bytes of a change that keeps the rules.
pub fn encode(alloc: Global, change: &Change) -> Result<Vec<u8>, AllocError>
    requires { HasBytes change.now }
    ensures { IfOk result (λ bytes. ChangeBytes bytes.items change.now) }
{
    let mut out = Vec::new(alloc);
    put_change(&mut out, change)?;
    Ok(out)
}

/// The change that has these bytes. Memory is taken for what stands there, whatever the counts in it say.
pub fn decode(alloc: Global, bytes: &[u8]) -> Result<Change, DecodeFault>
    ensures found { IfOk result (λ c. ChangeBytes bytes.now c) }
    ensures refused { IsErrOf result DecodeFault.NotAChange → (c : Change) → ChangeBytes bytes.now c → ⊥ }
    ensures only { IfOk result (λ c. (d : Change) → ChangeBytes bytes.now d → c ≡ d) }
{
    let mut reader = Reader::new(bytes);
    let change = take_change(alloc, &mut reader)?;
    if reader.len() != 0 {
        return Err(DecodeFault::NotAChange);
    }
    Ok(change)
}

// Adds the bytes of a change.
#[tactic(auto, unfolding(crate::specs::ChangeBytes::change, crate::specs::ChangeBytes::edit_list))]
fn put_change(out: &mut Vec<u8>, value: &Change) -> Result<(), AllocError>
    requires { change.keeps value.now }
    ensures { OnOk result (out.new.items ≡ out.old.items ++ change.spell value.now) }
{
    value.moment.put(out)?;
    value.user.put(out)?;
    put_list32(out, value.edits.as_slice())?;
    Ok(())
}

// Reads a change from the front.
#[tactic(auto, unfolding(crate::specs::ReadingRows::change_at))]
fn take_change(alloc: Global, reader: &mut Reader<'_>) -> Result<Change, DecodeFault>
    ensures { Gives result (change_at reader.old) reader.new }
{
    let moment = Moment::take(alloc, reader)?;
    let user = Text::take(alloc, reader)?;
    let edits = take_edits(alloc, reader)?;
    Ok(Change {
        moment,
        user,
        edits,
    })
}

// Reads edits, at least one.
#[tactic(auto, unfolding(crate::specs::ReadingRows::edit_list_at))]
fn take_edits(alloc: Global, reader: &mut Reader<'_>) -> Result<Seq<Edit>, DecodeFault>
    ensures { Gives result (edit_list_at reader.old) reader.new }
{
    let edits = take_list32::<Edit>(alloc, reader)?;
    if edits.len() < 1 {
        return Err(DecodeFault::NotAChange);
    }
    Ok(edits)
}
