// Whether a definition's members lead back to it.
ghost use Rattle.std.specs.Prelude.{◌≡◌, [], ◌∷◌, ◌++◌, IfOk};
ghost use Rattle.arti_repos.specs.Definitions.{InOrder};
ghost use Rattle.arti_repos.specs.Ranks.{IsAcyclic};
ghost use Rattle.arti_repos.specs.Cycles.{cycle};
ghost use Rattle.arti_repos.specs.Frames.{path_of};

use crate::frame::{Frame, frame_of, next_member};
use crate::meeting::{meet, none_met};
use arti_rows::{RepoDef, Seq, Text};
use std::alloc::{AllocError, Global};

/// The first chain of members from the definition's key back to it, depth first and in listed order.
pub(crate) fn chain_back(
    alloc: Global,
    definitions: &[RepoDef],
    def: &RepoDef,
) -> Result<Option<Seq<Text>>, AllocError>
    requires order { InOrder definitions.now }
    requires acyclic { IsAcyclic definitions.now }
    ensures { IfOk result (λ chain. chain ≡ cycle definitions.now def.now) }
{
    let mut met = none_met(alloc, definitions.len())?;
    let mut frames = Vec::new(alloc);
    frames.push(frame_of(def))?;
    'members: while let Some(member) = next_member(&mut frames) {
        if member == def.key.as_str() {
            return Ok(Some(keys_through(alloc, &frames, member)?));
        }
        // One that was met before doesn't lead back, else the chain had been found there.
        if let Some(found) = meet(definitions, &mut met, member) {
            frames.push(frame_of(found))?;
        }
    }
    Ok(None)
}

// The keys of the frames, and the one that they lead to.
fn keys_through(alloc: Global, frames: &[Frame<'_>], last: &str) -> Result<Seq<Text>, AllocError>
    ensures { IfOk result (λ keys. keys ≡ path_of frames.now ++ last.now ∷ []) }
{
    let mut keys = Seq::new(alloc);
    for frame in frames {
        keys.push(Text::from_str(alloc, frame.key)?)?;
    }
    keys.push(Text::from_str(alloc, last)?)?;
    Ok(keys)
}
