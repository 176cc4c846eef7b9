// The definitions whose members are being gone through, each but the first among the members of the one before.
ghost use Rattle.std.specs.Prelude.{◌≡◌, ◌<◌, [], ◌∷◌, ◌++◌, MatchOption, vec_len, vec_capacity};
ghost use Rattle.arti_repos.specs.Frames.{IsDone, Takes};

use arti_rows::{RepoDef, Text};

/// A definition's key, and those of its members that weren't looked at yet.
#[derive(Clone, Copy)]
pub(crate) struct Frame<'a> {
    pub(crate) key: &'a str,
    pub(crate) rest: &'a [Text],
}

/// A definition none of whose members was looked at.
pub(crate) fn frame_of(def: &RepoDef) -> Frame<'_>
    ensures key { result.key.now ≡ def.now.key }
    ensures rest { result.rest.now ≡ def.now.members }
{
    Frame {
        key: def.key.as_str(),
        rest: def.members.as_slice(),
    }
}

/// The member to look at next. Definitions with none left are gone then.
pub(crate) fn next_member<'a>(frames: &mut Vec<Frame<'a>>) -> Option<&'a str>
    ensures { MatchOption result (IsDone frames.old.items) (λ member. Takes frames.old.items member.now frames.new.items) }
{
    'finished: while let Some(frame) = frames.pop() {
        if let Some(member) = resume(frames, frame) {
            return Some(member);
        }
    }
    None
}

// The first member that is left, and the others as a frame again: there is room, since one was just taken off.
fn resume<'a>(frames: &mut Vec<Frame<'a>>, frame: Frame<'a>) -> Option<&'a str>
    requires room { vec_len frames.old < vec_capacity frames.old }
    ensures { MatchOption result ((frame.entry.rest.now ≡ []) × (frames.new.items ≡ frames.old.items)) (λ member. Takes (frames.old.items ++ frame.entry ∷ []) member.now frames.new.items) }
{
    match frame.rest.split_first() {
        None => None,
        Some((member, rest)) => {
            put_back(frames, frame.key, rest);
            Some(member.as_str())
        }
    }
}

fn put_back<'a>(frames: &mut Vec<Frame<'a>>, key: &'a str, rest: &'a [Text])
    requires room { vec_len frames.old < vec_capacity frames.old }
    ensures { frames.new.items ≡ frames.old.items ++ record { key = key.entry; rest = rest.entry } ∷ [] }
{
    match frames.push(Frame { key, rest }) {
        Ok(()) => {}
        Err(_) => unreachable!(),
    }
}
