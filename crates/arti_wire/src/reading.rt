// Reading up to where a head is decided.
ghost use Rattle.std.specs.Prelude.{◌≡◌, ℕ, ◌+◌, ◌-◌, ◌<◌, ◌≤◌, List, [], ◌++◌, length, take, take_while, OnOk};
ghost use Rattle.arti_ground.specs.State.{HasCause};
ghost use Rattle.arti_model.specs.Requests.{is_line_byte, skip};
ghost use Rattle.arti_wire.specs.Ahead.{Decides};

use crate::ahead::Ahead;
use crate::head::{HEAD_ROOM, window};
use crate::lines::search_on;
use arti_ground::{Failed, Source};

/// The most CRs and LFs that are passed over before a head.
const LINE_END_ROOM: usize = 1024;

// How many CRs and LFs the bytes begin with, of the first `most`.
fn line_ends(bytes: &[u8], most: usize) -> usize
    ensures { result ≡ length (take_while is_line_byte (take most bytes.now)) }
{
    bytes
        .iter()
        .take(most)
        .take_while(|b| matches!(**b, b'\r' | b'\n'))
        .count()
}

/// Passes over CRs and LFs, up to a byte that counts or to the end of the source.
pub fn skip_line_ends<S: Source>(ahead: &mut Ahead, source: &mut S) -> Result<(), Failed>
    ensures bytes { S.tells → OnOk result (ahead.new ++ S.left source.new ≡ skip LINE_END_ROOM (ahead.old ++ S.left source.old)) }
    ensures end { S.tells → OnOk result (ahead.new ≡ [] → S.left source.new ≡ []) }
    ensures cause { HasCause (S.faults source.old) (S.faults source.new) result }
{
    let mut most = LINE_END_ROOM;
    while ahead.has_more(source)? {
        let n = line_ends(ahead.as_slice(), most);
        ahead.pass(n);
        if !ahead.as_slice().is_empty() {
            return Ok(());
        }
        most -= n;
    }
    Ok(())
}

/// Reads until the bytes ahead decide what they begin with.
pub fn fill_head<S: Source>(ahead: &mut Ahead, source: &mut S) -> Result<(), Failed>
    ensures bytes { S.tells → OnOk result (ahead.new ++ S.left source.new ≡ ahead.old ++ S.left source.old) }
    ensures front { OnOk result (take (length ahead.old) ahead.new ≡ ahead.old) }
    ensures decides { S.tells → OnOk result (Decides ahead.new (S.left source.new)) }
    ensures cause { HasCause (S.faults source.old) (S.faults source.new) result }
{
    let mut from = 0;
    while let Some(to) = search_on(window(ahead.as_slice()), from) {
        from = to;
        if ahead.as_slice().len() >= HEAD_ROOM || ahead.fill(source)? == 0 {
            return Ok(());
        }
    }
    Ok(())
}
