// A journal is made of a file that is too short to stand for a body.
ghost use Rattle.std.specs.Prelude.{◌≡◌, ◌<◌, [], OnOk};
ghost use Rattle.arti_ground.specs.State.{State, IsDurable, Passes, HasCause};
ghost use Rattle.arti_journal.specs.Journal.{HoldsJournal};
ghost use Rattle.arti_journal.specs.Parts.{IsUnmade, Making};

use arti_ground::{Failed, Ground, write_synced};

/// The name, a closed gate, seven zeros and the closed gate of the first record.
const UNMADE: [u8; 17] = *b"ARTIJNL1\0\0\0\0\0\0\0\0\0";

/// Makes a journal of a file that stands for no body yet. A crash at any moment leaves such a file.
pub(crate) fn make<G: Ground>(outside: &mut G, file: u32) -> Result<(), Failed>
    requires file { file < 6 }
    requires short { G.tells → IsUnmade (G.state outside.old) file }
    ensures ok { G.tells → OnOk result (HoldsJournal (G.state outside.new) file 17 []) }
    ensures durable { G.tells → OnOk result (IsDurable (G.state outside.new)) }
    ensures moments { G.tells → Passes (G.state outside.old) (G.state outside.new) (Making (G.state outside.old) file) }
    ensures told { G.tells → (G.state outside.new).told ≡ (G.state outside.old).told }
    ensures cause { HasCause (G.disk_faults outside.old) (G.disk_faults outside.new) result }
    ensures tell_faults { G.tell_faults outside.new ≡ G.tell_faults outside.old }
{
    outside.cut(file, 0)?;
    write_synced(outside, file, 0, &UNMADE)?;
    write_synced(outside, file, 8, &[1])?;
    Ok(())
}
