// The two halves of an append: the record behind a closed gate, and then the gate.
ghost use Rattle.std.specs.Prelude.{◌≡◌, ◌+◌, ◌^◌, ◌<◌, ◌≤◌, ℕ, List, length, OnOk};
ghost use Rattle.arti_ground.specs.State.{State, Passes, HasCause};
ghost use Rattle.arti_journal.specs.Journal.{HoldsJournal, Appending, Appended};

use crate::Framed;
use arti_ground::{Failed, Ground, write_synced};

/// Adds the body behind the closed gate of a journal that uses so many bytes. At Ok each crash from then on leaves it.
pub(crate) fn add<G: Ground>(
    outside: &mut G,
    file: u32,
    used: u64,
    framed: &Framed,
) -> Result<(), Failed>
    requires file { file < 6 }
    requires some { 1 ≤ used }
    requires room { used + length framed.now + 5 < 2 ^ 63 }
    requires holds { G.tells → (bodies : List (List ℕ)) × HoldsJournal (G.state outside.old) file used bodies }
    ensures ok { G.tells → OnOk result ((bodies : List (List ℕ)) → HoldsJournal (G.state outside.old) file used bodies
        → Appended (G.state outside.old) (G.state outside.new) file used bodies framed.now) }
    ensures moments { G.tells → (bodies : List (List ℕ)) → HoldsJournal (G.state outside.old) file used bodies
        → Passes (G.state outside.old) (G.state outside.new) (Appending (G.state outside.old) file bodies framed.now) }
    ensures told { G.tells → (G.state outside.new).told ≡ (G.state outside.old).told }
    ensures cause { HasCause (G.disk_faults outside.old) (G.disk_faults outside.new) result }
    ensures tell_faults { G.tell_faults outside.new ≡ G.tell_faults outside.old }
{
    write_synced(outside, file, used, framed.bytes())?;
    write_synced(outside, file, used - 1, &[1])?;
    Ok(())
}
