// A journal in a file.
ghost use Rattle.std.specs.Prelude.{◌≡◌, ◌≢◌, ◌↔◌, ◌+◌, ◌^◌, ◌<◌, ◌≤◌, ℕ, List, length, Err, OnOk, OnErr, IfOk, IsErrOf};
ghost use Rattle.arti_ground.specs.State.{State, IsDurable, Passes, AfterSync, Rose};
ghost use Rattle.arti_journal.specs.Journal.{IsJournal, HoldsJournal, Appending, Appended, Opening, bodies_of};

use crate::adding::add;
use crate::making::make;
use crate::reading::read_journal;
use crate::{AppendFault, Framed, JournalFault};
use arti_ground::Ground;
use std::alloc::Global;
use std::marker::Model;

/// A journal in a file of the ground that is handed in beside it. Contracts see the file and the length that is used of it.
#[derive(Debug, Drop)]
pub struct Journal {
    file: u32,
    used: u64,
}

impl Model for Journal {
    ghost use Rattle.std.specs.Prelude.{◌^◌, ◌<◌, ◌≤◌};
    ghost use Rattle.arti_journal.specs.Journal.{Place};

    ghost Value = { Place };

    ghost view = { λ j. record { file = j.file; used = j.used } };

    ghost invariant = { λ j. record { file : j.file < 6; some : 17 ≤ j.used; short : j.used < 2 ^ 63 } };
}

impl Journal {
    /// Opens the journal in a file, and gives the bodies behind open gates. It begins with a sync. A file of at most 17 bytes
    /// stands for no body, and is made anew.
    pub fn open<G: Ground>(
        alloc: Global,
        outside: &mut G,
        file: u32,
    ) -> Result<(Journal, Vec<Vec<u8>>), JournalFault>
        requires { file < 6 }
        ensures file { IfOk result (λ r. r.0.file ≡ file) }
        ensures bodies { G.tells → IfOk result (λ r. IsJournal (bodies_of r.1.items) ((G.state outside.old).files file)) }
        ensures none { G.tells → IsErrOf result JournalFault.NotAJournal → (bodies : List (List ℕ)) → IsJournal bodies ((G.state outside.old).files file) → ⊥ }
        ensures holds { G.tells → IfOk result (λ r. HoldsJournal (G.state outside.new) file r.0.used (bodies_of r.1.items)) }
        ensures durable { G.tells → OnOk result (IsDurable (G.state outside.new)) }
        ensures now { G.tells → Opening (G.state outside.old) file (G.state outside.new).files (G.state outside.new).told }
        ensures moments { G.tells → AfterSync (G.state outside.old) (G.state outside.new) (Opening (G.state outside.old) file) }
        ensures device { IsErrOf result JournalFault.Device → Rose (G.disk_faults outside.old) (G.disk_faults outside.new) }
        ensures quiet { result ≢ Err JournalFault.Device → G.disk_faults outside.new ≡ G.disk_faults outside.old }
        ensures later { G.disk_faults outside.old ≤ G.disk_faults outside.new }
        ensures tell_faults { G.tell_faults outside.new ≡ G.tell_faults outside.old }
    {
        outside.sync()?;
        read_or_make(alloc, outside, file)
    }

    /// Adds a body, unless the used length would pass the limit. From Ok on each crash leaves it. After `Device` the ground may
    /// hold the journal with the body or without it.
    pub fn append<G: Ground>(
        &mut self,
        outside: &mut G,
        framed: &Framed,
        limit: u64,
    ) -> Result<(), AppendFault>
        requires holds { G.tells → (bodies : List (List ℕ)) × HoldsJournal (G.state outside.old) self.old.file self.old.used bodies }
        requires limit { limit < 2 ^ 63 }
        ensures ok { G.tells → OnOk result ((bodies : List (List ℕ)) → HoldsJournal (G.state outside.old) self.old.file self.old.used bodies
            → Appended (G.state outside.old) (G.state outside.new) self.old.file self.old.used bodies framed.now) }
        ensures longer { OnOk result (self.new ≡ record self.old { used = self.old.used + 5 + length framed.now }) }
        ensures unchanged { OnErr result (self.new ≡ self.old) }
        ensures full { IsErrOf result AppendFault.Full ↔ (limit < self.old.used + 5 + length framed.now) }
        ensures not_written { IsErrOf result AppendFault.Full → outside.new ≡ outside.old }
        ensures moments { G.tells → (bodies : List (List ℕ)) → HoldsJournal (G.state outside.old) self.old.file self.old.used bodies
            → Passes (G.state outside.old) (G.state outside.new) (Appending (G.state outside.old) self.old.file bodies framed.now) }
        ensures told { G.tells → (G.state outside.new).told ≡ (G.state outside.old).told }
        ensures device { IsErrOf result AppendFault.Device → Rose (G.disk_faults outside.old) (G.disk_faults outside.new) }
        ensures quiet { result ≢ Err AppendFault.Device → G.disk_faults outside.new ≡ G.disk_faults outside.old }
        ensures later { G.disk_faults outside.old ≤ G.disk_faults outside.new }
        ensures tell_faults { G.tell_faults outside.new ≡ G.tell_faults outside.old }
    {
        let longer = self.used + 5 + framed.len();
        if longer > limit {
            return Err(AppendFault::Full);
        }
        add(outside, self.file, self.used, framed)?;
        self.used = longer;
        Ok(())
    }

    /// The used length: one more than the place of the closed gate.
    pub fn length(&self) -> u64
        ensures { result ≡ self.now.used }
    {
        self.used
    }
}

// The same over a ground of which a crash leaves what reads give.
fn read_or_make<G: Ground>(
    alloc: Global,
    outside: &mut G,
    file: u32,
) -> Result<(Journal, Vec<Vec<u8>>), JournalFault>
    requires file { file < 6 }
    requires durable { G.tells → IsDurable (G.state outside.old) }
    ensures file { IfOk result (λ r. r.0.file ≡ file) }
    ensures bodies { G.tells → IfOk result (λ r. IsJournal (bodies_of r.1.items) ((G.state outside.old).files file)) }
    ensures none { G.tells → IsErrOf result JournalFault.NotAJournal → (bodies : List (List ℕ)) → IsJournal bodies ((G.state outside.old).files file) → ⊥ }
    ensures holds { G.tells → IfOk result (λ r. HoldsJournal (G.state outside.new) file r.0.used (bodies_of r.1.items)) }
    ensures durable { G.tells → OnOk result (IsDurable (G.state outside.new)) }
    ensures moments { G.tells → Passes (G.state outside.old) (G.state outside.new) (Opening (G.state outside.old) file) }
    ensures device { IsErrOf result JournalFault.Device → Rose (G.disk_faults outside.old) (G.disk_faults outside.new) }
    ensures quiet { result ≢ Err JournalFault.Device → G.disk_faults outside.new ≡ G.disk_faults outside.old }
    ensures later { G.disk_faults outside.old ≤ G.disk_faults outside.new }
    ensures tell_faults { G.tell_faults outside.new ≡ G.tell_faults outside.old }
{
    let size = outside.length(file)?;
    if size <= 17 {
        make(outside, file)?;
        return Ok((Journal { file, used: 17 }, Vec::new(alloc)));
    }
    let (used, bodies) = read_journal(alloc, outside, file, size)?;
    Ok((Journal { file, used }, bodies))
}

/// The bytes of a file stand for one list of bodies at most.
pub fn one_list_of_bodies()
    ensures { (bodies others : List (List ℕ)) (bytes : List ℕ) → IsJournal bodies bytes → IsJournal others bytes → bodies ≡ others }
{}
