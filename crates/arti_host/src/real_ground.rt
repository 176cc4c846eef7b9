// The files of a folder and an output stream as a ground. It tells nothing of what they hold.
ghost use Rattle.std.specs.Prelude.{◌≤◌, ◌<◌, ◌^◌, length, IfOk};

use crate::real_folder::RealFolder;
use arti_ground::{Failed, Ground};
use std::alloc::{AllocError, Global};
use std::io::Write;

/// The files 0 to 5 of a folder, and one stream for all lines. Its counts of faults stop at their greatest value.
#[derive(Drop)]
pub struct RealGround<W: Write + Drop> {
    folder: RealFolder,
    out: W,
    disk_faults: u64,
    tell_faults: u64,
}

impl<W: Write + Drop> RealGround<W> {
    /// The ground of a folder, which is there already. From its first call on a file on it has the folder to itself, and
    /// the call is a fault of the disk where another program has. Nothing is opened yet.
    pub fn new(
        rt: &HostRuntime,
        alloc: Global,
        folder: &str,
        out: W,
    ) -> Result<RealGround<W>, AllocError> {
        Ok(RealGround {
            folder: RealFolder::new(rt, alloc, folder)?,
            out,
            disk_faults: 0,
            tell_faults: 0,
        })
    }
}

impl<W: Write + Drop> Ground for RealGround<W> {
    ghost use Rattle.arti_ground.specs.State.{State, Holds, Torn, Cut, In, Tells, TellsSome, Reads, Follows, IsDurable, LeavesDisk, DiskTime, TellTime, IsSound, HasCause};
    ghost use Rattle.arti_ground.specs.Record.{fresh};
    ghost use Rattle.std.specs.Prelude.{[]};

    ghost tells = { ⊥ };

    ghost state = { λ _. fresh [] };

    ghost disk_faults = { λ g. g.disk_faults };

    ghost tell_faults = { λ g line. g.tell_faults };

    ghost sound = { λ _ never. absurd never };

    fn read(&mut self, file: u32, at: u64, buf: &mut [u8]) -> Result<usize, Failed> {
        let outcome = self.folder.read(file, at, buf);
        if outcome.is_err() {
            self.disk_faults = self.disk_faults.saturating_add(1);
        }
        outcome
    }

    fn length(&mut self, file: u32) -> Result<u64, Failed> {
        let outcome = self.folder.length(file);
        if outcome.is_err() {
            self.disk_faults = self.disk_faults.saturating_add(1);
        }
        outcome
    }

    fn write_at(&mut self, file: u32, at: u64, bytes: &[u8]) -> Result<(), Failed> {
        let outcome = self.folder.write_at(file, at, bytes);
        if outcome.is_err() {
            self.disk_faults = self.disk_faults.saturating_add(1);
        }
        outcome
    }

    fn cut(&mut self, file: u32, len: u64) -> Result<(), Failed> {
        let outcome = self.folder.cut(file, len);
        if outcome.is_err() {
            self.disk_faults = self.disk_faults.saturating_add(1);
        }
        outcome
    }

    fn sync(&mut self) -> Result<(), Failed> {
        let outcome = self.folder.sync();
        if outcome.is_err() {
            self.disk_faults = self.disk_faults.saturating_add(1);
        }
        outcome
    }

    fn tell(&mut self, _line: u32, bytes: &[u8]) -> Result<(), Failed> {
        let outcome = self.out.write_all(bytes).map_err(|_| Failed);
        if outcome.is_err() {
            self.tell_faults = self.tell_faults.saturating_add(1);
        }
        outcome
    }
}
