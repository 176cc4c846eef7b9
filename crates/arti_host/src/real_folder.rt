// The files 0 to 5 of a folder, for one program at a time.
// 1. No file is used before the folder is locked, so nobody else writes between two calls (`lock`).
// 2. The first sync reaches the device for every file that is there, and for the folder: a process that was killed leaves
//    bytes and names that may stand in memory alone. A later one does for what was written since (`reach`).
// 3. Once a sync has failed, each later one fails: Linux may count the pages that it could not write as clean, so that the
//    next one would succeed and lose them (`sync`).
ghost use Rattle.std.specs.Prelude.{◌≤◌, ◌<◌, ◌^◌, length, IfOk};

use crate::handle::behind_streams;
use crate::real_file::RealFile;
use arti_ground::Failed;
use std::alloc::{AllocError, Global};
use std::fs;
use std::fs::{File, OpenFile};

// How far the syncs of this process came.
#[derive(Drop)]
enum Syncs {
    NotYet,
    Synced,
    Failed,
}

/// The files 0 to 5 of a folder, which is there already. Nothing is opened before the first call.
#[derive(Drop)]
pub struct RealFolder {
    rt: HostRuntime,
    path: String,
    locked: Option<File>,
    files: [RealFile; 6],
    syncs: Syncs,
}

// The folder, open and locked, or a failure where somebody else has locked it.
fn locked(rt: &HostRuntime, path: &str) -> Result<File, Failed> {
    let folder = fs::open(rt, path).map_err(|_| Failed)?;
    let folder = behind_streams(folder).map_err(|_| Failed)?;
    match folder.try_lock() {
        Ok(()) => Ok(folder),
        Err(_) => Err(Failed),
    }
}

// Whether a file was made since the folder last reached the device.
fn some_made(files: &[RealFile; 6]) -> bool {
    for file in files.iter() {
        if file.is_made() {
            return true;
        }
    }
    false
}

impl RealFolder {
    pub fn new(rt: &HostRuntime, alloc: Global, path: &str) -> Result<RealFolder, AllocError> {
        Ok(RealFolder {
            rt: rt.clone()?,
            path: String::from_str(alloc, path)?,
            locked: None,
            files: [
                RealFile::new(alloc, path, 0)?,
                RealFile::new(alloc, path, 1)?,
                RealFile::new(alloc, path, 2)?,
                RealFile::new(alloc, path, 3)?,
                RealFile::new(alloc, path, 4)?,
                RealFile::new(alloc, path, 5)?,
            ],
            syncs: Syncs::NotYet,
        })
    }

    // Locks the folder where this process hasn't yet. The lock is on the handle: it leaves no file, and ends with the
    // process, even one that is killed.
    fn lock(&mut self) -> Result<(), Failed> {
        if self.locked.is_none() {
            self.locked = Some(locked(&self.rt, self.path.as_str())?);
        }
        Ok(())
    }

    /// Reads from a place of a file on, as far as the buffer or the file goes.
    pub fn read(&mut self, file: u32, at: u64, buf: &mut [u8]) -> Result<usize, Failed>
        requires { file < 6 }
        ensures { IfOk result (λ n. n ≤ length buf.old) }
    {
        self.lock()?;
        self.files[file as usize].read(&self.rt, at, buf)
    }

    /// How many bytes a file has.
    pub fn length(&mut self, file: u32) -> Result<u64, Failed>
        requires { file < 6 }
        ensures { IfOk result (λ n. n < 2 ^ 63) }
    {
        self.lock()?;
        self.files[file as usize].length(&self.rt)
    }

    /// Writes at a place of a file.
    pub fn write_at(&mut self, file: u32, at: u64, bytes: &[u8]) -> Result<(), Failed>
        requires { file < 6 }
    {
        self.lock()?;
        self.files[file as usize].write_at(&self.rt, at, bytes)
    }

    /// Cuts a file to a length.
    pub fn cut(&mut self, file: u32, len: u64) -> Result<(), Failed>
        requires { file < 6 }
    {
        self.lock()?;
        self.files[file as usize].cut(&self.rt, len)
    }

    /// What the files hold reaches the device, and their names do.
    pub fn sync(&mut self) -> Result<(), Failed> {
        let outcome = self.reach();
        if outcome.is_err() {
            self.syncs = Syncs::Failed;
        }
        outcome
    }

    fn reach(&mut self) -> Result<(), Failed> {
        self.lock()?;
        match self.syncs {
            Syncs::NotYet => {
                self.sync_whole()?;
                self.syncs = Syncs::Synced;
                Ok(())
            }
            Syncs::Synced => self.sync_written(),
            Syncs::Failed => Err(Failed),
        }
    }

    // Every file that is there, whoever wrote it, and the folder.
    fn sync_whole(&mut self) -> Result<(), Failed> {
        for file in self.files.iter_mut() {
            file.sync_whole(&self.rt)?;
        }
        self.sync_names()
    }

    // What was written since the last sync, and the folder where a file was made.
    fn sync_written(&mut self) -> Result<(), Failed> {
        for file in self.files.iter_mut() {
            file.sync()?;
        }
        if some_made(&self.files) {
            self.sync_names()?;
        }
        Ok(())
    }

    // The names of the files reach the device.
    fn sync_names(&mut self) -> Result<(), Failed> {
        match &self.locked {
            Some(folder) => folder.sync_all().map_err(|_| Failed)?,
            None => return Err(Failed),
        }
        for file in self.files.iter_mut() {
            file.name_is_synced();
        }
        Ok(())
    }
}
