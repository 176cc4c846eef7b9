// One file of a folder. It is opened at its first use, and made at its first write.
ghost use Rattle.std.specs.Prelude.{◌≤◌, ◌<◌, ◌^◌, length, IfOk};

use crate::handle::behind_streams;
use arti_ground::Failed;
use std::alloc::{AllocError, Global};
use std::fs::{File, OpenFile, OpenOptions};
use std::io::{ErrorKind, Read, Seek, SeekFrom, Write};

/// A file of a folder by its number. One that isn't there reads as empty.
#[derive(Drop)]
pub struct RealFile {
    path: String,
    file: Option<File>,
    written: bool,
    made: bool,
}

// Reads what the file has from this place on.
fn read_from(file: &mut File, at: u64, buf: &mut [u8]) -> Result<usize, Failed>
    ensures { IfOk result (λ n. n ≤ length buf.old) }
{
    if file.seek(SeekFrom::Start(at)).is_err() {
        return Err(Failed);
    }
    let mut done = 0;
    'reads: for _ in 0..u64::MAX {
        match file.read(&mut buf[done..]) {
            Ok(0) => return Ok(done),
            Ok(n) => done += n,
            Err(error) if error.kind() == ErrorKind::Interrupted => {}
            Err(_) => return Err(Failed),
        }
    }
    Err(Failed)
}

impl RealFile {
    /// The file `number` of a folder. Nothing is opened yet.
    pub fn new(alloc: Global, folder: &str, number: u32) -> Result<RealFile, AllocError> {
        Ok(RealFile {
            path: format!(in alloc; "{folder}/{number}")?,
            file: None,
            written: false,
            made: false,
        })
    }

    // Opens the file where it is there. False: it isn't.
    fn open(&mut self, rt: &HostRuntime) -> Result<bool, Failed> {
        if self.file.is_some() {
            return Ok(true);
        }
        match OpenOptions::new()
            .read(true)
            .write(true)
            .open(rt, self.path.as_str())
        {
            Ok(file) => {
                self.file = Some(behind_streams(file).map_err(|_| Failed)?);
                Ok(true)
            }
            Err(error) if error.kind() == ErrorKind::NotFound => Ok(false),
            Err(_) => Err(Failed),
        }
    }

    // Makes the file where it isn't there.
    fn make(&mut self, rt: &HostRuntime) -> Result<(), Failed> {
        if self.open(rt)? {
            return Ok(());
        }
        match OpenOptions::new()
            .read(true)
            .write(true)
            .create(true)
            .open(rt, self.path.as_str())
        {
            Ok(file) => {
                self.made = true;
                self.file = Some(behind_streams(file).map_err(|_| Failed)?);
                Ok(())
            }
            Err(_) => Err(Failed),
        }
    }

    /// Reads from a place on, as far as the buffer or the file goes.
    pub fn read(&mut self, rt: &HostRuntime, at: u64, buf: &mut [u8]) -> Result<usize, Failed>
        ensures { IfOk result (λ n. n ≤ length buf.old) }
    {
        self.open(rt)?;
        match &mut self.file {
            Some(file) => read_from(file, at, buf),
            None => Ok(0),
        }
    }

    /// How many bytes the file has.
    pub fn length(&mut self, rt: &HostRuntime) -> Result<u64, Failed>
        ensures { IfOk result (λ n. n < 2 ^ 63) }
    {
        self.open(rt)?;
        match &mut self.file {
            Some(file) => match file.seek(SeekFrom::End(0)) {
                Ok(n) if n < 1 << 63 => Ok(n),
                _ => Err(Failed),
            },
            None => Ok(0),
        }
    }

    /// Writes at a place.
    pub fn write_at(&mut self, rt: &HostRuntime, at: u64, bytes: &[u8]) -> Result<(), Failed> {
        self.make(rt)?;
        self.written = true;
        match &mut self.file {
            Some(file) => {
                if file.seek(SeekFrom::Start(at)).is_err() || file.write_all(bytes).is_err() {
                    return Err(Failed);
                }
                Ok(())
            }
            None => Err(Failed),
        }
    }

    /// Cuts the file to a length.
    pub fn cut(&mut self, rt: &HostRuntime, len: u64) -> Result<(), Failed> {
        if !self.open(rt)? {
            return Ok(());
        }
        self.written = true;
        match &mut self.file {
            Some(file) => file.set_len(len).map_err(|_| Failed),
            None => Err(Failed),
        }
    }

    /// Whether it was made, and its name may not have reached the device.
    pub fn is_made(&self) -> bool {
        self.made
    }

    /// Its name has reached the device.
    pub fn name_is_synced(&mut self) {
        self.made = false;
    }

    /// All that the file has reaches the device, whoever wrote it, where it is there.
    pub fn sync_whole(&mut self, rt: &HostRuntime) -> Result<(), Failed> {
        if self.open(rt)? {
            self.written = true;
        }
        self.sync()
    }

    /// What was written since the last such call reaches the device.
    pub fn sync(&mut self) -> Result<(), Failed> {
        if !self.written {
            return Ok(());
        }
        match &mut self.file {
            Some(file) => {
                if file.sync_all().is_err() {
                    return Err(Failed);
                }
                self.written = false;
                Ok(())
            }
            None => Ok(()),
        }
    }
}
