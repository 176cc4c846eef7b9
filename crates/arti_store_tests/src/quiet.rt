// A ground that tells nothing of what it holds, so that calls on it owe nothing of that.
ghost use Rattle.std.specs.Prelude.{◌≡◌, ◌+◌, ◌^◌, ◌<◌, ℕ, length};
ghost use Rattle.arti_ground.specs.State.{HasCause};

use arti_ground::{Failed, Ground};

/// As its inner ground, which tells what it holds.
#[derive(Drop)]
pub(crate) struct Quiet<G> {
    pub(crate) inner: G,
    disk_faults: u64,
    tell_faults: u64,
}

impl<G> Quiet<G> {
    pub(crate) fn new(inner: G) -> Quiet<G> {
        Quiet {
            inner,
            disk_faults: 0,
            tell_faults: 0,
        }
    }
}

// Counts a call that failed.
fn count<T>(faults: &mut u64, outcome: &Result<T, Failed>)
    ensures { HasCause faults.old faults.new outcome.now }
{
    if outcome.is_err() {
        *faults = faults.saturating_add(1);
    }
}

// Writes, where the place lies within the file.
fn write_within<G: Ground>(inner: &mut G, file: u32, at: u64, bytes: &[u8]) -> Result<(), Failed>
    requires file { file < 6 }
    requires range { at + length bytes.now < 2 ^ 63 }
{
    let size = inner.length(file)?;
    if at > size {
        return Err(Failed);
    }
    inner.write_at(file, at, bytes)
}

// Cuts, where the length lies within the file.
fn cut_within<G: Ground>(inner: &mut G, file: u32, len: u64) -> Result<(), Failed>
    requires { file < 6 }
{
    let size = inner.length(file)?;
    if len > size {
        return Err(Failed);
    }
    inner.cut(file, len)
}

impl<G: Ground> Ground for Quiet<G> {
    ghost use Rattle.std.specs.Prelude.{[]};
    ghost use Rattle.arti_ground.specs.Record.{fresh};

    ghost tells = { ⊥ };

    ghost state = { λ _. fresh [] };

    ghost disk_faults = { λ q. q.disk_faults };

    ghost tell_faults = { λ q line. q.tell_faults };

    ghost sound = { λ _ never. absurd never };

    fn read(&mut self, file: u32, at: u64, buf: &mut [u8]) -> Result<usize, Failed> {
        let outcome = self.inner.read(file, at, buf);
        count(&mut self.disk_faults, &outcome);
        outcome
    }

    fn length(&mut self, file: u32) -> Result<u64, Failed> {
        let outcome = self.inner.length(file);
        count(&mut self.disk_faults, &outcome);
        outcome
    }

    fn write_at(&mut self, file: u32, at: u64, bytes: &[u8]) -> Result<(), Failed> {
        let outcome = write_within(&mut self.inner, file, at, bytes);
        count(&mut self.disk_faults, &outcome);
        outcome
    }

    fn cut(&mut self, file: u32, len: u64) -> Result<(), Failed> {
        let outcome = cut_within(&mut self.inner, file, len);
        count(&mut self.disk_faults, &outcome);
        outcome
    }

    fn sync(&mut self) -> Result<(), Failed> {
        let outcome = self.inner.sync();
        count(&mut self.disk_faults, &outcome);
        outcome
    }

    fn tell(&mut self, line: u32, bytes: &[u8]) -> Result<(), Failed> {
        let outcome = self.inner.tell(line, bytes);
        count(&mut self.tell_faults, &outcome);
        outcome
    }
}
