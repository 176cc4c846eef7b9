//! A repository manager over recorded requests: it answers the requests of standard input on standard output.
#![tactic(auto)]

ghost use Rattle.std.specs.Prelude.{◌≡◌, ◌<◌};

mod start_clock;
#[cfg(test)]
mod tests;
mod top;
mod words;

use crate::top::{Status, run};
use arti_ground::{ListUpstream, Steps};
use arti_host::{RealClock, RealGround, RealSource};
use arti_rows::Limits;
use std::alloc::AllocError;
use std::env;
use std::io::ErrorKind;
use std::marker::Brand;
use std::process::ExitCode;
use std::sync::ledger::{Blank, Ledger};

// The words behind the program's name; none where one isn't UTF-8, since that is no command.
fn words_of(rt: &HostRuntime) -> Result<Vec<String>, AllocError> {
    let mut words = Vec::new(rt.alloc());
    match env::args(rt) {
        Ok(args) => {
            for word in args.skip(1) {
                words.push(word)?;
            }
            Ok(words)
        }
        Err(error) if error.kind() == ErrorKind::OutOfMemory => Err(AllocError),
        Err(_) => Ok(words),
    }
}

// Runs the command over the real files, streams and clock.
fn run_counted<L: Ledger>(rt: &HostRuntime, blank: Blank) -> Result<Status, AllocError>
    requires name { blank.name ≡ L.name }
    requires parts { blank.parts ≡ L.parts }
    requires some { 0 < blank.parts }
{
    let alloc = rt.alloc();
    let words = words_of(rt)?;
    let folder = match words.first() {
        Some(folder) => folder.as_str(),
        None => ".",
    };
    let mut ground = RealGround::new(rt, alloc, folder, rt.stdout())?;
    let mut source = RealSource::new(rt.stdin());
    let mut upstream = ListUpstream::new(Vec::new(alloc));
    let mut clock = RealClock::new(rt)?;
    let mut steps = Steps::<L>::open(blank);
    let rest = if words.is_empty() {
        &words[..]
    } else {
        &words[1..]
    };
    Ok(run(
        rt,
        alloc,
        rest,
        &Limits::standard(),
        &mut ground,
        &mut source,
        &mut upstream,
        &mut clock,
        &mut steps,
    ))
}

fn main(rt: HostRuntime) -> ExitCode {
    match run_counted::<Brand>(&rt, Blank::new(1)) {
        Ok(status) => ExitCode::from(status.code()),
        Err(_) => ExitCode::from(Status::Memory.code()),
    }
}
