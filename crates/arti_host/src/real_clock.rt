// The machine's clock. It tells nothing of what it shows.
use arti_ground::Clock;
use arti_rows::Moment;
use std::alloc::AllocError;
use std::time::{SystemTime, UNIX_EPOCH};

/// The machine's time in whole milliseconds.
#[derive(Drop)]
pub struct RealClock {
    rt: HostRuntime,
}

impl RealClock {
    pub fn new(rt: &HostRuntime) -> Result<RealClock, AllocError> {
        Ok(RealClock { rt: rt.clone()? })
    }
}

// The moment of a number of milliseconds, or moment 0 where it is none.
fn moment_of(ms: u128) -> Moment {
    match i64::try_from(ms) {
        Ok(ms) => match Moment::new(ms) {
            Some(moment) => moment,
            None => moment_of_zero(),
        },
        Err(_) => moment_of_zero(),
    }
}

// The moment 1970-01-01T00:00:00.000Z.
fn moment_of_zero() -> Moment {
    match Moment::new(0) {
        Some(moment) => moment,
        None => unreachable!(),
    }
}

impl Clock for RealClock {
    ghost use Rattle.std.specs.Prelude.{[]};

    ghost tells = { ⊥ };

    ghost moments = { λ _. [] };

    fn now(&mut self) -> Moment {
        match SystemTime::now(&self.rt) {
            Ok(now) => match now.duration_since(UNIX_EPOCH) {
                Ok(since) => moment_of(since.as_millis()),
                Err(_) => moment_of_zero(),
            },
            Err(_) => moment_of_zero(),
        }
    }
}
