// The clock of a replay.
ghost use Rattle.std.specs.Prelude.{◌≡◌, ◌+◌, ◌≤◌, pos};
ghost use Rattle.arti_model.specs.Run.{moments_from};

use arti_ground::Clock;
use arti_rows::Moment;
use std::marker::Model;

/// Gives so many moments, one millisecond apart, and then moment 0.
#[derive(Drop)]
pub struct StartClock {
    next: u64,
    left: u32,
}

impl Model for StartClock {
    ghost use Rattle.std.specs.Prelude.{◌+◌, ◌≤◌, List, ℤ, pos};
    ghost use Rattle.arti_model.specs.Run.{moments_from};

    ghost Value = { List ℤ };

    ghost view = { λ c. moments_from (pos c.next) c.left };

    ghost invariant = { λ c. c.next + c.left ≤ 253402300799999 };
}

impl StartClock {
    /// A clock whose first moment is `start`, in milliseconds since 1970.
    pub fn new(start: u64, count: u32) -> StartClock
        requires { start + count ≤ 253402300799999 }
        ensures { result ≡ moments_from (pos start) count }
    {
        StartClock {
            next: start,
            left: count,
        }
    }
}

// The moment of so many milliseconds since 1970.
fn moment_at(ms: u64) -> Moment
    requires { ms ≤ 253402300799999 }
    ensures { result ≡ pos ms }
{
    match Moment::new(ms as i64) {
        Some(moment) => moment,
        None => unreachable!(),
    }
}

impl Clock for StartClock {
    ghost tells = { Unit {0} };

    ghost moments = { λ c. c };

    fn now(&mut self) -> Moment {
        if self.left == 0 {
            return moment_at(0);
        }
        let moment = moment_at(self.next);
        self.next += 1;
        self.left -= 1;
        moment
    }
}
