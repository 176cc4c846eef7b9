// A clock in memory.
ghost use Rattle.std.specs.Prelude.{◌≡◌, pos};

use crate::Clock;
use arti_rows::Moment;
use std::marker::Model;

/// Moments in memory as a clock. A contract sees those to come.
#[derive(Drop)]
pub struct ListClock {
    moments: Vec<Moment>,
    next: usize,
}

impl Model for ListClock {
    ghost use Rattle.std.specs.Prelude.{◌≤◌, List, ℤ, length, drop};

    ghost Value = { List ℤ };

    ghost view = { λ c. drop c.next c.moments.items };

    ghost invariant = { λ c. c.next ≤ length c.moments.items };
}

impl ListClock {
    /// A clock that gives these moments, and then moment 0.
    pub fn new(moments: Vec<Moment>) -> ListClock
        ensures holds { result ≡ moments.items }
    {
        ListClock { moments, next: 0 }
    }
}

impl Clock for ListClock {
    ghost use Rattle.arti_ground.specs.Sources.{first_moment};

    ghost tells = { Unit {0} };

    ghost moments = { λ c. c };

    fn now(&mut self) -> Moment {
        if self.next < self.moments.len() {
            let moment = self.moments[self.next];
            self.next += 1;
            return moment;
        }
        moment_zero()
    }
}

// The moment 1970-01-01T00:00:00.000Z.
fn moment_zero() -> Moment
    ensures { result ≡ pos 0 }
{
    match Moment::new(0) {
        Some(moment) => moment,
        None => unreachable!(),
    }
}
