// Moments.
ghost use Rattle.std.specs.Prelude.{◌≡◌, ◌≤ℤ◌, ◌<ℤ◌, ◌-ℤ◌, pos, negsuc, IsSome, ◌↔◌, IfSome};
ghost use Rattle.arti_rows.specs.Moments.{least_moment, greatest_moment, IsMoment};

use std::marker::Model;

/// A moment in milliseconds since 1970-01-01T00:00:00Z, from the year 1 to the year 9999.
#[derive(Clone, Copy, Debug, PartialEq, Eq, PartialOrd, Ord)]
pub struct Moment {
    ms: i64,
}

impl Model for Moment {
    ghost use Rattle.std.specs.Prelude.{ℤ};
    ghost use Rattle.arti_rows.specs.Moments.{IsMoment};

    ghost Value = { ℤ };

    ghost view = { λ m. m.ms };

    ghost invariant = { λ m. IsMoment m.ms };

    ghost inverse = { λ n. record { ms = n } };
}

impl Moment {
    /// The moment of a number of milliseconds, where it lies within the years 1 to 9999.
    pub fn new(ms: i64) -> Option<Moment>
        ensures some { IsSome result ↔ IsMoment ms }
        ensures value { IfSome result (λ m. m ≡ ms) }
    {
        if ms >= -62135596800000 && ms <= 253402300799999 {
            Some(Moment { ms })
        } else {
            None
        }
    }

    pub fn ms(&self) -> i64
        ensures value { result ≡ self.now }
        ensures range { IsMoment self.now }
    {
        self.ms
    }

    /// So many milliseconds before, or the least moment.
    pub fn minus(&self, span: u64) -> Moment
        ensures exact { least_moment ≤ℤ (self.now -ℤ pos span) → result ≡ self.now -ℤ pos span }
        ensures stops { (self.now -ℤ pos span) <ℤ least_moment → result ≡ least_moment }
    {
        let least: i64 = -62135596800000;
        let above = (self.ms - least) as u64;
        if span > above {
            Moment { ms: least }
        } else {
            Moment {
                ms: self.ms - span as i64,
            }
        }
    }
}
