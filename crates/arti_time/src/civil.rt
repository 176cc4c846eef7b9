// Moments as dates and times of day.
ghost use Rattle.std.specs.Prelude.{◌≡◌, ◌+◌, ◌*◌, ◌<◌, ◌≤ℤ◌, pos, negsuc, ◌+ℤ◌, ◌*ℤ◌, is_some, IfSome};
ghost use Rattle.jiff_core.specs.Date.{epoch_day};
ghost use Rattle.arti_rows.specs.Moments.{IsMoment};
ghost use Rattle.arti_time.specs.Civil.{IsCivil, is_date, moment_of};
ghost use Rattle.arti_time.specs.Civil as spec;

use arti_rows::Moment;
use jiff_core::civil::Date;

const DAY: i64 = 86_400_000;

/// A date and a time of day in UTC.
#[derive(Clone, Copy)]
pub struct Civil {
    pub year: u16,
    pub month: u8,
    pub day: u8,
    pub hour: u8,
    pub minute: u8,
    pub second: u8,
    pub millisecond: u16,
}

// The date, and the milliseconds since midnight.
fn day_and_time(moment: Moment) -> (Date, u32)
    ensures moment { epoch_day result.0 *ℤ pos 86400000 +ℤ pos result.1 ≡ moment }
    ensures time { result.1 < 86400000 }
    ensures range { IsMoment moment }
{
    let day = moment.ms().div_euclid(DAY);
    let time = moment.ms().rem_euclid(DAY) as u32;
    match Date::from_unix_epoch_day(day) {
        Ok(date) => (date, time),
        Err(_) => unreachable!(),
    }
}

fn year_of(date: Date) -> u16
    requires { pos 1 ≤ℤ date.year }
    ensures { pos result ≡ date.year }
{
    date.year as u16
}

/// The date and the time of day of a moment.
pub fn civil_at(moment: Moment) -> Civil
    ensures calendar { IsCivil result }
    ensures moment { moment_of result ≡ moment }
    ensures range { IsMoment moment }
{
    let (date, time) = day_and_time(moment);
    Civil {
        year: year_of(date),
        month: date.month,
        day: date.day,
        hour: (time / 3_600_000) as u8,
        minute: (time / 60_000 % 60) as u8,
        second: (time / 1_000 % 60) as u8,
        millisecond: (time % 1_000) as u16,
    }
}

/// The date, if the calendar has it.
pub fn calendar_date(year: u16, month: u8, day: u8) -> Option<Date>
    requires year { year < 10000 }
    requires month { month < 100 }
    requires day { day < 100 }
    ensures exists { is_some result ≡ is_date year month day }
    ensures value { IfSome result (λ date. (date.year ≡ pos year) × (date.month ≡ month) × (date.day ≡ day)) }
{
    if year == 0 {
        return None;
    }
    Date::new(year as i16, month as i8, day as i8).ok()
}

fn time_of_day(civil: Civil) -> u32
    requires { IsCivil civil }
    ensures value { result ≡ spec.time_of_day civil }
    ensures bound { result < 86400000 }
{
    let minutes = u32::from(civil.hour) * 60 + u32::from(civil.minute);
    (minutes * 60 + u32::from(civil.second)) * 1_000 + u32::from(civil.millisecond)
}

fn day_number(civil: Civil) -> i32
    requires { IsCivil civil }
    ensures value { result ≡ spec.day_number civil }
    ensures bound { (negsuc 719161 ≤ℤ result) × (result ≤ℤ pos 2932896) }
{
    match calendar_date(civil.year, civil.month, civil.day) {
        Some(date) => date.to_unix_epoch_day(),
        None => unreachable!(),
    }
}

/// The milliseconds since 1970 at that date and time in UTC.
pub fn milliseconds(civil: Civil) -> i64
    requires { IsCivil civil }
    ensures value { result ≡ moment_of civil }
    ensures range { IsMoment result }
{
    let time = i64::from(time_of_day(civil));
    day_number(civil) as i64 * DAY + time
}
