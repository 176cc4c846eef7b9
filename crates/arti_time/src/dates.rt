// Dates as texts.
ghost use Rattle.std.specs.Prelude.{◌≡◌, ◌<◌, ◌≤◌, ◌-◌, ◌-ℤ◌, ◌*ℤ◌, ◌≤ℤ◌, ℤ, pos, neg_ℤ, length, slice_index, EachIndex, IfOk, IfSome, OnErr};
ghost use Rattle.std.specs.Result.{result_ok};
ghost use Rattle.std.specs.Char.{IsAsciiDigit};
ghost use Rattle.arti_time.specs.Civil.{IsCivil, moment_of};
ghost use Rattle.arti_time.specs.Dates.{milliseconds_of, ReadsDate};
ghost use Rattle.arti_time.specs.Front.{front_view};
ghost use Rattle.arti_time.specs.DateReader as spec;

use crate::civil::{self, Civil};
use crate::front::{after, digits_len, four_digits, two_digits};
use arti_rows::Moment;
use thiserror::Error;

/// The text is no date, or its date is no moment.
#[derive(Clone, Copy, Debug, Error)]
#[error("not a date")]
pub struct NotADate;

#[tactic(auto, unfolding(crate::specs::DateReader::midnight))]
fn midnight(year: u16, month: u8, day: u8) -> Option<Civil>
    requires year { year < 10000 }
    requires month { month < 100 }
    requires day { day < 100 }
    ensures value { result ≡ spec.midnight year month day }
    ensures calendar { IfSome result IsCivil }
{
    civil::calendar_date(year, month, day)?;
    Some(Civil {
        year,
        month,
        day,
        hour: 0,
        minute: 0,
        second: 0,
        millisecond: 0,
    })
}

// A date at the front, as its midnight.
#[tactic(auto, unfolding(crate::specs::DateReader::date_front))]
fn date(text: &[u8]) -> Option<(Civil, &[u8])>
    ensures value { front_view result ≡ spec.date_front text.now }
    ensures calendar { IfSome result (λ p. IsCivil p.0) }
{
    let (year, text) = four_digits(text)?;
    let text = after(b'-', text)?;
    let (month, text) = two_digits(text)?;
    let text = after(b'-', text)?;
    let (day, text) = two_digits(text)?;
    let civil = midnight(year, month, day)?;
    Some((civil, text))
}

fn digit(digits: &[u8], place: usize) -> u16
    requires { EachIndex digits.now (λ k. IsAsciiDigit (slice_index digits.now k)) }
    ensures value { result ≡ slice_index digits.now place - 48 }
    ensures bound { result < 10 }
{
    match digits.get(place) {
        Some(digit) => u16::from(*digit - b'0'),
        None => 0,
    }
}

// Digits after the third are dropped.
fn milliseconds(digits: &[u8]) -> u16
    requires { EachIndex digits.now (λ k. IsAsciiDigit (slice_index digits.now k)) }
    ensures value { result ≡ milliseconds_of digits.now }
    ensures bound { result < 1000 }
{
    digit(digits, 0) * 100 + digit(digits, 1) * 10 + digit(digits, 2)
}

// A fraction of a second at the front, if there is one.
#[tactic(auto, unfolding(crate::specs::DateReader::fraction_front))]
fn fraction(text: &[u8]) -> Option<(u16, &[u8])>
    ensures value { front_view result ≡ spec.fraction_front text.now }
    ensures bound { IfSome result (λ p. p.0 < 1000) }
{
    match text {
        [b'.', rest @ ..] => {
            let len = digits_len(rest);
            if len == 0 || len > 9 {
                return None;
            }
            let (digits, rest) = rest.split_at(len);
            Some((milliseconds(digits), rest))
        }
        _ => Some((0, text)),
    }
}

#[tactic(auto, unfolding(crate::specs::DateReader::at_time))]
fn at_time(civil: Civil, hour: u8, minute: u8, second: u8, millisecond: u16) -> Option<Civil>
    requires calendar { IsCivil civil }
    requires millisecond { millisecond < 1000 }
    ensures value { result ≡ spec.at_time civil hour minute second millisecond }
    ensures calendar { IfSome result IsCivil }
{
    if hour > 23 || minute > 59 || second > 59 {
        return None;
    }
    Some(Civil {
        hour,
        minute,
        second,
        millisecond,
        ..civil
    })
}

// A time at the front, on the day of the date.
#[tactic(auto, unfolding(crate::specs::DateReader::time_front))]
fn time(civil: Civil, text: &[u8]) -> Option<(Civil, &[u8])>
    requires { IsCivil civil }
    ensures value { front_view result ≡ spec.time_front civil text.now }
    ensures calendar { IfSome result (λ p. IsCivil p.0) }
{
    let (hour, text) = two_digits(text)?;
    let text = after(b':', text)?;
    let (minute, text) = two_digits(text)?;
    let text = after(b':', text)?;
    let (second, text) = two_digits(text)?;
    let (millisecond, text) = fraction(text)?;
    let civil = at_time(civil, hour, minute, second, millisecond)?;
    Some((civil, text))
}

#[tactic(auto, unfolding(crate::specs::DateReader::skip_colon))]
fn skip_colon(text: &[u8]) -> &[u8]
    ensures { result.now ≡ spec.skip_colon text.now }
{
    match text {
        [b':', rest @ ..] => rest,
        _ => text,
    }
}

// Hours and minutes as minutes, where nothing follows.
#[tactic(auto, unfolding(crate::specs::DateReader::whole_offset))]
fn whole_offset(hours: u8, minutes: u8, rest: &[u8]) -> Option<u16>
    ensures value { result ≡ spec.whole_offset hours minutes rest.now }
    ensures bound { IfSome result (λ minutes. minutes < 1440) }
{
    if hours > 23 || minutes > 59 || !rest.is_empty() {
        return None;
    }
    Some(u16::from(hours) * 60 + u16::from(minutes))
}

#[tactic(auto, unfolding(crate::specs::DateReader::offset_minutes))]
fn offset_minutes(text: &[u8]) -> Option<u16>
    ensures value { result ≡ spec.offset_minutes text.now }
    ensures bound { IfSome result (λ minutes. minutes < 1440) }
{
    let (hours, text) = two_digits(text)?;
    let (minutes, text) = two_digits(skip_colon(text))?;
    whole_offset(hours, minutes, text)
}

// How far east of UTC the zone is, in minutes.
#[tactic(auto, unfolding(crate::specs::DateReader::zone_east, crate::specs::DateReader::only_zulu))]
fn zone_east(text: &[u8]) -> Option<i32>
    ensures value { result ≡ spec.zone_east text.now }
    ensures bound { IfSome result (λ east. (neg_ℤ (pos 1440) ≤ℤ east) × (east ≤ℤ pos 1440)) }
{
    match text {
        [] | [b'Z'] => Some(0),
        [b'+', rest @ ..] => {
            let minutes = offset_minutes(rest)?;
            Some(i32::from(minutes))
        }
        [b'-', rest @ ..] => {
            let minutes = offset_minutes(rest)?;
            Some(-i32::from(minutes))
        }
        _ => None,
    }
}

// A time and a zone, on the day of the date.
#[tactic(auto, unfolding(crate::specs::DateReader::clock_and_zone))]
fn clock_and_zone(civil: Civil, text: &[u8]) -> Option<(Civil, i32)>
    requires { IsCivil civil }
    ensures value { result ≡ spec.clock_and_zone civil text.now }
    ensures calendar { IfSome result (λ p. IsCivil p.0) }
    ensures bound { IfSome result (λ p. (neg_ℤ (pos 1440) ≤ℤ p.1) × (p.1 ≤ℤ pos 1440)) }
{
    let (civil, rest) = time(civil, text)?;
    let east = zone_east(rest)?;
    Some((civil, east))
}

// What follows a date: nothing, or a time and a zone.
#[tactic(auto, unfolding(crate::specs::DateReader::time_and_zone))]
fn time_and_zone(civil: Civil, text: &[u8]) -> Option<(Civil, i32)>
    requires { IsCivil civil }
    ensures value { result ≡ spec.time_and_zone civil text.now }
    ensures calendar { IfSome result (λ p. IsCivil p.0) }
    ensures bound { IfSome result (λ p. (neg_ℤ (pos 1440) ≤ℤ p.1) × (p.1 ≤ℤ pos 1440)) }
{
    match text {
        [] => Some((civil, 0)),
        [b'T', rest @ ..] => clock_and_zone(civil, rest),
        _ => None,
    }
}

fn in_range(ms: i64) -> Option<Moment>
    ensures { result ≡ spec.moment_at ms }
{
    Moment::new(ms)
}

// The milliseconds since 1970 at which that is the date and the time so many minutes east of UTC.
fn in_utc(civil: Civil, east: i32) -> i64
    requires calendar { IsCivil civil }
    requires east { (neg_ℤ (pos 1440) ≤ℤ east) × (east ≤ℤ pos 1440) }
    ensures { result ≡ moment_of civil -ℤ (east *ℤ pos 60000) }
{
    civil::milliseconds(civil) - east as i64 * 60_000
}

#[tactic(auto, unfolding(crate::specs::DateReader::date_of))]
fn date_of(text: &[u8]) -> Option<Moment>
    ensures { result ≡ spec.date_of text.now }
{
    let (civil, rest) = date(text)?;
    let (civil, east) = time_and_zone(civil, rest)?;
    in_range(in_utc(civil, east))
}

/// The moment that a date names: `YYYY-MM-DD`, which is its midnight, or that with `THH:MM:SS`, then optionally `.`
/// and one to nine digits, of which those after the third are dropped, then optionally `Z`, `+HH:MM`, `-HH:MM`,
/// `+HHMM` or `-HHMM`. Without a zone it is UTC.
pub fn read_date(text: &str) -> Result<Moment, NotADate>
    ensures value { result_ok result ≡ spec.date_of text.now }
    ensures reads { IfOk result (ReadsDate text.now) }
    ensures refuses { OnErr result ((m : ℤ) → ¬ (ReadsDate text.now m)) }
{
    date_of(text.as_bytes()).ok_or(NotADate)
}
