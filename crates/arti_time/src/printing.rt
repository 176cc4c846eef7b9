// The text of a moment.
ghost use Rattle.std.specs.Prelude.{◌≡◌, ◌<◌, [], ◌∷◌, ◌++◌, IfOk, OnOk, string_bytes, codes};
ghost use Rattle.arti_time.specs.Printed.{digits, written_date, written_time, written, printed};

use crate::civil::{self, Civil};
use arti_rows::{Moment, Text};
use std::alloc::{AllocError, Global};

fn push_digit(out: &mut String, n: u16) -> Result<(), AllocError>
    ensures { OnOk result (string_bytes out.new ≡ string_bytes out.old ++ digits 1 n) }
{
    out.push(char::from(b'0' + (n % 10) as u8))
}

fn push_two(out: &mut String, n: u16) -> Result<(), AllocError>
    ensures { OnOk result (string_bytes out.new ≡ string_bytes out.old ++ digits 2 n) }
{
    push_digit(out, n / 10)?;
    push_digit(out, n)
}

fn push_date(out: &mut String, year: u16, month: u8, day: u8) -> Result<(), AllocError>
    ensures { OnOk result (string_bytes out.new ≡ string_bytes out.old ++ written_date year month day) }
{
    push_two(out, year / 100)?;
    push_two(out, year)?;
    out.push('-')?;
    push_two(out, u16::from(month))?;
    out.push('-')?;
    push_two(out, u16::from(day))
}

fn push_minute(out: &mut String, hour: u8, minute: u8) -> Result<(), AllocError>
    ensures { OnOk result (string_bytes out.new ≡ string_bytes out.old ++ (digits 2 hour ++ codes ":" ++ digits 2 minute ++ codes ":")) }
{
    push_two(out, u16::from(hour))?;
    out.push(':')?;
    push_two(out, u16::from(minute))?;
    out.push(':')
}

fn push_second(out: &mut String, second: u8, millisecond: u16) -> Result<(), AllocError>
    ensures { OnOk result (string_bytes out.new ≡ string_bytes out.old ++ (digits 2 second ++ codes "." ++ digits 3 millisecond)) }
{
    push_two(out, u16::from(second))?;
    out.push('.')?;
    push_two(out, millisecond / 10)?;
    push_digit(out, millisecond)
}

fn push_time(
    out: &mut String,
    hour: u8,
    minute: u8,
    second: u8,
    millisecond: u16,
) -> Result<(), AllocError>
    ensures { OnOk result (string_bytes out.new ≡ string_bytes out.old ++ written_time hour minute second millisecond) }
{
    push_minute(out, hour, minute)?;
    push_second(out, second, millisecond)
}

fn push_mark(out: &mut String, mark: char) -> Result<(), AllocError>
    requires { mark < 128 }
    ensures { OnOk result (string_bytes out.new ≡ string_bytes out.old ++ mark ∷ []) }
{
    out.push(mark)
}

fn push_civil(out: &mut String, civil: Civil) -> Result<(), AllocError>
    ensures { OnOk result (string_bytes out.new ≡ string_bytes out.old ++ written civil) }
{
    push_date(out, civil.year, civil.month, civil.day)?;
    push_mark(out, 'T')?;
    push_time(
        out,
        civil.hour,
        civil.minute,
        civil.second,
        civil.millisecond,
    )?;
    push_mark(out, 'Z')
}

/// Appends the text of the moment: its date and time in UTC, as `YYYY-MM-DDTHH:MM:SS.mmmZ`.
/// After an error some of it may stand there.
pub fn append(out: &mut String, moment: Moment) -> Result<(), AllocError>
    ensures { OnOk result (string_bytes out.new ≡ string_bytes out.old ++ printed moment) }
{
    push_civil(out, civil::civil_at(moment))
}

/// The text of the moment: its date and time in UTC, as `YYYY-MM-DDTHH:MM:SS.mmmZ`.
pub fn print(alloc: Global, moment: Moment) -> Result<Text, AllocError>
    ensures { IfOk result (λ text. text ≡ printed moment) }
{
    let mut out = String::with_capacity(alloc, 24)?;
    append(&mut out, moment)?;
    Text::from_str(alloc, &out)
}
