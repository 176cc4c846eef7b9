// Spans of time as texts.
ghost use Rattle.std.specs.Prelude.{◌≡◌, ◌<◌, ◌≤◌, ◌^◌, ℕ, length, slice_index, EachIndex, IfOk, IfSome, OnErr};
ghost use Rattle.std.specs.Result.{result_ok};
ghost use Rattle.std.specs.Char.{IsAsciiDigit};
ghost use Rattle.std.specs.Str.{bytes_eq};
ghost use Rattle.std.specs.Str.Parse.{digits_value};
ghost use Rattle.arti_time.specs.Spans.{units, unit_among, span_of, ReadsSpan};

use crate::front::digits_len;
use thiserror::Error;

/// The text is no span of time.
#[derive(Clone, Copy, Debug, Error)]
#[error("not a span of time")]
pub struct NotASpan;

fn is_name(name: &[u8], unit: &[u8]) -> bool
    ensures { result ≡ bytes_eq name.now unit.now }
{
    name == unit
}

// The milliseconds of the unit with the name, in the order of the table.
fn unit(name: &[u8]) -> Option<u64>
    ensures value { result ≡ unit_among units name.now }
    ensures bound { IfSome result (λ ms. ms ≤ 31536000000) }
{
    if is_name(name, b"ms") {
        Some(1)
    } else if is_name(name, b"mills") {
        Some(1)
    } else if is_name(name, b"s") {
        Some(1_000)
    } else if is_name(name, b"seconds") {
        Some(1_000)
    } else if is_name(name, b"minutes") {
        Some(60_000)
    } else if is_name(name, b"d") {
        Some(86_400_000)
    } else if is_name(name, b"days") {
        Some(86_400_000)
    } else if is_name(name, b"w") {
        Some(604_800_000)
    } else if is_name(name, b"weeks") {
        Some(604_800_000)
    } else if is_name(name, b"mo") {
        Some(2_592_000_000)
    } else if is_name(name, b"months") {
        Some(2_592_000_000)
    } else if is_name(name, b"y") {
        Some(31_536_000_000)
    } else if is_name(name, b"years") {
        Some(31_536_000_000)
    } else {
        None
    }
}

fn number(digits: &[u8]) -> u64
    requires digits { EachIndex digits.now (λ k. IsAsciiDigit (slice_index digits.now k)) }
    requires few { length digits.now ≤ 6 }
    ensures value { result ≡ digits_value 10 digits.now }
    ensures bound { result < 10 ^ 6 }
{
    let mut n = 0;
    for digit in digits {
        n = n * 10 + u64::from(*digit - b'0');
    }
    n
}

#[tactic(auto, unfolding(crate::specs::Spans::span_of))]
fn milliseconds(text: &[u8]) -> Option<u64>
    ensures { result ≡ span_of text.now }
{
    let len = digits_len(text);
    if len == 0 || len > 6 {
        return None;
    }
    let (digits, name) = text.split_at(len);
    let unit = unit(name)?;
    Some(number(digits) * unit)
}

/// The milliseconds of a span of time: one to six digits and a unit, which is `ms`, `mills`, `s`, `seconds`,
/// `minutes`, `d`, `days`, `w`, `weeks`, `mo` or `months` of 30 days each, `y` or `years` of 365.
pub fn read_span(text: &str) -> Result<u64, NotASpan>
    ensures value { result_ok result ≡ span_of text.now }
    ensures reads { IfOk result (ReadsSpan text.now) }
    ensures refuses { OnErr result ((n : ℕ) → ¬ (ReadsSpan text.now n)) }
{
    milliseconds(text.as_bytes()).ok_or(NotASpan)
}
