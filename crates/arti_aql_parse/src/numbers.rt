//! The numbers that tokens write.
ghost use Rattle.std.specs.Prelude.{◌≡◌, ◌≤◌, ◌<◌, ◌^◌, ℕ, true, length, drop, slice_index, if◌then◌else◌};
ghost use Rattle.std.specs.Char.{is_ascii_digit};
ghost use Rattle.arti_aql_lex.specs.Tokens.{IsNumber};
ghost use Rattle.arti_aql_parse.specs.Words.{digits_value, is_negative, number_of, natural_of};

fn digits_value(digits: &[u8]) -> u64
    requires few { length digits.now ≤ 18 }
    requires each { (i : ℕ) → i < length digits.now → is_ascii_digit (slice_index digits.now i) ≡ true }
    ensures value { result ≡ digits_value digits.now }
    ensures small { result < 10 ^ 18 }
{
    let mut value = 0;
    for digit in digits {
        value = value * 10 + u64::from(*digit - b'0');
    }
    value
}

// Whether a number begins with a minus, and the value of its digits.
fn parts(text: &str) -> (bool, u64)
    requires { IsNumber text.now }
    ensures sign { result.0 ≡ is_negative text.now }
    ensures value { result.1 ≡ digits_value (if is_negative text.now then drop 1 text.now else text.now) }
    ensures small { result.1 < 10 ^ 18 }
{
    let bytes = text.as_bytes();
    if bytes[0] == b'-' {
        let (_, digits) = bytes.split_at(1);
        (true, digits_value(digits))
    } else {
        (false, digits_value(bytes))
    }
}

/// The number that a token writes.
#[tactic(auto, unfolding(crate::specs::Words::number_of))]
pub fn number_of(text: &str) -> i64
    requires { IsNumber text.now }
    ensures { result ≡ number_of text.now }
{
    let (negative, value) = parts(text);
    if negative {
        -(value as i64)
    } else {
        value as i64
    }
}

/// The same, where it isn't negative.
#[tactic(auto, unfolding(crate::specs::Words::natural_of))]
pub fn natural_of(text: &str) -> Option<u64>
    requires { IsNumber text.now }
    ensures { result ≡ natural_of text.now }
{
    let (negative, value) = parts(text);
    if negative && value > 0 {
        None
    } else {
        Some(value)
    }
}
