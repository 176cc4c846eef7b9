// The pieces of a text, read from its front.
ghost use Rattle.std.specs.Prelude.{◌≡◌, ◌<◌, ◌≤◌, length, slice_index, IfSome, ℕ};
ghost use Rattle.std.specs.Char.{is_ascii_digit, IsAsciiDigit};
ghost use Rattle.std.specs.List.{prefix_len};
ghost use Rattle.arti_time.specs.Front as spec;

/// Two digits at the front, and what follows.
#[tactic(auto, unfolding(crate::specs::Front::two_digits))]
pub fn two_digits(text: &[u8]) -> Option<(u8, &[u8])>
    ensures value { spec.front_view result ≡ spec.two_digits text.now }
    ensures bound { IfSome result (λ p. p.0 < 100) }
{
    match text {
        [high @ b'0'..=b'9', low @ b'0'..=b'9', rest @ ..] => {
            Some(((*high - b'0') * 10 + (*low - b'0'), rest))
        }
        _ => None,
    }
}

/// Four digits at the front, and what follows.
#[tactic(auto, unfolding(crate::specs::Front::four_digits))]
pub fn four_digits(text: &[u8]) -> Option<(u16, &[u8])>
    ensures value { spec.front_view result ≡ spec.four_digits text.now }
    ensures bound { IfSome result (λ p. p.0 < 10000) }
{
    let (century, text) = two_digits(text)?;
    let (year, text) = two_digits(text)?;
    Some((u16::from(century) * 100 + u16::from(year), text))
}

/// What follows this byte.
#[tactic(auto, unfolding(crate::specs::Front::after))]
pub fn after(byte: u8, text: &[u8]) -> Option<&[u8]>
    ensures { spec.rest_view result ≡ spec.after byte text.now }
{
    match text {
        [first, rest @ ..] if *first == byte => Some(rest),
        _ => None,
    }
}

/// How many digits stand at the front.
pub fn digits_len(text: &[u8]) -> usize
    ensures len { result ≡ prefix_len is_ascii_digit text.now }
    ensures within { result ≤ length text.now }
    ensures digits { (k : ℕ) → k < result → IsAsciiDigit (slice_index text.now k) }
{
    let mut len = 0;
    while len < text.len() && text[len].is_ascii_digit() {
        len += 1;
    }
    len
}
