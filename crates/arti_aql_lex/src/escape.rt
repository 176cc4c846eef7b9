//! The escapes of RFC 8259, section 7.
ghost use Rattle.std.specs.Prelude.{◌≡◌, ◌+◌, ◌-◌, ◌<◌, ◌≤◌, ◌^◌, length, slice_index, IfOk, IfSome};
ghost use Rattle.arti_aql_lex.specs.Escape.{hex_digit, hex_at, unit_at, byte_at, short_escape, pair_at, unicode_at, escape_at};

/// Why a backslash begins no escape.
#[derive(Drop)]
pub enum Spoiled {
    /// The text ends before the escape does.
    Cut,
    /// A byte stands there that no escape has.
    Malformed,
}

fn hex_digit(c: u8) -> Result<u32, Spoiled>
    ensures value { result ≡ hex_digit c }
    ensures small { IfOk result (λ d. d < 16) }
    ensures ascii { IfOk result (λ d. c < 128) }
{
    match c {
        b'0'..=b'9' => Ok((c - b'0') as u32),
        b'A'..=b'F' => Ok((c - b'A') as u32 + 10),
        b'a'..=b'f' => Ok((c - b'a') as u32 + 10),
        _ => Err(Spoiled::Malformed),
    }
}

// The digit that stands so many bytes behind the backslash.
#[tactic(auto, unfolding(crate::specs::Escape::hex_at))]
fn hex_at(rest: &[u8], at: usize) -> Result<u32, Spoiled>
    ensures value { result ≡ hex_at rest.now at }
    ensures small { IfOk result (λ d. d < 16) }
    ensures within { IfOk result (λ d. at < length rest.now) }
    ensures ascii { IfOk result (λ d. slice_index rest.now at < 128) }
{
    if at < rest.len() {
        hex_digit(rest[at])
    } else {
        Err(Spoiled::Cut)
    }
}

// The code unit of four hex digits.
#[tactic(auto, unfolding(crate::specs::Escape::unit_at))]
fn unit_at(rest: &[u8], at: usize) -> Result<u32, Spoiled>
    requires { at < 16 }
    ensures value { result ≡ unit_at rest.now at }
    ensures small { IfOk result (λ u. u < 65536) }
    ensures within { IfOk result (λ u. at + 3 < length rest.now) }
    ensures ascii { IfOk result (λ u. slice_index rest.now (at + 3) < 128) }
{
    let a = hex_at(rest, at)?;
    let b = hex_at(rest, at + 1)?;
    let c = hex_at(rest, at + 2)?;
    let d = hex_at(rest, at + 3)?;
    Ok(a * 4096 + b * 256 + c * 16 + d)
}

#[tactic(auto, unfolding(crate::specs::Escape::byte_at))]
fn byte_at(rest: &[u8], at: usize, byte: u8) -> Result<(), Spoiled>
    ensures { result ≡ byte_at rest.now at byte }
{
    if at < rest.len() {
        if rest[at] == byte {
            Ok(())
        } else {
            Err(Spoiled::Malformed)
        }
    } else {
        Err(Spoiled::Cut)
    }
}

#[tactic(auto, unfolding(crate::specs::Escape::short_escape))]
fn short_escape(c: u8) -> Option<u8>
    ensures value { result ≡ short_escape c }
    ensures ascii { IfSome result (λ x. (x < 128) × (c < 128)) }
{
    match c {
        b'"' | b'\\' | b'/' => Some(c),
        b'b' => Some(8),
        b'f' => Some(12),
        b'n' => Some(10),
        b'r' => Some(13),
        b't' => Some(9),
        _ => None,
    }
}

// The second half of a surrogate pair, and the character of both.
#[tactic(auto, unfolding(crate::specs::Escape::pair_at))]
fn pair_at(rest: &[u8], high: u32) -> Result<(char, usize), Spoiled>
    requires low_end { 0xd800 ≤ high }
    requires high_end { high < 0xdc00 }
    ensures value { result ≡ pair_at rest.now high }
    ensures within { IfOk result (λ e. (2 ≤ e.1) × (e.1 ≤ length rest.now)) }
    ensures ascii { IfOk result (λ e. slice_index rest.now (e.1 - 1) < 128) }
{
    byte_at(rest, 6, b'\\')?;
    byte_at(rest, 7, b'u')?;
    let low = unit_at(rest, 8)?;
    if low < 0xdc00 || low >= 0xe000 {
        return Err(Spoiled::Malformed);
    }
    match char::from_u32(0x10000 + (high - 0xd800) * 1024 + (low - 0xdc00)) {
        Some(c) => Ok((c, 12)),
        None => unreachable!(),
    }
}

#[tactic(auto, unfolding(crate::specs::Escape::unicode_at))]
fn unicode_at(rest: &[u8]) -> Result<(char, usize), Spoiled>
    ensures value { result ≡ unicode_at rest.now }
    ensures within { IfOk result (λ e. (2 ≤ e.1) × (e.1 ≤ length rest.now)) }
    ensures ascii { IfOk result (λ e. slice_index rest.now (e.1 - 1) < 128) }
{
    let unit = unit_at(rest, 2)?;
    if 0xd800 <= unit && unit < 0xdc00 {
        return pair_at(rest, unit);
    }
    match char::from_u32(unit) {
        Some(c) => Ok((c, 6)),
        None => Err(Spoiled::Malformed),
    }
}

/// The character that the escape at the front stands for, and how many bytes the escape has.
#[tactic(auto, unfolding(crate::specs::Escape::escape_at))]
pub fn escape_at(rest: &[u8]) -> Result<(char, usize), Spoiled>
    ensures value { result ≡ escape_at rest.now }
    ensures within { IfOk result (λ e. (2 ≤ e.1) × (e.1 ≤ length rest.now)) }
    ensures ascii { IfOk result (λ e. slice_index rest.now (e.1 - 1) < 128) }
{
    if rest.len() < 2 {
        return Err(Spoiled::Cut);
    }
    let c = rest[1];
    if c == b'u' {
        return unicode_at(rest);
    }
    match short_escape(c) {
        Some(x) => Ok((x as char, 2)),
        None => Err(Spoiled::Malformed),
    }
}
