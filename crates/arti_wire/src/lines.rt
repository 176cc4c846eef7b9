// The first empty line of a head.
ghost use Rattle.std.specs.Prelude.{◌≡◌, ◌≢◌, ℕ, ◌≤◌, List, length, drop, All, IfSome, IfNone, IsSome, None};
ghost use Rattle.arti_model.specs.Requests.{starts_line_end, lines_before_empty};
ghost use Rattle.arti_wire.specs.Lines.{StartsSo, IsBehindLine, Follows, SameSearch};

use memchr::memchr;

/// What bytes begin with.
#[derive(Clone, Copy)]
pub enum FrontByte {
    Nothing,
    /// CR or LF.
    LineByte,
    /// Any other byte.
    Byte,
}

/// What the bytes begin with.
pub fn front(bytes: &[u8]) -> FrontByte
    ensures { StartsSo bytes.now result }
{
    match bytes {
        [] => FrontByte::Nothing,
        [b'\r' | b'\n', ..] => FrontByte::LineByte,
        _ => FrontByte::Byte,
    }
}

// Whether a line ends directly at the front.
fn begins_line_end(bytes: &[u8]) -> bool
    ensures { result ≡ starts_line_end bytes.now }
{
    matches!(bytes, [b'\n', ..] | [b'\r', b'\n', ..])
}

// The bytes behind the first LF.
fn behind_line(bytes: &[u8]) -> Option<&[u8]>
    ensures some { IfSome result (λ rest. IsBehindLine bytes.now rest.now) }
    ensures none { IfNone result (All (λ b. b ≢ 10) bytes.now) }
{
    let k = memchr(b'\n', bytes)?;
    Some(&bytes[k + 1..])
}

/// How many lines stand before the first empty line.
pub fn lines_to_empty(bytes: &[u8]) -> Option<usize>
    ensures { result ≡ lines_before_empty bytes.now }
{
    let mut rest = bytes;
    let mut lines = 0;
    while let Some(after) = behind_line(rest) {
        lines += 1;
        if begins_line_end(after) {
            return Some(lines);
        }
        rest = after;
    }
    None
}

// What stands directly behind an LF.
#[derive(Clone, Copy)]
enum Follower {
    /// An empty line.
    EmptyLine,
    /// Bytes that may become an empty line, or not.
    Open,
    Other,
}

fn what_follows(bytes: &[u8]) -> Follower
    ensures { Follows bytes.now result }
{
    match bytes {
        [b'\n', ..] | [b'\r', b'\n', ..] => Follower::EmptyLine,
        [] | [b'\r'] => Follower::Open,
        _ => Follower::Other,
    }
}

/// Looks for an empty line from a place on. Where there is none yet, it gives the place from which to go on
/// when more bytes have come.
pub fn search_on(bytes: &[u8], from: usize) -> Option<usize>
    requires { from ≤ length bytes.now }
    ensures found { IfNone result (IsSome (lines_before_empty (drop from bytes.now))) }
    ensures absent { IfSome result (λ to. lines_before_empty (drop from bytes.now) ≡ None) }
    ensures place { IfSome result (λ to. to ≤ length bytes.now) }
    ensures on { IfSome result (λ to. SameSearch (drop from bytes.now) (drop to bytes.now)) }
{
    let mut rest = &bytes[from..];
    while let Some(after) = behind_line(rest) {
        match what_follows(after) {
            Follower::EmptyLine => return None,
            Follower::Open => return Some(bytes.len() - after.len() - 1),
            Follower::Other => rest = after,
        }
    }
    Some(bytes.len())
}
