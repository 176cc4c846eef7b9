//! The one form of query that asks for the items of a repository.
ghost use Rattle.std.specs.Prelude.{◌≡◌, ◌≢◌, ◌+◌, ◌≤◌, ◌<◌, ℕ, List, true, false, length, take, drop, slice_index, IfOk, IfErr, MatchResult};
ghost use Rattle.arti_aql_parse.specs.Thin.{is_key_byte, AsksFor, LeavesForm, ThinFaultIs, AnswersKey};

use arti_rows::Text;
use std::alloc::{AllocError, Global};
use std::str;
use thiserror::Error;

/// What stands before the key.
pub const BEFORE_KEY: [u8; 20] = *b"items.find({\"repo\":\"";
/// What stands behind the key.
pub const AFTER_KEY: [u8; 3] = *b"\"})";

/// Why a body doesn't ask for the items of a repository.
#[derive(Clone, Copy, Debug, Error)]
pub enum ThinFault {
    /// It has another form. Up to this byte offset it might have become one of the form.
    #[error("the query leaves the one form at {0}")]
    NotYet(u32),
    #[error("out of memory")]
    Memory,
}

impl From<AllocError> for ThinFault {
    ghost use Rattle.std.specs.Prelude.{◌≡◌};
    ghost use Rattle.arti_aql_parse.specs.declared.thin.ThinFault.TheVariants.{Memory};

    ghost from_gives = { λ _ e. e ≡ Memory };

    fn from(_e: AllocError) -> ThinFault {
        ThinFault::Memory
    }
}

fn is_key_byte(byte: u8) -> bool
    ensures { result ≡ is_key_byte byte }
{
    byte.is_ascii_alphabetic()
        || byte.is_ascii_digit()
        || byte == b'-'
        || byte == b'_'
        || byte == b'.'
}

// How many bytes two rows have in common at their fronts.
fn common_len(a: &[u8], b: &[u8]) -> usize
    ensures in_a { result ≤ length a.now }
    ensures in_b { result ≤ length b.now }
    ensures same { (i : ℕ) → i < result → slice_index a.now i ≡ slice_index b.now i }
    ensures differs { result < length a.now → result < length b.now → slice_index a.now result ≢ slice_index b.now result }
{
    let mut len = 0;
    while len < a.len() && len < b.len() && a[len] == b[len] {
        len += 1;
    }
    len
}

// How many bytes of a key stand at the front, 64 at most.
fn key_len(rest: &[u8]) -> usize
    ensures within { result ≤ length rest.now }
    ensures few { result ≤ 64 }
    ensures each { (i : ℕ) → i < result → is_key_byte (slice_index rest.now i) ≡ true }
    ensures stops { result < length rest.now → result < 64 → is_key_byte (slice_index rest.now result) ≡ false }
{
    let mut len = 0;
    while len < rest.len() && len < 64 && is_key_byte(rest[len]) {
        len += 1;
    }
    len
}

// The key of a body of the form.
fn key_of(body: &[u8]) -> Result<&[u8], u32>
    ensures found { IfOk result (λ key. AsksFor body.now key.now) }
    ensures not_yet { IfErr result (λ at. LeavesForm body.now at) }
{
    let lead = common_len(body, &BEFORE_KEY);
    if lead < BEFORE_KEY.len() {
        return Err(lead as u32);
    }
    let (_, rest) = body.split_at(BEFORE_KEY.len());
    let len = key_len(rest);
    if len == 0 {
        return Err(BEFORE_KEY.len() as u32);
    }
    let (key, tail) = rest.split_at(len);
    let close = common_len(tail, &AFTER_KEY);
    if close < AFTER_KEY.len() || close < tail.len() {
        return Err((BEFORE_KEY.len() + len + close) as u32);
    }
    Ok(key)
}

/// The key in a body `items.find({"repo":"KEY"})` without spaces.
pub fn thin_parse(alloc: Global, body: &[u8]) -> Result<Text, ThinFault>
    // A key comes from a body of the form.
    ensures found { IfOk result (λ key. AsksFor body.now key) }
    // A body of the form gives its key, unless memory runs out.
    ensures only { (key : List ℕ) → AsksFor body.now key → AnswersKey key result }
    // Any other says how far it goes along with the form.
    ensures not_yet { IfErr result (λ fault. ThinFaultIs body.now fault) }
{
    match key_of(body) {
        Err(at) => Err(ThinFault::NotYet(at)),
        Ok(key) => match str::from_utf8(key) {
            Ok(text) => Ok(Text::from_str(alloc, text)?),
            Err(_) => unreachable!(),
        },
    }
}
