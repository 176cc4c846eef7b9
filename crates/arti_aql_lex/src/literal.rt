//! Texts in double quotes.
ghost use Rattle.std.specs.Prelude.{◌≡◌, ◌+◌, ◌-◌, ◌<◌, ◌≤◌, ◌^◌, length, drop, slice_index, IfOk};
ghost use Rattle.arti_aql_lex.specs.Escape as Escape;
ghost use Rattle.arti_aql_lex.specs.Literal.{escape_len, piece_len, literal_end};

use crate::escape::{Spoiled, escape_at};
use crate::token::LexFault;

// How many bytes the escape at the front has.
fn escape_len(rest: &[u8], opening: u32, place: u32) -> Result<usize, LexFault>
    ensures value { result ≡ escape_len opening place (Escape.escape_at rest.now) }
    ensures within { IfOk result (λ n. (0 < n) × (n ≤ length rest.now)) }
{
    match escape_at(rest) {
        Ok((_, len)) => Ok(len),
        Err(Spoiled::Cut) => Err(LexFault::OpenText(opening)),
        Err(Spoiled::Malformed) => Err(LexFault::BadEscape(place)),
    }
}

// The bytes from a place on.
pub fn bytes_from(bytes: &[u8], at: usize) -> &[u8]
    requires { at ≤ length bytes.now }
    ensures value { result.now ≡ drop at bytes.now }
    ensures len { length result.now + at ≡ length bytes.now }
{
    &bytes[at..]
}

// How many bytes the piece of a text at the front has.
#[tactic(auto, unfolding(crate::specs::Literal::piece_len))]
fn piece_len(rest: &[u8], opening: u32, place: u32) -> Result<usize, LexFault>
    requires { 0 < length rest.now }
    ensures value { result ≡ piece_len opening place rest.now }
    ensures within { IfOk result (λ n. (0 < n) × (n ≤ length rest.now)) }
{
    let byte = rest[0];
    if byte < 32 {
        return Err(LexFault::BadByte(place));
    }
    if byte == b'\\' {
        return escape_len(rest, opening, place);
    }
    Ok(1)
}

#[tactic(auto, using(crate::proofs::Literals::end_at_quote, crate::proofs::Literals::end_at_fault, crate::proofs::Literals::end_at_piece, crate::proofs::Literals::end_at_end))]
/// The place behind the closing quote of the text that opens at the front.
pub fn literal_end(rest: &[u8], opening: u32) -> Result<u32, LexFault>
    requires some { 0 < length rest.now }
    requires range { opening + length rest.now < 2 ^ 32 }
    ensures value { result ≡ literal_end opening (opening + 1) 0 (drop 1 rest.now) }
    ensures within { IfOk result (λ end. (opening + 1 < end) × (end ≤ opening + length rest.now)) }
{
    let mut at = 1;
    while at < rest.len() {
        let place = opening + at as u32;
        if rest[at] == b'"' {
            return Ok(place + 1);
        }
        at += piece_len(bytes_from(rest, at), opening, place)?;
    }
    Err(LexFault::OpenText(opening))
}
