//! A text, read token by token.
ghost use Rattle.std.specs.Prelude.{◌≡◌, ◌≤◌, ◌<◌, ◌+◌, ◌^◌, false, true, length, drop, ◌++◌, IfOk, IfErr, IfSome, OnOk, OnErr, IsUtf8};
ghost use Rattle.std.specs.Char.{is_ascii_digit};
ghost use Rattle.std.specs.List.{prefix_len};
ghost use Rattle.arti_aql_lex.specs.Tokens.{is_blank, is_name_start, is_name_byte, mark_of, number_end, token_at, is_end, is_words, text_of, HasToken, is_number, IsNumber};
ghost use Rattle.arti_aql_lex.specs.Lexed.{lexed, ahead, fault, before, Takes};

use crate::literal::{bytes_from, literal_end};
use crate::token::{LexFault, Token, TokenKind};
use crate::value::append_literal;
use std::alloc::AllocError;
use std::marker::Model;

fn is_blank(byte: u8) -> bool
    ensures { result ≡ is_blank byte }
{
    byte == b' ' || byte == b'\t' || byte == b'\r' || byte == b'\n'
}

fn is_name_start(byte: u8) -> bool
    ensures { result ≡ is_name_start byte }
{
    byte.is_ascii_alphabetic() || byte == b'_'
}

fn is_name_byte(byte: u8) -> bool
    ensures { result ≡ is_name_byte byte }
{
    is_name_start(byte) || byte.is_ascii_digit()
}

#[tactic(auto, unfolding(crate::specs::Tokens::mark_of))]
fn mark_of(byte: u8) -> Option<TokenKind>
    ensures value { result ≡ mark_of byte }
    ensures no_end { IfSome result (λ kind. is_end kind ≡ false) }
{
    match byte {
        b'.' => Some(TokenKind::Dot),
        b'(' => Some(TokenKind::Open),
        b')' => Some(TokenKind::Close),
        b'{' => Some(TokenKind::ObjectOpen),
        b'}' => Some(TokenKind::ObjectClose),
        b'[' => Some(TokenKind::ListOpen),
        b']' => Some(TokenKind::ListClose),
        b':' => Some(TokenKind::Colon),
        b',' => Some(TokenKind::Comma),
        _ => None,
    }
}

// How many blanks stand at the front.
fn blanks_len(rest: &[u8]) -> usize
    ensures value { result ≡ prefix_len is_blank rest.now }
    ensures within { result ≤ length rest.now }
{
    let mut len = 0;
    while len < rest.len() && is_blank(rest[len]) {
        len += 1;
    }
    len
}

// How many bytes of a name stand at the front.
fn name_len(rest: &[u8]) -> usize
    ensures value { result ≡ prefix_len is_name_byte rest.now }
    ensures within { result ≤ length rest.now }
{
    let mut len = 0;
    while len < rest.len() && is_name_byte(rest[len]) {
        len += 1;
    }
    len
}

// How many digits stand at the front.
fn digits_len(rest: &[u8]) -> usize
    ensures value { result ≡ prefix_len is_ascii_digit rest.now }
    ensures within { result ≤ length rest.now }
{
    let mut len = 0;
    while len < rest.len() && rest[len].is_ascii_digit() {
        len += 1;
    }
    len
}

// The place behind the number at the front.
#[tactic(auto, unfolding(crate::specs::Tokens::number_end))]
fn number_end(rest: &[u8], place: u32) -> Result<u32, LexFault>
    requires some { 0 < length rest.now }
    requires range { place + length rest.now < 2 ^ 32 }
    ensures value { result ≡ number_end place rest.now }
    ensures within { IfOk result (λ end. (place < end) × (end ≤ place + length rest.now)) }
{
    let sign = if rest[0] == b'-' { 1 } else { 0 };
    let digits = digits_len(bytes_from(rest, sign));
    let first = place + sign as u32;
    if digits == 0 {
        return Err(LexFault::BadByte(place));
    }
    if rest[sign] == b'0' && 1 < digits {
        return Err(LexFault::BadByte(first));
    }
    if 18 < digits {
        return Err(LexFault::BadByte(first + 18));
    }
    Ok(first + digits as u32)
}

// The token at the front, or the end where there is nothing.
#[tactic(auto, unfolding(crate::specs::Tokens::token_at))]
fn token_at(rest: &[u8], start: u32) -> Result<Token, LexFault>
    requires { start + length rest.now < 2 ^ 32 }
    ensures value { result ≡ token_at start rest.now }
    ensures within { IfOk result (λ t. (t.start ≡ start) × (t.start ≤ t.end) × (t.end ≤ start + length rest.now)) }
    ensures err { IfErr result (λ f. 0 < length rest.now) }
    ensures end { length rest.now ≡ 0 → IfOk result (λ t. is_end t.kind ≡ true) }
    ensures some { 0 < length rest.now → IfOk result (λ t. (is_end t.kind ≡ false) × (start < t.end)) }
{
    if rest.is_empty() {
        return Ok(Token {
            kind: TokenKind::End,
            start,
            end: start,
        });
    }
    let byte = rest[0];
    let (kind, end) = if is_name_start(byte) {
        (TokenKind::Name, start + name_len(rest) as u32)
    } else if byte.is_ascii_digit() || byte == b'-' {
        (TokenKind::Number, number_end(rest, start)?)
    } else if byte == b'"' {
        (TokenKind::Words, literal_end(rest, start)?)
    } else {
        match mark_of(byte) {
            Some(kind) => (kind, start + 1),
            None => return Err(LexFault::BadByte(start)),
        }
    };
    Ok(Token { kind, start, end })
}

// Appends what a text in quotes stands for, or nothing.
fn append_words(text: &str, token: Token, out: &mut Vec<u8>) -> Result<(), AllocError>
    requires token { HasToken text.now token }
    requires words { is_words token.kind ≡ true }
    ensures ok { OnOk result (out.new.items ≡ out.old.items ++ text_of text.now token) }
    ensures utf8 { OnOk result (IsUtf8 (text_of text.now token)) }
    ensures err { OnErr result (out.new.items ≡ out.old.items) }
{
    let len = out.len();
    let appended = append_literal(text, token.start as usize + 1, out);
    if appended.is_err() {
        out.truncate(len);
    }
    appended
}

// Appends what a token of the text stands for.
fn append_token(text: &str, token: Token, out: &mut Vec<u8>) -> Result<(), AllocError>
    requires { HasToken text.now token }
    ensures ok { OnOk result (out.new.items ≡ out.old.items ++ text_of text.now token) }
    ensures utf8 { OnOk result (IsUtf8 (text_of text.now token)) }
    ensures err { OnErr result (out.new.items ≡ out.old.items) }
{
    if is_words(token.kind) {
        return append_words(text, token, out);
    }
    let bytes = text.as_bytes();
    out.extend_from_slice(&bytes[token.start as usize..token.end as usize])
}

// The first token from a place on.
fn next_token(bytes: &[u8], at: usize) -> Result<Token, LexFault>
    requires range { length bytes.now < 2 ^ 32 }
    requires within { at ≤ length bytes.now }
    ensures token { IfOk result (λ t. lexed at 0 (drop at bytes.now) ≡ before bytes.now t (lexed t.end 0 (drop t.end bytes.now))) }
    ensures there { IfOk result (λ t. HasToken bytes.now t) }
    ensures fault { IfErr result (λ f. lexed at 0 (drop at bytes.now) ≡ fault f) }
{
    let start = at + blanks_len(bytes_from(bytes, at));
    token_at(bytes_from(bytes, start), start as u32)
}
// Whether a token is a text in quotes.
fn is_words(kind: TokenKind) -> bool
    ensures { result ≡ is_words kind }
{
    match kind {
        TokenKind::Words => true,
        _ => false,
    }
}

/// A text that is read from the front, token by token.
#[derive(Drop)]
pub struct Lexer<'a> {
    text: &'a str,
    at: usize,
}

impl<'a> Model for Lexer<'a> {
    ghost use Rattle.std.specs.Prelude.{◌≤◌, ◌<◌, ◌^◌, length};
    ghost use Rattle.arti_aql_lex.specs.Lexed.{Reading};

    ghost Value = { Reading };

    ghost view = { λ l. record { text = l.text.now; at = l.at } };

    ghost invariant = { λ l. (l.at ≤ length l.text.now) × (length l.text.now < 2 ^ 32) };
}

impl<'a> Lexer<'a> {
    /// A reader before the first token of the text.
    pub fn new(text: &'a str) -> Lexer<'a>
        requires { length text.now < 2 ^ 32 }
        ensures { result ≡ record { text = text.entry.now; at = 0 } }
    {
        Lexer { text, at: 0 }
    }

    /// The next token. At the end of the text it is `End`, each time. A fault changes nothing, so it comes again.
    pub fn next(&mut self) -> Result<Token, LexFault>
        ensures token { IfOk result (λ t. Takes self.old t self.new) }
        ensures fault { IfErr result (λ f. (ahead self.old ≡ fault f) × (self.new ≡ self.old)) }
    {
        let token = next_token(self.text.as_bytes(), self.at)?;
        self.at = token.end as usize;
        Ok(token)
    }

    /// Appends what a token of this text stands for: the text of one in quotes without its escapes, else its bytes.
    /// After want of memory `out` is as it was.
    pub fn text_of(&self, token: &Token, out: &mut Vec<u8>) -> Result<(), AllocError>
        requires { HasToken self.now.text token.now }
        ensures ok { OnOk result (out.new.items ≡ out.old.items ++ text_of self.now.text token.now) }
        ensures utf8 { OnOk result (IsUtf8 (text_of self.now.text token.now)) }
        ensures number { is_number token.now.kind ≡ true → IsNumber (text_of self.now.text token.now) }
        ensures err { OnErr result (out.new.items ≡ out.old.items) }
    {
        append_token(self.text, *token, out)
    }
}
