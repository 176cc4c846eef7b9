//! Query texts, cut into tokens.
use arti_aql_lex::{LexFault, Lexer, Token, TokenKind};
use std::alloc::{AllocError, Global};
use std::test::Fail;

// Each fault, at its place. The faults before the end of a text that is cut come first.
const FAULTS: [(&str, LexFault); 33] = [
    ("#", LexFault::BadByte(0)),
    ("a #", LexFault::BadByte(2)),
    ("-", LexFault::BadByte(0)),
    ("a-", LexFault::BadByte(1)),
    ("-x", LexFault::BadByte(0)),
    ("01", LexFault::BadByte(0)),
    ("-012", LexFault::BadByte(1)),
    ("1234567890123456789", LexFault::BadByte(18)),
    ("-1234567890123456789 a", LexFault::BadByte(19)),
    ("\"", LexFault::OpenText(0)),
    ("x \"abc", LexFault::OpenText(2)),
    ("\"a\\", LexFault::OpenText(0)),
    ("\"a\\u", LexFault::OpenText(0)),
    ("\"a\\u12", LexFault::OpenText(0)),
    ("\"a\\ud800", LexFault::OpenText(0)),
    ("\"a\\ud800\\", LexFault::OpenText(0)),
    ("\"a\\ud800\\u", LexFault::OpenText(0)),
    ("\"a\\ud800\\udc0", LexFault::OpenText(0)),
    ("\"a\\q\"", LexFault::BadEscape(2)),
    ("\"a\\q", LexFault::BadEscape(2)),
    ("\"a\\u12x4\"", LexFault::BadEscape(2)),
    ("\"\\ud800\"", LexFault::BadEscape(1)),
    ("\"\\ud800x\"", LexFault::BadEscape(1)),
    ("\"\\ud800\\n\"", LexFault::BadEscape(1)),
    ("\"ab\\ud800\\ud800\"", LexFault::BadEscape(3)),
    ("\"\\udc00\"", LexFault::BadEscape(1)),
    ("\"\\udfff\"", LexFault::BadEscape(1)),
    ("\"a\tb\"", LexFault::BadByte(2)),
    ("\"a\x1fb\"", LexFault::BadByte(2)),
    ("items\"\\q\"", LexFault::BadEscape(6)),
    ("é", LexFault::BadByte(0)),
    ("\"\\ud800\\u12g4\"", LexFault::BadEscape(1)),
    ("\"a\" 00 #", LexFault::BadByte(4)),
];

// What a text's first token stands for.
const VALUES: [(&str, &str); 8] = [
    ("items", "items"),
    ("-12", "-12"),
    (".", "."),
    ("\"\"", ""),
    ("\"a\"", "a"),
    ("\"\\\"\\\\\\/\\b\\f\\n\\r\\t\"", "\"\\/\x08\x0c\n\r\t"),
    ("\"\\u0041\\u00e9\\u20AC\\ud83d\\ude00\"", "Aé€😀"),
    ("\"x\\ny é z\"", "x\ny é z"),
];

// A text, and the tokens that it is cut into, with the bytes that each takes.
const TEXT: &str = " items.find(\t{\"a\\n\" :[-12]}),x_9\r\n";

const PLACES: [(TokenKind, u32, u32); 15] = [
    (TokenKind::Name, 1, 6),
    (TokenKind::Dot, 6, 7),
    (TokenKind::Name, 7, 11),
    (TokenKind::Open, 11, 12),
    (TokenKind::ObjectOpen, 13, 14),
    (TokenKind::Words, 14, 19),
    (TokenKind::Colon, 20, 21),
    (TokenKind::ListOpen, 21, 22),
    (TokenKind::Number, 22, 25),
    (TokenKind::ListClose, 25, 26),
    (TokenKind::ObjectClose, 26, 27),
    (TokenKind::Close, 27, 28),
    (TokenKind::Comma, 28, 29),
    (TokenKind::Name, 29, 32),
    (TokenKind::End, 34, 34),
];

// The tokens of a text, or its fault.
fn tokens_of(alloc: Global, text: &str) -> Result<Result<Vec<Token>, LexFault>, AllocError> {
    let mut tokens = Vec::new(alloc);
    if text.len() < 1000 {
        let mut lexer = Lexer::new(text);
        for _ in 0..1000 {
            match lexer.next() {
                Ok(token) => {
                    tokens.push(token)?;
                    if token.kind == TokenKind::End {
                        break;
                    }
                }
                Err(fault) => return Ok(Err(fault)),
            }
        }
    }
    Ok(Ok(tokens))
}

// What the first token of a text stands for, behind an `x`.
fn first_value(alloc: Global, text: &str) -> Result<Vec<u8>, AllocError> {
    let mut out = vec![in alloc; b'x']?;
    if text.len() < 1000 {
        let mut lexer = Lexer::new(text);
        if let Ok(token) = lexer.next() {
            lexer.text_of(&token, &mut out)?;
        }
    }
    Ok(out)
}

#[test]
fn faults(rt: HostRuntime) -> Result<(), Fail> {
    for (text, fault) in &FAULTS {
        match tokens_of(rt.alloc(), *text)? {
            Ok(_) => panic!(rt; "{text:?} has no fault"),
            Err(found) => assert_eq!(rt; found, *fault, "in {text:?}"),
        }
    }
    Ok(())
}

#[test]
fn values(rt: HostRuntime) -> Result<(), Fail> {
    for (text, value) in &VALUES {
        let found = first_value(rt.alloc(), *text)?;
        let mut wanted = vec![in rt.alloc(); b'x']?;
        wanted.extend_from_slice(value.as_bytes())?;
        assert_eq!(rt; found.as_slice(), wanted.as_slice(), "of {text:?}");
    }
    Ok(())
}

#[test]
fn places(rt: HostRuntime) -> Result<(), Fail> {
    match tokens_of(rt.alloc(), TEXT)? {
        Ok(tokens) => {
            assert_eq!(rt; tokens.len(), PLACES.len());
            for (token, (kind, start, end)) in tokens.iter().zip(&PLACES) {
                assert_eq!(rt;
                    (token.start, token.end),
                    (*start, *end),
                    "of the token at {start}"
                );
                assert!(rt; token.kind == *kind, "the kind of the token at {start}");
            }
        }
        Err(fault) => panic!(rt; "{fault}"),
    }
    Ok(())
}
