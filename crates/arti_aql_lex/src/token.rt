//! What a query text is cut into, and why it can't be cut.

use thiserror::Error;

/// What a token is.
#[derive(Clone, Copy, PartialEq, Eq)]
pub enum TokenKind {
    /// A letter or `_`, then letters, digits and `_`.
    Name,
    /// A text in double quotes, with JSON's escapes.
    Words,
    /// 1 to 18 digits without a leading zero, perhaps behind a minus.
    Number,
    Dot,
    Open,
    Close,
    ObjectOpen,
    ObjectClose,
    ListOpen,
    ListClose,
    Colon,
    Comma,
    /// The end of the text.
    End,
}

/// A token and the bytes that it takes: those from `start` on, before `end`. Places are byte offsets in the text.
#[derive(Clone, Copy)]
pub struct Token {
    pub kind: TokenKind,
    pub start: u32,
    pub end: u32,
}

/// Why there is no next token, with the byte offset of the fault.
#[derive(Clone, Copy, Debug, PartialEq, Eq, Error)]
pub enum LexFault {
    /// A byte that begins no token, a control character in a text, a leading zero, or a digit past the 18th.
    #[error("the byte at {0} fits nowhere")]
    BadByte(u32),
    /// The opening quote of a text that doesn't end.
    #[error("the text that opens at {0} has no end")]
    OpenText(u32),
    /// The backslash of what is no escape; a surrogate stands only in a pair.
    #[error("the escape at {0} is none")]
    BadEscape(u32),
}
