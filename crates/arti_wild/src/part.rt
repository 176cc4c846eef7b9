// The parts of a pattern with placeholders.

/// A part of a pattern.
#[derive(Clone, Copy)]
pub enum Part {
    /// This character.
    Char(char),
    /// The text's last slash.
    LastSlash,
    /// One character.
    Any,
    /// Any text.
    Star,
    /// The begin of a placeholder.
    Open,
    /// The end of a placeholder.
    Close,
}
