// A character of a property text.

/// A character, and whether a backslash stood before it that made it an ordinary one.
#[derive(Clone, Copy)]
pub(crate) struct Mark {
    pub(crate) char: char,
    pub(crate) escaped: bool,
}
