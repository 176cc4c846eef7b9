// The parts of a target.

/// A part of a target.
#[derive(Clone, Copy)]
pub enum TargetPart {
    /// This character.
    Char(char),
    /// What the placeholder of that number stands for, the first being 1.
    Group(u32),
}
