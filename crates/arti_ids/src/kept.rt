// How few ids are kept, and how many.

/// One id alone takes no memory beside it.
#[derive(Drop)]
pub(crate) enum Kept {
    Empty,
    One(u32),
    Many(Box<Vec<u32>>),
}
