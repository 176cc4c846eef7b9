// Where a repository's items lie.
use arti_rows::Text;

/// What a place of a walk is.
#[derive(Clone, Copy, Debug, PartialEq, Eq)]
pub enum PlaceKind {
    Local,
    /// What was fetched from a remote.
    Cache,
    Remote,
}

/// A place of a walk: its key, and what it is.
#[derive(Debug, Drop)]
pub struct Place {
    pub key: Text,
    pub kind: PlaceKind,
}
