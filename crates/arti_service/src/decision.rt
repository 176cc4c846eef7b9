// What is decided of a request, before anything outside is touched.
use arti_rows::{Change, FileRef, Refusal};

/// The bytes of a reply behind its head.
#[derive(Drop)]
pub enum Body {
    /// A JSON text.
    Json(Vec<u8>),
    /// A kept content.
    Kept(FileRef),
}

/// A reply, before it has bytes.
#[derive(Drop)]
pub struct Reply {
    pub status: u16,
    pub body: Body,
}

/// What a request comes to.
#[derive(Drop)]
pub enum Decision {
    /// A refusal, and nothing changes.
    Refused(Refusal),
    /// A reply, and nothing changes.
    Tells(Reply),
    /// A change, and the reply to it.
    Makes(Change, Reply),
}
