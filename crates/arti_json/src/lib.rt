//! JSON (RFC 8259): texts and numbers as `serde_json` writes them, documents and their members as it reads them.
#![tactic(auto)]

mod escape;
mod fault;
mod push;
mod reading;
mod write;

pub use fault::JsonFault;
pub use push::push_text;
pub use reading::{flag_at, number_at, read, text_at};
pub use write::{write_number, write_text};
