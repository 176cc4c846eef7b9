//! HTTP framing: the requests in a stream of bytes, and the heads of replies.
#![tactic(auto)]

mod ahead;
mod fields;
mod head;
mod judge;
mod lines;
mod reading;
mod reply;
mod wire;

pub use arti_model::Why;
pub use fields::Field;
pub use head::Request;
pub use reply::response_head;
pub use wire::{NextHead, Phase, Piece, Wire, WireFault};
