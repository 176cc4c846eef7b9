//! Changes as bytes, and back.
#![tactic(auto)]

mod builds;
mod change;
mod definitions;
mod edits;
mod fault;
mod field;
mod files;
mod laws;
mod props;
mod reader;
mod texts;

pub use change::{decode, encode};
pub use fault::DecodeFault;
pub use laws::bytes_are_of_one_change;
