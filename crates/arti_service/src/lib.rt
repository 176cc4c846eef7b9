//! Requests are answered, one after the other.
#![tactic(auto)]

mod act;
mod answering;
mod ask;
mod bytes;
mod carrying;
mod conversation;
mod decision;
mod deploy;
mod fetch;
mod looking;
mod query;
mod refusals;
mod replies;
mod telling;

pub use answering::{Stop, answer};
pub use conversation::{Ending, converse};
