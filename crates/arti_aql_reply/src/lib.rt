//! The texts that answer queries.
#![tactic(auto)]

mod fault;
mod members;
mod reply;
mod row;

pub use fault::ReplyFault;
pub use reply::thin_reply;
