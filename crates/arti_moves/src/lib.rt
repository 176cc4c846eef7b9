//! What change a request for items makes, or why it makes none.
#![tactic(auto)]

mod ask;
mod bytes;
mod deploys;
mod edits;
mod plan;
mod plans;
mod settling;

pub use ask::MoveAsk;
pub use plan::plan_move;
