//! Ascending lists of ids, alone, under keys and under texts.
#![tactic(auto)]

mod ids;
mod kept;
mod lists;
mod text_lists;

pub use ids::Ids;
pub use lists::Lists;
pub use text_lists::TextLists;
