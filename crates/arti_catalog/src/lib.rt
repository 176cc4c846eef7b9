//! The catalog: the items of a repository under ids, and the changes of them.
#![tactic(auto)]

mod catalog;
mod changes;
mod contents;
mod edits;
mod fault;
mod judging;
mod judging_kept;
mod lent;
mod pairs;
mod parts;
mod props_edits;
mod removing;
mod rows;

pub use catalog::Catalog;
pub use fault::ApplyFault;
pub use lent::Lent;
