//! Properties and digests under ids, and the ids that have a pair or a digest.
#![tactic(auto)]

mod index;
mod indexing;
mod props;
mod row;
mod rows;
mod values;

pub use props::Props;
pub use row::Row;
