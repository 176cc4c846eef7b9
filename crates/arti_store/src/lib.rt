//! The store: a journal of changes, the contents that they name, and the items that they leave, over files that a crash may
//! tear.
#![tactic(auto)]

mod commit;
mod edits;
mod fault;
mod judging;
mod laws;
mod recovery;
mod rows;
mod store;

pub use fault::{CommitFault, ContentFault, OpenFault};
pub use laws::files_stand_for_one_store;
pub use store::Store;
