//! Contents in a file, each kept once: staged behind the kept ones, and kept where no kept one is the same.
#![tactic(auto)]

mod blobs;
mod comparing;
mod fault;
mod index;
mod staging;

pub use blobs::{Blobs, contents_stay};
pub use fault::{KeepFault, StageFault};
pub use staging::{Staged, digests_of};
