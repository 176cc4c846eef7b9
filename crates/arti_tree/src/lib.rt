//! The tree of items: which keys are there, in which folder each lies, and its place in the default order.
#![tactic(auto)]

mod blocks;
mod copying;
mod fault;
mod ids;
mod keys;
mod lists;
mod pieces;
mod rekeying;
mod removing;
mod repos;
mod searching;
mod slot;
mod tree;

pub use fault::TreeFault;
pub use tree::Tree;
