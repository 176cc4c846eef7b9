//! Definitions of repositories: which may be made, what a key walks through, what it admits, and where it deploys to.
#![tactic(auto)]

mod chain;
mod definitions;
mod fault;
mod frame;
mod judging;
mod meeting;
mod place;
mod repos;
mod walking;

pub use fault::RepoFault;
pub use place::{Place, PlaceKind};
pub use repos::Repos;
