//! Definitions of repositories as JSON: what the body of a request to define one says, and what one is told as.
#![tactic(auto)]

mod faults;
mod keys;
mod members;
mod reading;
mod writing;

pub use reading::read_definition;
pub use writing::{write_definition, write_list};
