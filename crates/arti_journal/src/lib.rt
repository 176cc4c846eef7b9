//! A journal: bodies in a file, each on the disk before it counts.
#![tactic(auto)]

mod adding;
mod fault;
mod framed;
mod journal;
mod making;
mod reading;
mod window;

pub use fault::{AppendFault, FrameFault, JournalFault};
pub use framed::{Framed, frame};
pub use journal::{Journal, one_list_of_bodies};
