//! Where the files that a file spec names go: the texts of targets, with placeholders for what the parentheses of a pattern stand for (JFrog's File
//! Spec manual).
#![tactic(auto)]

mod filling;
mod laws;
mod part;
mod target;

pub use filling::target_of;
pub use laws::braces_hold_numbers;
pub use part::TargetPart;
pub use target::{Target, TargetFault, read_target};
