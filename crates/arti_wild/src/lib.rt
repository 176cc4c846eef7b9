//! Wild patterns, ant patterns, and patterns with placeholders.
#![tactic(auto)]

mod capturing;
mod chars;
mod laws;
mod matching;
mod part;
mod pattern;
mod segments;

pub use capturing::{Span, captures};
pub use laws::{ant_by_first_segment, greatest_of_all_splits, wild_by_first_character};
pub use matching::wild;
pub use part::Part;
pub use pattern::{Pattern, PatternFault, read_pattern};
pub use segments::ant;
