//! What the crates of texts and of the query language do, by their public calls.
#![tactic(auto)]

#[cfg(test)]
mod definitions;
#[cfg(test)]
mod json_texts;
#[cfg(test)]
mod lexing;
#[cfg(test)]
mod moments;
#[cfg(test)]
mod patterns;
#[cfg(test)]
mod queries;
#[cfg(test)]
mod targets;
#[cfg(test)]
mod typed_rows;
#[cfg(test)]
mod typing;
