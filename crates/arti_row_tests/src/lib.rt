//! Tests of the texts of properties and of the bytes of changes, by public calls alone.
#![tactic(auto)]

#[cfg(test)]
mod codec;
#[cfg(test)]
mod property_texts;
