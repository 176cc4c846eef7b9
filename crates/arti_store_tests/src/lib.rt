//! Tests of stores, by public calls alone.
#![tactic(auto)]

#[cfg(test)]
mod quiet;
#[cfg(test)]
mod store;
