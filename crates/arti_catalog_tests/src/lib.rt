//! Tests of the catalog of items by public calls alone.
#![tactic(auto)]

#[cfg(test)]
mod catalog;
