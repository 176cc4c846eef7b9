//! Tests of ids, and of the tree and the properties of items, by public calls alone.
#![tactic(auto)]

#[cfg(test)]
mod ids;
#[cfg(test)]
mod props;
#[cfg(test)]
mod tree;
