//! Tests of conversations, by public calls alone.
#![tactic(auto)]

#[cfg(test)]
mod service;
