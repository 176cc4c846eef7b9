//! Tests of what change a request for items makes, by public calls alone.
#![tactic(auto)]

#[cfg(test)]
mod plans;
