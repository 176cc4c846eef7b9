//! Tests of grounds, journals, contents and wires, and of what requests ask, by public calls alone.
#![tactic(auto)]

#[cfg(test)]
mod asks;
#[cfg(test)]
mod blobs;
#[cfg(test)]
mod ground;
#[cfg(test)]
mod journal;
#[cfg(test)]
mod route;
#[cfg(test)]
mod wire;
