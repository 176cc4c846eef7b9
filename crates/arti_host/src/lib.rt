//! The machine's files, streams and clock, as the program is handed them: adapters over std, proved against the traits of
//! `arti_ground`. They count their faults, and tell nothing of what a file or stream holds.
#![tactic(auto)]

mod handle;
mod real_clock;
mod real_file;
mod real_folder;
mod real_ground;
mod real_source;

pub use real_clock::RealClock;
pub use real_ground::RealGround;
pub use real_source::RealSource;

#[cfg(test)]
mod tests;
