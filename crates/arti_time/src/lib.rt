//! Moments and spans of time as texts.
#![tactic(auto)]

mod civil;
mod dates;
mod front;
mod laws;
mod printing;
mod spans;

pub use dates::{NotADate, read_date};
pub use laws::{
    dates_are_read_as_written, printed_moments_are_read_back, printed_writes_the_moment,
    spans_are_read_as_written,
};
pub use printing::{append, print};
pub use spans::{NotASpan, read_span};
