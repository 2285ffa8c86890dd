//! Tapes: records of calls as bytes, and the lines that playing them prints.

#![tactic(auto)]

pub mod decoding;
pub mod failure;
pub mod limits;
mod line;
pub mod playing;
pub mod request;
#[cfg(test)]
mod tests;
pub mod whole;

pub use decoding::{Fault, Record, decode};
pub use failure::Failure;
pub use limits::{LINE_ROOM, LONGEST_TAPE};
pub use playing::play;
pub use request::Request;
pub use whole::play_all;
