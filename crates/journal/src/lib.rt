//! The journal of transactions: what kiosks may record, and what is then recorded.

#![tactic(auto)]

mod event;
mod few;
pub mod limits;
pub mod mark;
pub mod number_set;
pub mod record;
pub mod refusal;
#[cfg(test)]
mod tests;
pub mod transaction;

pub use mark::Mark;
pub use record::Journal;
pub use refusal::Refusal;
pub use transaction::{OuterRead, State, Transaction};
