//! Isolation levels: which runs of committed transactions they allow, and layers over levels.

#![tactic(auto)]

mod closed;
mod dependencies;
pub mod isolation;
pub mod layers;
pub mod level;
pub mod levels;
pub mod numbers;
pub mod rule;
#[cfg(test)]
mod tests;
pub mod visibilities;
pub mod visibility;

pub use isolation::Isolation;
pub use layers::{Both, ByMark, Either, by_mark};
pub use level::Level;
pub use levels::{snapshot, standing};
pub use rule::Rule;
pub use visibilities::{Causal, Conflict, Prefix, ReadAtomic, ReadCommitted, Serializable};
pub use visibility::Visibility;
