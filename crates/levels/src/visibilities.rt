//! The six visibilities.

mod causal;
mod conflict;
mod prefix;
mod reach;
mod read_atomic;
mod read_committed;
mod serializable;

pub use causal::Causal;
pub use conflict::Conflict;
pub use prefix::Prefix;
pub use read_atomic::ReadAtomic;
pub use read_committed::ReadCommitted;
pub use serializable::Serializable;
