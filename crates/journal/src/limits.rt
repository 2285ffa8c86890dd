//! The limits of a journal. Whatever is counted or numbered within them fits a byte: an `as u8` of it loses
//! nothing, where `try_from` would add a failure that cannot come.

/// How many kiosks there are, numbered from 0.
pub const KIOSKS: u8 = 8;

/// How many rows there are, numbered from 0.
pub const ROWS: usize = 64;

/// The most transactions that can begin.
pub const MOST_TRANSACTIONS: usize = 32;

/// The most outer reads that a transaction can have.
pub const MOST_READS: usize = 16;
