//! The limits of playing.

/// The fewest bytes that a line buffer may have, and the most that a line takes.
pub const LINE_ROOM: usize = 96;

/// The most bytes that a tape may have.
pub const LONGEST_TAPE: usize = 65536;
