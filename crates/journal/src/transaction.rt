use crate::few::Few;
use crate::limits::{MOST_READS, ROWS};
use crate::mark::Mark;
use crate::number_set::NumberSet;

mod edits;
mod facts;

#[derive(Clone, Copy, PartialEq, Eq, Debug)]
pub enum State {
    Open,
    Committed,
    Aborted,
}

/// A read of a row that its transaction had not written: the row, and the number of the
/// transaction that the value came from, or 0 for the opening state.
// A number and no option: the opening state is number 0 in the published rules and on a tape.
#[derive(Clone, Copy, PartialEq, Eq, Debug)]
pub struct OuterRead {
    pub row: u8,
    pub source: u8,
}

/// One transaction: its outer reads, in the order in which they were made, and the rows that it wrote.
#[derive(Clone, Copy)]
pub struct Transaction {
    kiosk: u8,
    mark: Mark,
    state: State,
    reads: Few<OuterRead, MOST_READS>,
    rows: NumberSet<ROWS>,
}
