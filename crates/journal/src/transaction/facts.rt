ghost use Rattle.std.specs.Prelude.{◌≡◌, ◌≤◌, length};
ghost use Rattle.journal.specs.Limits.{most_reads};
ghost use Rattle.journal.specs.Recorded.{txn};
ghost use Rattle.journal.specs.Transactions.{counted, has_row, serves};

use crate::mark::Mark;
use crate::transaction::{OuterRead, State, Transaction};

impl Transaction {
    pub fn kiosk(&self) -> u8
        ensures { result ≡ (txn self.now).kiosk }
    {
        self.kiosk
    }

    pub fn mark(&self) -> Mark
        ensures { result ≡ (txn self.now).mark }
    {
        self.mark
    }

    pub fn state(&self) -> State
        ensures { result ≡ (txn self.now).state }
    {
        self.state
    }

    /// The outer reads, in the order in which they were made.
    pub fn reads(&self) -> &[OuterRead]
        ensures list { result.now ≡ (txn self.now).reads }
        ensures few { length result.now ≤ most_reads }
    {
        self.reads.as_slice()
    }

    /// How many outer reads it has.
    pub(crate) fn reads_made(&self) -> u8
        ensures count { result ≡ length (txn self.now).reads }
        ensures few { result ≤ most_reads }
    {
        // At most 16 (`limits.rt`).
        self.reads().len() as u8
    }

    /// Whether it has written the row; no row above 63 is ever written.
    pub fn wrote(&self, row: u8) -> bool
        ensures { result ≡ has_row (txn self.now) row }
    {
        self.rows.holds(row)
    }

    /// Whether a value of the row can come from it: it is committed, and has written the row.
    pub(crate) fn serves(&self, row: u8) -> bool
        ensures { result ≡ serves (txn self.now) row }
    {
        self.wrote(row) && self.state == State::Committed
    }

    /// How many different rows it has written.
    pub fn rows_written(&self) -> u8
        ensures { result ≡ counted (txn self.now).rows }
    {
        // At most 64 (`limits.rt`).
        self.rows.count() as u8
    }
}
