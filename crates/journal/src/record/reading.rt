ghost use Rattle.std.specs.Prelude.{◌≡◌, ◌≤◌, length};
ghost use Rattle.journal.specs.Calls.{of_journal};
ghost use Rattle.journal.specs.History.{at_number};
ghost use Rattle.journal.specs.Limits.{most_transactions};
ghost use Rattle.journal.specs.Recorded.{txn};
ghost use Rattle.std.specs.Option.{option_map};

use crate::record::Journal;
use crate::transaction::Transaction;

impl Journal {
    /// How many transactions have begun.
    pub fn begun(&self) -> u8
        ensures count { result ≡ length (of_journal self.now) }
        ensures few { result ≤ most_transactions }
    {
        self.table.len()
    }

    /// The transaction of a number, if somebody has it.
    pub fn transaction(&self, number: u8) -> Option<Transaction>
        ensures { option_map txn result ≡ at_number (of_journal self.now) number }
    {
        self.table.find(number)
    }
}
