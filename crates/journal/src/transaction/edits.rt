ghost use Rattle.std.specs.Prelude.{◌≡◌, ◌<◌, length};
ghost use Rattle.journal.specs.Limits.{most_reads};
ghost use Rattle.journal.specs.Recorded.{txn};
ghost use Rattle.journal.specs.Transactions.{begun, with_read, with_row, with_state};

use crate::few::Few;
use crate::mark::Mark;
use crate::number_set::NumberSet;
use crate::transaction::{OuterRead, State, Transaction};

impl Transaction {
    /// An open transaction that has read and written nothing.
    pub(crate) fn begun(kiosk: u8, mark: Mark) -> Transaction
        ensures { txn result ≡ begun kiosk mark }
    {
        Transaction {
            kiosk,
            mark,
            state: State::Open,
            reads: Few::none(OuterRead { row: 0, source: 0 }),
            rows: NumberSet::none(),
        }
    }

    /// The same with one more outer read.
    pub(crate) fn with_read(mut self, read: OuterRead) -> Transaction
        requires { length (txn self).reads < most_reads }
        ensures { txn result ≡ with_read read.row read.source (txn self) }
    {
        self.reads.push(read);
        self
    }

    /// The same with the row among its rows.
    pub(crate) fn with_row(mut self, row: u8) -> Transaction
        ensures { txn result ≡ with_row row (txn self) }
    {
        self.rows.insert(row);
        self
    }

    /// The same in another state.
    pub(crate) fn with_state(mut self, state: State) -> Transaction
        ensures { txn result ≡ with_state state (txn self) }
    {
        self.state = state;
        self
    }
}
