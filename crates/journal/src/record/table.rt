ghost use Rattle.journal.specs.declared.transaction.Transaction.{Transaction};
ghost use Rattle.std.specs.Prelude.{◌≡◌, ◌≢◌, IfSome, IfNone, All, drop, slice_index_or, ◌+◌, ◌-◌, ◌<◌, ◌≤◌, [], ◌∷◌, ◌++◌, length, slice_set};
ghost use Rattle.journal.specs.History.{HasNumber, at_number, can_serve, numbered};
ghost use Rattle.journal.specs.Limits.{most_transactions};
ghost use Rattle.std.specs.Option.{option_map};

use crate::few::Few;
use crate::limits::MOST_TRANSACTIONS;
use crate::mark::Mark;
use crate::transaction::{OuterRead, State, Transaction};

/// The transactions that have begun, number 1 first.
#[derive(Drop)]
pub(crate) struct Table {
    transactions: Few<Transaction, MOST_TRANSACTIONS>,
}

impl Table {
    ghost use Rattle.journal.specs.Admission.{IsLatest};
    ghost use Rattle.journal.specs.Recorded.{recorded, txn};

    pub(crate) fn empty() -> Table
        ensures { recorded result ≡ [] }
    {
        let blank = Transaction::begun(0, Mark::ReadCommitted);
        Table {
            transactions: Few::none(blank),
        }
    }

    /// How many transactions have begun.
    pub(crate) fn len(&self) -> u8
        ensures count { result ≡ length (recorded self.now) }
        ensures few { result ≤ most_transactions }
    {
        // At most 32 (`limits.rt`).
        self.transactions.as_slice().len() as u8
    }

    /// The transaction of a number that somebody has.
    pub(crate) fn at(&self, number: u8) -> Transaction
        requires { HasNumber (recorded self.now) number }
        ensures { txn result ≡ numbered (recorded self.now) number }
    {
        self.transactions.as_slice()[usize::from(number) - 1]
    }

    /// The transaction of a number, if somebody has it.
    pub(crate) fn find(&self, number: u8) -> Option<Transaction>
        ensures { option_map txn result ≡ at_number (recorded self.now) number }
    {
        let place = usize::from(number).checked_sub(1)?;
        self.transactions.as_slice().get(place).copied()
    }

    /// The number and the state of the kiosk's latest transaction, if it has one.
    pub(crate) fn latest_of(&self, kiosk: u8) -> Option<(u8, State)>
        ensures { IsLatest (recorded self.now) kiosk result }
    {
        let transactions = self.transactions.as_slice();
        let place = latest_place(transactions, kiosk)?;
        // Below 32 (`limits.rt`).
        Some((place as u8 + 1, transactions[place].state()))
    }

    /// Whether the value that is read can come from its source.
    pub(crate) fn can_serve(&self, read: OuterRead) -> bool
        ensures { result ≡ can_serve (recorded self.now) read.row read.source }
    {
        read.source == 0
            || self
                .find(read.source)
                .is_some_and(|writer| writer.serves(read.row))
    }

    /// One more transaction.
    pub(crate) fn push(&mut self, t: Transaction)
        requires { length (recorded self.old) < most_transactions }
        ensures { recorded self.new ≡ recorded self.old ++ (txn t ∷ []) }
    {
        self.transactions.push(t);
    }

    /// Another transaction in the place of the one with the number.
    pub(crate) fn put(&mut self, number: u8, t: Transaction)
        requires { HasNumber (recorded self.old) number }
        ensures { recorded self.new ≡ slice_set (recorded self.old) (number - 1) (txn t) }
    {
        self.transactions.replace(usize::from(number) - 1, t);
    }
}

/// The place of the kiosk's latest transaction, if it has one.
fn latest_place(transactions: &[Transaction], kiosk: u8) -> Option<usize>
    ensures within { IfSome result (λ p. p < length transactions.now) }
    ensures at { IfSome result (λ p. (d : Transaction) → (slice_index_or transactions.now p d).kiosk ≡ kiosk) }
    ensures later { IfSome result (λ p. All (λ t. t.kiosk ≢ kiosk) (drop (p + 1) transactions.now)) }
    ensures none { IfNone result (All (λ t. t.kiosk ≢ kiosk) transactions.now) }
{
    transactions.iter().rposition(|t| t.kiosk() == kiosk)
}
