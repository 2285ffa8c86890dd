ghost use Rattle.std.specs.Prelude.{◌≡◌, ◌&&◌, Some};
ghost use Rattle.journal.specs.Calls.{of_journal};
ghost use Rattle.journal.specs.Dependencies.{kiosk_at};
ghost use Rattle.journal.specs.History.{at_number};
ghost use Rattle.journal.specs.Limits.{row_count};
ghost use Rattle.journal.specs.Recorded.{txn};
ghost use Rattle.journal.specs.Transactions.{has_row};
ghost use Rattle.levels.specs.Numbers.{HoldsExactly};
ghost use Rattle.levels.specs.Runs.{last};
ghost use Rattle.levels.specs.Tests.{both_wrote, direct, same_kiosk, session_before, some_below};
ghost use Rattle.std.specs.Option.{option_map};

use crate::numbers::Numbers;
use journal::limits::ROWS;
use journal::{Journal, OuterRead, Transaction};

/// The transaction that the list ends in, if it ends in the number of one.
pub(crate) fn last_of(journal: &Journal, run: &[u8]) -> Option<Transaction>
    ensures { option_map txn result ≡ at_number (of_journal journal.now) (last run.now) }
{
    journal.transaction(*run.last()?)
}

/// Whether the number is of a transaction of the kiosk.
fn is_at_kiosk(journal: &Journal, number: u8, kiosk: u8) -> bool
    ensures { result ≡ same_kiosk (kiosk_at (of_journal journal.now) number) (Some kiosk) }
{
    journal
        .transaction(number)
        .is_some_and(|t| t.kiosk() == kiosk)
}

/// The transactions that are session-before the one with the number.
pub(crate) fn sessions_before(journal: &Journal, number: u8) -> Numbers
    ensures { HoldsExactly result (λ u. session_before (of_journal journal.now) u number) }
{
    let mut found = Numbers::none();
    let Some(t) = journal.transaction(number) else {
        return found;
    };
    // A `for`: of a set that a closure fills nothing is known afterwards, and `collect` may run out of memory.
    for u in 0..number {
        if is_at_kiosk(journal, u, t.kiosk()) {
            found.insert(u);
        }
    }
    found
}

/// The direct dependencies of the transaction with the number.
pub(crate) fn direct(journal: &Journal, number: u8) -> Numbers
    ensures { HoldsExactly result (λ u. direct (of_journal journal.now) u number) }
{
    let mut found = sessions_before(journal, number);
    let Some(t) = journal.transaction(number) else {
        return found;
    };
    for read in t.reads() {
        found.insert(read.source);
    }
    found
}

/// Whether the row is written by both.
fn share_row(a: &Transaction, b: &Transaction, row: u8) -> bool
    ensures { result ≡ (has_row (txn a.now) row && has_row (txn b.now) row) }
{
    a.wrote(row) && b.wrote(row)
}

/// Whether some row is written by both.
fn share_a_row(a: &Transaction, b: &Transaction) -> bool
    ensures { result ≡ some_below (λ n. has_row (txn a.now) n && has_row (txn b.now) n) row_count }
{
    // 64 (`limits.rt` of `journal`).
    (0..ROWS as u8).any(|row| share_row(a, b, row))
}

/// Whether the transactions with the numbers wrote a row in common.
pub(crate) fn both_wrote(journal: &Journal, u: u8, t: u8) -> bool
    ensures { result ≡ both_wrote (of_journal journal.now) u t }
{
    let (Some(a), Some(b)) = (journal.transaction(u), journal.transaction(t)) else {
        return false;
    };
    share_a_row(&a, &b)
}
