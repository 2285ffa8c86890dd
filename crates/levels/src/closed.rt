ghost use Rattle.journal.specs.Calls.{of_journal};
ghost use Rattle.journal.specs.Dependencies.{committed, kiosk_at, source_of};
ghost use Rattle.journal.specs.NumberSet.{has};
ghost use Rattle.levels.specs.Tests.{all_below, closed, rests_on, same_kiosk, session_seen, source_seen};
ghost use Rattle.std.specs.Prelude.{◌≡◌, ◌&&◌, length, Some};

use crate::numbers::Numbers;
use journal::{Journal, OuterRead, State};

/// Whether the number is of a committed transaction of the kiosk.
fn is_committed_at(journal: &Journal, number: u8, kiosk: u8) -> bool
    ensures { result ≡ (committed (of_journal journal.now) number && same_kiosk (kiosk_at (of_journal journal.now) number) (Some kiosk)) }
{
    journal
        .transaction(number)
        .is_some_and(|t| t.state() == State::Committed && t.kiosk() == kiosk)
}

/// Whether the number has been seen, if it is of a committed transaction of the kiosk.
// The journal and the set come apart here and below: the set grows with the run, the journal stays.
fn session_seen(journal: &Journal, seen: &Numbers, kiosk: u8, number: u8) -> bool
    ensures { result ≡ session_seen (of_journal journal.now) (has seen.now) (Some kiosk) number }
{
    !is_committed_at(journal, number, kiosk) || seen.holds(number)
}

/// Whether all committed transactions of the kiosk with numbers below have been seen.
fn sessions_seen(journal: &Journal, seen: &Numbers, kiosk: u8, below: u8) -> bool
    ensures { result ≡ all_below (session_seen (of_journal journal.now) (has seen.now) (Some kiosk)) below }
{
    (0..below).all(|u| session_seen(journal, seen, kiosk, u))
}

/// Whether the source is the opening state or has been seen.
fn source_seen(seen: &Numbers, source: u8) -> bool
    ensures { result ≡ source_seen (has seen.now) source }
{
    source == 0 || seen.holds(source)
}

/// Whether the source of each read is the opening state or has been seen.
fn sources_seen(seen: &Numbers, reads: &[OuterRead]) -> bool
    ensures { result ≡ all_below (λ k. source_seen (has seen.now) (source_of reads.now k)) (length reads.now) }
{
    reads.iter().all(|read| source_seen(seen, read.source))
}

/// Whether the number is of a committed transaction that has not been seen, while all that it
/// rests on has.
fn rests_on(journal: &Journal, seen: &Numbers, number: u8) -> bool
    ensures { result ≡ rests_on (of_journal journal.now) (has seen.now) number }
{
    let Some(t) = journal.transaction(number) else {
        return false;
    };
    t.state() == State::Committed
        && !seen.holds(number)
        && sessions_seen(journal, seen, t.kiosk(), number)
        && sources_seen(seen, t.reads())
}

/// Whether the list is a closed run, in one pass.
pub(crate) fn is_closed(journal: &Journal, run: &[u8]) -> bool
    ensures { result ≡ closed (of_journal journal.now) run.now }
{
    let mut seen = Numbers::none();
    // A `for`: each test needs the set of the members before.
    for &number in run {
        if !rests_on(journal, &seen, number) {
            return false;
        }
        seen.insert(number);
    }
    true
}
