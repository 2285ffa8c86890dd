ghost use Rattle.std.specs.Prelude.{◌≡◌, ℕ, ◌-◌, ◌<◌, ◌≤◌, not, ◌&&◌, length, IsTrue, ◌↔◌, ◌==◌, nat_lt};
ghost use Rattle.journal.specs.Calls.{of_journal};
ghost use Rattle.journal.specs.Dependencies.{wrote};
ghost use Rattle.levels.specs.Axioms.{Obeys};
ghost use Rattle.levels.specs.Level.{Exact};
ghost use Rattle.journal.specs.NumberSet.{has};
ghost use Rattle.levels.specs.Rule.{allowed, rule};
ghost use Rattle.levels.specs.Runs.{member};
ghost use Rattle.levels.specs.Tests.{all_below, later};
ghost use Rattle.levels.specs.Laws.{rule_lawful};

use crate::closed::is_closed;
use crate::level::Level;
use crate::numbers::Numbers;
use crate::visibility::Visibility;
use journal::{Journal, OuterRead};

/// How many members stand before the last place of the source; 0 where it has none.
// No option: 0 is right where there is no source too, since nothing stands before it.
fn place_of(run: &[u8], source: u8) -> usize
    ensures before { (j : ℕ) → later run.now source j ≡ nat_lt j result }
    ensures within { result ≤ length run.now - 1 }
{
    run.iter()
        .rposition(|&member| member == source)
        .unwrap_or(0)
}

/// Whether the transaction with the number wrote the row.
fn has_written(journal: &Journal, number: u8, row: u8) -> bool
    ensures { result ≡ wrote (of_journal journal.now) number row }
{
    journal.transaction(number).is_some_and(|t| t.wrote(row))
}

/// Whether the member has to stand before the source: it wrote the row, is seen and is not the
/// source.
// The journal and the set come apart here and below, as in `closed.rt`.
fn must_precede(journal: &Journal, seen: &Numbers, read: OuterRead, member: u8) -> bool
    ensures { result ≡ (wrote (of_journal journal.now) member read.row && (has seen.now member && not (member == read.source))) }
{
    member != read.source && seen.holds(member) && has_written(journal, member, read.row)
}

/// Whether all earlier members may stand where they do, for a read of the last one.
fn is_kept(journal: &Journal, run: &[u8], seen: &Numbers, read: OuterRead) -> bool
    ensures { result ≡ all_below (λ j. allowed (of_journal journal.now) run.now (has seen.now (member run.now j)) read.row read.source j) (length run.now - 1) }
{
    let [earlier @ .., _] = run else {
        return true;
    };
    // Asked first: the place of the source is not looked for where there is nobody to stand after it.
    if earlier.is_empty() {
        return true;
    }
    let from_source = &earlier[place_of(run, read.source)..];
    from_source
        .iter()
        .all(|&member| !must_precede(journal, seen, read, member))
}

/// The level of a visibility: every earlier member that wrote the row of an outer read of the last
/// member, is visible to it and is not its source stands before the source.
#[derive(Drop)]
pub struct Rule<V> {
    pub visibility: V,
}

impl<V: Visibility> Rule<V> {
    /// The rule over the visibility.
    pub const fn new(visibility: V) -> Rule<V>
        ensures made { result ≡ record { visibility = visibility } }
        ensures exactly { Exact (rule (V.Visibility.visible visibility)) (Obeys (V.Visibility.sees visibility)) }
    {
        Rule { visibility }
    }
}

impl<V: Visibility> Level for Rule<V> {
    ghost meaning = { λ l. rule (V.Visibility.visible l.visibility) };

    ghost lawful = { λ l.
        let v = l.visibility in
        rule_lawful (V.Visibility.visible v) (V.Visibility.sees v) (V.Visibility.tells v) (V.Visibility.local v) (V.Visibility.thinned v) };

    fn allows(&self, journal: &Journal, run: &[u8]) -> bool
        ensures meaning { result ≡ rule (V.Visibility.visible self.now.visibility) (of_journal journal.now) run.now }
        ensures exactly { IsTrue result ↔ (Obeys (V.Visibility.sees self.now.visibility) (of_journal journal.now) run.now) }
    {
        let [.., last] = run else {
            return false;
        };
        if !is_closed(journal, run) {
            return false;
        }
        let Some(t) = journal.transaction(*last) else {
            return false;
        };
        let mut seen = self.visibility.first(journal, run);
        // A `for`: each read needs the set that the one before it left.
        for &read in t.reads() {
            if !is_kept(journal, run, &seen, read) {
                return false;
            }
            seen = self.visibility.next(read, seen);
        }
        true
    }
}
