ghost use Rattle.journal.specs.Calls.{of_journal};
ghost use Rattle.journal.specs.Dependencies.{mark_at};
ghost use Rattle.levels.specs.ByMark.{AnswersByMark, meaning_of};
ghost use Rattle.levels.specs.Layering.{at_mark_lawful, by_mark_lawful};
ghost use Rattle.levels.specs.Layers.{at_mark};
ghost use Rattle.levels.specs.Runs.{last};
ghost use Rattle.std.specs.Prelude.{◌≡◌};

use crate::dependencies::last_of;
use crate::level::Level;
use journal::{Journal, Mark};

/// The mark of the last member, if the list ends in a transaction.
fn last_mark(journal: &Journal, run: &[u8]) -> Option<Mark>
    ensures { result ≡ mark_at (of_journal journal.now) (last run.now) }
{
    last_of(journal, run).map(|t| t.mark())
}

/// One level where the last member has the mark, and the other elsewhere.
#[derive(Drop)]
pub struct AtMark<A, B> {
    pub mark: Mark,
    pub at: A,
    pub other: B,
}

impl<A: Level, B: Level> Level for AtMark<A, B> {
    ghost meaning = { λ l. at_mark l.mark (A.Level.meaning l.at) (B.Level.meaning l.other) };

    ghost lawful = { λ l. at_mark_lawful l.mark _ _ (A.Level.lawful l.at) (B.Level.lawful l.other) };

    fn allows(&self, journal: &Journal, run: &[u8]) -> bool {
        if last_mark(journal, run) == Some(self.mark) {
            self.at.allows(journal, run)
        } else {
            self.other.allows(journal, run)
        }
    }
}

/// A level for each mark: that of the last member's mark answers.
#[derive(Drop)]
pub struct ByMark<L1, L2, L3, L4, L5, L6> {
    pub read_committed: L1,
    pub read_atomic: L2,
    pub causal: L3,
    pub prefix: L4,
    pub snapshot: L5,
    pub serializable: L6,
}

impl<L1: Level, L2: Level, L3: Level, L4: Level, L5: Level, L6: Level> Level
    for ByMark<L1, L2, L3, L4, L5, L6> {
    ghost meaning = { meaning_of L1.Level.meaning L2.Level.meaning L3.Level.meaning
        L4.Level.meaning L5.Level.meaning L6.Level.meaning };

    ghost lawful = { λ l. by_mark_lawful _ _ _ _ _ _
        (L1.Level.lawful l.read_committed) (L2.Level.lawful l.read_atomic)
        (L3.Level.lawful l.causal) (L4.Level.lawful l.prefix)
        (L5.Level.lawful l.snapshot) (L6.Level.lawful l.serializable) };

    fn allows(&self, journal: &Journal, run: &[u8]) -> bool {
        match last_mark(journal, run) {
            Some(Mark::ReadCommitted) => self.read_committed.allows(journal, run),
            Some(Mark::ReadAtomic) => self.read_atomic.allows(journal, run),
            Some(Mark::Causal) => self.causal.allows(journal, run),
            Some(Mark::Prefix) => self.prefix.allows(journal, run),
            Some(Mark::Snapshot) => self.snapshot.allows(journal, run),
            Some(Mark::Serializable) => self.serializable.allows(journal, run),
            None => false,
        }
    }
}

/// The layer over a level for each mark, in the order of their numbers.
pub fn by_mark<L1, L2, L3, L4, L5, L6>(
    one: L1,
    two: L2,
    three: L3,
    four: L4,
    five: L5,
    six: L6,
) -> ByMark<L1, L2, L3, L4, L5, L6>
    ensures made { result ≡ record {
      read_committed = one;
      read_atomic = two;
      causal = three;
      prefix = four;
      snapshot = five;
      serializable = six;
    } }
    ensures answers { AnswersByMark one two three four five six result }
{
    ByMark {
        read_committed: one,
        read_atomic: two,
        causal: three,
        prefix: four,
        snapshot: five,
        serializable: six,
    }
}
