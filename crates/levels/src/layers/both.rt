ghost use Rattle.levels.specs.Layers.{both};
ghost use Rattle.levels.specs.Layering.{both_lawful};

use crate::level::Level;
use journal::Journal;

/// Says yes where both levels do.
#[derive(Drop)]
pub struct Both<A, B> {
    pub first: A,
    pub second: B,
}

impl<A: Level, B: Level> Level for Both<A, B> {
    ghost meaning = { λ l. both (A.Level.meaning l.first) (B.Level.meaning l.second) };

    ghost lawful = { λ l. both_lawful _ _ (A.Level.lawful l.first) (B.Level.lawful l.second) };

    fn allows(&self, journal: &Journal, run: &[u8]) -> bool {
        self.first.allows(journal, run) && self.second.allows(journal, run)
    }
}
