ghost use Rattle.levels.specs.declared.layers.either.Either.TheVariants.{First, Second};

use crate::level::Level;
use journal::Journal;

/// A level of one of two types, which answers as that one does.
// An enum of its own and not `Result`: neither level is the failure of the other.
#[derive(Drop)]
pub enum Either<A, B> {
    First(A),
    Second(B),
}

impl<A: Level, B: Level> Level for Either<A, B> {
    ghost meaning = { λ l. elim l [ First a ↦ A.Level.meaning a | Second b ↦ B.Level.meaning b ] };

    ghost lawful = { elim [ First a ↦ A.Level.lawful a | Second b ↦ B.Level.lawful b ] };

    fn allows(&self, journal: &Journal, run: &[u8]) -> bool {
        match self {
            Either::First(a) => a.allows(journal, run),
            Either::Second(b) => b.allows(journal, run),
        }
    }
}
