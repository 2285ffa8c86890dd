ghost use Rattle.levels.specs.Axioms.{ReadAtomic as SightReadAtomic};
ghost use Rattle.levels.specs.Rule.{read_atomic};
ghost use Rattle.levels.specs.Sights.{read_atomic_tells};
ghost use Rattle.levels.specs.Sharing.{read_atomic_local, read_atomic_thinned};

use crate::dependencies::direct;
use crate::numbers::Numbers;
use crate::visibility::Visibility;
use journal::{Journal, OuterRead};

/// The direct dependencies of the last member are visible.
#[derive(Drop)]
pub struct ReadAtomic;

impl Visibility for ReadAtomic {
    ghost sees = { λ _. SightReadAtomic };

    ghost visible = { λ _. read_atomic };

    ghost tells = { λ v. read_atomic_tells };

    ghost local = { λ v. read_atomic_local };

    ghost thinned = { λ v. read_atomic_thinned };

    fn first(&self, journal: &Journal, run: &[u8]) -> Numbers {
        let [.., last] = run else {
            return Numbers::none();
        };
        direct(journal, *last)
    }

    fn next(&self, _read: OuterRead, seen: Numbers) -> Numbers {
        seen
    }
}
