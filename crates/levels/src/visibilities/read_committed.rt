ghost use Rattle.levels.specs.Axioms.{ReadCommitted as SightReadCommitted};
ghost use Rattle.levels.specs.Rule.{read_committed};
ghost use Rattle.levels.specs.Sights.{read_committed_tells};
ghost use Rattle.levels.specs.Sharing.{read_committed_local, read_committed_thinned};

use crate::dependencies::sessions_before;
use crate::numbers::Numbers;
use crate::visibility::Visibility;
use journal::{Journal, OuterRead};

/// What is session-before the last member is visible, and so are the sources of its earlier reads.
#[derive(Drop)]
pub struct ReadCommitted;

impl Visibility for ReadCommitted {
    ghost sees = { λ _. SightReadCommitted };

    ghost visible = { λ _. read_committed };

    ghost tells = { λ v. read_committed_tells };

    ghost local = { λ v. read_committed_local };

    ghost thinned = { λ v. read_committed_thinned };

    fn first(&self, journal: &Journal, run: &[u8]) -> Numbers {
        let [.., last] = run else {
            return Numbers::none();
        };
        sessions_before(journal, *last)
    }

    fn next(&self, read: OuterRead, mut seen: Numbers) -> Numbers {
        seen.insert(read.source);
        seen
    }
}
