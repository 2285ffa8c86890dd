ghost use Rattle.journal.specs.Calls.{of_journal};
ghost use Rattle.levels.specs.Axioms.{Prefix as SightPrefix};
ghost use Rattle.levels.specs.Rule.{prefix};
ghost use Rattle.levels.specs.Visibility.{ShowsFirst};
ghost use Rattle.levels.specs.Sights.{prefix_tells};
ghost use Rattle.levels.specs.Sharing.{prefix_local, prefix_thinned};

use crate::dependencies::direct;
use crate::numbers::Numbers;
use crate::visibilities::reach::up_to_marked;
use crate::visibility::Visibility;
use journal::{Journal, OuterRead};

/// The members up to the last direct dependency of the run's last member.
fn up_to_direct(journal: &Journal, run: &[u8]) -> Numbers
    ensures { ShowsFirst prefix (of_journal journal.now) run.now result }
{
    let [earlier @ .., last] = run else {
        return Numbers::none();
    };
    up_to_marked(earlier, &direct(journal, *last))
}

/// A direct dependency of the last member is visible, and so is what stands before it.
#[derive(Drop)]
pub struct Prefix;

impl Visibility for Prefix {
    ghost sees = { λ _. SightPrefix };

    ghost visible = { λ _. prefix };

    ghost tells = { λ v. prefix_tells };

    ghost local = { λ v. prefix_local };

    ghost thinned = { λ v. prefix_thinned };

    fn first(&self, journal: &Journal, run: &[u8]) -> Numbers {
        up_to_direct(journal, run)
    }

    fn next(&self, _read: OuterRead, seen: Numbers) -> Numbers {
        seen
    }
}
