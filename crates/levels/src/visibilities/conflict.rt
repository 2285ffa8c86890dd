ghost use Rattle.std.specs.Prelude.{◌&&◌, length};
ghost use Rattle.journal.specs.Calls.{of_journal};
ghost use Rattle.levels.specs.Axioms.{Conflict as SightConflict};
ghost use Rattle.levels.specs.Numbers.{HoldsExactly};
ghost use Rattle.levels.specs.Rule.{conflict};
ghost use Rattle.levels.specs.Tests.{both_wrote, earlier as stands_before};
ghost use Rattle.levels.specs.Visibility.{ShowsFirst};
ghost use Rattle.levels.specs.Sights.{conflict_tells};
ghost use Rattle.levels.specs.Sharing.{conflict_local, conflict_thinned};

use crate::dependencies::both_wrote;
use crate::numbers::Numbers;
use crate::visibilities::reach::up_to_marked;
use crate::visibility::Visibility;
use journal::{Journal, OuterRead};

/// The earlier members that wrote a row which the last one wrote too.
fn conflicting(journal: &Journal, earlier: &[u8], last: u8) -> Numbers
    ensures { HoldsExactly result (λ u. both_wrote (of_journal journal.now) u last && stands_before earlier.now u (length earlier.now)) }
{
    let mut found = Numbers::none();
    for &member in earlier {
        if both_wrote(journal, member, last) {
            found.insert(member);
        }
    }
    found
}

/// The members up to the last one that wrote a row which the run's last member wrote too.
fn up_to_conflicting(journal: &Journal, run: &[u8]) -> Numbers
    ensures { ShowsFirst conflict (of_journal journal.now) run.now result }
{
    let [earlier @ .., last] = run else {
        return Numbers::none();
    };
    up_to_marked(earlier, &conflicting(journal, earlier, *last))
}

/// An earlier member that wrote a row which the last one wrote too is visible, and so is what stands before it.
#[derive(Drop)]
pub struct Conflict;

impl Visibility for Conflict {
    ghost sees = { λ _. SightConflict };

    ghost visible = { λ _. conflict };

    ghost tells = { λ v. conflict_tells };

    ghost local = { λ v. conflict_local };

    ghost thinned = { λ v. conflict_thinned };

    fn first(&self, journal: &Journal, run: &[u8]) -> Numbers {
        up_to_conflicting(journal, run)
    }

    fn next(&self, _read: OuterRead, seen: Numbers) -> Numbers {
        seen
    }
}
