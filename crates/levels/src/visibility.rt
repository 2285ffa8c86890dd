ghost use Rattle.journal.specs.Calls.{of_journal};
ghost use Rattle.levels.specs.Axioms.{Sight};
ghost use Rattle.levels.specs.Rule.{Visible};
ghost use Rattle.levels.specs.Visibility.{SeesLocally, SeesThinned, ShowsFirst, ShowsNext, Tells};

use crate::numbers::Numbers;
use journal::{Journal, OuterRead};

/// Which earlier members of a closed run are visible to the outer reads of its last member: a
/// relation, a test that decides it, and the sets that the rule goes by.
// Journal and run come apart: who asks has the two, and only the run changes between questions.
pub trait Visibility {
    ghost sees: { Self → Sight };

    ghost visible: { Self → Visible };

    /// What the first read of the last member sees. Of a list that is not a closed run nothing is asked.
    fn first(&self, journal: &Journal, run: &[u8]) -> Numbers
        ensures { ShowsFirst (visible self.now) (of_journal journal.now) run.now result };

    /// What the next read sees, from the read before it and what that one sees.
    // Five of six give back what they got. A body here would have to show for every visibility what holds of those alone,
    // and a trait for them would repeat all of this one.
    fn next(&self, read: OuterRead, seen: Numbers) -> Numbers
        ensures { ShowsNext (visible self.now) read seen result };

    ghost tells: { (v : Self) → Tells (visible v) (sees v) };

    ghost local: { (v : Self) → SeesLocally (sees v) };

    ghost thinned: { (v : Self) → SeesThinned (sees v) };
}
