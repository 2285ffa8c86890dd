ghost use Rattle.journal.specs.Calls.{of_journal};
ghost use Rattle.levels.specs.Axioms.{Causal as SightCausal};
ghost use Rattle.levels.specs.Numbers.{HoldsExactly};
ghost use Rattle.levels.specs.Rule.{causal, linked, past};
ghost use Rattle.levels.specs.Runs.{Closed};
ghost use Rattle.levels.specs.Visibility.{ShowsFirst};
ghost use Rattle.levels.specs.Causality.{causal_tells};
ghost use Rattle.levels.specs.Sharing.{causal_local, causal_thinned};

use crate::dependencies::direct;
use crate::numbers::Numbers;
use crate::visibility::Visibility;
use journal::{Journal, OuterRead};

/// The direct dependencies of the last member, and of each member among them, by one backward pass.
fn causal_past(journal: &Journal, run: &[u8]) -> Numbers
    ensures linked { Closed (of_journal journal.now) run.now → HoldsExactly result (λ u. linked (of_journal journal.now) u (past (of_journal journal.now) run.now)) }
    ensures shows { ShowsFirst causal (of_journal journal.now) run.now result }
{
    let [earlier @ .., last] = run else {
        return Numbers::none();
    };
    let mut found = direct(journal, *last);
    for &member in earlier.iter().rev() {
        if found.holds(member) {
            found.add(&direct(journal, member));
        }
    }
    found
}

/// What leads to the last member by a chain of direct dependencies is visible.
#[derive(Drop)]
pub struct Causal;

impl Visibility for Causal {
    ghost sees = { λ _. SightCausal };

    ghost visible = { λ _. causal };

    ghost tells = { λ v. causal_tells };

    ghost local = { λ v. causal_local };

    ghost thinned = { λ v. causal_thinned };

    fn first(&self, journal: &Journal, run: &[u8]) -> Numbers {
        causal_past(journal, run)
    }

    fn next(&self, _read: OuterRead, seen: Numbers) -> Numbers {
        seen
    }
}
