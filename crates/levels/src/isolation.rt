//! The levels by name, and the question put to each.

ghost use Rattle.journal.specs.Calls.{of_journal};
ghost use Rattle.std.specs.Prelude.{◌≡◌, ◌↔◌, IsTrue};

use crate::level::Level;
use crate::levels::{snapshot, standing};
use crate::rule::Rule;
use crate::visibilities::{Causal, Conflict, Prefix, ReadAtomic, ReadCommitted, Serializable};
use journal::Journal;

/// A level, by its name.
#[derive(Clone, Copy, PartialEq, Eq, Debug)]
pub enum Isolation {
    /// A read sees what its kiosk did before and what earlier reads came from.
    ReadCommitted,
    /// A read sees the direct dependencies of its transaction.
    ReadAtomic,
    /// A read sees all that its transaction depends on, directly or not.
    Causal,
    /// A read sees a beginning of the run, up to the last direct dependency.
    Prefix,
    /// A read sees a beginning of the run, up to the last writer of a row that its transaction
    /// wrote too.
    Conflict,
    /// Prefix and conflict both.
    Snapshot,
    /// A read sees all that stands before its transaction.
    Serializable,
    /// Each transaction by the level of its own mark.
    Standing,
}

impl Level for Isolation {
    ghost use Rattle.levels.specs.Isolation.{AxiomOf, isolation_lawful, meaning_of};

    ghost meaning = { meaning_of };

    ghost lawful = { isolation_lawful };

    /// Yes exactly where the axiom of the level holds.
    #[tactic(auto, using(crate::proofs::Exactness::answer_decides))]
    fn allows(&self, journal: &Journal, run: &[u8]) -> bool
        ensures meaning { result ≡ meaning_of self.now (of_journal journal.now) run.now }
        ensures exactly { IsTrue result ↔ AxiomOf self.now (of_journal journal.now) run.now }
    {
        match self {
            Isolation::ReadCommitted => Rule::new(ReadCommitted).allows(journal, run),
            Isolation::ReadAtomic => Rule::new(ReadAtomic).allows(journal, run),
            Isolation::Causal => Rule::new(Causal).allows(journal, run),
            Isolation::Prefix => Rule::new(Prefix).allows(journal, run),
            Isolation::Conflict => Rule::new(Conflict).allows(journal, run),
            Isolation::Snapshot => snapshot().allows(journal, run),
            Isolation::Serializable => Rule::new(Serializable).allows(journal, run),
            Isolation::Standing => standing().allows(journal, run),
        }
    }
}
