//! The levels that are made of levels.

ghost use Rattle.levels.specs.Axioms.{Snapshot as AxiomSnapshot, Standing as AxiomStanding};
ghost use Rattle.levels.specs.Layers.{snapshot, standing};
ghost use Rattle.levels.specs.Level.{Exact};
ghost use Rattle.std.specs.Prelude.{◌≡◌};

use crate::layers::{Both, ByMark, by_mark};
use crate::level::Level;
use crate::rule::Rule;
use crate::visibilities::{Causal, Conflict, Prefix, ReadAtomic, ReadCommitted, Serializable};

/// The type of snapshot isolation.
pub type Snapshot = Both<Rule<Prefix>, Rule<Conflict>>;

/// The type of the standing level.
pub type Standing = ByMark<
    Rule<ReadCommitted>,
    Rule<ReadAtomic>,
    Rule<Causal>,
    Rule<Prefix>,
    Snapshot,
    Rule<Serializable>,
>;

/// Snapshot isolation: prefix and conflict both.
pub fn snapshot() -> Snapshot
    ensures made { result ≡ record {
      first = record { visibility = record {} };
      second = record { visibility = record {} };
    } }
    ensures answers { ⟦<Snapshot as Level>⟧.meaning result ≡ snapshot }
    ensures exactly { Exact snapshot AxiomSnapshot }
{
    Both {
        first: Rule::new(Prefix),
        second: Rule::new(Conflict),
    }
}

/// The standing level: each transaction by the level of its own mark.
pub fn standing() -> Standing
    ensures made { result ≡ record {
      read_committed = record { visibility = record {} };
      read_atomic = record { visibility = record {} };
      causal = record { visibility = record {} };
      prefix = record { visibility = record {} };
      snapshot = record {
        first = record { visibility = record {} };
        second = record { visibility = record {} };
      };
      serializable = record { visibility = record {} };
    } }
    ensures answers { ⟦<Standing as Level>⟧.meaning result ≡ standing }
    ensures exactly { Exact standing AxiomStanding }
{
    by_mark(
        Rule::new(ReadCommitted),
        Rule::new(ReadAtomic),
        Rule::new(Causal),
        Rule::new(Prefix),
        snapshot(),
        Rule::new(Serializable),
    )
}
