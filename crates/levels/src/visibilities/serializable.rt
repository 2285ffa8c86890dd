ghost use Rattle.levels.specs.Axioms.{Serializable as SightSerializable};
ghost use Rattle.levels.specs.Rule.{serializable};
ghost use Rattle.levels.specs.Sights.{serializable_tells};
ghost use Rattle.levels.specs.Sharing.{serializable_local, serializable_thinned};

use crate::numbers::Numbers;
use crate::visibility::Visibility;
use journal::{Journal, OuterRead};

/// Every earlier member is visible.
#[derive(Drop)]
pub struct Serializable;

impl Visibility for Serializable {
    ghost sees = { λ _. SightSerializable };

    ghost visible = { λ _. serializable };

    ghost tells = { λ v. serializable_tells };

    ghost local = { λ v. serializable_local };

    ghost thinned = { λ v. serializable_thinned };

    fn first(&self, _journal: &Journal, _run: &[u8]) -> Numbers {
        Numbers::all()
    }

    fn next(&self, _read: OuterRead, seen: Numbers) -> Numbers {
        seen
    }
}
