ghost use Rattle.levels.specs.Layering.{never_lawful};
ghost use Rattle.levels.specs.Layers.{never};

use crate::level::Level;
use journal::Journal;

/// Says no of everything.
#[derive(Drop)]
pub struct Never;

impl Level for Never {
    ghost meaning = { λ _. never };

    ghost lawful = { λ _. never_lawful };

    fn allows(&self, _journal: &Journal, _run: &[u8]) -> bool {
        false
    }
}
