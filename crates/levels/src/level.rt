ghost use Rattle.journal.specs.Calls.{of_journal};
ghost use Rattle.levels.specs.Level.{Lawful, Meaning};
ghost use Rattle.std.specs.Prelude.{◌≡◌};

use journal::Journal;

/// What an order is judged by. Its meaning is a yes or a no for each journal and list of numbers.
pub trait Level {
    ghost meaning: { Self → Meaning };

    /// The meaning's answer on the journal and any list of numbers.
    // Two arguments and no pair: whoever asks has them apart, and asks of one journal about many runs.
    fn allows(&self, journal: &Journal, run: &[u8]) -> bool
        ensures { result ≡ meaning self.now (of_journal journal.now) run.now };

    ghost lawful: { (l : Self) → Lawful (meaning l) };
}
