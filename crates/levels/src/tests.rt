use crate::isolation::Isolation;
use crate::level::Level;
use journal::Journal;
use std::process::Abort;

mod copies;
mod layers;
mod lists;
mod mistakes;
mod rules;

const Y: bool = true;

const N: bool = false;

#[derive(Clone, Copy)]
enum Step {
    Reads(u8, u8),
    Writes(u8),
}

/// A transaction of the kiosk, with the mark and the steps, that commits.
fn commits(rt: &impl Abort, journal: &mut Journal, kiosk: u8, mark: u8, steps: &[Step]) {
    assert!(rt; journal.begin(kiosk, mark).is_ok());
    for step in steps {
        assert!(rt;
            match step {
                Step::Reads(row, source) => journal.read(kiosk, *row, *source).is_ok(),
                Step::Writes(row) => journal.write(kiosk, *row).is_ok(),
            }
        );
    }
    assert!(rt; journal.commit(kiosk).is_ok());
}

const LEVELS: [Isolation; 8] = [
    Isolation::ReadCommitted,
    Isolation::ReadAtomic,
    Isolation::Causal,
    Isolation::Prefix,
    Isolation::Conflict,
    Isolation::Snapshot,
    Isolation::Serializable,
    Isolation::Standing,
];

/// What each of the levels says of the list.
fn answers(journal: &Journal, run: &[u8]) -> [bool; 8] {
    LEVELS.map(|level| level.allows(journal, run))
}
