use crate::numbers::Numbers;
use crate::tests::{Step, commits};
use journal::{Journal, Transaction};
use std::test::Fail;

fn kiosk_of(t: Transaction) -> u8 {
    t.kiosk()
}

fn twice(t: Transaction) -> [u8; 2] {
    [kiosk_of(t), kiosk_of(t)]
}

fn holds_seven(set: Numbers) -> bool {
    set.holds(7)
}

/// A crate above passes both by value and uses them again: they are copied, and that is proved.
#[test]
fn transactions_and_sets_are_copied(rt: HostRuntime) -> Result<(), Fail> {
    let mut journal = Journal::new();
    commits(&rt, &mut journal, 5, 1, &[Step::Writes(0)]);
    let Some(t) = journal.transaction(1) else {
        return Err(Fail::new("number 1 has begun"));
    };
    assert_eq!(rt; twice(t), [5, 5]);
    let mut set = Numbers::none();
    let before = set;
    set.insert(7);
    assert!(rt; holds_seven(set) && holds_seven(set) && !holds_seven(before));
    Ok(())
}
