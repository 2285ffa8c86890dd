use crate::mark::Mark;
use crate::record::Journal;
use crate::refusal::Refusal;
use crate::transaction::{OuterRead, State};
use std::test::Fail;

#[test]
fn a_row_that_it_wrote_is_read_from_itself(rt: HostRuntime) {
    let mut journal = Journal::new();
    assert_eq!(rt; journal.begin(0, 1), Ok(1));
    assert_eq!(rt; journal.read(0, 7, 1), Err(Refusal::NoSuchSource));
    assert_eq!(rt; journal.write(0, 7), Ok(1));
    assert_eq!(rt; journal.write(0, 7), Ok(1));
    assert_eq!(rt; journal.read(0, 7, 0), Err(Refusal::NotOwnNumber));
    assert_eq!(rt; journal.read(0, 7, 1), Ok(0));
    assert_eq!(rt; journal.write(0, 8), Ok(2));
}

#[test]
fn a_source_has_committed_and_wrote_the_row(rt: HostRuntime) {
    let mut journal = Journal::new();
    assert_eq!(rt; journal.begin(0, 1), Ok(1));
    assert_eq!(rt; journal.write(0, 3), Ok(1));
    assert_eq!(rt; journal.begin(1, 2), Ok(2));
    assert_eq!(rt; journal.read(1, 3, 1), Err(Refusal::NoSuchSource));
    assert_eq!(rt; journal.commit(0), Ok(1));
    assert_eq!(rt; journal.read(1, 3, 1), Ok(1));
    assert_eq!(rt; journal.read(1, 4, 1), Err(Refusal::NoSuchSource));
    assert_eq!(rt; journal.read(1, 3, 9), Err(Refusal::NoSuchSource));
    assert_eq!(rt; journal.write(1, 4), Ok(1));
    assert_eq!(rt; journal.abort(1), Ok(2));
    assert_eq!(rt; journal.begin(2, 3), Ok(3));
    assert_eq!(rt; journal.read(2, 4, 2), Err(Refusal::NoSuchSource));
}

#[test]
fn what_is_recorded_can_be_read(rt: HostRuntime) -> Result<(), Fail> {
    let mut journal = Journal::new();
    assert_eq!(rt; journal.begin(7, 6), Ok(1));
    assert_eq!(rt; journal.read(7, 63, 0), Ok(1));
    assert_eq!(rt; journal.write(7, 63), Ok(1));
    assert_eq!(rt; journal.commit(7), Ok(1));
    assert_eq!(rt; journal.begun(), 1);
    assert!(rt; journal.transaction(0).is_none());
    assert!(rt; journal.transaction(2).is_none());
    let Some(t) = journal.transaction(1) else {
        return Err(Fail::new("number 1 has begun"));
    };
    assert_eq!(rt; t.kiosk(), 7);
    assert_eq!(rt; t.mark(), Mark::Serializable);
    assert_eq!(rt; t.state(), State::Committed);
    assert_eq!(rt; t.reads(), [OuterRead { row: 63, source: 0 }].as_slice());
    assert!(rt; t.wrote(63) && !t.wrote(62) && !t.wrote(64));
    Ok(())
}

#[test]
fn limits(rt: HostRuntime) {
    let mut journal = Journal::new();
    assert_eq!(rt; journal.begin(8, 1), Err(Refusal::NoSuchKiosk));
    assert_eq!(rt; journal.begin(7, 0), Err(Refusal::NoSuchMark));
    assert_eq!(rt; journal.begin(7, 7), Err(Refusal::NoSuchMark));
    assert_eq!(rt; journal.commit(7), Err(Refusal::NothingOpen));
    for n in 1..33u8 {
        assert_eq!(rt; journal.begin(7, 1), Ok(n));
        for i in 1..17u8 {
            assert_eq!(rt; journal.read(7, i, 0), Ok(i));
        }
        assert_eq!(rt; journal.read(7, 3, 0), Err(Refusal::TooManyReads));
        assert_eq!(rt; journal.write(7, 64), Err(Refusal::NoSuchRow));
        assert_eq!(rt; journal.begin(7, 1), Err(Refusal::AlreadyOpen));
        assert_eq!(rt; journal.commit(7), Ok(n));
    }
    assert_eq!(rt; journal.begin(7, 1), Err(Refusal::JournalFull));
}

#[test]
fn the_first_refusal_due_is_given(rt: HostRuntime) {
    let mut journal = Journal::new();
    assert_eq!(rt; journal.begin(8, 0), Err(Refusal::NoSuchKiosk));
    assert_eq!(rt; journal.read(8, 64, 9), Err(Refusal::NoSuchKiosk));
    assert_eq!(rt; journal.read(0, 64, 9), Err(Refusal::NothingOpen));
    assert_eq!(rt; journal.begin(0, 1), Ok(1));
    assert_eq!(rt; journal.begin(0, 7), Err(Refusal::NoSuchMark));
    assert_eq!(rt; journal.read(0, 64, 9), Err(Refusal::NoSuchRow));
    assert_eq!(rt; u8::from(Refusal::TooManyReads), 9);
    assert_eq!(rt; Mark::try_from(5), Ok(Mark::Snapshot));
}
