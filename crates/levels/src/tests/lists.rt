use crate::tests::{Step, answers, commits};
use journal::Journal;

#[test]
fn what_is_not_a_closed_run_is_not_allowed(rt: HostRuntime) {
    let mut journal = Journal::new();
    commits(&rt, &mut journal, 0, 1, &[Step::Writes(0)]);
    assert_eq!(rt; journal.begin(1, 1), Ok(2));
    assert_eq!(rt; journal.abort(1), Ok(2));
    assert_eq!(rt; journal.begin(2, 1), Ok(3));
    commits(&rt, &mut journal, 0, 1, &[]);
    commits(&rt, &mut journal, 3, 1, &[Step::Reads(0, 1)]);
    assert_eq!(rt; answers(&journal, &[]), [false; 8]);
    for number in [0, 2, 3, 4, 5, 6, 33, 255] {
        assert_eq!(rt; answers(&journal, &[number]), [false; 8]);
        assert_eq!(rt; answers(&journal, &[number, 1]), [false; 8]);
    }
    assert_eq!(rt; answers(&journal, &[1, 1]), [false; 8]);
    assert_eq!(rt; answers(&journal, &[1, 4, 1]), [false; 8]);
    assert_eq!(rt; answers(&journal, &[1; 33]), [false; 8]);
    assert_eq!(rt; answers(&journal, &[1]), [true; 8]);
    assert_eq!(rt; answers(&journal, &[1, 4]), [true; 8]);
    assert_eq!(rt; answers(&journal, &[1, 5, 4]), [true; 8]);
}

#[test]
fn an_aborted_transaction_binds_nobody(rt: HostRuntime) {
    let mut journal = Journal::new();
    assert_eq!(rt; journal.begin(0, 6), Ok(1));
    assert_eq!(rt; journal.write(0, 0), Ok(1));
    assert_eq!(rt; journal.abort(0), Ok(1));
    commits(&rt, &mut journal, 0, 6, &[Step::Reads(0, 0)]);
    assert_eq!(rt; answers(&journal, &[2]), [true; 8]);
}

#[test]
fn a_run_may_hold_32_and_no_more(rt: HostRuntime) {
    let mut journal = Journal::new();
    for number in 1..33u8 {
        commits(&rt, &mut journal, 0, 6, &[Step::Writes(number)]);
    }
    let run = [
        1, 2, 3, 4, 5, 6, 7, 8, 9, 10, 11, 12, 13, 14, 15, 16, 17, 18, 19, 20, 21, 22, 23, 24, 25,
        26, 27, 28, 29, 30, 31, 32,
    ];
    assert_eq!(rt; answers(&journal, &run), [true; 8]);
    let long = [
        1, 2, 3, 4, 5, 6, 7, 8, 9, 10, 11, 12, 13, 14, 15, 16, 17, 18, 19, 20, 21, 22, 23, 24, 25,
        26, 27, 28, 29, 30, 31, 32, 33,
    ];
    assert_eq!(rt; answers(&journal, &long), [false; 8]);
}
