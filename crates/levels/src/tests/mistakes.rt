use crate::tests::{N, Step, Y, answers, commits};
use journal::Journal;

#[test]
fn an_earlier_read_of_another_row_binds_read_committed(rt: HostRuntime) {
    let mut journal = Journal::new();
    commits(&rt, &mut journal, 0, 1, &[Step::Writes(0), Step::Writes(1)]);
    commits(
        &rt,
        &mut journal,
        1,
        1,
        &[Step::Reads(1, 1), Step::Reads(0, 0)],
    );
    assert_eq!(rt; answers(&journal, &[1, 2]), [N, N, N, N, Y, N, N, N]);
}

#[test]
fn the_reader_is_not_its_own_dependency_or_conflict(rt: HostRuntime) {
    let mut journal = Journal::new();
    commits(&rt, &mut journal, 0, 1, &[Step::Writes(0)]);
    commits(
        &rt,
        &mut journal,
        1,
        1,
        &[Step::Reads(0, 0), Step::Writes(1)],
    );
    assert_eq!(rt; answers(&journal, &[1, 2]), [Y, Y, Y, Y, Y, Y, N, Y]);
}

#[test]
fn a_kiosk_sees_what_it_wrote(rt: HostRuntime) {
    let mut journal = Journal::new();
    commits(&rt, &mut journal, 0, 1, &[Step::Writes(0)]);
    commits(&rt, &mut journal, 0, 1, &[Step::Reads(0, 0)]);
    assert_eq!(rt; answers(&journal, &[1, 2]), [N, N, N, N, Y, N, N, N]);
}

#[test]
fn a_read_is_judged_by_the_readers_mark(rt: HostRuntime) {
    let mut strict = Journal::new();
    commits(&rt, &mut strict, 0, 1, &[Step::Writes(0), Step::Writes(1)]);
    commits(
        &rt,
        &mut strict,
        1,
        2,
        &[Step::Reads(0, 0), Step::Reads(1, 1)],
    );
    assert_eq!(rt; answers(&strict, &[1, 2]), [Y, N, N, N, Y, N, N, N]);
    let mut lax = Journal::new();
    commits(&rt, &mut lax, 0, 2, &[Step::Writes(0), Step::Writes(1)]);
    commits(&rt, &mut lax, 1, 1, &[Step::Reads(0, 0), Step::Reads(1, 1)]);
    assert_eq!(rt; answers(&lax, &[1, 2]), [Y, N, N, N, Y, N, N, Y]);
}
