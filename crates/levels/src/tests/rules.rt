use crate::tests::{N, Step, Y, answers, commits};
use journal::Journal;

#[test]
fn a_write_before_the_one_that_is_read_breaks_no_rule(rt: HostRuntime) {
    let mut journal = Journal::new();
    commits(&rt, &mut journal, 0, 6, &[Step::Writes(0)]);
    commits(&rt, &mut journal, 1, 6, &[Step::Writes(0)]);
    commits(&rt, &mut journal, 2, 6, &[Step::Reads(0, 2)]);
    assert_eq!(rt; answers(&journal, &[1, 2, 3]), [Y, Y, Y, Y, Y, Y, Y, Y]);
    assert_eq!(rt; answers(&journal, &[2, 3]), [Y, Y, Y, Y, Y, Y, Y, Y]);
    assert_eq!(rt; answers(&journal, &[2, 1, 3]), [Y, Y, Y, Y, Y, Y, N, N]);
    assert_eq!(rt; answers(&journal, &[2, 1]), [Y, Y, Y, Y, Y, Y, Y, Y]);
}

#[test]
fn read_committed_but_not_read_atomic(rt: HostRuntime) {
    let mut journal = Journal::new();
    commits(&rt, &mut journal, 0, 1, &[Step::Writes(0), Step::Writes(1)]);
    commits(
        &rt,
        &mut journal,
        1,
        1,
        &[Step::Reads(0, 0), Step::Reads(1, 1)],
    );
    assert_eq!(rt; answers(&journal, &[1, 2]), [Y, N, N, N, Y, N, N, Y]);
}

#[test]
fn read_atomic_but_not_causal(rt: HostRuntime) {
    let mut journal = Journal::new();
    commits(&rt, &mut journal, 0, 2, &[Step::Writes(0)]);
    commits(
        &rt,
        &mut journal,
        1,
        2,
        &[Step::Reads(0, 1), Step::Writes(1)],
    );
    commits(
        &rt,
        &mut journal,
        2,
        2,
        &[Step::Reads(1, 2), Step::Reads(0, 0)],
    );
    assert_eq!(rt; answers(&journal, &[1, 2, 3]), [Y, Y, N, N, Y, N, N, Y]);
}

#[test]
fn causal_but_not_prefix(rt: HostRuntime) {
    let mut journal = Journal::new();
    commits(&rt, &mut journal, 0, 3, &[Step::Writes(0)]);
    commits(&rt, &mut journal, 1, 3, &[Step::Writes(1)]);
    commits(
        &rt,
        &mut journal,
        2,
        3,
        &[Step::Reads(0, 0), Step::Reads(1, 2)],
    );
    assert_eq!(rt; answers(&journal, &[1, 2, 3]), [Y, Y, Y, N, Y, N, N, Y]);
    assert_eq!(rt; answers(&journal, &[2, 1, 3]), [Y, Y, Y, Y, Y, Y, N, Y]);
}

#[test]
fn prefix_but_not_conflict_and_so_not_snapshot(rt: HostRuntime) {
    let mut journal = Journal::new();
    commits(
        &rt,
        &mut journal,
        0,
        4,
        &[Step::Reads(3, 0), Step::Writes(3)],
    );
    commits(
        &rt,
        &mut journal,
        1,
        4,
        &[Step::Reads(3, 0), Step::Writes(3)],
    );
    assert_eq!(rt; answers(&journal, &[1, 2]), [Y, Y, Y, Y, N, N, N, Y]);
    assert_eq!(rt; answers(&journal, &[2, 1]), [Y, Y, Y, Y, N, N, N, Y]);
}

#[test]
fn snapshot_but_not_serializable(rt: HostRuntime) {
    let mut journal = Journal::new();
    commits(
        &rt,
        &mut journal,
        0,
        5,
        &[Step::Reads(0, 0), Step::Reads(1, 0), Step::Writes(0)],
    );
    commits(
        &rt,
        &mut journal,
        1,
        5,
        &[Step::Reads(0, 0), Step::Reads(1, 0), Step::Writes(1)],
    );
    assert_eq!(rt; answers(&journal, &[1, 2]), [Y, Y, Y, Y, Y, Y, N, Y]);
    assert_eq!(rt; answers(&journal, &[1]), [Y, Y, Y, Y, Y, Y, Y, Y]);
}
