use crate::layers::{AtMark, Both, Either, Never, by_mark};
use crate::level::Level;
use crate::levels::snapshot;
use crate::rule::Rule;
use crate::tests::{Step, commits};
use crate::visibilities::{Causal, Prefix, ReadCommitted, Serializable};
use journal::{Journal, Mark};
use std::process::Abort;

/// The second reads what the first has overwritten, at a mark of its own.
fn stale_read(rt: &impl Abort, mark: u8) -> Journal {
    let mut journal = Journal::new();
    commits(rt, &mut journal, 0, 1, &[Step::Writes(0)]);
    commits(rt, &mut journal, 1, mark, &[Step::Reads(0, 0)]);
    journal
}

#[test]
fn both_asks_two_levels(rt: HostRuntime) {
    let journal = stale_read(&rt, 1);
    let lax = Both {
        first: Rule::new(Causal),
        second: Rule::new(Prefix),
    };
    assert!(rt; lax.allows(&journal, &[1, 2]));
    let first = Both {
        first: Rule::new(Serializable),
        second: Rule::new(Prefix),
    };
    assert!(rt; !first.allows(&journal, &[1, 2]));
    let second = Both {
        first: Rule::new(Prefix),
        second: Rule::new(Serializable),
    };
    assert!(rt; !second.allows(&journal, &[1, 2]));
}

#[test]
fn either_answers_as_the_one_it_holds(rt: HostRuntime) {
    let journal = stale_read(&rt, 1);
    for level in [
        Either::First(Rule::new(Causal)),
        Either::Second(Rule::new(Serializable)),
    ] {
        match level {
            Either::First(_) => assert!(rt; level.allows(&journal, &[1, 2])),
            Either::Second(_) => assert!(rt; !level.allows(&journal, &[1, 2])),
        }
    }
}

#[test]
fn by_mark_asks_the_level_of_the_last_mark(rt: HostRuntime) {
    for mark in 1..7u8 {
        let journal = stale_read(&rt, mark);
        let odd = by_mark(
            Rule::new(ReadCommitted),
            Never,
            snapshot(),
            Rule::new(Serializable),
            Rule::new(Causal),
            Never,
        );
        assert_eq!(rt; odd.allows(&journal, &[1, 2]), mark % 2 == 1);
        assert!(rt; odd.allows(&journal, &[1]));
        assert!(rt; !odd.allows(&journal, &[]));
    }
}

#[test]
fn at_mark_asks_one_level_at_its_mark_and_the_other_elsewhere(rt: HostRuntime) {
    for mark in 1..7u8 {
        let journal = stale_read(&rt, mark);
        let lax = AtMark {
            mark: Mark::Causal,
            at: Rule::new(Causal),
            other: Rule::new(Serializable),
        };
        assert_eq!(rt; lax.allows(&journal, &[1, 2]), mark == 3);
    }
}
