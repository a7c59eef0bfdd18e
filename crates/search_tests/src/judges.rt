//! Logs that are judged as worked out by hand, each by a checker that has its text as a whole. What
//! is judged line by line is rows of `rows`.

use sat_check::{Verdict, check};
use sat_clause::{Cause, Lit, Log};
use sat_rat::check_full;
use sat_text::{read_cnf, read_lrat, read_lrat_full};
use std::alloc::Global;
use std::test::Fail;

/// Two variables have to be true, and not both may be.
const CLAUSES: &[u8] = b"p cnf 2 3\n1 0\n2 0\n-1 -2 0\n";

/// What a log says of the clauses, if it is read.
fn judged(alloc: Global, text: &[u8]) -> Option<Verdict> {
    let formula = read_cnf(alloc, CLAUSES).ok()?;
    let log = read_lrat(alloc, text, 3).ok()?;
    check(alloc, &formula, &log).ok()
}

/// The same of full LRAT.
fn judged_in_full(alloc: Global, text: &[u8]) -> Option<Verdict> {
    let formula = read_cnf(alloc, CLAUSES).ok()?;
    let log = read_lrat_full(alloc, text, 3).ok()?;
    check_full(alloc, &formula, &log).ok()
}

/// The verdict by the number of the step that is refused, or none, and why.
fn verdict(fault: Option<(u64, Cause)>) -> Verdict {
    match fault {
        None => Verdict::Accepted,
        Some((step, cause)) => Verdict::Refused { step, cause },
    }
}

#[test]
fn logs_of_three_clauses(rt: HostRuntime) {
    let cases: [(&[u8], Option<(u64, Cause)>); 6] = [
        (b"4 0 1 2 3 0", None),
        // Clauses that are not needed any more are deleted.
        (b"4 -1 0 2 3 0\n4 d 3 2 0\n5 0 1 4 0", None),
        // The first refused step counts.
        (
            b"4 0 1 0\n4 d 9 0\n5 0 1 2 3 0",
            Some((1, Cause::NoConflict)),
        ),
        (b"4 0 1 2 3 1 0", Some((1, Cause::HintAfterConflict))),
        (
            b"4 -1 0 2 3 0\n5 d 4 0\n6 0 1 4 0",
            Some((3, Cause::NotLive)),
        ),
        // A variable that the formula does not have.
        (b"4 9 8 0 1 2 3 0\n5 0 4 0", Some((2, Cause::StillOpen))),
    ];
    for (text, fault) in cases {
        assert!(rt; judged(rt.alloc(), text) == Some(verdict(fault)));
    }
}

/// What is said of a log in which an id comes again, as no text may have it.
fn judged_with_an_id_twice(alloc: Global) -> Option<Verdict> {
    let formula = read_cnf(alloc, CLAUSES).ok()?;
    let mut log = Log::new(alloc);
    log.reserve(2, 5).ok()?;
    log.add(1, &[Lit { code: -2 }], &[1, 3]);
    log.add(5, &[], &[1, 2]);
    check(alloc, &formula, &log).ok()
}

/// It stands for the later clause.
#[test]
fn an_id_that_comes_again(rt: HostRuntime) {
    assert!(rt; judged_with_an_id_twice(rt.alloc()) == Some(Verdict::Accepted));
}

/// A third variable is made up, and a clause behind it resolves with the one that does so.
const MADE_UP: &[u8] = b"4 3 1 0 0\n5 -3 -1 0 -4 0\n5 d 4 0\n6 0 1 2 3 0";

/// No plain log has a negative hint.
#[test]
fn groups_are_for_full_logs(rt: HostRuntime) {
    assert!(rt; judged(rt.alloc(), MADE_UP).is_none());
}

#[test]
fn logs_with_groups(rt: HostRuntime) {
    let cases: [(&[u8], Option<(u64, Cause)>); 2] = [
        (MADE_UP, None),
        (
            b"4 3 1 0 0\n5 -3 2 0 -4 0",
            Some((2, Cause::NoConflictInGroup)),
        ),
    ];
    for (text, fault) in cases {
        assert!(rt; judged_in_full(rt.alloc(), text) == Some(verdict(fault)));
    }
}
