//! What is said of an outcome of a run.
use desk_io::FileDesk;
use route_sweep::FileSlot;
use router_says::{SystemErrors, append_words};
use run_outcome::{Outcome, Ran, Slot, TextFile};
use std::io::ErrorKind;
use std::test::Fail;

// What is said of an outcome of a run with these words, where no file was found, none had room, and
// nobody listened.
fn said(rt: &HostRuntime, line: &str, outcome: Outcome) -> Result<String, Fail> {
    let mut words = Vec::new(rt.alloc());
    for word in line.split_whitespace() {
        words.push(String::from_str(rt.alloc(), word)?)?;
    }
    let mut out = String::new(rt.alloc());
    let errors = SystemErrors {
        reading: Some(ErrorKind::NotFound),
        writing: Some(ErrorKind::StorageFull),
        saying: Some(ErrorKind::BrokenPipe),
    };
    let ran = Ran {
        outcome,
        problem: None,
        reason: None,
    };
    append_words(
        rt.alloc(),
        &mut FileDesk::new(rt),
        &mut out,
        &words,
        &ran,
        errors,
    )?;
    Ok(out)
}

const ROUTE: &str = "route a.arch a.net a.place big.route 9 out";

const SWEEP: &str = "sweep a.arch a.net a.place big.route 9 out";

const GEN: &str = "gen 1 20 300 made";

const GLOBAL: &str = "global a.arch a.net a.place 9 out";

const FREE: &str = "global a.arch a.net a.place 64 out --free";

const VERIFY: &str = "verify a.arch a.net a.place big.route 9 out.route";

#[test]
fn all_that_is_said(rt: HostRuntime) -> Result<(), Fail> {
    let fault = Outcome::InputFault {
        file: TextFile::Problem(fpga_problem::TextFile::Route),
        line: 28,
        code: 510,
    };
    let limit = Outcome::Limit {
        file: Some(TextFile::Routed),
        code: 407,
        count: 101,
    };
    let cases = [
        (
            ROUTE,
            fault,
            "route file big.route, line 28: the cells of this channel and the one before it do \
            not meet (code 510)\n",
        ),
        (
            VERIFY,
            limit,
            "routed file out.route: an array that is larger, or more nets, than are taken: 101 \
            (code 407)\n",
        ),
        (
            ROUTE,
            Outcome::OutOfMemory,
            "Memory ran out, so that nothing was found.\n",
        ),
        (
            GLOBAL,
            Outcome::Unfound {
                width: 9,
                rounds: 500,
                stopped: false,
            },
            "Whether there is a route with 9 tracks is open: the search found none in 500 rounds.\n\
            Try --rounds 5000, --free, a greater width or another placement.\n",
        ),
        (
            GLOBAL,
            Outcome::Unfound {
                width: 9,
                rounds: 40,
                stopped: false,
            },
            "Whether there is a route with 9 tracks is open: the search found none in 40 rounds.\n\
            Try --free, a greater width or another placement.\n",
        ),
        (
            FREE,
            Outcome::Unfound {
                width: 64,
                rounds: 100_000,
                stopped: false,
            },
            "Whether there is a route with 64 tracks is open: the search found none in 100000 \
            rounds.\nTry another placement.\n",
        ),
        (
            GLOBAL,
            Outcome::Unfound {
                width: 9,
                rounds: 40,
                stopped: true,
            },
            "Whether there is a route with 9 tracks is open: the search found none in 40 rounds \
            before its time was over.\nTry more --seconds, --free, a greater width or another \
            placement.\n",
        ),
        (
            GLOBAL,
            Outcome::NoWay { width: 2 },
            "There is no route with 2 tracks: of the net that the first line names, none of the \
            wires that its driver opens leads to one that a sink of it opens, whatever the other \
            nets have.\nAnother width, other boxes or other switch blocks may have a way.\n",
        ),
        (GLOBAL, Outcome::Routed { width: 9 }, ""),
        (ROUTE, Outcome::Routed { width: 9 }, ""),
    ];
    for (line, outcome, text) in cases {
        assert!(rt; said(&rt, line, outcome)?.as_str() == text);
    }
    Ok(())
}

// No greater budget is told than is taken; more time is told where fewer clauses were learned than
// the budget has; and what a sweep has shown is told where memory runs out.
#[test]
fn parts_of_what_is_said(rt: HostRuntime) -> Result<(), Fail> {
    let left_open = |learned| Outcome::Undecided { width: 9, learned };
    let cases = [
        (
            ROUTE,
            left_open(50_000_000),
            "Try --conflicts 100000000, or hand out.cnf to",
        ),
        (
            ROUTE,
            left_open(100_000_000),
            "No greater budget is taken: hand out.cnf to",
        ),
        (
            ROUTE,
            left_open(999_999),
            "999999 clauses before its time was over.\nTry more --seconds, or hand out.cnf to",
        ),
        (
            SWEEP,
            Outcome::OutOfMemory,
            "of which this run wrote out.wK.lrat are refuted",
        ),
    ];
    for (line, outcome, part) in cases {
        assert!(rt; said(&rt, line, outcome)?.as_str().contains(part));
    }
    Ok(())
}

// What the system refused, by its name, and why.
#[test]
fn what_is_said_of_a_fault(rt: HostRuntime) -> Result<(), Fail> {
    let unread = Outcome::ReadFault {
        file: TextFile::Problem(fpga_problem::TextFile::Netlist),
    };
    let unwritten = |slot| Outcome::WriteFault { slot };
    let clauses = unwritten(Slot::File(FileSlot::Clauses { width: 3 }));
    let route = unwritten(Slot::File(FileSlot::Route));
    let cases = [
        (
            ROUTE,
            unread,
            "netlist file a.net: it can't be read: no such file or folder\n",
        ),
        (
            ROUTE,
            clauses,
            "out.cnf: it can't be written: no space is left\n",
        ),
        (
            SWEEP,
            clauses,
            "out.w3.cnf: it can't be written: no space is left\n",
        ),
        (
            SWEEP,
            route,
            "out.route: it can't be written: no space is left\n",
        ),
        (
            GEN,
            unwritten(Slot::Placement),
            "made.place: it can't be written: no space is left\n",
        ),
        (
            VERIFY,
            unwritten(Slot::Said),
            "standard output: it can't be written: nobody reads it any more\n",
        ),
    ];
    for (line, outcome, text) in cases {
        assert!(rt; said(&rt, line, outcome)?.as_str() == text);
    }
    Ok(())
}
