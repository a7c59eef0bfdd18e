//! No report has these words, which the errors of the crates say of themselves.
use desk_io::{Failed, ReadStop};
use fpga_problem::{Refusal, TextFile};
use fpga_text::TextFault;
use fpga_types::SizeFault;
use route_gen::GenStop;
use route_sweep::{FileSlot, Stop};
use router_words::{Refusal as WordsRefusal, WordsFault};
use run_outcome::{Outcome, report, status};
use std::alloc::Global;
use std::fmt::Display;

// Whether a value says this of itself.
fn says<D: Display + Drop>(alloc: Global, value: D, text: &str) -> bool {
    match format!(in alloc; "{value}") {
        Ok(said) => said.as_str() == text,
        Err(_) => false,
    }
}

#[test]
fn files(rt: HostRuntime) {
    let alloc = rt.alloc();
    assert!(rt; says(alloc, Failed, "a file was refused"));
    for (stop, text) in [
        (
            ReadStop::Fault,
            "the file is not there, or a read of it was refused",
        ),
        (ReadStop::TooLong, "the file has more bytes than its limit"),
        (ReadStop::Memory, "there is no memory for the file"),
    ] {
        assert!(rt; says(alloc, stop, text));
    }
}

#[test]
fn texts_of_a_problem(rt: HostRuntime) {
    let bad = TextFault::Bad { line: 3, code: 102 };
    let limit = TextFault::Limit {
        code: 209,
        count: 65_536,
    };
    for (file, fault, text) in [
        (
            TextFile::Architecture,
            bad,
            "architecture file: line 3: code 102",
        ),
        (
            TextFile::Netlist,
            limit,
            "netlist file: code 209: 65536 is past the limit",
        ),
        (
            TextFile::Placement,
            TextFault::Memory,
            "placement file: out of memory",
        ),
    ] {
        assert!(rt; says(rt.alloc(), Refusal { file, fault }, text));
    }
    assert!(rt; says(rt.alloc(), TextFile::Route, "route"));
}

#[test]
fn sizes(rt: HostRuntime) {
    let no_number = "a word is no number, or 0";
    assert!(rt; says(rt.alloc(), SizeFault::NoNumber, no_number));
    let past_limit = "101 is more than an array may have";
    assert!(rt; says(rt.alloc(), SizeFault::PastLimit { count: 101 }, past_limit));
}

#[test]
fn generated_problems(rt: HostRuntime) {
    assert!(rt; says(rt.alloc(), GenStop::Room, "there are more nets than blocks"));
    assert!(rt; says(rt.alloc(), GenStop::Memory, "out of memory"));
}

#[test]
fn words(rt: HostRuntime) {
    for (refusal, text) in [
        (WordsRefusal::Command, "the first word names no command"),
        (WordsRefusal::Form, "the command does not take these words"),
        (
            WordsRefusal::Number,
            "a word is no whole number in its range",
        ),
    ] {
        assert!(rt; says(rt.alloc(), WordsFault::Refused(refusal), text));
    }
    assert!(rt; says(rt.alloc(), WordsFault::Memory, "out of memory"));
}

#[test]
fn searches(rt: HostRuntime) {
    for (slot, text) in [
        (FileSlot::Route, "the file of the routing was not written"),
        (
            FileSlot::Clauses { width: 3 },
            "the file of the clauses was not written",
        ),
        (
            FileSlot::Log { width: 3 },
            "the file of the log was not written",
        ),
    ] {
        assert!(rt; says(rt.alloc(), Stop::Fault { slot }, text));
    }
    let many = "40000001 clauses are more than are built";
    assert!(rt; says(rt.alloc(), Stop::TooManyClauses { count: 40_000_001 }, many));
    let held = "40000001 clauses are more than searches hold together";
    assert!(rt; says(rt.alloc(), Stop::TooManyHeld { count: 40_000_001 }, held));
    assert!(rt; says(rt.alloc(), Stop::Memory, "out of memory"));
}

// Rows have the other reports and statuses, where memory does not run out.
#[test]
fn memory_of_a_run(rt: HostRuntime) {
    assert!(rt; status(&Outcome::OutOfMemory) == 7);
    assert!(rt; report(&Outcome::OutOfMemory).as_str() == "out of memory");
}
