//! How much memory the program has taken, as the system tells it.

use std::io::Read;
use std::rt::Files;
use std::{fs, str};

// Where the system tells of the memory of the program that asks.
const STATUS: &str = "/proc/self/status";

// Its text is shorter than this.
const ROOM: usize = 4096;

/// The kibibytes that the program has taken at the most so far, if the system tells them.
pub fn peak_kibibytes<R: Files>(rt: &R) -> Option<u64> {
    let Ok(mut file) = fs::open(rt, STATUS) else {
        return None;
    };
    let mut text = [0; ROOM];
    let Ok(length) = file.read(&mut text) else {
        return None;
    };
    peak_in(&text[..length])
}

// The kibibytes of the line that tells the peak.
fn peak_in(text: &[u8]) -> Option<u64> {
    let Ok(text) = str::from_utf8(text) else {
        return None;
    };
    for line in text.lines() {
        if let Some(said) = line.strip_prefix("VmHWM:") {
            return number_in(said);
        }
    }
    None
}

// The number that a line begins with, behind blanks.
fn number_in(said: &str) -> Option<u64> {
    let Some(word) = said.split_whitespace().next() else {
        return None;
    };
    word.parse().ok()
}
