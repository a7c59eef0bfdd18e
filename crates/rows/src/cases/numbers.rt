//! Numbers on the lines of a case.
use crate::cases::stop::LineFault;
use std::alloc::Global;

/// The number that a word is.
pub fn number(word: &str) -> Result<u64, LineFault> {
    match word.parse::<u64>() {
        Ok(number) => Ok(number),
        Err(_) => Err(LineFault::NotUnderstood),
    }
}

/// The numbers that words are.
pub fn numbers(alloc: Global, words: &str) -> Result<Vec<u64>, LineFault> {
    let mut all = Vec::new(alloc);
    for word in words.split(' ') {
        all.push(number(word)?)?;
    }
    Ok(all)
}
