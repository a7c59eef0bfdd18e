//! What is printed of a row that asks for nothing.
use crate::stop::RowsError;

/// Prints a line.
pub(crate) fn say(rt: &impl Print, line: &str) -> Result<(), RowsError> {
    println!(rt; "{line}")?;
    Ok(())
}
