//! A route with one of its lines changed.
use crate::stop::RowsError;
use fpga_text::whole_number_of;
use std::alloc::Global;

/// The route as a row has it: the number of a line, counted from 1, and what stands there in its
/// place. At `end` the route ends before that line.
pub(crate) fn changed_route(alloc: Global, route: &str, row: &str) -> Result<String, RowsError> {
    let (word, text) = row.split_once(' ').unwrap_or((row, ""));
    let number = whole_number_of(word.as_bytes()).unwrap_or(0);
    let mut changed = String::new(alloc);
    for (i, line) in route.lines().enumerate() {
        let is_here = i as u64 + 1 == number;
        if is_here && text == "end" {
            break;
        }
        changed.push_str(if is_here { text } else { line })?;
        changed.push('\n')?;
    }
    Ok(changed)
}
