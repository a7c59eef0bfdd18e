//! The sections of a file of cases.
use std::alloc::{AllocError, Global};

/// What a section says: a text by its name, lines that stand before those of the cases that follow,
/// or a case.
#[derive(Clone, Copy)]
pub enum Heading<'a> {
    Part(&'a str),
    Common,
    Case(&'a str),
}

/// A heading, and the lines up to the next.
#[derive(Drop)]
pub struct Section<'a> {
    pub heading: Heading<'a>,
    pub lines: Vec<&'a str>,
}

// The heading that a line is, if it is one.
fn heading_of(line: &str) -> Option<Heading<'_>> {
    if line == "common" {
        return Some(Heading::Common);
    }
    let (word, name) = line.split_once(' ')?;
    match word {
        "part" => Some(Heading::Part(name)),
        "case" => Some(Heading::Case(name)),
        _ => None,
    }
}

/// The sections of a text, without the lines that are empty or begin with `#`. The first is what
/// stands before the first heading, as a part, so that nothing else is taken there.
pub fn sections(alloc: Global, text: &str) -> Result<Vec<Section<'_>>, AllocError> {
    let mut all = Vec::new(alloc);
    let mut open = Section {
        heading: Heading::Part("the front"),
        lines: Vec::new(alloc),
    };
    for line in text.lines() {
        if line.is_empty() || line.starts_with('#') {
            continue;
        }
        match heading_of(line) {
            Some(heading) => {
                all.push(open)?;
                open = Section {
                    heading,
                    lines: Vec::new(alloc),
                };
            }
            None => open.lines.push(line)?,
        }
    }
    all.push(open)?;
    Ok(all)
}
