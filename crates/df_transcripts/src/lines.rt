// The lines of a transcript, and those that are still to be played: the next one last.
use crate::filling::{Given, fill};
use crate::trouble::Trouble;
use std::alloc::Global;

/// A line, with its number in the file. In one that comes from a definition the braces are replaced already.
#[derive(Drop)]
pub(crate) struct Line {
    pub number: u64,
    pub text: String,
    pub filled: bool,
}

impl Line {
    /// Its text, with braces replaced.
    pub(crate) fn full(&self, alloc: Global) -> Result<String, Trouble> {
        if self.filled {
            Ok(String::from_str(alloc, self.text.as_str())?)
        } else {
            fill(alloc, self.text.as_str(), &Given::none(alloc))
        }
    }
}

// A text without the blanks that it begins with.
fn unindented(text: &str) -> &str {
    let mut rest = text;
    for _ in 0..text.len() {
        match rest.strip_prefix(' ') {
            Some(behind) => rest = behind,
            None => break,
        }
    }
    rest
}

/// All lines of a text, the first one last.
pub(crate) fn lines_of(alloc: Global, text: &str) -> Result<Vec<Line>, Trouble> {
    let mut lines = Vec::new(alloc);
    let mut number = 0u64;
    for line in text.lines() {
        number = number.saturating_add(1);
        lines.push(Line {
            number,
            text: String::from_str(alloc, unindented(line))?,
            filled: false,
        })?;
    }
    lines.as_mut_slice().reverse();
    Ok(lines)
}
