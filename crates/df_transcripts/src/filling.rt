// What stands in braces, and what it is replaced by.
use crate::numbers::{number, value};
use crate::trouble::Trouble;
use std::alloc::Global;

/// What a definition is given: its parameters, each with its argument.
#[derive(Drop)]
pub(crate) struct Given {
    pub names: Vec<String>,
    pub texts: Vec<String>,
}

impl Given {
    /// Nothing.
    pub(crate) fn none(alloc: Global) -> Given {
        Given {
            names: Vec::new(alloc),
            texts: Vec::new(alloc),
        }
    }

    /// What a parameter of this name is given.
    pub(crate) fn text(&self, name: &str) -> Option<&str> {
        for (known, text) in self.names.iter().zip(self.texts.iter()) {
            if known.as_str() == name {
                return Some(text.as_str());
            }
        }
        None
    }

    /// The number that a parameter is given, or that the word is.
    pub(crate) fn number(&self, word: &str) -> Result<u64, Trouble> {
        match self.text(word) {
            Some(text) => number(text),
            None => number(word),
        }
    }
}

// Adds a text this many times.
fn repeat(line: &mut String, text: &str, count: u64) -> Result<(), Trouble> {
    for _ in 0..count {
        line.push_str(text)?;
    }
    Ok(())
}

// Adds what stands in the place of these braces.
fn add_value(alloc: Global, line: &mut String, inner: &str, given: &Given) -> Result<(), Trouble> {
    if let Some((text, count)) = inner.split_once(" x ") {
        let count = value(alloc, count, given)?;
        return repeat(line, given.text(text).unwrap_or(text), count);
    }
    if let Some(text) = given.text(inner) {
        line.push_str(text)?;
        return Ok(());
    }
    let text = match inner.split_once(':') {
        Some((expression, _)) => {
            let byte = value(alloc, expression, given)? % 256;
            format!(in alloc; "{byte:02x}")?
        }
        None => {
            let number = value(alloc, inner, given)?;
            format!(in alloc; "{number}")?
        }
    };
    line.push_str(text.as_str())?;
    Ok(())
}

/// The line with all its braces replaced.
pub(crate) fn fill(alloc: Global, line: &str, given: &Given) -> Result<String, Trouble> {
    let mut filled = String::new(alloc);
    let mut rest = line;
    for _ in 0..line.len() {
        let Some((before, behind)) = rest.split_once('{') else {
            break;
        };
        let Some((inner, after)) = behind.split_once('}') else {
            return Err(Trouble::NoMeaning("a brace isn't closed"));
        };
        filled.push_str(before)?;
        add_value(alloc, &mut filled, inner, given)?;
        rest = after;
    }
    filled.push_str(rest)?;
    Ok(filled)
}
