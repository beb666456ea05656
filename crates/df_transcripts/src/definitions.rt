// Definitions: lines with a name, and what they become when they are given arguments.
use crate::filling::{Given, fill};
use crate::lines::Line;
use crate::trouble::Trouble;
use std::alloc::Global;

// One definition.
#[derive(Drop)]
struct Definition {
    name: String,
    parameters: Vec<String>,
    lines: Vec<Line>,
}

/// All that a transcript has defined so far.
#[derive(Drop)]
pub(crate) struct Definitions {
    list: Vec<Definition>,
}

// A copy of these words.
fn copied(alloc: Global, words: &[String]) -> Result<Vec<String>, Trouble> {
    let mut copies = Vec::new(alloc);
    for word in words {
        copies.push(String::from_str(alloc, word.as_str())?)?;
    }
    Ok(copies)
}

impl Definitions {
    /// None.
    pub(crate) fn new(alloc: Global) -> Definitions {
        Definitions {
            list: Vec::new(alloc),
        }
    }

    /// Takes a definition off the lines that are still to be played, up to its `end`. The words are its name and its parameters.
    pub(crate) fn take(
        &mut self,
        alloc: Global,
        words: &[String],
        ahead: &mut Vec<Line>,
    ) -> Result<(), Trouble> {
        let [name, parameters @ ..] = words else {
            return Err(Trouble::NoMeaning("a definition has no name"));
        };
        let mut definition = Definition {
            name: String::from_str(alloc, name.as_str())?,
            parameters: copied(alloc, parameters)?,
            lines: Vec::new(alloc),
        };
        for _ in 0..ahead.len() {
            let Some(line) = ahead.pop() else {
                break;
            };
            if line.text.as_str() == "end" {
                self.list.push(definition)?;
                return Ok(());
            }
            definition.lines.push(line)?;
        }
        Err(Trouble::NoMeaning("a definition has no end"))
    }

    // The newest definition of this name.
    fn find(&self, name: &str) -> Option<&Definition> {
        self.list
            .iter()
            .rev()
            .find(|definition| definition.name.as_str() == name)
    }

    /// Puts the lines of a definition before those that are still to be played. The words are its name and its arguments.
    pub(crate) fn unfold(
        &self,
        alloc: Global,
        words: &[String],
        ahead: &mut Vec<Line>,
    ) -> Result<(), Trouble> {
        let [name, arguments @ ..] = words else {
            return Err(Trouble::NoMeaning("no definition is named"));
        };
        let Some(definition) = self.find(name.as_str()) else {
            return Err(Trouble::NoMeaning("no such definition"));
        };
        if definition.parameters.len() != arguments.len() {
            return Err(Trouble::NoMeaning("another number of arguments"));
        }
        let given = Given {
            names: copied(alloc, &definition.parameters)?,
            texts: copied(alloc, arguments)?,
        };
        for line in definition.lines.iter().rev() {
            ahead.push(Line {
                number: line.number,
                text: fill(alloc, line.text.as_str(), &given)?,
                filled: true,
            })?;
        }
        Ok(())
    }
}

// A word of a line, in quotes if it needs them.
fn add_word(line: &mut String, word: &str) -> Result<(), Trouble> {
    line.push_str(" \"")?;
    line.push_str(word)?;
    line.push('"')?;
    Ok(())
}

// A line that does a definition with a number before its arguments.
fn turn(alloc: Global, name: &str, number: u64, arguments: &[String]) -> Result<String, Trouble> {
    let mut line = format!(in alloc; "do {name} {number}")?;
    for argument in arguments {
        add_word(&mut line, argument.as_str())?;
    }
    Ok(line)
}

/// Puts a line for each number from the first to the last before those that are still to be played. The words are the
/// definition's name and its further arguments.
pub(crate) fn unfold_each(
    alloc: Global,
    at: u64,
    (first, last): (u64, u64),
    words: &[String],
    ahead: &mut Vec<Line>,
) -> Result<(), Trouble> {
    let [name, arguments @ ..] = words else {
        return Err(Trouble::NoMeaning("no definition is named"));
    };
    for before in (first..last.saturating_add(1)).rev() {
        ahead.push(Line {
            number: at,
            text: turn(alloc, name.as_str(), before, arguments)?,
            filled: true,
        })?;
    }
    Ok(())
}
