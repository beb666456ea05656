// The words of a line, and the bytes of a line of a script.
use crate::trouble::Trouble;
use std::alloc::Global;

/// The words of a line, which blanks separate; one in double quotes may hold blanks, or nothing.
pub(crate) fn words_of(alloc: Global, line: &str) -> Result<Vec<String>, Trouble> {
    let mut words = Vec::new(alloc);
    let mut word = String::new(alloc);
    let mut quoted = false;
    let mut begun = false;
    for letter in line.chars() {
        if letter == '"' {
            quoted = !quoted;
            begun = true;
        } else if letter == ' ' && !quoted {
            if begun {
                words.push(word)?;
                word = String::new(alloc);
                begun = false;
            }
        } else {
            word.push(letter)?;
            begun = true;
        }
    }
    if begun {
        words.push(word)?;
    }
    Ok(words)
}

// The letter that an escape stands for.
fn escaped(letter: char) -> char {
    match letter {
        'r' => '\r',
        '0' => '\0',
        't' => '\t',
        other => other,
    }
}

/// Adds a line of a script, with its end unless the line's last letter says that there is none.
pub(crate) fn add_script_line(script: &mut String, line: &str) -> Result<(), Trouble> {
    let mut escapes = false;
    for letter in line.chars() {
        if escapes {
            script.push(escaped(letter))?;
            escapes = false;
        } else if letter == '\\' {
            escapes = true;
        } else {
            script.push(letter)?;
        }
    }
    if !escapes {
        script.push('\n')?;
    }
    Ok(())
}
