// Numbers of a line: plain ones, sectors from one to another, and expressions over what a definition is given.
use crate::filling::Given;
use crate::trouble::Trouble;
use std::alloc::Global;

/// A plain number.
pub(crate) fn number(word: &str) -> Result<u64, Trouble> {
    match word.parse::<u64>() {
        Ok(number) => Ok(number),
        Err(_) => Err(Trouble::NoMeaning("a number is wanted")),
    }
}

/// The first and the last of the sectors that a word names: `5`, or `0-3`.
pub(crate) fn span(word: &str) -> Result<(u64, u64), Trouble> {
    match word.split_once('-') {
        Some((first, last)) => Ok((number(first)?, number(last)?)),
        None => {
            let only = number(word)?;
            Ok((only, only))
        }
    }
}

/// The bytes that hex digits spell, of all words together.
pub(crate) fn bytes(alloc: Global, words: &[String]) -> Result<Vec<u8>, Trouble> {
    let mut digits = Vec::new(alloc);
    for word in words {
        digits.extend_from_slice(word.as_bytes())?;
    }
    match hex::decode(alloc, digits.as_slice()) {
        Ok(bytes) => Ok(bytes),
        Err(_) => Err(Trouble::NoMeaning("pairs of hex digits are wanted")),
    }
}

// What one step of an expression gives.
fn step(sign: char, before: u64, number: u64) -> Result<u64, Trouble> {
    let after = match sign {
        '+' => before.checked_add(number),
        '-' => before.checked_sub(number),
        '*' => before.checked_mul(number),
        '/' => before.checked_div(number),
        _ => before.checked_rem(number),
    };
    match after {
        Some(after) => Ok(after),
        None => Err(Trouble::NoMeaning("an expression has no value")),
    }
}

fn is_sign(letter: char) -> bool {
    matches!(letter, '+' | '-' | '*' | '/' | '%')
}

/// The value of an expression: numbers and names with signs between them, from left to right.
pub(crate) fn value(alloc: Global, text: &str, given: &Given) -> Result<u64, Trouble> {
    let mut total = 0u64;
    let mut sign = '+';
    let mut part = String::new(alloc);
    for letter in text.chars() {
        if is_sign(letter) {
            total = step(sign, total, given.number(part.as_str())?)?;
            part = String::new(alloc);
            sign = letter;
        } else {
            part.push(letter)?;
        }
    }
    step(sign, total, given.number(part.as_str())?)
}
