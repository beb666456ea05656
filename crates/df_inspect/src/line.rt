// A line in the making, in a buffer of its own and without taking memory, and its one call of the sink: words, numbers, places and what they show.
ghost use Rattle.std.specs.Prelude.{◌≡◌, ◌≤◌, ◌+◌, ◌++◌, length, decimal};
ghost use Rattle.df_base.specs.Causes.{HasCause};
ghost use Rattle.df_script_model.specs.Texts.{class_text, damaged_text, line_of, numbered, place_text, spaced};
ghost use Rattle.df_inspect.specs.Prints.{Prints};

use arrayvec::ArrayVec;
use df_base::{Failed, Sink};
use df_layout::{Class, Place, Zone};
use itoa::Buffer;

/// Bytes that each line fits whose body isn't shown, and each report of numbers: twelve numbers of at most 40 digits with
/// their words, or four classes with a place each.
pub const LINE: usize = 640;

/// A line, or the front of one.
pub type Line = ArrayVec<u8, LINE>;

/// Puts a text at the end of the line.
pub fn put(line: &mut Line, text: &str)
    requires { length line.old.items + length text.now ≤ 640 }
    ensures put { line.new.items ≡ line.old.items ++ text.now }
    ensures room { length line.new.items ≡ length line.old.items + length text.now }
{
    let _ = line.try_extend_from_slice(text.as_bytes());
}

/// Puts a number at the end of the line.
pub fn put_number(line: &mut Line, number: u128)
    requires { length line.old.items + 40 ≤ 640 }
    ensures put { line.new.items ≡ line.old.items ++ decimal number }
    ensures room { length line.new.items ≤ length line.old.items + 40 }
{
    let mut buffer = Buffer::new();
    let digits = buffer.format(number).as_bytes();
    let _ = line.try_extend_from_slice(digits);
}

/// Puts a word, a space and a number at the end of the line.
pub(crate) fn put_numbered(line: &mut Line, word: &str, number: u128)
    requires { length line.old.items + length word.now + 41 ≤ 640 }
    ensures put { line.new.items ≡ line.old.items ++ numbered word.now number }
    ensures room { length line.new.items ≤ length line.old.items + length word.now + 41 }
{
    put(line, word);
    put(line, " ");
    put_number(line, number);
}

/// Puts a space, a word, a space and a number at the end of the line.
pub(crate) fn put_field(line: &mut Line, word: &str, number: u128)
    requires { length line.old.items + length word.now + 42 ≤ 640 }
    ensures put { line.new.items ≡ spaced line.old.items (numbered word.now number) }
    ensures room { length line.new.items ≤ length line.old.items + length word.now + 42 }
{
    put(line, " ");
    put_numbered(line, word, number);
}

/// Puts a line of a word and a number at the end of the lines.
pub(crate) fn put_row(line: &mut Line, word: &str, number: u128)
    requires { length line.old.items + length word.now + 42 ≤ 640 }
    ensures put { line.new.items ≡ line.old.items ++ line_of (numbered word.now number) }
    ensures room { length line.new.items ≤ length line.old.items + length word.now + 42 }
{
    put_numbered(line, word, number);
    put(line, "\n");
}

// Puts a place at the end of the line: the zone's name in the format, and its number in it.
fn put_place(line: &mut Line, place: Place)
    requires { length line.old.items + 54 ≤ 640 }
    ensures put { line.new.items ≡ line.old.items ++ place_text place }
    ensures room { length line.new.items ≤ length line.old.items + 54 }
{
    let index = u128::from(place.index);
    match place.zone {
        Zone::Superblock => put_numbered(line, "Superblock", index),
        Zone::WalHeaders => put_numbered(line, "WalHeaders", index),
        Zone::WalPrepares => put_numbered(line, "WalPrepares", index),
        Zone::ClientReplies => put_numbered(line, "ClientReplies", index),
        Zone::Grid => put_numbered(line, "Grid", index),
    }
}

/// Puts a class at the end of the line.
pub(crate) fn put_class(line: &mut Line, class: Class)
    requires { length line.old.items + 64 ≤ 640 }
    ensures put { line.new.items ≡ line.old.items ++ class_text class }
    ensures room { length line.new.items ≤ length line.old.items + 64 }
{
    match class {
        Class::Blank => put(line, "Blank"),
        Class::Garbled => put(line, "Garbled"),
        Class::Stale => put(line, "Stale"),
        Class::Elsewhere(place) => {
            put(line, "Elsewhere ");
            put_place(line, place);
        }
    }
}

/// A line that is said already.
pub fn text_line(text: &str) -> Line
    requires { length text.now ≤ 60 }
    ensures { result.items ≡ text.now }
{
    let mut line = ArrayVec::new();
    put(&mut line, text);
    line
}

/// Words and a number.
pub fn number_line(words: &str, number: u128) -> Line
    requires { length words.now ≤ 60 }
    ensures { result.items ≡ line_of (numbered words.now number) }
{
    let mut line = ArrayVec::new();
    put_numbered(&mut line, words, number);
    put(&mut line, "\n");
    line
}

/// Words and a number, a word and a number.
pub fn two_numbers_line(words: &str, number: u64, word: &str, other: u64) -> Line
    requires words { length words.now ≤ 60 }
    requires word { length word.now ≤ 60 }
    ensures { result.items ≡ line_of (spaced (numbered words.now number) (numbered word.now other)) }
{
    let mut line = ArrayVec::new();
    put_numbered(&mut line, words, u128::from(number));
    put_field(&mut line, word, u128::from(other));
    put(&mut line, "\n");
    line
}

/// Words and a place.
pub fn place_line(words: &str, place: Place) -> Line
    requires { length words.now ≤ 60 }
    ensures { result.items ≡ line_of (spaced words.now (place_text place)) }
{
    let mut line = ArrayVec::new();
    put(&mut line, words);
    put(&mut line, " ");
    put_place(&mut line, place);
    put(&mut line, "\n");
    line
}

/// Words, a place, and the class of what it shows.
pub fn classed_line(words: &str, place: Place, class: Class) -> Line
    requires { length words.now ≤ 60 }
    ensures { result.items ≡ line_of (spaced words.now (spaced (place_text place) (class_text class))) }
{
    let mut line = ArrayVec::new();
    put(&mut line, words);
    put(&mut line, " ");
    put_place(&mut line, place);
    put(&mut line, " ");
    put_class(&mut line, class);
    put(&mut line, "\n");
    line
}

/// The line that refuses a call since a place doesn't show its unit.
pub(crate) fn damaged_line(place: Place, class: Class) -> Line
    ensures { result.items ≡ damaged_text place class }
{
    classed_line("refused Damaged", place, class)
}

/// Writes a line by one call of the sink.
pub fn write_line<W: Sink>(sink: &mut W, line: &Line) -> Result<(), Failed>
    ensures prints { Prints line.now.items (W.written sink.old) (W.written sink.new) result }
    ensures cause { HasCause (W.faults sink.old) (W.faults sink.new) result }
{
    sink.write(line.as_slice())
}
