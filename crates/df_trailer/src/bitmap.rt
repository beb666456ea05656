// Bits in words of 64, from the lowest bit of the first word on: as bytes, and counted; and what is told of a text by them.
ghost use Rattle.std.specs.{Prelude.{◌≡◌, ◌≢◌, ◌+◌, ◌*◌, ◌/◌, ◌^◌, ◌<◌, ◌≤◌, ◌==◌, ℕ, length, nat_le}, Int.{bit_at}};
ghost use Rattle.df_base.specs.declared.TheConstants.{GREATEST};
ghost use Rattle.df_model.specs.Refusals.{first_refusal};
ghost use Rattle.df_trailer.specs.{Reading.{bits_tests, end_tests}, Rooms.{bits_in_words, byte_in_words}, Text.{bits_of, ones}};

use crate::fault::Failing;
use crate::head::{ends, says};
use df_layout::Field;

/// Bits of a word.
const WORD: u64 = 64;

/// Changes a byte of the words.
pub(crate) fn put_byte(words: &mut [u64], place: usize, byte: u8)
    requires { place < 8 * length words.old }
    ensures length { length words.new ≡ length words.old }
    ensures here { byte_in_words words.new place ≡ byte }
    ensures others { (other : ℕ) → other < 8 * length words.old → other ≢ place → byte_in_words words.new other ≡ byte_in_words words.old other }
{
    let mut word = words[place / 8].to_le_bytes();
    word[place % 8] = byte;
    words[place / 8] = u64::from_le_bytes(word);
}

/// Tells whether a bit is set.
pub(crate) fn is_set(words: &[u64], place: u64) -> bool
    requires { place < 64 * length words.now }
    ensures { (bytes : ℕ) → place < 8 * bytes → result ≡ (bit_at (bits_in_words bytes words.now) place == 1) }
{
    (words[(place / WORD) as usize] >> (place % WORD)) & 1 == 1
}

/// Tells whether a bit after the first `blocks` is set, in as many whole bytes as these need.
pub(crate) fn has_unused(words: &[u64], blocks: u32) -> bool
    requires { blocks ≤ 64 * length words.now }
    ensures { result ≡ nat_le (2 ^ blocks) (bits_in_words ((blocks + 7) / 8) words.now) }
{
    for place in u64::from(blocks)..8 * u64::from(blocks).div_ceil(8) {
        if is_set(words, place) {
            return true;
        }
    }
    false
}

/// How many of the first `blocks` bits are set.
pub(crate) fn count_set(words: &[u64], blocks: u32) -> u64
    requires { blocks ≤ 64 * length words.now }
    ensures most { result ≤ blocks }
    ensures value { result ≡ ones (bits_of blocks (bits_in_words ((blocks + 7) / 8) words.now)) }
{
    let mut count = 0;
    for place in 0..u64::from(blocks) {
        if is_set(words, place) {
            count += 1;
        }
    }
    count
}

/// The first part of the bits that fails, where this many bytes came after a head of this many.
pub(crate) fn failing_bits(blocks: u32, head: u64, words: &[u64], behind: u64) -> Option<Failing>
    requires room { blocks ≤ 64 * length words.now }
    requires some { 0 < blocks }
    requires small { head + behind < GREATEST }
    ensures { result ≡ first_refusal (bits_tests blocks head ((blocks + 7) / 8) (bits_in_words ((blocks + 7) / 8) words.now) behind) }
{
    let size = u64::from(blocks.div_ceil(8));
    if behind < size {
        return ends(Field::TrailerBits, head + behind);
    }
    if has_unused(words, blocks) {
        return says(Field::TrailerBits, head + size - 1);
    }
    None
}

/// What fails where a text ends, this many bytes after a head of this many, with these bits.
pub(crate) fn failing_end(blocks: u32, head: u64, words: &[u64], behind: u64) -> Option<Failing>
    requires room { blocks ≤ 64 * length words.now }
    requires small { head + behind < GREATEST }
    ensures { result ≡ first_refusal (end_tests blocks head ((blocks + 7) / 8) (bits_in_words ((blocks + 7) / 8) words.now) behind) }
{
    let size = u64::from(blocks.div_ceil(8));
    if behind != size + 16 * count_set(words, blocks) {
        return ends(Field::TrailerEnd, head + behind);
    }
    None
}
