// Bits in words of 64, from the lowest bit of the first word on.
ghost use Rattle.std.specs.{Prelude.{◌≡◌, ◌/◌, ◌^◌, ◌<◌, ◌↔◌, length, sum_by, count_ones, IsNone, IfSome}, List.{position}};
ghost use Rattle.df_freeset.specs.Bits.{is_open, setting, clearing, AreWords, AreFull, IsLowestZero};

/// Bits of a word.
pub(crate) const WORD: u64 = 64;

/// The first word that has a zero.
fn first_open(words: &[u64]) -> Option<usize>
    ensures { result ≡ position is_open words.now }
{
    words.iter().position(|word| *word != u64::MAX)
}

/// The number of the lowest zero, None exactly where every word is full. No word is looked at past the one that has it.
pub(crate) fn lowest_zero(words: &[u64]) -> Option<u64>
    requires size { length words.now < 2 ^ 32 }
    requires fit { AreWords words.now }
    ensures none { IsNone result ↔ AreFull words.now }
    ensures lowest { IfSome result (IsLowestZero words.now) }
{
    let word = first_open(words)?;
    Some(word as u64 * WORD + u64::from(words[word].trailing_ones()))
}

/// Sets a bit.
pub(crate) fn set_bit(words: &mut [u64], bit: u64)
    requires { bit / 64 < length words.old }
    ensures { words.new ≡ setting words.old bit }
{
    words[(bit / WORD) as usize] |= 1 << (bit % WORD);
}

/// Clears a bit.
pub(crate) fn clear_bit(words: &mut [u64], bit: u64)
    requires { bit / 64 < length words.old }
    ensures { words.new ≡ clearing words.old bit }
{
    words[(bit / WORD) as usize] &= !(1 << (bit % WORD));
}

/// How many bits are set.
pub(crate) fn ones_in(words: &[u64]) -> u64
    requires { length words.now < 2 ^ 32 }
    ensures { result ≡ sum_by count_ones words.now }
{
    words.iter().map(|word| u64::from(word.count_ones())).sum()
}
