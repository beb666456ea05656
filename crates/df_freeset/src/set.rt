// The free set over rooms that its owner lends: words of a bit for each address, and a summary of a bit for each full word.
ghost use Rattle.std.specs.Prelude.{◌≡◌, ◌+◌, ◌-◌, ◌/◌, ◌↔◌, Bool, true, false, List, length, replicate, vec_len, slice_set, All, IsNone, IfSome};
ghost use Rattle.df_freeset.specs.Addresses.{SetHasAddress, IsTaken, IsFree, IsLeastFree, AreAllTaken, count_free};

use crate::bits::{WORD, clear_bit, lowest_zero, ones_in, set_bit};
use std::marker::Model;

/// Which of the addresses 1 to `blocks` are taken; contracts see a Bool for each address in order.
#[derive(Drop)]
pub struct FreeSet {
    words: Vec<u64>,
    summary: Vec<u64>,
    blocks: u32,
}

impl Model for FreeSet {
    ghost use Rattle.std.specs.Prelude.{List, Bool};
    ghost use Rattle.df_freeset.specs.Bits.{taken_in, IsFreeSet};

    ghost Value = { List Bool };

    ghost view = { λ s. taken_in s.words.items s.blocks };

    ghost invariant = { λ s. IsFreeSet s.words.items s.summary.items s.blocks };
}

impl FreeSet {
    /// A set of `blocks` addresses that are all free, in a room of as many words as their bits need, and one of as many
    /// as the bits of these words need, all zero.
    pub fn over(words: Vec<u64>, summary: Vec<u64>, blocks: u32) -> FreeSet
        requires room { vec_len words ≡ (blocks + 63) / 64 }
        requires summary_room { vec_len summary ≡ (vec_len words + 63) / 64 }
        requires zero { All (λ word. word ≡ 0) words.items }
        requires summary_zero { All (λ word. word ≡ 0) summary.items }
        ensures { result ≡ replicate blocks false }
    {
        FreeSet {
            words,
            summary,
            blocks,
        }
    }

    /// Gives the room and the summary's back, with any bits in them.
    pub fn into_room(self) -> (Vec<u64>, Vec<u64>)
        ensures room { vec_len result.0 ≡ (length self + 63) / 64 }
        ensures summary_room { vec_len result.1 ≡ (vec_len result.0 + 63) / 64 }
    {
        let FreeSet {
            words,
            summary,
            blocks: _,
        } = self;
        (words, summary)
    }

    /// Takes an address; one that is taken stays so.
    pub fn take(&mut self, address: u64)
        requires { SetHasAddress self.old address }
        ensures taken { self.new ≡ slice_set self.old (address - 1) true }
        ensures fewer { IsFree self.old address → count_free self.new + 1 ≡ count_free self.old }
    {
        let bit = address - 1;
        set_bit(&mut self.words, bit);
        if self.words[(bit / WORD) as usize] == u64::MAX {
            set_bit(&mut self.summary, bit / WORD);
        }
    }

    /// Gives an address back; one that is free stays so.
    pub fn give(&mut self, address: u64)
        requires { SetHasAddress self.old address }
        ensures free { self.new ≡ slice_set self.old (address - 1) false }
        ensures more { IsTaken self.old address → count_free self.new ≡ count_free self.old + 1 }
    {
        let bit = address - 1;
        clear_bit(&mut self.words, bit);
        clear_bit(&mut self.summary, bit / WORD);
    }

    /// The least free address, None exactly where all are taken. It looks at words of the summary, and at one of the set's.
    pub fn least_free(&self) -> Option<u64>
        ensures none { IsNone result ↔ AreAllTaken self.now }
        ensures least { IfSome result (IsLeastFree self.now) }
    {
        let word = lowest_zero(&self.summary)?;
        let ones = self.words.get(word as usize)?.trailing_ones();
        let address = word * WORD + u64::from(ones) + 1;
        if address <= u64::from(self.blocks) {
            Some(address)
        } else {
            None
        }
    }

    /// How many addresses are free.
    pub fn free(&self) -> u64
        ensures value { result ≡ count_free self.now }
        ensures none { (result ≡ 0) ↔ AreAllTaken self.now }
    {
        u64::from(self.blocks) - ones_in(&self.words)
    }
}
