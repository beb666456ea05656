// Items of a text, put one after the other into a room that shows a window of the text.
ghost use Rattle.std.specs.Prelude.{◌≡◌, ◌+◌, ◌<◌, ◌++◌, List, ℕ, length};
ghost use Rattle.df_base.specs.{declared.TheConstants.{GREATEST}, Fields.{spelled}};
ghost use Rattle.df_trailer.specs.Writing.{IsPieceShown};

use byteorder::{ByteOrder, LittleEndian};

/// Puts an item that stands at an offset of the text, as far as the window from `from` on shows it.
pub(crate) fn put(room: &mut [u8], from: u64, at: u64, item: &[u8]) -> u64
    requires small { at + length item.now < GREATEST }
    requires window { from + length room.old < GREATEST }
    ensures next { result ≡ at + length item.now }
    ensures shown { (text : List ℕ) → length text ≡ at → IsPieceShown text from room.old → IsPieceShown (text ++ item.now) from room.new }
    ensures length { length room.new ≡ length room.old }
{
    let end = at + item.len() as u64;
    if end <= from || from + room.len() as u64 <= at {
        return end;
    }
    for (i, byte) in item.iter().enumerate() {
        let offset = at + i as u64;
        if offset >= from && offset - from < room.len() as u64 {
            room[(offset - from) as usize] = *byte;
        }
    }
    end
}

/// Puts a number of 4 bytes.
#[tactic(auto, unfolding(df_base::specs::Fields::spelled))]
pub(crate) fn put_u32(room: &mut [u8], from: u64, at: u64, value: u32) -> u64
    requires small { at + 4 < GREATEST }
    requires window { from + length room.old < GREATEST }
    ensures next { result ≡ at + 4 }
    ensures shown { (text : List ℕ) → length text ≡ at → IsPieceShown text from room.old → IsPieceShown (text ++ spelled 4 value) from room.new }
    ensures length { length room.new ≡ length room.old }
{
    let mut field = [0u8; 4];
    LittleEndian::write_u32(&mut field, value);
    put(room, from, at, &field)
}

/// Puts a number of 8 bytes.
#[tactic(auto, unfolding(df_base::specs::Fields::spelled))]
pub(crate) fn put_u64(room: &mut [u8], from: u64, at: u64, value: u64) -> u64
    requires small { at + 8 < GREATEST }
    requires window { from + length room.old < GREATEST }
    ensures next { result ≡ at + 8 }
    ensures shown { (text : List ℕ) → length text ≡ at → IsPieceShown text from room.old → IsPieceShown (text ++ spelled 8 value) from room.new }
    ensures length { length room.new ≡ length room.old }
{
    let mut field = [0u8; 8];
    LittleEndian::write_u64(&mut field, value);
    put(room, from, at, &field)
}

/// Puts a number of 16 bytes.
#[tactic(auto, unfolding(df_base::specs::Fields::spelled))]
pub(crate) fn put_u128(room: &mut [u8], from: u64, at: u64, value: u128) -> u64
    requires small { at + 16 < GREATEST }
    requires window { from + length room.old < GREATEST }
    ensures next { result ≡ at + 16 }
    ensures shown { (text : List ℕ) → length text ≡ at → IsPieceShown text from room.old → IsPieceShown (text ++ spelled 16 value) from room.new }
    ensures length { length room.new ≡ length room.old }
{
    let mut field = [0u8; 16];
    LittleEndian::write_u128(&mut field, value);
    put(room, from, at, &field)
}
