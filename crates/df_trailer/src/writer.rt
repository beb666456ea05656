// A piece of the text, made of what a checkpoint captured: no buffer of the whole text exists.
ghost use Rattle.std.specs.{Prelude.{◌≡◌, ◌+◌, ◌-◌, ◌*◌, ◌/◌, ◌<◌, ◌≤◌, ◌^◌, ◌++◌, ◌∷◌, ℕ, List, [], length, take, drop, min}, Int.{bit_at, byte_at}};
ghost use Rattle.df_base.specs.{declared.TheConstants.{GREATEST, HEADER}, Fields.{spelled}};
ghost use Rattle.df_units.specs.Meaning.{layout_of};
ghost use Rattle.df_trailer.specs.{Rooms.{trailer_session}, Spelling.{spell, spell_checks, spell_sessions}};
ghost use Rattle.df_trailer.specs.Writing.{IsPieceShown, captured_bits, captured_blocks, captured_parts, piece_of, sessions_of};

use crate::CapturedBlocks;
use crate::groups::begin_before;
use crate::window::{put, put_u32, put_u64, put_u128};
use df_base::{HEADER, u128_at};
use df_layout::Layout;
use df_sessions::Session;

/// Puts a root with its length.
fn put_root(room: &mut [u8], from: u64, root: &[u8]) -> u64
    requires small { length root.now ≤ 1024 }
    requires window { from + length room.old < GREATEST }
    ensures next { result ≡ 4 + length root.now }
    ensures shown { IsPieceShown ((([] ++ spelled 4 (length root.now))) ++ root.now) from room.new }
    ensures length { length room.new ≡ length room.old }
{
    let at = put_u32(room, from, 0, root.len() as u32);
    put(room, from, at, root)
}

/// Puts a session.
fn put_session(room: &mut [u8], from: u64, at: u64, session: &Session) -> u64
    requires small { at + 32 < GREATEST }
    requires window { from + length room.old < GREATEST }
    ensures next { result ≡ at + 32 }
    ensures shown { (text : List ℕ) → length text ≡ at → IsPieceShown text from room.old → IsPieceShown (text ++ spell_sessions (trailer_session session.now ∷ [])) from room.new }
    ensures length { length room.new ≡ length room.old }
{
    let next = put_u128(room, from, at, session.client);
    let next = put_u64(room, from, next, session.request);
    put_u64(room, from, next, session.op)
}

/// Puts the sessions.
fn put_sessions(room: &mut [u8], from: u64, start: u64, sessions: &[Session]) -> u64
    requires few { length sessions.now ≤ 64 }
    requires small { start < 2 ^ 60 }
    requires window { from + length room.old < GREATEST }
    ensures next { result ≡ start + 32 * length sessions.now }
    ensures shown { (text : List ℕ) → length text ≡ start → IsPieceShown text from room.old → IsPieceShown (text ++ spell_sessions (sessions_of sessions.now)) from room.new }
    ensures length { length room.new ≡ length room.old }
{
    let mut at = start;
    for session in sessions {
        at = put_session(room, from, at, session);
    }
    at
}

/// The bit of the block at a place, 0 after the last one.
fn bit_of<G: CapturedBlocks>(grid: &G, blocks: u32, place: u64) -> u8
    ensures { result ≡ bit_at (captured_bits (G.captured grid.now) blocks) place }
{
    if place >= u64::from(blocks) {
        return 0;
    }
    match grid.captured(place + 1) {
        Some(_) => 1,
        None => 0,
    }
}

/// The byte of the bits with this number: of eight blocks.
fn bits_byte<G: CapturedBlocks>(grid: &G, blocks: u32, number: u64) -> u8
    requires { number < 2 ^ 32 }
    ensures { result ≡ byte_at number (captured_bits (G.captured grid.now) blocks) }
{
    let mut byte = 0;
    for bit in 0..8 {
        let one = bit_of(grid, blocks, 8 * number + bit);
        byte += one << bit;
    }
    byte
}

/// Puts the bytes of the bits that the window shows.
fn put_bits<G: CapturedBlocks>(room: &mut [u8], from: u64, start: u64, grid: &G, blocks: u32) -> u64
    requires small { start < 2 ^ 60 }
    requires window { from + length room.old < GREATEST }
    ensures next { result ≡ start + (blocks + 7) / 8 }
    ensures shown { (text : List ℕ) → length text ≡ start → IsPieceShown text from room.old
        → IsPieceShown (text ++ spelled ((blocks + 7) / 8) (captured_bits (G.captured grid.now) blocks)) from room.new }
    ensures length { length room.new ≡ length room.old }
{
    let size = u64::from(blocks.div_ceil(8));
    let end = from + room.len() as u64;
    for number in from.saturating_sub(start)..end.saturating_sub(start).min(size) {
        let byte = bits_byte(grid, blocks, number);
        put(room, from, start + number, &[byte]);
    }
    start + size
}

/// Puts the checksum of the block at an address, if there is one.
fn put_check<G: CapturedBlocks>(room: &mut [u8], from: u64, at: u64, grid: &G, address: u64) -> u64
    requires small { at + 16 < GREATEST }
    requires window { from + length room.old < GREATEST }
    ensures next { result ≡ at + length (spell_checks (G.captured grid.now address ∷ [])) }
    ensures shown { (text : List ℕ) → length text ≡ at → IsPieceShown text from room.old → IsPieceShown (text ++ spell_checks (G.captured grid.now address ∷ [])) from room.new }
    ensures length { length room.new ≡ length room.old }
{
    match grid.captured(address) {
        Some(check) => put_u128(room, from, at, u128_at(&check, 0)),
        None => at,
    }
}

/// Puts the checksums of the referenced blocks that the window shows. The answer is where the checksums end, or an offset after the window
/// where they end after it.
fn put_checks<G: CapturedBlocks>(
    room: &mut [u8],
    from: u64,
    start: u64,
    grid: &G,
    blocks: u32,
) -> u64
    requires small { start < 2 ^ 60 }
    requires window { from + length room.old < GREATEST }
    ensures left { min (result - from) (length room.new) ≡ min (start + length (spell_checks (captured_blocks (G.captured grid.now) blocks)) - from) (length room.new) }
    ensures shown { (text : List ℕ) → length text ≡ start → IsPieceShown text from room.old → IsPieceShown (text ++ spell_checks (captured_blocks (G.captured grid.now) blocks)) from room.new }
    ensures length { length room.new ≡ length room.old }
{
    let end = from + room.len() as u64;
    let begin = begin_before(grid, start, from, blocks);
    let mut at = begin.at;
    for place in begin.place..u64::from(blocks) {
        if at >= end {
            return at;
        }
        at = put_check(room, from, at, grid, place + 1);
    }
    at
}

/// How much of a text that ends there a window of this size shows from an offset on.
fn left_of(end: u64, from: u64, size: u64) -> u64
    ensures { result ≡ min (end - from) size }
{
    end.saturating_sub(from).min(size)
}

/// Puts what a window shows of the text from an offset on at the front of a room, and answers how much that is.
fn put_window<G: CapturedBlocks>(
    room: &mut [u8],
    from: u64,
    layout: &Layout,
    root: &[u8],
    sessions: &[Session],
    grid: &G,
) -> u64
    requires root { length root.now ≤ 1024 }
    requires sessions { length sessions.now ≤ 64 }
    requires window { from + length room.old < 2 ^ 60 }
    ensures within { result ≤ length room.old }
    ensures shown { take result room.new ≡ take (length room.old) (drop from (spell (layout_of layout.now) (captured_parts root.now sessions.now (G.captured grid.now)))) }
    ensures length { length room.new ≡ length room.old }
{
    let at = put_root(room, from, root);
    let at = put_u32(room, from, at, sessions.len() as u32);
    let at = put_sessions(room, from, at, sessions);
    let at = put_bits(room, from, at, grid, layout.blocks);
    let end = put_checks(room, from, at, grid, layout.blocks);
    left_of(end, from, room.len() as u64)
}

/// Puts the piece with this index of the trailer's text at the front of a buffer, and answers its length in bytes: that
/// of a block's body, but for the last piece, and 0 after it.
pub fn piece<G: CapturedBlocks>(
    layout: &Layout,
    root: &[u8],
    sessions: &[Session],
    grid: &G,
    index: u64,
    into: &mut [u8],
) -> u64
    requires root { length root.now ≤ 1024 }
    requires sessions { length sessions.now ≤ 64 }
    requires index { index < 2 ^ 32 }
    requires room { layout.now.block_size - HEADER ≤ length into.old }
    ensures within { result ≤ length into.new }
    ensures piece { take result into.new ≡ piece_of (layout.now.block_size - HEADER) index (spell (layout_of layout.now) (captured_parts root.now sessions.now (G.captured grid.now))) }
    ensures length { length into.new ≡ length into.old }
{
    let body = layout.block_size - HEADER as u32;
    put_window(
        &mut into[..body as usize],
        u64::from(body) * index,
        layout,
        root,
        sessions,
        grid,
    )
}
