// The parts of a trailer, as a reader gives them, in rooms that its caller gave.
ghost use Rattle.std.specs.{Prelude.{◌≡◌, ◌≢◌, ◌+◌, ◌*◌, ◌/◌, ◌≤◌, ◌<◌, ◌==◌, ℕ, [], length, take, drop, map, get_or, replicate, true, false}, Int.{bit_at}};
ghost use Rattle.df_trailer.specs.{Rooms.{bits_in_words, byte_in_checks, without_reply}, Text.{bits_at, bits_of, count, count_at, ones, read_sessions, root_size, sessions_at}};

use crate::bitmap::{count_set, is_set};
use arrayvec::ArrayVec;
use df_base::{Check, u32_at, u64_at, u128_at};
use df_layout::ROOT;
use df_sessions::Session;

/// Bytes of a checksum.
pub(crate) const CHECK: u64 = 16;

/// What a trailer says.
#[derive(Drop)]
pub struct Parts {
    /// What the caller of the checkpoint gave: at most 1,024 bytes.
    pub root: ArrayVec<u8, ROOT>,
    /// The sessions in order of their places, without the checksums of replies.
    pub sessions: ArrayVec<Session, 64>,
    /// A bit for each block, from the lowest bit of the first word on: `(blocks + 63) / 64` words.
    pub bits: Vec<u64>,
    /// The checksum of each referenced block, that of address a at index `a - 1`: `blocks` entries.
    pub checks: Vec<Check>,
}

/// Changes a byte of the checksums.
pub(crate) fn put_check_byte(checks: &mut [Check], place: usize, byte: u8)
    requires { place < 16 * length checks.old }
    ensures length { length checks.new ≡ length checks.old }
    ensures here { byte_in_checks checks.new place ≡ byte }
    ensures others { (other : ℕ) → other ≢ place → byte_in_checks checks.new other ≡ byte_in_checks checks.old other }
{
    let mut check = checks[place / 16];
    check[place % 16] = byte;
    checks[place / 16] = check;
}

/// The root that a head has.
pub(crate) fn root_in(head: &[u8]) -> ArrayVec<u8, ROOT>
    requires some { 4 ≤ length head.now }
    requires few { root_size head.now ≤ 1024 }
    requires inside { count_at head.now ≤ length head.now }
    ensures { result.items ≡ take (root_size head.now) (drop 4 head.now) }
{
    let mut root = ArrayVec::new();
    for place in 0..u32_at(head, 0) as usize {
        root.push(head[4 + place]);
    }
    root
}

/// The sessions that a head has.
pub(crate) fn sessions_in(head: &[u8]) -> ArrayVec<Session, 64>
    requires some { 4 ≤ length head.now }
    requires there { sessions_at head.now ≤ length head.now }
    requires few { count head.now ≤ 64 }
    requires inside { bits_at head.now ≤ length head.now }
    ensures { result.items ≡ map without_reply (read_sessions (count head.now) (sessions_at head.now) head.now) }
{
    let from = u32_at(head, 0) as usize + 8;
    let mut sessions = ArrayVec::new();
    for place in 0..u32_at(head, from - 4) as usize {
        let at = from + 32 * place;
        sessions.push(Session {
            client: u128_at(head, at),
            request: u64_at(head, at + 16),
            op: u64_at(head, at + 24),
            reply: None,
        });
    }
    sessions
}

/// Moves the checksums of the referenced blocks, which stand one after the other, each to the place of its block, and
/// puts zeros where no block is referenced. From the last place down, so that none is overwritten before it is moved.
pub(crate) fn spread(bits: &[u64], checks: &mut [Check], blocks: u32)
    requires bits { blocks ≤ 64 * length bits.now }
    requires checks { length checks.old ≡ blocks }
    ensures length { length checks.new ≡ length checks.old }
    ensures moved { (place : ℕ) → place < blocks → (bit_at (bits_in_words ((blocks + 7) / 8) bits.now) place == 1) ≡ true
        → get_or checks.new place [] ≡ get_or checks.old (ones (bits_of place (bits_in_words ((blocks + 7) / 8) bits.now))) [] }
    ensures empty { (place : ℕ) → place < blocks → (bit_at (bits_in_words ((blocks + 7) / 8) bits.now) place == 1) ≡ false → get_or checks.new place [] ≡ replicate 16 0 }
{
    let mut rank = count_set(bits, blocks) as usize;
    for place in (0..blocks as usize).rev() {
        if is_set(bits, place as u64) {
            rank -= 1;
            checks[place] = checks[rank];
        } else {
            checks[place] = [0; 16];
        }
    }
}
