// Trailers that are written in pieces and read in others, and texts that nobody wrote.
ghost use Rattle.std.specs.Prelude.{◌≡◌, ◌≤◌, ◌+◌, ◌/◌, ◌%◌, ◌<◌, ◌^◌, length, Some, None, nat_le, if◌then◌else◌, replicate};
ghost use Rattle.df_base.specs.Fields.{field_at};
ghost use Rattle.df_trailer.specs.Reading.{bytes_read};

use crate::tests::chain_examples::new_reader;
use df_base::Check;
use df_layout::{Field, Layout};
use df_sessions::Session;
use df_trailer::{
    CapturedBlocks, Fault, Reader, blocks_needed, parts_have_one_text, piece, refusals_stay,
    sizes_are_exact, spelling_is_a_codec, text_has_one_parts,
};
use std::alloc::{AllocError, Global};
use std::process::Abort;

/// The lowest addresses are referenced, each with a checksum of its own number.
#[derive(Drop)]
struct Lowest {
    count: u64,
}

impl CapturedBlocks for Lowest {
    ghost captured = { λ s address. if nat_le address s.count then Some (field_at 16 0 (replicate 16 (address % 256))) else None };

    fn captured(&self, address: u64) -> Option<Check> {
        if address <= self.count {
            Some([(address % 256) as u8; 16])
        } else {
            None
        }
    }

    fn counted(&self, _groups: u64) -> Option<u64> {
        None
    }
}

/// The same, where it is kept how many of the first addresses are referenced.
#[derive(Drop)]
struct Counted {
    lowest: Lowest,
}

impl CapturedBlocks for Counted {
    ghost captured = { λ s address. if nat_le address s.lowest.count then Some (field_at 16 0 (replicate 16 (address % 256))) else None };

    fn captured(&self, address: u64) -> Option<Check> {
        self.lowest.captured(address)
    }

    fn counted(&self, groups: u64) -> Option<u64> {
        Some(groups.saturating_mul(256).min(self.lowest.count))
    }
}

/// A layout of this many blocks of 4,096 bytes.
pub(crate) fn layout_of(blocks: u32) -> Layout
    requires some { 8 ≤ blocks }
    requires most { blocks ≤ 16384 }
    ensures clients { result.clients ≡ 1 }
    ensures block_size { result.block_size ≡ 4096 }
    ensures blocks { result.blocks ≡ blocks }
{
    Layout {
        slots: 16,
        message_size: 4096,
        clients: 1,
        block_size: 4096,
        blocks,
    }
}

/// What is answered to a text that comes in two pieces.
fn answer_of(mut reader: Reader, front: &[u8], back: &[u8]) -> Result<(), Fault>
    requires empty { bytes_read reader ≡ 0 }
    requires front { length front.now < 2 ^ 32 }
    requires back { length back.now < 2 ^ 32 }
{
    reader.feed(front)?;
    reader.feed(back)?;
    reader.end()
}

/// How many bytes a piece has of the text of 1,024 blocks, of which this many are referenced.
fn size_of_piece(count: u64, index: u32) -> u64 {
    let mut room = [0u8; 3840];
    let lowest = Lowest { count };
    piece(
        &layout_of(1024),
        &[],
        &[],
        &lowest,
        u64::from(index),
        &mut room,
    )
}

#[test]
fn a_trailer_is_cut_into_blocks(rt: HostRuntime) {
    parts_have_one_text();
    text_has_one_parts();
    spelling_is_a_codec();
    refusals_stay();
    sizes_are_exact();
    let layout = layout_of(1024);
    assert!(rt; blocks_needed(&layout, 0, 0, 231) == 1);
    assert!(rt; blocks_needed(&layout, 0, 0, 232) == 2);
    assert!(rt; blocks_needed(&layout_of(16_384), 1024, 64, 16_384) == 70);
    let rows = [(231, 0, 3832), (231, 1, 0), (232, 0, 3840), (232, 1, 8)];
    for (count, index, size) in rows {
        assert!(rt; size_of_piece(count, index) == size, "{count} {index}");
    }
}

/// The byte at an offset of the text of 1,024 blocks, of which this many are referenced, a multiple of eight: lengths, bits and checksums.
fn byte_of_text(count: u64, at: u64) -> u8 {
    match at {
        0..=7 => 0,
        8..=135 if 8 * (at - 8) < count => 255,
        8..=135 => 0,
        _ => (((at - 136) / 16 + 1) % 256) as u8,
    }
}

/// Tells whether a piece has the bytes of that text, and as many as are left of it.
fn is_right(count: u64, index: u64) -> bool
    requires count { count ≤ 1024 }
    requires index { index < 2 ^ 32 }
{
    let layout = layout_of(1024);
    let mut room = [0u8; 3840];
    let lowest = Lowest { count };
    let size = piece(&layout, &[], &[], &Counted { lowest }, index, &mut room);
    for (i, byte) in room[..size as usize].iter().enumerate() {
        if *byte != byte_of_text(count, 3840 * index + i as u64) {
            return false;
        }
    }
    size == (136 + 16 * count).saturating_sub(3840 * index).min(3840)
}

#[test]
fn a_piece_is_begun_behind_the_groups_that_are_counted_before_it(rt: HostRuntime) {
    for count in [0, 256, 600, 1024] {
        for index in 0..6 {
            assert!(rt; count <= 1024 && is_right(count, index), "{count} {index}");
        }
    }
}

/// What a new reader answers to a text of at most 80 bytes in two pieces.
fn answer_to(
    rt: &impl Abort,
    alloc: Global,
    layout: Layout,
    op: u64,
    pieces: [&[u8]; 2],
) -> Result<Result<(), Fault>, AllocError> {
    let [front, back] = pieces;
    assert!(rt; front.len() <= 80 && back.len() <= 80);
    let reader = new_reader(alloc, layout, op)?;
    Ok(answer_of(reader, front, back))
}

/// The text of two sessions of client 7, whose ops are 1 and 2.
fn twice_the_client() -> [u8; 80] {
    let mut text = [0u8; 80];
    text[4] = 2;
    for place in 0..2usize {
        text[8 + 32 * place] = 7;
        text[24 + 32 * place] = 1;
        text[32 + 32 * place] = place as u8 + 1;
    }
    text
}

#[test]
fn forged_texts_are_refused(rt: HostRuntime) {
    let small = Layout::small();
    let twice = twice_the_client();
    let rows: [(Layout, u64, &[u8], Field, u64); 5] = [
        (small, 0, &[1, 4, 0, 0], Field::TrailerRoot, 1025),
        (
            small,
            0,
            &[0, 0, 0, 0, 5, 0, 0, 0],
            Field::TrailerSessions,
            5,
        ),
        (small, 2, &twice, Field::TrailerSessions, 1),
        (
            layout_of(12),
            0,
            &[0, 0, 0, 0, 0, 0, 0, 0, 0, 16],
            Field::TrailerBits,
            9,
        ),
        (small, 0, &[0; 17], Field::TrailerEnd, 17),
    ];
    for (layout, op, text, field, value) in rows {
        let answer = answer_to(&rt, rt.alloc(), layout, op, [text, &[]]).expect(&rt, "it succeeds");
        assert!(rt; answer == Err(Fault { field, value }), "{field:?} {value}");
    }
}

const SESSION: Session = Session {
    client: 7,
    request: 2,
    op: 9,
    reply: None,
};

/// The text of a root of two bytes, one session and two references.
fn spelled(rt: &impl Abort) -> [u8; 76] {
    let mut room = [0u8; 3840];
    let lowest = Lowest { count: 2 };
    let size = piece(&layout_of(12), &[5, 6], &[SESSION], &lowest, 0, &mut room);
    assert!(rt; size == 76);
    let mut text = [0u8; 76];
    text.copy_from_slice(&room[..76]);
    text
}

/// What is answered to a text that ends at this byte of that one.
fn answer_at(cut: u64) -> Result<(), Fault> {
    let (field, value) = match cut {
        0..=3 => (Field::TrailerRoot, cut),
        4..=5 => (Field::TrailerRoot, 2),
        6..=9 => (Field::TrailerSessions, cut),
        10..=41 => (Field::TrailerSessions, 1),
        42..=43 => (Field::TrailerBits, cut),
        44..=75 => (Field::TrailerEnd, cut),
        _ => return Ok(()),
    };
    Err(Fault { field, value })
}

#[test]
fn a_text_may_be_cut_anywhere(rt: HostRuntime) {
    let text = spelled(&rt);
    for cut in 0..=76u64 {
        let (front, back) = text.split_at(cut as usize);
        for (pieces, wanted) in [([front, &[]], answer_at(cut)), ([front, back], Ok(()))] {
            let answer = answer_to(&rt, rt.alloc(), layout_of(12), 9, pieces).expect(
                &rt,
                "it succeeds",
            );
            assert!(rt; answer == wanted, "{cut}");
        }
    }
}

#[test]
fn a_reader_gives_what_was_written(rt: HostRuntime) {
    let text = spelled(&rt);
    let mut reader = new_reader(rt.alloc(), layout_of(12), 9).expect(&rt, "it succeeds");
    assert!(rt; reader.feed(&text) == Ok(()));
    let ended = reader.end();
    assert!(rt; ended.is_ok());
    let parts = reader.into_parts();
    assert!(rt; parts.root.as_slice() == [5, 6].as_slice());
    assert!(rt; parts.sessions.as_slice() == [SESSION].as_slice());
    assert!(rt; parts.bits.first().copied() == Some(3));
    assert!(rt; parts.checks.get(1).copied() == Some([2; 16]));
    assert!(rt; parts.checks.get(2).copied() == Some([0; 16]));
}
