// What each place of layout small shows with given bytes: the unit that is valid there, or the class of what is.
ghost use Rattle.std.specs.Prelude.{◌≡◌};

use crate::tests::examples::{
    ALONE, BLOCK, BOOTED, Example, FIRST_TRAILER, PAIR, PREPARE, Put, REPLY, RESERVED, TRAILER,
    UNBOOTED, made, read_header, spelled, spoilt,
};
use df_format::{Header, decode_unit};
use df_layout::{Class, Layout, Place, Zone};

// A slot that begins with these bytes, nines after them.
fn slot_of(front: &[u8; 256]) -> [u8; 8192] {
    let mut slot = [9; 8192];
    slot[..256].copy_from_slice(front);
    slot
}

fn block_of(front: &[u8; 256]) -> [u8; 16_384] {
    let mut block = [9; 16_384];
    block[..256].copy_from_slice(front);
    block
}

fn place(zone: Zone, index: u64) -> Place
    ensures { result.zone ≡ zone }
{
    Place { zone, index }
}

// What a place of layout small shows whose bytes begin with these.
#[tactic(auto, unfolding(df_layout::specs::Spans::place_sectors))]
fn shown(cluster: u128, zone: Zone, index: u64, front: &[u8; 256]) -> Result<Header, Class> {
    let small = Layout::small();
    match zone {
        Zone::Superblock => Err(Class::Garbled),
        Zone::WalHeaders => decode_unit(&small, cluster, place(Zone::WalHeaders, index), front),
        Zone::WalPrepares => {
            decode_unit(
                &small,
                cluster,
                place(Zone::WalPrepares, index),
                &slot_of(front),
            )
        }
        Zone::ClientReplies => {
            decode_unit(
                &small,
                cluster,
                place(Zone::ClientReplies, index),
                &slot_of(front),
            )
        }
        Zone::Grid => decode_unit(&small, cluster, place(Zone::Grid, index), &block_of(front)),
    }
}

const RING: Zone = Zone::WalHeaders;

const PREPARES: Zone = Zone::WalPrepares;

const REPLIES: Zone = Zone::ClientReplies;

const GRID: Zone = Zone::Grid;

// A unit, bytes that are put over it, and a place with it.
type Row = (Example, &'static [Put], Zone, u64);

// The greatest size of a unit in a slot.
const LARGEST: &'static [Put] = &[(113, 0x20)];

// Units that are valid at their place, as they are and with the bytes put over them.
const VALID: [Row; 10] = [
    (RESERVED, UNBOOTED, RING, 3),
    (PREPARE, ALONE, RING, 1),
    (PREPARE, PAIR, RING, 1),
    (PREPARE, LARGEST, RING, 1),
    (PREPARE, ALONE, PREPARES, 1),
    (PREPARE, PAIR, PREPARES, 1),
    (REPLY, BOOTED, REPLIES, 2),
    (BLOCK, BOOTED, GRID, 9),
    (FIRST_TRAILER, BOOTED, GRID, 8),
    (TRAILER, BOOTED, GRID, 9),
];

fn is_valid(zone: Zone, index: u64, bytes: &[u8; 256]) -> bool {
    match read_header(bytes) {
        Some(header) => shown(7, zone, index, bytes) == Ok(header),
        None => false,
    }
}

#[test]
fn a_unit_is_valid_at_its_own_place(rt: HostRuntime) {
    for (i, (unit, puts, zone, index)) in VALID.iter().enumerate() {
        assert!(rt; is_valid(*zone, *index, &spelled(unit)), "row {i}");
        assert!(rt; is_valid(*zone, *index, &made(unit, puts)), "row {i}, put");
    }
}

// A unit, bytes that are put over it, a place with it, and its own place.
type Strayed = (Example, &'static [Put], (Zone, u64), (Zone, u64));

// The places tell where the units belong, as they are and with the bytes put over them.
const STRAYED: [Strayed; 9] = [
    (RESERVED, UNBOOTED, (RING, 4), (RING, 3)),
    (PREPARE, ALONE, (RING, 2), (RING, 1)),
    (PREPARE, ALONE, (PREPARES, 2), (PREPARES, 1)),
    (PREPARE, ALONE, (REPLIES, 1), (PREPARES, 1)),
    (PREPARE, ALONE, (GRID, 1), (PREPARES, 1)),
    (REPLY, BOOTED, (PREPARES, 2), (REPLIES, 2)),
    (REPLY, BOOTED, (REPLIES, 1), (REPLIES, 2)),
    (BLOCK, BOOTED, (PREPARES, 9), (GRID, 9)),
    (BLOCK, BOOTED, (GRID, 8), (GRID, 9)),
];

#[test]
fn a_unit_at_another_place_is_elsewhere(rt: HostRuntime) {
    for (i, (unit, puts, (zone, index), (own, at))) in STRAYED.iter().enumerate() {
        let class = Class::Elsewhere(place(*own, *at));
        assert!(rt;
            shown(7, *zone, *index, &spelled(unit)) == Err(class),
            "row {i}"
        );
        assert!(rt;
            shown(7, *zone, *index, &made(unit, puts)) == Err(class),
            "row {i}, put"
        );
    }
}

// Bytes that are put over a unit, and a place with it.
type Spot = (&'static [Put], Zone, u64);

// Units with a slot that isn't their op's, a slot, place or address that the layout lacks, a body that isn't there, a size above
// the greatest of the place, a boot or a group that breaks a rule of version 2, or of a kind that doesn't stand in the ring.
const GARBLED: [(Example, &'static [Spot]); 5] = [
    (
        RESERVED,
        &[
            (&[(116, 32)], RING, 3),
            (&[], PREPARES, 3),
            (BOOTED, RING, 3),
        ],
    ),
    (
        PREPARE,
        &[
            (&[(116, 2)], PREPARES, 1),
            (&[(116, 2)], RING, 1),
            (&[(112, 1)], PREPARES, 1),
            (&[(113, 0x21)], RING, 1),
            (BOOTED, PREPARES, 1),
        ],
    ),
    (
        REPLY,
        &[
            (&[(116, 4)], REPLIES, 3),
            (&[], RING, 2),
            (UNBOOTED, REPLIES, 2),
            (PAIR, REPLIES, 2),
        ],
    ),
    (
        BLOCK,
        &[
            (&[(80, 65)], GRID, 64),
            (&[(113, 0x21)], PREPARES, 1),
            (&[(113, 0x41)], GRID, 9),
            (&[], RING, 9),
            (UNBOOTED, GRID, 9),
        ],
    ),
    (TRAILER, &[(UNBOOTED, GRID, 9)]),
];

// The first of these places that doesn't show garbled bytes with the unit.
fn first_other(unit: &Example, spots: &[Spot]) -> Option<usize> {
    for (i, (puts, zone, index)) in spots.iter().enumerate() {
        if shown(7, *zone, *index, &made(unit, puts)) != Err(Class::Garbled) {
            return Some(i);
        }
    }
    None
}

#[test]
fn tells_garbled_places(rt: HostRuntime) {
    for (unit, spots) in &GARBLED {
        assert!(rt; first_other(unit, spots) == None);
    }
}

// Zeros, and a last byte.
fn ending_in(last: u8) -> [u8; 256] {
    let mut bytes = [0; 256];
    bytes[255] = last;
    bytes
}

#[test]
fn tells_blank_places(rt: HostRuntime) {
    for (last, class) in [(0, Class::Blank), (1, Class::Garbled)] {
        let bytes = ending_in(last);
        for zone in [RING, PREPARES, REPLIES, GRID] {
            assert!(rt; shown(7, zone, 1, &bytes) == Err(class));
        }
    }
}

#[test]
fn a_unit_of_another_cluster_or_with_another_byte_is_garbled(rt: HostRuntime) {
    let other = shown(8, PREPARES, 1, &spelled(&PREPARE));
    assert!(rt; other == Err(Class::Garbled));
    let changed = shown(7, PREPARES, 1, &spoilt(&PREPARE, 80, 2));
    assert!(rt; changed == Err(Class::Garbled));
}
