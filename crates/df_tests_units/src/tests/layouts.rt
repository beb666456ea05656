// The places of the two named layouts by number, and the limits, as the format's own tables give them.
use df_layout::{
    Field, Layout, Place, Span, Zone, layouts_are_numbers, places_are_apart, places_are_inside,
    zones_in_order,
};

/// A zone, how many sectors each of its places has, and some of its places: their index and first sector.
type Row = (Zone, u64, &'static [(u64, u64)]);

const SMALL: [Row; 5] = [
    (Zone::Superblock, 1, &[(0, 0), (3, 3)]),
    (Zone::WalHeaders, 1, &[(0, 4), (15, 4), (16, 5), (31, 5)]),
    (Zone::WalPrepares, 2, &[(0, 6), (31, 68)]),
    (Zone::ClientReplies, 2, &[(0, 70), (3, 76)]),
    (Zone::Grid, 4, &[(1, 80), (64, 332)]),
];

const LARGE: [Row; 5] = [
    (Zone::Superblock, 1, &[(3, 3)]),
    (Zone::WalHeaders, 1, &[(0, 4), (1023, 67)]),
    (Zone::WalPrepares, 256, &[(0, 68), (1023, 261_956)]),
    (Zone::ClientReplies, 256, &[(0, 262_212), (63, 278_340)]),
    (Zone::Grid, 128, &[(1, 278_656), (16_384, 2_375_680)]),
];

fn stands(layout: &Layout, zone: Zone, index: u64, span: Span) -> bool {
    let place = Place { zone, index };
    layout.has(place) && layout.sectors_of(place) == span
}

#[test]
fn places_stand_where_the_tables_say(rt: HostRuntime) {
    zones_in_order();
    places_are_inside();
    places_are_apart();
    layouts_are_numbers();
    assert!(rt; Layout::small().sectors() == 336);
    assert!(rt; Layout::large().sectors() == 2_375_808);
    for (layout, rows) in [(Layout::small(), SMALL), (Layout::large(), LARGE)] {
        for (zone, count, places) in rows {
            for (index, first) in places.iter().copied() {
                let span = Span { first, count };
                assert!(rt; stands(&layout, zone, index, span), "{zone:?} {index}");
            }
        }
    }
}

const LEAST: [u32; 5] = [16, 4096, 1, 4096, 8];

// The number that is refused of a layout's five.
fn refused(numbers: [u32; 5]) -> Option<Field> {
    let [slots, message_size, clients, block_size, blocks] = numbers;
    Layout::new(slots, message_size, clients, block_size, blocks).err()
}

// The least layout with zeros from one of its numbers on.
fn zeros_from(first: usize) -> [u32; 5] {
    let mut numbers = LEAST;
    for (i, number) in numbers.iter_mut().enumerate() {
        if i >= first {
            *number = 0;
        }
    }
    numbers
}

// Five numbers, of which one is refused.
const BEYOND: [([u32; 5], Field); 9] = [
    ([1040, 4096, 1, 4096, 8], Field::Slots),
    ([24, 4096, 1, 4096, 8], Field::Slots),
    ([16, 4097, 1, 4096, 8], Field::MessageSize),
    ([16, 1_052_672, 1, 4096, 8], Field::MessageSize),
    ([16, 4096, 65, 4096, 8], Field::Clients),
    ([16, 4096, 1, 2048, 8], Field::BlockSize),
    ([16, 4096, 1, 528_384, 8], Field::BlockSize),
    ([16, 4096, 1, 4096, 7], Field::Blocks),
    ([16, 4096, 1, 4096, 16_385], Field::Blocks),
];

#[test]
fn numbers_end_at_their_limits(rt: HostRuntime) {
    for numbers in [LEAST, [1024, 1_048_576, 64, 524_288, 16_384]] {
        assert!(rt; refused(numbers) == None);
    }
    for (i, (numbers, field)) in BEYOND.iter().enumerate() {
        assert!(rt; refused(*numbers) == Some(*field), "beyond {i}");
    }
    let fields = [
        Field::Slots,
        Field::MessageSize,
        Field::Clients,
        Field::BlockSize,
        Field::Blocks,
    ];
    for (i, field) in fields.iter().enumerate() {
        assert!(rt; refused(zeros_from(i)) == Some(*field), "zeros from {i}");
    }
}

#[test]
fn places_outside_are_told(rt: HostRuntime) {
    let rows = [
        (Zone::Superblock, 4),
        (Zone::WalHeaders, 32),
        (Zone::WalPrepares, 32),
        (Zone::ClientReplies, 4),
        (Zone::Grid, 0),
        (Zone::Grid, 65),
    ];
    for (zone, index) in rows {
        assert!(rt;
            !Layout::small().has(Place { zone, index }),
            "{zone:?} {index}"
        );
    }
}
