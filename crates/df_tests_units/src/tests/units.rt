// The definitions against values from outside: the bytes of an example, and which of them are refused when changed.
use crate::tests::examples::{PREPARE, read_header, spelled};
use crate::tests::room_examples::header_of;
use df_format::{Header, Kind, decode_unit, make_unit};
use df_layout::{Class, Layout, Place, Zone};

fn example() -> [u8; 256] {
    spelled(&PREPARE)
}

// The example, zeros up to the end of its sector, and nines after it.
fn is_example_before_nines(slot: &[u8]) -> bool {
    slot.len() == 8192
        && slot.starts_with(&example())
        && slot[256..4096] == [0; 3840]
        && slot[4096..] == [9; 4096]
}

// What a slot of the ring shows in a file of this cluster.
#[tactic(auto, unfolding(df_layout::specs::Spans::place_sectors))]
fn shown(cluster: u128, index: u64, slot: &[u8; 8192]) -> Result<Header, Class> {
    let place = Place {
        zone: Zone::WalPrepares,
        index,
    };
    decode_unit(&Layout::small(), cluster, place, slot)
}

#[test]
fn makes_and_reads_the_example(rt: HostRuntime) {
    let mut slot = [9u8; 8192];
    let made = make_unit(header_of(Kind::Prepare, &[]), &[], &mut slot);
    assert!(rt; made.length == 4096);
    assert!(rt; is_example_before_nines(&slot));
    assert!(rt; read_header(&example()) == Some(made.header));
    assert!(rt; shown(7, 1, &slot) == Ok(made.header));
}

#[test]
fn tests_the_body_and_not_what_follows_it(rt: HostRuntime) {
    let mut slot = [0u8; 8192];
    let made = make_unit(header_of(Kind::Prepare, b"abc"), b"abc", &mut slot);
    slot[259] = 1;
    assert!(rt; shown(7, 1, &slot) == Ok(made.header));
    slot[258] = b'd';
    assert!(rt; shown(7, 1, &slot) == Err(Class::Garbled));
}
