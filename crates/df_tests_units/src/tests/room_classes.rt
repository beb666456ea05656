// What rooms of layout small answer that is asked for a unit: the one wanted, or that what is there is stale.
ghost use Rattle.std.specs.Prelude.{◌≡◌, IfOk};

use crate::tests::examples::{
    ALONE, BLOCK, BOOTED, Example, PAIR, PREPARE, REPLY, RESERVED, TRAILER, checksum_of, made,
    read_header, spelled,
};
use crate::tests::room_examples::identity_at;
use df_base::OutOfMemory;
use df_buffers::{Block, HeaderSector, Prepare, Raw, Reply, RoomKind, Trailer, UnitKind, Wanted};
use df_format::Header;
use df_layout::{Class, Layout, Place, Zone};
use std::alloc::Global;

// The header of the unit that is there, or the class of what is; None where memory was refused.
type Shown = Option<Result<Header, Class>>;

// Puts bytes at the front and nines after them.
fn begin_with(bytes: &mut [u8], front: &[u8; 256]) {
    for (i, byte) in bytes.iter_mut().enumerate() {
        *byte = if i < front.len() { front[i] } else { 9 };
    }
}

// A room that begins with these bytes, nines after them.
fn room_with<K: RoomKind>(
    alloc: Global,
    layout: &Layout,
    front: &[u8; 256],
) -> Result<Raw<K>, OutOfMemory>
    ensures { IfOk result (λ room. room.layout ≡ layout.now) }
{
    let mut room = Raw::reserve(alloc, layout)?;
    begin_with(room.bytes_mut(), front);
    Ok(room)
}

// What a room of the kind answers at a place of its zone.
fn proved<K: UnitKind>(alloc: Global, index: u64, wanted: Wanted, front: &[u8; 256]) -> Shown {
    let layout = Layout::small();
    let room = room_with::<K>(alloc, &layout, front).ok()?;
    let identity = identity_at(layout, K::ZONE, index, wanted);
    match room.prove(&identity) {
        Ok(unit) => Some(Ok(*unit.header())),
        Err((_, class)) => Some(Err(class)),
    }
}

fn read(bytes: &[u8; 256]) -> Shown {
    match read_header(bytes) {
        Some(header) => Some(Ok(header)),
        None => None,
    }
}

const STALE: Shown = Some(Err(Class::Stale));

#[test]
fn wants_a_unit_of_its_kind(rt: HostRuntime) {
    let block = proved::<Trailer>(rt.alloc(), 9, Wanted::Any, &spelled(&BLOCK));
    assert!(rt; block == STALE);
    let trailer = proved::<Block>(rt.alloc(), 9, Wanted::Any, &spelled(&TRAILER));
    assert!(rt; trailer == STALE);
}

fn answer(client: u128, request: u64, op: u64) -> Wanted {
    Wanted::Answer {
        client,
        request,
        op,
    }
}

#[test]
fn wants_what_it_was_asked_for(rt: HostRuntime) {
    let prepare = spelled(&PREPARE);
    let of_prepares = [
        (Wanted::Op(1), read(&prepare)),
        (Wanted::Op(33), STALE),
        (Wanted::Checksum(checksum_of(&PREPARE)), read(&prepare)),
        (Wanted::Checksum([3; 16]), STALE),
        (answer(5, 1, 1), STALE),
    ];
    for (wanted, what) in &of_prepares {
        assert!(rt; proved::<Prepare>(rt.alloc(), 1, *wanted, &prepare) == *what);
    }
    let reply = spelled(&REPLY);
    let of_replies = [
        (answer(5, 1, 1), read(&reply)),
        (answer(6, 1, 1), STALE),
        (answer(5, 2, 1), STALE),
        (answer(5, 1, 2), STALE),
        (Wanted::Op(1), STALE),
    ];
    for (wanted, what) in &of_replies {
        assert!(rt; proved::<Reply>(rt.alloc(), 2, *wanted, &reply) == *what);
    }
}

// A unit of the same fields in another version, or in another group, is another unit: it has another checksum.
#[test]
fn a_unit_of_another_version_is_stale(rt: HostRuntime) {
    let alone = made(&PREPARE, ALONE);
    let pair = made(&PREPARE, PAIR);
    let mut checksum = [0; 16];
    checksum.copy_from_slice(&alone[..16]);
    for (wanted, bytes, what) in [
        (Wanted::Op(1), &alone, read(&alone)),
        (Wanted::Op(33), &alone, STALE),
        (Wanted::Checksum(checksum), &alone, read(&alone)),
        (Wanted::Checksum(checksum), &pair, STALE),
        (Wanted::Checksum(checksum), &spelled(&PREPARE), STALE),
    ] {
        assert!(rt; proved::<Prepare>(rt.alloc(), 1, wanted, bytes) == what);
    }
    let reply = made(&REPLY, BOOTED);
    let block = made(&BLOCK, BOOTED);
    let trailer = made(&TRAILER, BOOTED);
    assert!(rt; proved::<Reply>(rt.alloc(), 2, answer(5, 1, 1), &reply) == read(&reply));
    assert!(rt; proved::<Reply>(rt.alloc(), 2, Wanted::Checksum(checksum), &reply) == STALE);
    assert!(rt; proved::<Block>(rt.alloc(), 9, Wanted::Any, &block) == read(&block));
    assert!(rt; proved::<Trailer>(rt.alloc(), 9, Wanted::Any, &block) == STALE);
    assert!(rt; proved::<Trailer>(rt.alloc(), 9, Wanted::Any, &trailer) == read(&trailer));
}

// What a header sector answers that begins with this header, for a place of the header ring.
fn first_header(alloc: Global, index: u64, wanted: Wanted, front: &Example) -> Shown {
    let layout = Layout::small();
    let room = room_with::<HeaderSector>(alloc, &layout, &spelled(front)).ok()?;
    let identity = identity_at(layout, Zone::WalHeaders, index, wanted);
    if room.header_at(1, &identity) != Err(Class::Garbled) {
        return None;
    }
    Some(room.header_at(0, &identity))
}

#[test]
fn reads_headers_of_a_sector(rt: HostRuntime) {
    let place = Place {
        zone: Zone::WalHeaders,
        index: 3,
    };
    let cases = [
        (3, Wanted::Any, RESERVED, read(&spelled(&RESERVED))),
        (4, Wanted::Any, RESERVED, Some(Err(Class::Elsewhere(place)))),
        (1, Wanted::Op(1), PREPARE, read(&spelled(&PREPARE))),
        (1, Wanted::Op(33), PREPARE, STALE),
        (2, Wanted::Any, REPLY, Some(Err(Class::Garbled))),
    ];
    for (index, wanted, front, what) in &cases {
        assert!(rt; first_header(rt.alloc(), *index, *wanted, front) == *what);
    }
}
