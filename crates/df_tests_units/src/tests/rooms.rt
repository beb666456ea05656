// Each public call on its happy path, at each kind.
ghost use Rattle.std.specs.Prelude.{◌≡◌, ◌+◌, ◌≤◌, length};
ghost use Rattle.df_format.specs.{Rules.{ObeysRules}, Whole.{greatest_size}, Making.{for_body}};

use crate::tests::room_examples::{header_of, identity_at};
use df_buffers::{Block, Prepare, Raw, Reply, Trailer, UnitKind, Wanted};
use df_format::{Header, Kind, own_place};
use df_layout::{Layout, Zone};

// Whether a sector holds the body after a header, and zeros up to its end.
fn is_padded(sectors: &[u8], body: &[u8]) -> bool {
    let zeros = [0; 4096];
    let end = 256 + body.len();
    sectors.len() == 4096
        && end <= 4096
        && &sectors[256..end] == body
        && sectors[end..] == zeros[end..]
}

// Whether a unit that is made in a room has the header's fields and the body, and is valid at this place once its room was loosened.
fn is_made_at<K: UnitKind>(
    room: Raw<K>,
    layout: Layout,
    header: Header,
    body: &[u8],
    index: u64,
) -> bool
    requires layout { room.layout ≡ layout }
    requires rules { ObeysRules (for_body header body.now) }
    requires kind { header.kind ≡ K.KIND }
    requires fits { 256 + length body.now ≤ greatest_size layout K.ZONE }
{
    let Some(_) = own_place(&layout, K::ZONE, &header) else {
        return false;
    };
    let unit = room.make(header, body);
    let made = *unit.header();
    let is_written = is_padded(unit.sectors(), body) && unit.body() == body;
    let identity = identity_at(layout, K::ZONE, index, Wanted::Checksum(made.checksum));
    let given = Header {
        checksum: made.checksum,
        size: made.size,
        ..header
    };
    match unit.loosen().prove(&identity) {
        Ok(again) => {
            is_written && made == given && *again.header() == made && again.body() == body
        }
        Err(_) => false,
    }
}

// Whether a unit whose body waits for its header in a room is the one that is made in another room, byte for byte. The room had another
// body before.
fn is_sealed_as_made(
    used: Raw<Prepare>,
    room: Raw<Prepare>,
    layout: Layout,
    header: Header,
    body: &[u8],
    before: &[u8],
) -> bool
    requires used { used.layout ≡ layout }
    requires layout { room.layout ≡ layout }
    requires rules { ObeysRules (for_body header body.now) }
    requires kind { header.kind ≡ Kind.Prepare }
    requires fits { 256 + length body.now ≤ greatest_size layout Zone.WalPrepares }
    requires before { 256 + length before.now ≤ greatest_size layout Zone.WalPrepares }
{
    let Some(_) = own_place(&layout, Zone::WalPrepares, &header) else {
        return false;
    };
    let filled = used.fill(before).loosen().fill(body);
    let length = filled.len();
    let sealed = filled.seal(header);
    let made = room.make(header, body);
    length == body.len()
        && sealed.body() == body
        && sealed.header() == made.header()
        && sealed.sectors() == made.sectors()
}

#[test]
fn makes_and_proves_units_of_each_kind(rt: HostRuntime) {
    let layout = Layout::small();
    let alloc = rt.alloc();
    let room = Raw::<Prepare>::reserve(alloc, &layout).expect(&rt, "memory of a prepare");
    assert!(rt; is_made_at(room, layout, header_of(Kind::Prepare, b"abc"), b"abc", 1));
    let room = Raw::<Reply>::reserve(alloc, &layout).expect(&rt, "memory of a reply");
    assert!(rt; is_made_at(room, layout, header_of(Kind::Reply, b""), b"", 2));
    let room = Raw::<Block>::reserve(alloc, &layout).expect(&rt, "memory of a block");
    assert!(rt;
        is_made_at(
            room,
            layout,
            header_of(Kind::Block, b"abcdef"),
            b"abcdef",
            9
        )
    );
    let room = Raw::<Trailer>::reserve(alloc, &layout).expect(&rt, "memory of a trailer block");
    assert!(rt; is_made_at(room, layout, header_of(Kind::Trailer, b"a"), b"a", 9));
}

#[test]
fn a_body_that_waits_for_its_header_is_sealed_as_made(rt: HostRuntime) {
    let layout = Layout::small();
    let alloc = rt.alloc();
    let used = Raw::<Prepare>::reserve(alloc, &layout).expect(&rt, "memory of a prepare");
    let room = Raw::<Prepare>::reserve(alloc, &layout).expect(&rt, "memory of another prepare");
    let header = header_of(Kind::Prepare, b"abc");
    assert!(rt; is_sealed_as_made(used, room, layout, header, b"abc", b"a longer body"));
}
