// The unit that the bytes of a place show, or the class of what stands there; and the place that a unit belongs at.
ghost use Rattle.std.specs.Prelude.{◌≡◌, ◌≢◌, ◌≤◌, length};
ghost use Rattle.df_base.specs.declared.TheConstants.{HEADER};
ghost use Rattle.df_format.specs.{Own.{has_op_of_slot, own_place}, Whole.{greatest_size, has_body, whole_in, owner_of}, Shown.{unit_in, class_of, header_or_class}, UnitLaws.{place_size}};

use crate::{Header, Kind, decode_header};
use df_base::{HEADER, check};
use df_layout::{Class, Layout, Place, Zone};

fn has_op_of_slot(layout: &Layout, header: &Header) -> bool
    ensures { result ≡ has_op_of_slot layout.now header.now.kind header.now }
{
    match header.kind {
        Kind::Prepare => u64::from(header.slot) == header.op % u64::from(layout.slots),
        Kind::Reserved | Kind::Reply | Kind::Block | Kind::Trailer => true,
    }
}

/// The place that a unit belongs at whose header is read in this zone. None where there is no such place: a prepare's
/// slot isn't that of its op, the layout lacks the place, or units of this kind don't stand in this zone.
#[tactic(auto, unfolding(crate::specs::Own::own_place))]
pub fn own_place(layout: &Layout, zone: Zone, header: &Header) -> Option<Place>
    ensures { result ≡ own_place layout.now zone header.now }
{
    if !has_op_of_slot(layout, header) {
        return None;
    }
    // In the header ring stand reserved headers and those of prepares alone; elsewhere each kind but a reserved header has its zone.
    let slot = u64::from(header.slot);
    let (zone, index) = match zone {
        Zone::Superblock => return None,
        Zone::WalHeaders => match header.kind {
            Kind::Reserved | Kind::Prepare => (Zone::WalHeaders, slot),
            Kind::Reply | Kind::Block | Kind::Trailer => return None,
        },
        Zone::WalPrepares | Zone::ClientReplies | Zone::Grid => match header.kind {
            Kind::Reserved => return None,
            Kind::Prepare => (Zone::WalPrepares, slot),
            Kind::Reply => (Zone::ClientReplies, slot),
            Kind::Block | Kind::Trailer => (Zone::Grid, header.op),
        },
    };
    let place = Place { zone, index };
    if layout.has(place) { Some(place) } else { None }
}

// The greatest size of a unit that is read in a zone; no copy of the superblock is one.
fn greatest_size(layout: &Layout, zone: Zone) -> u32
    ensures { result ≡ greatest_size layout.now zone }
{
    match zone {
        Zone::Superblock => 0,
        Zone::WalHeaders | Zone::WalPrepares | Zone::ClientReplies => layout.message_size,
        Zone::Grid => layout.block_size,
    }
}

// Whether the checksum of the body is right; in the header ring there is no body to test.
fn has_body(zone: Zone, bytes: &[u8], header: &Header) -> bool
    requires least { HEADER ≤ header.now.size }
    requires fits { zone ≢ Zone.WalHeaders → header.now.size ≤ length bytes.now }
    ensures { result ≡ has_body zone header.now bytes.now }
{
    match zone {
        Zone::WalHeaders => true,
        Zone::Superblock | Zone::WalPrepares | Zone::ClientReplies | Zone::Grid => {
            header.checksum_body == check(&bytes[HEADER..header.size as usize])
        }
    }
}

// The header of the whole unit that the bytes are, and the place that it belongs at. It is tested by the file's cluster, the zone
// that it is read in, and the body.
#[tactic(auto, unfolding(crate::specs::Whole::whole_in))]
fn whole_in(layout: &Layout, cluster: u128, zone: Zone, bytes: &[u8]) -> Option<(Header, Place)>
    requires { length bytes.now ≡ place_size layout.now zone }
    ensures { result ≡ owner_of (whole_in layout.now cluster zone bytes.now) }
{
    let header = decode_header(&bytes[..HEADER])?;
    let is_unit = header.cluster == cluster
        && header.size <= greatest_size(layout, zone)
        && has_body(zone, bytes, &header);
    if !is_unit {
        return None;
    }
    let own = own_place(layout, zone, &header)?;
    Some((header, own))
}

/// The header of the unit that is valid at a place with these bytes; the body follows it, but for a header of the
/// header ring. Where no unit is valid there: the class of what is. The bytes are those of the whole place, for the
/// header ring 256. A copy of the superblock isn't read by this.
pub fn decode_unit(
    layout: &Layout,
    cluster: u128,
    place: Place,
    bytes: &[u8],
) -> Result<Header, Class>
    requires size { length bytes.now ≡ place_size layout.now place.zone }
    requires copy { place.zone ≢ Zone.Superblock }
    ensures { result ≡ header_or_class (unit_in layout.now cluster place bytes.now) (class_of layout.now cluster place bytes.now) }
{
    match whole_in(layout, cluster, place.zone, bytes) {
        None if bytes[..HEADER] == [0; HEADER] => Err(Class::Blank),
        None => Err(Class::Garbled),
        Some((header, own)) if own == place => Ok(header),
        Some((_, own)) => Err(Class::Elsewhere(own)),
    }
}
