// The kinds of rooms, as empty types: one for each kind of unit that has slots of its own, the header
// sector, and the sector of a copy of the superblock.
ghost use Rattle.df_buffers.specs.Below.{Zone, Superblock, WalHeaders, WalPrepares, ClientReplies, Grid, Kind, Prepare as AsPrepare, Reply as AsReply, Block as AsBlock, Trailer as AsTrailer};
ghost use Rattle.df_buffers.specs.Rooms.{StandsIn};

use df_format::Kind;
use df_layout::Zone;

/// What a room is for: it has the length of a place in this zone, for a header slot that of the whole sector.
pub trait RoomKind {
    ghost ZONE: { Zone };

    const ZONE: Zone;
}

/// The kind of a unit, which has a whole slot of the zone.
pub trait UnitKind: RoomKind {
    ghost KIND: { Kind };

    const KIND: Kind;

    ghost stands: { StandsIn KIND Self.ZONE };
}

/// An entry of the write-ahead log.
#[derive(Drop)]
pub struct Prepare;

/// The answer to a prepare.
#[derive(Drop)]
pub struct Reply;

/// A block of the grid.
#[derive(Drop)]
pub struct Block;

/// A block of the grid that holds a part of a checkpoint's trailer.
#[derive(Drop)]
pub struct Trailer;

/// A sector of sixteen headers of the header ring.
#[derive(Drop)]
pub struct HeaderSector;

/// The sector of a copy of the superblock.
#[derive(Drop)]
pub struct SuperSector;

impl RoomKind for Prepare {
    ghost ZONE = { WalPrepares };

    const ZONE: Zone = Zone::WalPrepares;
}

impl UnitKind for Prepare {
    ghost KIND = { AsPrepare };

    const KIND: Kind = Kind::Prepare;

    ghost stands = { tt };
}

impl RoomKind for Reply {
    ghost ZONE = { ClientReplies };

    const ZONE: Zone = Zone::ClientReplies;
}

impl UnitKind for Reply {
    ghost KIND = { AsReply };

    const KIND: Kind = Kind::Reply;

    ghost stands = { tt };
}

impl RoomKind for Block {
    ghost ZONE = { Grid };

    const ZONE: Zone = Zone::Grid;
}

impl UnitKind for Block {
    ghost KIND = { AsBlock };

    const KIND: Kind = Kind::Block;

    ghost stands = { tt };
}

impl RoomKind for Trailer {
    ghost ZONE = { Grid };

    const ZONE: Zone = Zone::Grid;
}

impl UnitKind for Trailer {
    ghost KIND = { AsTrailer };

    const KIND: Kind = Kind::Trailer;

    ghost stands = { tt };
}

impl RoomKind for HeaderSector {
    ghost ZONE = { WalHeaders };

    const ZONE: Zone = Zone::WalHeaders;
}

impl RoomKind for SuperSector {
    ghost ZONE = { Superblock };

    const ZONE: Zone = Zone::Superblock;
}
