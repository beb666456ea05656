// The layout of a data file: five numbers within their limits, from which every place follows.
ghost use Rattle.std.specs.Prelude.{◌≡◌, ◌↔◌, IsTrue, IsOk, IfOk, IfErr};
ghost use Rattle.df_layout.specs.Limits.{AreSlots, IsMessageSize, AreClients, IsBlockSize, AreBlocks, AreWithinLimits, FirstOutside};

use crate::{Field, Place, SECTOR_HEADERS, Span, Zone};

/// Copies of the superblock, one sector each.
const COPIES: u64 = 4;

/// Bytes of a sector.
const SECTOR: u32 = 4096;

/// The sizes of a data file's parts; each number is within its limits.
#[derive(Clone, Copy, Debug, PartialEq, Eq)]
pub struct Layout {
    /// Slots of each of the two rings: 16 to 1,024, a multiple of 16.
    pub slots: u32,
    /// Bytes of a prepare slot and of a reply slot: 4,096 to 1,048,576, whole sectors.
    pub message_size: u32,
    /// Sessions: 1 to 64.
    pub clients: u32,
    /// Bytes of a block: 4,096 to 524,288, whole sectors.
    pub block_size: u32,
    /// Blocks: 8 to 16,384.
    pub blocks: u32,
    pub ghost slots_within: { AreSlots slots },
    pub ghost message_size_within: { IsMessageSize message_size },
    pub ghost clients_within: { AreClients clients },
    pub ghost block_size_within: { IsBlockSize block_size },
    pub ghost blocks_within: { AreBlocks blocks },
}

impl Layout {
    /// The layout of these numbers, or the first of the five that breaks its limit.
    pub fn new(
        slots: u32,
        message_size: u32,
        clients: u32,
        block_size: u32,
        blocks: u32,
    ) -> Result<Layout, Field>
        ensures within { IsOk result ↔ AreWithinLimits slots message_size clients block_size blocks }
        ensures slots { IfOk result (λ layout. layout.slots ≡ slots) }
        ensures message_size { IfOk result (λ layout. layout.message_size ≡ message_size) }
        ensures clients { IfOk result (λ layout. layout.clients ≡ clients) }
        ensures block_size { IfOk result (λ layout. layout.block_size ≡ block_size) }
        ensures blocks { IfOk result (λ layout. layout.blocks ≡ blocks) }
        ensures refused { IfErr result (FirstOutside slots message_size clients block_size blocks) }
    {
        if !(16..=1024).contains(&slots) || !slots.is_multiple_of(SECTOR_HEADERS) {
            return Err(Field::Slots);
        }
        if !(4096..=1_048_576).contains(&message_size) || !message_size.is_multiple_of(SECTOR) {
            return Err(Field::MessageSize);
        }
        if !(1..=64).contains(&clients) {
            return Err(Field::Clients);
        }
        if !(4096..=524_288).contains(&block_size) || !block_size.is_multiple_of(SECTOR) {
            return Err(Field::BlockSize);
        }
        if !(8..=16_384).contains(&blocks) {
            return Err(Field::Blocks);
        }
        Ok(Layout {
            slots,
            message_size,
            clients,
            block_size,
            blocks,
        })
    }

    /// A file of 336 sectors, for tests and small machines.
    pub fn small() -> Layout
        ensures slots { result.slots ≡ 32 }
        ensures message_size { result.message_size ≡ 8192 }
        ensures clients { result.clients ≡ 4 }
        ensures block_size { result.block_size ≡ 16384 }
        ensures blocks { result.blocks ≡ 64 }
    {
        Layout {
            slots: 32,
            message_size: 8192,
            clients: 4,
            block_size: 16_384,
            blocks: 64,
        }
    }

    /// The greatest layout: 2,375,808 sectors.
    pub fn large() -> Layout
        ensures slots { result.slots ≡ 1024 }
        ensures message_size { result.message_size ≡ 1048576 }
        ensures clients { result.clients ≡ 64 }
        ensures block_size { result.block_size ≡ 524288 }
        ensures blocks { result.blocks ≡ 16384 }
    {
        Layout {
            slots: 1024,
            message_size: 1_048_576,
            clients: 64,
            block_size: 524_288,
            blocks: 16_384,
        }
    }
}

impl Layout {
    ghost use Rattle.df_layout.specs.{Zones.{message_sectors, block_sectors, first_sector, file_sectors}, Spans.{HasPlace, span_of}};

    /// Whether the layout has the place: a copy 0 to 3, a slot below `slots`, a session's place below `clients`, or a
    /// block's address from 1 to `blocks`.
    pub fn has(&self, place: Place) -> bool
        ensures { IsTrue result ↔ HasPlace self.now place }
    {
        match place.zone {
            Zone::Superblock => place.index < COPIES,
            Zone::WalHeaders | Zone::WalPrepares => place.index < u64::from(self.slots),
            Zone::ClientReplies => place.index < u64::from(self.clients),
            Zone::Grid => (1..=u64::from(self.blocks)).contains(&place.index),
        }
    }

    /// The sectors of a place; for a header slot the one sector that holds it.
    #[tactic(auto, using(crate::proofs::Spans::first_below, crate::proofs::Sizes::sizes), unfolding(crate::specs::Spans::span_of, crate::specs::Spans::sectors_before, crate::specs::Spans::place_sectors))]
    pub fn sectors_of(&self, place: Place) -> Span
        requires { HasPlace self.now place }
        ensures { result ≡ span_of self.now place }
    {
        let zone = self.first_sector(place.zone);
        match place.zone {
            Zone::Superblock => Span {
                first: zone + place.index,
                count: 1,
            },
            Zone::WalHeaders => Span {
                first: zone + place.index / u64::from(SECTOR_HEADERS),
                count: 1,
            },
            Zone::WalPrepares | Zone::ClientReplies => Span {
                first: zone + place.index * self.message_sectors(),
                count: self.message_sectors(),
            },
            Zone::Grid => Span {
                first: zone + (place.index - 1) * self.block_sectors(),
                count: self.block_sectors(),
            },
        }
    }

    /// How many sectors the file has.
    #[tactic(auto, using(crate::proofs::Zones::file_within), unfolding(crate::specs::Zones::zone_sectors))]
    pub fn sectors(&self) -> u64
        ensures { result ≡ file_sectors self.now }
    {
        self.first_sector(Zone::Grid) + u64::from(self.blocks) * self.block_sectors()
    }

    /// Sectors of a prepare slot and of a reply slot.
    fn message_sectors(&self) -> u64
        ensures { result ≡ message_sectors self.now }
    {
        u64::from(self.message_size / SECTOR)
    }

    /// Sectors of a block.
    fn block_sectors(&self) -> u64
        ensures { result ≡ block_sectors self.now }
    {
        u64::from(self.block_size / SECTOR)
    }

    /// The first sector of a zone: what stands before it, up to a whole number of blocks for the grid.
    #[tactic(auto, unfolding(crate::specs::Zones::zone_sectors, crate::specs::Zones::first_sector))]
    fn first_sector(&self, zone: Zone) -> u64
        ensures { result ≡ first_sector self.now zone }
    {
        let prepares = COPIES + u64::from(self.slots / SECTOR_HEADERS);
        let replies = prepares + u64::from(self.slots) * self.message_sectors();
        let end = replies + u64::from(self.clients) * self.message_sectors();
        match zone {
            Zone::Superblock => 0,
            Zone::WalHeaders => COPIES,
            Zone::WalPrepares => prepares,
            Zone::ClientReplies => replies,
            Zone::Grid => end.div_ceil(self.block_sectors()) * self.block_sectors(),
        }
    }
}
