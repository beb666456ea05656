// The superblock: what its copies say, and which of their numbers are within their limits.
ghost use Rattle.std.specs.Prelude.{◌≡◌};
ghost use Rattle.df_format.specs.First.{blank_super};

use crate::{NO_CHECKSUM, NO_CHECKSUMS};
use df_base::{Check, VERSION};
use df_layout::{Field, Layout};

/// What a copy of the superblock says, its number aside.
#[derive(Clone, Copy, Debug, PartialEq, Eq)]
pub struct SuperFields {
    pub version: u32,
    /// Slots of each ring.
    pub slots: u32,
    /// Bytes of a prepare slot and of a reply slot.
    pub message_size: u32,
    /// Sessions.
    pub clients: u32,
    /// Bytes of a block.
    pub block_size: u32,
    /// Blocks of the grid.
    pub blocks: u32,
    pub cluster: u128,
    /// One more with each update; 1 in a new file.
    pub sequence: u64,
    /// The op of the checkpoint.
    pub op: u64,
    /// The checksum of the prepare with that op, zeros for op 0.
    pub op_checksum: Check,
    /// The greatest op at the update.
    pub head: u64,
    /// How many replies were stored at the update.
    pub replies: u64,
    /// The address of the last block of the checkpoint's trailer, 0 where there is none.
    pub trailer_address: u64,
    /// The checksum of that block's header.
    pub trailer_checksum: Check,
    /// Bytes of the trailer's text.
    pub trailer_size: u64,
    /// One more with each open of version 2, 0 before the first; 0 in version 1.
    pub boot: u64,
    /// The checksum of the prepare with op `head`, zeros where head is 0 and in version 1.
    pub head_checksum: Check,
    /// For each session's place the checksum of the reply that was stored at the update, or zeros; zeros in version 1.
    pub reply_checksums: [Check; 64],
    /// The offset in the sector of the first byte that isn't zero where this version has no fields.
    pub first_nonzero: Option<u64>,
}

impl SuperFields {
    /// The fields of a file of this layout and cluster, of version 2 and with nothing else: the numbers of its update and its
    /// checkpoint, and what is named, are set by their maker.
    #[tactic(auto, unfolding(crate::specs::Spelling::no_checksum, crate::specs::Super::no_checksums))]
    pub fn of(layout: &Layout, cluster: u128) -> SuperFields
        ensures { result ≡ blank_super layout.now cluster }
    {
        SuperFields {
            version: VERSION,
            slots: layout.slots,
            message_size: layout.message_size,
            clients: layout.clients,
            block_size: layout.block_size,
            blocks: layout.blocks,
            cluster,
            sequence: 0,
            op: 0,
            op_checksum: NO_CHECKSUM,
            head: 0,
            replies: 0,
            trailer_address: 0,
            trailer_checksum: NO_CHECKSUM,
            trailer_size: 0,
            boot: 0,
            head_checksum: NO_CHECKSUM,
            reply_checksums: NO_CHECKSUMS,
            first_nonzero: None,
        }
    }
}

/// A sound copy of the superblock: its checksum covers all but itself and the number.
#[derive(Clone, Copy, Debug, PartialEq, Eq)]
pub struct SuperCopy {
    /// Which of the four copies it is, from 0.
    pub number: u8,
    pub checksum: Check,
    pub fields: SuperFields,
}

/// Why a superblock that two copies agree on can't be used.
#[derive(Clone, Copy, Debug, PartialEq, Eq)]
pub enum SuperFault {
    /// Neither of the two versions.
    Version { found: u32 },
    /// The first field that is out of its range, and its value; a checksum's is its bytes as a little-endian number, and that
    /// of bytes that have to be zero is the offset of the first that isn't.
    BadField { field: Field, value: u128 },
}
