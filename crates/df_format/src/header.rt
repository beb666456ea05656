// The message header: what it says of a unit. Fields that its kind and its version have no use for are zero.
ghost use Rattle.std.specs.Prelude.{◌≡◌};
ghost use Rattle.df_format.specs.Making.{blank_header};

use crate::Kind;
use df_base::{Check, FIRST_VERSION, VERSION};

/// What stands in place of a checksum where there is none, or where it is set later.
pub const NO_CHECKSUM: Check = [0; 16];

/// What stands in place of the checksums of the replies where none is named.
pub const NO_CHECKSUMS: [Check; 64] = [NO_CHECKSUM; 64];

/// The version of a header of a unit that is made today.
pub const HEADER_VERSION: u16 = VERSION as u16;

/// The header of a unit, 256 bytes in the file.
#[derive(Clone, Copy, Debug, PartialEq, Eq)]
pub struct Header {
    /// The checksum of bytes 16 to 256 of the header.
    pub checksum: Check,
    /// The checksum of the body.
    pub checksum_body: Check,
    pub cluster: u128,
    /// Of a prepare, the checksum of the one with the op before (zeros for op 1); of a reply, that of its prepare; of a
    /// trailer block, that of the one with the index before (zeros for index 0).
    pub parent: Check,
    pub client: u128,
    /// The op of a prepare or of the one that a reply answers; the address of a block.
    pub op: u64,
    /// The client's request; of a trailer block the address of the one before it, 0 for index 0.
    pub request: u64,
    /// Of a prepare, how many replies were stored when it was appended; of a reply, the greatest op when it was stored;
    /// of a trailer block, its index.
    pub mark: u64,
    /// The superblock's sequence when the unit was made; of a trailer block, that of its checkpoint.
    pub checkpoint: u64,
    /// Bytes of header and body.
    pub size: u32,
    /// The slot in the rings, or the session's place of a reply.
    pub slot: u32,
    pub kind: Kind,
    /// What its owner says of a block, from 1; 0 in all other kinds.
    pub block_kind: u8,
    /// 1, or 2, in which units have boots and groups.
    pub version: u16,
    /// In version 2 the number of the boot in which the unit was made, from 1; 0 of a reserved header and in version 1.
    pub boot: u64,
    /// Of a prepare of version 2, the first op of the group that it was appended with; 0 in all others.
    pub group: u64,
    /// The last op of that group.
    pub group_last: u64,
}

impl Header {
    /// A header of version 1, this kind and this cluster with all other fields zero: what it has to say besides is set by its
    /// maker, and size and checksums as it is made (`make_unit`).
    #[tactic(auto, unfolding(crate::specs::Spelling::no_checksum))]
    pub fn of(kind: Kind, cluster: u128) -> Header
        ensures { result ≡ blank_header kind cluster }
    {
        Header {
            checksum: NO_CHECKSUM,
            checksum_body: NO_CHECKSUM,
            cluster,
            parent: NO_CHECKSUM,
            client: 0,
            op: 0,
            request: 0,
            mark: 0,
            checkpoint: 0,
            size: 0,
            slot: 0,
            kind,
            block_kind: 0,
            version: FIRST_VERSION as u16,
            boot: 0,
            group: 0,
            group_last: 0,
        }
    }
}
