// Why no copy is made, or none whole.
use df_layout::{Class, Place};

/// Why a copy ends before it is whole. All but the two faults are refusals, in the order in which they are tested.
#[derive(Clone, Copy, Debug, PartialEq, Eq)]
pub enum Ending {
    /// The source's disk failed.
    Source,
    /// The target's disk failed.
    Target,
    /// The source has prepares after its checkpoint, or some that wait for their replies: its checkpoint's op, its head and its number of replies aren't one number.
    NotAtRest {
        checkpoint_op: u64,
        head: u64,
        replies: u64,
    },
    /// The layout has no room for that many sessions.
    TooFewClients {
        sessions: u64,
        clients: u64,
    },
    /// The layout has no room for that many blocks: those that are referenced, and those of the copy's trailer.
    TooFewBlocks {
        needed: u64,
        blocks: u64,
    },
    /// The target has a byte other than zero in the sector of this copy of the superblock.
    NotBlank {
        copy: u8,
    },
    /// The reply of the session at this place has more bytes, header included, than a message of the layout.
    ReplyTooLong {
        place: u64,
        size: u64,
    },
    /// The block at this address has more bytes, header included, than a block of the layout.
    BlockTooLong {
        address: u64,
        size: u64,
    },
    /// What stands at this place of the source isn't the reply or the block that is known of it.
    Damaged {
        place: Place,
        class: Class,
    },
}
