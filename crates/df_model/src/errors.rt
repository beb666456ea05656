// Why a call is refused: of making and opening a file, and of the commands that change it.
use df_layout::{Class, Field, Layout, Place};

/// Why `format` made no file; the first of these that applies.
#[derive(Clone, Copy, Debug, PartialEq, Eq)]
pub enum FormatError {
    /// A file's cluster isn't 0.
    ClusterZero,
    /// The first copy of the superblock whose sector holds a byte other than zero.
    NotBlank { copy: u8 },
    /// The disk failed; the file may be written in part.
    DiskFault,
}

/// Why a file isn't opened. The first step of an open that refuses gives the answer.
#[derive(Clone, Copy, Debug, PartialEq, Eq)]
pub enum OpenError {
    /// All four sectors of the superblock are zeros.
    NotFormatted,
    /// No two copies of the superblock agree; what each of the four sectors shows.
    NoQuorum { classes: [Class; 4] },
    /// The superblock has another version than the one that is asked for.
    Version { found: u32 },
    /// The first number of the superblock or part of the trailer that is out of its range.
    BadField { field: Field, value: u128 },
    /// The file has another layout than the rooms were reserved for.
    LayoutDiffers { reserved: Layout, found: Layout },
    /// A place doesn't show the unit that it has to; or the boot update that ends an open answered so (`MendError`).
    Damaged { place: Place, class: Class },
    /// The disk failed.
    DiskFault,
    /// The superblock has the greatest boot, so that no later open can be told apart from the one that set it. Of version 2 alone.
    BootSpent,
}

/// Why a file that was surveyed isn't mended, or its boot isn't raised.
#[derive(Clone, Copy, Debug, PartialEq, Eq)]
pub enum MendError {
    /// Fewer than three copies of the superblock with the next boot were read back as written; the first that wasn't.
    Damaged { place: Place, class: Class },
    /// The disk failed; the file may be mended in part, and its boot may be raised or not.
    DiskFault,
}

/// Why a prepare isn't appended; the first of these that applies.
#[derive(Clone, Copy, Debug, PartialEq, Eq)]
pub enum AppendError {
    /// A client isn't 0.
    ClientZero,
    /// The body is longer than `max` bytes.
    BodyTooLong { max: u64 },
    /// The client has no session, and the table has its `max` sessions.
    ClientsFull { max: u64 },
    /// It is the client's last request again, which got this op; its reply is stored.
    Repeated { op: u64 },
    /// The client's last request, which got this op, waits for its reply.
    ReplyPending { op: u64 },
    /// The client's next request has this number.
    RequestOrder { expected: u64 },
    /// This many prepares wait for their replies, and no more may.
    PipelineFull { waiting: u64 },
    /// The ring has no slot for this op until a checkpoint above `checkpoint_op` is done.
    WalFull { op: u64, checkpoint_op: u64 },
    /// The head is the greatest op, or the request is above the greatest number.
    OpsSpent,
    /// The disk failed; the prepare may be kept or not.
    DiskFault,
    /// This many requests are staged: they are to be flushed first. It comes after all others but for the disk's, and never of a
    /// request that is staged itself.
    Staged { count: u64 },
}

/// Why what is staged isn't appended; the first of these that applies.
#[derive(Clone, Copy, Debug, PartialEq, Eq)]
pub enum FlushError {
    /// Nothing is staged.
    NothingStaged,
    /// The disk failed; all that was staged may be kept, or nothing of it.
    DiskFault,
}

/// Why a reply isn't stored; the first of these that applies.
#[derive(Clone, Copy, Debug, PartialEq, Eq)]
pub enum ReplyError {
    /// Each prepare up to the head has its reply.
    NothingPending { head: u64 },
    /// The next reply is to this op.
    ReplyOrder { expected: u64 },
    /// The body is longer than `max` bytes.
    BodyTooLong { max: u64 },
    /// The disk failed; the reply may be kept or not.
    DiskFault,
}

/// Why a block isn't written; the first of these that applies.
#[derive(Clone, Copy, Debug, PartialEq, Eq)]
pub enum BlockError {
    /// A kind of 0 is that of a trailer block.
    KindZero,
    /// The body is longer than `max` bytes.
    BodyTooLong { max: u64 },
    /// Each of the grid's blocks is held.
    GridFull { blocks: u64 },
    /// The disk failed.
    DiskFault,
}

/// The address isn't live: nothing was written there, or it was released.
#[derive(Clone, Copy, Debug, PartialEq, Eq)]
pub struct NotLive;

/// Why a checkpoint isn't begun; the first of these that applies.
#[derive(Clone, Copy, Debug, PartialEq, Eq)]
pub enum BeginError {
    /// One runs already, with this many steps to come.
    Running { left: u64 },
    /// The root is longer than `max` bytes.
    RootTooLong { max: u64 },
    /// The trailer needs more blocks than are free.
    GridFull { needed: u64, free: u64 },
    /// The superblock's sequence is the greatest.
    SequenceSpent,
}

/// Why a step of a checkpoint isn't done; the first of these that applies.
#[derive(Clone, Copy, Debug, PartialEq, Eq)]
pub enum StepError {
    /// No checkpoint runs.
    NotRunning,
    /// Fewer than three copies of the new superblock were read back as written; the first that wasn't.
    Damaged { place: Place, class: Class },
    /// The disk failed.
    DiskFault,
}
