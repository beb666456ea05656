// What a running checkpoint captured, beside the blocks that the grid marks, and how far its trailer is written.
use df_base::Check;
use df_checkpoint::Capture;

/// A checkpoint that was begun and isn't finished.
#[derive(Drop)]
pub struct RunningCheckpoint {
    /// The op that it reaches, and the checksum of that prepare: zeros for op 0.
    pub op: u64,
    pub op_checksum: Check,
    /// The root, the sessions, and the sequence that it is to have.
    pub capture: Capture,
    /// Bytes of the trailer's text.
    pub size: u64,
    /// How many blocks the trailer has, and how many of them are written.
    pub blocks: u64,
    pub written: u64,
}
