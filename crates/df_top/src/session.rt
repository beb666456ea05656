// A session: the replica that it works with, the memory that serves a script, how far the script has come, and the work beside it.
use df_lines::LineRoom;
use df_pace::{Beat, Pace};
use df_session::Replica;

/// What a session works with. All of its memory is taken before the first command.
#[derive(Drop)]
pub struct Session {
    /// The replica of the file that was opened.
    pub replica: Replica,
    /// The reader of the script.
    pub lines: LineRoom,
    /// How many lines were executed.
    pub count: u64,
    /// How much work is done after each line.
    pub pace: Pace,
    /// Where that work stands.
    pub beat: Beat,
}
