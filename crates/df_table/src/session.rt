// A session: the replica and the table that it works with, and the memory that serves a script.
use df_layout::Layout;
use df_lines::LineRoom;
use df_rows::ObjectTable;
use df_session::Replica;

/// What a session works with. All of its memory is taken before the first command.
#[derive(Drop)]
pub struct Session {
    /// The layout of the file that was opened.
    pub layout: Layout,
    /// Its replica.
    pub replica: Replica,
    /// The table as all commands so far have made it.
    pub table: ObjectTable,
    /// The reader of the script.
    pub lines: LineRoom,
    /// A block of the table, as it is made.
    pub block: Vec<u8>,
    /// How many lines were executed.
    pub count: u64,
}
