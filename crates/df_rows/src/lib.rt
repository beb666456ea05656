//! The plain data of the object table: its commands, its rows in order of key, the blocks that hold them, and the lines and texts of its
//! program. Nothing here knows a disk.
#![tactic(auto)]

mod answer;
mod blocks;
mod bytes;
mod command;
mod finding;
mod limits;
mod line;
mod meaning;
mod parser;
mod printer;
mod refusal;
mod row;
mod table;

pub use answer::Answer;
pub use bytes::{ROW, RowBytes};
pub use command::Command;
pub use limits::{blocks_of_table, most_rows, rows_in_block};
pub use line::Line;
pub use meaning::{
    blocks_are_table, commands_in_turn, one_command, one_meaning, one_row, one_table, tables_fit,
};
pub use printer::{print_answer, print_not_table};
pub use refusal::Refusal;
pub use row::{LONGEST_VALUE, Row};
pub use table::ObjectTable;
