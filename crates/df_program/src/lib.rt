//! The edge of a program over data files: the words of its command line and what they name, how a line is printed, and how a run ends, which blames what failed. The statuses
//! are the program's own.
#![tactic(auto)]

mod command_line;
mod ends;
mod last;
mod layout;
mod outside;
mod shared;
mod turn;

pub use command_line::Words;
pub use ends::Ends;
pub use last::{
    end_line, ended, print_damaged, print_usage, refuse_damaged, refuse_file, refuse_line,
};
pub use layout::{a_name_is_of_one_layout, layout_named};
pub use outside::Outside;
pub use shared::Shared;
pub use turn::{Turn, printed};
