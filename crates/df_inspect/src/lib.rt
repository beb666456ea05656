//! What the program prints, from plain data into a sink.
#![tactic(auto)]

mod answers;
mod blocks;
mod counts;
mod findings;
mod inspection;
mod line;
mod messages;
mod opening;
mod refusals;

pub use answers::print_answer;
pub use blocks::print_block;
pub use counts::{Workload, print_summary, print_workload};
pub use findings::{print_failing, print_recent, print_tour};
pub use inspection::print_inspection;
pub use line::{
    LINE, Line, classed_line, number_line, place_line, put, put_number, text_line,
    two_numbers_line, write_line,
};
pub use messages::{print_body, print_prepare, print_reply};
pub use opening::{
    print_format_refusal, print_formatted, print_open_refusal, print_script, print_upgraded,
};
