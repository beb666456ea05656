//! What a script prints: the texts of the machine's answers, and worked sessions.
#![tactic(auto)]

mod sessions;

pub use sessions::{
    a_damaged_file_is_scrubbed, a_first_session, a_full_grid, a_full_ring, a_full_table,
    a_group_is_flushed, a_long_trailer, blocks_are_given_out_again, lines_fill_the_grid,
    scripts_print_answers,
};
