//! The life of a file: formats, upgrades, runs and stops one after the other; what a session keeps on a disk that was hurt; and what is printed.
#![tactic(auto)]

mod again;
mod hurt;
mod life;
mod printed;
mod programs;
mod reads;
mod tables;

pub use again::{a_damaged_life_goes_on, a_mended_life_goes_on};
pub use hurt::{a_life_may_be_hurt, hurt_sessions_keep};
pub use life::{a_copy_begins_a_life, an_upgrade_begins_a_life, sessions_compose};
pub use printed::{a_front_is_written, a_run_has_one_result, a_word_has_one_text};
pub use programs::each_program_runs_a_file;
pub use reads::what_is_kept_is_read;
pub use tables::{a_table_is_found_after_damage, a_table_lives_in_any_life};
