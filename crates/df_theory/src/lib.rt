//! What a data file stands for, what a stop may leave of it, and what each writer owes: laws over places and units, without a byte.
#![tactic(auto)]

mod damage;
mod device;
mod groups;
mod histories;
mod knowing;
mod making;
mod mending;
mod sample_file;
mod tidiness;
mod upgrading;
mod views;
mod wholes;
mod writers;

pub use damage::{
    checkpoint_stays, fields_hold, found_tail_is_front, headers_tell, lost_slot_is_hurt,
    missing_prepare_is_hurt, missing_reply_is_hurt, needless_damage_is_harmless, no_field_is_bad,
    read_gives_what_was_written, refusal_blames_what_is_hurt, superblock_is_never_behind,
};
pub use device::{
    commands_are_moments, disk_shows_its_units, format_is_moments, good_units_are_good_sectors,
    new_disk_is_blank, safe_units_are_safe_sectors, steps_are_moments, steps_keep_units,
    stopped_disk_rests, tidy_command_is_moments, write_is_put,
};
pub use groups::{
    boot_leads_tidily, flush_leads_tidily, groups_follow_one_another, lost_case_by_case,
    nothing_survives_without_boots, walk_ends_the_tail,
};
pub use histories::{
    counters_stood_together, found_was_had, found_was_had_by_the_log, one_content_a_rank,
    one_prepare_an_op, one_reply_an_op,
};
pub use knowing::{
    first_version_names_no_more, found_is_known, known_prepares_end_at_the_pin,
    one_known_op_is_named,
};
pub use making::{blank_is_safe, format_begins, second_copy_begins, sync_keeps_making};
pub use mending::{mending_ends_whole, mending_keeps};
pub use sample_file::{
    a_file_is_kept, a_hurt_slot_is_blamed, a_stop_is_survived, a_stopped_update_is_mended,
    a_survivor_is_passed_over, an_unclean_file_is_upgraded,
};
pub use tidiness::{
    append_leads_tidily, block_leads_tidily, checkpoint_leads_tidily, format_ends_tidy,
    mending_leads_tidily, reading_leads_tidily, reply_leads_tidily, run_ends_tidy,
    sync_leads_tidily,
};
pub use upgrading::{
    open_keeps_the_state, raising_ends_whole, raising_keeps_the_state, raising_stays_clean,
    upgrade_keeps_the_state,
};
pub use views::{
    an_answer_is_given, decisions_say_what_is_shown, found_is_answered, held_is_found,
    one_answer_is_given, one_is_chosen, one_is_found, one_view_is_held, slots_are_taken_or_empty,
    spent_boots_are_refused,
};
pub use wholes::{
    append_stays_whole, block_stays_whole, referenced_blocks_stand, reply_stays_whole,
    update_stays_whole,
};
pub use writers::{
    append_leads, barrier_begins, block_keeps, boot_leads, calm_write_keeps, clean_image_begins,
    commands_lead_on, copy_keeps, every_stop_is_survived, flush_leads, header_keeps,
    log_begins_anew, one_unit_is_put, reply_leads, resting_log_is_safe, stopped_log_rests,
    synced_log_rests, update_leads, write_leads,
};
