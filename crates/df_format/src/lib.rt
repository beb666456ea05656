//! The bytes of a unit in the file: the header's one spelling, and which unit a slot shows.
#![tactic(auto)]

mod codec;
mod copy_laws;
mod decode;
mod header;
mod kind;
mod make;
mod reference;
mod rules;
mod super_codec;
mod super_rules;
mod superblock;
mod unit_laws;

pub use codec::{decode_header, encode_header, seal_header};
pub use copy_laws::{
    blank_shows_no_copy, copies_have_one_spelling, nameless_copy_ends_in_zeros,
    same_sector_same_copy, valid_copy_is_stale, written_copy_is_shown,
};
pub use decode::{decode_unit, own_place};
pub use header::{HEADER_VERSION, Header, NO_CHECKSUM, NO_CHECKSUMS};
pub use kind::Kind;
pub use make::{Made, make_unit, seal_summed};
pub use reference::Reference;
pub use super_codec::{
    decode_copy, decode_own_copy, decode_own_copy_beside, encode_copy, renumber_copy,
};
pub use super_rules::{Super, faults_are_broken_rules, test_fields};
pub use superblock::{SuperCopy, SuperFault, SuperFields};
pub use unit_laws::{
    blank_shows_no_unit, bodies_follow_headers, classes_tell, first_version_ends_in_zeros,
    header_sector_is_shown, headers_have_one_spelling, other_places_stay,
    places_show_their_sectors, sectors_bring_units, units_belong, units_have_one_spelling,
    written_unit_is_shown,
};
