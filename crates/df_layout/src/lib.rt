//! Where each zone, slot and block of a data file stands: the layout and the places in it.
#![tactic(auto)]

mod bounds;
mod damage;
mod fields;
mod layout;
mod order;
mod places;

pub use bounds::{FINDINGS, LINKS, ROOT, SECTOR_HEADERS};
pub use damage::{Class, Finding, Mend};
pub use fields::Field;
pub use layout::Layout;
pub use order::{layouts_are_numbers, places_are_apart, places_are_inside, zones_in_order};
pub use places::{Place, Span, Zone};
