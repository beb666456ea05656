//! The slots of client replies, one for each session: how a reply is stored, and what an open finds stored.
#![tactic(auto)]

mod answers;
mod shown;
mod slot;
mod table;

pub use answers::Lacking;
pub use shown::{scanned_replies_are_shown, stored_replies_are_found};
pub use slot::{read_reply_slot, write_reply};
pub use table::ReplyTable;
