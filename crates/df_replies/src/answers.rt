// What a reply that is shown counts for, and whether it answers its session: a superblock takes the replies that it names by their
// checksums, and each later one of its boot.
ghost use Rattle.std.specs.Prelude.{◌≡◌, ◌↔◌, ◌<◌, length, IsTrue};
ghost use Rattle.df_replies.specs.{Below.{number_of}, Answers.{TestsStored}, Counts.{counting_reply, op_of_reply}, Named.{IsNamedBy}};

use df_base::{Check, VERSION};
use df_format::{Header, SuperFields};
use df_layout::Class;
use df_sessions::Session;
use df_stamps::Counters;

/// A session whose reply is stored and not shown.
#[derive(Clone, Copy, Debug, PartialEq, Eq)]
pub struct Lacking {
    /// The session's place.
    pub place: u64,
    /// What its slot shows: Stale for a valid reply that isn't the one.
    pub class: Class,
}

/// The op of a reply of this boot, 0 of any other.
pub(crate) fn op_in(seen: &Result<Header, Class>, boot: u64) -> u64
    ensures { result ≡ op_of_reply boot seen.now }
{
    match seen {
        Ok(header) => { if header.boot == boot { header.op } else { 0 } }
        Err(_) => 0,
    }
}

/// The counters with one more reply: its op and its mark count in this boot alone.
pub(crate) fn with_reply(seen: &Counters, reply: &Result<Header, Class>, boot: u64) -> Counters
    ensures { result ≡ counting_reply boot seen.now reply.now }
{
    match reply {
        Ok(header) => {
            let mark = if header.boot == boot { header.mark } else { 0 };
            Counters {
                ring_op: seen.ring_op,
                reply_top: seen.reply_top.max(op_in(reply, boot).max(mark)),
                checkpoint: seen.checkpoint.max(header.checkpoint),
                boot: seen.boot.max(header.boot),
            }
        }
        Err(_) => *seen,
    }
}

fn is_same(one: &Check, other: &Check) -> bool
    ensures { IsTrue result ↔ (number_of one.now ≡ number_of other.now) }
{
    *one == *other
}

// Whether the superblock takes the reply with this header in the slot of a place. A superblock of version 2 names the replies up
// to its own number of them; no other version names any.
fn is_named(fields: &SuperFields, place: u64, header: &Header) -> bool
    requires { place < 64 }
    ensures { IsTrue result ↔ IsNamedBy fields.now place header.now }
{
    if fields.version == VERSION && header.op <= fields.replies {
        is_same(&fields.reply_checksums[place as usize], &header.checksum)
    } else {
        header.boot == fields.boot
    }
}

/// The class of the slot of a place that doesn't show the reply to the session's last request, where that reply is stored.
pub(crate) fn lacks(
    fields: &SuperFields,
    place: u64,
    session: &Session,
    stored: u64,
    reply: &Result<Header, Class>,
) -> Option<Class>
    requires { place < 64 }
    ensures { TestsStored fields.now place session.now stored reply.now result }
{
    if stored < session.op {
        return None;
    }
    match reply {
        Ok(header) => {
            let own = header.client == session.client
                && header.request == session.request
                && header.op == session.op;
            if own && is_named(fields, place, header) {
                None
            } else {
                Some(Class::Stale)
            }
        }
        Err(class) => Some(*class),
    }
}
