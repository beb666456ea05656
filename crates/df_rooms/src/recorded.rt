// What a superblock records of the state as it is: the update that ends a checkpoint writes it, and that of an open.
ghost use Rattle.std.specs.Prelude.{◌≡◌};
ghost use Rattle.df_rooms.specs.{Parts.{state_in}, Recorded.{recorded, stored_check, stored_checks}};

use crate::Parts;
use df_base::Check;
use df_format::{NO_CHECKSUM, NO_CHECKSUMS, SuperFields};
use df_sessions::{Session, SessionTable};

// How many places for sessions a superblock has.
const PLACES: usize = 64;

// The checksum of a session's stored reply, zeros where there is no session or no reply is stored.
#[tactic(auto, unfolding(df_format::specs::Spelling::no_checksum))]
fn stored_check(session: Option<Session>) -> Check
    ensures { result ≡ stored_check session }
{
    match session {
        Some(session) => session.reply.unwrap_or(NO_CHECKSUM),
        None => NO_CHECKSUM,
    }
}

/// What a superblock names: for each of its places for sessions the checksum of the session's stored reply, or zeros.
pub fn stored_checks(sessions: &SessionTable) -> [Check; 64]
    ensures { result ≡ stored_checks sessions.now.sessions }
{
    let mut checks = NO_CHECKSUMS;
    for place in 0..PLACES {
        checks[place] = stored_check(sessions.get(place as u64));
    }
    checks
}

impl Parts {
    /// These fields of a superblock with the state as it is now: the head and that prepare's checksum, the number of replies,
    /// and for each session's place the checksum of its stored reply, or zeros.
    pub fn recorded(&self, fields: SuperFields) -> SuperFields
        ensures { result ≡ recorded (state_in self.now) fields }
    {
        SuperFields {
            head: self.head,
            head_checksum: self.head_checksum,
            replies: self.replies,
            reply_checksums: stored_checks(&self.sessions),
            ..fields
        }
    }
}
