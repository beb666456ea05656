// The stored reply of a client: it is lent from its room, exactly where its session's place shows the one that is known.
ghost use Rattle.std.specs.{Prelude.{◌≡◌, ◌<◌, true, Option, None, Some, IfErr, IfOk}, Borrow.{sem}, Io.BufRead.{Rests}};
ghost use Rattle.df_replica.specs.Below.{HasCause, IsBlamed, ClientReplies, place_in, Holding, number_of, ReadReply, ToReadReply, is_lookup_fault, first_refusal, lookup_refusals, memory};
ghost use Rattle.df_replica.specs.{Answering.{ServesRead, answer_of}, Lending.{LendsWrittenReply}, Lookups.{HoldsKnown, IsReadReply, IsStoredFor, TellsShown, place_for, reply_found, reply_shown}};
ghost use Rattle.df_replica.specs.{Reading.{IsKnownUnit, in_words}, contracts.replica.Replica.{the_row}, Stopping.{left_by}};
ghost use Rattle.df_format.specs.declared.kind.Kind.TheVariants.{Reply as AsReply};
ghost use Rattle.df_model.specs.Memory.{reply_sum};
ghost use Rattle.df_opening.specs.Below.{reply_sum as known_sum};

use crate::replica::end_calls;
use crate::{DataFile, Replica};
use df_base::{Check, Failed};
use df_buffers::{Identity, Reply, Sound};
use df_disk::Disk;
use df_layout::{Class, Place, Zone};
use df_model::LookupError;
use df_places::Shelf;

// The place of a client's session whose reply is stored, and the reply's checksum.
#[derive(Clone, Copy)]
pub(crate) struct Stored {
    pub(crate) place: u64,
    pub(crate) reply: Option<Check>,
}

fn reply_place(place: u64) -> Place
    ensures { result ≡ place_in ClientReplies place }
{
    Place {
        zone: Zone::ClientReplies,
        index: place,
    }
}

// Reads a session's place, for the reply with this checksum: None exactly where it is there, and the room holds it then.
fn load_known<D: Disk>(
    disk: &mut D,
    file: &DataFile,
    place: u64,
    check: Check,
    room: &mut Shelf<Reply>,
) -> Result<Option<Class>, Failed>
    requires layout { room.old.layout ≡ file.now.layout }
    requires place { place < file.now.layout.clients }
    ensures layout { room.new.layout ≡ room.old.layout }
    ensures known { IfOk result (λ wrong. HoldsKnown AsReply file.now (place_in ClientReplies place) (Some (number_of check)) wrong room.new.held) }
    ensures tells { IfOk result (λ wrong. TellsShown (D.told disk.old) (reply_shown file.now place (Some check)) wrong room.new.held) }
    ensures same { D.told disk.new ≡ D.told disk.old }
    ensures cause { HasCause (D.faults disk.old) (D.faults disk.new) result }
{
    let identity = Identity::known(&file.layout, file.cluster, reply_place(place), check);
    room.load(disk, &identity)
}

// Reads a session's place where no reply is known of it: the class of what is shown, whatever that is.
fn load_unknown<D: Disk>(
    disk: &mut D,
    file: &DataFile,
    place: u64,
    room: &mut Shelf<Reply>,
) -> Result<Class, Failed>
    requires layout { room.old.layout ≡ file.now.layout }
    requires place { place < file.now.layout.clients }
    ensures layout { room.new.layout ≡ room.old.layout }
    ensures tells { IfOk result (λ class. (held : Option Holding) → TellsShown (D.told disk.old) (reply_shown file.now place None) (Some class) held) }
    ensures same { D.told disk.new ≡ D.told disk.old }
    ensures cause { HasCause (D.faults disk.old) (D.faults disk.new) result }
{
    let seen = room.see(disk, file.cluster, reply_place(place))?;
    match seen {
        Ok(_) => Ok(Class::Stale),
        Err(class) => Ok(class),
    }
}

// Reads the place of a session whose reply is stored: None exactly where the reply is there, and its room holds it then.
fn load_reply<D: Disk>(
    disk: &mut D,
    file: &DataFile,
    stored: &Stored,
    room: &mut Shelf<Reply>,
) -> Result<Option<Class>, Failed>
    requires layout { room.old.layout ≡ file.now.layout }
    requires place { stored.now.place < file.now.layout.clients }
    ensures layout { room.new.layout ≡ room.old.layout }
    ensures known { IfOk result (λ wrong. HoldsKnown AsReply file.now (place_in ClientReplies stored.now.place) (known_sum stored.now.reply) wrong room.new.held) }
    ensures tells { IfOk result (λ wrong. TellsShown (D.told disk.old) (reply_shown file.now stored.now.place stored.now.reply) wrong room.new.held) }
    ensures same { D.told disk.new ≡ D.told disk.old }
    ensures cause { HasCause (D.faults disk.old) (D.faults disk.new) result }
{
    match stored.reply {
        Some(check) => load_known(disk, file, stored.place, check, room),
        None => match load_unknown(disk, file, stored.place, room) {
            Ok(class) => Ok(Some(class)),
            Err(failed) => Err(failed),
        },
    }
}

impl Replica {
    // A client's session whose reply is stored, or why there is none.
    fn stored_for(&self, client: u128) -> Result<Stored, LookupError>
        ensures refused { IfErr result (λ e. first_refusal (lookup_refusals (memory self.now) client) ≡ Some e) }
        ensures stored { IfOk result (IsStoredFor self.now client) }
    {
        // The table is one.
        let _count = self.parts.sessions.len();
        let Some(place) = self.parts.sessions.place_of(client) else {
            return Err(LookupError::NoClient);
        };
        let Some(session) = self.parts.sessions.get(place) else {
            unreachable!()
        };
        if self.parts.replies < session.op {
            return Err(LookupError::ReplyPending { op: session.op });
        }
        let reply = session.reply;
        Ok(Stored { place, reply })
    }

    /// Lends the stored reply to a client's last request, from the room that its place is read into, by one device call. It is lent
    /// exactly where the place shows the unit whose checksum the session has; else `Damaged` has the class of what is shown. What is
    /// lent was written there, also where sectors were struck since the open. After a fault no call may follow.
    pub fn read_reply<D: Disk>(
        &mut self,
        disk: &mut D,
        client: u128,
    ) -> Result<&Sound<Reply>, LookupError>
        requires live { self.old.live ≡ true }
        ensures* after { sem 𝓛 (Rests the_row self.entry (λ s. s ≡ left_by is_lookup_fault self.entry.now result)) }
        ensures exact { IsReadReply client self.old (D.told disk.old) (in_words (λ u. u.now.unit) result) }
        ensures lent { IfOk result (λ u. IsKnownUnit AsReply self.old.file (place_in ClientReplies (place_for self.old client)) (reply_sum (memory self.old) (place_for self.old client)) u.now.unit) }
        ensures written { LendsWrittenReply client self.old (in_words (λ u. u.now.unit) result) (D.told disk.old) }
        ensures call { ServesRead (ReadReply client) self.old (left_by is_lookup_fault self.old result) (D.told disk.old)
            (reply_found (in_words (λ u. u.now.unit) result)) (answer_of is_lookup_fault ToReadReply (in_words (λ u. u.now.unit) result)) }
        ensures same { D.told disk.new ≡ D.told disk.old }
        ensures cause { IsBlamed is_lookup_fault (D.faults disk.old) (D.faults disk.new) result }
    {
        let stored = match self.stored_for(client) {
            Ok(stored) => stored,
            Err(error) => return Err(error),
        };
        let parts = &mut self.parts;
        let wrong = match load_reply(disk, &parts.file, &stored, &mut parts.rooms.reply) {
            Ok(wrong) => wrong,
            Err(_) => {
                end_calls(&mut self.parts.live);
                return Err(LookupError::DiskFault);
            }
        };
        match wrong {
            Some(class) => Err(LookupError::Damaged {
                place: reply_place(stored.place),
                class,
            }),
            None => Ok(self.parts.rooms.reply.unit()),
        }
    }
}
