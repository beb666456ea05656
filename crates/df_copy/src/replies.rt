// The replies: each session's is read from the source once, and written into the same place of the target, as it is and without a sync.
ghost use Rattle.std.specs.Prelude.{◌≡◌, ◌<◌, ℕ, List, [], length, OnOk};
ghost use Rattle.df_sessions.specs.Table.{AreDistinctClients};
ghost use Rattle.df_base.specs.Causes.{HasCause, IsBlamed};
ghost use Rattle.df_disk.specs.Adds.{Adds};
ghost use Rattle.df_format.specs.Message.{Message};
ghost use Rattle.df_copy.specs.{Acts.{CopiesReplies, CopiesReply, HasReplyPlace, IsReadySource, LeavesSource, MayPutReply, PutsReply, SetsCheck, beside}, Statuses.{is_target, reply_ending}};
ghost use Rattle.df_copy.specs.{Targets.{IsTarget, KeepsGrid}, Units.{reply_events}};

use crate::ending::Ending;
use crate::target::Target;
use df_base::Failed;
use df_buffers::{Reply, Sound};
use df_disk::Disk;
use df_format::Header;
use df_layout::{Layout, Place, Zone};
use df_model::LookupError;
use df_places::{Shelf, put_unit};
use df_replica::Replica;

// Makes a reply again in a room of the target, which gives the same unit, and writes it into its place, without a sync.
fn put_again<B: Disk>(
    to: &mut B,
    layout: &Layout,
    room: &mut Shelf<Reply>,
    header: Header,
    body: &[u8],
) -> Result<(), Failed>
    requires room { room.old.layout ≡ layout.now }
    requires may { MayPutReply layout.now header body.now }
    ensures room { room.new.layout ≡ layout.now }
    ensures events { Adds (reply_events layout.now (record { header = header; body = body.now })) (B.told to.old) (B.told to.new) result }
    ensures cause { HasCause (B.faults to.old) (B.faults to.new) result }
{
    room.make(header, body);
    let place = Place {
        zone: Zone::ClientReplies,
        index: u64::from(header.slot),
    };
    put_unit(to, layout, place, room.unit())
}

// Writes a reply that was read, where the layout has room for it.
fn put_reply<B: Disk>(to: &mut B, target: &mut Target, unit: &Sound<Reply>) -> Result<(), Ending>
    requires place { HasReplyPlace target.old.layout unit.now.unit }
    ensures puts { PutsReply unit.now.unit target.old target.new (B.told to.old) (B.told to.new) result }
    ensures grid { KeepsGrid target.old target.new }
    ensures disk { IsBlamed is_target (B.faults to.old) (B.faults to.new) result }
{
    let header = *unit.header();
    let place = u64::from(header.slot);
    let size = u64::from(header.size);
    if u64::from(target.layout.message_size) < size {
        return Err(Ending::ReplyTooLong { place, size });
    }
    let layout = target.layout;
    match put_again(to, &layout, &mut target.log.reply, header, unit.body()) {
        Ok(()) => {
            let checksum = header.checksum;
            target.checks[place as usize] = checksum;
            Ok(())
        }
        Err(_) => Err(Ending::Target),
    }
}

// Why a stored reply isn't read: it is there for each session of a source at rest.
fn unread_reply(error: LookupError) -> Ending
    requires client { error ≡ LookupError.NoClient → ⊥ }
    requires stored { (op : ℕ) → error ≡ LookupError.ReplyPending op → ⊥ }
    ensures { result ≡ reply_ending error }
{
    match error {
        LookupError::Damaged { place, class } => Ending::Damaged { place, class },
        LookupError::DiskFault => Ending::Source,
        LookupError::NoClient | LookupError::ReplyPending { op: _ } => unreachable!(),
    }
}

// Copies the reply of the session at a place.
fn copy_reply<A: Disk, B: Disk>(
    from: &mut A,
    to: &mut B,
    replica: &mut Replica,
    target: &mut Target,
    place: u64,
) -> Result<(), Ending>
    requires ready { IsReadySource target.old.layout replica.old }
    requires place { place < length replica.old.table.sessions }
    ensures copies { AreDistinctClients replica.old.table.sessions
        → CopiesReply target.old.layout place replica.old target.old.checks target.new.checks (A.told from.old) (B.told to.old) (B.told to.new) result }
    ensures named { OnOk result (SetsCheck (length replica.old.table.sessions) target.old.checks target.new.checks) }
    ensures grid { KeepsGrid target.old target.new }
    ensures leaves { LeavesSource (beside replica.old (A.told from.old) (A.faults from.old) (B.faults to.old)) (beside replica.new (A.told from.new) (A.faults from.new) (B.faults to.new)) result }
{
    // The state makes sense.
    let _fields = replica.fields();
    let Some(session) = replica.session(place) else {
        unreachable!()
    };
    match replica.read_reply(from, session.client) {
        Ok(unit) => put_reply(to, target, unit),
        Err(error) => Err(unread_reply(error)),
    }
}

/// Copies the replies of all sessions, in order of place, each by one read of the source and one write of the target. The first
/// that is damaged, or has more bytes than a message of the layout, ends it.
pub(crate) fn copy_replies<A: Disk, B: Disk>(
    from: &mut A,
    to: &mut B,
    replica: &mut Replica,
    target: &mut Target,
) -> Result<(), Ending>
    requires target { IsTarget target.old.layout replica.old.file.cluster [] [] target.old }
    requires ready { IsReadySource target.old.layout replica.old }
    ensures copies { AreDistinctClients replica.old.table.sessions → CopiesReplies target.old.layout replica.old target.new.checks (A.told from.old) (B.told to.old) (B.told to.new) result }
    ensures begun { OnOk result ((rs : List Message) × (length rs ≡ length replica.old.table.sessions) × IsTarget target.old.layout replica.old.file.cluster rs [] target.new) }
    ensures grid { KeepsGrid target.old target.new }
    ensures leaves { LeavesSource (beside replica.old (A.told from.old) (A.faults from.old) (B.faults to.old)) (beside replica.new (A.told from.new) (A.faults from.new) (B.faults to.new)) result }
{
    for place in 0..replica.summary().sessions {
        match copy_reply(from, to, replica, target, place) {
            Ok(()) => {}
            Err(ending) => return Err(ending),
        }
    }
    Ok(())
}
