// What an open finds after a superblock, from what a scan saw of the slots and of the replies: the state, or the first
// damage in the order of open.
ghost use Rattle.std.specs.Prelude.{◌≡◌, ◌≢◌, ◌<◌, ℕ, Some, length, slice_get, IfOk, IfErr};
ghost use Rattle.df_recovery.specs.Below.{CopyPlace, IsWithinRing, KeepsRules, PreparePlace, Session as AnySession, class_of, entry, pin_checksum_of, sessions_of};
ghost use Rattle.df_recovery.specs.Finding.{AnswersFinding, FileIsRead, IsDamage, KeptIsAnswer, RefusedIsAnswer, StateIsOpened, StoredIsKept, StoresTo, damage, lowest_of, with_stored};
ghost use Rattle.df_recovery.specs.{Checkpoints.{AreOfCheckpoint}, Known.{AnswersKnown}, Surveying.{AreAfter, EndsBehind}};
ghost use Rattle.df_format.specs.SuperRules.{IsUsable};
ghost use Rattle.df_journal.specs.{Shows.{IsSeenTable}, Starting.{start_of}};

use crate::{Found, OpenError};
use df_base::{Check, GREATEST, VERSION};
use df_format::{Header, SuperFields};
use df_journal::{
    Reach, SlotTable, Tail, bound_top, count_rings, find_reach, is_behind, is_lost, lacking_known,
    pin_of, slot_of,
};
use df_layout::{Class, Layout, Place, Zone};
use df_replies::ReplyTable;
use df_sessions::SessionTable;
use df_stamps::Counters;

/// The end of the tail, and how many replies are stored.
#[derive(Clone, Copy, Debug, PartialEq, Eq)]
pub struct Traces {
    pub tail: Tail,
    pub replies: u64,
}

fn damage(zone: Zone, index: u64, class: Class) -> OpenError
    ensures { result ≡ OpenError.Damaged (record { zone = zone; index = index }) class }
{
    OpenError::Damaged {
        place: Place { zone, index },
        class,
    }
}

// The copy that names a checkpoint which something is later than: the lowest one that is a member of the choice.
fn behind_damage(found: &Found) -> OpenError
    ensures { result ≡ damage (CopyPlace (lowest_of found.now.chosen.members)) Class.Stale }
{
    let members = &found.chosen.members;
    let lowest = members.iter().position(|member| *member).unwrap_or(0);
    damage(Zone::Superblock, lowest as u64, Class::Stale)
}

// The slot of an op whose prepare is wanted there.
fn lost_damage(slots: &SlotTable, slot: u32) -> OpenError
    requires { slot < length slots.now.slots }
    ensures { result ≡ damage (PreparePlace slot) (class_of (entry slots.now slot).prepare) }
{
    damage(Zone::WalPrepares, u64::from(slot), slots.class(slot))
}

// The checksum of the last prepare that a superblock names.
fn pin_checksum_of(fields: &SuperFields) -> Check
    ensures { result ≡ pin_checksum_of fields.now }
{
    if fields.version == VERSION {
        fields.head_checksum
    } else {
        fields.op_checksum
    }
}

// How far taken prepares go on after the checkpoint of a superblock; the sessions, at first the checkpoint's, become those after
// the tail. Or the slot of the first prepare that an open refuses: of those that the superblock names the one of the greatest op
// that isn't shown, or else that of the least one that doesn't fit.
fn find_known(
    layout: &Layout,
    fields: &SuperFields,
    slots: &SlotTable,
    sessions: &mut SessionTable,
) -> Result<Reach, u32>
    requires table { IsSeenTable layout.now slots.now.start.cluster slots.now.slots }
    requires start { slots.now.start ≡ start_of fields.now }
    requires rules { IsUsable fields.now }
    requires size { fields.now.slots ≡ layout.now.slots }
    requires places { sessions.old.max ≡ layout.now.clients }
    ensures answer { AnswersKnown layout.now slots.now fields.now sessions.old.sessions result sessions.new.sessions }
    ensures bounds { IfOk result (IsWithinRing fields.now.op layout.now.slots fields.now.op_checksum) }
    ensures sessions { KeepsRules sessions.old sessions.new }
{
    let named = pin_checksum_of(fields);
    match lacking_known(layout, slots, &named) {
        Some(op) => Err(slot_of(layout, op)),
        None => {
            let reach = find_reach(layout, slots, &fields.op_checksum, sessions);
            let pin = pin_of(fields);
            if reach.op < pin {
                Err(slot_of(layout, reach.op + 1))
            } else {
                Ok(reach)
            }
        }
    }
}

/// The state after the checkpoint of a superblock, which the table of slots and the replies show; the sessions, at first
/// the checkpoint's, become those after the tail. Or the first refusal of an open: `Superblock` where a unit is of a later
/// checkpoint or boot, `WalPrepares` where a prepare that the superblock names isn't shown or doesn't fit, or an op above the tail
/// left a trace, `ClientReplies` where a reply is missing, and `BootSpent` where the superblock has the greatest boot.
pub fn find_state(
    layout: &Layout,
    found: &Found,
    slots: &SlotTable,
    replies: &ReplyTable,
    sessions: &mut SessionTable,
) -> Result<Traces, OpenError>
    requires table { IsSeenTable layout.now slots.now.start.cluster slots.now.slots }
    requires size { found.now.content.slots ≡ layout.now.slots }
    requires start { slots.now.start ≡ start_of found.now.content }
    requires replies { length replies.now ≡ layout.now.clients }
    requires places { sessions.old.max ≡ layout.now.clients }
    ensures answer { AnswersFinding (record { layout = layout.now; found = found.now; slots = slots.now; replies = replies.now; sessions = sessions.old.sessions })
        result sessions.new.sessions }
    ensures tail { IfOk result (EndsBehind layout.now found.now.content) }
    ensures after { IfOk result (λ traces. AreOfCheckpoint found.now.content sessions.old.sessions → AreAfter traces sessions.new.sessions) }
    ensures damage { IfErr result IsDamage }
    ensures rules { KeepsRules sessions.old sessions.new }
{
    let content = found.content.fields();
    let seen = replies.count(&count_rings(slots), content.boot);
    if is_behind(
        &seen,
        content.sequence,
        content.op,
        layout.slots,
        content.boot,
    ) {
        return Err(behind_damage(found));
    }
    let reach = match find_known(layout, content, slots, sessions) {
        Ok(reach) => reach,
        Err(slot) => return Err(lost_damage(slots, slot)),
    };
    let tail = reach.tail;
    let bound = Counters {
        ring_op: bound_top(slots, content.boot, tail.op),
        ..seen
    };
    if is_lost(&bound, content.head, tail.op) {
        return Err(lost_damage(slots, slot_of(layout, reach.op + 1)));
    }
    let stored = replies.replies(content.replies, tail.mark, content.boot);
    match replies.first_lacking(sessions, stored, content) {
        Some(lacking) => Err(damage(Zone::ClientReplies, lacking.place, lacking.class)),
        None => {
            if content.boot == GREATEST {
                Err(OpenError::BootSpent)
            } else {
                Ok(Traces {
                    tail,
                    replies: stored,
                })
            }
        }
    }
}

// Stores the checksum of a shown reply for the session of a place, if its op is at most `stored`.
fn store_reply(sessions: &mut SessionTable, place: u64, stored: u64, reply: &Result<Header, Class>)
    requires { place < length sessions.old.sessions }
    ensures stored { (s : AnySession) → slice_get sessions.old.sessions place ≡ Some s → slice_get sessions.new.sessions place ≡ Some (with_stored stored (Some reply.now) s) }
    ensures others { (k : ℕ) → k ≢ place → slice_get sessions.new.sessions k ≡ slice_get sessions.old.sessions k }
    ensures requests { sessions_of sessions.new.sessions ≡ sessions_of sessions.old.sessions }
    ensures places { sessions.new.max ≡ sessions.old.max }
{
    if let (Some(session), Ok(header)) = (sessions.get(place), reply) {
        if session.op <= stored {
            let checksum = header.checksum;
            sessions.store(place, checksum);
        }
    }
}

/// Stores for each session whose op is at most `stored` the checksum of the reply that its slot shows.
pub fn store_replies(sessions: &mut SessionTable, stored: u64, replies: &ReplyTable)
    requires { sessions.old.max ≡ length replies.now }
    ensures stored { StoresTo stored replies.now (length sessions.old.sessions) sessions.old.sessions sessions.new.sessions }
    ensures places { sessions.new.max ≡ sessions.old.max }
{
    let count = sessions.len();
    let mut place = 0;
    while place < count {
        let reply = replies.get(place as u32);
        store_reply(sessions, place, stored, &reply);
        place += 1;
    }
}

/// What a state keeps of the view that an open finds stands for what the machine begins with.
pub fn state_is_opened()
    ensures { StateIsOpened }
{}

/// What was read of a file was read from the image in the words of the theory.
pub fn file_is_read()
    ensures { FileIsRead }
{}

/// What is found of a file is the answer to an open: a refusal, or a state that keeps the view that is found.
pub fn found_is_answer()
    ensures refused { RefusedIsAnswer }
    ensures kept { KeptIsAnswer }
{}

/// Where the replies of the sessions are stored so, each is the one that counts as stored in the theory.
pub fn stored_is_kept()
    ensures { StoredIsKept }
{}
