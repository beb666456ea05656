// The sessions at the superblock's head, what the ring of prepares shows above it, and the replies that the superblock records, in order of place.
ghost use Rattle.std.specs.Prelude.{◌≡◌, ◌+◌, ◌<◌, ◌≤◌, List, length, take, IfOk, IsFalse, IsTrue};
ghost use Rattle.df_disk.specs.Told.{Told};
ghost use Rattle.df_format.specs.declared.kind.Kind.TheVariants.{Reply as AsReply};
ghost use Rattle.df_journal.specs.Shows.{IsSeenTable, TellsRings};
ghost use Rattle.df_opening.specs.Below.{shape};
ghost use Rattle.df_sessions.specs.Requests.{sessions_of};
ghost use Rattle.df_theory.specs.{Opens.{AreKnown}, Sessions.{sessions_after}, Units.{Message, Units}};
ghost use Rattle.df_mirror.specs.{Known.{AreShown}, Mends.{AreOfKind, IsRefusal}, Outside.{Tell, around, counts}, Statuses.{AreBlamed}};
ghost use Rattle.df_mirror.specs.Walks.{HasHead, HasLater, Mended, ShowsKnownReplies, content_of_superblock, superblock_units};

use crate::ending::Ending;
use crate::superblock::Superblock;
use crate::unit::mend_unit;
use df_base::Sink;
use df_buffers::{Identity, Reply};
use df_disk::Disk;
use df_journal::{SlotTable, slot_of};
use df_layout::{Place, Zone};
use df_places::Shelf;
use df_sessions::SessionTable;

/// The sessions at the superblock's head, from those of the checkpoint on: the prepares that the superblock names are in the table of slots.
pub(crate) fn sessions_at_head(
    base: &Superblock,
    slots: &SlotTable,
    sessions: SessionTable,
) -> SessionTable
    requires table { IsSeenTable base.now.file.layout base.now.file.cluster slots.now.slots }
    requires places { sessions.max ≡ base.now.file.layout.clients }
    requires few { length sessions.sessions ≤ sessions.max }
    ensures sessions { (image : Units) (named : List Message) → TellsRings base.now.file.layout image slots.now
        → AreKnown base.now.file.layout.slots image (base.now.content.op + 1) (content_of_superblock base.now).pin_checksum named
        → base.now.content.op + length named ≡ (content_of_superblock base.now).pin
        → sessions_of result.sessions ≡ take base.now.file.layout.clients (sessions_after (sessions_of sessions.sessions) named) }
    ensures places { result.max ≡ sessions.max }
{
    let mut sessions = sessions;
    let fields = base.content.fields();
    let places = u64::from(base.file.layout.clients);
    let mut op = fields.op;
    while op < fields.head {
        op += 1;
        if let Some(header) = slots.prepare(slot_of(&base.file.layout, op)) {
            // A client that is new where no place is left gets none.
            if sessions.place_of(header.client).is_some() || sessions.len() < places {
                let _place = sessions.apply(header.client, header.request, header.op);
            }
        }
    }
    sessions
}

// Whether a slot of the ring shows a prepare of the superblock's boot above its head that is this client's.
fn has_later(base: &Superblock, slots: &SlotTable, client: u128) -> bool
    requires table { length slots.now.slots ≡ base.now.file.layout.slots }
    ensures yes { (image : Units) → TellsRings base.now.file.layout image slots.now → IsTrue result → HasLater base.now image client }
    ensures no { (image : Units) → TellsRings base.now.file.layout image slots.now → IsFalse result → HasLater base.now image client → ⊥ }
{
    let fields = base.content.fields();
    for slot in 0..base.file.layout.slots {
        if let Some(header) = slots.prepare(slot) {
            if header.boot == fields.boot && fields.head < header.op && header.client == client {
                return true;
            }
        }
    }
    false
}

// Mends the reply of the session at a place, where it is known by the checksum that the superblock recorded: nothing newer of its boot is shown. Answers how many were written, 0 or 1.
fn mend_reply<A: Disk, B: Disk, W: Sink>(
    first: &mut A,
    second: &mut B,
    sink: &mut W,
    base: &Superblock,
    slots: &SlotTable,
    sessions: &SessionTable,
    shelf: &mut Shelf<Reply>,
    place: u64,
) -> Result<u64, Ending>
    requires place { (place < length sessions.now.sessions) × (place < base.now.file.layout.clients) }
    requires table { length slots.now.slots ≡ base.now.file.layout.slots }
    requires layout { shelf.old.layout ≡ base.now.file.layout }
    ensures mends { (t o : Told) → Tell t o (around (A.told first.old) (B.told second.old) (W.written sink.old))
        → ShowsKnownReplies base.now (superblock_units base.now t.shown) slots.now sessions.now place
        → Mended base.now (AreOfKind AsReply) t o (around (A.told first.old) (B.told second.old) (W.written sink.old))
        (around (A.told first.new) (B.told second.new) (W.written sink.new)) result (λ image. ShowsKnownReplies base.now image slots.now sessions.now (place + 1)) }
    ensures unrefused { IsRefusal result → ⊥ }
    ensures back { IfOk result (λ more. (shelf.new.layout ≡ base.now.file.layout) × (more ≤ 1)) }
    ensures same { B.told second.new ≡ B.told second.old }
    ensures blamed { AreBlamed (counts (A.faults first.old) (B.faults second.old) (W.faults sink.old)) (counts (A.faults first.new) (B.faults second.new) (W.faults sink.new)) result }
{
    let fields = base.content.fields();
    let checksum = fields.reply_checksums[place as usize];
    if checksum == [0; 16] {
        return Ok(0);
    }
    let Some(session) = sessions.get(place) else {
        return Ok(0);
    };
    if has_later(base, slots, session.client) {
        return Ok(0);
    }
    let at = Place {
        zone: Zone::ClientReplies,
        index: place,
    };
    let wanted = Identity::known(&base.file.layout, base.file.cluster, at, checksum);
    let Ok(seen) = shelf.see(first, base.file.cluster, at) else {
        return Err(Ending::First);
    };
    if let Ok(header) = seen {
        if header.boot == fields.boot && fields.replies < header.op {
            return Ok(0);
        }
    }
    mend_unit(first, second, sink, shelf, &wanted)
}

/// Mends the replies that are known, in order of place. Answers how many were written.
pub(crate) fn mend_replies<A: Disk, B: Disk, W: Sink>(
    first: &mut A,
    second: &mut B,
    sink: &mut W,
    base: &Superblock,
    slots: &SlotTable,
    sessions: &SessionTable,
    shelf: &mut Shelf<Reply>,
) -> Result<u64, Ending>
    requires places { sessions.now.max ≡ base.now.file.layout.clients }
    requires table { length slots.now.slots ≡ base.now.file.layout.slots }
    requires layout { shelf.old.layout ≡ base.now.file.layout }
    ensures mends { (t o : Told) → Tell t o (around (A.told first.old) (B.told second.old) (W.written sink.old)) → HasHead base.now (superblock_units base.now t.shown) slots.now sessions.now
        → Mended base.now (AreOfKind AsReply) t o (around (A.told first.old) (B.told second.old) (W.written sink.old))
        (around (A.told first.new) (B.told second.new) (W.written sink.new)) result (λ image. AreShown (shape base.now.file) image (content_of_superblock base.now) AsReply) }
    ensures unrefused { IsRefusal result → ⊥ }
    ensures few { IfOk result (λ mended. mended ≤ 64) }
    ensures same { B.told second.new ≡ B.told second.old }
    ensures blamed { AreBlamed (counts (A.faults first.old) (B.faults second.old) (W.faults sink.old)) (counts (A.faults first.new) (B.faults second.new) (W.faults sink.new)) result }
{
    let mut mended = 0;
    for place in 0..sessions.len() {
        match mend_reply(first, second, sink, base, slots, sessions, shelf, place) {
            Ok(more) => mended += more,
            Err(ending) => return Err(ending),
        }
    }
    Ok(mended)
}
