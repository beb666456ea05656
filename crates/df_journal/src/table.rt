// The table of slots: what the two rings show, slot by slot, and what is decided of each.
ghost use Rattle.std.specs.Prelude.{◌≡◌, ◌<◌, ◌≤◌, ℕ, length, slice_get};
ghost use Rattle.df_base.specs.declared.TheConstants.{GREATEST};
ghost use Rattle.df_journal.specs.{Below.{Layout as AnyLayout, Units, decision as decided, decision_of, pin_of}, Scan.{entry, with_slot}, Seen.{IsOpOf, class_of, header_of_seen}, Planned.{planned}};
ghost use Rattle.df_journal.specs.{Shows.{TellsRings}, Starting.{start_of}};

use crate::seen::{decision_on, planned_of};
use df_base::VERSION;
use df_buffers::SlotSeen;
use df_cases::Decision;
use df_format::{Header, SuperFields};
use df_layout::Class;
use std::marker::Model;

/// The file and the superblock that a scan starts from: the op of its checkpoint, at most 2^62, the head that it names, and its
/// boot. Of a file of version 1 the head is the checkpoint's op, and the boot 0.
#[derive(Clone, Copy, Debug, PartialEq, Eq)]
pub struct Start {
    pub cluster: u128,
    pub op: u64,
    pub head: u64,
    pub boot: u64,
}

/// The greatest op whose prepare a superblock names: in version 2 its head, in any other its checkpoint's op.
pub fn pin_of(fields: &SuperFields) -> u64
    ensures { result ≡ pin_of fields.now }
{
    if fields.version == VERSION {
        fields.head
    } else {
        fields.op
    }
}

impl Start {
    /// The start of the scan of a file that has this superblock.
    pub fn of(fields: &SuperFields) -> Start
        ensures { result ≡ start_of fields.now }
    {
        Start {
            cluster: fields.cluster,
            op: fields.op,
            head: pin_of(fields),
            boot: fields.boot,
        }
    }
}

/// What a scan saw of each slot, after the checkpoint that it started from. Before the first scan it holds any entries.
pub struct SlotTable {
    pub(crate) start: Start,
    pub(crate) slots: Vec<SlotSeen>,
}

// Its owner lets go of it in one call, and not field by field.
impl Drop for SlotTable {
    fn drop(self) {
        let SlotTable { start: _, slots: _ } = self;
    }
}

impl Model for SlotTable {
    ghost use Rattle.std.specs.Prelude.{◌≤◌, length};
    ghost use Rattle.df_journal.specs.Scan.{Scan, IsScan};

    ghost Value = { Scan };

    ghost view = { λ t. record { start = t.start; slots = t.slots.items } };

    ghost invariant = { λ t. IsScan (record { start = t.start; slots = t.slots.items }) };
}

impl SlotTable {
    /// A table over these entries, one for each slot of the layout, which a scan replaces.
    pub fn over(room: Vec<SlotSeen>) -> SlotTable
        requires { length room.items ≤ 1024 }
        ensures { result.slots ≡ room.items }
    {
        SlotTable {
            start: Start {
                cluster: 0,
                op: 0,
                head: 0,
                boot: 0,
            },
            slots: room,
        }
    }

    /// What the rings show at a slot.
    pub(crate) fn seen(&self, slot: u32) -> SlotSeen
        requires { slot < length self.now.slots }
        ensures { slice_get self.now.slots slot ≡ Some result }
    {
        self.slots[slot as usize]
    }

    /// Replaces the entry of a slot.
    pub(crate) fn set(&mut self, slot: u32, seen: SlotSeen)
        requires { slot < length self.old.slots }
        ensures { self.new ≡ with_slot self.old slot seen }
    {
        self.slots[slot as usize] = seen;
    }

    /// Begins anew after a checkpoint.
    pub(crate) fn begin(&mut self, start: &Start)
        requires { start.now.op ≤ GREATEST }
        ensures start { self.new.start ≡ start.now }
        ensures slots { self.new.slots ≡ self.old.slots }
    {
        self.start = *start;
    }

    // The op above the checkpoint's that belongs in a slot.
    fn op_at(&self, slot: u32) -> u64
        requires { slot < length self.now.slots }
        ensures { IsOpOf (length self.now.slots) self.now.start.op slot result }
    {
        let slots = self.slots.as_slice().len() as u64;
        let first = self.start.op + 1;
        first + (u64::from(slot) + slots - first % slots) % slots
    }

    /// What is decided of a slot, by the table of recovery cases: of the op above the checkpoint's that belongs there.
    pub fn decision(&self, slot: u32) -> Decision
        requires { slot < length self.now.slots }
        ensures model { (layout : AnyLayout) (image : Units) (o : ℕ) → TellsRings layout image self.now → IsOpOf layout.slots self.now.start.op slot o
            → decision_of result ≡ decided layout.slots self.now.start.boot image o }
    {
        decision_on(&self.seen(slot), self.op_at(slot), self.start.boot)
    }

    /// What is decided of a slot once the head is known, which isn't below the one that the superblock names. Up to that one the
    /// slot's prepare is known by its checksum: it is taken, and the header mended where it isn't that prepare's. Above it the
    /// table decides, and above the head a prepare that it would take was cut off with its group.
    pub fn planned(&self, slot: u32, head: u64) -> Decision
        requires { slot < length self.now.slots }
        ensures model { (layout : AnyLayout) (image : Units) (o : ℕ) → TellsRings layout image self.now → IsOpOf layout.slots self.now.start.op slot o
            → decision_of result ≡ planned layout.slots self.now.start head image o }
    {
        planned_of(&self.seen(slot), &self.start, self.op_at(slot), head)
    }

    /// The header of the valid prepare that is shown in a slot.
    pub fn prepare(&self, slot: u32) -> Option<Header>
        requires { slot < length self.now.slots }
        ensures { result ≡ header_of_seen (entry self.now slot).prepare }
    {
        self.seen(slot).prepare.ok()
    }

    /// The valid header that the header ring shows in a slot; it may be a reserved one.
    pub fn header(&self, slot: u32) -> Option<Header>
        requires { slot < length self.now.slots }
        ensures { result ≡ header_of_seen (entry self.now slot).header }
    {
        self.seen(slot).header.ok()
    }

    /// The class of what the ring of prepares shows in a slot, Stale where a valid unit is there.
    pub fn class(&self, slot: u32) -> Class
        requires { slot < length self.now.slots }
        ensures { result ≡ class_of (entry self.now slot).prepare }
    {
        self.seen(slot).prepare.err().unwrap_or(Class::Stale)
    }

    /// The class of what the header ring shows in a slot, Stale where a valid header is there.
    pub fn header_class(&self, slot: u32) -> Class
        requires { slot < length self.now.slots }
        ensures { result ≡ class_of (entry self.now slot).header }
    {
        self.seen(slot).header.err().unwrap_or(Class::Stale)
    }
}
