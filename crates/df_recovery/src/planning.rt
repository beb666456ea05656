// What an open plans of a file that it finds: which header each slot of the header ring is to have, and what is to be
// written again. Nothing is written here.
ghost use Rattle.std.specs.Prelude.{◌≡◌, ◌<◌, ◌≤◌, ◌+◌, ◌++◌, false, not, get_or, length, vec_len, vec_capacity};
ghost use Rattle.df_recovery.specs.Below.{Shape, Units, View, Layout as AnyLayout, entry, TellsRings, decision_of};
ghost use Rattle.df_theory.specs.MendLaws.{IsTable as IsSlotTable};
ghost use Rattle.df_headers.specs.Ring.{IsHeaderTable};
ghost use Rattle.df_journal.specs.Shows.{IsSeenTable as AreSlots};
ghost use Rattle.df_recovery.specs.Plan.{AreDistinctUnits, ArePlanned, IsScanOf, OthersAreShown, PutsHeader, copy_mend, copy_mends, header_by, header_or_reserved, headers_in, if_wanted, is_mended, mend_list, needs_header, shown_class, slot_mend};

use df_cases::Decision;
use df_format::Header;
use df_headers::{HeaderTable, reserved_header};
use df_journal::SlotTable;
use df_layout::{Class, Layout, Mend, Place, Zone};
use df_quorum::Slot;

// Lists a copy, if it isn't a member.
fn list_copy(copies: &[Slot; 4], members: &[bool; 4], number: u8, mends: &mut Vec<Mend>)
    requires number { number < 4 }
    requires room { vec_len mends.old < vec_capacity mends.old }
    ensures list { mends.new.items ≡ mends.old.items ++ if_wanted (not (get_or members.now number false)) (copy_mend copies.now number) }
    ensures len { vec_len mends.new ≤ vec_len mends.old + 1 }
    ensures room { vec_capacity mends.new ≡ vec_capacity mends.old }
{
    let index = usize::from(number);
    if !members[index] {
        let place = Place {
            zone: Zone::Superblock,
            index: u64::from(number),
        };
        let class = match &copies[index] {
            Slot::Sound(_) => Class::Stale,
            Slot::Bad(class) => *class,
        };
        mends.push_reserved(Mend { place, class });
    }
}

// Lists the copies that aren't members.
fn list_copies(copies: &[Slot; 4], members: &[bool; 4], mends: &mut Vec<Mend>)
    requires { 4 ≤ vec_capacity mends.old }
    ensures list { mends.new.items ≡ copy_mends copies.now members.now }
    ensures len { vec_len mends.new ≤ 4 }
    ensures room { vec_capacity mends.new ≡ vec_capacity mends.old }
{
    mends.clear();
    list_copy(copies, members, 0, mends);
    list_copy(copies, members, 1, mends);
    list_copy(copies, members, 2, mends);
    list_copy(copies, members, 3, mends);
}

// Whether a slot's header is to be written again.
fn is_mended(decision: &Decision) -> bool
    ensures { result ≡ is_mended (decision_of decision.now) }
{
    match decision {
        Decision::Take { mend } | Decision::Empty { mend } => *mend,
        Decision::Behind | Decision::Lost => false,
    }
}

// A header that is shown, or that of an empty slot.
fn or_reserved(header: Option<Header>, cluster: u128, slot: u32) -> Header
    requires { 0 < cluster }
    ensures { result ≡ header_or_reserved cluster slot header }
{
    match header {
        Some(header) => header,
        None => reserved_header(cluster, slot),
    }
}

// The header that a slot is to have: that of the prepare that is taken, the one that an empty slot shows, or a reserved one.
fn header_for(cluster: u128, found: &SlotTable, slot: u32, decision: &Decision) -> Header
    requires cluster { 0 < cluster }
    requires slot { slot < length found.now.slots }
    ensures { result ≡ header_by cluster slot (entry found.now slot) (decision_of decision.now) }
{
    match decision {
        Decision::Take { .. } => or_reserved(found.prepare(slot), cluster, slot),
        Decision::Empty { mend: false } => or_reserved(found.header(slot), cluster, slot),
        _ => reserved_header(cluster, slot),
    }
}

// Plans one slot, and lists it, if its header is to be written again.
fn plan_slot(
    cluster: u128,
    found: &SlotTable,
    head: u64,
    slot: u32,
    headers: &mut HeaderTable,
    mends: &mut Vec<Mend>,
)
    requires cluster { 0 < cluster }
    requires slot { slot < length found.now.slots }
    requires table { slot < length headers.old }
    requires room { vec_len mends.old < vec_capacity mends.old }
    ensures header { PutsHeader cluster found.now head slot headers.old headers.new }
    ensures list { (layout : AnyLayout) (image : Units) → TellsRings layout image found.now
        → mends.new.items ≡ mends.old.items ++ if_wanted (needs_header layout found.now.start head image slot) (slot_mend (shown_class found.now) slot) }
    ensures len { vec_len mends.new ≤ vec_len mends.old + 1 }
    ensures room { vec_capacity mends.new ≡ vec_capacity mends.old }
{
    let decision = found.planned(slot, head);
    headers.set(slot, header_for(cluster, found, slot, &decision));
    if is_mended(&decision) {
        let place = Place {
            zone: Zone::WalHeaders,
            index: u64::from(slot),
        };
        mends.push_reserved(Mend {
            place,
            class: found.header_class(slot),
        });
    }
}

/// Puts into the table what each slot of the header ring is to show, and lists what is to be written again: the copies that
/// aren't members of the choice, in order of number, then the slots whose decision says so with the head that was found, in order,
/// each with the class of what is shown there. `copies` is what the four places show, and a sound copy there is one of its own place. The list
/// takes no memory.
pub fn plan(
    layout: &Layout,
    cluster: u128,
    found: &SlotTable,
    head: u64,
    copies: &[Slot; 4],
    members: &[bool; 4],
    headers: &mut HeaderTable,
    mends: &mut Vec<Mend>,
)
    requires named { 0 < cluster }
    requires cluster { found.now.start.cluster ≡ cluster }
    requires slots { AreSlots layout.now cluster found.now.slots }
    requires headers { length headers.old ≡ layout.now.slots }
    requires room { layout.now.slots + 4 ≤ vec_capacity mends.old }
    ensures four { length members.now ≡ 4 }
    ensures table { IsHeaderTable layout.now cluster headers.new }
    ensures each { ArePlanned cluster found.now head layout.now.slots headers.new }
    ensures tells { (sh : Shape) (image : Units) (v : View) → IsScanOf layout.now sh image v found.now head → IsSlotTable sh image v (headers_in headers.new) }
    ensures whole { (sh : Shape) (image : Units) (v : View) → IsScanOf layout.now sh image v found.now head → AreDistinctUnits image → OthersAreShown layout.now found.now.start head image (headers_in headers.new) }
    ensures lists { (image : Units) → TellsRings layout.now image found.now → mends.new.items ≡ mend_list layout.now found.now head image copies.now members.now }
    ensures room { vec_capacity mends.new ≡ vec_capacity mends.old }
{
    list_copies(copies, members, mends);
    let mut slot = 0;
    while slot < layout.slots {
        plan_slot(cluster, found, head, slot, headers, mends);
        slot += 1;
    }
}
