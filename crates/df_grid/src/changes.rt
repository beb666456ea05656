// How entries and the free set change together: one address, all of them for a capture or its end, and the least free ones.
ghost use Rattle.std.specs.Prelude.{◌≡◌, ◌-◌, ◌≤◌, length, map, slice_get, slice_set, Some};
ghost use Rattle.df_grid.specs.{Below.{count_free}, declared.entry.Entry.{Entry as AnyEntry}, Entries.{HasEntry, is_marked}, Table.{AreFinished, AreMarked, AreTaken, capturing, finishing}};

use crate::entry::{Entries, Entry, is_marked};
use arrayvec::ArrayVec;
use df_freeset::FreeSet;
use df_layout::LINKS;

/// Replaces the entry of an address, which is taken where it is marked, and free where it isn't.
pub(crate) fn replace(entries: &mut Entries, free: &mut FreeSet, address: u64, entry: &Entry)
    requires inside { HasEntry entries.old address }
    requires size { length free.old ≡ length entries.old }
    ensures entries { entries.new ≡ slice_set entries.old (address - 1) entry.now }
    ensures free { free.new ≡ slice_set free.old (address - 1) (is_marked entry.now) }
{
    entries.set(address, entry);
    if is_marked(entry) {
        free.take(address);
    } else {
        free.give(address);
    }
}

/// An entry whose block is captured where it is live.
fn capturing(entry: &Entry) -> Entry
    ensures { result ≡ capturing entry.now }
{
    Entry {
        captured: entry.live,
        ..*entry
    }
}

/// Each live block is captured, and no other one.
pub(crate) fn capture_all(entries: &mut Entries)
    ensures { entries.new ≡ map capturing entries.old }
{
    for place in 0..entries.len() {
        let entry = capturing(&entries.get(place + 1));
        entries.set(place + 1, &entry);
    }
}

// An address is what the end of the running checkpoint makes of it. No entry is marked then that wasn't before, so one that still is
// stays taken.
fn finish_one(entries: &mut Entries, free: &mut FreeSet, address: u64)
    requires inside { HasEntry entries.old address }
    requires size { length free.old ≡ length entries.old }
    requires taken { AreMarked entries.old free.old }
    ensures entries { (e : AnyEntry) → slice_get entries.old (address - 1) ≡ Some e → entries.new ≡ slice_set entries.old (address - 1) (finishing e) }
    ensures free { (e : AnyEntry) → slice_get entries.old (address - 1) ≡ Some e → free.new ≡ slice_set free.old (address - 1) (is_marked (finishing e)) }
{
    if !entries.finish(address) {
        free.give(address);
    }
}

/// What the running checkpoint holds the durable one does, and nothing else; addresses that no reason is left for are free. Before,
/// the addresses with a reason are taken.
pub(crate) fn finish_all(entries: &mut Entries, free: &mut FreeSet)
    requires size { length free.old ≡ length entries.old }
    requires taken { AreMarked entries.old free.old }
    ensures { AreFinished (length entries.old) entries.old entries.new free.new }
{
    for place in 0..entries.len() {
        finish_one(entries, free, place + 1);
    }
}

/// Takes this many of the least free addresses, and answers them.
pub(crate) fn take_least(free: &mut FreeSet, blocks: u64) -> ArrayVec<u64, LINKS>
    requires enough { blocks ≤ count_free free.old }
    requires few { blocks ≤ 70 }
    ensures { AreTaken blocks free.old free.new result.items }
{
    let mut taken = ArrayVec::new();
    for _ in 0..blocks {
        let Some(address) = free.least_free() else {
            return taken;
        };
        free.take(address);
        taken.push(address);
    }
    taken
}
