// What is known of the block at each address: kept as a checksum and a byte of marks, looked up, and counted.
ghost use Rattle.std.specs.{Prelude.{◌≡◌, ◌-◌, ◌≤◌, ◌==◌, ℕ, List, Some, not, length, nat_lt, slice_get, slice_set}, List.{filter}};
ghost use Rattle.df_grid.specs.{declared.entry.Entry.{Entry as AnyEntry}, Entries.{HasEntry, entries_of, entry_of, is_marked}, Table.{AreCounts, entry_at, finishing, is_held_for, pair_in, picked}};

use arrayvec::ArrayVec;
use df_base::Check;
use df_format::Reference;
use df_trailer::GROUP;
use std::marker::Model;

/// What is known of the block at an address: its checksum, where it is held and written, and the five reasons for that.
#[derive(Clone, Copy, Debug, PartialEq, Eq)]
pub struct Entry {
    pub checksum: Check,
    /// The block was written and not released.
    pub live: bool,
    /// The running checkpoint references it.
    pub captured: bool,
    /// It is a block of the running checkpoint's trailer, and is written.
    pub written: bool,
    /// The durable checkpoint references it.
    pub durable: bool,
    /// It is a block of the durable checkpoint's trailer.
    pub chained: bool,
}

/// Whether there is a reason to hold the block.
pub(crate) fn is_marked(entry: &Entry) -> bool
    ensures { result ≡ is_marked entry.now }
{
    entry.live || entry.captured || entry.written || entry.durable || entry.chained
}

/// A reason to hold a block that entries are counted for, or any of the five.
#[derive(Clone, Copy, Debug, PartialEq, Eq)]
pub enum Reason {
    Live,
    Durable,
    Any,
}

/// Whether the block is held for this reason.
pub(crate) fn is_held_for(entry: &Entry, reason: Reason) -> bool
    ensures { result ≡ is_held_for reason entry.now }
{
    match reason {
        Reason::Live => entry.live,
        Reason::Durable => entry.durable,
        Reason::Any => is_marked(entry),
    }
}

// The mark of an entry once the running checkpoint is the durable one: what was captured is referenced, and what was written is a
// block of the trailer.
fn finished(mark: u8) -> u8
    ensures entry { (checksum : List ℕ) → entry_of checksum result ≡ finishing (entry_of checksum mark) }
    ensures held { (checksum : List ℕ) → is_marked (entry_of checksum result) ≡ not (result == 0) }
{
    mark % 2 + 8 * (mark / 2 % 4)
}

/// The entries of the addresses from 1 on: a mark has a bit for each reason, from the lowest on. Contracts see them as a list.
#[derive(Drop)]
pub struct Entries {
    checks: Vec<Check>,
    marks: Vec<u8>,
}

impl Model for Entries {
    ghost use Rattle.std.specs.Prelude.{◌≡◌, List, length};
    ghost use Rattle.df_grid.specs.{declared.entry.Entry.{Entry}, Entries.{entries_of}};

    ghost Value = { List Entry };

    ghost view = { λ s. entries_of s.checks.items s.marks.items };

    ghost invariant = { λ s. length s.checks.items ≡ length s.marks.items };
}

impl Entries {
    /// The entries of these checksums and marks.
    pub(crate) fn over(checks: Vec<Check>, marks: Vec<u8>) -> Entries
        requires { length checks.items ≡ length marks.items }
        ensures { result ≡ entries_of checks.items marks.items }
    {
        Entries { checks, marks }
    }

    /// The checksums and marks.
    pub(crate) fn into_room(self) -> (Vec<Check>, Vec<u8>)
        ensures checks { length result.0.items ≡ length self }
        ensures marks { length result.1.items ≡ length self }
    {
        let Entries { checks, marks } = self;
        (checks, marks)
    }

    /// How many addresses there are.
    pub(crate) fn len(&self) -> u64
        ensures { result ≡ length self.now }
    {
        self.checks.len() as u64
    }

    /// The entry of an address.
    pub(crate) fn get(&self, address: u64) -> Entry
        requires { HasEntry self.now address }
        ensures { slice_get self.now (address - 1) ≡ Some result }
    {
        let place = (address - 1) as usize;
        let checksum = self.checks[place];
        let mark = self.marks[place];
        Entry {
            checksum,
            live: mark % 2 == 1,
            captured: mark / 2 % 2 == 1,
            written: mark / 4 % 2 == 1,
            durable: mark / 8 % 2 == 1,
            chained: mark / 16 % 2 == 1,
        }
    }

    /// Replaces the entry of an address.
    pub(crate) fn set(&mut self, address: u64, entry: &Entry)
        requires { HasEntry self.old address }
        ensures { self.new ≡ slice_set self.old (address - 1) entry.now }
    {
        let place = (address - 1) as usize;
        self.checks[place] = entry.checksum;
        self.marks[place] = u8::from(entry.live)
            + 2 * u8::from(entry.captured)
            + 4 * u8::from(entry.written)
            + 8 * u8::from(entry.durable)
            + 16 * u8::from(entry.chained);
    }

    /// The running checkpoint is the durable one for an address: whether its block is still held. Its checksum stays.
    pub(crate) fn finish(&mut self, address: u64) -> bool
        requires { HasEntry self.old address }
        ensures entry { (e : AnyEntry) → slice_get self.old (address - 1) ≡ Some e → self.new ≡ slice_set self.old (address - 1) (finishing e) }
        ensures held { (e : AnyEntry) → slice_get self.old (address - 1) ≡ Some e → result ≡ is_marked (finishing e) }
    {
        let place = (address - 1) as usize;
        let before = self.marks[place];
        let mark = finished(before);
        self.marks[place] = mark;
        mark != 0
    }
}

/// The entry of an address, None where there is no such address.
pub(crate) fn entry_in(entries: &Entries, address: u64) -> Option<Entry>
    ensures { result ≡ entry_at entries.now address }
{
    if address >= 1 && address <= entries.len() {
        Some(entries.get(address))
    } else {
        None
    }
}

/// The least marked address above another one, with its checksum.
pub(crate) fn first_marked(entries: &Entries, above: u64) -> Option<Reference>
    ensures { pair_in result ≡ slice_get (filter (λ x. nat_lt above x.0) (picked is_marked 1 entries.now)) 0 }
{
    let mut place = above;
    while place < entries.len() {
        let entry = entries.get(place + 1);
        if is_marked(&entry) {
            return Some(Reference {
                address: place + 1,
                checksum: entry.checksum,
            });
        }
        place += 1;
    }
    None
}

/// How many entries are of blocks that are held for this reason.
pub(crate) fn count_held(entries: &Entries, reason: Reason) -> u64
    ensures count { result ≡ length (picked (is_held_for reason) 1 entries.now) }
    ensures most { result ≤ length entries.now }
{
    let mut count = 0;
    let mut place = 0;
    while place < entries.len() {
        let entry = entries.get(place + 1);
        let held = is_held_for(&entry, reason);
        if held {
            count += 1;
        }
        place += 1;
    }
    count
}

/// How many entries of the first group are of captured blocks, of the first two, and so on, as long as groups are full.
pub(crate) fn count_captured(entries: &Entries) -> ArrayVec<u64, 64>
    requires { length entries.now ≤ 16384 }
    ensures { AreCounts entries.now (length entries.now) result.items }
{
    let mut counts = ArrayVec::new();
    let mut count = 0;
    for place in 0..entries.len() {
        count += u64::from(entries.get(place + 1).captured);
        if (place + 1) % GROUP == 0 {
            counts.push(count);
        }
    }
    counts
}
