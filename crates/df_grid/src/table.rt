// The block table with the free set and the chains of both checkpoints: what the grid knows, and how that changes.
ghost use Rattle.std.specs.{Prelude.{◌≡◌, ◌≢◌, ◌-◌, ◌*◌, ◌<◌, ◌≤◌, true, false, [], Some, None, length, map, take, replicate, slice_get, All, IfSome, IsSome, nat_lt}, List.{filter, range_with_len}};
ghost use Rattle.df_grid.specs.Below.{block_released, block_written, blocks_captured, capture_finished, entries, is_held_in, reference_in, sum_at, is_known, number_in, is_referenced, ones, captured_blocks, referenced_among, number_of};
ghost use Rattle.df_grid.specs.Table.{IsIdle, TableState, adopted, last_trailer_block, next_written, no_blocks, pair_in, unheld};

use crate::changes::{capture_all, finish_all, replace, take_least};
use crate::entry::{Entries, Entry, Reason, count_captured, count_held, entry_in, first_marked};
use arrayvec::ArrayVec;
use df_base::Check;
use df_format::Reference;
use df_freeset::FreeSet;
use df_layout::LINKS;
use std::marker::Model;

/// The table of blocks. Both parts of the running trailer and the durable one's chain are lists of addresses, the chains from the last
/// block to the first; no layout has a trailer of more than 70 blocks. A capture also counts what it captured, for each full group of
/// 256 addresses; no layout has more than 64 of these.
#[derive(Drop)]
pub struct Table {
    entries: Entries,
    free: FreeSet,
    written: ArrayVec<u64, LINKS>,
    left: ArrayVec<u64, LINKS>,
    chain: ArrayVec<u64, LINKS>,
    counts: ArrayVec<u64, 64>,
}

impl Model for Table {
    ghost use Rattle.std.specs.Prelude.{length};
    ghost use Rattle.df_grid.specs.Table.{TableState, IsCounted, IsGridTable, blocks_in};

    ghost Value = { TableState };

    ghost view = { λ t. record { size = length t.entries; blocks = blocks_in t.entries t.written.items t.left.items t.chain.items } };

    ghost invariant = { λ t. IsGridTable t.entries t.free t.written.items t.left.items t.chain.items × IsCounted t.entries t.left.items t.counts.items };
}

impl Table {
    /// A table in which no address is held, over a free set with none taken and marks that are all zero; a layout has no more blocks
    /// than 16,384.
    pub(crate) fn over(free: FreeSet, checks: Vec<Check>, marks: Vec<u8>) -> Table
        requires free { free ≡ replicate (length checks.items) false }
        requires marks { length checks.items ≡ length marks.items }
        requires few { length checks.items ≤ 16384 }
        requires zero { All (λ mark. mark ≡ 0) marks.items }
        ensures { result ≡ record { size = length checks.items; blocks = no_blocks } }
    {
        Table {
            entries: Entries::over(checks, marks),
            free,
            written: ArrayVec::new(),
            left: ArrayVec::new(),
            chain: ArrayVec::new(),
            counts: ArrayVec::new(),
        }
    }

    /// The rooms, with anything in them.
    pub(crate) fn into_room(self) -> (FreeSet, Vec<Check>, Vec<u8>)
        ensures free { length result.0 ≡ self.size }
        ensures checks { length result.1.items ≡ self.size }
        ensures marks { length result.2.items ≡ self.size }
    {
        let Table {
            entries,
            free,
            written: _,
            left: _,
            chain: _,
            counts: _,
        } = self;
        let (checks, marks) = entries.into_room();
        (free, checks, marks)
    }

    /// How many blocks the durable checkpoint references.
    pub(crate) fn references(&self) -> u64
        ensures { result ≡ length self.now.blocks.durable }
    {
        count_held(&self.entries, Reason::Durable)
    }

    /// How many blocks are live.
    pub(crate) fn live_blocks(&self) -> u64
        ensures count { result ≡ length self.now.blocks.live }
        ensures captured { result ≡ ones (map is_referenced (captured_blocks (λ a. sum_at a self.now.blocks.live) self.now.size)) }
        ensures most { result ≤ self.now.size }
    {
        count_held(&self.entries, Reason::Live)
    }

    /// The checksum of a live block, None where the address isn't live.
    pub(crate) fn live(&self, address: u64) -> Option<Check>
        ensures checksum { number_in result ≡ sum_at address self.now.blocks.live }
        ensures inside { IfSome result (λ _. (1 ≤ address) × (address ≤ self.now.size)) }
    {
        let entry = entry_in(&self.entries, address)?;
        entry.live.then_some(entry.checksum)
    }

    /// The checksum of a block that the running checkpoint captured, None where it didn't.
    pub(crate) fn captured(&self, address: u64) -> Option<Check>
        ensures { number_in result ≡ sum_at address self.now.blocks.captured }
    {
        let entry = entry_in(&self.entries, address)?;
        entry.captured.then_some(entry.checksum)
    }

    /// How many of the first 256 * `groups` addresses the running checkpoint captured, None where that isn't kept. It is for each full
    /// group, while a block of the running trailer is to come.
    pub(crate) fn counted(&self, groups: u64) -> Option<u64>
        ensures count { IfSome result (λ count. count ≡ referenced_among (λ a. sum_at a self.now.blocks.captured) (256 * groups)) }
        ensures kept { self.now.blocks.left ≢ [] → 256 * groups ≤ self.now.size → IsSome result }
    {
        if groups == 0 {
            return Some(0);
        }
        self.counts.get((groups - 1) as usize).copied()
    }

    /// The least address that isn't held, None where all are.
    pub(crate) fn next(&self) -> Option<u64>
        ensures { result ≡ slice_get (unheld self.now.size self.now.blocks) 0 }
    {
        self.free.least_free()
    }

    /// How many addresses aren't held.
    pub(crate) fn free(&self) -> u64
        ensures { result ≡ length (unheld self.now.size self.now.blocks) }
    {
        self.free.free()
    }

    /// The least referenced address above another one, with its checksum.
    pub(crate) fn next_referenced(&self, above: u64) -> Option<Reference>
        ensures { pair_in result ≡ slice_get (filter (λ x. nat_lt above x.0) (entries (reference_in self.now.blocks) (range_with_len 1 self.now.size))) 0 }
    {
        first_marked(&self.entries, above)
    }

    /// How many blocks are referenced.
    pub(crate) fn referenced(&self) -> u64
        ensures { result ≡ length (entries (reference_in self.now.blocks) (range_with_len 1 self.now.size)) }
    {
        count_held(&self.entries, Reason::Any)
    }

    /// The address of the running trailer's next block.
    pub(crate) fn next_trailer(&self) -> Option<u64>
        ensures next { result ≡ slice_get self.now.blocks.left 0 }
        ensures inside { IfSome result (λ a. (1 ≤ a) × (a ≤ self.now.size)) }
    {
        self.left.first().copied()
    }

    /// The block of the running trailer that was written last, None where there is none.
    pub(crate) fn last_written(&self) -> Option<Reference>
        ensures pair { pair_in result ≡ slice_get self.now.blocks.written 0 }
        ensures inside { IfSome result (λ r. 1 ≤ r.address) }
        ensures within { IfSome result (λ r. r.address ≤ self.now.size) }
    {
        let address = self.written.first().copied()?;
        let checksum = self.entries.get(address).checksum;
        Some(Reference { address, checksum })
    }

    /// The last block of the running trailer, None where it isn't written yet.
    pub(crate) fn trailer(&self) -> Option<Reference>
        ensures pair { pair_in result ≡ last_trailer_block self.now.blocks.left self.now.blocks.written }
        ensures inside { IfSome result (λ r. (1 ≤ r.address) × (r.address ≤ self.now.size)) }
    {
        if self.left.is_empty() {
            self.last_written()
        } else {
            None
        }
    }

    /// A block was written at a free address, and is live.
    pub(crate) fn put_live(&mut self, address: u64, checksum: Check)
        requires inside { (1 ≤ address) × (address ≤ self.old.size) }
        requires free { is_held_in self.old.blocks address ≡ false }
        ensures { self.new ≡ record self.old { blocks = block_written self.old.blocks address (number_of checksum) } }
    {
        let entry = Entry {
            checksum,
            live: true,
            ..self.entries.get(address)
        };
        replace(&mut self.entries, &mut self.free, address, &entry);
    }

    /// A block isn't live any more; false where it isn't.
    pub(crate) fn release(&mut self, address: u64) -> bool
        ensures answer { result ≡ is_known (sum_at address self.old.blocks.live) }
        ensures blocks { self.new ≡ record self.old { blocks = block_released self.old.blocks address } }
    {
        let Some(entry) = entry_in(&self.entries, address) else {
            return false;
        };
        if !entry.live {
            return false;
        }
        let entry = Entry {
            live: false,
            ..entry
        };
        replace(&mut self.entries, &mut self.free, address, &entry);
        true
    }

    /// The live blocks are captured and counted, and the least free addresses are the trailer's.
    pub(crate) fn capture(&mut self, blocks: u64)
        requires idle { IsIdle self.old.blocks }
        requires free { blocks ≤ length (unheld self.old.size self.old.blocks) }
        requires few { blocks ≤ 70 }
        ensures { self.new ≡ record self.old { blocks = blocks_captured self.old.blocks (take blocks (unheld self.old.size self.old.blocks)) } }
    {
        capture_all(&mut self.entries);
        self.counts = count_captured(&self.entries);
        self.left = take_least(&mut self.free, blocks);
    }

    /// The running trailer's next block was written.
    pub(crate) fn put_trailer(&mut self, checksum: Check)
        requires { self.old.blocks.left ≢ [] }
        ensures { self.new ≡ record self.old { blocks = next_written self.old.blocks (number_of checksum) } }
    {
        let address = self.left.remove(0);
        let entry = Entry {
            checksum,
            written: true,
            ..self.entries.get(address)
        };
        replace(&mut self.entries, &mut self.free, address, &entry);
        self.written.insert(0, address);
    }

    /// The running checkpoint is the durable one.
    pub(crate) fn finish(&mut self)
        requires { self.old.blocks.left ≡ [] }
        ensures { self.new ≡ record self.old { blocks = capture_finished self.old.blocks } }
    {
        finish_all(&mut self.entries, &mut self.free);
        self.chain = self.written.take();
        self.counts.clear();
    }

    /// The durable checkpoint holds a block: a live one that it references, or the next one of its trailer.
    pub(crate) fn adopt(&mut self, reference: &Reference, live: bool)
        requires inside { (1 ≤ reference.now.address) × (reference.now.address ≤ self.old.size) }
        requires free { is_held_in self.old.blocks reference.now.address ≡ false }
        requires room { live ≡ false → length self.old.blocks.chain < 70 }
        ensures { self.new ≡ record self.old { blocks = adopted self.old.blocks live reference.now.address (number_of reference.now.checksum) } }
    {
        let entry = Entry {
            checksum: reference.checksum,
            live,
            durable: live,
            chained: !live,
            ..self.entries.get(reference.address)
        };
        replace(&mut self.entries, &mut self.free, reference.address, &entry);
        if !live {
            self.chain.insert(0, reference.address);
        }
    }
}
