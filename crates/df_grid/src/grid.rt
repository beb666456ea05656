// The grid: which addresses are held and why, and what a new block, a release and a checkpoint make of that.
ghost use Rattle.std.specs.{Prelude.{◌≡◌, ◌≢◌, ◌*◌, ◌<◌, ◌≤◌, false, [], length, map, take, replicate, slice_get, All, IfSome, IsSome, nat_lt}, List.{filter}};
ghost use Rattle.df_base.specs.declared.TheConstants.{GREATEST};
ghost use Rattle.df_grid.specs.Below.{block_released, blocks_captured, capture_finished, sum_at, is_known, number_in, is_referenced, ones, captured_blocks, referenced_among, number_of};
ghost use Rattle.df_grid.specs.{Grid.{GridState, HasAddress, IsUnheld, free_addresses, referenced_of, with_blocks, with_boot}, Laws.{ChainsHaveRoom}};
ghost use Rattle.df_grid.specs.Table.{IsIdle, adopted, last_trailer_block, no_blocks, pair_in};

use crate::table::Table;
use df_base::Check;
use df_buffers::{Block, Raw, Trailer};
use df_format::Reference;
use df_freeset::FreeSet;
use df_layout::Layout;
use df_places::Shelf;
use df_trailer::CapturedBlocks;
use std::marker::Model;

/// The blocks of a file. An address is held where it is live (written and not released), captured by the running checkpoint, a block
/// of its trailer, referenced by the durable checkpoint, or a block of its trailer; all other addresses are free.
pub struct Grid {
    pub(crate) layout: Layout,
    pub(crate) cluster: u128,
    pub(crate) boot: u64,
    pub(crate) table: Table,
    pub(crate) block: Shelf<Block>,
    pub(crate) trailer: Shelf<Trailer>,
}

// Its owner lets go of it in one call, and not field by field.
impl Drop for Grid {
    fn drop(self) {
        let Grid {
            layout: _,
            cluster: _,
            boot: _,
            table: _,
            block: _,
            trailer: _,
        } = self;
    }
}

impl Model for Grid {
    ghost use Rattle.df_grid.specs.Grid.{GridState, IsGrid};

    ghost Value = { GridState };

    ghost view = { λ g. record { layout = g.layout; cluster = g.cluster; boot = g.boot; blocks = g.table.blocks } };

    ghost invariant = { λ g. IsGrid g.layout g.cluster g.boot g.table.size g.block.layout g.trailer.layout };
}

impl Grid {
    /// A grid in which no address is held: over a free set of the layout's blocks that are all free, a checksum and a byte of marks
    /// for each, the marks all zero, and rooms of the layout for what is shown and for trailer blocks. The cluster isn't 0. Trailer
    /// blocks are of version 1, until a boot is set.
    pub fn over(
        layout: Layout,
        cluster: u128,
        free: FreeSet,
        checks: Vec<Check>,
        marks: Vec<u8>,
        block: Raw<Block>,
        trailer: Raw<Trailer>,
    ) -> Grid
        requires cluster { 0 < cluster }
        requires free { free ≡ replicate layout.blocks false }
        requires checks { length checks.items ≡ layout.blocks }
        requires marks { length marks.items ≡ layout.blocks }
        requires zero { All (λ mark. mark ≡ 0) marks.items }
        requires block { block.layout ≡ layout }
        requires trailer { trailer.layout ≡ layout }
        ensures { result ≡ record { layout = layout; cluster = cluster; boot = 0; blocks = no_blocks } }
    {
        Grid {
            layout,
            cluster,
            boot: 0,
            table: Table::over(free, checks, marks),
            block: Shelf::over(layout, block),
            trailer: Shelf::over(layout, trailer),
        }
    }

    /// Gives the rooms back, with anything in them: the free set, a checksum and a byte of marks for each of the layout's blocks, and
    /// the two rooms of the layout.
    pub fn into_room(self) -> (FreeSet, Vec<Check>, Vec<u8>, Raw<Block>, Raw<Trailer>)
        ensures free { length result.0 ≡ self.layout.blocks }
        ensures checks { length result.1.items ≡ self.layout.blocks }
        ensures marks { length result.2.items ≡ self.layout.blocks }
        ensures block { result.3.layout ≡ self.layout }
        ensures trailer { result.4.layout ≡ self.layout }
    {
        let Grid {
            layout: _,
            cluster: _,
            boot: _,
            table,
            block,
            trailer,
        } = self;
        let (free, checks, marks) = table.into_room();
        (free, checks, marks, block.into_room(), trailer.into_room())
    }

    /// The layout of the file.
    pub fn layout(&self) -> Layout
        ensures { result ≡ self.now.layout }
    {
        self.layout
    }

    /// From now on trailer blocks are sealed in this boot, 1 to 2^62, and of version 2.
    pub fn set_boot(&mut self, boot: u64)
        requires boot { (1 ≤ boot) × (boot ≤ GREATEST) }
        ensures { self.new ≡ with_boot self.old boot }
    {
        self.boot = boot;
    }

    /// The least address that isn't held, None exactly where all are.
    pub fn next(&self) -> Option<u64>
        ensures next { result ≡ slice_get (free_addresses self.now) 0 }
        ensures unheld { IfSome result (IsUnheld self.now) }
    {
        self.table.next()
    }

    /// How many addresses aren't held.
    pub fn free(&self) -> u64
        ensures { result ≡ length (free_addresses self.now) }
    {
        self.table.free()
    }

    /// How many blocks the durable checkpoint references.
    pub fn references(&self) -> u64
        ensures { result ≡ length self.now.blocks.durable }
    {
        self.table.references()
    }

    /// How many blocks are live: a checkpoint that is begun now references this many.
    pub fn live_blocks(&self) -> u64
        ensures count { result ≡ length self.now.blocks.live }
        ensures captured { result ≡ ones (map is_referenced (captured_blocks (λ a. sum_at a self.now.blocks.live) self.now.layout.blocks)) }
        ensures most { result ≤ self.now.layout.blocks }
    {
        self.table.live_blocks()
    }

    /// The checksum of a live block, None exactly where the address isn't live.
    pub fn live(&self, address: u64) -> Option<Check>
        ensures { number_in result ≡ sum_at address self.now.blocks.live }
    {
        self.table.live(address)
    }

    /// Lets a live block go; false exactly where the address isn't live. An address that no checkpoint holds is free at once.
    pub fn release(&mut self, address: u64) -> bool
        ensures answer { result ≡ is_known (sum_at address self.old.blocks.live) }
        ensures released { self.new ≡ with_blocks self.old (block_released self.old.blocks address) }
    {
        self.table.release(address)
    }

    /// Begins a checkpoint: the live blocks are captured, and the least addresses that aren't held are its trailer's, as many as there
    /// are to be blocks, at least 1. No checkpoint runs, and that many addresses are free.
    pub fn capture(&mut self, blocks: u64)
        requires idle { IsIdle self.old.blocks }
        requires some { 1 ≤ blocks }
        requires free { blocks ≤ length (free_addresses self.old) }
        requires few { blocks ≤ 70 }
        ensures { self.new ≡ with_blocks self.old (blocks_captured self.old.blocks (take blocks (free_addresses self.old))) }
    {
        self.table.capture(blocks);
    }

    /// The checksum of a block that the running checkpoint captured, None exactly where it captured none there.
    pub fn captured(&self, address: u64) -> Option<Check>
        ensures { number_in result ≡ sum_at address self.now.blocks.captured }
    {
        self.table.captured(address)
    }

    /// Ends a checkpoint whose trailer blocks are all written: it is the durable one, and only it holds addresses beside the live ones.
    pub fn finish(&mut self)
        requires running { self.old.blocks.written ≢ [] }
        requires written { self.old.blocks.left ≡ [] }
        ensures { self.new ≡ with_blocks self.old (capture_finished self.old.blocks) }
    {
        self.table.finish();
    }

    /// The last block of the running trailer, None exactly where no checkpoint runs or that block isn't written yet.
    pub fn trailer(&self) -> Option<Reference>
        ensures pair { pair_in result ≡ last_trailer_block self.now.blocks.left self.now.blocks.written }
        ensures inside { IfSome result (λ r. HasAddress self.now r.address) }
    {
        self.table.trailer()
    }

    /// Takes a block of the durable checkpoint, as it is read from its trailer: one that it references, which is live, or the next
    /// block of its chain. The address is free; a chain has at most 70 blocks.
    pub fn adopt(&mut self, reference: Reference, live: bool)
        requires free { IsUnheld self.old reference.address }
        requires room { live ≡ false → length self.old.blocks.chain < 70 }
        ensures { self.new ≡ with_blocks self.old (adopted self.old.blocks live reference.address (number_of reference.checksum)) }
    {
        self.table.adopt(&reference, live);
    }

    /// The least referenced address above another one, with the checksum that is known, None exactly where there is none. A block is
    /// referenced where its address is held, but for those of the running trailer that aren't written yet.
    pub fn next_referenced(&self, above: u64) -> Option<Reference>
        ensures { pair_in result ≡ slice_get (filter (λ x. nat_lt above x.0) (referenced_of self.now)) 0 }
    {
        self.table.next_referenced(above)
    }

    /// How many blocks are referenced: a tour of the scrubber checks this many.
    pub fn referenced(&self) -> u64
        ensures { result ≡ length (referenced_of self.now) }
    {
        self.table.referenced()
    }
}

impl CapturedBlocks for Grid {
    ghost captured = { λ g address. sum_at address g.blocks.captured };

    fn captured(&self, address: u64) -> Option<Check> {
        self.table.captured(address)
    }

    // It is kept for each full group of 256 addresses of the grid, while a block of the checkpoint's trailer is to come, and costs
    // one look.
    fn counted(&self, groups: u64) -> Option<u64>
        ensures count { IfSome result (λ count. count ≡ referenced_among (λ a. sum_at a self.now.blocks.captured) (256 * groups)) }
        ensures kept { self.now.blocks.left ≢ [] → 256 * groups ≤ self.now.layout.blocks → IsSome result }
    {
        self.table.counted(groups)
    }
}

/// A trailer of any layout has at most 70 blocks, so a chain has room for each.
pub fn chains_have_room()
    ensures { ChainsHaveRoom }
{}
