// Writes of blocks: each is one write into a place that isn't held, or into the place of the running trailer's next block.
ghost use Rattle.std.specs.Prelude.{◌≡◌, ◌≢◌, ◌+◌, ◌≤◌, ◌<◌, ◌^◌, false, [], length, IfOk, IsSome, OnErr, OnOk};
ghost use Rattle.df_base.specs.declared.TheConstants.{GREATEST, HEADER};
ghost use Rattle.df_grid.specs.Below.{HasCause, Adds, for_body, own_place, ObeysRules, IsCheck, greatest_size, block_written, is_held_in, AreSteps, format_of, block_of, number_of};
ghost use Rattle.df_grid.specs.{Grid.{HasAddress, with_blocks}, Table.{next_written}};
ghost use Rattle.df_grid.specs.Writes.{IsBefore, address_in, block_events, block_steps, checksum_in, header_with, made, made_events, next_block, next_unit, version_in};

use crate::Grid;
use crate::reads::grid_place;
use df_base::{Check, Failed};
use df_buffers::{Block, Sound, Trailer};
use df_disk::Disk;
use df_format::{Header, Kind, NO_CHECKSUM, Reference};
use df_layout::{Layout, Zone};
use df_places::{Shelf, put_unit};

// A checksum has sixteen bytes, as its type says.
fn as_check(check: Check) -> Check
    ensures value { result ≡ check }
    ensures check { IsCheck check }
{
    check
}

// The checksum of the block before a trailer block, zeros where there is none.
#[tactic(auto, unfolding(df_format::specs::Spelling::no_checksum))]
fn parent_of(before: Option<Reference>) -> Check
    ensures value { result ≡ checksum_in before }
    ensures check { IsCheck result }
{
    match before {
        Some(before) => {
            let parent = before.checksum;
            as_check(parent)
        }
        None => as_check(NO_CHECKSUM),
    }
}

fn address_of(before: Option<Reference>) -> u64
    ensures { result ≡ address_in before }
{
    match before {
        Some(before) => before.address,
        None => 0,
    }
}

// The version of a unit that is made in this boot: 0 is none.
fn version_in(boot: u64) -> u16
    ensures { result ≡ version_in boot }
{
    if boot == 0 { 1 } else { 2 }
}

// The header of a trailer block after another one, as its maker gives it over a piece.
fn trailer_header(
    cluster: u128,
    boot: u64,
    address: u64,
    index: u64,
    sequence: u64,
    before: Option<Reference>,
    piece: &[u8],
) -> Header
    requires cluster { 0 < cluster }
    requires boot { boot ≤ GREATEST }
    requires address { 0 < address }
    requires sequence { (2 ≤ sequence) × (sequence ≤ GREATEST) }
    requires before { IsBefore index before }
    requires size { HEADER + length piece.now < 2 ^ 32 }
    ensures header { result ≡ header_with cluster boot address index sequence (address_in before) (checksum_in before) }
    ensures parent { IsCheck (checksum_in before) }
    ensures rules { ObeysRules (for_body result piece.now) }
{
    let parent = parent_of(before);
    let before = address_of(before);
    Header {
        parent,
        op: address,
        request: before,
        mark: index,
        checkpoint: sequence,
        version: version_in(boot),
        boot,
        ..Header::of(Kind::Trailer, cluster)
    }
}

// Makes a trailer block in its room and writes it into its place, without a sync.
fn put_made<D: Disk>(
    shelf: &mut Shelf<Trailer>,
    disk: &mut D,
    layout: &Layout,
    header: Header,
    piece: &[u8],
) -> Result<Check, Failed>
    requires shelf { shelf.old.layout ≡ layout.now }
    requires rules { ObeysRules (for_body header piece.now) }
    requires kind { header.kind ≡ Kind.Trailer }
    requires own { IsSome (own_place layout.now Zone.Grid header) }
    requires fits { HEADER + length piece.now ≤ greatest_size layout.now Zone.Grid }
    ensures shelf { shelf.new.layout ≡ layout.now }
    ensures events { Adds (made_events layout.now (made header piece.now)) (D.told disk.old) (D.told disk.new) result }
    ensures steps { AreSteps (format_of layout.now header.cluster) (made_events layout.now (made header piece.now)) (block_steps (made header piece.now)) }
    ensures checksum { IfOk result (λ checksum. checksum ≡ (made header piece.now).header.checksum) }
    ensures cause { HasCause (D.faults disk.old) (D.faults disk.new) result }
{
    shelf.make(header, piece);
    let unit = shelf.unit();
    let header = *unit.header();
    match put_unit(disk, layout, grid_place(header.op), unit) {
        Ok(()) => Ok(header.checksum),
        Err(failed) => Err(failed),
    }
}

impl Grid {
    /// Writes a block of the grid's cluster into its own address, which isn't held, without a sync; it is live then. The block's room is
    /// one of the layout. After an error the address isn't held, and what stands there may be anything once the machine stops.
    pub fn write<D: Disk>(&mut self, disk: &mut D, unit: &Sound<Block>) -> Result<(), Failed>
        requires room { unit.now.layout ≡ self.old.layout }
        requires cluster { unit.now.unit.header.cluster ≡ self.old.cluster }
        requires free { is_held_in self.old.blocks unit.now.unit.header.op ≡ false }
        ensures events { Adds (block_events self.old unit.now) (D.told disk.old) (D.told disk.new) result }
        ensures steps { AreSteps (format_of self.old.layout self.old.cluster) (block_events self.old unit.now) (block_steps unit.now.unit) }
        ensures address { HasAddress self.old unit.now.unit.header.op }
        ensures live { OnOk result (self.new ≡ with_blocks self.old (block_written self.old.blocks unit.now.unit.header.op (number_of unit.now.unit.header.checksum))) }
        ensures failed { OnErr result (self.new ≡ self.old) }
        ensures cause { HasCause (D.faults disk.old) (D.faults disk.new) result }
    {
        let header = *unit.header();
        put_unit(disk, &self.layout, grid_place(header.op), unit)?;
        self.table.put_live(header.op, header.checksum);
        Ok(())
    }

    /// Seals the running trailer's next block over a piece of the text and writes it into its place, without a sync. Its index is the
    /// number of blocks that are written, so each is written once, and the sequence is the running checkpoint's, 2 to 2^62. After an
    /// error the block is still the next one. It is of version 2 and of the boot that was set, or of version 1 where none was.
    pub fn write_trailer<D: Disk>(
        &mut self,
        disk: &mut D,
        index: u64,
        sequence: u64,
        piece: &[u8],
    ) -> Result<(), Failed>
        requires next { self.old.blocks.left ≢ [] }
        requires index { index ≡ length self.old.blocks.written }
        requires sequence { (2 ≤ sequence) × (sequence ≤ GREATEST) }
        requires fits { HEADER + length piece.now ≤ self.old.layout.block_size }
        ensures events { Adds (made_events self.old.layout (next_unit self.old sequence piece.now)) (D.told disk.old) (D.told disk.new) result }
        ensures steps { AreSteps (format_of self.old.layout self.old.cluster) (made_events self.old.layout (next_unit self.old sequence piece.now)) (block_steps (next_unit self.old sequence piece.now)) }
        ensures unit { block_of (next_unit self.old sequence piece.now) ≡ next_block self.old sequence piece.now (number_of (next_unit self.old sequence piece.now).header.checksum) }
        ensures written { OnOk result (self.new ≡ with_blocks self.old (next_written self.old.blocks (number_of (next_unit self.old sequence piece.now).header.checksum))) }
        ensures failed { OnErr result (self.new ≡ self.old) }
        ensures cause { HasCause (D.faults disk.old) (D.faults disk.new) result }
    {
        let Some(address) = self.table.next_trailer() else {
            unreachable!()
        };
        let before = self.table.last_written();
        let header = trailer_header(
            self.cluster,
            self.boot,
            address,
            index,
            sequence,
            before,
            piece,
        );
        match put_made(&mut self.trailer, disk, &self.layout, header, piece) {
            Ok(checksum) => {
                self.table.put_trailer(checksum);
                Ok(())
            }
            Err(failed) => Err(failed),
        }
    }
}
