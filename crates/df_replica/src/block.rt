// The calls that write a block and let one go. A block is made in its own room and written to the least address that isn't held,
// without a sync: the next checkpoint makes it durable.
ghost use Rattle.std.specs.Prelude.{◌≡◌, ◌<◌, ℕ, List, Option, length, slice_get, true, Some, IfOk, IsSome, OnErr, OnOk};
ghost use Rattle.df_replica.specs.Below.{HasCause, IsBlamed, Adds, Told, Grid as InGrid, for_body, own_place, place_in, ObeysRules, number_of, number_in};
ghost use Rattle.df_replica.specs.Below.{IsUnheld, with_blocks as grid_of, made_events, block_written, sum_at, Release, WriteBlock, is_block_fault};
ghost use Rattle.df_replica.specs.Below.{next_address, Memory, block_room, free_of, block_refusals, first_refusal, IsState, grid_with, memory};
ghost use Rattle.df_replica.specs.{Answering.{Serves, answer_of, as_write_block, release_answer}, Appending.{IsMadeUnit, unit_made}};
ghost use Rattle.df_replica.specs.{Blocks.{IsRelease, IsWriteBlock, MayPut, MayWriteNext, address_or, block_events, block_header_given, next_block, written}, Own.{AddsOwn}};

use crate::Replica;
use df_base::{Check, Failed, HEADER};
use df_buffers::Block;
use df_disk::Disk;
use df_format::{HEADER_VERSION, Header, Kind, Reference};
use df_grid::Grid;
use df_model::{BlockError, NotLive};
use df_places::Shelf;

// The address of the next block, or why none is written: its kind is a trailer's, it has no room, or each address is held.
fn address_or_refusal(
    kind: u8,
    size: u64,
    room: u64,
    next: Option<u64>,
    blocks: u64,
) -> Result<u64, BlockError>
    ensures value { (m : Memory) (body : List ℕ) → block_room m.layout ≡ room → m.layout.blocks ≡ blocks → next ≡ slice_get (free_of m) 0 → size ≡ length body
        → result ≡ address_or (first_refusal (block_refusals m kind body)) (next_address m) }
    ensures next { IfOk result (λ address. next ≡ Some address) }
{
    if kind == 0 {
        return Err(BlockError::KindZero);
    }
    if room < size {
        return Err(BlockError::BodyTooLong { max: room });
    }
    match next {
        Some(address) => Ok(address),
        None => Err(BlockError::GridFull { blocks }),
    }
}

// Makes a block in its room and writes it to its address, without a sync. It is live then.
fn put_block<D: Disk>(
    grid: &mut Grid,
    room: &mut Shelf<Block>,
    disk: &mut D,
    header: Header,
    body: &[u8],
) -> Result<Header, Failed>
    requires may { MayPut room.old.layout grid.old header body.now }
    ensures room { room.new.layout ≡ room.old.layout }
    ensures events { Adds (made_events grid.old.layout (unit_made header body.now)) (D.told disk.old) (D.told disk.new) result }
    ensures made { IsMadeUnit grid.old.layout (place_in InGrid (unit_made header body.now).header.op) (unit_made header body.now) result }
    ensures live { OnOk result (grid.new ≡ grid_of grid.old (block_written grid.old.blocks header.op (number_of (unit_made header body.now).header.checksum))) }
    ensures failed { OnErr result (grid.new ≡ grid.old) }
    ensures cause { HasCause (D.faults disk.old) (D.faults disk.new) result }
{
    room.make(header, body);
    let unit = room.unit();
    let made = *unit.header();
    match grid.write(disk, unit) {
        Ok(()) => Ok(made),
        Err(failed) => Err(failed),
    }
}

impl Replica {
    /// The checksum of a live block, None exactly where the address isn't live.
    pub fn reference(&self, address: u64) -> Option<Check>
        ensures { number_in result ≡ sum_at address self.now.blocks.live }
    {
        self.parts.grid.live(address)
    }

    // The address of the next block, or why none is written.
    fn address_for(&self, kind: u8, size: u64) -> Result<u64, BlockError>
        ensures why { (body : List ℕ) → size ≡ length body → result ≡ address_or (first_refusal (block_refusals (memory self.now) kind body)) (next_address (memory self.now)) }
        ensures free { IfOk result (IsUnheld (grid_with self.now.file self.now.boot self.now.blocks)) }
        ensures state { IsState self.now }
    {
        let layout = &self.parts.file.layout;
        let room = u64::from(layout.block_size) - HEADER as u64;
        let next = self.parts.grid.next();
        address_or_refusal(kind, size, room, next, u64::from(layout.blocks))
    }

    // What the maker of the next block says of it.
    #[tactic(auto, unfolding(df_format::specs::Own::own_place))]
    fn block_given(&self, address: u64, kind: u8, body: &[u8]) -> Header
        requires may { MayWriteNext self.now kind (length body.now) }
        requires address { address ≡ next_address (memory self.now) }
        ensures value { result ≡ block_header_given self.now (next_address (memory self.now)) kind }
        ensures rules { ObeysRules (for_body result body.now) }
        ensures own { IsSome (own_place self.now.file.layout InGrid result) }
    {
        Header {
            op: address,
            block_kind: kind,
            version: HEADER_VERSION,
            boot: self.parts.content.fields().boot,
            ..Header::of(Kind::Block, self.parts.file.cluster)
        }
    }

    // Writes the next block.
    fn write_next_block<D: Disk>(
        &mut self,
        disk: &mut D,
        address: u64,
        kind: u8,
        body: &[u8],
    ) -> Result<Header, Failed>
        requires may { MayWriteNext self.old kind (length body.now) }
        requires address { address ≡ next_address (memory self.old) }
        ensures events { Adds (block_events self.old (next_block self.old kind body.now)) (D.told disk.old) (D.told disk.new) result }
        ensures made { IsMadeUnit self.old.file.layout (place_in InGrid (next_block self.old kind body.now).header.op) (next_block self.old kind body.now) result }
        ensures live { OnOk result (self.new ≡ written self.old (next_block self.old kind body.now).header) }
        ensures failed { OnErr result (self.new ≡ self.old) }
        ensures cause { HasCause (D.faults disk.old) (D.faults disk.new) result }
    {
        let header = self.block_given(address, kind, body);
        let parts = &mut self.parts;
        put_block(
            &mut parts.grid,
            &mut parts.trailer.block,
            disk,
            header,
            body,
        )
    }

    /// Writes a block of this kind at the least address that isn't held, by one write and without a sync: it is live then, and the next
    /// checkpoint makes it durable. The answer is its address and its checksum. The first reason of the order refuses it: the kind is
    /// that of a trailer's block, the body is too long, each address is held; a refusal touches no disk and changes nothing. After a
    /// fault the block may stand there or not, it isn't live, and no call may follow.
    pub fn write_block<D: Disk>(
        &mut self,
        disk: &mut D,
        kind: u8,
        body: &[u8],
    ) -> Result<Reference, BlockError>
        requires live { self.old.live ≡ true }
        ensures exact { IsWriteBlock kind body.now self.old self.new (D.told disk.old) (D.told disk.new) result }
        ensures call { Serves (WriteBlock kind body.now) self.old self.new (D.told disk.old) (D.told disk.new) (answer_of is_block_fault as_write_block result) }
        ensures own { AddsOwn (WriteBlock kind body.now) self.old (D.told disk.old) (D.told disk.new) (answer_of is_block_fault as_write_block result) }
        ensures cause { IsBlamed is_block_fault (D.faults disk.old) (D.faults disk.new) result }
    {
        let address = match self.address_for(kind, body.len() as u64) {
            Ok(address) => address,
            Err(error) => return Err(error),
        };
        match self.write_next_block(disk, address, kind, body) {
            Ok(made) => {
                let checksum = made.checksum;
                Ok(Reference { address, checksum })
            }
            Err(_) => {
                self.stop();
                Err(BlockError::DiskFault)
            }
        }
    }

    /// Lets a live block go; it is refused exactly where the address isn't live. An address that no checkpoint holds is free at once, and
    /// one that a checkpoint holds is free when a later checkpoint without it is done. It touches no disk.
    pub fn release(&mut self, address: u64) -> Result<(), NotLive>
        requires live { self.old.live ≡ true }
        ensures exact { IsRelease address self.old self.new result }
        ensures call { (told : Option Told) → Serves (Release address) self.old self.new told told (release_answer result) }
    {
        if !self.parts.grid.release(address) {
            return Err(NotLive);
        }
        Ok(())
    }
}
