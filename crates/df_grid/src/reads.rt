// Reads of blocks: each is one read of its place, and is proved against the checksum that is known.
ghost use Rattle.std.specs.{Prelude.{◌≡◌, ◌==◌, true, IfErr, IfOk, Ok, Err, Some}, Borrow.{sem}, Io.BufRead.{Rests}};
ghost use Rattle.df_grid.specs.{Below.{HasCause, place_in, IsCheck, Block as AsBlock, Trailer as AsTrailer, Grid as InGrid, sum_at, is_known, block_of, number_of}, Grid.{HasAddress, IsKnownBlock}};
ghost use Rattle.df_grid.specs.{Reads.{HoldsKnown, Loads, ReadsBlock, ReadsTrailer, Tests, IsFaultOf, at_address, differs}, contracts.grid.Grid.{the_row}};

use crate::Grid;
use df_base::{Check, Failed};
use df_buffers::{Block, Identity, Sound, Trailer};
use df_disk::Disk;
use df_format::{Header, Reference};
use df_layout::{Class, Layout, Place, Zone};
use df_places::Shelf;

/// The place of an address.
pub(crate) fn grid_place(address: u64) -> Place
    ensures { result ≡ place_in InGrid address }
{
    Place {
        zone: Zone::Grid,
        index: address,
    }
}

/// The block with this checksum, at an address.
pub fn known_at(layout: &Layout, cluster: u128, address: u64, checksum: Check) -> Identity
    ensures identity { result ≡ at_address layout.now cluster address checksum }
    ensures check { IsCheck checksum }
{
    Identity::known(layout, cluster, grid_place(address), checksum)
}

// What is wrong with a valid unit that has a checksum, where another one is wanted.
fn differs(shown: Check, wanted: Check) -> Option<Class>
    ensures value { result ≡ differs shown wanted }
    ensures shown { IsCheck shown }
    ensures wanted { IsCheck wanted }
{
    if shown == wanted {
        None
    } else {
        Some(Class::Stale)
    }
}

// What is wrong with what is seen, where a unit with this checksum is wanted.
fn fault_of(seen: Result<Header, Class>, wanted: Check) -> Option<Class>
    ensures { IsFaultOf seen wanted result }
{
    match seen {
        Ok(header) => {
            let shown = header.checksum;
            differs(shown, wanted)
        }
        Err(class) => Some(class),
    }
}

impl Grid {
    /// The block at a live address, exactly where it is valid there with the checksum that is known, else the class of what is shown.
    pub fn show<D: Disk>(
        &mut self,
        disk: &mut D,
        address: u64,
    ) -> Result<Result<&Sound<Block>, Class>, Failed>
        requires live { is_known (sum_at address self.old.blocks.live) ≡ true }
        ensures* after { sem 𝓛 (Rests the_row self.entry (λ n. n ≡ self.entry.now)) }
        ensures block { IfOk result (λ shown. IfOk shown (λ u. ReadsBlock self.old.layout self.old.cluster (D.told disk.old) address (sum_at address self.old.blocks.live) (Ok (block_of u.now.unit)))) }
        ensures class { IfOk result (λ shown. IfErr shown (λ class. ReadsBlock self.old.layout self.old.cluster (D.told disk.old) address (sum_at address self.old.blocks.live) (Err class))) }
        ensures valid { IfOk result (λ shown. IfOk shown (λ u. IsKnownBlock AsBlock self.old.layout self.old.cluster address (sum_at address self.old.blocks.live) u.now.unit)) }
        ensures same { D.told disk.new ≡ D.told disk.old }
        ensures cause { HasCause (D.faults disk.old) (D.faults disk.new) result }
    {
        let Some(checksum) = self.table.live(address) else {
            unreachable!()
        };
        let identity = known_at(&self.layout, self.cluster, address, checksum);
        match self.block.load(disk, &identity)? {
            Some(class) => Ok(Err(class)),
            None => Ok(Ok(self.block.unit())),
        }
    }

    /// Reads a live address into a room of the layout: None exactly where the block is valid there with the checksum that is known, and the
    /// room holds it then; else the class of what is shown. After an error the room holds nothing.
    pub fn load<D: Disk>(
        &self,
        room: &mut Shelf<Block>,
        disk: &mut D,
        address: u64,
    ) -> Result<Option<Class>, Failed>
        requires live { is_known (sum_at address self.now.blocks.live) ≡ true }
        requires room { room.old.layout ≡ self.now.layout }
        ensures room { room.new.layout ≡ room.old.layout }
        ensures loads { IfOk result (λ wrong. Loads self.now.layout self.now.cluster (D.told disk.old) address (sum_at address self.now.blocks.live) wrong room.new.held) }
        ensures valid { IfOk result (λ wrong. HoldsKnown self.now.layout self.now.cluster address (sum_at address self.now.blocks.live) wrong room.new.held) }
        ensures same { D.told disk.new ≡ D.told disk.old }
        ensures cause { HasCause (D.faults disk.old) (D.faults disk.new) result }
    {
        let Some(checksum) = self.table.live(address) else {
            unreachable!()
        };
        let identity = known_at(&self.layout, self.cluster, address, checksum);
        room.load(disk, &identity)
    }

    /// The trailer block at an address of the grid, exactly where it is valid there with this checksum, else the class of what is shown.
    pub fn show_trailer<D: Disk>(
        &mut self,
        disk: &mut D,
        reference: Reference,
    ) -> Result<Result<&Sound<Trailer>, Class>, Failed>
        requires inside { HasAddress self.old reference.address }
        ensures* after { sem 𝓛 (Rests the_row self.entry (λ n. n ≡ self.entry.now)) }
        ensures block { IfOk result (λ shown. IfOk shown (λ u. ReadsTrailer self.old.layout self.old.cluster (D.told disk.old) reference.address (number_of reference.checksum) (Ok (block_of u.now.unit)))) }
        ensures class { IfOk result (λ shown. IfErr shown (λ class. ReadsTrailer self.old.layout self.old.cluster (D.told disk.old) reference.address (number_of reference.checksum) (Err class))) }
        ensures valid { IfOk result (λ shown. IfOk shown (λ u. IsKnownBlock AsTrailer self.old.layout self.old.cluster reference.address (Some (number_of reference.checksum)) u.now.unit)) }
        ensures same { D.told disk.new ≡ D.told disk.old }
        ensures cause { HasCause (D.faults disk.old) (D.faults disk.new) result }
    {
        let identity = known_at(
            &self.layout,
            self.cluster,
            reference.address,
            reference.checksum,
        );
        match self.trailer.load(disk, &identity)? {
            Some(class) => Ok(Err(class)),
            None => Ok(Ok(self.trailer.unit())),
        }
    }

    /// What is wrong at an address of the grid: None exactly where the unit that is shown is valid there with this checksum, a block or
    /// a trailer block, else the class of what is shown.
    pub fn test<D: Disk>(
        &mut self,
        disk: &mut D,
        reference: Reference,
    ) -> Result<Option<Class>, Failed>
        requires inside { HasAddress self.old reference.address }
        ensures tested { IfOk result (Tests self.old.layout self.old.cluster (D.told disk.old) reference.address (number_of reference.checksum)) }
        ensures grid { self.new ≡ self.old }
        ensures same { D.told disk.new ≡ D.told disk.old }
        ensures cause { HasCause (D.faults disk.old) (D.faults disk.new) result }
    {
        let place = grid_place(reference.address);
        let seen = self.block.see(disk, self.cluster, place)?;
        Ok(fault_of(seen, reference.checksum))
    }
}
