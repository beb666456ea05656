// The read of a block: it is lent from the room that it was read into, exactly where its address shows the one that is known.
ghost use Rattle.std.specs.{Prelude.{◌≡◌, true, IfOk}, Borrow.{sem}, Io.BufRead.{Rests}};
ghost use Rattle.df_replica.specs.{Below.{IsBlamed, Block as AsBlock, place_in, Grid as InGrid, IsKnownBlock, sum_at, ReadBlock, ToReadBlock, is_read_fault}, Answering.{ServesBlockRead, answer_of}};
ghost use Rattle.df_replica.specs.{BlockReads.{IsReadBlock, block_words, what_block}, Lending.{LendsWrittenBlock}, contracts.replica.Replica.{the_row}, Stopping.{left_by}};

use crate::Replica;
use crate::replica::end_calls;
use df_buffers::{Block, Sound};
use df_disk::Disk;
use df_layout::{Place, Zone};
use df_model::ReadError;

// The place of a block.
fn block_place(address: u64) -> Place
    ensures { result ≡ place_in InGrid address }
{
    Place {
        zone: Zone::Grid,
        index: address,
    }
}

impl Replica {
    /// Lends a live block, from the room that its address is read into, by one device call. It is lent exactly where the address shows
    /// the block that the replica knows, and no trailer's; else `Damaged` has the class of what is shown. What is lent was written
    /// there, also where sectors were struck since the open. After a fault no call may follow.
    pub fn read_block<D: Disk>(
        &mut self,
        disk: &mut D,
        address: u64,
    ) -> Result<&Sound<Block>, ReadError>
        requires live { self.old.live ≡ true }
        ensures* after { sem 𝓛 (Rests the_row self.entry (λ s. s ≡ left_by is_read_fault self.entry.now result)) }
        ensures exact { IsReadBlock address self.old (D.told disk.old) (block_words (λ u. u.now.unit) result) }
        ensures lent { IfOk result (λ u. IsKnownBlock AsBlock self.old.file.layout self.old.file.cluster address (sum_at address self.old.blocks.live) u.now.unit) }
        ensures written { LendsWrittenBlock address self.old (block_words (λ u. u.now.unit) result) (D.told disk.old) }
        ensures call { ServesBlockRead (ReadBlock address) self.old (left_by is_read_fault self.old result) (D.told disk.old)
            (what_block (block_words (λ u. u.now.unit) result)) (answer_of is_read_fault ToReadBlock (block_words (λ u. u.now.unit) result)) }
        ensures same { D.told disk.new ≡ D.told disk.old }
        ensures cause { IsBlamed is_read_fault (D.faults disk.old) (D.faults disk.new) result }
    {
        if self.parts.grid.live(address).is_none() {
            return Err(ReadError::NotLive);
        }
        let parts = &mut self.parts;
        let wrong = match parts.grid.load(&mut parts.trailer.block, disk, address) {
            Ok(wrong) => wrong,
            Err(_) => {
                end_calls(&mut self.parts.live);
                return Err(ReadError::DiskFault);
            }
        };
        match wrong {
            Some(class) => Err(ReadError::Damaged {
                place: block_place(address),
                class,
            }),
            None => Ok(self.parts.trailer.block.unit()),
        }
    }
}
