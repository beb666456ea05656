// What no clause says: that the calls come together over a disk in memory. Expected values are worked out by hand from the rules of
// what is held.
ghost use Rattle.std.specs.Prelude.{◌≡◌};
ghost use Rattle.df_grid.specs.Table.{IsIdle, IsReadyTrailer};

use crate::tests::block_examples::{begin, put_all, put_next, write_and_end};
use crate::tests::chain_examples::new_grid;
use df_base::Failed;
use df_grid::{Grid, chains_have_room};
use df_layout::Layout;
use df_memdisk::MemoryDisk;
use std::alloc::Global;
use std::process::Abort;

// Writes blocks until one goes elsewhere than to the next address from 1 on, and answers how many didn't.
fn fill(
    rt: &impl Abort,
    alloc: Global,
    grid: &mut Grid,
    disk: &mut MemoryDisk,
) -> Result<u64, Failed>
    requires { grid.old.cluster ≡ 7 }
{
    for done in 0..100u64 {
        if put_next(rt, alloc, grid, disk, 9)? != Some(done + 1) {
            return Ok(done);
        }
    }
    Ok(100)
}

// Releases a block, and answers the next address.
fn release(grid: &mut Grid, address: u64) -> (bool, Option<u64>)
    ensures layout { grid.new.layout ≡ grid.old.layout }
    ensures cluster { grid.new.cluster ≡ grid.old.cluster }
    ensures idle { IsIdle grid.old.blocks → IsIdle grid.new.blocks }
    ensures ready { IsReadyTrailer grid.old.blocks → IsReadyTrailer grid.new.blocks }
{
    let released = grid.release(address);
    (released, grid.next())
}

#[test]
fn blocks_go_to_the_least_addresses(rt: HostRuntime) {
    chains_have_room();
    let mut disk = MemoryDisk::new(rt.alloc(), Vec::new(rt.alloc()));
    let mut grid = new_grid(rt.alloc(), Layout::small()).expect(&rt, "it succeeds");
    assert!(rt; fill(&rt, rt.alloc(), &mut grid, &mut disk).expect(&rt, "it succeeds") == 64);
    assert!(rt; grid.next() == None);
    for first in [true, false] {
        assert!(rt; release(&mut grid, 7) == (first, Some(7)));
    }
    assert!(rt; grid.live(7) == None);
    assert!(rt; grid.free() == 1);
}

#[test]
fn checkpoints_hold_what_they_captured(rt: HostRuntime) {
    let mut disk = MemoryDisk::new(rt.alloc(), Vec::new(rt.alloc()));
    let mut grid = new_grid(rt.alloc(), Layout::small()).expect(&rt, "it succeeds");
    put_all(&rt, rt.alloc(), &mut grid, &mut disk, &[1, 2]).expect(&rt, "it succeeds");
    begin(&mut grid).expect(&rt, "it succeeds");
    assert!(rt;
        put_next(&rt, rt.alloc(), &mut grid, &mut disk, 3).expect(&rt, "it succeeds") == Some(4)
    );
    assert!(rt; release(&mut grid, 4) == (true, Some(4)));
    assert!(rt; release(&mut grid, 2) == (true, Some(4)));
    write_and_end(&mut grid, &mut disk, 2).expect(&rt, "it succeeds");
    assert!(rt; grid.next_referenced(1).map(|r| r.address) == Some(2));
    assert!(rt; grid.referenced() == 3);
    begin(&mut grid).expect(&rt, "it succeeds");
    write_and_end(&mut grid, &mut disk, 3).expect(&rt, "it succeeds");
    assert!(rt; grid.next() == Some(2));
    assert!(rt; grid.free() == 62);
}
