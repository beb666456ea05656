// What no clause says: that the calls come together over a disk in memory. Expected values are worked out by hand from the rules of
// a tour.
ghost use Rattle.std.specs.Prelude.{◌≡◌};
ghost use Rattle.df_grid.specs.Table.{IsIdle};

use crate::tests::block_examples::{begin, put_all, write_and_end};
use crate::tests::chain_examples::new_grid;
use df_base::Failed;
use df_format::Reference;
use df_grid::Grid;
use df_layout::{Class, Layout};
use df_memdisk::{MemoryDisk, Strike};
use df_scrub::{Finding, Scrubbed, Scrubber, Verdict};
use std::alloc::Global;
use std::process::Abort;

// Takes blocks that the disk doesn't show, at the least addresses.
fn adopt_lost(grid: &mut Grid, count: u64)
    ensures layout { grid.new.layout ≡ grid.old.layout }
{
    for _done in 0..count {
        if let Some(address) = grid.next() {
            let checksum = [1; 16];
            grid.adopt(Reference { address, checksum }, true);
        }
    }
}

// Writes five blocks, and a checkpoint of them.
fn write_five(
    rt: &impl Abort,
    alloc: Global,
    grid: &mut Grid,
    disk: &mut MemoryDisk,
) -> Result<(), Failed>
    requires cluster { grid.old.cluster ≡ 7 }
    requires idle { IsIdle grid.old.blocks }
{
    put_all(rt, alloc, grid, disk, &[0; 5])?;
    begin(grid)?;
    write_and_end(grid, disk, 2)
}

// What the steps of a tour over those answer, from 1 on, where blocks 2 and 4 were struck.
fn answer_of(step: u64) -> Scrubbed {
    if step == 7 {
        return Scrubbed::TourEnd {
            checked: 6,
            failing: 2,
        };
    }
    let verdict = if step == 2 || step == 4 {
        Verdict::Failing(Class::Garbled)
    } else {
        Verdict::Sound
    };
    Scrubbed::Checked {
        address: step,
        verdict,
    }
}

// The findings at these places are of these addresses.
fn assert_recent(rt: &impl Abort, scrubber: &Scrubber, rows: &[(u64, Option<u64>)]) {
    for (place, address) in rows {
        assert!(rt;
            scrubber.recent(*place).map(|f| f.address) == *address,
            "{place}"
        );
    }
}

#[test]
fn a_tour_finds_the_blocks_that_were_struck(rt: HostRuntime) {
    let mut disk = MemoryDisk::new(rt.alloc(), Vec::new(rt.alloc()));
    let mut grid = new_grid(rt.alloc(), Layout::small()).expect(&rt, "it succeeds");
    write_five(&rt, rt.alloc(), &mut grid, &mut disk).expect(&rt, "it succeeds");
    for sector in [84, 92, 104] {
        disk.strike(sector, Strike::Fill { byte: 0xa5 })
            .expect(&rt, "it succeeds");
    }
    let mut scrubber = Scrubber::reserve(rt.alloc()).expect(&rt, "memory of a ring");
    for step in 1..8u64 {
        let scrubbed = scrubber
            .step(&mut disk, &mut grid)
            .expect(&rt, "it succeeds");
        assert!(rt; scrubbed == answer_of(step), "step {step}");
    }
    let first = Finding {
        address: 2,
        class: Class::Garbled,
    };
    assert!(rt; scrubber.recent(0) == Some(first));
    assert_recent(&rt, &scrubber, &[(1, Some(4)), (2, None)]);
    scrubber.clear();
    assert_recent(&rt, &scrubber, &[(0, None)]);
}

#[test]
fn the_newest_64_findings_stay(rt: HostRuntime) {
    let mut disk = MemoryDisk::new(
        rt.alloc(),
        Vec::from_slice(rt.alloc(), &[3]).expect(&rt, "it succeeds"),
    );
    let mut grid = new_grid(rt.alloc(), Layout::small()).expect(&rt, "it succeeds");
    adopt_lost(&mut grid, 63);
    let mut scrubber = Scrubber::reserve(rt.alloc()).expect(&rt, "memory of a ring");
    let mut report = Vec::with_capacity(rt.alloc(), 64).expect(&rt, "it succeeds");
    assert!(rt; scrubber.scrub(&mut disk, &mut grid, &mut report).is_err());
    assert!(rt; report.len() == 2);
    scrubber
        .scrub(&mut disk, &mut grid, &mut report)
        .expect(&rt, "it succeeds");
    assert!(rt; report.len() == 63);
    let rows = [(0, Some(2)), (1, Some(1)), (63, Some(63)), (64, None)];
    assert_recent(&rt, &scrubber, &rows);
}
