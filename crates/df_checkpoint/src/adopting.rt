// What the grid takes over of a checkpoint that was read: the blocks that it references, and those of its trailer. Before anything is taken
// over, each address of the chain is tested: none of them may be referenced.
ghost use Rattle.std.specs.Prelude.{◌≡◌, ◌+◌, ◌≤◌, ℕ, [], OnErr, false, length, true};
ghost use Rattle.df_checkpoint.specs.{Below.{is_held_in, HasBit, kept_at, with_blocks, no_blocks}, Chain.{AreDistinctLinks, is_among}, Adopting.{AdoptAnswer, FirstAnswer, blocks_to, chained}};

use crate::TrailerFault;
use crate::links::{Link, broken, link_after};
use df_format::Reference;
use df_grid::Grid;
use df_trailer::Reader;

// The least address of the chain that the text refers to, where there is one.
fn first_referenced(reader: &Reader, blocks: &[Link]) -> Option<u64>
    requires bits { (address : ℕ) → is_among address blocks.now ≡ true → HasBit reader.now address }
    ensures { FirstAnswer reader.now blocks.now result }
{
    let mut least: Option<u64> = None;
    for link in blocks {
        if reader.refers(link.address) {
            least = match least {
                Some(least) => Some(least.min(link.address)),
                None => Some(link.address),
            };
        }
    }
    least
}

// Adopts all blocks that the text refers to, as live ones.
fn adopt_live(grid: &mut Grid, reader: &Reader)
    requires bits { (address : ℕ) → 1 ≤ address → address ≤ grid.old.layout.blocks → HasBit reader.now address }
    requires free { grid.old.blocks ≡ no_blocks }
    ensures { grid.new ≡ with_blocks grid.old (blocks_to (kept_at reader.now) (grid.old.layout.blocks + 1)) }
{
    let last = u64::from(grid.layout().blocks);
    // How many lower addresses the text refers to.
    let mut before = 0;
    for address in 1..last + 1 {
        let Some(checksum) = reader.reference(address, before) else {
            continue;
        };
        grid.adopt(Reference { address, checksum }, true);
        before += 1;
    }
}

// Adopts the blocks of the chain, in order of index.
fn adopt_chain(grid: &mut Grid, blocks: &[Link])
    requires apart { AreDistinctLinks grid.old blocks.now }
    requires few { length blocks.now ≤ 70 }
    requires none { grid.old.blocks.chain ≡ [] }
    requires free { (a : ℕ) → is_among a blocks.now ≡ true → is_held_in grid.old.blocks a ≡ false }
    ensures { grid.new ≡ with_blocks grid.old (chained grid.old.blocks blocks.now) }
{
    for done in 0..blocks.len() {
        grid.adopt(link_after(blocks, done).reference(), false);
    }
}

/// Adopts the checkpoint that was read: the blocks that it references, and those of its chain. It is refused with the least address of the
/// chain that is referenced, where there is one, and the grid is then as before.
pub(crate) fn adopt(grid: &mut Grid, reader: &Reader, blocks: &[Link]) -> Result<(), TrailerFault>
    requires apart { AreDistinctLinks grid.old blocks.now }
    requires few { length blocks.now ≤ 70 }
    requires bits { (address : ℕ) → 1 ≤ address → address ≤ grid.old.layout.blocks → HasBit reader.now address }
    requires free { grid.old.blocks ≡ no_blocks }
    ensures answer { AdoptAnswer grid.old grid.new reader.now blocks.now result }
    ensures refused { OnErr result (grid.new ≡ grid.old) }
{
    match first_referenced(reader, blocks) {
        Some(address) => Err(broken(address)),
        None => {
            adopt_live(grid, reader);
            adopt_chain(grid, blocks);
            Ok(())
        }
    }
}
