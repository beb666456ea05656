// The links of the chain, each the block that is asked for, with the reference that it has to the one before; and the walk along them,
// from the last block, which the superblock refers to, back to index 0.
ghost use Rattle.std.specs.Prelude.{◌≡◌, ◌-◌, ◌<◌, ◌≤◌, length, get_or, IfNone, IfOk, IfSome};
ghost use Rattle.df_base.specs.declared.TheConstants.{HEADER};
ghost use Rattle.df_checkpoint.specs.Below.{array_vec_len, IsBlamed, TrailerChain, Shape, IsCount, layout_of, AreFieldsOf, HasAddress};
ghost use Rattle.df_checkpoint.specs.Chain.{AreDistinctLinks, IsLinkOf, IsNoLink, LinkAnswer, OfTold, WalkAnswer, before_of, content_in, is_among, is_trailer_fault};

use crate::TrailerFault;
use arrayvec::ArrayVec;
use df_base::{Check, HEADER};
use df_buffers::{Sound, Trailer};
use df_disk::Disk;
use df_format::{Reference, SuperFields};
use df_grid::Grid;
use df_layout::{Field, LINKS, Layout};

/// Where a block of the chain stands, and the checksum that its header has to have; address 0 ends the chain.
#[derive(Clone, Copy, Debug, PartialEq, Eq, Default)]
pub struct Link {
    pub address: u64,
    pub checksum: Check,
}

impl Link {
    /// The block, as the grid is asked for it.
    pub(crate) fn reference(&self) -> Reference
        ensures { result ≡ record { address = self.now.address; checksum = self.now.checksum } }
    {
        let checksum = self.checksum;
        Reference {
            address: self.address,
            checksum,
        }
    }
}

// A block that isn't the link that the chain asks for.
pub(crate) fn broken(address: u64) -> TrailerFault
    ensures { result ≡ TrailerFault.BadField TrailerChain address }
{
    TrailerFault::BadField {
        field: Field::TrailerChain,
        value: u128::from(address),
    }
}

/// The reference that a trailer block has to the one before it in the chain, where it is the link with this index: of the superblock's
/// sequence, of that index, as long as that piece of the text, and but for the first one after a block of the grid. None where it isn't.
pub fn link_before(
    layout: &Layout,
    content: &SuperFields,
    index: u64,
    unit: &Sound<Trailer>,
) -> Option<Link>
    requires { index < 70 }
    ensures link { IfSome result (λ before. IsLinkOf layout.now content.now index unit.now.unit × (before ≡ before_of unit.now.unit)) }
    ensures inside { IfSome result (λ before. 0 < index → (1 ≤ before.address) × (before.address ≤ layout.now.blocks)) }
    ensures none { IfNone result (IsNoLink layout.now content.now index unit.now.unit) }
{
    let header = unit.header();
    let size = unit.body().len() as u64;
    let room = u64::from(layout.block_size - HEADER as u32);
    let wanted = room.min(content.trailer_size.saturating_sub(room * index));
    let before = header.request;
    let is_link = header.checkpoint == content.sequence
        && header.mark == index
        && size == wanted
        && (index == 0 || (1 <= before && before <= u64::from(layout.blocks)));
    if !is_link {
        return None;
    }
    let checksum = header.parent;
    Some(Link {
        address: before,
        checksum,
    })
}

// The reference before the link with this index, which is asked for at a reference; 0 before the first one.
fn read_link<D: Disk>(
    disk: &mut D,
    content: &SuperFields,
    grid: &mut Grid,
    at: Link,
    index: u64,
) -> Result<Link, TrailerFault>
    requires inside { HasAddress grid.old at.address }
    requires few { index < 70 }
    requires file { AreFieldsOf grid.old.layout grid.old.cluster content.now }
    ensures link { (sh : Shape) → sh.layout ≡ layout_of grid.old.layout → OfTold grid.old (D.told disk.old) (λ shown. LinkAnswer sh shown (content_in content.now) index at result) }
    ensures inside { IfOk result (λ before. 0 < index → HasAddress grid.old before.address) }
    ensures grid { grid.new ≡ grid.old }
    ensures same { D.told disk.new ≡ D.told disk.old }
    ensures cause { IsBlamed is_trailer_fault (D.faults disk.old) (D.faults disk.new) result }
{
    let layout = grid.layout();
    match grid.show_trailer(disk, at.reference()) {
        Ok(Ok(unit)) => match link_before(&layout, content, index, unit) {
            Some(before) => Ok(before),
            None => Err(broken(at.address)),
        },
        Ok(Err(class)) => Err(TrailerFault::Damaged {
            address: at.address,
            class,
        }),
        Err(_) => Err(TrailerFault::DiskFault),
    }
}

/// The link that is this many after the first block of the chain: the links are from the last block to the first.
pub(crate) fn link_after(blocks: &[Link], done: usize) -> Link
    requires { done < length blocks.now }
    ensures { result ≡ get_or blocks.now (length blocks.now - 1 - done) result }
{
    blocks[blocks.len() - 1 - done]
}

/// Whether an address is one of those of the references.
pub fn is_among(blocks: &[Link], address: u64) -> bool
    ensures { result ≡ is_among address blocks.now }
{
    blocks.iter().any(|link| link.address == address)
}

/// The references to the blocks of the chain, from the last one to the first.
pub(crate) fn walk<D: Disk>(
    disk: &mut D,
    content: &SuperFields,
    grid: &mut Grid,
    count: u64,
) -> Result<ArrayVec<Link, LINKS>, TrailerFault>
    requires inside { HasAddress grid.old content.now.trailer_address }
    requires few { (0 < count) × (count ≤ 70) }
    requires count { IsCount (grid.old.layout.block_size - HEADER) content.now.trailer_size count }
    requires file { AreFieldsOf grid.old.layout grid.old.cluster content.now }
    ensures walked { (sh : Shape) → sh.layout ≡ layout_of grid.old.layout → OfTold grid.old (D.told disk.old) (λ shown. WalkAnswer sh shown (content_in content.now) count result) }
    ensures apart { IfOk result (λ blocks. AreDistinctLinks grid.old blocks.items) }
    ensures size { IfOk result (λ blocks. array_vec_len blocks ≡ count) }
    ensures grid { grid.new ≡ grid.old }
    ensures same { D.told disk.new ≡ D.told disk.old }
    ensures cause { IsBlamed is_trailer_fault (D.faults disk.old) (D.faults disk.new) result }
{
    let mut blocks = ArrayVec::new();
    let checksum = content.trailer_checksum;
    let mut at = Link {
        address: content.trailer_address,
        checksum,
    };
    for done in 0..count {
        let before = match read_link(disk, content, grid, at, count - 1 - done) {
            Ok(before) => before,
            Err(fault) => return Err(fault),
        };
        // No chain comes to an address twice, since the block there has one index.
        if is_among(&blocks, at.address) {
            return Err(broken(at.address));
        }
        blocks.push(at);
        at = before;
    }
    Ok(blocks)
}
