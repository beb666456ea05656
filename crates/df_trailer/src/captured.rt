// What a checkpoint has captured of the grid, as the text asks for it.
ghost use Rattle.std.specs.Prelude.{◌≡◌, ◌*◌, ℕ, Option, IfSome};
ghost use Rattle.df_trailer.specs.{Rooms.{number_in}, Writing.{referenced_among}};

use df_base::Check;

/// Addresses of a group: what a checkpoint refers to may be counted group by group.
pub const GROUP: u64 = 256;

/// The blocks that a checkpoint refers to.
pub trait CapturedBlocks {
    /// The checksum of each of them, by address.
    ghost captured: { Self → ℕ → Option ℕ };

    /// The checksum of the block at an address, None where the checkpoint doesn't refer to it.
    fn captured(&self, address: u64) -> Option<Check>
        ensures { number_in result ≡ captured self.now address };

    /// How many of the first [`GROUP`] * `groups` addresses the checkpoint refers to, None where that isn't kept. So a piece of the text is
    /// begun near its window, and not at the first block.
    fn counted(&self, groups: u64) -> Option<u64>
        ensures { IfSome result (λ count. count ≡ referenced_among (captured self.now) (256 * groups)) };
}
