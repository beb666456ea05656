// How long a trailer is, and how many blocks it needs.
ghost use Rattle.std.specs.Prelude.{◌≡◌, ◌+◌, ◌-◌, ◌*◌, ◌^◌, ◌≤◌};
ghost use Rattle.df_base.specs.declared.TheConstants.{HEADER};
ghost use Rattle.df_theory.specs.Trailer.{IsCount};
ghost use Rattle.df_units.specs.Meaning.{layout_of};
ghost use Rattle.df_trailer.specs.Spelling.{text_size};

use df_base::HEADER;
use df_layout::Layout;

/// Bytes of the text of a trailer of the layout, with a root of this many bytes, this many sessions and this many referenced blocks, also
/// where the layout has fewer of these.
pub fn trailer_size(layout: &Layout, root: u64, sessions: u64, references: u64) -> u64
    requires root { root ≤ 1024 }
    requires sessions { sessions ≤ 64 }
    requires references { references ≤ 16384 }
    ensures value { result ≡ text_size (layout_of layout.now) root sessions references }
    ensures below { result ≤ 2 ^ 32 }
{
    4 + root + 4 + 32 * sessions + u64::from(layout.blocks.div_ceil(8)) + 16 * references
}

/// How many trailer blocks a checkpoint needs: at most 70, whatever the layout.
pub fn blocks_needed(layout: &Layout, root: u64, sessions: u64, references: u64) -> u64
    requires root { root ≤ 1024 }
    requires sessions { sessions ≤ 64 }
    requires references { references ≤ layout.now.blocks }
    ensures count { IsCount (layout.now.block_size - HEADER) (text_size (layout_of layout.now) root sessions references) result }
    ensures most { result ≤ 70 }
{
    trailer_size(layout, root, sessions, references).div_ceil(u64::from(
        layout.block_size - HEADER as u32,
    ))
}
