// The table of a new file's headers.
ghost use Rattle.std.specs.Prelude.{IfOk};
ghost use Rattle.df_headers.specs.Ring.{IsHeaderTable};

use df_headers::{HeaderTable, reserved_header};
use df_layout::Layout;
use std::alloc::{AllocError, Global};

// Reserved headers of cluster 7, one for each slot.
pub(crate) fn reserved_table(alloc: Global, layout: &Layout) -> Result<HeaderTable, AllocError>
    ensures { IfOk result (IsHeaderTable layout.now 7) }
{
    let room = vec![in alloc; reserved_header(7, 0); layout.slots as usize]?;
    let mut table = HeaderTable::over(room);
    table.clear(7);
    Ok(table)
}
