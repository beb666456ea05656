// The rooms of the superblock, of both rings and of the replies.
ghost use Rattle.std.specs.Prelude.{◌≡◌, ◌≤◌, ◌+◌, length, vec_capacity, IfOk};

use df_base::OutOfMemory;
use df_buffers::{HeaderSector, Prepare, ProbeRoom, Raw, Reply, SlotSeen};
use df_format::{Header, Kind};
use df_headers::HeaderTable;
use df_journal::SlotTable;
use df_layout::{Class, Layout, Mend};
use df_places::Shelf;
use df_replies::ReplyTable;
use std::alloc::Global;

/// The memory that serves the log zones of a file of one layout.
#[derive(Drop)]
pub struct LogRooms {
    pub layout: Layout,
    // The rooms that copies of the superblock are read into and made in.
    pub superblock: ProbeRoom,
    pub sector: Raw<HeaderSector>,
    pub prepare: Shelf<Prepare>,
    pub reply: Shelf<Reply>,
    // What the header ring shows or is to show, what a scan saw of both rings, and of the reply slots.
    pub headers: HeaderTable,
    pub slots: SlotTable,
    pub replies: ReplyTable,
    // What is to be mended: at most a copy each and a slot each.
    pub mends: Vec<Mend>,
    pub ghost sector_fits: { sector.layout ≡ layout },
    pub ghost prepare_fits: { prepare.layout ≡ layout },
    pub ghost reply_fits: { reply.layout ≡ layout },
    pub ghost headers_fit: { length headers ≡ layout.slots },
    pub ghost slots_fit: { length slots.slots ≡ layout.slots },
    pub ghost replies_fit: { length replies ≡ layout.clients },
    pub ghost mends_fit: { layout.slots + 4 ≤ vec_capacity mends },
}

impl LogRooms {
    /// The rooms for a layout, or the refusal of memory for one of them.
    pub(crate) fn reserve(alloc: Global, layout: &Layout) -> Result<LogRooms, OutOfMemory>
        ensures { IfOk result (λ rooms. rooms.layout ≡ layout.now) }
    {
        let superblock = ProbeRoom::reserve(alloc)?;
        let sector = Raw::reserve(alloc, layout)?;
        let prepare = Raw::reserve(alloc, layout)?;
        let reply = Raw::reserve(alloc, layout)?;
        // Stands in the table until a header is put there.
        let reserved = Header::of(Kind::Reserved, 0);
        let headers = vec![in alloc; reserved; layout.slots as usize]?;
        let unseen = SlotSeen {
            header: Err(Class::Blank),
            prepare: Err(Class::Blank),
        };
        let slots = vec![in alloc; unseen; layout.slots as usize]?;
        let replies = ReplyTable::reserve(alloc, layout)?;
        let mends = Vec::with_capacity(alloc, layout.slots as usize + 4)?;
        Ok(LogRooms {
            layout: *layout,
            superblock,
            sector,
            prepare: Shelf::over(*layout, prepare),
            reply: Shelf::over(*layout, reply),
            headers: HeaderTable::over(headers),
            slots: SlotTable::over(slots),
            replies,
            mends,
        })
    }
}
