// Sectors that are struck between two reads of a replica: the unit there is told by the class of what is shown, the other one is
// still lent whole, and both are again once the old bytes are written back.
use crate::tests::calls::Call::{Append, Reply};
use crate::tests::calls::{Call, served_file};
use crate::tests::files::small_file;
use crate::tests::opened::{do_all, opened};
use crate::tests::steps::{Step, Unit, is_answered};
use df_base::SECTOR;
use df_disk::Disk;
use df_layout::{Class, Layout, Place, Zone};
use df_memdisk::{MemoryDisk, Strike};
use df_replica::{LookupError, PrepareError, Replica};
use std::alloc::Global;
use std::test::Fail;

// Prepares 1 to 3 begin at sectors 8, 10 and 12; the replies of clients 1 and 2 begin at sectors 70 and 72. The last two units,
// of client 1, fill both sectors of their places, and all others fill half a kilobyte at most.
const CALLS: [Call; 6] = [
    Append(1, 1, 0),
    Reply(1, 0),
    Append(2, 1, 0),
    Reply(2, 0),
    Append(1, 2, 7936),
    Reply(3, 7936),
];

// Another file of the cluster, whose second prepare and second reply are another client's.
const OTHER_CALLS: [Call; 4] = [Append(1, 1, 0), Reply(1, 0), Append(3, 1, 0), Reply(2, 0)];

// How a sector is hurt.
#[derive(Clone, Copy)]
enum Blow {
    Struck(Strike),
    // Its bytes from this one on are 0xa5.
    From(usize),
    // It shows what the same sector of the other file holds.
    OfOtherFile,
}

const A5: Blow = Blow::Struck(Strike::Fill { byte: 0xa5 });

const ZEROS: Blow = Blow::Struck(Strike::Fill { byte: 0 });

// It shows what this sector of the file holds.
const LIKE_0: Blow = Blow::Struck(Strike::Like { sector: 0 });

const LIKE_4: Blow = Blow::Struck(Strike::Like { sector: 4 });

const LIKE_8: Blow = Blow::Struck(Strike::Like { sector: 8 });

const LIKE_10: Blow = Blow::Struck(Strike::Like { sector: 10 });

const LIKE_12: Blow = Blow::Struck(Strike::Like { sector: 12 });

const LIKE_70: Blow = Blow::Struck(Strike::Like { sector: 70 });

const LIKE_72: Blow = Blow::Struck(Strike::Like { sector: 72 });

// Eleven events of the making, the open's sync and the eight of its boot update, four of each append and two of each reply.
const BEFORE_THE_LAST_APPEND: Blow = Blow::Struck(Strike::Earlier { events: 32 });

const BEFORE_THE_LAST_REPLY: Blow = Blow::Struck(Strike::Earlier { events: 36 });

const GARBLED: Option<Class> = Some(Class::Garbled);

const STALE: Option<Class> = Some(Class::Stale);

const BLANK: Option<Class> = Some(Class::Blank);

// A unit that belongs to another place.
const OF_PREPARE_1: Option<Class> = Some(Class::Elsewhere(Place {
    zone: Zone::WalPrepares,
    index: 1,
}));

const OF_PREPARE_2: Option<Class> = Some(Class::Elsewhere(Place {
    zone: Zone::WalPrepares,
    index: 2,
}));

const OF_REPLY_1: Option<Class> = Some(Class::Elsewhere(Place {
    zone: Zone::ClientReplies,
    index: 1,
}));

// Sectors, how each of them is hurt, and what is then found wrong with the unit there.
type Row = (&'static [u8], Blow, Option<Class>);

// A request whose prepare and reply are read, the bodies of both, and the place of the reply.
#[derive(Clone, Copy)]
struct Request<'a> {
    client: u128,
    request: u64,
    op: u64,
    body: &'a [u8],
    reply: &'a [u8],
    place: u64,
}

impl<'a> Request<'a> {
    // Each op of the file is appended when all before it have their replies.
    fn prepare(&self) -> Unit<'a> {
        Unit {
            client: self.client,
            request: self.request,
            op: self.op,
            mark: self.op.saturating_sub(1),
            body: self.body,
        }
    }

    fn reply(&self) -> Unit<'a> {
        Unit {
            client: self.client,
            request: self.request,
            op: self.op,
            mark: self.op,
            body: self.reply,
        }
    }
}

fn place(zone: Zone, index: u64) -> Place {
    Place { zone, index }
}

// Whether both units are read as these classes say: whole, or damaged at their places.
fn are_read(
    disk: &mut MemoryDisk,
    replica: &mut Replica,
    request: &Request<'_>,
    prepare: Option<Class>,
    reply: Option<Class>,
) -> bool {
    let wanted_prepare = match prepare {
        None => Ok(request.prepare()),
        Some(class) => Err(PrepareError::Damaged {
            place: place(Zone::WalPrepares, request.op),
            class,
        }),
    };
    let wanted_reply = match reply {
        None => Ok(request.reply()),
        Some(class) => Err(LookupError::Damaged {
            place: place(Zone::ClientReplies, request.place),
            class,
        }),
    };
    is_answered(
        disk,
        replica,
        &Step::ReadPrepare(request.op, wanted_prepare),
    ) && is_answered(
        disk,
        replica,
        &Step::ReadReply(request.client, wanted_reply),
    )
}

fn shown(disk: &mut MemoryDisk, sector: u8) -> Result<[u8; SECTOR], Fail> {
    let mut bytes = [0u8; SECTOR];
    disk.read(u64::from(sector), &mut bytes)?;
    Ok(bytes)
}

// What this sector of the other file shows.
fn shown_there(alloc: Global, sector: u8) -> Result<[u8; SECTOR], Fail> {
    let mut other = served_file(alloc, &OTHER_CALLS)?;
    shown(&mut other, sector)
}

fn hurt(alloc: Global, disk: &mut MemoryDisk, sector: u8, blow: Blow) -> Result<(), Fail> {
    match blow {
        Blow::Struck(strike) => disk.strike(u64::from(sector), strike)?,
        Blow::From(at) => {
            let mut bytes = shown(disk, sector)?;
            if let Some(rest) = bytes.get_mut(at..) {
                rest.fill(0xa5);
            }
            disk.write(u64::from(sector), &bytes)?;
        }
        Blow::OfOtherFile => {
            let bytes = shown_there(alloc, sector)?;
            disk.write(u64::from(sector), &bytes)?;
        }
    }
    Ok(())
}

// Whether both units are read as a row says after its blow to this sector, and are whole again once the old bytes are back.
// Replies stand from sector 70 on.
fn is_told(
    alloc: Global,
    disk: &mut MemoryDisk,
    replica: &mut Replica,
    request: &Request<'_>,
    sector: u8,
    row: &Row,
) -> Result<bool, Fail> {
    let (_, blow, class) = *row;
    let (prepare, reply) = if sector < 70 {
        (class, None)
    } else {
        (None, class)
    };
    let bytes = shown(disk, sector)?;
    hurt(alloc, disk, sector, blow)?;
    let told = are_read(disk, replica, request, prepare, reply);
    disk.write(u64::from(sector), &bytes)?;
    Ok(told && are_read(disk, replica, request, None, None))
}

// The first row and sector that aren't told so after the calls.
fn first_untold(
    alloc: Global,
    disk: &mut MemoryDisk,
    replica: &mut Replica,
    request: &Request<'_>,
    rows: &[Row],
) -> Result<Option<(usize, u8)>, Fail> {
    do_all(alloc, disk, replica, &CALLS)?;
    for (index, row) in rows.iter().enumerate() {
        for sector in row.0 {
            if !is_told(alloc, disk, replica, request, *sector, row)? {
                return Ok(Some((index, *sector)));
            }
        }
    }
    Ok(None)
}

// The same of a replica of a new file.
fn first_of(
    alloc: Global,
    disk: &mut MemoryDisk,
    request: &Request<'_>,
    rows: &[Row],
) -> Result<Option<(usize, u8)>, Fail> {
    let mut replica = opened(alloc, disk, &Layout::small())?;
    first_untold(alloc, disk, &mut replica, request, rows)
}

fn first_other(
    alloc: Global,
    request: &Request<'_>,
    rows: &[Row],
) -> Result<Option<(usize, u8)>, Fail> {
    let mut disk = small_file(alloc, 0)?;
    first_of(alloc, &mut disk, request, rows)
}

const ONES: [Row; 13] = [
    (&[10, 72], A5, GARBLED),
    (&[10, 72], ZEROS, BLANK),
    (&[10, 72], Blow::From(255), GARBLED),
    (&[10, 72], Blow::From(256), None),
    (&[10, 72], Blow::OfOtherFile, STALE),
    (&[10, 72], LIKE_8, OF_PREPARE_1),
    (&[10], LIKE_72, OF_REPLY_1),
    // A superblock's copy, a sector of headers, and the front of a unit of two sectors.
    (&[10], LIKE_0, GARBLED),
    (&[10, 72], LIKE_4, GARBLED),
    (&[10], LIKE_12, GARBLED),
    (&[72], LIKE_70, GARBLED),
    // Sectors that neither read is about.
    (&[4, 11, 73], A5, None),
    (&[12, 70], ZEROS, None),
];

// Each unit is the header alone, 256 bytes of the first sector of its place.
#[test]
fn units_of_one_sector_are_told_by_their_bytes(rt: HostRuntime) -> Result<(), Fail> {
    let request = Request {
        client: 2,
        request: 1,
        op: 2,
        body: &[],
        reply: &[],
        place: 1,
    };
    assert_eq!(rt; first_other(rt.alloc(), &request, &ONES)?, None);
    Ok(())
}

const TWOS: [Row; 12] = [
    (&[12, 13, 70, 71], A5, GARBLED),
    (&[12, 70], ZEROS, BLANK),
    (&[13, 71], ZEROS, GARBLED),
    (&[13, 71], Blow::From(4095), GARBLED),
    (&[12], BEFORE_THE_LAST_APPEND, BLANK),
    (&[13], BEFORE_THE_LAST_APPEND, GARBLED),
    (&[70], BEFORE_THE_LAST_REPLY, STALE),
    (&[71], BEFORE_THE_LAST_REPLY, GARBLED),
    (&[12, 70], LIKE_10, OF_PREPARE_2),
    (&[12, 70], LIKE_72, OF_REPLY_1),
    (&[12], LIKE_70, GARBLED),
    (&[70], Blow::OfOtherFile, STALE),
];

// Each unit fills both sectors of its place; the reply stands over an earlier one of one sector.
#[test]
fn units_of_two_sectors_are_told_by_both(rt: HostRuntime) -> Result<(), Fail> {
    let twos = vec![in rt.alloc(); 2u8; 7936].expect(&rt, "memory of a body");
    let threes = vec![in rt.alloc(); 3u8; 7936].expect(&rt, "memory of a body");
    let request = Request {
        client: 1,
        request: 2,
        op: 3,
        body: &twos,
        reply: &threes,
        place: 0,
    };
    assert_eq!(rt; first_other(rt.alloc(), &request, &TWOS)?, None);
    Ok(())
}
