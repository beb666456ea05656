// The order of open of version 2, a row for each refusal and for each unit that is passed over. Expected values are those of an
// independent program (`model/second.py`), worked out there by hand.
use crate::forged::{NONE, Named, Put, Unit, forge, prepare, reply, sum_of};
use df_layout::{Class, Field, Layout, Place, Zone};
use df_memdisk::MemoryDisk;
use df_recovery::{OpenError, Rooms, survey_version};
use std::alloc::{AllocError, Global};
use std::process::Abort;

// The head, how many replies are stored, and how many places are to be mended; or the refusal.
pub(crate) type Answer = Result<(u64, u64, usize), OpenError>;

// What a survey finds where the version is asked for; a caller's proof is told nothing.
pub(crate) fn surveyed(
    rt: &impl Abort,
    alloc: Global,
    disk: &mut MemoryDisk,
    version: u32,
) -> Answer {
    let rooms = Rooms::reserve(alloc, &Layout::small()).expect(rt, "memory of the rooms");
    match survey_version(disk, rooms, version) {
        Ok(found) => Ok((
            found.traces.tail.op,
            found.traces.replies,
            found.scanned.rooms.log.mends.len(),
        )),
        Err((_, refusal)) => Err(refusal),
    }
}

pub(crate) fn damaged(zone: Zone, index: u64, class: Class) -> Answer {
    Err(OpenError::Damaged {
        place: Place { zone, index },
        class,
    })
}

// Ops 1 to 3 and the replies to 1 and 2 were found by the open of boot 3, so its superblock names prepare 3 and, since op 3 waits, the
// reply to op 2 alone. Op 4 was appended after it.
#[derive(Clone, Copy)]
struct File {
    named: Named,
    prepares: [Unit; 4],
    replies: [Unit; 2],
}

fn made_file() -> File {
    let one = prepare(1, NONE, 5, 1, 0, 2);
    let two = prepare(2, sum_of(&one), 6, 1, 1, 2);
    let three = prepare(3, sum_of(&two), 5, 2, 2, 2);
    let four = prepare(4, sum_of(&three), 7, 1, 2, 3);
    let second = reply(1, 6, 1, 2, 2, 2);
    File {
        named: Named {
            op: 0,
            boot: 3,
            head: (3, sum_of(&three)),
            replies: 2,
            second: sum_of(&second),
        },
        prepares: [one, two, three, four],
        replies: [reply(0, 5, 1, 1, 1, 2), second],
    }
}

// A superblock of a new file, which names nothing.
const NAMELESS: Named = Named {
    op: 0,
    boot: 0,
    head: (0, NONE),
    replies: 0,
    second: NONE,
};

// What is put of a file, and then over it.
fn puts_of(alloc: Global, file: &File, puts: &[Put]) -> Result<Vec<Put>, AllocError> {
    let mut all = Vec::new(alloc);
    for unit in &file.prepares {
        all.push(Put::Both(*unit))?;
    }
    for unit in &file.replies {
        all.push(Put::Reply(*unit))?;
    }
    for put in puts {
        all.push(*put)?;
    }
    Ok(all)
}

// Asserts what is found where this is put over the file.
fn assert_found(rt: &impl Abort, alloc: Global, file: &File, puts: &[Put], answer: Answer) {
    let all = puts_of(alloc, file, puts).expect(rt, "memory of a list");
    let mut disk = forge(rt, alloc, &file.named, &all);
    assert_eq!(rt; surveyed(rt, alloc, &mut disk, 2), answer);
}

// Asserts what is found where each of these alone is put over the file.
fn assert_each(rt: &impl Abort, alloc: Global, file: &File, rows: &[(Put, Answer)]) {
    for (put, answer) in rows {
        assert_found(rt, alloc, file, &[*put], *answer);
    }
}

// The prepare after op 4, of client 6's second request.
fn fifth(file: &File, boot: u64) -> Unit {
    prepare(5, sum_of(&file.prepares[3]), 6, 2, 2, boot)
}

#[test]
fn named_prepares_are_known_by_their_checksums(rt: HostRuntime) {
    let file = made_file();
    let other = Unit {
        mark: 0,
        ..file.prepares[1]
    };
    let rows: [(&[Put], Answer); 7] = [
        (&[], Ok((4, 2, 0))),
        (
            &[Put::Hurt(10)],
            damaged(Zone::WalPrepares, 2, Class::Garbled),
        ),
        (
            &[Put::Hurt(10), Put::Hurt(8)],
            damaged(Zone::WalPrepares, 2, Class::Garbled),
        ),
        (
            &[Put::Hurt(10), Put::Hurt(12)],
            damaged(Zone::WalPrepares, 3, Class::Garbled),
        ),
        (
            &[Put::Prepare(other)],
            damaged(Zone::WalPrepares, 2, Class::Stale),
        ),
        (
            &[Put::Both(other)],
            damaged(Zone::WalPrepares, 2, Class::Stale),
        ),
        (&[Put::Header(other)], Ok((4, 2, 1))),
    ];
    for (puts, answer) in &rows {
        assert_found(&rt, rt.alloc(), &file, puts, *answer);
    }
}

#[test]
fn a_named_prepare_that_does_not_fit_is_stale(rt: HostRuntime) {
    let stale = damaged(Zone::WalPrepares, 3, Class::Stale);
    let file = made_file();
    let unfit = Unit {
        asked: (5, 7),
        ..file.prepares[2]
    };
    let long = Unit {
        group: (3, 4),
        ..file.prepares[2]
    };
    for three in [unfit, long] {
        let changed = File {
            named: Named {
                head: (3, sum_of(&three)),
                ..file.named
            },
            prepares: [file.prepares[0], file.prepares[1], three, file.prepares[3]],
            replies: file.replies,
        };
        assert_found(&rt, rt.alloc(), &changed, &[], stale);
    }
    let nameless = File {
        named: Named {
            head: (3, NONE),
            ..file.named
        },
        prepares: file.prepares,
        replies: file.replies,
    };
    assert_found(&rt, rt.alloc(), &nameless, &[], stale);
}

#[test]
fn a_head_at_the_checkpoint_has_its_checksum(rt: HostRuntime) {
    let named = Named {
        op: 4,
        boot: 3,
        head: (4, NONE),
        replies: 4,
        ..NAMELESS
    };
    let bad = OpenError::BadField {
        field: Field::Head,
        value: 0,
    };
    let mut disk = forge(&rt, rt.alloc(), &named, &[]);
    assert!(rt; surveyed(&rt, rt.alloc(), &mut disk, 2) == Err(bad));
}

#[test]
fn a_later_boot_refuses_and_an_earlier_one_leaves_no_trace(rt: HostRuntime) {
    let file = made_file();
    let later = damaged(Zone::Superblock, 0, Class::Stale);
    let rows = [
        (Put::Prepare(fifth(&file, 4)), later),
        (Put::Header(fifth(&file, 4)), later),
        (Put::Reply(reply(3, 9, 1, 1, 1, 4)), later),
        (Put::Header(fifth(&file, 2)), Ok((4, 2, 0))),
        (Put::Prepare(fifth(&file, 2)), Ok((4, 2, 0))),
        (
            Put::Header(fifth(&file, 3)),
            damaged(Zone::WalPrepares, 5, Class::Blank),
        ),
        (Put::Prepare(fifth(&file, 3)), Ok((5, 2, 1))),
        (Put::Reply(reply(3, 9, 1, 1, 9, 2)), Ok((4, 2, 0))),
        (
            Put::Reply(reply(3, 9, 1, 1, 9, 3)),
            damaged(Zone::WalPrepares, 5, Class::Blank),
        ),
        // At the place of client 5, whose op 3 waits.
        (Put::Reply(reply(0, 5, 2, 3, 3, 2)), Ok((4, 2, 0))),
        (Put::Reply(reply(0, 5, 2, 3, 3, 3)), Ok((4, 3, 0))),
    ];
    assert_each(&rt, rt.alloc(), &file, &rows);
}

#[test]
fn a_named_reply_is_known_by_its_checksum(rt: HostRuntime) {
    let file = made_file();
    let stale = damaged(Zone::ClientReplies, 1, Class::Stale);
    let rows = [
        (
            Put::Hurt(72),
            damaged(Zone::ClientReplies, 1, Class::Garbled),
        ),
        (Put::Reply(reply(1, 6, 1, 2, 3, 2)), stale),
        (Put::Reply(reply(1, 6, 1, 2, 2, 3)), stale),
    ];
    assert_each(&rt, rt.alloc(), &file, &rows);
    let foreign = reply(1, 5, 1, 2, 2, 2);
    let named = File {
        named: Named {
            second: sum_of(&foreign),
            ..file.named
        },
        prepares: file.prepares,
        replies: [file.replies[0], foreign],
    };
    assert_found(&rt, rt.alloc(), &named, &[], stale);
}

#[test]
fn the_greatest_boot_is_refused_last(rt: HostRuntime) {
    let file = made_file();
    let boot = 1u64 << 62;
    let spent = File {
        named: Named { boot, ..file.named },
        prepares: [
            file.prepares[0],
            file.prepares[1],
            file.prepares[2],
            Unit {
                boot,
                ..file.prepares[3]
            },
        ],
        replies: file.replies,
    };
    let garbled = damaged(Zone::ClientReplies, 1, Class::Garbled);
    assert_found(&rt, rt.alloc(), &spent, &[], Err(OpenError::BootSpent));
    assert_found(&rt, rt.alloc(), &spent, &[Put::Hurt(72)], garbled);
    let above = File {
        named: Named {
            boot: boot + 1,
            ..file.named
        },
        prepares: file.prepares,
        replies: file.replies,
    };
    let field = Field::Boot;
    let value = u128::from(boot + 1);
    let bad = Err(OpenError::BadField { field, value });
    assert_found(&rt, rt.alloc(), &above, &[], bad);
}

// What is found where this version is asked for, and how many device calls that takes.
fn counted(rt: &impl Abort, alloc: Global, disk: &mut MemoryDisk, version: u32) -> (Answer, u64) {
    let before = disk.calls();
    let answer = surveyed(rt, alloc, disk, version);
    (answer, disk.calls().saturating_sub(before))
}

// A sync, four copies, two header sectors, 32 slots of the ring of prepares and four reply slots. Where the other version is asked for it
// is refused after the copies.
#[test]
fn a_survey_of_either_version_is_forty_three_calls(rt: HostRuntime) {
    let mut disk = forge(&rt, rt.alloc(), &NAMELESS, &[]);
    let own = counted(&rt, rt.alloc(), &mut disk, 2);
    assert!(rt; own == (Ok((0, 0, 0)), 43));
    let other = counted(&rt, rt.alloc(), &mut disk, 1);
    assert!(rt; other == (Err(OpenError::Version { found: 2 }), 5));
}
