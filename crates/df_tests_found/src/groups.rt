// Groups after a tail, in files of version 2: cut at each place, with some of their headers, which stand in one sector or in two, past the
// end of the ring, of an earlier boot, and at the head that the superblock names. Expected values are those of an independent program
// (`model/second.py`).
ghost use Rattle.std.specs.Prelude.{◌≤◌};

use crate::forged::{NONE, Named, Put, Unit, forge, prepare, reply, sum_of};
use crate::rows::{Answer, damaged, surveyed};
use df_base::Check;
use df_layout::{Class, Zone};
use std::alloc::{AllocError, Global};
use std::process::Abort;

// What is left of a prepare: all, the prepare without its header, its header alone, or nothing.
#[derive(Clone, Copy)]
enum Left {
    All,
    Prepare,
    Header,
    Nothing,
}

// A tail of this many ops; the head that the superblock names, of boot 3; and the boot of a group of three after the tail.
#[derive(Clone, Copy)]
struct File {
    tail: u64,
    named: u64,
    boot: u64,
}

// What is put of a file, and the checksums of its prepares; the first is no checksum.
#[derive(Drop)]
struct Written {
    puts: Vec<Put>,
    sums: Vec<Check>,
}

fn sum_at(written: &Written, op: u64) -> Check {
    match written.sums.get(op as usize) {
        Some(sum) => *sum,
        None => NONE,
    }
}

// Puts what is left of a prepare.
fn put_left(written: &mut Written, unit: Unit, left: Left) -> Result<(), AllocError> {
    written.sums.push(sum_of(&unit))?;
    match left {
        Left::All => written.puts.push(Put::Both(unit))?,
        Left::Prepare => written.puts.push(Put::Prepare(unit))?,
        Left::Header => written.puts.push(Put::Header(unit))?,
        Left::Nothing => {}
    }
    Ok(())
}

// Puts the prepare of the op after this one, which client 5 asked for: up to the head that is named of boot 2, and else of boot 3.
fn put_next(written: &mut Written, file: &File, op: u64) -> Result<(), AllocError>
    requires { op ≤ 32 }
{
    let boot = if op < file.named { 2 } else { 3 };
    let unit = prepare(op + 1, sum_at(written, op), 5, op + 1, op, boot);
    put_left(written, unit, Left::All)
}

// Puts the prepares of the tail and the reply to the last of them.
fn put_tail(written: &mut Written, file: &File) -> Result<(), AllocError> {
    written.sums.push(NONE)?;
    for op in 0..file.tail.min(32) {
        put_next(written, file, op)?;
    }
    let answer = reply(0, 5, file.tail, file.tail, file.tail, 3);
    written.puts.push(Put::Reply(answer))?;
    Ok(())
}

// The prepares of the group, of clients 5 to 7.
fn group_of(written: &Written, file: &File) -> [Unit; 3] {
    let head = file.tail.min(32);
    let group = (head + 1, head + 3);
    let one = Unit {
        group,
        ..prepare(
            head + 1,
            sum_at(written, head),
            5,
            head + 1,
            head,
            file.boot,
        )
    };
    let two = Unit {
        group,
        ..prepare(head + 2, sum_of(&one), 6, 1, head, file.boot)
    };
    let three = Unit {
        group,
        ..prepare(head + 3, sum_of(&two), 7, 1, head, file.boot)
    };
    [one, two, three]
}

// Puts the tail, and what is left of the three.
fn put_file(written: &mut Written, file: &File, left: &[Left; 3]) -> Result<(), AllocError> {
    put_tail(written, file)?;
    let [one, two, three] = group_of(written, file);
    put_left(written, one, left[0])?;
    put_left(written, two, left[1])?;
    put_left(written, three, left[2])
}

// A file with what is left of the three, and this put over it.
fn written_file(
    rt: &impl Abort,
    alloc: Global,
    file: &File,
    left: &[Left; 3],
    over: &[Put],
) -> Written {
    let mut written = Written {
        puts: Vec::new(alloc),
        sums: Vec::new(alloc),
    };
    put_file(&mut written, file, left).expect(rt, "memory of a file");
    written
        .puts
        .extend_from_slice(over)
        .expect(rt, "memory of a list");
    written
}

// What is found of it. The superblock names no reply: those of its own boot are known without.
fn found(rt: &impl Abort, alloc: Global, file: &File, written: &Written) -> Answer {
    let superblock = Named {
        op: 0,
        boot: 3,
        head: (file.named, sum_at(written, file.named)),
        replies: file.named.saturating_sub(1).min(file.tail),
        second: NONE,
    };
    let mut disk = forge(rt, alloc, &superblock, &written.puts);
    surveyed(rt, alloc, &mut disk, 2)
}

const A: Left = Left::All;

const P: Left = Left::Prepare;

const H: Left = Left::Header;

const N: Left = Left::Nothing;

// What is left of a group that is whole, and how many headers are to be mended.
const WHOLE: [([Left; 3], usize); 5] = [
    ([A, A, A], 0),
    ([P, P, P], 3),
    ([A, P, P], 2),
    ([P, A, P], 2),
    ([P, P, A], 2),
];

// Of one that was cut, no header of which is shown: the state before is found, and nothing is to be mended.
const CUT: [[Left; 3]; 7] = [
    [P, P, N],
    [P, N, P],
    [N, P, P],
    [P, N, N],
    [N, P, N],
    [N, N, P],
    [N; 3],
];

// Of one that was cut and of which a header is shown, the first alone, the last alone, and others; and after how many of its ops the slot
// is blamed.
const TOLD: [([Left; 3], u64); 10] = [
    ([A, P, N], 2),
    ([P, P, H], 2),
    ([A, A, H], 2),
    ([A, N, N], 1),
    ([P, N, A], 1),
    ([A, H, A], 1),
    ([H, P, P], 0),
    ([N, P, A], 0),
    ([N, N, H], 0),
    ([H, H, H], 0),
];

// Asserts what is found where this is put over a file.
fn assert_over(
    rt: &impl Abort,
    alloc: Global,
    file: &File,
    left: &[Left; 3],
    over: &[Put],
    answer: Answer,
) {
    let written = written_file(rt, alloc, file, left, over);
    assert_eq!(rt; found(rt, alloc, file, &written), answer);
}

// The slot after this many ops of the group, where nothing was ever written.
fn blamed(file: &File, ops: u64) -> Answer {
    let op = file.tail.min(32) + 1;
    damaged(Zone::WalPrepares, (op + ops.min(3)) % 32, Class::Blank)
}

// Asserts what is found of each group of a file whose replies are stored up to its tail's end.
fn assert_groups(rt: &impl Abort, alloc: Global, file: &File) {
    let tail = file.tail.min(32);
    for (left, mends) in &WHOLE {
        assert_over(rt, alloc, file, left, &[], Ok((tail + 3, tail, *mends)));
    }
    for left in &CUT {
        assert_over(rt, alloc, file, left, &[], Ok((tail, tail, 0)));
    }
    for (left, ops) in &TOLD {
        assert_over(rt, alloc, file, left, &[], blamed(file, *ops));
    }
}

// A tail of this many ops, the head that the superblock names, and the boot of a group after the tail.
fn file_of(tail: u64, named: u64, boot: u64) -> File {
    File { tail, named, boot }
}

// Ends of a tail, with the head that the superblock names: after them a group lies in ops 5 to 7, with its headers in one sector; in ops
// 15 to 17, with its headers in two; in ops 30 to 32, past the end of the ring, in slots 30, 31 and 0; and in ops 5 to 7, right after the
// named head.
const ENDS: [(u64, u64); 4] = [(4, 2), (14, 2), (29, 2), (4, 4)];

#[test]
fn a_group_is_found_whole_or_not_at_all_wherever_it_lies(rt: HostRuntime) {
    for (tail, named) in &ENDS {
        assert_groups(&rt, rt.alloc(), &file_of(*tail, *named, 3));
    }
}

// Whatever is left of it, the state before is found, and nothing is to be mended.
#[test]
fn a_group_of_an_earlier_boot_is_passed_over(rt: HostRuntime) {
    let file = file_of(14, 2, 2);
    for (left, _) in &WHOLE {
        assert_over(&rt, rt.alloc(), &file, left, &[], Ok((14, 14, 0)));
    }
    for left in &CUT {
        assert_over(&rt, rt.alloc(), &file, left, &[], Ok((14, 14, 0)));
    }
    for (left, _) in &TOLD {
        assert_over(&rt, rt.alloc(), &file, left, &[], Ok((14, 14, 0)));
    }
}

// The first sector of the prepare of an op.
fn sector_of(op: u64) -> u64 {
    6 + 2 * op.min(31)
}

const ALL: [Left; 3] = [A, A, A];

// Ops 5 to 7 were settled, and then one of their prepares is hurt: its slot is blamed, whichever it is. Where the whole group is shown and a
// header of op 8, the slot after it is.
#[test]
fn a_hurt_prepare_of_a_settled_group_is_blamed(rt: HostRuntime) {
    let file = file_of(4, 2, 3);
    for op in [5u64, 6, 7] {
        let blamed = damaged(Zone::WalPrepares, op, Class::Garbled);
        assert_over(
            &rt,
            rt.alloc(),
            &file,
            &ALL,
            &[Put::Hurt(sector_of(op))],
            blamed,
        );
    }
    let later = Put::Header(prepare(8, NONE, 8, 1, 4, 3));
    let blamed = damaged(Zone::WalPrepares, 8, Class::Blank);
    assert_over(&rt, rt.alloc(), &file, &ALL, &[later], blamed);
}

// All headers of the last group are lost, and one of its prepares: nothing tells of it, and the state before is found. Of the sixteen
// headers of that sector each is to be written again.
#[test]
fn a_group_that_lost_all_headers_and_a_prepare_leaves_no_trace(rt: HostRuntime) {
    let file = file_of(4, 2, 3);
    assert_over(
        &rt,
        rt.alloc(),
        &file,
        &ALL,
        &[Put::Hurt(4)],
        Ok((7, 4, 16)),
    );
    for op in [5u64, 6, 7] {
        let hurt = [Put::Hurt(4), Put::Hurt(sector_of(op))];
        assert_over(&rt, rt.alloc(), &file, &ALL, &hurt, Ok((4, 4, 16)));
    }
}

// What an earlier boot left in the slot of a group's missing member is another unit there, and no part of the group.
#[test]
fn a_survivor_of_an_earlier_boot_is_no_part_of_a_group(rt: HostRuntime) {
    let file = file_of(4, 2, 3);
    let older = Unit {
        group: (5, 7),
        ..prepare(6, NONE, 6, 1, 4, 2)
    };
    let over = [Put::Prepare(older)];
    assert_over(&rt, rt.alloc(), &file, &[P, N, P], &over, Ok((4, 4, 0)));
    let blamed = damaged(Zone::WalPrepares, 6, Class::Stale);
    assert_over(&rt, rt.alloc(), &file, &[A, N, P], &over, blamed);
}

// Ops 5 to 7 are of boot 2 and named: up to 7, where the group ends; and up to 6, within it.
#[test]
fn a_group_at_the_named_head_ends_there(rt: HostRuntime) {
    let whole = file_of(4, 7, 2);
    let rows = [
        (ALL, Ok((7, 4, 0))),
        ([P, P, P], Ok((7, 4, 3))),
        ([A, A, N], damaged(Zone::WalPrepares, 7, Class::Blank)),
        ([A, H, A], damaged(Zone::WalPrepares, 6, Class::Blank)),
        ([N, N, A], damaged(Zone::WalPrepares, 6, Class::Blank)),
    ];
    for (left, answer) in &rows {
        assert_over(&rt, rt.alloc(), &whole, left, &[], *answer);
    }
    let within = file_of(4, 6, 2);
    let blamed = damaged(Zone::WalPrepares, 6, Class::Stale);
    assert_over(&rt, rt.alloc(), &within, &ALL, &[], blamed);
}
