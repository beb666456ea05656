// How far prepares go on after a checkpoint of op 4, and where the last whole group among them ends. Expected values are those of the
// rules on groups, worked out by hand.
ghost use Rattle.std.specs.Prelude.{◌≡◌, ◌≤◌};

use df_format::{Header, Kind};
use df_group::{
    Position, Tail, empty_tail, goes_on, groups_follow_one_another, keep_whole, position_behind,
    position_of,
};
use df_sessions::SessionTable;
use std::alloc::Global;
use std::process::Abort;

// The prepare of an op, with the first and the last op of its group, or with no group where these are 0. Its client asks for the first
// time, and as many replies were stored as the checkpoint's op.
fn prepare(op: u8, group: u8, group_last: u8) -> Header {
    Header {
        checksum: [op; 16],
        parent: [op.saturating_sub(1); 16],
        client: u128::from(op),
        op: u64::from(op),
        request: 1,
        mark: 4,
        checkpoint: 1,
        version: 2,
        boot: 3,
        group: u64::from(group),
        group_last: u64::from(group_last),
        ..Header::of(Kind::Prepare, 7)
    }
}

// Where a walk along these prepares stands, with the sessions there, and where its last whole group ends, with the sessions there.
#[derive(Drop)]
struct Walk {
    at: Position,
    ahead: SessionTable,
    tail: Tail,
    sessions: SessionTable,
    ghost places: { ahead.max ≡ 64 },
}

// A walk that begins after the checkpoint.
fn begun() -> Walk {
    let tail = empty_tail(4, &[4; 16]);
    Walk {
        at: position_behind(&tail),
        ahead: SessionTable::new(64),
        tail,
        sessions: SessionTable::new(64),
    }
}

// Goes on to the next prepare, if it fits where the walk stands, and says whether it did.
fn step(rt: &impl Abort, walk: &mut Walk, head: u64, next: &Header) -> bool {
    assert!(rt; next.client > 0 && next.op > 0 && next.op - 1 == walk.at.last.op);
    let at = position_of(next);
    if at.group_last < next.op || !goes_on(head, &walk.at, &walk.ahead, 64, next) {
        return false;
    }
    assert!(rt; walk.ahead.len() < 64);
    walk.ahead.apply(next.client, next.request, next.op);
    walk.at = at;
    keep_whole(&walk.at, &walk.ahead, &mut walk.tail, &mut walk.sessions);
    true
}

// The ops of the tail and of the reach that are found of these prepares, where the superblock names a head.
fn found(rt: &impl Abort, taken: &[Header], head: u64) -> (u64, u64) {
    let mut walk = begun();
    for next in taken {
        if !step(rt, &mut walk, head, next) {
            return (walk.tail.op, walk.at.last.op);
        }
    }
    (walk.tail.op, walk.at.last.op)
}

// The groups of ops 5 to 8, each by its first and its last op; the head that the superblock names; and the ops of the tail and of the
// reach, where those ops are there up to 4, 5, 6, 7 and 8.
type Row = (&'static str, [(u8, u8); 4], u64, [(u64, u64); 5]);

const ROWS: [Row; 13] = [
    (
        "groups of one",
        [(5, 5), (6, 6), (7, 7), (8, 8)],
        4,
        [(4, 4), (5, 5), (6, 6), (7, 7), (8, 8)],
    ),
    (
        "prepares without a group, as in version 1",
        [(0, 0), (0, 0), (0, 0), (0, 0)],
        4,
        [(4, 4), (5, 5), (6, 6), (7, 7), (8, 8)],
    ),
    (
        "groups of two",
        [(5, 6), (5, 6), (7, 8), (7, 8)],
        4,
        [(4, 4), (4, 5), (6, 6), (6, 7), (8, 8)],
    ),
    (
        "a group of two between groups of one",
        [(5, 5), (6, 7), (6, 7), (8, 8)],
        4,
        [(4, 4), (5, 5), (5, 6), (7, 7), (8, 8)],
    ),
    (
        "a group after the head that is named",
        [(5, 6), (5, 6), (7, 8), (7, 8)],
        6,
        [(4, 4), (4, 5), (6, 6), (6, 7), (8, 8)],
    ),
    (
        "a group that ends at that head",
        [(5, 8), (5, 8), (5, 8), (5, 8)],
        8,
        [(4, 4), (4, 5), (4, 6), (4, 7), (8, 8)],
    ),
    (
        "a group that goes on past that head",
        [(5, 7), (5, 7), (5, 7), (8, 8)],
        6,
        [(4, 4), (4, 5), (4, 5), (4, 5), (4, 5)],
    ),
    (
        "a second group before the first is over",
        [(5, 6), (6, 6), (7, 7), (8, 8)],
        4,
        [(4, 4), (4, 5), (4, 5), (4, 5), (4, 5)],
    ),
    (
        "another group of the same length",
        [(5, 6), (6, 7), (7, 8), (7, 8)],
        4,
        [(4, 4), (4, 5), (4, 5), (4, 5), (4, 5)],
    ),
    (
        "another group with the same first op",
        [(5, 7), (5, 6), (7, 7), (8, 8)],
        4,
        [(4, 4), (4, 5), (4, 5), (4, 5), (4, 5)],
    ),
    (
        "a group that goes on after its last",
        [(5, 6), (5, 6), (5, 8), (5, 8)],
        4,
        [(4, 4), (4, 5), (6, 6), (6, 6), (6, 6)],
    ),
    (
        "a group whose first op is the checkpoint's",
        [(4, 5), (6, 6), (7, 7), (8, 8)],
        4,
        [(4, 4), (4, 4), (4, 4), (4, 4), (4, 4)],
    ),
    (
        "a group that ends below its own op",
        [(5, 5), (6, 5), (7, 7), (8, 8)],
        4,
        [(4, 4), (5, 5), (5, 5), (5, 5), (5, 5)],
    ),
];

// The prepares of four ops, with these groups.
fn four(groups: &[(u8, u8); 4]) -> [Header; 4] {
    let [five, six, seven, eight] = *groups;
    [
        prepare(5, five.0, five.1),
        prepare(6, six.0, six.1),
        prepare(7, seven.0, seven.1),
        prepare(8, eight.0, eight.1),
    ]
}

fn assert_row(rt: &impl Abort, row: &Row) {
    let (name, groups, head, wanted) = row;
    let all = four(groups);
    for count in 0..5usize {
        assert!(rt; found(rt, &all[..count], *head) == wanted[count], "{name}");
    }
}

#[test]
fn a_tail_ends_with_a_whole_group(rt: HostRuntime) {
    groups_follow_one_another();
    for row in &ROWS {
        assert_row(&rt, row);
    }
}

// The first prepares of a group of eight.
fn front_of_eight(rt: &impl Abort, alloc: Global, count: u8) -> Vec<Header>
    requires { count ≤ 8 }
{
    let mut all = Vec::new(alloc);
    for place in 0..count {
        all.push(prepare(5 + place, 5, 12))
            .expect(rt, "memory of a prepare");
    }
    all
}

#[test]
fn a_group_of_eight_counts_with_its_last(rt: HostRuntime) {
    for count in 0..8u8 {
        let all = front_of_eight(&rt, rt.alloc(), count);
        assert!(rt; found(&rt, &all, 4) == (4, 4 + u64::from(count)));
    }
    let all = front_of_eight(&rt, rt.alloc(), 8);
    assert!(rt; found(&rt, &all, 4) == (12, 12));
}
