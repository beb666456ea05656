// What no clause says: that the calls come together over a disk in memory, what an open answers of some files, and that a failed
// call is answered and forgotten by the next. Expected values are those of the order of open, worked out by hand.
ghost use Rattle.std.specs.Prelude.{◌≡◌};
ghost use Rattle.df_layout.specs.declared.places.Zone.{Zone as AnyZone};

use crate::tests::stored::{Board, Stored, ask, fields_of, new_table, put, room_for, scan};
use df_buffers::{Identity, Raw, Reply, Wanted};
use df_disk::Disk;
use df_layout::{Class, Layout, Place, Zone};
use df_replies::{Lacking, read_reply_slot, scanned_replies_are_shown, stored_replies_are_found};
use df_sessions::SessionTable;
use df_stamps::Counters;
use std::alloc::Global;
use std::process::Abort;

// The sessions of four clients, each after its second request.
fn four_sessions() -> SessionTable
    ensures { result.max ≡ 4 }
{
    let mut sessions = SessionTable::new(4);
    ask(&mut sessions, &turn_of(4));
    ask(&mut sessions, &turn_of(5));
    ask(&mut sessions, &turn_of(6));
    ask(&mut sessions, &turn_of(7));
    sessions
}

// The replies to two requests of each of four clients, in turn.
fn turn_of(turn: u8) -> Stored {
    Stored {
        client: turn % 4 + 1,
        request: turn / 4 + 1,
        op: turn.saturating_add(1),
        boot: None,
        ahead: 0,
        checkpoint: 1,
        slot: turn % 4,
    }
}

#[test]
fn the_second_reply_of_the_third_of_four_clients_is_torn(rt: HostRuntime) {
    scanned_replies_are_shown();
    stored_replies_are_found();
    let mut board = Board::failing(&rt, rt.alloc(), 0, 0);
    let mut before = [0u8; 4096];
    for turn in 0..8u8 {
        let body = [turn; 5000];
        assert!(rt; put(&rt, rt.alloc(), &mut board, &turn_of(turn), &body) == Ok(()));
        if turn == 3 {
            assert!(rt; board.read(75, &mut before) == Ok(()));
        }
    }
    let sessions = four_sessions();
    let mut table = new_table(&rt, rt.alloc());
    assert!(rt; scan(&rt, rt.alloc(), &mut board, &mut table) == Ok(()));
    assert!(rt;
        table.replies(4, 3, 0) == 8 && table.first_lacking(&sessions, 8, &fields_of(0)) == None
    );
    assert!(rt; board.write(75, &before) == Ok(()));
    assert!(rt; scan(&rt, rt.alloc(), &mut board, &mut table) == Ok(()));
    assert!(rt; table.get(2).err() == Some(Class::Garbled) && table.replies(4, 3, 0) == 8);
    let lacking = Lacking {
        place: 2,
        class: Class::Garbled,
    };
    assert!(rt; table.first_lacking(&sessions, 8, &fields_of(0)) == Some(lacking));
    assert!(rt; table.first_lacking(&sessions, 6, &fields_of(0)) == None);
}

pub(crate) const FIRST: Stored = Stored {
    client: 1,
    request: 2,
    op: 5,
    boot: None,
    ahead: 1,
    checkpoint: 1,
    slot: 0,
};

pub(crate) const SECOND: Stored = Stored {
    client: 2,
    request: 1,
    op: 6,
    boot: None,
    ahead: 0,
    checkpoint: 1,
    slot: 1,
};

// The place of the first or the second session, whose slot shows another reply.
pub(crate) const FIRST_LACKS: Option<Lacking> = Some(Lacking {
    place: 0,
    class: Class::Stale,
});

pub(crate) const SECOND_LACKS: Option<Lacking> = Some(Lacking {
    place: 1,
    class: Class::Stale,
});

// What is found in a boot where one more reply is written: the greatest op or mark of that boot's, the greatest checkpoint and the
// greatest boot of all, the number of replies, and whose reply is missing.
#[derive(Clone, Copy, Debug, PartialEq)]
struct Finding {
    top: u64,
    checkpoint: u64,
    boot: u64,
    replies: u64,
    lacking: Option<Lacking>,
}

// Of replies that are all of boot 0.
fn found(top: u64, checkpoint: u64, replies: u64, lacking: Option<Lacking>) -> Finding {
    Finding {
        top,
        checkpoint,
        boot: 0,
        replies,
        lacking,
    }
}

// A reply in a place that the table of sessions lacks.
const PAST: Stored = Stored {
    client: 9,
    request: 1,
    op: 9,
    boot: None,
    ahead: 0,
    checkpoint: 1,
    slot: 3,
};

// One more reply, over a file of two sessions whose replies are stored, and what is found then.
fn cases() -> [(&'static str, Stored, Finding); 7] {
    [
        ("the same reply again", FIRST, found(6, 1, 6, None)),
        ("a place that the table lacks", PAST, found(9, 1, 9, None)),
        (
            "an older request",
            Stored {
                request: 1,
                ..FIRST
            },
            found(6, 1, 6, FIRST_LACKS),
        ),
        (
            "an op of another prepare",
            Stored { op: 4, ..FIRST },
            found(6, 1, 6, FIRST_LACKS),
        ),
        (
            "another client's",
            Stored { client: 3, ..FIRST },
            found(6, 1, 6, FIRST_LACKS),
        ),
        (
            "a mark above the head",
            Stored { ahead: 20, ..FIRST },
            found(25, 1, 6, None),
        ),
        (
            "a later checkpoint",
            Stored {
                checkpoint: 7,
                ..FIRST
            },
            found(6, 7, 6, None),
        ),
    ]
}

// What is found of two sessions in this boot, where these replies were written in turn.
fn found_behind(rt: &impl Abort, alloc: Global, replies: &[Stored; 3], boot: u64) -> Finding {
    let mut board = Board::failing(rt, alloc, 0, 0);
    for reply in replies {
        assert!(rt; put(rt, alloc, &mut board, reply, &[]) == Ok(()));
    }
    let mut sessions = SessionTable::new(4);
    ask(&mut sessions, &FIRST);
    ask(&mut sessions, &SECOND);
    let mut table = new_table(rt, alloc);
    assert!(rt; scan(rt, alloc, &mut board, &mut table) == Ok(()));
    let seen = table.count(&Counters::default(), boot);
    assert!(rt; seen.ring_op == 0);
    Finding {
        top: seen.reply_top,
        checkpoint: seen.checkpoint,
        boot: seen.boot,
        replies: table.replies(0, 0, boot),
        lacking: table.first_lacking(&sessions, 6, &fields_of(boot)),
    }
}

#[test]
fn other_replies_in_a_slot_are_told_apart(rt: HostRuntime) {
    for (name, stored, finding) in &cases() {
        let found = found_behind(&rt, rt.alloc(), &[FIRST, SECOND, *stored], 0);
        assert!(rt; found == *finding, "{name}");
    }
}

// The same reply of this boot.
pub(crate) fn of_boot(stored: Stored, boot: u8) -> Stored {
    Stored {
        boot: Some(boot),
        ..stored
    }
}

// Where the greatest boot is this one.
fn found_in(boot: u64, replies: u64, lacking: Option<Lacking>) -> Finding {
    Finding {
        boot,
        ..found(6, 1, replies, lacking)
    }
}

// The replies to the two sessions and one more, the boot that is asked for, and what is found of it.
fn booted_cases() -> [(&'static str, [Stored; 3], u64, Finding); 5] {
    let first = of_boot(FIRST, 3);
    let second = of_boot(SECOND, 3);
    let greatest = Stored {
        op: 9,
        ahead: 20,
        ..first
    };
    let later = found_in(3, 6, FIRST_LACKS);
    let own = found_in(3, 6, None);
    [
        (
            "a reply of boot 3 where none is asked for",
            [FIRST, SECOND, first],
            0,
            later,
        ),
        (
            "with the greatest op and mark",
            [FIRST, SECOND, greatest],
            0,
            later,
        ),
        ("all are of boot 3", [first, second, first], 3, own),
        (
            "one is of an earlier boot",
            [first, SECOND, first],
            3,
            found_in(3, 5, SECOND_LACKS),
        ),
        (
            "one of a later boot",
            [first, second, of_boot(FIRST, 4)],
            3,
            found_in(4, 6, FIRST_LACKS),
        ),
    ]
}

#[test]
fn a_boot_has_its_own_replies(rt: HostRuntime) {
    for (name, replies, boot, finding) in &booted_cases() {
        let found = found_behind(&rt, rt.alloc(), replies, *boot);
        assert!(rt; found == *finding, "{name}");
    }
}

#[test]
fn each_slot_is_read_once_and_a_failed_call_is_answered_once(rt: HostRuntime) {
    for failing in 1..7u64 {
        let mut board = Board::failing(&rt, rt.alloc(), failing, failing);
        let written = put(&rt, rt.alloc(), &mut board, &FIRST, &[]);
        assert!(rt; written.is_err() == (failing <= 2));
        let made = board.calls;
        let mut table = new_table(&rt, rt.alloc());
        let scanned = scan(&rt, rt.alloc(), &mut board, &mut table);
        assert!(rt; scanned.is_err() == (2 < failing));
        assert!(rt; 2 < failing || board.calls.saturating_sub(made) == 4);
        assert!(rt; scan(&rt, rt.alloc(), &mut board, &mut table) == Ok(()));
        assert!(rt; table.get(0).is_ok() == (failing != 1), "call {failing}");
    }
}

// The second session's slot, where the reply to this request is wanted.
fn wanted(layout: &Layout, request: u64) -> Identity
    ensures layout { result.layout ≡ layout.now }
    ensures zone { result.place.zone ≡ AnyZone.ClientReplies }
{
    Identity {
        layout: *layout,
        cluster: 7,
        place: Place {
            zone: Zone::ClientReplies,
            index: 1,
        },
        wanted: Wanted::Answer {
            client: 2,
            request,
            op: 6,
        },
    }
}

// The length of the body of the reply to this request, and the room again.
fn length_of(layout: &Layout, room: Raw<Reply>, request: u64) -> (Raw<Reply>, Result<usize, Class>)
    requires { room.layout ≡ layout.now }
    ensures { result.0.layout ≡ layout.now }
{
    match room.prove(&wanted(layout, request)) {
        Ok(unit) => {
            let length = unit.body().len();
            (unit.loosen(), Ok(length))
        }
        Err((room, class)) => (room, Err(class)),
    }
}

#[test]
fn a_reply_is_read_by_its_request(rt: HostRuntime) {
    let layout = Layout::small();
    let mut board = Board::failing(&rt, rt.alloc(), 0, 0);
    assert!(rt; put(&rt, rt.alloc(), &mut board, &SECOND, &[9; 300]) == Ok(()));
    let mut room = room_for(&rt, rt.alloc(), &layout);
    assert!(rt; read_reply_slot(&mut board, &layout, 1, &mut room) == Ok(()));
    let (room, second) = length_of(&layout, room, 2);
    assert!(rt; second == Err(Class::Stale));
    let (_room, first) = length_of(&layout, room, 1);
    assert!(rt; first == Ok(300));
}
