// Replies that a superblock names by their checksums: no other one stands for them, whatever its boot is.
use crate::tests::replies::{FIRST, FIRST_LACKS, SECOND, SECOND_LACKS, of_boot};
use crate::tests::stored::{Board, Stored, ask, fields_of, new_table, put, scan};
use df_format::SuperFields;
use df_replies::Lacking;
use df_sessions::SessionTable;
use std::alloc::Global;
use std::process::Abort;

// What a superblock of boot 4 finds missing, which names the replies up to this op, of boot 3: that to the first session as it is
// before another one stands there, and that to the second.
fn lacking_of_named(
    rt: &impl Abort,
    alloc: Global,
    named: &Stored,
    shown: &Stored,
    replies: u64,
) -> Option<Lacking> {
    let mut board = Board::failing(rt, alloc, 0, 0);
    let second = of_boot(SECOND, 3);
    assert!(rt; put(rt, alloc, &mut board, named, &[]) == Ok(()));
    assert!(rt; put(rt, alloc, &mut board, &second, &[]) == Ok(()));
    let mut table = new_table(rt, alloc);
    assert!(rt; scan(rt, alloc, &mut board, &mut table) == Ok(()));
    let mut fields = SuperFields {
        replies,
        ..fields_of(4)
    };
    for place in 0..2u32 {
        if let Ok(header) = table.get(place) {
            let checksum = header.checksum;
            fields.reply_checksums[place as usize] = checksum;
        }
    }
    assert!(rt; put(rt, alloc, &mut board, shown, &[]) == Ok(()));
    assert!(rt; scan(rt, alloc, &mut board, &mut table) == Ok(()));
    let mut sessions = SessionTable::new(4);
    ask(&mut sessions, &FIRST);
    ask(&mut sessions, &SECOND);
    table.first_lacking(&sessions, 6, &fields)
}

#[test]
fn a_named_reply_is_known_by_its_checksum(rt: HostRuntime) {
    let first = of_boot(FIRST, 3);
    let longer = Stored { ahead: 7, ..first };
    let foreign = Stored { client: 3, ..first };
    let own = of_boot(FIRST, 4);
    let cases = [
        ("both are named and shown", first, first, 6, None),
        (
            "another reply to the request",
            first,
            longer,
            6,
            FIRST_LACKS,
        ),
        ("one of the boot itself", first, own, 6, FIRST_LACKS),
        (
            "another client's is named",
            foreign,
            foreign,
            6,
            FIRST_LACKS,
        ),
        ("the second isn't named", first, first, 5, SECOND_LACKS),
        ("nor is the first", first, first, 4, FIRST_LACKS),
        ("the first is of the boot", first, own, 4, SECOND_LACKS),
    ];
    for (name, named, shown, replies, lacking) in &cases {
        let found = lacking_of_named(&rt, rt.alloc(), named, shown, *replies);
        assert!(rt; found == *lacking, "{name}");
    }
}
