// The printed lines of the log's commands, as the tables of printed texts and of the worked sessions give them.
use crate::tests::printed::{Row, expect, expect_rows, failing_sink, header, new_sink};
use df_base::{Failed, Sink};
use df_format::Kind;
use df_inspect::{print_formatted, print_prepare, print_reply, print_script, print_upgraded};
use df_layout::{Class, Place, Zone};
use df_model::{
    Answer, AppendError, Command, FlushError, LookupError, PrepareError, Receipt, ReplyError,
};
use std::alloc::{AllocError, Global};

const APPEND: Command = Command::Append {
    client: 5,
    request: 1,
    body: b"",
};

const STAGE: Command = Command::Stage {
    client: 5,
    request: 1,
    body: b"",
};

const REPLY: Command = Command::Reply { op: 10, body: b"" };

const READ: Command = Command::ReadPrepare { op: 3 };

const LOOKUP: Command = Command::ReadReply { client: 5 };

const APPENDS: [Answer; 13] = [
    Answer::Append(Ok(Receipt {
        op: 1,
        checksum: [1; 16],
    })),
    Answer::Append(Ok(Receipt {
        op: u64::MAX,
        checksum: [1; 16],
    })),
    Answer::Append(Err(AppendError::ClientZero)),
    Answer::Append(Err(AppendError::BodyTooLong { max: 7936 })),
    Answer::Append(Err(AppendError::ClientsFull { max: 4 })),
    Answer::Append(Err(AppendError::Repeated { op: 1 })),
    Answer::Append(Err(AppendError::ReplyPending { op: 2 })),
    Answer::Append(Err(AppendError::RequestOrder { expected: 2 })),
    Answer::Append(Err(AppendError::PipelineFull { waiting: 8 })),
    Answer::Append(Err(AppendError::WalFull {
        op: 33,
        checkpoint_op: 0,
    })),
    Answer::Append(Err(AppendError::OpsSpent)),
    Answer::Append(Err(AppendError::Staged { count: 8 })),
    Answer::Append(Err(AppendError::DiskFault)),
];

const APPEND_LINES: &str = "appended 1\n\
    appended 18446744073709551615\n\
    refused ClientZero\n\
    refused BodyTooLong max 7936\n\
    refused ClientsFull max 4\n\
    refused Repeated op 1\n\
    refused ReplyPending op 2\n\
    refused RequestOrder expected 2\n\
    refused PipelineFull waiting 8\n\
    refused WalFull op 33 checkpoint_op 0\n\
    refused OpsSpent\n\
    refused Staged count 8\n";

const STAGES: [Answer; 3] = [
    Answer::Stage(Ok(3)),
    Answer::Stage(Err(AppendError::ReplyPending { op: 1 })),
    Answer::Stage(Err(AppendError::PipelineFull { waiting: 8 })),
];

const STAGE_LINES: &str = "staged 3\n\
    refused ReplyPending op 1\n\
    refused PipelineFull waiting 8\n";

const FLUSHES: [Answer; 3] = [
    Answer::Flush(Ok(8)),
    Answer::Flush(Err(FlushError::NothingStaged)),
    Answer::Flush(Err(FlushError::DiskFault)),
];

const FLUSH_LINES: &str = "flushed 8\n\
    refused NothingStaged\n";

const REPLIES: [Answer; 5] = [
    Answer::Reply(Ok([1; 16])),
    Answer::Reply(Err(ReplyError::NothingPending { head: 0 })),
    Answer::Reply(Err(ReplyError::ReplyOrder { expected: 2 })),
    Answer::Reply(Err(ReplyError::BodyTooLong { max: 7936 })),
    Answer::Reply(Err(ReplyError::DiskFault)),
];

const REPLY_LINES: &str = "replied 10\n\
    refused NothingPending head 0\n\
    refused ReplyOrder expected 2\n\
    refused BodyTooLong max 7936\n";

const READS: [Answer; 3] = [
    Answer::ReadPrepare(Err(PrepareError::NotKept { first: 1, last: 2 })),
    Answer::ReadPrepare(Err(PrepareError::Damaged {
        place: Place {
            zone: Zone::WalPrepares,
            index: 3,
        },
        class: Class::Elsewhere(Place {
            zone: Zone::WalPrepares,
            index: 4,
        }),
    })),
    Answer::ReadPrepare(Err(PrepareError::DiskFault)),
];

const READ_LINES: &str = "refused NotKept first 1 last 2\n\
    refused Damaged WalPrepares 3 Elsewhere WalPrepares 4\n";

const LOOKUPS: [Answer; 4] = [
    Answer::ReadReply(Err(LookupError::NoClient)),
    Answer::ReadReply(Err(LookupError::ReplyPending { op: 2 })),
    Answer::ReadReply(Err(LookupError::Damaged {
        place: Place {
            zone: Zone::ClientReplies,
            index: 0,
        },
        class: Class::Garbled,
    })),
    Answer::ReadReply(Err(LookupError::DiskFault)),
];

const LOOKUP_LINES: &str = "refused NoClient\n\
    refused ReplyPending op 2\n\
    refused Damaged ClientReplies 0 Garbled\n";

const ROWS: [Row; 6] = [
    (APPEND, &APPENDS, APPEND_LINES),
    (STAGE, &STAGES, STAGE_LINES),
    (Command::Flush, &FLUSHES, FLUSH_LINES),
    (REPLY, &REPLIES, REPLY_LINES),
    (READ, &READS, READ_LINES),
    (LOOKUP, &LOOKUPS, LOOKUP_LINES),
];

#[test]
fn an_answer_is_a_word_and_a_number_and_a_refusal_says_why(rt: HostRuntime) {
    expect_rows(&rt, rt.alloc(), &ROWS);
}

#[test]
fn a_file_that_is_made_or_upgraded_and_a_bad_line_have_their_numbers(rt: HostRuntime) {
    let mut sink = new_sink(rt.alloc());
    for sectors in &[336, 2_375_808] {
        assert!(rt; print_formatted(&mut sink, *sectors) == Ok(()));
    }
    assert!(rt; print_upgraded(&mut sink, 9) == Ok(()));
    let done = print_script(&mut sink, 2);
    expect(
        &rt,
        done,
        &sink,
        "formatted 336\nformatted 2375808\nupgraded 9\nscript 2\n",
    );
}

#[test]
fn messages_are_shown_with_their_bodies(rt: HostRuntime) {
    let mut sink = new_sink(rt.alloc());
    let done = print_reply(&mut sink, &header(Kind::Reply, 1, 5, 1, 1, 1), b"\xaa");
    let reply = "reply 1 client 5 request 1 mark 1 checkpoint 1 body aa\n";
    expect(&rt, done, &sink, reply);
    let rows = [
        (
            header(Kind::Prepare, 2, 5, 2, 1, 1),
            b"\x01\x02".as_slice(),
            "prepare 2 client 5 request 2 mark 1 checkpoint 1 body 0102\n",
        ),
        (
            header(Kind::Prepare, u64::MAX, u128::MAX, u64::MAX, 0, u64::MAX),
            b"",
            "prepare 18446744073709551615 client 340282366920938463463374607431768211455 \
            request 18446744073709551615 mark 0 checkpoint 18446744073709551615 body -\n",
        ),
    ];
    for (header, body, line) in &rows {
        let mut sink = new_sink(rt.alloc());
        let done = print_prepare(&mut sink, header, body);
        expect(&rt, done, &sink, line);
    }
}

// The line of a prepare with that body.
fn long_line(alloc: Global) -> Result<Vec<u8>, AllocError> {
    let mut text = b"prepare 2 client 5 request 2 mark 1 checkpoint 1 body ".to_vec(alloc)?;
    for _ in 0..600u32 {
        text.extend_from_slice(b"fe")?;
    }
    text.push(b'\n')?;
    Ok(text)
}

#[test]
fn a_long_body_is_shown_in_pieces(rt: HostRuntime) {
    let mut sink = new_sink(rt.alloc());
    let header = header(Kind::Prepare, 2, 5, 2, 1, 1);
    assert!(rt; print_prepare(&mut sink, &header, &[0xfe; 600]) == Ok(()));
    let text = long_line(rt.alloc()).expect(&rt, "memory of a line");
    assert!(rt; sink.bytes() == text.as_slice());
}

// The call of the sink that fails, and what it was given before.
const FRONTS: [(u64, &str); 3] = [
    (1, ""),
    (2, "reply 1 client 5 request 1 mark 1 checkpoint 1 body "),
    (3, "reply 1 client 5 request 1 mark 1 checkpoint 1 body aa"),
];

#[test]
fn a_failing_sink_has_a_front_of_the_line(rt: HostRuntime) {
    for (call, front) in &FRONTS {
        let mut sink = failing_sink(&rt, rt.alloc(), *call);
        let printed = print_reply(&mut sink, &header(Kind::Reply, 1, 5, 1, 1, 1), b"\xaa");
        assert!(rt; printed == Err(Failed) && sink.bytes() == front.as_bytes());
    }
}
