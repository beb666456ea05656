// The printed reports, as the worked sessions give them.
use crate::tests::printed::{expect, failing_sink, new_sink};
use df_base::{Failed, MemorySink};
use df_inspect::{
    Workload, print_failing, print_inspection, print_recent, print_summary, print_tour,
    print_workload,
};
use df_layout::{Class, Finding, Layout, Mend, Place, Zone};
use df_model::Summary;
use df_sessions::Session;

// A file of layout `small` and cluster 7.
fn summary(sequence: u64, op: u64, sessions: u64) -> Summary {
    Summary {
        cluster: 7,
        layout: Layout::small(),
        sequence,
        checkpoint_op: op,
        head: op,
        replies: op,
        sessions,
        references: 0,
    }
}

fn session(client: u128, request: u64, op: u64, stored: bool) -> Session {
    Session {
        client,
        request,
        op,
        reply: if stored { Some([1; 16]) } else { None },
    }
}

fn mend(zone: Zone, index: u64, class: Class) -> Mend {
    Mend {
        place: Place { zone, index },
        class,
    }
}

const LONG_SESSION: &str =
    "cluster 7\nlayout 32 8192 4 16384 64\nsequence 11\ncheckpoint 200\nhead 200\nreplies 200\n\
    sessions 4\nreferences 0\nroot -\nsession 0 client 1 request 50 op 197 stored\n\
    session 1 client 2 request 50 op 198 stored\nsession 2 client 3 request 50 op 199 stored\n\
    session 3 client 4 request 50 op 200 stored\nfindings 0\n";

#[test]
fn a_long_session_is_inspected(rt: HostRuntime) {
    let sessions = [
        session(1, 50, 197, true),
        session(2, 50, 198, true),
        session(3, 50, 199, true),
        session(4, 50, 200, true),
    ];
    let mut sink = new_sink(rt.alloc());
    let done = print_inspection(&mut sink, &summary(11, 200, 4), b"", &sessions, &[]);
    expect(&rt, done, &sink, LONG_SESSION);
}

// What is inspected of a file with a session whose reply isn't stored, and two places to be mended.
fn print_hurt_file(sink: &mut MemorySink) -> Result<(), Failed> {
    let sessions = [session(u128::MAX, 1, 1, false)];
    let mends = [
        mend(Zone::Superblock, 0, Class::Stale),
        mend(Zone::WalHeaders, 16, Class::Garbled),
    ];
    print_inspection(sink, &summary(2, 1, 1), b"\x02", &sessions, &mends)
}

const HURT_FILE: &str =
    "cluster 7\nlayout 32 8192 4 16384 64\nsequence 2\ncheckpoint 1\nhead 1\nreplies 1\nsessions 1\n\
    references 0\nroot 02\n\
    session 0 client 340282366920938463463374607431768211455 request 1 op 1 pending\n\
    mend Superblock 0 Stale\nmend WalHeaders 16 Garbled\nfindings 2\n";

#[test]
fn what_is_to_be_mended_is_listed(rt: HostRuntime) {
    let mut sink = new_sink(rt.alloc());
    let done = print_hurt_file(&mut sink);
    expect(&rt, done, &sink, HURT_FILE);
}

#[test]
fn a_failing_sink_has_a_front_of_the_report(rt: HostRuntime) {
    for call in 1u64..9 {
        let mut sink = failing_sink(&rt, rt.alloc(), call);
        assert!(rt; print_hurt_file(&mut sink) == Err(Failed));
        assert!(rt; HURT_FILE.as_bytes().starts_with(sink.bytes()));
        assert!(rt; sink.bytes().len() < HURT_FILE.len());
    }
}

const FINDINGS: [Finding; 2] = [
    Finding {
        address: 2,
        class: Class::Garbled,
    },
    Finding {
        address: 4,
        class: Class::Garbled,
    },
];

fn print_ring(sink: &mut MemorySink) -> Result<(), Failed> {
    print_recent(sink, &[])?;
    print_recent(sink, &FINDINGS)
}

fn print_tours(sink: &mut MemorySink) -> Result<(), Failed> {
    for finding in &FINDINGS {
        print_failing(sink, *finding)?;
    }
    print_tour(sink, 6, 2)?;
    print_tour(sink, 6, 0)
}

fn print_ring_and_tours(sink: &mut MemorySink) -> Result<(), Failed> {
    print_ring(sink)?;
    print_tours(sink)
}

const RING_AND_TOUR: &str =
    "recent 0\nrecent 2 2 Garbled 4 Garbled\nfailing 2 Garbled\nfailing 4 Garbled\ntour 6 2\n\
    tour 6 0\n";

#[test]
fn the_ring_and_a_tour_are_shown(rt: HostRuntime) {
    let mut sink = new_sink(rt.alloc());
    let done = print_ring_and_tours(&mut sink);
    expect(&rt, done, &sink, RING_AND_TOUR);
}

const COUNTED: Workload = Workload {
    appended: 3,
    replied: 3,
    wrote: 0,
    released: 0,
    checkpoints: 0,
    refused: 0,
    bytes: 2231,
    head: 3,
    replies: 3,
    sequence: 1,
};

const GENERATED_RUN: &str =
    "appended 3\nreplied 3\nwrote 0\nreleased 0\ncheckpoints 0\nrefused 0\nbytes 2231\nhead 3\n\
    replies 3\nsequence 1\n";

#[test]
fn a_generated_run_is_counted(rt: HostRuntime) {
    let mut sink = new_sink(rt.alloc());
    let done = print_workload(&mut sink, &COUNTED);
    expect(&rt, done, &sink, GENERATED_RUN);
}

const GREATEST: &str =
    "cluster 340282366920938463463374607431768211455\nlayout 32 8192 4 16384 64\n\
    sequence 18446744073709551615\ncheckpoint 18446744073709551615\nhead 18446744073709551615\n\
    replies 18446744073709551615\nsessions 18446744073709551615\nreferences 18446744073709551615\n";

#[test]
fn the_greatest_numbers_fit(rt: HostRuntime) {
    let mut greatest = summary(u64::MAX, u64::MAX, u64::MAX);
    greatest.cluster = u128::MAX;
    greatest.references = u64::MAX;
    let mut sink = new_sink(rt.alloc());
    let done = print_summary(&mut sink, &greatest);
    expect(&rt, done, &sink, GREATEST);
}
