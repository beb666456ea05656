// The printed lines of the commands on blocks and checkpoints, as the worked sessions give them.
use crate::tests::printed::{Row, expect, expect_rows, header, new_sink};
use df_base::{Failed, MemorySink};
use df_format::Kind;
use df_inspect::print_block;
use df_layout::{Class, Place, Zone};
use df_model::{
    Answer, BeginError, BlockError, Command, NotLive, Progress, ReadError, Reference, Scrubbed,
    StepError, Verdict,
};

const WRITE: Command = Command::WriteBlock { kind: 1, body: b"" };

const RELEASE: Command = Command::Release { address: 16_384 };

const BEGIN: Command = Command::Begin { root: b"" };

const READ: Command = Command::ReadBlock { address: 4 };

const PLACE: Place = Place {
    zone: Zone::Superblock,
    index: 0,
};

const WROTE: [Answer; 4] = [
    Answer::WriteBlock(Ok(Reference {
        address: 1,
        checksum: [1; 16],
    })),
    Answer::WriteBlock(Err(BlockError::KindZero)),
    Answer::WriteBlock(Err(BlockError::BodyTooLong { max: 16_128 })),
    Answer::WriteBlock(Err(BlockError::GridFull { blocks: 64 })),
];

const WROTE_LINES: &str = "wrote 1\n\
    refused KindZero\n\
    refused BodyTooLong max 16128\n\
    refused GridFull blocks 64\n";

const RELEASED: [Answer; 2] = [Answer::Release(Ok(())), Answer::Release(Err(NotLive))];

const BEGUN: [Answer; 5] = [
    Answer::Begin(Ok(1)),
    Answer::Begin(Err(BeginError::Running { left: 2 })),
    Answer::Begin(Err(BeginError::RootTooLong { max: 1024 })),
    Answer::Begin(Err(BeginError::GridFull { needed: 1, free: 0 })),
    Answer::Begin(Err(BeginError::SequenceSpent)),
];

const BEGUN_LINES: &str = "begun 1\n\
    refused Running left 2\n\
    refused RootTooLong max 1024\n\
    refused GridFull needed 1 free 0\n\
    refused SequenceSpent\n";

const ADVANCED: [Answer; 4] = [
    Answer::Advance(Ok(Progress::Working { left: 1 })),
    Answer::Advance(Ok(Progress::Done { sequence: 2 })),
    Answer::Advance(Err(StepError::NotRunning)),
    Answer::Advance(Err(StepError::Damaged {
        place: PLACE,
        class: Class::Stale,
    })),
];

const ADVANCED_LINES: &str = "working 1\n\
    done 2\n\
    refused NotRunning\n\
    refused Damaged Superblock 0 Stale\n";

const READS: [Answer; 2] = [
    Answer::ReadBlock(Err(ReadError::NotLive)),
    Answer::ReadBlock(Err(ReadError::Damaged {
        place: PLACE,
        class: Class::Stale,
    })),
];

const SCRUBBED: [Answer; 3] = [
    Answer::Scrub(Scrubbed::Checked {
        address: 1,
        verdict: Verdict::Sound,
    }),
    Answer::Scrub(Scrubbed::Checked {
        address: 2,
        verdict: Verdict::Failing(Class::Garbled),
    }),
    Answer::Scrub(Scrubbed::TourEnd {
        checked: 6,
        failing: 2,
    }),
];

const ROWS: [Row; 6] = [
    (WRITE, &WROTE, WROTE_LINES),
    (RELEASE, &RELEASED, "released 16384\nrefused NotLive\n"),
    (BEGIN, &BEGUN, BEGUN_LINES),
    (Command::Advance, &ADVANCED, ADVANCED_LINES),
    (
        READ,
        &READS,
        "refused NotLive\nrefused Damaged Superblock 0 Stale\n",
    ),
    (
        Command::Scrub,
        &SCRUBBED,
        "checked 1 Sound\nchecked 2 Garbled\ntour 6 2\n",
    ),
];

#[test]
fn an_answer_on_blocks_has_its_line(rt: HostRuntime) {
    expect_rows(&rt, rt.alloc(), &ROWS);
}

// A block's address, its kind and its body.
const SHOWN: [(u64, u8, &[u8]); 2] = [(4, 1, b"\xbb"), (u64::MAX, 255, b"")];

fn print_blocks(sink: &mut MemorySink) -> Result<(), Failed> {
    let mut block = header(Kind::Block, 4, 0, 0, 0, 1);
    for (address, kind, body) in &SHOWN {
        block.block_kind = *kind;
        print_block(sink, *address, &block, body)?;
    }
    Ok(())
}

const BLOCKS: &str = "block 4 kind 1 body bb\n\
    block 18446744073709551615 kind 255 body -\n";

#[test]
fn blocks_are_shown_with_their_bodies(rt: HostRuntime) {
    let mut sink = new_sink(rt.alloc());
    let done = print_blocks(&mut sink);
    expect(&rt, done, &sink, BLOCKS);
}
