// Worked tables: what a program that keeps one answers, without a file; a table that is full; and the bytes of rows and commands.
use crate::tests::printed::{expect, new_sink};
use df_base::{Failed, MemorySink};
use df_layout::{Layout, Place, Zone};
use df_lines::LineKind;
use df_rows::{
    Answer, Command, LONGEST_VALUE, Line, ObjectTable, ROW, Row, print_answer, print_not_table,
    rows_in_block,
};
use std::alloc::Global;
use std::process::Abort;

// The least layout: a block has 60 rows, and a table one block.
fn least() -> Layout {
    Layout {
        slots: 16,
        message_size: 4096,
        clients: 1,
        block_size: 4096,
        blocks: 8,
    }
}

// An empty table of a layout.
fn empty(rt: &impl Abort, alloc: Global, layout: &Layout) -> ObjectTable {
    ObjectTable::reserve(alloc, layout).expect(rt, "memory of a table")
}

// Answers a line as a program does that keeps no file, where the next prepare has this op. True where a prepare was made.
fn answer(
    table: &mut ObjectTable,
    sink: &mut MemorySink,
    line: Line,
    value: &[u8],
    op: u64,
) -> Result<bool, Failed> {
    if let Some(refusal) = table.refusal(&line) {
        print_answer(sink, &Answer::Refused(refusal))?;
        return Ok(false);
    }
    match line {
        Line::Put { key, .. } => {
            if value.len() <= LONGEST_VALUE {
                keep(table, Command::Put(Row::new(key, value)));
            }
            print_answer(sink, &Answer::Put { op })?;
            Ok(true)
        }
        Line::Drop { key } => {
            keep(table, Command::Drop(key));
            print_answer(sink, &Answer::Dropped { op })?;
            Ok(true)
        }
        Line::Get { key } => {
            let value = table.get(key).unwrap_or(&[]);
            print_answer(sink, &Answer::Found { key, value })?;
            Ok(false)
        }
        Line::Count => {
            print_answer(sink, &Answer::Counted { rows: table.len() })?;
            Ok(false)
        }
    }
}

// Applies the command that a body of these bytes is, as an open does with the prepares that it finds.
fn keep(table: &mut ObjectTable, command: Command) {
    let body = command.encode();
    if let Some(read) = Command::decode(body.as_slice()) {
        if table.can_apply(&read) {
            table.apply(read);
        }
    }
}

// The answers to these lines.
fn run(
    rt: &impl Abort,
    table: &mut ObjectTable,
    sink: &mut MemorySink,
    lines: &[&[u8]],
) -> Result<(), Failed> {
    let mut op = 1;
    for line in lines {
        let mut body = [9u8; 128];
        assert!(rt; line.len() <= 256);
        match Line::parse(line, &mut body) {
            Some(said) => {
                let length = length_of(said);
                assert!(rt; length <= body.len());
                if answer(table, sink, said, &body[..length], op)? {
                    assert!(rt; op < 1000);
                    op += 1;
                }
            }
            None => print_not_table(
                sink,
                Place {
                    zone: Zone::WalPrepares,
                    index: op,
                },
            )?,
        }
    }
    Ok(())
}

fn length_of(line: Line) -> usize {
    match line {
        Line::Put { length, .. } => length as usize,
        _ => 0,
    }
}

const LINES: [&[u8]; 16] = [
    b"put 9 aa",
    b"get 9",
    b"drop 9",
    b"get 9",
    b"count",
    b"drop 9",
    b"put 340282366920938463463374607431768211455 -",
    b"get 340282366920938463463374607431768211455",
    b"put 0 0001FF",
    b"put 0 bB",
    b"get 0",
    b"count",
    b"put 340282366920938463463374607431768211456 -",
    b"put 1",
    b"get 01",
    b"count 1",
];

const ANSWERS: &str = "put 1\n\
    9 aa\n\
    dropped 2\n\
    refused NoKey\n\
    count 0\n\
    refused NoKey\n\
    put 3\n\
    340282366920938463463374607431768211455 -\n\
    put 4\n\
    put 5\n\
    0 bb\n\
    count 2\n\
    refused NotTable WalPrepares 6\n\
    refused NotTable WalPrepares 6\n\
    refused NotTable WalPrepares 6\n\
    refused NotTable WalPrepares 6\n";

// Lines over a table, and what is printed of them.
fn expect_run(rt: &impl Abort, alloc: Global, mut table: ObjectTable, lines: &[&[u8]], text: &str) {
    let mut sink = new_sink(alloc);
    let done = run(rt, &mut table, &mut sink, lines);
    expect(rt, done, &sink, text);
}

#[test]
fn lines_are_answered_as_a_map_does(rt: HostRuntime) {
    let table = empty(&rt, rt.alloc(), &Layout::small());
    expect_run(&rt, rt.alloc(), table, &LINES, ANSWERS);
}

// A value of 47 bytes, and one of 48.
const LONG: [&[u8]; 3] = [
    b"put 1 0000000000000000000000000000000000000000000000000000000000000000000000000000000000000000000000",
    b"put 2 000000000000000000000000000000000000000000000000000000000000000000000000000000000000000000000000",
    b"count",
];

#[test]
fn a_value_has_at_most_47_bytes(rt: HostRuntime) {
    let table = empty(&rt, rt.alloc(), &least());
    let text = "put 1\nrefused ValueTooLong max 47\ncount 1\n";
    expect_run(&rt, rt.alloc(), table, &LONG, text);
}

// A table of rows with the keys below `count` that are put from the last to the first, each with its lowest byte as its value.
fn filled(rt: &impl Abort, alloc: Global, layout: &Layout, count: u32) -> ObjectTable {
    let mut table = empty(rt, alloc, layout);
    for k in (0..count).rev() {
        let value = [(k % 256) as u8];
        keep(&mut table, Command::Put(Row::new(u128::from(k), &value)));
    }
    table
}

const AT_THE_BOUND: [&[u8]; 6] = [
    b"count",
    b"put 60 aa",
    b"put 59 aa",
    b"get 59",
    b"drop 59",
    b"put 60 aa",
];

#[test]
fn a_full_table_refuses_new_keys(rt: HostRuntime) {
    let table = filled(&rt, rt.alloc(), &least(), 60);
    let text = "count 60\nrefused TableFull max 60\nput 1\n59 aa\ndropped 2\nput 3\n";
    expect_run(&rt, rt.alloc(), table, &AT_THE_BOUND, text);
}

// Puts the rows of a block at the front of `body`, and says how many bytes they are.
fn block_in(
    rt: &impl Abort,
    table: &ObjectTable,
    layout: &Layout,
    block: u64,
    body: &mut [u8],
) -> usize {
    assert!(rt; block < table.blocks(layout));
    assert!(rt; ROW * rows_in_block(layout) as usize <= body.len());
    table.put_block(layout, block, body)
}

// The table with the rows that the first bytes of `body` are.
fn taken(rt: &impl Abort, table: ObjectTable, body: &[u8], size: usize) -> Option<ObjectTable> {
    assert!(rt; size <= body.len());
    table.with_block(&body[..size])
}

// Zeros in the place of a block's body.
fn zeros(rt: &impl Abort, alloc: Global, size: usize) -> Vec<u8> {
    vec![in alloc; 0; size].expect(rt, "memory of a body")
}

// The table whose rows stand in the blocks of another one.
fn copied(rt: &impl Abort, alloc: Global, table: &ObjectTable) -> ObjectTable {
    let layout = Layout::small();
    let mut copy = empty(rt, alloc, &layout);
    let mut body = zeros(rt, alloc, 16_128);
    for block in 0..table.blocks(&layout) {
        let size = block_in(rt, table, &layout, block, &mut body);
        copy = taken(rt, copy, &body, size).expect(rt, "rows");
    }
    copy
}

// The table has the keys below 600, each with its lowest byte as its value.
fn expect_rows_in_order(rt: &impl Abort, table: &ObjectTable) {
    assert!(rt; table.len() == 600);
    for (k, row) in table.rows().iter().enumerate() {
        let value = [(k % 256) as u8];
        assert!(rt;
            row.key() == k as u128 && row.value() == value.as_slice(),
            "row {k}"
        );
    }
}

#[test]
fn the_blocks_of_a_table_are_the_table(rt: HostRuntime) {
    let table = filled(&rt, rt.alloc(), &Layout::small(), 600);
    assert!(rt; table.blocks(&Layout::small()) == 3);
    expect_rows_in_order(&rt, &copied(&rt, rt.alloc(), &table));
}

// How many rows an empty table takes of the first bytes of a block's body.
fn rows_taken(rt: &impl Abort, alloc: Global, body: &[u8], size: usize) -> Option<u64> {
    match taken(rt, empty(rt, alloc, &least()), body, size) {
        Some(table) => Some(table.len()),
        None => None,
    }
}

#[test]
fn a_block_is_taken_once_and_whole(rt: HostRuntime) {
    let table = filled(&rt, rt.alloc(), &least(), 3);
    let mut body = zeros(&rt, rt.alloc(), 3840);
    let size = block_in(&rt, &table, &least(), 0, &mut body);
    assert!(rt; size == 192);
    assert!(rt; taken(&rt, table, &body, 192).is_none());
    assert!(rt; rows_taken(&rt, rt.alloc(), &body, 191) == None);
    assert!(rt; rows_taken(&rt, rt.alloc(), &body, 0) == Some(0));
}

// A row of key 0x0102 whose value begins with aa: its length, and the byte after that.
fn row_bytes(length: u8, behind: u8) -> [u8; 64] {
    let mut bytes = [0u8; 64];
    bytes[0] = 2;
    bytes[1] = 1;
    bytes[16] = length;
    bytes[17] = 0xaa;
    bytes[18] = behind;
    bytes
}

#[test]
fn rows_and_commands_have_their_bytes(rt: HostRuntime) {
    let row = Row::new(0x0102, b"\xaa");
    assert!(rt; row.encode().as_slice() == row_bytes(1, 0).as_slice());
    let put = Command::Put(row).encode();
    assert!(rt; put.as_slice() == b"\x01\x02\x01\0\0\0\0\0\0\0\0\0\0\0\0\0\0\xaa".as_slice());
    let dropped = Command::Drop(0x0102).encode();
    assert!(rt; dropped.as_slice() == b"\x02\x02\x01\0\0\0\0\0\0\0\0\0\0\0\0\0\0".as_slice());
}

#[test]
fn bytes_that_are_no_rows_are_refused(rt: HostRuntime) {
    assert!(rt; Command::decode(&row_bytes(1, 0)[..16]).is_none());
    assert!(rt; Row::decode(&row_bytes(1, 1)).is_none());
    assert!(rt; Row::decode(&row_bytes(48, 1)).is_none());
}
