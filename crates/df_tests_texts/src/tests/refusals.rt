// Lines that are none.
use df_lines::{Line, LineKind};
use std::process::Abort;

// None of these is a line. A stroke stands between two of them.
fn expect_no_line(rt: &impl Abort, lines: &str) {
    for line in lines.split('|') {
        let mut body = [0u8; 40];
        let bytes = line.as_bytes();
        assert!(rt; bytes.len() <= 80);
        assert!(rt; Line::parse(bytes, &mut body) == None, "{line}");
    }
}

const NO_APPENDS: &str =
    "|append|append |append 5 1|append 5 1 |append 5  -|append 5 01 -|append 00 1 -|\
    append 340282366920938463463374607431768211456 1 -|append 5 18446744073709551616 -|append 5 1 abc|\
    append 5 1 ag|append 5 1 --|append  5 1 -|append 5 1  -|append 5 1 - |append 5 1 - -| append 5 1 -|\
    Append 5 1 -|append +5 1 -|append 5 -1 -|append\t5 1 -|append 5 1 -\r";

const NO_GROUPS: &str =
    "stage|stage |stage 5 1|stage 5  -|stage 5 01 -|stage 340282366920938463463374607431768211456 1 -|\
    stage 5 18446744073709551616 -|stage 5 1 abc|stage 5 1 - | stage 5 1 -|Stage 5 1 -|staged 5 1 -|\
    flush |flush 1|flush -| flush|flushed|Flush|flus";

const NO_READINGS: &str =
    "reply|reply 1|reply 1 |reply  -|reply 01 -|reply 18446744073709551616 -|reply 1 a|reply 1 - -|\
    prepare|prepare |prepare 02|prepare 18446744073709551616|prepare 2 -|prepare  2|lookup |\
    lookup 340282366920938463463374607431768211456|lookup 5 |lookup -";

const NO_BLOCKS: &str =
    "block|block 1|block 1 |block - 1|block 256 -|block 01 -|block 1  -|block 1 abc|block 1 aa |\
    block 1 aa bb|release|release |release 00|release 1 |release 1 2|release 18446744073709551616|read|\
    read -|read 01|read  1|read 1 |read 18446744073709551616|scrub |scrub 1|scrubs|Scrub|recent |\
    recent 0|recen";

const NO_CHECKPOINTS: &str =
    "checkpoint|checkpoint |checkpoint  -|checkpoint a|checkpoint 0g|checkpoint - |checkpoint aa bb|\
    Checkpoint -|step |step x|step -| step|steps|Step|ste";

#[test]
fn other_lines_are_refused(rt: HostRuntime) {
    for lines in &[
        NO_APPENDS,
        NO_GROUPS,
        NO_READINGS,
        NO_BLOCKS,
        NO_CHECKPOINTS,
    ] {
        expect_no_line(&rt, lines);
    }
}
