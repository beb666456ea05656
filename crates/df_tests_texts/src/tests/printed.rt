// What the tests of printed lines print, and into what: a header, a class, answers in rows, and a sink whose calls all succeed.
use df_base::{Failed, MemorySink};
use df_format::{Header, Kind};
use df_inspect::print_answer;
use df_layout::{Class, Place, Zone};
use df_model::{Answer, Command};
use std::alloc::Global;
use std::process::Abort;

pub(crate) fn elsewhere(zone: Zone, index: u64) -> Class {
    Class::Elsewhere(Place { zone, index })
}

pub(crate) fn new_sink(alloc: Global) -> MemorySink {
    MemorySink::new(alloc, Vec::new(alloc))
}

// A sink whose call of this number fails.
pub(crate) fn failing_sink(rt: &impl Abort, alloc: Global, call: u64) -> MemorySink {
    let failing = Vec::from_slice(alloc, &[call]).expect(rt, "memory of a list");
    MemorySink::new(alloc, failing)
}

// The header of a message, as far as a line shows it.
pub(crate) fn header(
    kind: Kind,
    op: u64,
    client: u128,
    request: u64,
    mark: u64,
    checkpoint: u64,
) -> Header {
    Header {
        checksum: [1; 16],
        checksum_body: [2; 16],
        parent: [3; 16],
        client,
        op,
        request,
        mark,
        checkpoint,
        size: 256,
        slot: 9,
        ..Header::of(kind, 7)
    }
}

// All was printed, and the sink was given this text.
pub(crate) fn expect(rt: &impl Abort, done: Result<(), Failed>, sink: &MemorySink, text: &str) {
    assert_eq!(rt; done, Ok(()));
    assert_eq!(rt; sink.bytes(), text.as_bytes());
}

// A command, what is answered to it, and the lines that are printed of that.
pub(crate) type Row = (Command<'static>, &'static [Answer], &'static str);

fn print_answers(
    sink: &mut MemorySink,
    command: &Command,
    answers: &[Answer],
) -> Result<(), Failed> {
    for answer in answers {
        print_answer(sink, command, answer)?;
    }
    Ok(())
}

pub(crate) fn expect_rows(rt: &impl Abort, alloc: Global, rows: &[Row]) {
    for (command, answers, text) in rows {
        let mut sink = new_sink(alloc);
        let done = print_answers(&mut sink, command, answers);
        expect(rt, done, &sink, text);
    }
}
