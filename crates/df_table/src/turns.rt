// The session over a script: one turn for each line, until there is none, one is refused, or something ends it.
ghost use Rattle.std.specs.Prelude.{◌≡◌, ◌<◌, ◌≤◌, ◌+◌, ℕ, List, Option, take, true, length, None};
ghost use Rattle.std.specs.FinMap as map;
ghost use Rattle.df_rows.specs.{Answers.{refusal_of}, Lines.{done_text}, Grammar.{Count, Drop, Get, Put, said_with, value_length}};
ghost use Rattle.df_rows.specs.declared.line.Line.TheVariants as lines;
ghost use Rattle.df_table.specs.{Outside.{EndsWithFile, HasTableCauses, back, failed, seen}, Ready.{IsSteady}};
ghost use Rattle.df_table.specs.Serving.{BlamesIfEnds, EndsTurn, ExecutesLine, IsReadyForNext, IsServing, OnGoing, ServingEnded, TableTurns, TellsLine, state};

use crate::appending::change;
use crate::ending::tell_ending;
use crate::session::Session;
use crate::status::Status;
use df_base::{Sink, Source};
use df_disk::Disk;
use df_lines::Next;
use df_program::{Outside, Turn, printed, refuse_line};
use df_rows::{Answer, Command, Line, Refusal, Row, print_answer};

// Puts the value that stands in the reader's buffer under a key.
fn put<D: Disk, W: Sink>(
    disk: &mut D,
    sink: &mut W,
    session: &mut Session,
    key: u128,
    size: u64,
) -> Turn<Status>
    requires serving { (at_end : Option (List ℕ)) × IsServing session.old.layout session.old at_end }
    requires size { size ≤ length session.old.lines.body }
    requires fine { refusal_of session.old.table (lines.Put key size) ≡ None }
    ensures executes { ExecutesLine session.old.layout (Put key (take size session.old.lines.body)) session.old session.new (D.told disk.old) (D.told disk.new)
        (W.written sink.old) (W.written sink.new) result }
    ensures disk { BlamesIfEnds Status.DiskFault (D.faults disk.old) (D.faults disk.new) result }
    ensures sink { BlamesIfEnds Status.WriteFault (W.faults sink.old) (W.faults sink.new) result }
{
    let row = Row::new(key, session.lines.body(size));
    match change(disk, session, Command::Put(row)) {
        Ok(op) => printed(print_answer(sink, &Answer::Put { op })),
        Err(ending) => Turn::Ends(tell_ending(sink, ending)),
    }
}

// Drops a key and its value.
fn drop_key<D: Disk, W: Sink>(
    disk: &mut D,
    sink: &mut W,
    session: &mut Session,
    key: u128,
) -> Turn<Status>
    requires serving { (at_end : Option (List ℕ)) × IsServing session.old.layout session.old at_end }
    requires fine { refusal_of session.old.table (lines.Drop key) ≡ None }
    ensures executes { ExecutesLine session.old.layout (Drop key) session.old session.new (D.told disk.old) (D.told disk.new) (W.written sink.old) (W.written sink.new) result }
    ensures disk { BlamesIfEnds Status.DiskFault (D.faults disk.old) (D.faults disk.new) result }
    ensures sink { BlamesIfEnds Status.WriteFault (W.faults sink.old) (W.faults sink.new) result }
{
    match change(disk, session, Command::Drop(key)) {
        Ok(op) => printed(print_answer(sink, &Answer::Dropped { op })),
        Err(ending) => Turn::Ends(tell_ending(sink, ending)),
    }
}

// Prints the value of a key that the table has.
fn get<W: Sink>(sink: &mut W, session: &Session, key: u128) -> Turn<Status>
    requires { map.contains_key session.now.table.rows key ≡ true }
    ensures tells { (n : ℕ) → TellsLine (done_text session.now.table n (Get key)) (W.written sink.old) (W.written sink.new) result }
    ensures sink { BlamesIfEnds Status.WriteFault (W.faults sink.old) (W.faults sink.new) result }
{
    match session.table.get(key) {
        Some(value) => printed(print_answer(sink, &Answer::Found { key, value })),
        None => printed(print_answer(sink, &Answer::Refused(Refusal::NoKey))),
    }
}

// Prints how many rows there are.
fn count<W: Sink>(sink: &mut W, session: &Session) -> Turn<Status>
    ensures tells { (n : ℕ) → TellsLine (done_text session.now.table n Count) (W.written sink.old) (W.written sink.new) result }
    ensures sink { BlamesIfEnds Status.WriteFault (W.faults sink.old) (W.faults sink.new) result }
{
    let rows = session.table.len();
    printed(print_answer(sink, &Answer::Counted { rows }))
}

// Does what a line says that isn't refused, and prints what it is answered.
fn perform<D: Disk, W: Sink>(
    disk: &mut D,
    sink: &mut W,
    session: &mut Session,
    line: Line,
) -> Turn<Status>
    requires serving { (at_end : Option (List ℕ)) × IsServing session.old.layout session.old at_end }
    requires size { value_length line ≤ length session.old.lines.body }
    requires fine { refusal_of session.old.table line ≡ None }
    ensures executes { ExecutesLine session.old.layout (said_with session.old.lines.body line) session.old session.new (D.told disk.old) (D.told disk.new)
        (W.written sink.old) (W.written sink.new) result }
    ensures disk { BlamesIfEnds Status.DiskFault (D.faults disk.old) (D.faults disk.new) result }
    ensures sink { BlamesIfEnds Status.WriteFault (W.faults sink.old) (W.faults sink.new) result }
{
    match line {
        Line::Put { key, length } => put(disk, sink, session, key, length),
        Line::Drop { key } => drop_key(disk, sink, session, key),
        Line::Get { key } => get(sink, session, key),
        Line::Count => count(sink, session),
    }
}

// Executes a line, whose value is in the reader's buffer, and prints what it is answered.
fn execute<D: Disk, W: Sink>(
    disk: &mut D,
    sink: &mut W,
    session: &mut Session,
    line: Line,
) -> Turn<Status>
    requires serving { (at_end : Option (List ℕ)) × IsServing session.old.layout session.old at_end }
    requires size { value_length line ≤ length session.old.lines.body }
    ensures executes { ExecutesLine session.old.layout (said_with session.old.lines.body line) session.old session.new (D.told disk.old) (D.told disk.new)
        (W.written sink.old) (W.written sink.new) result }
    ensures disk { BlamesIfEnds Status.DiskFault (D.faults disk.old) (D.faults disk.new) result }
    ensures sink { BlamesIfEnds Status.WriteFault (W.faults sink.old) (W.faults sink.new) result }
{
    match session.table.refusal(&line) {
        Some(refusal) => printed(print_answer(sink, &Answer::Refused(refusal))),
        None => perform(disk, sink, session, line),
    }
}

// Takes the next line of the script and executes it.
fn take_turn<D: Disk, S: Source, W: Sink>(
    outside: Outside<D, S, W>,
    session: &mut Session,
) -> Turn<Status>
    requires serving { IsServing session.old.layout session.old (S.left outside.source.now) }
    ensures turns { IsSteady session.old.layout session.old.replica session.old.table → TableTurns session.old.layout
        (state (seen D.told S.left W.written outside.entry) session.old)
        (state (seen D.told S.left W.written (back outside.exit)) session.new) result }
    ensures steady { IsSteady session.old.layout session.old.replica session.old.table → OnGoing result (IsSteady session.old.layout session.new.replica session.new.table) }
    ensures next { OnGoing result (IsReadyForNext session.old session.new (S.left (back outside.exit).source.now)) }
    ensures never { EndsTurn result }
    ensures disk { BlamesIfEnds Status.DiskFault (D.faults outside.entry.disk.now) (D.faults (back outside.exit).disk.now) result }
    ensures source { BlamesIfEnds Status.ReadFault (S.faults outside.entry.source.now) (S.faults (back outside.exit).source.now) result }
    ensures sink { BlamesIfEnds Status.WriteFault (W.faults outside.entry.sink.now) (W.faults (back outside.exit).sink.now) result }
{
    match session.lines.next(outside.source) {
        Ok(Next::Line(line)) => {
            let Outside {
                disk,
                source: _,
                sink,
            } = outside;
            let turn = execute(disk, sink, session, line);
            session.count += 1;
            turn
        }
        Ok(Next::Refused) => Turn::Ends(refuse_line(outside.sink, session.count, Status::Script)),
        Ok(Next::End) => Turn::Ends(Status::Done),
        Err(_) => Turn::Ends(Status::ReadFault),
    }
}

/// Executes a script, line by line, to its end.
pub(crate) fn serve_lines<D: Disk, S: Source, W: Sink>(
    outside: Outside<D, S, W>,
    session: &mut Session,
) -> Status
    requires { IsServing session.old.layout session.old (S.left outside.source.now) }
    ensures ends { EndsWithFile result }
    ensures session { IsSteady session.old.layout session.old.replica session.old.table → ServingEnded session.old.layout
        (state (seen D.told S.left W.written outside.entry) session.old) (state (seen D.told S.left W.written (back outside.exit)) session.new) result }
    ensures causes { HasTableCauses (failed D.faults S.faults W.faults outside.entry) (failed D.faults S.faults W.faults (back outside.exit)) result }
{
    let Outside { disk, source, sink } = outside;
    loop {
        match take_turn(Outside { disk, source, sink }, session) {
            Turn::Ends(status) => return status,
            Turn::GoesOn => {}
        }
    }
}
