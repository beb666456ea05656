// The session over a script: one turn for each line and the work after it, until there is none, one is refused, or something fails.
ghost use Rattle.std.specs.Prelude.{◌≡◌, ◌<◌, ◌≤◌, ◌^◌, length, true};
ghost use Rattle.df_lines.specs.Grammar.{body_length, said_with};
ghost use Rattle.df_pace.specs.Beats.{beat_after_line};
ghost use Rattle.df_top.specs.{Lines.{command_of_line}, Outside.{HasCauses, back, failed, seen}, Pacing.{IsIdleBeat, runs}, Session.{Ended, state}, Step.{AnswersCommand, Turns}};
ghost use Rattle.df_top.specs.Turning.{BlamesIfEnds, IsReadySession, LeavesReader, ServesLine, TakesLine};

use crate::background::work;
use crate::reads::read;
use crate::ring::recent;
use crate::session::Session;
use crate::spoken::Spoken;
use crate::status::Status;
use crate::telling::serve;
use df_base::{Sink, Source};
use df_disk::Disk;
use df_lines::{Line, Next};
use df_model::Command;
use df_pace::Beat;
use df_program::{Outside, Turn, refuse_line};

// Makes the call that a line asks for, and prints what it answers.
fn execute<D: Disk, W: Sink>(
    disk: &mut D,
    sink: &mut W,
    session: &mut Session,
    line: Line,
) -> Turn<Status>
    requires live { session.old.replica.live ≡ true }
    requires size { body_length line ≤ length session.old.lines.body }
    ensures answers { AnswersCommand (command_of_line (said_with session.old.lines.body line)) session.old.replica session.new.replica
        (D.told disk.old) (D.told disk.new) (W.written sink.old) (W.written sink.new) result }
    ensures leaves { LeavesReader session.old session.new }
    ensures beat { session.new.beat ≡ session.old.beat }
    ensures disk { BlamesIfEnds Status.DiskFault (D.faults disk.old) (D.faults disk.new) result }
    ensures sink { BlamesIfEnds Status.WriteFault (W.faults sink.old) (W.faults sink.new) result }
{
    let replica = &mut session.replica;
    let lines = &session.lines;
    let command = Command::from(Spoken { line, lines });
    match command {
        Command::ReadPrepare { op: _ }
        | Command::ReadReply { client: _ }
        | Command::ReadBlock { address: _ } => read(disk, sink, replica, command),
        Command::Recent => recent(sink, replica),
        _ => serve(disk, sink, replica, command),
    }
}

// Where the loop stands after a line.
fn behind(session: &Session) -> Beat
    ensures { result ≡ beat_after_line session.now.pace session.now.beat session.now.replica.head (runs session.now.replica) }
{
    let head = session.replica.summary().head;
    let running = session.replica.is_running();
    session.beat.behind_line(&session.pace, head, running)
}

// Serves the line that was taken last.
fn serve_line<D: Disk, W: Sink>(
    disk: &mut D,
    sink: &mut W,
    session: &mut Session,
    line: Line,
) -> Turn<Status>
    requires live { session.old.replica.live ≡ true }
    requires room { session.old.count < 2 ^ 33 }
    requires size { body_length line ≤ length session.old.lines.body }
    ensures answers { AnswersCommand (command_of_line (said_with session.old.lines.body line)) session.old.replica session.new.replica
        (D.told disk.old) (D.told disk.new) (W.written sink.old) (W.written sink.new) result }
    ensures serves { ServesLine session.old session.new result }
    ensures disk { BlamesIfEnds Status.DiskFault (D.faults disk.old) (D.faults disk.new) result }
    ensures sink { BlamesIfEnds Status.WriteFault (W.faults sink.old) (W.faults sink.new) result }
{
    let turn = execute(disk, sink, session, line);
    session.count += 1;
    session.beat = behind(session);
    turn
}

// Takes the next line of the script and serves it.
fn take_line<D: Disk, S: Source, W: Sink>(
    outside: Outside<D, S, W>,
    session: &mut Session,
) -> Turn<Status>
    requires idle { IsIdleBeat session.old.beat session.old.replica }
    requires ready { IsReadySession session.old (S.left outside.source.now) }
    ensures turns { Turns session.old.pace session.old.lines.reading.bound
        (state (seen D.told S.left W.written outside.entry) session.old)
        (state (seen D.told S.left W.written (back outside.exit)) session.new) result }
    ensures takes { TakesLine session.old session.new (S.left (back outside.exit).source.now) result }
    ensures disk { BlamesIfEnds Status.DiskFault (D.faults outside.entry.disk.now) (D.faults (back outside.exit).disk.now) result }
    ensures source { BlamesIfEnds Status.ReadFault (S.faults outside.entry.source.now) (S.faults (back outside.exit).source.now) result }
    ensures sink { BlamesIfEnds Status.WriteFault (W.faults outside.entry.sink.now) (W.faults (back outside.exit).sink.now) result }
{
    match session.lines.next(outside.source) {
        Ok(Next::Line(line)) => {
            let Outside {
                disk,
                source: _,
                sink,
            } = outside;
            serve_line(disk, sink, session, line)
        }
        Ok(Next::Refused) => Turn::Ends(refuse_line(outside.sink, session.count, Status::Script)),
        Ok(Next::End) => Turn::Ends(Status::Done),
        Err(_) => Turn::Ends(Status::ReadFault),
    }
}

/// Serves a script, line by line, to its end, and does the work that is due after each.
pub fn serve_script<D: Disk, S: Source, W: Sink>(
    outside: Outside<D, S, W>,
    session: &mut Session,
) -> Status
    requires ready { IsReadySession session.old (S.left outside.source.now) }
    requires idle { IsIdleBeat session.old.beat session.old.replica }
    ensures session { Ended session.old.pace session.old.lines.reading.bound
        (state (seen D.told S.left W.written outside.entry) session.old)
        (state (seen D.told S.left W.written (back outside.exit)) session.new) result }
    ensures causes { HasCauses (failed D.faults S.faults W.faults outside.entry) (failed D.faults S.faults W.faults (back outside.exit)) result }
{
    let Outside { disk, source, sink } = outside;
    loop {
        match take_line(Outside { disk, source, sink }, session) {
            Turn::GoesOn => {}
            Turn::Ends(status) => return status,
        }
        match work(disk, sink, session) {
            Turn::GoesOn => {}
            Turn::Ends(status) => return status,
        }
    }
}
