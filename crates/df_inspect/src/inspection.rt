// What a survey found: the file in numbers, its root, its sessions, and what is to be mended.
ghost use Rattle.std.specs.Prelude.{◌≡◌, codes};
ghost use Rattle.df_base.specs.Causes.{HasCause};
ghost use Rattle.df_script_model.specs.Texts.{body_text, line_of, spaced};
ghost use Rattle.df_inspect.specs.{Prints.{Prints}, Reports.{each_text, inspection_text, mend_text, row_text, session_text}};

use crate::counts::print_summary;
use crate::line::{
    Line, classed_line, number_line, put, put_field, put_numbered, text_line, write_line,
};
use crate::messages::print_body;
use arrayvec::ArrayVec;
use df_base::{Failed, Sink};
use df_layout::Mend;
use df_model::Summary;
use df_sessions::Session;

/// The state of a file, `root BODY`, a line for each session in order of its place, `mend ZONE INDEX CLASS` for each place
/// that is to be written again, and `findings N`, N the number of these.
pub fn print_inspection<W: Sink>(
    sink: &mut W,
    summary: &Summary,
    root: &[u8],
    sessions: &[Session],
    mends: &[Mend],
) -> Result<(), Failed>
    ensures prints { Prints (inspection_text summary.now root.now sessions.now mends.now) (W.written sink.old) (W.written sink.new) result }
    ensures cause { HasCause (W.faults sink.old) (W.faults sink.new) result }
{
    print_summary(sink, summary)?;
    print_root(sink, root)?;
    print_sessions(sink, sessions)?;
    print_mends(sink, mends)?;
    print_findings_count(sink, mends.len() as u128)
}

fn print_findings_count<W: Sink>(sink: &mut W, count: u128) -> Result<(), Failed>
    ensures prints { Prints (row_text (codes "findings") count) (W.written sink.old) (W.written sink.new) result }
    ensures cause { HasCause (W.faults sink.old) (W.faults sink.new) result }
{
    write_line(sink, &number_line("findings", count))
}

fn print_root<W: Sink>(sink: &mut W, root: &[u8]) -> Result<(), Failed>
    ensures prints { Prints (line_of (spaced (codes "root") (body_text root.now))) (W.written sink.old) (W.written sink.new) result }
    ensures cause { HasCause (W.faults sink.old) (W.faults sink.new) result }
{
    print_root_word(sink)?;
    print_body(sink, root)
}

fn print_root_word<W: Sink>(sink: &mut W) -> Result<(), Failed>
    ensures prints { Prints (codes "root ") (W.written sink.old) (W.written sink.new) result }
    ensures cause { HasCause (W.faults sink.old) (W.faults sink.new) result }
{
    write_line(sink, &text_line("root "))
}

fn print_sessions<W: Sink>(sink: &mut W, sessions: &[Session]) -> Result<(), Failed>
    ensures prints { Prints (each_text session_text 0 sessions.now) (W.written sink.old) (W.written sink.new) result }
    ensures cause { HasCause (W.faults sink.old) (W.faults sink.new) result }
{
    for place in 0..sessions.len() {
        print_session(sink, place as u128, &sessions[place])?;
    }
    Ok(())
}

fn print_session<W: Sink>(sink: &mut W, place: u128, session: &Session) -> Result<(), Failed>
    ensures prints { Prints (session_text place session.now) (W.written sink.old) (W.written sink.new) result }
    ensures cause { HasCause (W.faults sink.old) (W.faults sink.new) result }
{
    write_line(sink, &session_line(place, session))
}

fn session_line(place: u128, session: &Session) -> Line
    ensures { result.items ≡ session_text place session.now }
{
    let mut line = ArrayVec::new();
    put_numbered(&mut line, "session", place);
    put_field(&mut line, "client", session.client);
    put_field(&mut line, "request", u128::from(session.request));
    put_field(&mut line, "op", u128::from(session.op));
    match session.reply {
        Some(_) => put(&mut line, " stored\n"),
        None => put(&mut line, " pending\n"),
    }
    line
}

fn print_mends<W: Sink>(sink: &mut W, mends: &[Mend]) -> Result<(), Failed>
    ensures prints { Prints (each_text (λ place mend. mend_text mend) 0 mends.now) (W.written sink.old) (W.written sink.new) result }
    ensures cause { HasCause (W.faults sink.old) (W.faults sink.new) result }
{
    for mend in mends {
        print_mend(sink, *mend)?;
    }
    Ok(())
}

fn print_mend<W: Sink>(sink: &mut W, mend: Mend) -> Result<(), Failed>
    ensures prints { Prints (mend_text mend) (W.written sink.old) (W.written sink.new) result }
    ensures cause { HasCause (W.faults sink.old) (W.faults sink.new) result }
{
    write_line(sink, &classed_line("mend", mend.place, mend.class))
}
