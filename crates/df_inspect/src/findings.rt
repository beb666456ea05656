// What the scrubber found: its ring, a block that fails in a tour, and how many there are of them.
ghost use Rattle.std.specs.Prelude.{codes};
ghost use Rattle.df_base.specs.Causes.{HasCause};
ghost use Rattle.df_model.specs.declared.answers.Scrubbed.TheVariants as scrubs;
ghost use Rattle.df_script_model.specs.Texts.{numbered, recent_text, scrubbed_text};
ghost use Rattle.df_inspect.specs.{Prints.{Prints}, Reports.{each_text, failing_text, finding_text}};

use crate::blocks::tour_line;
use crate::line::{put, put_class, put_number, put_numbered, write_line};
use arrayvec::ArrayVec;
use df_base::{Failed, Sink};
use df_layout::Finding;

/// `recent COUNT` and ` ADDRESS CLASS` for each of these findings, the oldest first.
pub fn print_recent<W: Sink>(sink: &mut W, findings: &[Finding]) -> Result<(), Failed>
    ensures prints { Prints (recent_text findings.now) (W.written sink.old) (W.written sink.new) result }
    ensures cause { HasCause (W.faults sink.old) (W.faults sink.new) result }
{
    print_count(sink, findings.len() as u128)?;
    print_findings(sink, findings)?;
    sink.write(b"\n")
}

// The front of the line, up to the first finding.
fn print_count<W: Sink>(sink: &mut W, count: u128) -> Result<(), Failed>
    ensures prints { Prints (numbered (codes "recent") count) (W.written sink.old) (W.written sink.new) result }
    ensures cause { HasCause (W.faults sink.old) (W.faults sink.new) result }
{
    let mut line = ArrayVec::new();
    put_numbered(&mut line, "recent", count);
    write_line(sink, &line)
}

// Each finding after a space.
fn print_findings<W: Sink>(sink: &mut W, findings: &[Finding]) -> Result<(), Failed>
    ensures prints { Prints (each_text (λ place f. finding_text f) 0 findings.now) (W.written sink.old) (W.written sink.new) result }
    ensures cause { HasCause (W.faults sink.old) (W.faults sink.new) result }
{
    for finding in findings {
        print_finding(sink, *finding)?;
    }
    Ok(())
}

fn print_finding<W: Sink>(sink: &mut W, finding: Finding) -> Result<(), Failed>
    ensures prints { Prints (finding_text finding) (W.written sink.old) (W.written sink.new) result }
    ensures cause { HasCause (W.faults sink.old) (W.faults sink.new) result }
{
    let mut line = ArrayVec::new();
    put(&mut line, " ");
    put_number(&mut line, u128::from(finding.address));
    put(&mut line, " ");
    put_class(&mut line, finding.class);
    write_line(sink, &line)
}

/// `failing ADDRESS CLASS`: a block that fails in a tour.
pub fn print_failing<W: Sink>(sink: &mut W, finding: Finding) -> Result<(), Failed>
    ensures prints { Prints (failing_text finding) (W.written sink.old) (W.written sink.new) result }
    ensures cause { HasCause (W.faults sink.old) (W.faults sink.new) result }
{
    let mut line = ArrayVec::new();
    put_numbered(&mut line, "failing", u128::from(finding.address));
    put(&mut line, " ");
    put_class(&mut line, finding.class);
    put(&mut line, "\n");
    write_line(sink, &line)
}

/// `tour CHECKED FAILING`: how many blocks a tour checked, and how many of them fail.
pub fn print_tour<W: Sink>(sink: &mut W, checked: u64, failing: u64) -> Result<(), Failed>
    ensures prints { Prints (scrubbed_text (scrubs.TourEnd checked failing)) (W.written sink.old) (W.written sink.new) result }
    ensures cause { HasCause (W.faults sink.old) (W.faults sink.new) result }
{
    write_line(sink, &tour_line(checked, failing))
}
