// The reports that are numbers alone: an open file, and what a generated run did. Each is written by one call of the sink.
ghost use Rattle.std.specs.Prelude.{◌≡◌};
ghost use Rattle.df_base.specs.Causes.{HasCause};
ghost use Rattle.df_inspect.specs.{Prints.{Prints}, Reports.{summary_text, workload_text}};

use crate::line::{Line, put, put_row, write_line};
use crate::opening::put_layout;
use arrayvec::ArrayVec;
use df_base::{Failed, Sink};
use df_model::Summary;

/// What a generated run did.
#[derive(Clone, Copy, Debug, PartialEq, Eq)]
pub struct Workload {
    /// Prepares that were appended.
    pub appended: u64,
    /// Replies that were stored.
    pub replied: u64,
    /// Blocks that were written.
    pub wrote: u64,
    /// Blocks that were released.
    pub released: u64,
    /// Checkpoints that became durable.
    pub checkpoints: u64,
    /// Commands of any kind that were refused.
    pub refused: u64,
    /// Bytes in the bodies of the prepares that were appended.
    pub bytes: u64,
    /// The op of the last prepare.
    pub head: u64,
    /// How many replies are stored.
    pub replies: u64,
    /// The superblock's sequence.
    pub sequence: u64,
}

/// The state of an open file: cluster, layout, sequence, checkpoint, head, replies, sessions and references, a line each.
pub fn print_summary<W: Sink>(sink: &mut W, summary: &Summary) -> Result<(), Failed>
    ensures prints { Prints (summary_text summary.now) (W.written sink.old) (W.written sink.new) result }
    ensures cause { HasCause (W.faults sink.old) (W.faults sink.new) result }
{
    write_line(sink, &summary_lines(summary))
}

fn summary_lines(summary: &Summary) -> Line
    ensures { result.items ≡ summary_text summary.now }
{
    let mut lines = ArrayVec::new();
    put_row(&mut lines, "cluster", summary.cluster);
    put(&mut lines, "layout ");
    put_layout(&mut lines, &summary.layout);
    put(&mut lines, "\n");
    put_row(&mut lines, "sequence", u128::from(summary.sequence));
    put_row(&mut lines, "checkpoint", u128::from(summary.checkpoint_op));
    put_row(&mut lines, "head", u128::from(summary.head));
    put_row(&mut lines, "replies", u128::from(summary.replies));
    put_row(&mut lines, "sessions", u128::from(summary.sessions));
    put_row(&mut lines, "references", u128::from(summary.references));
    lines
}

/// What a generated run did, and the file after it, a line for each number.
pub fn print_workload<W: Sink>(sink: &mut W, workload: &Workload) -> Result<(), Failed>
    ensures prints { Prints (workload_text workload.now) (W.written sink.old) (W.written sink.new) result }
    ensures cause { HasCause (W.faults sink.old) (W.faults sink.new) result }
{
    write_line(sink, &workload_lines(workload))
}

fn workload_lines(workload: &Workload) -> Line
    ensures { result.items ≡ workload_text workload.now }
{
    let mut lines = ArrayVec::new();
    put_row(&mut lines, "appended", u128::from(workload.appended));
    put_row(&mut lines, "replied", u128::from(workload.replied));
    put_row(&mut lines, "wrote", u128::from(workload.wrote));
    put_row(&mut lines, "released", u128::from(workload.released));
    put_row(&mut lines, "checkpoints", u128::from(workload.checkpoints));
    put_row(&mut lines, "refused", u128::from(workload.refused));
    put_row(&mut lines, "bytes", u128::from(workload.bytes));
    put_row(&mut lines, "head", u128::from(workload.head));
    put_row(&mut lines, "replies", u128::from(workload.replies));
    put_row(&mut lines, "sequence", u128::from(workload.sequence));
    lines
}
