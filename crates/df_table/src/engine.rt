// The program: its word, and the memory that it takes.
ghost use Rattle.std.specs.Prelude.{◌≡◌, ◌↔◌, ◌*◌, ◌≤◌, codes, map, string_bytes, vec_len, IfOk, IsTrue};
ghost use Rattle.df_lines.specs.Room.{IsFresh, line_bound};
ghost use Rattle.df_rows.specs.Limits as limits;
ghost use Rattle.df_table.specs.{Outside.{HasTableCauses, WritesTableText, around, back, counts, failed, seen}, Run.{IsTableWord, PrintsNothing, RunsTable, table_usage}, Table.{empty_table}};

use crate::serving::{Reserved, serve_table};
use crate::status::Status;
use df_base::{OutOfMemory, Sink, Source};
use df_buffers::ProbeRoom;
use df_disk::Disk;
use df_layout::Layout;
use df_lines::LineRoom;
use df_program::{Outside, print_usage, refuse_file};
use df_rows::{ObjectTable, ROW, rows_in_block};
use df_session::{Rooms, probe};
use std::alloc::Global;

/// The line that says which words have a meaning.
pub const USAGE: &[u8] = b"usage: objecttable FILE table\n";

// Whether the words are exactly `table`.
fn is_table(words: &[String]) -> bool
    ensures { IsTrue result ↔ IsTableWord (map string_bytes words.now) }
{
    match words {
        [word] => is_word(word.as_str()),
        _ => false,
    }
}

// Whether a word is `table`.
fn is_word(word: &str) -> bool
    ensures { IsTrue result ↔ (word.now ≡ codes "table") }
{
    word == "table"
}

// Takes all the memory of a session over a file of a layout.
fn reserve(alloc: Global, layout: &Layout) -> Result<Reserved, OutOfMemory>
    ensures rooms { IfOk result (λ reserved. reserved.rooms.layout ≡ layout.now) }
    ensures lines { IfOk result (λ reserved. IsFresh (line_bound layout.now) reserved.lines) }
    ensures table { IfOk result (λ reserved. reserved.table ≡ empty_table layout.now) }
    ensures block { IfOk result (λ reserved. 64 * limits.rows_in_block layout.now ≤ vec_len reserved.block) }
{
    let lines = LineRoom::reserve(alloc, layout)?;
    let table = ObjectTable::reserve(alloc, layout)?;
    let size = rows_in_block(layout) as usize * ROW;
    let block = vec![in alloc; 0; size]?;
    let rooms = Rooms::reserve(alloc, layout)?;
    Ok(Reserved {
        rooms,
        table,
        lines,
        block,
    })
}

// Finds the layout of the file that the disk shows, takes the memory for it, and serves its table.
fn run_file<D: Disk, S: Source, W: Sink>(alloc: Global, outside: Outside<D, S, W>) -> Status
    ensures runs { RunsTable (seen D.told S.left W.written outside.entry) (seen D.told S.left W.written (back outside.exit)) result }
    ensures causes { HasTableCauses (failed D.faults S.faults W.faults outside.entry) (failed D.faults S.faults W.faults (back outside.exit)) result }
    ensures memory { result ≡ Status.Memory → PrintsNothing (seen D.told S.left W.written outside.entry)
        (seen D.told S.left W.written (back outside.exit)) }
    ensures unwritten { result ≡ Status.Memory → D.told (back outside.exit).disk.now ≡ D.told outside.entry.disk.now }
    ensures words { result ≡ Status.Words → ⊥ }
{
    let Ok(mut room) = ProbeRoom::reserve(alloc) else {
        return Status::Memory;
    };
    match probe(outside.disk, &mut room) {
        Ok(layout) => match reserve(alloc, &layout) {
            Ok(reserved) => serve_table(reserved, outside),
            Err(_) => Status::Memory,
        },
        Err(error) => refuse_file(outside.sink, &error),
    }
}

/// Keeps a table in the data file that the disk shows: executes the script of puts, drops, gets and counts where the words are exactly `table`.
/// All memory is taken before the first write to the disk or to the sink, but for the usage line and a refusal that come before any is
/// taken.
pub fn run_table<D: Disk, S: Source, W: Sink>(
    alloc: Global,
    words: &[String],
    source: &mut S,
    sink: &mut W,
    disk: &mut D,
) -> Status
    // Other words print the usage line, and touch neither the disk nor the source.
    ensures usage { (IsTableWord (map string_bytes words.now) → ⊥) → WritesTableText table_usage Status.Words (W.written sink.old) (W.written sink.new) result }
    ensures untouched { (IsTableWord (map string_bytes words.now) → ⊥) → D.told disk.new ≡ D.told disk.old }
    ensures unread { (IsTableWord (map string_bytes words.now) → ⊥) → S.left source.new ≡ S.left source.old }
    ensures words { result ≡ Status.Words → IsTableWord (map string_bytes words.now) → ⊥ }

    // The file is refused as any open of it refuses it, or since it is no table's, by the first place that shows it. Else the script is executed: what is written is the text of
    // a map, from the table on that the file has, and from the barrier on whatever a stop leaves has that table after the first puts and drops, all that were answered by then
    // and perhaps some after them.
    ensures runs { IsTableWord (map string_bytes words.now)
        → RunsTable (around (D.told disk.old) (S.left source.old) (W.written sink.old)) (around (D.told disk.new) (S.left source.new) (W.written sink.new)) result }

    // Want of memory comes before anything was read of the script or written. A call ends at its first fault: of the three counts one at most
    // rises, once, that of what the status blames.
    ensures memory { result ≡ Status.Memory → PrintsNothing (around (D.told disk.old) (S.left source.old) (W.written sink.old))
        (around (D.told disk.new) (S.left source.new) (W.written sink.new)) }
    ensures unwritten { result ≡ Status.Memory → D.told disk.new ≡ D.told disk.old }
    ensures causes { HasTableCauses (counts (D.faults disk.old) (S.faults source.old) (W.faults sink.old)) (counts (D.faults disk.new) (S.faults source.new) (W.faults sink.new)) result }
{
    if is_table(words) {
        run_file(alloc, Outside { disk, source, sink })
    } else {
        print_usage(sink, USAGE, Status::Words)
    }
}
