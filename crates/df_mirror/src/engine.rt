// The program: it has no words, and takes its memory once the first file's layout is known.
ghost use Rattle.std.specs.Prelude.{◌≡◌, [], map, string_bytes, Err, IfOk};
ghost use Rattle.df_mirror.specs.{Outside.{Blames, HasCausesOfTwo, Writes, around, counts}, Run.{IsUndone, RunsMirror, TellsEnd}, Texts.{mirror_usage}};

use crate::ending::Ending;
use crate::mending::{Reserved, mend_all};
use crate::status::Status;
use crate::superblock::Superblock;
use df_base::{OutOfMemory, Sink, VERSION};
use df_buffers::{ProbeRoom, Raw};
use df_disk::Disk;
use df_inspect::{classed_line, number_line};
use df_layout::Layout;
use df_opening::{DataFile, Rooms, survey_superblock};
use df_places::Shelf;
use df_program::{end_line, print_usage, refuse_file};
use std::alloc::Global;

/// The line that says which words have a meaning.
pub const USAGE: &[u8] = b"usage: filemirror FIRST SECOND\n";

// Takes all the memory of a mending over a layout.
fn reserve(alloc: Global, layout: &Layout) -> Result<Reserved, OutOfMemory>
    ensures rooms { IfOk result (λ reserved. reserved.rooms.layout ≡ layout.now) }
    ensures trailer { IfOk result (λ reserved. reserved.trailer.layout ≡ layout.now) }
    ensures block { IfOk result (λ reserved. reserved.block.layout ≡ layout.now) }
{
    let rooms = Rooms::reserve(alloc, layout)?;
    let trailer = Raw::reserve(alloc, layout)?;
    let block = Raw::reserve(alloc, layout)?;
    Ok(Reserved {
        rooms,
        trailer: Shelf::over(*layout, trailer),
        block: Shelf::over(*layout, block),
    })
}

// Says how a mending ended.
fn tell<W: Sink>(sink: &mut W, mended: Result<u64, Ending>) -> Status
    ensures tells { TellsEnd mended (W.written sink.old) (W.written sink.new) result }
    ensures sink { (mended ≡ Err Ending.Sink → ⊥) → Blames Status.WriteFault (W.faults sink.old) (W.faults sink.new) result }
    ensures failed { mended ≡ Err Ending.Sink → W.faults sink.new ≡ W.faults sink.old }
{
    match mended {
        Ok(count) => {
            let given = if count == 0 {
                Status::Done
            } else {
                Status::Found
            };
            let line = number_line("mended", u128::from(count));
            end_line(sink, &line, given)
        }
        Err(Ending::Neither { place, class }) => {
            let line = classed_line("refused Neither", place, class);
            end_line(sink, &line, Status::Refused)
        }
        Err(Ending::Unopened { error }) => refuse_file(sink, &error),
        Err(Ending::First | Ending::Second) => Status::DiskFault,
        Err(Ending::Sink) => Status::WriteFault,
    }
}

/// Mends the first file from a second one. The first file's superblock, of version 2, fixes which units are known: the blocks of
/// its trailer, those that the trailer references, the prepares up to the head that it names, and the replies that it recorded.
/// Each that the first file doesn't show is taken from the second one's place, where that shows it with the known checksum. The
/// second file's superblock isn't read. There are no words; all memory is taken before the first write.
pub fn mirror<A: Disk, B: Disk, W: Sink>(
    alloc: Global,
    words: &[String],
    first: &mut A,
    second: &mut B,
    sink: &mut W,
) -> Status
    // Any words print the usage line, and touch neither file.
    ensures usage { (map string_bytes words.now ≡ [] → ⊥) → Writes Status.WriteFault mirror_usage Status.Words (W.written sink.old) (W.written sink.new) result }
    ensures untouched { (map string_bytes words.now ≡ [] → ⊥) → A.told first.new ≡ A.told first.old }
    ensures words { result ≡ Status.Words → map string_bytes words.now ≡ [] → ⊥ }

    // The first file is synced, and refused as an open refuses its superblock or its trailer. What is mended is known and wasn't
    // shown just before, each by one write and a sync, in order, and it is the unit of that checksum, which the second file shows;
    // where the run ends as Done or Found, all known units are shown, and it is Found exactly where one was mended. The second file
    // is only read.
    ensures runs { map string_bytes words.now ≡ [] → RunsMirror (around (A.told first.old) (B.told second.old) (W.written sink.old))
        (around (A.told first.new) (B.told second.new) (W.written sink.new)) result }
    ensures second { B.told second.new ≡ B.told second.old }

    // A call ends at its first fault: of the three counts one at most rises, once, that of what the status blames; want of memory
    // comes before anything was written.
    ensures causes { HasCausesOfTwo Status.DiskFault Status.WriteFault (counts (A.faults first.old) (B.faults second.old) (W.faults sink.old))
        (counts (A.faults first.new) (B.faults second.new) (W.faults sink.new)) result }
    ensures memory { result ≡ Status.Memory → IsUndone (around (A.told first.old) (B.told second.old) (W.written sink.old)) (around (A.told first.new) (B.told second.new) (W.written sink.new)) }
{
    let [] = words else {
        return print_usage(sink, USAGE, Status::Words);
    };
    let Ok(mut room) = ProbeRoom::reserve(alloc) else {
        return Status::Memory;
    };
    let content = match survey_superblock(first, &mut room, 2) {
        Ok(found) => found.content,
        Err(error) => return refuse_file(sink, &error),
    };
    let layout = content.layout();
    let fields = content.fields();
    // A survey for version 2 finds no other one.
    if fields.version != VERSION {
        return Status::Refused;
    }
    let file = DataFile {
        layout,
        cluster: fields.cluster,
        version: VERSION,
    };
    let base = Superblock { file, content };
    let Ok(reserved) = reserve(alloc, &layout) else {
        return Status::Memory;
    };
    let mended = mend_all(first, second, sink, &base, reserved);
    tell(sink, mended)
}
