// The program: its word, and the memory that it takes.
ghost use Rattle.std.specs.Prelude.{◌≡◌, map, string_bytes, true, Some, IfNone, IfOk, IfSome};
ghost use Rattle.df_base.specs.Image.{IsImage};
ghost use Rattle.df_disk.specs.Told.{Told};
ghost use Rattle.df_layout.specs.declared.layout.Layout.{Layout as Shape};
ghost use Rattle.df_opening.specs.Opened.{MendsAll};
ghost use Rattle.df_program.specs.{Telling.{Writes}, Two.{HasCausesOfTwo, around, counts}};
ghost use Rattle.df_copy.specs.{Run.{CopiesFile, DoesCopy, MeansLayout, MeansNoLayout, RunsCopy}, Statuses.{EndsWithFiles}, Texts.{copy_usage}};

use crate::copying::copy_into;
use crate::status::Status;
use crate::target::Target;
pub use crate::telling::USAGE;
use crate::telling::{tell_copied, tell_ending};
use df_base::{OutOfMemory, Sink};
use df_buffers::ProbeRoom;
use df_disk::Disk;
use df_layout::Layout;
use df_program::{a_name_is_of_one_layout, layout_named, print_usage, refuse_file};
use df_replica::{Replica, Rooms, probe};
use std::alloc::Global;

// The layout that the words name: they are one word, and it is a layout's name.
fn layout_in(words: &[String]) -> Option<Layout>
    ensures found { IfSome result (MeansLayout (map string_bytes words.now)) }
    ensures none { IfNone result (MeansNoLayout (map string_bytes words.now)) }
{
    match words {
        [word] => layout_named(word.as_str()),
        _ => None,
    }
}

// The rooms of both files.
#[derive(Drop)]
struct Reserved {
    source: Rooms,
    target: Rooms,
}

// Takes all the memory of a copy from one layout to another.
fn reserve(alloc: Global, from: &Layout, to: &Layout) -> Result<Reserved, OutOfMemory>
    ensures source { IfOk result (λ reserved. reserved.source.layout ≡ from.now) }
    ensures target { IfOk result (λ reserved. reserved.target.layout ≡ to.now) }
{
    let source = Rooms::reserve(alloc, from)?;
    let target = Rooms::reserve(alloc, to)?;
    Ok(Reserved { source, target })
}

// Copies a source that was opened, and says what became of it.
fn copy_opened<A: Disk, B: Disk, W: Sink>(
    from: &mut A,
    to: &mut B,
    sink: &mut W,
    replica: Replica,
    rooms: Rooms,
) -> Status
    requires live { replica.live ≡ true }
    ensures copies { (t : Told) → IsImage t.shown → MendsAll t replica (A.told from.old)
        → CopiesFile rooms.layout t (around (Some t) (B.told to.old) (W.written sink.old)) (around (A.told from.new) (B.told to.new) (W.written sink.new)) result }
    ensures causes { HasCausesOfTwo Status.DiskFault Status.WriteFault
        (counts (A.faults from.old) (B.faults to.old) (W.faults sink.old)) (counts (A.faults from.new) (B.faults to.new) (W.faults sink.new)) result }
    ensures ends { EndsWithFiles result }
{
    let mut replica = replica;
    let layout = rooms.layout;
    // The state makes sense, and its superblock can be used.
    let _fields = replica.fields();
    let mut target = Target::over(rooms, replica.summary().cluster);
    match copy_into(from, to, &mut replica, &mut target) {
        Ok(()) => tell_copied(sink, &layout),
        Err(ending) => tell_ending(sink, ending),
    }
}

// Opens the source, and copies it.
fn copy_reserved<A: Disk, B: Disk, W: Sink>(
    reserved: Reserved,
    from: &mut A,
    to: &mut B,
    sink: &mut W,
) -> Status
    ensures does { (t : Told) → A.told from.old ≡ Some t → IsImage t.shown
        → DoesCopy reserved.target.layout reserved.source.layout t
        (around (A.told from.old) (B.told to.old) (W.written sink.old)) (around (A.told from.new) (B.told to.new) (W.written sink.new)) result }
    ensures causes { HasCausesOfTwo Status.DiskFault Status.WriteFault
        (counts (A.faults from.old) (B.faults to.old) (W.faults sink.old)) (counts (A.faults from.new) (B.faults to.new) (W.faults sink.new)) result }
    ensures ends { EndsWithFiles result }
{
    let Reserved { source, target } = reserved;
    match Replica::open(from, source) {
        Ok(replica) => copy_opened(from, to, sink, replica, target),
        Err((_, error)) => refuse_file(sink, &error),
    }
}

// Finds the layout of the source, takes the memory for both files, and makes the copy.
fn copy_file<A: Disk, B: Disk, W: Sink>(
    alloc: Global,
    layout: &Layout,
    from: &mut A,
    to: &mut B,
    sink: &mut W,
) -> Status
    ensures runs { RunsCopy layout.now (around (A.told from.old) (B.told to.old) (W.written sink.old)) (around (A.told from.new) (B.told to.new) (W.written sink.new)) result }
    ensures causes { HasCausesOfTwo Status.DiskFault Status.WriteFault
        (counts (A.faults from.old) (B.faults to.old) (W.faults sink.old)) (counts (A.faults from.new) (B.faults to.new) (W.faults sink.new)) result }
    ensures memory { result ≡ Status.Memory → around (A.told from.new) (B.told to.new) (W.written sink.new) ≡ around (A.told from.old) (B.told to.old) (W.written sink.old) }
    ensures words { result ≡ Status.Words → ⊥ }
{
    let Ok(mut room) = ProbeRoom::reserve(alloc) else {
        return Status::Memory;
    };
    match probe(from, &mut room) {
        Ok(found) => match reserve(alloc, &found, layout) {
            Ok(reserved) => copy_reserved(reserved, from, to, sink),
            Err(_) => Status::Memory,
        },
        Err(error) => refuse_file(sink, &error),
    }
}

/// Copies the data file that `from` shows to the layout that the one word names, into `to`, whose superblock is blank. The source is opened, which mends
/// it and raises its boot, and has to be at rest: a checkpoint reaches its head, and each prepare is replied to. All memory is taken before the first
/// write to a disk or to the sink, but for the usage line and a refusal that come before any is taken.
pub fn copy<A: Disk, B: Disk, W: Sink>(
    alloc: Global,
    words: &[String],
    from: &mut A,
    to: &mut B,
    sink: &mut W,
) -> Status
    // Other words print the usage line, and touch neither disk.
    ensures usage { MeansNoLayout (map string_bytes words.now) → Writes Status.WriteFault copy_usage Status.Words (W.written sink.old) (W.written sink.new) result }
    ensures untouched { MeansNoLayout (map string_bytes words.now) → (A.told from.new ≡ A.told from.old) × (B.told to.new ≡ B.told to.old) }
    ensures words { result ≡ Status.Words → MeansNoLayout (map string_bytes words.now) }

    // The source is refused as any open of it refuses it, or for the first of the tests of a copy that holds; else the target holds its state in the new
    // layout. What is written of the target is exact, its superblock comes last, and the source is kept as an open keeps it.
    ensures runs { (layout : Shape) → MeansLayout (map string_bytes words.now) layout
        → RunsCopy layout (around (A.told from.old) (B.told to.old) (W.written sink.old)) (around (A.told from.new) (B.told to.new) (W.written sink.new)) result }

    // A call ends at its first fault: of the three counts one at most rises, once, that of what the status blames; want of memory
    // comes before anything was written.
    ensures causes { HasCausesOfTwo Status.DiskFault Status.WriteFault
        (counts (A.faults from.old) (B.faults to.old) (W.faults sink.old)) (counts (A.faults from.new) (B.faults to.new) (W.faults sink.new)) result }
    ensures memory { result ≡ Status.Memory → around (A.told from.new) (B.told to.new) (W.written sink.new) ≡ around (A.told from.old) (B.told to.old) (W.written sink.old) }
{
    a_name_is_of_one_layout();
    match layout_in(words) {
        Some(layout) => copy_file(alloc, &layout, from, to, sink),
        None => print_usage(sink, USAGE, Status::Words),
    }
}
