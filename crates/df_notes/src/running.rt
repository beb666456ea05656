// A run, from the memory that it takes to its last line.
ghost use Rattle.std.specs.Prelude.{◌≡◌, ℕ, true, map, string_bytes, Some, Err, IfErr};
ghost use Rattle.df_base.specs.{Causes.{Blamed, IsBlamed}, Image.{IsImage}};
ghost use Rattle.df_disk.specs.Told.{Told};
ghost use Rattle.df_model.specs.Faults.{is_open_fault};
ghost use Rattle.df_session.specs.Below.{IsUnformatted};
ghost use Rattle.df_notes.specs.{Ending.{IsOfRun, ended_by, is_disk_at_fault, is_sink}, Run.{MakesFirst, OpensNotes, RunsNotes}, Serving.{ServesNotes, around}};

use crate::ended::{Ended, why_ended};
use crate::keeping::{catch_up, keep};
use crate::printing::print_notes;
use df_base::Sink;
use df_disk::Disk;
use df_layout::Layout;
use df_session::{OpenError, Replica, Rooms, format};
use std::alloc::Global;

/// The number of the cluster, which each unit of the file carries.
const CLUSTER: u128 = 1;

// Replies to what waits, keeps the notes, and prints all that stand there.
fn serve_notes<D: Disk, W: Sink>(
    disk: &mut D,
    sink: &mut W,
    replica: Replica,
    notes: &[String],
) -> Result<(), Ended>
    requires live { replica.live ≡ true }
    ensures serves { ServesNotes (map string_bytes notes.now) replica (around (D.told disk.old) (W.written sink.old)) (around (D.told disk.new) (W.written sink.new)) result }
    ensures disk { IsBlamed is_disk_at_fault (D.faults disk.old) (D.faults disk.new) result }
    ensures sink { IsBlamed is_sink (W.faults sink.old) (W.faults sink.new) result }
{
    let mut replica = replica;
    catch_up(disk, &mut replica)?;
    keep(disk, sink, &mut replica, notes)?;
    print_notes(disk, sink, &mut replica)
}

// Opens a file that was made, and serves it.
fn open_notes<D: Disk, W: Sink>(
    disk: &mut D,
    sink: &mut W,
    rooms: Rooms,
    notes: &[String],
) -> Result<(), Ended>
    ensures opens { (t : Told) → D.told disk.old ≡ Some t → IsImage t.shown
        → OpensNotes rooms.layout t (map string_bytes notes.now) (around (D.told disk.old) (W.written sink.old)) (around (D.told disk.new) (W.written sink.new)) result }
    ensures ends { IfErr result IsOfRun }
    ensures disk { IsBlamed is_disk_at_fault (D.faults disk.old) (D.faults disk.new) result }
    ensures sink { IsBlamed is_sink (W.faults sink.old) (W.faults sink.new) result }
{
    match Replica::open(disk, rooms) {
        Ok(replica) => serve_notes(disk, sink, replica, notes),
        Err((_, error)) => Err(why_ended(&error)),
    }
}

// Makes the file, and then opens it.
fn make_notes<D: Disk, W: Sink>(
    disk: &mut D,
    sink: &mut W,
    rooms: Rooms,
    notes: &[String],
) -> Result<(), Ended>
    ensures makes { (t : Told) → D.told disk.old ≡ Some t → IsImage t.shown → IsUnformatted t.shown
        → MakesFirst rooms.layout t (map string_bytes notes.now) (around (D.told disk.old) (W.written sink.old)) (around (D.told disk.new) (W.written sink.new)) result }
    ensures ends { IfErr result IsOfRun }
    ensures disk { IsBlamed is_disk_at_fault (D.faults disk.old) (D.faults disk.new) result }
    ensures sink { IsBlamed is_sink (W.faults sink.old) (W.faults sink.new) result }
{
    let mut rooms = rooms;
    match format(disk, &mut rooms, CLUSTER) {
        Ok(()) => open_notes(disk, sink, rooms, notes),
        Err(error) => Err(why_ended(&error)),
    }
}

// A file that isn't opened is made where the disk is blank, and else refused.
fn make_or_refuse<D: Disk, W: Sink>(
    disk: &mut D,
    sink: &mut W,
    rooms: Rooms,
    notes: &[String],
    error: OpenError,
) -> Result<(), Ended>
    ensures makes { error ≡ OpenError.NotFormatted → (t : Told) → D.told disk.old ≡ Some t → IsImage t.shown → IsUnformatted t.shown
        → MakesFirst rooms.layout t (map string_bytes notes.now) (around (D.told disk.old) (W.written sink.old)) (around (D.told disk.new) (W.written sink.new)) result }
    ensures refuses { (error ≡ OpenError.NotFormatted → ⊥) → (result ≡ Err (ended_by (is_open_fault error))) × (D.told disk.new ≡ D.told disk.old) × (W.written sink.new ≡ W.written sink.old) }
    ensures ends { IfErr result IsOfRun }
    ensures disk { (before : ℕ) → Blamed (is_open_fault error) before (D.faults disk.old) → IsBlamed is_disk_at_fault before (D.faults disk.new) result }
    ensures sink { IsBlamed is_sink (W.faults sink.old) (W.faults sink.new) result }
{
    if error == OpenError::NotFormatted {
        return make_notes(disk, sink, rooms, notes);
    }
    Err(why_ended(&error))
}

/// Keeps these notes in the file that the disk shows, which is made first where the disk is blank, and prints all that stand there. All
/// memory is taken before the disk is read. The first fault ends it, and so does the first note that isn't kept.
pub fn keep_notes<D: Disk, W: Sink>(
    alloc: Global,
    notes: &[String],
    sink: &mut W,
    disk: &mut D,
) -> Result<(), Ended>
    // The file is refused as any open refuses it, or it is found, after its making where the disk was blank. Then the reply that waits is stored, the notes are kept, each appended,
    // replied to and then printed, and all that stand there are printed, until something ends that. What calls on an open file keep is kept.
    ensures runs { RunsNotes (map string_bytes notes.now) (around (D.told disk.old) (W.written sink.old)) (around (D.told disk.new) (W.written sink.new)) result }

    // Want of memory comes before anything is done. Of the two counts one at most rises, once, that of what is blamed.
    ensures memory { result ≡ Err Ended.Memory → around (D.told disk.new) (W.written sink.new) ≡ around (D.told disk.old) (W.written sink.old) }
    ensures read { result ≡ Err Ended.ReadFault → ⊥ }
    ensures disk { IsBlamed is_disk_at_fault (D.faults disk.old) (D.faults disk.new) result }
    ensures sink { IsBlamed is_sink (W.faults sink.old) (W.faults sink.new) result }
{
    let Ok(rooms) = Rooms::reserve(alloc, &Layout::small()) else {
        return Err(Ended::Memory);
    };
    match Replica::open(disk, rooms) {
        Ok(replica) => serve_notes(disk, sink, replica, notes),
        Err((rooms, error)) => make_or_refuse(disk, sink, rooms, notes, error),
    }
}
