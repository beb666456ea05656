// One known unit: the first file's place is proved for its checksum, and where it isn't shown the second file's is; what the second shows is written into the first.
ghost use Rattle.std.specs.Prelude.{◌≡◌, ◌≤◌, None, IfOk};
ghost use Rattle.df_layout.specs.Spans.{HasPlace};
ghost use Rattle.df_places.specs.Shelves.{HoldsFound};
ghost use Rattle.df_mirror.specs.{Mends.{IsRefusal}, Outside.{around, counts}, Statuses.{AreBlamed}, Taking.{HoldsShown, MendsUnit, TakesUnit}};

use crate::ending::Ending;
use df_base::Sink;
use df_buffers::{Identity, UnitKind};
use df_disk::Disk;
use df_inspect::{place_line, write_line};
use df_layout::Class;
use df_places::{Shelf, write_unit};

// Takes a unit that the first file doesn't show from the second one, where that shows it: writes it into its place, makes it durable, and says so. The shelf holds
// it then, with zeros after it: no checksum covers what the second file shows there.
fn take_unit<A: Disk, B: Disk, W: Sink, K: UnitKind>(
    first: &mut A,
    second: &mut B,
    sink: &mut W,
    shelf: &mut Shelf<K>,
    identity: &Identity,
    class: Class,
) -> Result<(), Ending>
    requires layout { identity.now.layout ≡ shelf.old.layout }
    requires place { HasPlace identity.now.layout identity.now.place }
    requires zone { identity.now.place.zone ≡ K.ZONE }
    ensures layout { shelf.new.layout ≡ shelf.old.layout }
    ensures takes { TakesUnit K.KIND identity.now class
        (around (A.told first.old) (B.told second.old) (W.written sink.old))
        (around (A.told first.new) (B.told second.new) (W.written sink.new)) shelf.new.held result }
    ensures same { B.told second.new ≡ B.told second.old }
    ensures blamed { AreBlamed (counts (A.faults first.old) (B.faults second.old) (W.faults sink.old)) (counts (A.faults first.new) (B.faults second.new) (W.faults sink.new)) result }
{
    match shelf.load(second, identity) {
        Ok(None) => {
            shelf.blank_rest();
            match write_unit(first, &identity.layout, identity.place, shelf.unit()) {
                Ok(()) => match write_line(sink, &place_line("mended", identity.place)) {
                    Ok(()) => Ok(()),
                    Err(_) => Err(Ending::Sink),
                },
                Err(_) => Err(Ending::First),
            }
        }
        Ok(Some(_)) => Err(Ending::Neither {
            place: identity.place,
            class,
        }),
        Err(_) => Err(Ending::Second),
    }
}

/// Mends a unit that is known: where the first file doesn't show it, it is taken from the second one, by one write and a sync, and a line says so. The shelf holds the unit then. Answers how many were
/// written, 0 or 1.
pub(crate) fn mend_unit<A: Disk, B: Disk, W: Sink, K: UnitKind>(
    first: &mut A,
    second: &mut B,
    sink: &mut W,
    shelf: &mut Shelf<K>,
    identity: &Identity,
) -> Result<u64, Ending>
    requires layout { identity.now.layout ≡ shelf.old.layout }
    requires place { HasPlace identity.now.layout identity.now.place × (identity.now.place.zone ≡ K.ZONE) }
    ensures unit { IfOk result (λ count. (shelf.new.layout ≡ shelf.old.layout) × HoldsFound K.KIND identity.now None shelf.new.held × (count ≤ 1)) }
    ensures shown { IfOk result (λ _. HoldsShown K.KIND identity.now (A.told first.old) (A.told first.new) shelf.new.held) }
    ensures mends { MendsUnit K.KIND identity.now
        (around (A.told first.old) (B.told second.old) (W.written sink.old))
        (around (A.told first.new) (B.told second.new) (W.written sink.new)) result }
    ensures unrefused { IsRefusal result → ⊥ }
    ensures same { B.told second.new ≡ B.told second.old }
    ensures blamed { AreBlamed (counts (A.faults first.old) (B.faults second.old) (W.faults sink.old)) (counts (A.faults first.new) (B.faults second.new) (W.faults sink.new)) result }
{
    match shelf.load(first, identity) {
        Ok(None) => Ok(0),
        Ok(Some(class)) => match take_unit(first, second, sink, shelf, identity, class) {
            Ok(()) => Ok(1),
            Err(ending) => Err(ending),
        },
        Err(_) => Err(Ending::First),
    }
}
