// The rooms of the superblock's copies in use.
ghost use Rattle.std.specs.Prelude.{◌≡◌};

use crate::tests::super_examples::{FIRST, written};
use df_buffers::{ProbeRoom, Raw, SuperSector};
use df_format::SuperCopy;
use df_layout::{Class, Layout, Place, Zone};

fn number_of(copy: Result<SuperCopy, Class>) -> Result<u8, Class> {
    match copy {
        Ok(copy) => Ok(copy.number),
        Err(class) => Err(class),
    }
}

fn place(index: u64) -> Place
    ensures zone { result.zone ≡ Zone.Superblock }
    ensures index { result.index ≡ index }
{
    Place {
        zone: Zone::Superblock,
        index,
    }
}

#[test]
fn reserves_a_room_for_each_copy(rt: HostRuntime) {
    let mut room = ProbeRoom::reserve(rt.alloc()).expect(&rt, "memory of the copies' rooms");
    for number in 0..4 {
        let sector = room.sector_mut(number);
        sector.bytes_mut().copy_from_slice(&written(&FIRST, number));
    }
    for number in 0..4 {
        let index = u64::from(number);
        let copy = room.sector(number).copy(place(index));
        assert!(rt; number_of(copy) == Ok(number), "{number}");
    }
    let one = Raw::<SuperSector>::reserve(rt.alloc(), &Layout::large()).expect(
        &rt,
        "memory of a sector",
    );
    assert!(rt; one.copy(place(0)) == Err(Class::Blank));
}
