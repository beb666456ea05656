// What is listed of a surveyed file of version 1 is written again, as an open mends a file, and nothing else.
ghost use Rattle.std.specs.Prelude.{◌≡◌, length};
ghost use Rattle.df_opening.specs.Held.{AreLogRoomsOf};
ghost use Rattle.df_upgrade.specs.{Below.{AddsSteps, HasCause, IsUsable, format, mending_events, mending_steps}, Old.{IsSoundSurvey, rooms_in}, Upgrading.{restoring_events, restoring_steps}};

use crate::{Rooms, Surveyed};
use df_base::Failed;
use df_damage::{DataFile, Found, LogRooms, Scanned, Surveyed as SurveyedFile};
use df_disk::Disk;
use df_opening::write_mends;

// A choice says of each of the four copies whether it is a member.
fn are_four(members: &[bool; 4])
    ensures { length members.now ≡ 4 }
{}

// Writes what the rooms list, from the table that they have.
fn restore_rooms<D: Disk>(
    disk: &mut D,
    file: &DataFile,
    found: &Found,
    rooms: &mut LogRooms,
) -> Result<(), Failed>
    requires rooms { AreLogRoomsOf file.now.layout file.now.cluster rooms.old }
    requires content { found.now.content ≡ found.now.chosen.content }
    ensures does { AddsSteps (format file.now) (mending_events file.now.layout rooms.old.headers rooms.old.mends.items found.now.content found.now.chosen.members)
        (mending_steps file.now.layout rooms.old.headers rooms.old.mends.items found.now.content found.now.chosen.members) (D.told disk.old) (D.told disk.new) result }
    ensures size { length found.now.chosen.members ≡ 4 }
    ensures usable { IsUsable found.now.content }
    ensures layout { rooms.new.layout ≡ rooms.old.layout }
    ensures cause { HasCause (D.faults disk.old) (D.faults disk.new) result }
{
    // The content's fields obey their rules.
    let _fields = found.content.fields();
    are_four(&found.chosen.members);
    write_mends(
        disk,
        file,
        &rooms.headers,
        &rooms.mends,
        &mut rooms.sector,
        &mut rooms.superblock,
        &found.chosen,
        &found.content,
    )
}

impl Surveyed {
    /// Writes what `to_mend` lists and no more, and gives the rooms back: header sectors first, each needed one once, then one sync, where
    /// there was such a sector, then the copies that aren't members of the choice, each durable before the next one. After a fault the
    /// file may be mended in part.
    pub fn restore<D: Disk>(self, disk: &mut D) -> Result<Rooms, (Rooms, Failed)>
        ensures rooms { (rooms_in result).layout ≡ self.state.file.layout }
        ensures does { AddsSteps (format self.state.file) (restoring_events self) (restoring_steps self) (D.told disk.old) (D.told disk.new) result }
        ensures sound { IsSoundSurvey self }
        ensures cause { HasCause (D.faults disk.old) (D.faults disk.new) result }
    {
        let Surveyed { found } = self;
        let SurveyedFile { scanned, .. } = found;
        let Scanned {
            file,
            copies,
            mut rooms,
            ..
        } = scanned;
        let written = restore_rooms(disk, &file, &copies.found, &mut rooms.log);
        let rooms = rooms.into_rooms();
        match written {
            Ok(()) => Ok(rooms),
            Err(failed) => Err((rooms, failed)),
        }
    }
}
