// The superblock with which a file of version 1 becomes one of version 2: it records the state as it was found.
ghost use Rattle.std.specs.Prelude.{◌≡◌};
ghost use Rattle.df_damage.specs.Surveying.{state_found};
ghost use Rattle.df_upgrade.specs.{Base.{base_fields}, Below.{IsUsable}, Old.{IsOldSurvey}};

use df_base::VERSION;
use df_damage::Surveyed;
use df_format::{SuperFields, test_fields};
use df_rooms::stored_checks;

// The superblock that an upgrade writes of a file of version 1 that was surveyed.
pub(crate) fn base_of(found: &Surveyed) -> SuperFields
    requires old { IsOldSurvey found.now }
    ensures fields { result ≡ base_fields (state_found found.now) }
    ensures usable { IsUsable result }
{
    // The sessions are a table of the file.
    let _count = found.scanned.sessions.len();
    let fields = found.scanned.copies.found.content.fields();
    let base = SuperFields {
        version: VERSION,
        boot: 1,
        head: found.traces.tail.op,
        head_checksum: found.traces.tail.checksum,
        replies: found.traces.replies,
        reply_checksums: stored_checks(&found.scanned.sessions),
        ..*fields
    };
    match test_fields(&base) {
        Ok(content) => *content.fields(),
        Err(_) => unreachable!(),
    }
}
