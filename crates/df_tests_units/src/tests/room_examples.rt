// Units of cluster 7 on layout small for the tests, as their makers give them.
ghost use Rattle.std.specs.Prelude.{◌≡◌, ◌≢◌, ◌≤◌, length};
ghost use Rattle.df_format.specs.{Rules.{ObeysRules}, Making.{for_body}};

use df_base::check;
use df_buffers::{Identity, Wanted};
use df_format::{Header, Kind};
use df_layout::{Layout, Place, Zone};

/// What is wanted at a place of cluster 7.
pub(crate) fn identity_at(layout: Layout, zone: Zone, index: u64, wanted: Wanted) -> Identity
    ensures { result ≡ record { layout = layout; cluster = 7; place = record { zone = zone; index = index }; wanted = wanted } }
{
    Identity {
        layout,
        cluster: 7,
        place: Place { zone, index },
        wanted,
    }
}

/// The header of a unit as its maker gives it: the prepare of op 1, the reply to it at place 2, or a block or a trailer block at
/// address 9.
#[tactic(auto, unfolding(df_format::specs::Spelling::no_checksum))]
pub(crate) fn header_of(kind: Kind, body: &[u8]) -> Header
    requires unit { kind ≢ Kind.Reserved }
    requires short { length body.now ≤ 3840 }
    ensures rules { ObeysRules (for_body result body.now) }
    ensures kind { result.kind ≡ kind }
{
    let first = Header {
        checksum_body: check(body),
        ..Header::of(kind, 7)
    };
    match kind {
        Kind::Reserved => unreachable!(),
        Kind::Prepare => Header {
            client: 5,
            op: 1,
            request: 1,
            checkpoint: 1,
            slot: 1,
            ..first
        },
        Kind::Reply => Header {
            parent: [3; 16],
            client: 5,
            op: 1,
            request: 1,
            mark: 1,
            checkpoint: 1,
            slot: 2,
            ..first
        },
        Kind::Block => Header {
            op: 9,
            block_kind: 1,
            ..first
        },
        Kind::Trailer => Header {
            op: 9,
            checkpoint: 2,
            ..first
        },
    }
}
