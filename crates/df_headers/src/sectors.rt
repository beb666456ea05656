// The sectors of the header ring: where they lie, reads of them, and their bytes, sixteen headers one after the other.
ghost use Rattle.std.specs.Prelude.{◌≡◌, ◌<◌, ◌≤◌, ◌+◌, ◌*◌, ◌^◌, ◌++◌, [], ◌∷◌, length, take, OnOk};
ghost use Rattle.df_base.specs.declared.TheConstants.{HEADER, SECTOR};
ghost use Rattle.df_headers.specs.Below.{HasCause, Shows, Layout, HeaderPlace, IsSealed, AreSixteen, first_at, headers_bytes};

use df_base::{Failed, HEADER};
use df_buffers::{HeaderSector, Raw};
use df_disk::Disk;
use df_format::{Header, encode_header};

// The first sector of the ring, after the four copies of the superblock in every layout.
const FIRST: u64 = 4;

/// The number of a sector of the ring, which is counted from the ring's first one.
pub(crate) fn first_of(sector: u32) -> u64
    requires { sector < 64 }
    ensures first { (layout : Layout) → result ≡ first_at layout (HeaderPlace (16 * sector)) }
    ensures below { result < 2 ^ 22 }
{
    FIRST + u64::from(sector)
}

/// Reads a sector of the ring, which is counted from the ring's first one, by one device call. After an error the room
/// holds any bytes.
pub fn read_sector<D: Disk>(
    disk: &mut D,
    room: &mut Raw<HeaderSector>,
    sector: u32,
) -> Result<(), Failed>
    requires { sector < 64 }
    ensures bytes { (layout : Layout) → OnOk result (Shows (D.told disk.old) (first_at layout (HeaderPlace (16 * sector))) room.new.bytes) }
    ensures size { length room.new.bytes ≡ SECTOR }
    ensures room { room.new.layout ≡ room.old.layout }
    ensures same { D.told disk.new ≡ D.told disk.old }
    ensures cause { HasCause (D.faults disk.old) (D.faults disk.new) result }
{
    disk.read(first_of(sector), room.bytes_mut())
}

// Writes one header over its 256 bytes.
fn put_one(header: &Header, bytes: &mut [u8], at: usize)
    requires header { IsSealed header.now }
    requires room { at + HEADER ≤ length bytes.old }
    ensures front { take (at + HEADER) bytes.new ≡ take at bytes.old ++ headers_bytes (header.now ∷ []) }
    ensures size { length bytes.new ≡ length bytes.old }
{
    let mut one = [0u8; HEADER];
    encode_header(header, &mut one);
    bytes[at..at + HEADER].copy_from_slice(&one);
}

/// Writes sixteen headers over the bytes of a sector.
pub(crate) fn put_all(headers: &[Header], bytes: &mut [u8])
    requires sixteen { AreSixteen headers.now }
    requires room { length bytes.old ≡ SECTOR }
    ensures { bytes.new ≡ headers_bytes headers.now }
{
    let mut i = 0;
    while i < headers.len() {
        put_one(&headers[i], bytes, HEADER * i);
        i += 1;
    }
}
