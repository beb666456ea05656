// Whether a room holds the unit that is wanted: tested on the bytes of its place.
ghost use Rattle.std.specs.Prelude.{◌≡◌, ◌≢◌, ◌<◌, ◌↔◌, [], length, IsTrue, IfOk, IfErr};
ghost use Rattle.df_base.specs.declared.TheConstants.{HEADER, SECTOR};
ghost use Rattle.df_buffers.specs.{Below.{Message, place_size, has_checksum, own_copy, IsWanted}, Rooms.{header_bytes}, Found.{wanted_words, FindsUnit, FindsKind, IsValidUnit, class_for, shown_in}};

use crate::{HeaderSector, Identity, Raw, Sound, SuperSector, UnitKind, Wanted};
use df_base::HEADER;
use df_format::{Header, Kind, SuperCopy, decode_own_copy, decode_own_copy_beside, decode_unit};
use df_layout::{Class, Place, Zone};

// Whether a valid unit with this header is the one wanted; the body doesn't matter.
fn is_wanted(wanted: &Wanted, header: &Header) -> bool
    ensures { IsTrue result ↔ IsWanted (wanted_words wanted.now) (record { header = header.now; body = [] }) }
{
    match *wanted {
        Wanted::Any => true,
        Wanted::Op(op) => header.kind == Kind::Prepare && header.op == op,
        Wanted::Checksum(checksum) => header.checksum == checksum,
        Wanted::Answer {
            client,
            request,
            op,
        } => {
            header.kind == Kind::Reply
                && header.client == client
                && header.request == request
                && header.op == op
        }
    }
}

// The header of the unit wanted, or the class of what is there. The bytes are those of the place.
fn find(identity: &Identity, bytes: &[u8]) -> Result<Header, Class>
    requires size { length bytes.now ≡ place_size identity.now.layout identity.now.place.zone }
    requires copy { identity.now.place.zone ≢ Zone.Superblock }
    ensures found { IfOk result (λ h. (u : Message) × (u.header ≡ h) × FindsUnit identity.now bytes.now u × IsValidUnit identity.now u) }
    ensures unwanted { IfErr result (λ _. (u : Message) → ¬ FindsUnit identity.now bytes.now u) }
    ensures class { IfErr result (λ class. class ≡ class_for identity.now bytes.now) }
{
    let header = decode_unit(&identity.layout, identity.cluster, identity.place, bytes)?;
    if is_wanted(&identity.wanted, &header) {
        Ok(header)
    } else {
        Err(Class::Stale)
    }
}

impl<K: UnitKind> Raw<K> {
    /// A sound room exactly where the bytes are valid at the place and are the unit wanted, which is of this kind; else
    /// the room with its bytes unchanged, and the class of what they are.
    pub fn prove(self, identity: &Identity) -> Result<Sound<K>, (Raw<K>, Class)>
        requires layout { identity.now.layout ≡ self.layout }
        requires zone { identity.now.place.zone ≡ K.ZONE }
        ensures found { IfOk result (λ s. FindsKind K.KIND identity.now self.bytes s.unit) }
        ensures there { IfOk result (λ s. IsValidUnit identity.now s.unit) }
        ensures same { IfOk result (λ s. (s.layout ≡ self.layout) × (s.bytes ≡ self.bytes)) }
        ensures unwanted { IfErr result (λ _. (u : Message) → ¬ FindsKind K.KIND identity.now self.bytes u) }
        ensures class { IfErr result (λ refused. refused.1 ≡ class_for identity.now self.bytes) }
        ensures unchanged { IfErr result (λ refused. refused.0 ≡ self) }
    {
        match find(identity, &self.bytes) {
            Err(class) => Err((self, class)),
            Ok(header) if header.kind != K::KIND => Err((self, Class::Stale)),
            Ok(header) => {
                let Raw {
                    layout,
                    bytes,
                    kind,
                } = self;
                Ok(Sound {
                    layout,
                    header,
                    bytes,
                    kind,
                })
            }
        }
    }
}

// The bytes of one of a sector's headers.
fn header_bytes(bytes: &[u8], place: u64) -> &[u8]
    requires sector { length bytes.now ≡ SECTOR }
    requires place { place < 16 }
    ensures value { result.now ≡ header_bytes place bytes.now }
    ensures size { length result.now ≡ HEADER }
{
    let at = HEADER * place as usize;
    &bytes[at..at + HEADER]
}

impl Raw<HeaderSector> {
    /// The header at this place of the sixteen, counted from 0, where it is valid at the identity's place and is the one
    /// wanted; else the class of what is there.
    pub fn header_at(&self, place: u64, identity: &Identity) -> Result<Header, Class>
        requires place { place < 16 }
        requires zone { identity.now.place.zone ≡ Zone.WalHeaders }
        ensures found { IfOk result (λ h. FindsUnit identity.now (header_bytes place self.now.bytes) (record { header = h; body = [] })) }
        ensures there { IfOk result (λ h. IsValidUnit identity.now (record { header = h; body = [] })) }
        ensures unwanted { IfErr result (λ _. (u : Message) → ¬ FindsUnit identity.now (header_bytes place self.now.bytes) u) }
        ensures class { IfErr result (λ class. class ≡ class_for identity.now (header_bytes place self.now.bytes)) }
        ensures any { identity.now.wanted ≡ Wanted.Any → result ≡ shown_in identity.now (header_bytes place self.now.bytes) }
    {
        let header = find(identity, header_bytes(&self.bytes, place))?;
        Ok(header)
    }
}

impl Raw<SuperSector> {
    /// The copy of the superblock whose place this is, where the bytes are that copy; else the class of what they are.
    pub fn copy(&self, place: Place) -> Result<SuperCopy, Class>
        requires zone { place.zone ≡ Zone.Superblock }
        requires number { place.index < 4 }
        ensures { result ≡ own_copy place.index self.now.bytes }
    {
        decode_own_copy(place.index as u8, &self.bytes)
    }

    /// The same beside a room whose bytes have the right checksum, as those of a sound copy have: bytes that differ from that room's
    /// in their number alone aren't hashed, since the checksum doesn't cover it.
    pub fn copy_beside(&self, place: Place, sound: &Raw<SuperSector>) -> Result<SuperCopy, Class>
        requires zone { place.zone ≡ Zone.Superblock }
        requires number { place.index < 4 }
        requires sound { IsTrue (has_checksum sound.now.bytes) }
        ensures { result ≡ own_copy place.index self.now.bytes }
    {
        decode_own_copy_beside(place.index as u8, &self.bytes, &sound.bytes)
    }
}
