// Two superblocks of layout small and cluster 7, and their sectors.
use df_base::check;
use df_format::{
    NO_CHECKSUM, NO_CHECKSUMS, SuperFault, SuperFields, decode_copy, decode_own_copy, encode_copy,
    test_fields,
};
use df_layout::{Class, Layout, Place, Zone};

// What the first superblock of layout small and cluster 7 says.
pub(crate) const FIRST: SuperFields = SuperFields {
    version: 1,
    boot: 0,
    cluster: 7,
    slots: 32,
    message_size: 8192,
    clients: 4,
    block_size: 16_384,
    blocks: 64,
    sequence: 1,
    // No checkpoint, and nothing in the log or among the replies.
    op: 0,
    op_checksum: NO_CHECKSUM,
    trailer_address: 0,
    trailer_checksum: NO_CHECKSUM,
    trailer_size: 0,
    head: 0,
    head_checksum: NO_CHECKSUM,
    replies: 0,
    reply_checksums: NO_CHECKSUMS,
    first_nonzero: None,
};

// The first superblock of version 2.
pub(crate) const NEW: SuperFields = SuperFields {
    version: 2,
    ..FIRST
};

// One with a checkpoint of op 100, whose trailer ends at address 9.
pub(crate) const LATER: SuperFields = SuperFields {
    sequence: 2,
    op: 100,
    op_checksum: [1; 16],
    head: 110,
    replies: 105,
    trailer_address: 9,
    trailer_checksum: [2; 16],
    trailer_size: 2192,
    ..FIRST
};

// The class of a copy that belongs to place 2, at another.
pub(crate) const OF_PLACE_2: Class = Class::Elsewhere(Place {
    zone: Zone::Superblock,
    index: 2,
});

// The sector with one byte changed.
pub(crate) fn changed(mut bytes: [u8; 4096], at: usize, byte: u8) -> [u8; 4096] {
    if at < bytes.len() {
        bytes[at] = byte;
    }
    bytes
}

// The sector with its checksum made right.
pub(crate) fn sealed(mut bytes: [u8; 4096]) -> [u8; 4096] {
    let sum = check(&bytes[32..]);
    bytes[..16].copy_from_slice(&sum);
    bytes
}

// The sector of a copy of these fields, if they can be used.
pub(crate) fn written(fields: &SuperFields, number: u8) -> [u8; 4096] {
    let mut bytes = [9; 4096];
    if let Ok(content) = test_fields(fields)
        && number < 4
    {
        encode_copy(&content, number, &mut bytes);
    }
    bytes
}

// What is said of bytes and fields by calls of which a caller's proof is told nothing: the fields of the copy that a sector is, if it is
// one; the number of the copy that place 1 or 2 shows, or the class of what it shows; and whether a superblock can be used.
pub(crate) fn fields_in(bytes: &[u8; 4096]) -> Option<SuperFields> {
    match decode_copy(bytes) {
        Some(copy) => Some(copy.fields),
        None => None,
    }
}

pub(crate) fn number_in(is_second: bool, bytes: &[u8; 4096]) -> Result<u8, Class> {
    match decode_own_copy(if is_second { 2 } else { 1 }, bytes) {
        Ok(copy) => Ok(copy.number),
        Err(class) => Err(class),
    }
}

pub(crate) fn judged(fields: &SuperFields) -> Result<(), SuperFault> {
    match test_fields(fields) {
        Ok(_) => Ok(()),
        Err(fault) => Err(fault),
    }
}

// The fields and the layout of a superblock that can be used.
pub(crate) fn used(fields: &SuperFields) -> Option<(SuperFields, Layout)> {
    match test_fields(fields) {
        Ok(content) => Some((*content.fields(), content.layout())),
        Err(_) => None,
    }
}

// The copies that have this letter in a picture of four copies.
pub(crate) fn members(picture: &[u8; 4], letter: u8) -> [bool; 4] {
    let [first, second, third, last] = *picture;
    [
        first == letter,
        second == letter,
        third == letter,
        last == letter,
    ]
}
