// The checksums of a file's units: a law, the clause of a function that does nothing.
ghost use Rattle.df_session.specs.Codec.{UnitsHaveSums};

/// Each unit that an image shows has the checksum that the codec gives to what it says at its place: a prepare, a reply, a block, a block of a trailer, and a
/// superblock of the file.
pub fn units_have_their_checksums()
    ensures { UnitsHaveSums }
{}
