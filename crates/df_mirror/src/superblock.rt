// The superblock that a mending goes by.
ghost use Rattle.std.specs.Prelude.{◌≡◌, drop};
ghost use Rattle.df_format.specs.Super.{AreNone};
ghost use Rattle.df_units.specs.Superblocks.{AreFieldsOf};

use df_format::Super;
use df_opening::DataFile;

/// The first file, and its chosen superblock, of version 2, which can be used: it fixes what is known.
#[derive(Clone, Copy)]
pub(crate) struct Superblock {
    pub(crate) file: DataFile,
    pub(crate) content: Super,
    pub(crate) ghost fields: { AreFieldsOf file.layout file.cluster content },
    pub(crate) ghost version: { file.version ≡ 2 },
    pub(crate) ghost second: { content.version ≡ 2 },
    pub(crate) ghost spare: { AreNone (drop content.clients content.reply_checksums) },
}
