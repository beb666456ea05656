// Bytes in the making, in a buffer of their own and without taking memory: those of a row, and of a command's body.
ghost use Rattle.std.specs.Prelude.{◌≡◌, ◌≤◌, ◌+◌, ◌++◌, length, replicate};
ghost use Rattle.df_base.specs.Fields.{spelled};

use arrayvec::ArrayVec;
use df_base::put_u128;

/// Bytes of a row in a block. The body of a command has as many at most.
pub const ROW: usize = 64;

/// The bytes of a row, or of a command's body.
pub type RowBytes = ArrayVec<u8, ROW>;

/// Bytes of a key.
pub(crate) const KEY: usize = 16;

/// Puts bytes at the end.
pub(crate) fn put(bytes: &mut RowBytes, more: &[u8])
    requires { length bytes.old.items + length more.now ≤ 64 }
    ensures put { bytes.new.items ≡ bytes.old.items ++ more.now }
    ensures room { length bytes.new.items ≡ length bytes.old.items + length more.now }
{
    let _ = bytes.try_extend_from_slice(more);
}

/// Puts a key at the end, the lowest byte first.
pub(crate) fn put_key(bytes: &mut RowBytes, key: u128)
    requires { length bytes.old.items + 16 ≤ 64 }
    ensures put { bytes.new.items ≡ bytes.old.items ++ spelled 16 key }
    ensures room { length bytes.new.items ≡ length bytes.old.items + 16 }
{
    let mut field = [0; KEY];
    put_u128(&mut field, 0, key);
    put(bytes, &field);
}

/// Puts zeros at the end.
pub(crate) fn put_zeros(bytes: &mut RowBytes, count: usize)
    requires { length bytes.old.items + count ≤ 64 }
    ensures put { bytes.new.items ≡ bytes.old.items ++ replicate count 0 }
    ensures room { length bytes.new.items ≡ length bytes.old.items + count }
{
    let zeros = [0; ROW];
    put(bytes, &zeros[..count]);
}
