// Where a key stands among rows in order of their keys.
ghost use Rattle.std.specs.Prelude.{IfOk, IfErr};
ghost use Rattle.df_rows.specs.Sorted.{IsAt, IsGap, KeysRise};

use crate::row::Row;

/// The place of the key's row, or the place where it would go.
pub(crate) fn find_key(rows: &[Row], key: u128) -> Result<usize, usize>
    requires { KeysRise rows.now }
    ensures found { IfOk result (IsAt rows.now key) }
    ensures absent { IfErr result (IsGap rows.now key) }
{
    rows.binary_search_by_key(&key, |row| row.key())
}
