// What a line of a table's script says, by cases of its first word. The grammar has one meaning for a line at most.
ghost use Rattle.df_rows.specs.Grammar.{table_lines};

use crate::line::Line;
use df_lines::{LineKind, cut, sized, u128_of};

impl LineKind for Line {
    ghost grammar = { table_lines };

    fn parse(line: &[u8], body: &mut [u8]) -> Option<Line> {
        let Some((name, words)) = cut(line) else {
            return (line == b"count".as_slice()).then_some(Line::Count);
        };
        match name {
            b"put" => {
                let (key, length) = sized(words, body, u128::MAX)?;
                Some(Line::Put { key, length })
            }
            b"drop" => Some(Line::Drop {
                key: u128_of(words)?,
            }),
            b"get" => Some(Line::Get {
                key: u128_of(words)?,
            }),
            _ => None,
        }
    }
}
