// What a line of a script says, by cases of its first word. The grammar has one meaning for a line at most.
ghost use Rattle.std.specs.Prelude.{◌≡◌, List, ℕ, IfSome, IfNone};
ghost use Rattle.df_lines.specs.{Grammar.{Said, SaysLine, said_with, body_length, script_lines}, Words.{HasNoSpace}};

use crate::arguments::{decode, request, sized};
use crate::kind::LineKind;
use crate::line::Line;
use crate::number::{u64_of, u128_of};
use crate::words::cut;

impl LineKind for Line {
    ghost grammar = { script_lines };

    fn parse(line: &[u8], body: &mut [u8]) -> Option<Line> {
        let Some((name, words)) = cut(line) else {
            return alone(line);
        };
        match name {
            b"append" => {
                let (client, request, length) = request(words, body)?;
                Some(Line::Append {
                    client,
                    request,
                    length,
                })
            }
            b"stage" => {
                let (client, request, length) = request(words, body)?;
                Some(Line::Stage {
                    client,
                    request,
                    length,
                })
            }
            b"reply" => {
                let (op, length) = sized(words, body, u64::MAX.into())?;
                let op = op as u64;
                Some(Line::Reply { op, length })
            }
            b"block" => {
                let (kind, length) = sized(words, body, u8::MAX.into())?;
                let kind = kind as u8;
                Some(Line::Block { kind, length })
            }
            b"release" => u64_of(words).map(|address| Line::Release { address }),
            b"checkpoint" => Some(Line::Checkpoint {
                length: decode(words, body)?,
            }),
            b"prepare" => Some(Line::Prepare { op: u64_of(words)? }),
            b"lookup" => u128_of(words).map(|client| Line::Lookup { client }),
            b"read" => u64_of(words).map(|address| Line::Read { address }),
            _ => None,
        }
    }
}

/// What a line of one word says.
fn alone(line: &[u8]) -> Option<Line>
    requires { HasNoSpace line.now }
    ensures found { IfSome result (λ l. (body : List ℕ) → SaysLine line.now (said_with body l)) }
    ensures none { IfNone result ((said : Said) → SaysLine line.now said → ⊥) }
    ensures size { IfSome result (λ l. body_length l ≡ 0) }
{
    if line == b"step".as_slice() {
        return Some(Line::Step);
    }
    if line == b"flush".as_slice() {
        return Some(Line::Flush);
    }
    if line == b"scrub".as_slice() {
        return Some(Line::Scrub);
    }
    if line == b"recent".as_slice() {
        return Some(Line::Recent);
    }
    None
}
