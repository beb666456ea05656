// A line of the script beside its body, and the command that it asks for.
ghost use Rattle.std.specs.Prelude.{◌≡◌, ◌≤◌, length};
ghost use Rattle.df_inspect.specs.Answers.{command_of as call_of};
ghost use Rattle.df_lines.specs.Grammar.{body_length, said_with};
ghost use Rattle.df_top.specs.Lines.{command_of_line};

use df_lines::{Line, LineRoom};
use df_model::Command;

/// The line that was read last, whose body is in the reader's buffer.
#[derive(Clone, Copy)]
pub struct Spoken<'a> {
    pub line: Line,
    pub lines: &'a LineRoom,
    pub ghost fits: { body_length line ≤ length lines.now.body },
}

impl<'a> From<Spoken<'a>> for Command<'a> {
    ghost from_gives = { λ spoken command. call_of command ≡ command_of_line (said_with spoken.lines.now.body spoken.line) };

    fn from(spoken: Spoken<'a>) -> Command<'a> {
        let lines = spoken.lines;
        match spoken.line {
            Line::Append {
                client,
                request,
                length,
            } => Command::Append {
                client,
                request,
                body: lines.body(length),
            },
            Line::Stage {
                client,
                request,
                length,
            } => Command::Stage {
                body: lines.body(length),
                client,
                request,
            },
            Line::Flush => Command::Flush,
            Line::Reply { op, length } => Command::Reply {
                op,
                body: lines.body(length),
            },
            Line::Block { kind, length } => Command::WriteBlock {
                kind,
                body: lines.body(length),
            },
            Line::Release { address } => Command::Release { address },
            Line::Checkpoint { length } => Command::Begin {
                root: lines.body(length),
            },
            Line::Step => Command::Advance,
            Line::Prepare { op } => Command::ReadPrepare { op },
            Line::Lookup { client } => Command::ReadReply { client },
            Line::Read { address } => Command::ReadBlock { address },
            Line::Scrub => Command::Scrub,
            Line::Recent => Command::Recent,
        }
    }
}
