// The lines that show a prepare or a reply. A body is printed in pieces through one buffer, so that none takes memory.
ghost use Rattle.std.specs.Prelude.{◌≡◌, ◌≤◌, length, codes};
ghost use Rattle.hex.specs.Hex.{encode_lower};
ghost use Rattle.df_base.specs.Causes.{HasCause};
ghost use Rattle.df_script_model.specs.Texts.{body_text, line_of};
ghost use Rattle.df_inspect.specs.{Messages.{message_front, shown_text}, Prints.{Prints}};

use crate::line::{Line, put, put_field, put_numbered, write_line};
use arrayvec::ArrayVec;
use df_base::{Failed, Sink};
use df_format::Header;
use hex::encode_to_slice;

/// How many bytes of a body one call of the sink prints at most.
const PIECE: usize = 256;

/// `prepare OP client CLIENT request REQUEST mark MARK checkpoint SEQUENCE body BODY`: a prepare that was read. The sink is
/// called once for the front, and then for pieces of the body.
pub fn print_prepare<W: Sink>(sink: &mut W, header: &Header, body: &[u8]) -> Result<(), Failed>
    ensures prints { Prints (shown_text (codes "prepare") header.now body.now) (W.written sink.old) (W.written sink.new) result }
    ensures cause { HasCause (W.faults sink.old) (W.faults sink.new) result }
{
    print_message(sink, "prepare", header, body)
}

/// `reply OP client CLIENT request REQUEST mark MARK checkpoint SEQUENCE body BODY`: a client's reply that was read.
pub fn print_reply<W: Sink>(sink: &mut W, header: &Header, body: &[u8]) -> Result<(), Failed>
    ensures prints { Prints (shown_text (codes "reply") header.now body.now) (W.written sink.old) (W.written sink.new) result }
    ensures cause { HasCause (W.faults sink.old) (W.faults sink.new) result }
{
    print_message(sink, "reply", header, body)
}

// A message after this word.
fn print_message<W: Sink>(
    sink: &mut W,
    word: &str,
    header: &Header,
    body: &[u8],
) -> Result<(), Failed>
    requires { length word.now ≤ 8 }
    ensures prints { Prints (shown_text word.now header.now body.now) (W.written sink.old) (W.written sink.new) result }
    ensures cause { HasCause (W.faults sink.old) (W.faults sink.new) result }
{
    write_line(sink, &front_line(word, header))?;
    print_body(sink, body)
}

// The front of a message's line, up to its body.
fn front_line(word: &str, header: &Header) -> Line
    requires { length word.now ≤ 8 }
    ensures { result.items ≡ message_front word.now header.now }
{
    let mut line = ArrayVec::new();
    put_numbered(&mut line, word, u128::from(header.op));
    put_field(&mut line, "client", header.client);
    put_field(&mut line, "request", u128::from(header.request));
    put_field(&mut line, "mark", u128::from(header.mark));
    put_field(&mut line, "checkpoint", u128::from(header.checkpoint));
    put(&mut line, " body ");
    line
}

/// The body that ends a line: `-` for no bytes, else two lower hexadecimal digits for each.
pub fn print_body<W: Sink>(sink: &mut W, body: &[u8]) -> Result<(), Failed>
    ensures prints { Prints (line_of (body_text body.now)) (W.written sink.old) (W.written sink.new) result }
    ensures cause { HasCause (W.faults sink.old) (W.faults sink.new) result }
{
    if body.is_empty() {
        return sink.write(b"-\n");
    }
    print_digits(sink, body)?;
    sink.write(b"\n")
}

// The digits of these bytes, in pieces.
fn print_digits<W: Sink>(sink: &mut W, bytes: &[u8]) -> Result<(), Failed>
    ensures prints { Prints (encode_lower bytes.now) (W.written sink.old) (W.written sink.new) result }
    ensures cause { HasCause (W.faults sink.old) (W.faults sink.new) result }
{
    let mut done = 0;
    while done < bytes.len() {
        let count = PIECE.min(bytes.len() - done);
        print_piece(sink, &bytes[done..done + count])?;
        done += count;
    }
    Ok(())
}

// The digits of one piece.
fn print_piece<W: Sink>(sink: &mut W, piece: &[u8]) -> Result<(), Failed>
    requires { length piece.now ≤ 256 }
    ensures prints { Prints (encode_lower piece.now) (W.written sink.old) (W.written sink.new) result }
    ensures cause { HasCause (W.faults sink.old) (W.faults sink.new) result }
{
    let mut digits = [0; 2 * PIECE];
    let into = &mut digits[..2 * piece.len()];
    let _ = encode_to_slice(piece, into);
    sink.write(into)
}
