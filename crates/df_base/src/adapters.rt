// Std's readers and writers as a source and a sink. An interrupted call is made again; each other
// error is one fault, which is counted once and never tried again.
ghost use Rattle.std.specs.{Prelude.{◌≡◌, ◌≤◌, ◌<◌, None, length, take, IfOk, OnErr, OnOk}, Io.{ReadsAtMost, WritesAtMost}, Io.KnownBytes.{Appends, Consumes, Keeps, IsAtEnd}};
ghost use Rattle.df_base.specs.Streams.{HoldsFront};

use crate::{Failed, Sink, Source};
use std::io::{self, ErrorKind, Read, Write};

/// A source over a reader. It tells no bytes. Its count of faults stops at `u64::MAX`.
#[derive(Drop)]
pub struct FromRead<R> {
    reader: R,
    faults: u64,
}

impl<R: Read> FromRead<R> {
    ghost use Rattle.df_base.specs.Adapters.{reader_of, read_faults};

    /// A source that reads from this reader.
    pub fn new(reader: R) -> FromRead<R>
        ensures reader { reader_of result ≡ reader }
        ensures faults { read_faults result ≡ 0 }
    {
        FromRead { reader, faults: 0 }
    }
}

// One read that no signal interrupted.
fn read_some<R: Read>(reader: &mut R, into: &mut [u8]) -> io::Result<usize>
    ensures bound { ReadsAtMost result into.new }
    ensures bytes { IfOk result (λ n. Consumes (R.remaining reader.old) (R.remaining reader.new) (take n into.new)) }
    ensures end { IfOk result (λ n. n ≡ 0 → 0 < length into.new → IsAtEnd (R.remaining reader.new)) }
    ensures kept { OnErr result (Keeps (R.remaining reader.old) (R.remaining reader.new)) }
{
    for _ in 0..u64::MAX {
        match reader.read(into) {
            Ok(count) => return Ok(count),
            Err(error) => {
                if error.kind() != ErrorKind::Interrupted {
                    return Err(error);
                }
            }
        }
    }
    Err(ErrorKind::Interrupted.into())
}

impl<R: Read> Source for FromRead<R> {
    ghost use Rattle.df_base.specs.Adapters.{reader_of, read_faults};
    ghost use Rattle.df_base.specs.Causes.{HasCause};

    ghost left = { λ s. None };

    ghost faults = { read_faults };

    fn read(&mut self, into: &mut [u8]) -> Result<usize, Failed>
        requires { 0 < length into.old }
        ensures bound { IfOk result (λ n. n ≤ length into.new) }
        ensures cause { HasCause (read_faults self.old) (read_faults self.new) result }

        ensures bytes { IfOk result (λ n. Consumes (R.remaining (reader_of self.old)) (R.remaining (reader_of self.new)) (take n into.new)) }
        ensures end { IfOk result (λ n. n ≡ 0 → IsAtEnd (R.remaining (reader_of self.new))) }
        ensures kept { OnErr result (Keeps (R.remaining (reader_of self.old)) (R.remaining (reader_of self.new))) }
    {
        match read_some(&mut self.reader, into) {
            Ok(count) => Ok(count),
            Err(_) => {
                self.faults = self.faults.saturating_add(1);
                Err(Failed)
            }
        }
    }
}

/// A sink over a writer, which it flushes after each piece. It tells no bytes. A writer that takes
/// nothing of bytes that are left counts as a fault. Its count of faults stops at `u64::MAX`.
#[derive(Drop)]
pub struct ToWrite<W> {
    writer: W,
    faults: u64,
}

impl<W: Write> ToWrite<W> {
    ghost use Rattle.df_base.specs.Adapters.{writer_of, write_faults};

    /// A sink that writes to this writer.
    pub fn new(writer: W) -> ToWrite<W>
        ensures writer { writer_of result ≡ writer }
        ensures faults { write_faults result ≡ 0 }
    {
        ToWrite { writer, faults: 0 }
    }
}

// One write that no signal interrupted.
fn write_some<W: Write>(writer: &mut W, bytes: &[u8]) -> io::Result<usize>
    ensures bound { WritesAtMost result bytes.now }
    ensures ok { IfOk result (λ n. Appends (W.contents writer.old) (W.contents writer.new) (take n bytes.now)) }
    ensures err { OnErr result (Keeps (W.contents writer.old) (W.contents writer.new)) }
{
    for _ in 0..u64::MAX {
        match writer.write(bytes) {
            Ok(count) => return Ok(count),
            Err(error) => {
                if error.kind() != ErrorKind::Interrupted {
                    return Err(error);
                }
            }
        }
    }
    Err(ErrorKind::Interrupted.into())
}

// A flush that no signal interrupted.
fn flush<W: Write>(writer: &mut W) -> io::Result<()>
    ensures { Keeps (W.contents writer.old) (W.contents writer.new) }
{
    for _ in 0..u64::MAX {
        match writer.flush() {
            Ok(()) => return Ok(()),
            Err(error) => {
                if error.kind() != ErrorKind::Interrupted {
                    return Err(error);
                }
            }
        }
    }
    Err(ErrorKind::Interrupted.into())
}

// Writes the whole piece, as far as the writer takes it.
fn write_whole<W: Write>(writer: &mut W, piece: &[u8]) -> io::Result<()>
    ensures ok { OnOk result (Appends (W.contents writer.old) (W.contents writer.new) piece.now) }
    ensures err { OnErr result (HoldsFront (W.contents writer.old) (W.contents writer.new) piece.now) }
{
    let mut done = 0;
    while done < piece.len() {
        let count = write_some(writer, &piece[done..])?;
        if count == 0 {
            return Err(ErrorKind::WriteZero.into());
        }
        done += count;
    }
    Ok(())
}

// Writes the whole piece and flushes it.
fn write_piece<W: Write>(writer: &mut W, piece: &[u8]) -> io::Result<()>
    ensures ok { OnOk result (Appends (W.contents writer.old) (W.contents writer.new) piece.now) }
    ensures err { OnErr result (HoldsFront (W.contents writer.old) (W.contents writer.new) piece.now) }
{
    write_whole(writer, piece)?;
    flush(writer)
}

impl<W: Write> Sink for ToWrite<W> {
    ghost use Rattle.df_base.specs.Adapters.{writer_of, write_faults};
    ghost use Rattle.df_base.specs.Causes.{HasCause};

    ghost written = { λ s. None };

    ghost faults = { write_faults };

    fn write(&mut self, piece: &[u8]) -> Result<(), Failed>
        ensures cause { HasCause (write_faults self.old) (write_faults self.new) result }

        ensures appended { OnOk result (Appends (W.contents (writer_of self.old)) (W.contents (writer_of self.new)) piece.now) }
        ensures front { OnErr result (HoldsFront (W.contents (writer_of self.old)) (W.contents (writer_of self.new)) piece.now) }
    {
        match write_piece(&mut self.writer, piece) {
            Ok(()) => Ok(()),
            Err(_) => {
                self.faults = self.faults.saturating_add(1);
                Err(Failed)
            }
        }
    }
}
