// Reads and writes of whole buffers at an offset of a file, one system call where it does all. No
// offset lies after the last of 2^40 sectors of 4096 bytes.
ghost use Rattle.std.specs.{Prelude.{◌+◌, ◌≤◌, ◌^◌, length}, Io.{ReadsAtMost}};

use std::io::{self, ErrorKind};
use std::os::unix::fs::FileExt;

// One read that no signal interrupted.
fn read_some<F: FileExt>(file: &F, into: &mut [u8], offset: u64) -> io::Result<usize>
    ensures { ReadsAtMost result into.new }
{
    for _ in 0..u64::MAX {
        match file.read_at(into, offset) {
            Ok(count) => return Ok(count),
            Err(error) => {
                if error.kind() != ErrorKind::Interrupted {
                    return Err(error);
                }
            }
        }
    }
    Err(ErrorKind::Interrupted.into())
}

/// Fills the buffer from an offset in bytes on, with zeros after the end of the file.
pub fn read_whole<F: FileExt>(file: &F, into: &mut [u8], offset: u64) -> io::Result<()>
    requires { offset + length into.old ≤ 2 ^ 52 }
{
    let mut done = 0;
    while done < into.len() {
        let count = read_some(file, &mut into[done..], offset + done as u64)?;
        if count == 0 {
            into[done..].fill(0);
            return Ok(());
        }
        done += count;
    }
    Ok(())
}

/// Writes all bytes from an offset in bytes on.
pub fn write_whole<F: FileExt>(file: &F, bytes: &[u8], offset: u64) -> io::Result<()>
    requires { offset + length bytes.now ≤ 2 ^ 52 }
{
    file.write_all_at(bytes, offset)
}
