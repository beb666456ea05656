// A system that makes no pipe and may deny the root folder, and whose files read as a list says.
use std::alloc::Allocator;
use std::cell::Cell;
use std::fs::{File, Metadata, OpenFile, OpenOptions};
use std::io::{self, ErrorKind, Read, Seek, SeekFrom, Write};
use std::os::unix::fs::FileExt;
use std::rt::Files;

/// What a file does at one read.
#[derive(Clone, Copy)]
pub(crate) enum Turn {
    Gives(usize),
    Interrupted,
    Breaks,
}

/// A file whose reads follow a list of turns. Each byte that it gives is the last of the offset.
#[derive(Drop)]
pub(crate) struct Scripted<'a> {
    file: File,
    turns: &'a [Turn],
    reads: Cell<usize>,
}

fn unsupported() -> io::Error {
    ErrorKind::Unsupported.into()
}

impl<'a> FileExt for Scripted<'a> {
    fn read_at(&self, into: &mut [u8], offset: u64) -> io::Result<usize> {
        let read = self.reads.get();
        self.reads.set(read.wrapping_add(1));
        match self.turns.get(read).copied() {
            Some(Turn::Gives(most)) => {
                let count = most.min(into.len());
                into[..count].fill((offset & 0xff) as u8);
                Ok(count)
            }
            Some(Turn::Interrupted) => Err(ErrorKind::Interrupted.into()),
            Some(Turn::Breaks) | None => Err(ErrorKind::Other.into()),
        }
    }

    fn write_at(&self, bytes: &[u8], offset: u64) -> io::Result<usize> {
        self.file.write_at(bytes, offset)
    }
}

impl<'a> OpenFile for Scripted<'a> {
    fn metadata(&self) -> io::Result<Metadata> {
        self.file.metadata()
    }

    fn set_len(&self, _size: u64) -> io::Result<()> {
        Err(unsupported())
    }

    fn sync_all(&self) -> io::Result<()> {
        self.file.sync_all()
    }

    fn sync_data(&self) -> io::Result<()> {
        self.file.sync_data()
    }
}

impl<'a> Read for Scripted<'a> {
    fn read(&mut self, _into: &mut [u8]) -> io::Result<usize> {
        Err(unsupported())
    }
}

impl<'a> Write for Scripted<'a> {
    fn write(&mut self, _bytes: &[u8]) -> io::Result<usize> {
        Err(unsupported())
    }

    fn flush(&mut self) -> io::Result<()> {
        Err(unsupported())
    }
}

impl<'a> Seek for Scripted<'a> {
    fn seek(&mut self, _to: SeekFrom) -> io::Result<u64> {
        Err(unsupported())
    }
}

/// A system that makes no pipe, so that it can't tell which streams are open, and that may deny the root folder.
#[derive(Drop)]
pub(crate) struct Guarded<'a> {
    rt: &'a HostRuntime,
    denies_root: bool,
    turns: &'a [Turn],
}

impl<'a> Guarded<'a> {
    /// One that opens every path; each file's reads follow these turns.
    pub(crate) fn new(rt: &'a HostRuntime, turns: &'a [Turn]) -> Guarded<'a> {
        Guarded {
            rt,
            denies_root: false,
            turns,
        }
    }

    pub(crate) fn denying_root(rt: &'a HostRuntime) -> Guarded<'a> {
        Guarded {
            rt,
            denies_root: true,
            turns: &[],
        }
    }
}

impl<'a> Files for Guarded<'a> {
    type File = Scripted<'a>;

    type Dir = File;

    fn open_file(&self, how: &OpenOptions, path: &str) -> io::Result<Scripted<'a>> {
        if self.denies_root && path == "/" {
            return Err(ErrorKind::PermissionDenied.into());
        }
        Ok(Scripted {
            file: self.rt.open_file(how, path)?,
            turns: self.turns,
            reads: Cell::new(0),
        })
    }

    fn open_dir(&self, _path: &str) -> io::Result<File> {
        Err(unsupported())
    }

    fn metadata(&self, _path: &str) -> io::Result<Metadata> {
        Err(unsupported())
    }

    fn symlink_metadata(&self, _path: &str) -> io::Result<Metadata> {
        Err(unsupported())
    }

    fn copy(&self, _from: &str, _to: &str) -> io::Result<u64> {
        Err(unsupported())
    }

    fn rename(&self, _from: &str, _to: &str) -> io::Result<()> {
        Err(unsupported())
    }

    fn remove_file(&self, _path: &str) -> io::Result<()> {
        Err(unsupported())
    }

    fn create_dir(&self, _path: &str) -> io::Result<()> {
        Err(unsupported())
    }

    fn remove_dir(&self, _path: &str) -> io::Result<()> {
        Err(unsupported())
    }

    fn remove_dir_all<B: Allocator>(&self, _alloc: B, _path: &str) -> io::Result<()> {
        Err(unsupported())
    }
}
