// The disk over a file. It counts its faults and tells nothing else, since no contract can say what
// a file holds.
ghost use Rattle.std.specs.Prelude.{◌≡◌, ◌⊎◌, length, OnErr, OnOk};
ghost use Rattle.df_base.specs.{Causes.{HasCause}, Log.{Write, Sync}};
ghost use Rattle.df_disk.specs.Told.{AreSectors, Shows, after};
ghost use Rattle.df_filedisk.specs.Tells.{tells};

use crate::opening::{Opened, open_or_make, sync_folder};
use crate::positioned::{read_whole, write_whole};
use df_base::{Failed, SECTOR};
use df_disk::Disk;
use std::fs::OpenFile;
use std::io::{self, ErrorKind};
use std::marker::Model;
use std::os::unix::fs::FileExt;
use std::rt::Files;

/// A disk over one file, which is opened for reading and writing on first use, and made where there
/// is none. It never stands in for a standard stream that is closed: where that isn't sure, nothing is opened and the call
/// fails. A read after the end of the file gives zeros. `sync` asks the operating system to make
/// the data durable, with what is needed to read it again; the first sync of a file that was made
/// also syncs its folder. Each call that fails counts as one fault, and none is tried again.
/// Contracts see the disk as its count of faults, which stops at `u64::MAX`.
#[derive(Drop)]
pub struct FileDisk<'a, R: Files> {
    rt: &'a R,
    path: String,
    file: Option<R::File>,
    is_new: bool,
    faults: u64,
}

impl<'a, R: Files> Model for FileDisk<'a, R> {
    ghost use Rattle.std.specs.Prelude.{ℕ};

    ghost Value = { ℕ };

    ghost view = { λ d. d.faults };
}

impl<'a, R: Files> FileDisk<'a, R> {
    /// A disk over the file at this path, which isn't opened yet.
    pub fn new(rt: &'a R, path: String) -> FileDisk<'a, R>
        ensures { result ≡ 0 }
    {
        FileDisk {
            rt,
            path,
            file: None,
            is_new: false,
            faults: 0,
        }
    }

    // Opens the file at the first call.
    fn open_once(&mut self) -> io::Result<()>
        ensures { self.new ≡ self.old }
    {
        if self.file.is_none() {
            let Opened { file, is_new } = open_or_make(self.rt, self.path.as_str())?;
            self.file = Some(file);
            self.is_new = is_new;
        }
        Ok(())
    }

    // Makes the name of a new file durable.
    fn sync_name(&mut self) -> io::Result<()>
        ensures { self.new ≡ self.old }
    {
        if self.is_new {
            sync_folder(self.rt, self.path.as_str())?;
            self.is_new = false;
        }
        Ok(())
    }

    // Counts the fault of an answer that is one.
    fn counts(&mut self, answer: io::Result<()>) -> Result<(), Failed>
        ensures cause { HasCause self.old self.new result }
    {
        match answer {
            Ok(()) => Ok(()),
            Err(_) => {
                self.faults = self.faults.saturating_add(1);
                Err(Failed)
            }
        }
    }
}

impl<'a, R: Files> FileDisk<'a, R>
where
    R::File: FileExt,
{
    fn try_read(&mut self, at: u64, into: &mut [u8]) -> io::Result<()>
        requires { AreSectors at (length into.old) }
        ensures { self.new ≡ self.old }
    {
        self.open_once()?;
        match &self.file {
            Some(file) => read_whole(file, into, at * SECTOR as u64),
            None => Err(ErrorKind::NotFound.into()),
        }
    }

    fn try_write(&mut self, at: u64, bytes: &[u8]) -> io::Result<()>
        requires { AreSectors at (length bytes.now) }
        ensures { self.new ≡ self.old }
    {
        self.open_once()?;
        match &self.file {
            Some(file) => write_whole(file, bytes, at * SECTOR as u64),
            None => Err(ErrorKind::NotFound.into()),
        }
    }

    fn try_sync(&mut self) -> io::Result<()>
        ensures { self.new ≡ self.old }
    {
        self.open_once()?;
        match &self.file {
            Some(file) => file.sync_data()?,
            None => return Err(ErrorKind::NotFound.into()),
        }
        self.sync_name()
    }
}

impl<'a, R: Files> Disk for FileDisk<'a, R>
where
    R::File: FileExt,
{
    ghost told = { tells };

    ghost faults = { λ d. d };

    fn read(&mut self, at: u64, into: &mut [u8]) -> Result<(), Failed>
        requires { AreSectors at (length into.old) }
        ensures bytes { OnOk result (Shows (tells self.old) at into.new) }
        ensures same { tells self.new ≡ tells self.old }
        ensures cause { HasCause self.old self.new result }
    {
        let answer = self.try_read(at, into);
        self.counts(answer)
    }

    fn write(&mut self, at: u64, bytes: &[u8]) -> Result<(), Failed>
        requires { AreSectors at (length bytes.now) }
        ensures ok { OnOk result (tells self.new ≡ after (Write at bytes.now) (tells self.old)) }
        ensures err { OnErr result ((tells self.new ≡ tells self.old) ⊎ (tells self.new ≡ after (Write at bytes.now) (tells self.old))) }
        ensures cause { HasCause self.old self.new result }
    {
        let answer = self.try_write(at, bytes);
        self.counts(answer)
    }

    fn sync(&mut self) -> Result<(), Failed>
        ensures ok { OnOk result (tells self.new ≡ after Sync (tells self.old)) }
        ensures err { OnErr result (tells self.new ≡ tells self.old) }
        ensures cause { HasCause self.old self.new result }
    {
        let answer = self.try_sync();
        self.counts(answer)
    }
}
