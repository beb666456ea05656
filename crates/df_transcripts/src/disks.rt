// The disks of a case: each has a name, and what it was asked so far.
use crate::trouble::Trouble;
use df_memdisk::MemoryDisk;
use std::alloc::Global;

/// A disk with a name.
#[derive(Drop)]
pub(crate) struct Named {
    pub name: String,
    pub disk: MemoryDisk,
    /// How many events its log had when that was last marked.
    pub mark: u64,
    /// How many calls and events it had before the last run.
    pub before: (u64, u64),
    /// Writes of the next run that are lost.
    pub lost: Vec<u64>,
}

impl Named {
    /// A disk of this name.
    pub(crate) fn new(alloc: Global, name: &str, disk: MemoryDisk) -> Result<Named, Trouble> {
        Ok(Named {
            name: String::from_str(alloc, name)?,
            disk,
            mark: 0,
            before: (0, 0),
            lost: Vec::new(alloc),
        })
    }

    /// Remembers what it was asked so far.
    pub(crate) fn begin_run(&mut self) {
        self.before = (self.disk.calls(), self.disk.events());
    }
}

/// The disks of a case.
#[derive(Drop)]
pub(crate) struct Disks {
    list: Vec<Named>,
}

impl Disks {
    /// None.
    pub(crate) fn new(alloc: Global) -> Disks {
        Disks {
            list: Vec::new(alloc),
        }
    }

    fn place(&self, name: &str) -> Option<usize> {
        self.list
            .iter()
            .position(|named| named.name.as_str() == name)
    }

    /// Takes the disk of this name out.
    pub(crate) fn take(&mut self, name: &str) -> Result<Named, Trouble> {
        match self.place(name) {
            Some(place) if place < self.list.len() => Ok(self.list.swap_remove(place)),
            _ => Err(Trouble::NoMeaning("no such disk")),
        }
    }

    /// Puts a disk in the place of one of its name, if there is one.
    pub(crate) fn put(&mut self, named: Named) -> Result<(), Trouble> {
        let _ = self.take(named.name.as_str());
        self.list.push(named)?;
        Ok(())
    }

    /// The disk of this name.
    pub(crate) fn get(&mut self, name: &str) -> Result<&mut Named, Trouble> {
        match self
            .list
            .iter_mut()
            .find(|named| named.name.as_str() == name)
        {
            Some(named) => Ok(named),
            None => Err(Trouble::NoMeaning("no such disk")),
        }
    }

    /// Remembers what each was asked so far.
    pub(crate) fn begin_run(&mut self) {
        for named in self.list.iter_mut() {
            named.begin_run();
        }
    }

    /// Whether a disk was refused memory.
    pub(crate) fn are_refused(&self) -> bool {
        self.list.iter().any(|named| named.disk.refused() != 0)
    }
}
