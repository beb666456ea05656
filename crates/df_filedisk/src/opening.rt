// Opening the file, and the folder that a new file stands in: a file is durable only once its name
// is, and the name is the folder's data.
use crate::streams::stand_in;
use std::fs::{OpenFile, OpenOptions};
use std::io;
use std::path::Path;
use std::rt::Files;

/// A file for reading and writing, and whether its name may not be durable yet.
pub struct Opened<F> {
    pub file: F,
    pub is_new: bool,
}

/// Opens the file, and makes an empty one where there is none; but touches nothing where it might get the number of a
/// standard stream. An empty file counts as new: who made it may have been stopped before its name was durable.
pub fn open_or_make<R: Files>(rt: &R, path: &str) -> io::Result<Opened<R::File>> {
    let _stand_ins = stand_in(rt)?;
    let file = OpenOptions::new()
        .read(true)
        .write(true)
        .create(true)
        .open(rt, path)?;
    let is_new = file.metadata()?.len() == 0;
    Ok(Opened { file, is_new })
}

/// Makes the names in the file's folder durable.
pub fn sync_folder<R: Files>(rt: &R, path: &str) -> io::Result<()> {
    let parent = Path::new(path)
        .parent()
        .map_or("", |folder| folder.as_str());
    let folder = if parent.is_empty() { "." } else { parent };
    OpenOptions::new().read(true).open(rt, folder)?.sync_all()
}
