//! What stands in a folder of the system.

use std::alloc::{Alloc, AllocError, Global};
use std::fs::{Files, read_dir};

/// The most names of a folder that are looked at.
const MOST: usize = 4096;

/// A name parted into that of the folder and that of the file in it.
pub(crate) fn parted(name: &str) -> (&str, &str) {
    match name.rsplit_once('/') {
        None => (".", name),
        Some(("", last)) => ("/", last),
        Some(parts) => parts,
    }
}

/// The names of what stands in a folder, in order, and none where it can't be read.
pub(crate) fn names_in<R: Files + Alloc + Clone + Drop>(
    rt: &R,
    alloc: Global,
    folder: &str,
) -> Result<Vec<Vec<u8>>, AllocError> {
    let mut names = Vec::new(alloc);
    let Ok(entries) = read_dir(rt, folder) else {
        return Ok(names);
    };
    for entry in entries.take(MOST) {
        if let Ok(entry) = entry {
            names.push(Vec::from_slice(alloc, entry.file_name().as_bytes())?)?;
        }
    }
    names.sort()?;
    Ok(names)
}
