//! A file of the system is written, anew where there is one.

use crate::sources::WriteRefused;
use std::alloc::{Alloc, AllocError, Global};
use std::fs::{
    File, Files, OpenFile, OpenOptions, metadata, remove_file, rename, set_permissions,
    symlink_metadata,
};
use std::io;
use std::io::{ErrorKind, Write};

fn refused(kind: ErrorKind) -> WriteRefused {
    match kind {
        ErrorKind::OutOfMemory => WriteRefused::OutOfMemory,
        _ => WriteRefused::Unwritable,
    }
}

// Whether there is a file of that name that may be written.
fn check<R: Files>(system: &R, name: &str) -> io::Result<()> {
    let _file = OpenOptions::new().write(true).open(system, name)?;
    Ok(())
}

// Whether the name is that of a file itself, and of no link or device.
fn is_plain<R: Files>(system: &R, name: &str) -> bool {
    match symlink_metadata(system, name) {
        Ok(found) => found.is_file(),
        Err(_) => false,
    }
}

// The bytes in the place of those that stand there.
fn write_in_place<R: Files>(system: &R, name: &str, bytes: &[u8]) -> io::Result<()> {
    let mut file = File::create(system, name)?;
    file.write_all(bytes)
}

// Fills a new file.
fn fill<F: Write + OpenFile + Drop>(file: F, bytes: &[u8]) -> io::Result<()> {
    let mut file = file;
    file.write_all(bytes)?;
    file.sync_all()
}

fn is_missing<R: Files>(system: &R, name: &str) -> bool {
    match symlink_metadata(system, name) {
        Ok(_) => false,
        Err(fault) => fault.kind() == ErrorKind::NotFound,
    }
}

// The bytes in a new file of that name, which isn't left half written.
fn write_new<R: Files>(system: &R, name: &str, bytes: &[u8]) -> io::Result<()> {
    let told = fill(File::create_new(system, name)?, bytes);
    if told.is_err() {
        let _ = remove_file(system, name);
    }
    told
}

// The new file takes the place of the old one, with its permissions.
fn take_place<R: Files>(system: &R, new: &str, name: &str) -> io::Result<()> {
    let found = metadata(system, name)?;
    set_permissions(system, new, found.permissions())?;
    rename(system, new, name)
}

// The bytes in a new file beside the old one, whose place it takes; where there can be none, in its place.
fn write_beside<R: Files>(system: &R, new: &str, name: &str, bytes: &[u8]) -> io::Result<()> {
    let Ok(file) = File::create_new(system, new) else {
        return write_in_place(system, name, bytes);
    };
    let told = fill(file, bytes).and_then(|()| take_place(system, new, name));
    if told.is_err() {
        let _ = remove_file(system, new);
    }
    told
}

// The name of the new file.
fn new_name(alloc: Global, name: &str) -> Result<String, AllocError> {
    format!(in alloc; "{name}.pramc")
}

// The bytes in the place of what is there, where they may be written.
fn write_over<R: Files>(system: &R, new: &str, name: &str, bytes: &[u8]) -> io::Result<()> {
    check(system, name)?;
    if is_plain(system, name) {
        write_beside(system, new, name, bytes)
    } else {
        write_in_place(system, name, bytes)
    }
}

/// Writes bytes in the place of what a file holds, or in a new file where there is none. They are written beside one that is there first, so
/// that a failure leaves it as it was; through a link, to what is no file, and where nothing can be made beside it, they are written in its
/// place.
pub(crate) fn write_file<R: Files + Alloc>(
    system: &R,
    alloc: Global,
    name: &str,
    bytes: &[u8],
) -> Result<(), WriteRefused> {
    let Ok(new) = new_name(alloc, name) else {
        return Err(WriteRefused::OutOfMemory);
    };
    let told = if is_missing(system, name) {
        write_new(system, name, bytes)
    } else {
        write_over(system, new.as_str(), name, bytes)
    };
    match told {
        Ok(()) => Ok(()),
        Err(fault) => Err(refused(fault.kind())),
    }
}
