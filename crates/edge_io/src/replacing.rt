//! A file gets its bytes by another one that takes its name.

use crate::machine::write_whole;
use std::alloc::Global;
use std::fs::{File, Metadata, OpenFile, OpenOptions};
use std::io::ErrorKind;
use std::os::unix::fs::MetadataExt;
use std::rt::Files;
use std::{fs, io};

/// How many names are tried for the new file.
const NAMES: u32 = 9;

/// A new file, and where it is.
#[derive(Drop)]
struct NewFile<F> {
    path: String,
    file: F,
}

/// Gives the file of this name these bytes by a new file beside it, which takes its name once it is on the disk:
/// so a crash leaves the old bytes or the new ones. False where the file has to be written in place. Then, and
/// after an error, it is as before, and the new file is removed, if that can be.
pub(crate) fn replace<R: Files>(
    rt: &R,
    alloc: Global,
    name: &str,
    bytes: &[u8],
) -> io::Result<bool> {
    let old = match fs::symlink_metadata(rt, name) {
        Ok(old) => Some(old),
        Err(error) if error.kind() == ErrorKind::NotFound => None,
        Err(_) => return Ok(false),
    };
    if let Some(old) = &old
        && !may_be_replaced(rt, name, old)
    {
        return Ok(false);
    }
    match new_beside(rt, alloc, name)? {
        Some(new) => replace_by(rt, new, name, &old, bytes),
        None => Ok(false),
    }
}

/// Whether another file may take this one's name. It is an ordinary file, and no link. It has no other name, which
/// would keep the old bytes. And it may be written: where it may not, no other file does it in its place.
fn may_be_replaced<R: Files>(rt: &R, name: &str, old: &Metadata) -> bool {
    old.is_file() && old.nlink() == 1 && OpenOptions::new().write(true).open(rt, name).is_ok()
}

/// Whether a call failed for want of space on the disk, or of what a user may take of it. What is written in place
/// then would be lost, since that begins by emptying the file.
fn has_no_space(error: &io::Error) -> bool {
    matches!(
        error.kind(),
        ErrorKind::StorageFull | ErrorKind::QuotaExceeded
    )
}

/// Whether a sync failed because the file system has none.
fn has_no_sync(error: &io::Error) -> bool {
    matches!(
        error.kind(),
        ErrorKind::InvalidInput | ErrorKind::Unsupported
    )
}

/// A new file beside the one of this name, under the first of some names that nothing has. None where there
/// can't be one, though there is space.
fn new_beside<R: Files>(rt: &R, alloc: Global, name: &str) -> io::Result<Option<NewFile<R::File>>> {
    for number in 1..=NAMES {
        let path = format!(in alloc; "{name}.new{number}")?;
        match File::create_new(rt, path.as_str()) {
            Ok(file) => return Ok(Some(NewFile { path, file })),
            Err(error) if error.kind() == ErrorKind::AlreadyExists => {}
            Err(error) if has_no_space(&error) => return Err(error),
            Err(_) => return Ok(None),
        }
    }
    Ok(None)
}

/// What [`replace`] does by this new file.
fn replace_by<R: Files>(
    rt: &R,
    mut new: NewFile<R::File>,
    name: &str,
    old: &Option<Metadata>,
    bytes: &[u8],
) -> io::Result<bool> {
    let replaced = fill_and_rename(rt, &mut new, name, old, bytes);
    if !matches!(replaced, Ok(true)) {
        let _ = fs::remove_file(rt, new.path.as_str());
    }
    replaced
}

/// Writes the new file, and gives it the name. False where it can't be as the old one is, or, though there is
/// space, can't be synced or have the name.
fn fill_and_rename<R: Files>(
    rt: &R,
    new: &mut NewFile<R::File>,
    name: &str,
    old: &Option<Metadata>,
    bytes: &[u8],
) -> io::Result<bool> {
    if let Some(old) = old
        && !is_made_as(&new.file, old)
    {
        return Ok(false);
    }
    write_whole(&mut new.file, bytes)?;
    match new.file.sync_all() {
        Ok(()) => {}
        Err(error) if has_no_sync(&error) => return Ok(false),
        Err(error) => return Err(error),
    }
    match fs::rename(rt, new.path.as_str(), name) {
        Ok(()) => Ok(true),
        Err(error) if has_no_space(&error) => Err(error),
        Err(_) => Ok(false),
    }
}

/// Gives the new file the old one's permissions, before it has a byte. False where it can't have them, or has
/// another owner or group.
fn is_made_as<F: OpenFile>(new: &F, old: &Metadata) -> bool {
    match new.metadata() {
        Ok(made) => {
            made.uid() == old.uid()
                && made.gid() == old.gid()
                && new.set_permissions(old.permissions()).is_ok()
        }
        Err(_) => false,
    }
}
