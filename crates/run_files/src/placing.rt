//! A text put in the place of another, whole or not at all.

use crate::names::{folder_of, joined, name_of};
use crate::reading::read_file;
use crate::trouble::Trouble;
use std::alloc::{AllocError, Global};
use std::fs::{File, Metadata, OpenOptions, Permissions};
use std::io::{ErrorKind, Write};
use std::os::unix::fs::{MetadataExt, OpenOptionsExt, PermissionsExt, fchown};
use std::time::SystemTime;
use std::{fs, io};

/// The end of the name of a file that a run writes beside another.
const ENDING: &str = ".delvaram~";

/// How many names are tried for such a file.
const TRIES: u32 = 1000;

/// The age in seconds from which on a file is taken to be left by a run that was killed.
const OLD: u64 = 60;

/// The bits of a mode that say who may do what.
const BITS: u32 = 0o7777;

/// The mode of a file that isn't finished.
const OWN: u32 = 0o600;

/// The mode of a new file, from which the system takes what the user's mask has.
const USUAL: u32 = 0o666;

/// Whether a run gives this name to a file that it writes beside another.
pub(crate) fn is_beside(name: &str) -> bool {
    name.starts_with('.') && name.ends_with(ENDING)
}

/// The path of a file beside another.
fn beside(alloc: Global, path: &str, number: u32) -> Result<String, AllocError> {
    let name = name_of(path);
    let name = format!(in alloc; ".{name}.{number}{ENDING}")?;
    joined(alloc, folder_of(path), name.as_str())
}

/// Makes a new file beside another.
fn make(rt: &HostRuntime, path: &str, mode: u32) -> io::Result<(String, File)> {
    let mut options = OpenOptions::new();
    options.write(true).create_new(true).mode(mode);
    for number in 0..TRIES {
        let name = beside(rt.alloc(), path, number)?;
        match options.open(rt, name.as_str()) {
            Ok(file) => return Ok((name, file)),
            Err(error) if error.kind() == ErrorKind::AlreadyExists => {}
            Err(error) => return Err(error),
        }
    }
    Err(io::Error::from(ErrorKind::AlreadyExists))
}

/// Gives a new file the owner and the mode of an old one.
fn give(file: &File, old: &Metadata) -> io::Result<()> {
    let own = file.metadata()?;
    if own.uid() != old.uid() || own.gid() != old.gid() {
        fchown(file, Some(old.uid()), Some(old.gid()))?;
    }
    file.set_permissions(Permissions::from_mode(old.mode() & BITS))
}

/// Writes a text to a new file, and has it kept.
fn fill(mut file: File, text: &[u8], old: Option<&Metadata>) -> io::Result<()> {
    file.write_all(text)?;
    if let Some(old) = old {
        give(&file, old)?;
    }
    file.sync_all()
}

/// Has it kept which names a folder has, where the system does so.
fn keep_names(rt: &HostRuntime, path: &str) {
    if let Ok(folder) = File::open(rt, folder_of(path)) {
        let _ = folder.sync_all();
    }
}

/// Gives a file that is written the name that it is for.
fn settle(rt: &HostRuntime, name: &str, path: &str) -> io::Result<()> {
    fs::rename(rt, name, path)?;
    keep_names(rt, path);
    Ok(())
}

/// Whether a file has a text.
fn has_text(rt: &HostRuntime, path: &str, text: &[u8]) -> bool {
    match read_file(rt, path) {
        Ok(bytes) => bytes.as_slice() == text,
        Err(_) => false,
    }
}

/// What comes of a file that was to be put in a place: where that failed, it is taken away.
fn ended(rt: &HostRuntime, name: &str, done: io::Result<()>) -> Result<(), Trouble> {
    match done {
        Ok(()) => Ok(()),
        Err(error) => {
            let _ = fs::remove_file(rt, name);
            Err(Trouble::System(error))
        }
    }
}

/// Puts a text in the place of the one that a file was read to have: in a file beside it, with its owner and its mode, which is
/// synced and then renamed. So at each time the file has the old text or the new one, whole. A link is followed.
///
/// # Errors
///
/// `Changed` where the file has another text by then, and `System`: the file is left as it is.
pub fn replace(rt: &HostRuntime, path: &str, old: &[u8], new: &[u8]) -> Result<(), Trouble> {
    let path = fs::canonicalize(rt, path)?.into_string();
    let path = path.as_str();
    let metadata = fs::metadata(rt, path)?;
    let (name, file) = make(rt, path, OWN)?;
    let name = name.as_str();
    ended(rt, name, fill(file, new, Some(&metadata)))?;
    if !has_text(rt, path, old) {
        let _ = fs::remove_file(rt, name);
        return Err(Trouble::Changed);
    }
    ended(rt, name, settle(rt, name, path))
}

/// Puts a text in a new file, or in the place of a file that is there, whose owner and mode it gets. The folders of the path are
/// made where they aren't there.
///
/// # Errors
///
/// `System`: what is there is left as it is.
pub fn create(rt: &HostRuntime, path: &str, text: &[u8]) -> Result<(), Trouble> {
    fs::create_dir_all(rt, folder_of(path))?;
    let whole = match fs::canonicalize(rt, path) {
        Ok(whole) => whole.into_string(),
        Err(_) => String::from_str(rt.alloc(), path).map_err(io::Error::from)?,
    };
    let path = whole.as_str();
    let old = fs::metadata(rt, path).ok();
    let mode = if old.is_some() { OWN } else { USUAL };
    let (name, file) = make(rt, path, mode)?;
    let name = name.as_str();
    ended(rt, name, fill(file, text, old.as_ref()))?;
    ended(rt, name, settle(rt, name, path))
}

/// Whether a file is so old that a run which was killed has left it.
fn is_old(rt: &HostRuntime, path: &str) -> io::Result<bool> {
    let changed = fs::symlink_metadata(rt, path)?.modified()?;
    Ok(match SystemTime::now(rt)?.duration_since(changed) {
        Ok(age) => age.as_secs() > OLD,
        Err(_) => false,
    })
}

/// Takes away files that runs have left beside others, by their names, where they are older than a minute. What can't be taken
/// away stays.
pub fn remove_old(rt: &HostRuntime, paths: &[String]) {
    for path in paths {
        if let Ok(true) = is_old(rt, path.as_str()) {
            let _ = fs::remove_file(rt, path.as_str());
        }
    }
}
